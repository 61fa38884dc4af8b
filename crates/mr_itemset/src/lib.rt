//! Knowledge by sets of items.
//!
//! A replica of many items knows the same versions of most of them. So what is known for all items is kept
//! once, and beside it a vector for each item of which more is known. A version that is learned for one
//! item is known for all: it belongs to one item, and says nothing of the others. Knowledge by sets of items is an
//! idea of V. Ramasubramanian and others, *Cimbiosys* (NSDI 2009).
//!
//! Each knowledge has one value, its normal form: no listed vector has only what is known for all items. So
//! two values are equal exactly where they know the same. `fragments` gives the normal form as it travels,
//! with the items of one vector together, as many as a fragment lists, and the rest in further fragments;
//! and `text` shows it, as `all 0:4; 0.1,0.5 0:4,1:1`.
//!
//! A version that comes before earlier ones of its author leaves these as holes. The holes of messages that
//! were edited since, or that are not picked, stay, and a column has no more than so many. So
//! [`SparingKnowledge`] learns a version for all items only where that costs no hole too many: where it is its
//! author's first, or all items have the one before it, or its author's column for all items has fewer than
//! [`SPARED_HOLES`] holes. Any other version is learned for its item alone, which is then listed. An item's
//! first version goes along with one that follows it, so a message that was edited right after it was made
//! leaves no hole.
//!
//! The fragments of a sparing knowledge say each thing once: what all items have in the first, and of each
//! listed item what all items lack, in the column with the fewest holes that leaves the meaning as it is, as
//! `0.83 0:83!1..82` where all items have the versions up to 82 but for a few.
//!
//! A version that is learned would grow the vector of each listed item. So it waits instead, with others,
//! beside what is settled: an item's versions are those of its settled vector and those that wait. While the
//! holes of any settled column and of any waiting one stay within a column's limit together, learning looks
//! at no listed item but its own. Where they may not, what waits is put into the settled vectors first. What
//! a fragment tells of all items waits too. No caller sees which versions wait: each value is its normal form.
#![tactic(auto)]

mod below;
mod each;
mod equal;
mod form;
mod fragments;
mod groups;
mod grow;
mod item;
mod knowledge;
mod laws;
mod learn;
mod limits;
mod listing;
mod merge;
mod merging;
mod more;
mod pending;
mod rule;
mod settled;
mod sparing;
mod steps;
mod told;
mod views;
mod with;

pub use form::{one_choice, one_normal_form, one_value};
pub use knowledge::{ItemKnowledge, ItemsUpTo, Listed};
pub use rule::SPARED_HOLES;
pub use sparing::{MAX_LISTED_ITEMS, SparingKnowledge};
