//! Concise sets of versions.
//!
//! A replica knows most versions of an author up to some counter, and lacks a few. So a vector keeps, for
//! each author of which it has something, a column: a bound that is covered, and the holes below it, which
//! are ranges of counters that are not covered. A text shows it: `0:9!2!5..7,1:4` has the versions 1 to 9
//! of author 0 but for 2 and 5 to 7, and the versions 1 to 4 of author 1.
//!
//! Each set of versions has one vector: no column is empty, each bound is covered, and holes are in order,
//! with covered counters between them. So two vectors are equal exactly where they have the same versions.
//! A column has at most 4,096 holes. A call whose result would have a column with more answers
//! `TooManyHoles` and changes nothing, also where memory is wanting; `concise_fragments` alone may answer
//! `OutOfMemory` in its place.
//!
//! The idea of one vector with exceptions is that of D. Malkhi and D. Terry, *Concise Version Vectors in WinFS*
//! (DISC 2005); holes within an author's column are our own form of it.
//!
//! A set in any other form becomes a vector by `from_set`, and the fragments of a knowledge get concise
//! vectors by `concise_fragments`. `knowledge_text` shows them, as `all 0:1; 0.3,0.5 0:9!2!5..7`.
//!
//! ```
//! let mut vector = ConciseVector::from_versions(alloc, &versions)?;
//! vector.union(&other)?;
//! assert!(vector.covers(&other));
//! println!(rt; "{vector}")?;
//! ```
#![tactic(auto)]

mod as_fragment;
mod column;
mod column_ref;
mod fragments;
mod holes;
mod order;
mod set;
mod source;
mod sweep;
mod union;
mod vector;

pub use as_fragment::AsFragment;
pub use column::{COUNTERS_END, Column, Hole, MAX_HOLES};
pub use fragments::{concise_fragments, knowledge_text};
pub use source::{AnyOf, OfSet, Source, lower_author, lower_counter};
pub use sweep::{has_fewer_holes, hole_count, most_holes, would_have_too_many};
pub use union::both_have_fewer_holes;
pub use vector::{AuthorColumn, ConciseVector};
