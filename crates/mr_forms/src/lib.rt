//! Sets of versions and knowledge, in any form.
//!
//! A replica has to say which versions it knows, for each item. It does so by two traits: a
//! `VersionSet` is a set of versions, and a `Knowledge` is a set of pairs of an item and a version. Both
//! say their answers by what the values mean, so that a replica is written once, over the traits, and
//! proved once. A form may keep its values as it likes, and may have no value for some sets, as one that
//! keeps a limited number of gaps: a call whose result would be such a set answers a fault and changes
//! nothing. Knowledge travels as `Fragment`s: some items, or all, with a set of versions known for each.
//!
//! `PlainVersions` and `PlainKnowledge` keep what they have one by one, and have a value for everything.
//!
//! ```
//! let mut knowledge = PlainKnowledge::new(alloc);
//! knowledge.learn(item, version)?;
//! assert!(knowledge.knows(item, version));
//! for fragment in &knowledge.fragments()? {
//!     stranger.merge(fragment)?;
//! }
//! ```
#![tactic(auto)]

mod additions;
mod fault;
mod fragment;
mod knowledge;
mod one_value;
mod plain_knowledge;
mod plain_versions;
mod run;
mod version_set;
mod versions;

pub use fault::FormFault;
pub use fragment::{Fragment, ItemSet, MAX_ITEMS};
pub use knowledge::Knowledge;
pub use one_value::OneValue;
pub use plain_knowledge::PlainKnowledge;
pub use plain_versions::PlainVersions;
pub use run::Run;
pub use version_set::VersionSet;
