//! The held revisions of a replica: its heads and its push-outs.
//!
//! A replica holds the latest versions of mail items. Those that its filter selects are its **heads**;
//! own revisions that it does not select are its **push-outs**, which it keeps until another replica
//! has them. A [`Store`] has both, the heads and the push-outs, each in version order, and no version twice. (What the
//! model calls the store is the heads alone.)
//!
//! Of most items a store has the first version alone, and that version has the item's name: a binary search by version
//! finds it. An index lists the versions of each other item, so that an edit of one item looks at no other's revisions.
//!
//! What a newer version supersedes leaves both parts ([`Store::remove_below`]). What a full source covers
//! and did not hold leaves the heads ([`Store::remove_heads`]). What another replica vouches for leaves the
//! push-outs ([`Store::drop_push_outs`]). A revision is a handle of eight bytes, so a shift of 50,000 of
//! them moves 400,000 bytes; what leaves at the front, or comes at the end, shifts few. Two versions of an
//! item may be held beside one another, also where one supersedes the other: a stranger's late version may
//! enter after what superseded it.
//!
//! What fragments of knowledge cover for an item is looked up in a [`FragmentIndex`], which does not look
//! at the fragments of other items.
//!
//! ```
//! store.put(Part::Heads, revision)?;
//! let left = store.superseded(item, newer.below())?;
//! store.remove_below(item, newer.below());
//! ```
#![tactic(auto)]

mod by_version;
mod fragment_index;
mod gap_vector;
mod held_versions;
mod index;
mod leaving;
mod revision_list;
mod room;
mod store;
mod unheld;

pub use by_version::place_before;
pub use fragment_index::FragmentIndex;
pub use held_versions::HeldVersions;
pub use store::{Part, Store};
