//! A file that comes.

use mr_compare::Digest;
use mr_folder::Incoming;

/// A file that comes: what of it has come is in the store's draft.
#[derive(Drop)]
pub(crate) struct Coming {
    pub(crate) incoming: Incoming,
    /// The digest that was told.
    pub(crate) digest: Digest,
    /// How many bytes are to come.
    pub(crate) left: u64,
}
