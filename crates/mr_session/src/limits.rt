//! How many sessions and streams may be open.

/// The most sessions, and the most streams, that a replica has open at a time.
pub const MAX_OPEN: usize = 8;
