//! What a host does to its file.

/// What a host does to its file.
#[derive(Debug, Drop)]
pub enum Act {
    /// Write these bytes at this place, which is no later than the file's end: over what is there, and past the end.
    Write { at: u64, bytes: Vec<u8> },
    /// Cut off what is behind this length.
    Cut { len: u64 },
    /// Wait until all that was written and cut is where a crash doesn't undo it (`fdatasync`).
    Sync,
}
