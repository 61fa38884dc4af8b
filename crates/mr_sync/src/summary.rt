//! What came and went in a talk.
ghost use Rattle.std.specs.Prelude.{◌≡◌, true};

/// What came and went in a talk. A count that would pass 2^64 stays at its end.
#[derive(Clone, Copy, Debug, PartialEq, Eq)]
pub struct Summary {
    /// Whether there was nothing to tell: nothing was asked for.
    pub is_idle: bool,
    /// How many records were told.
    pub told: u64,
    /// How many records were taken that weren't known.
    pub taken: u64,
    /// How many files were sent.
    pub files_sent: u64,
    /// How many files came.
    pub files_came: u64,
    /// How many files were wanted and the other side hadn't.
    pub files_missing: u64,
    /// How many receipts were given.
    pub vouched: u64,
    /// How many receipts were taken.
    pub released: u64,
}

impl Summary {
    /// Nothing came or went yet.
    pub fn new() -> Summary
        ensures { result ≡ record { is_idle = true; told = 0; taken = 0; files_sent = 0; files_came = 0; files_missing = 0; vouched = 0; released = 0 } }
    {
        Summary {
            is_idle: true,
            told: 0,
            taken: 0,
            files_sent: 0,
            files_came: 0,
            files_missing: 0,
            vouched: 0,
            released: 0,
        }
    }
}

impl Default for Summary {
    fn default() -> Summary {
        Summary::new()
    }
}
