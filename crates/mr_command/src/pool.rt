//! The pools of a world, by the letters of their frames.
ghost use Rattle.std.specs.Prelude.{◌≡◌};
ghost use Rattle.mr_command.specs.Pool.{letter_of};

/// Where a world keeps what its replicas gave, each frame under a number from 1.
#[derive(Clone, Copy, Debug, PartialEq, Eq)]
pub enum Pool {
    /// The requests: `Q1`, `Q2` and so on.
    Asks,
    /// The records: `P1`, `P2` and so on.
    Records,
    /// The receipts: `R1`, `R2` and so on.
    Receipts,
}

impl Pool {
    /// The letter before a frame's number in scripts: `Q`, `P` and `R`.
    pub fn letter(self) -> char
        ensures { result ≡ letter_of self }
    {
        match self {
            Pool::Asks => 'Q',
            Pool::Records => 'P',
            Pool::Receipts => 'R',
        }
    }
}
