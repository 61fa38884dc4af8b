//! What the words of a line name.
ghost use Rattle.std.specs.Prelude.{◌≡◌};

use crate::pool::Pool;
use mr_version::Author;

/// What a line's words are looked up in: the replicas and the frames that are there as it is read.
pub trait Roster {
    ghost use Rattle.mr_command.specs.Scene.{Scene};

    /// What is there.
    ghost scene: { Self → Scene };

    /// Whether there may be further `replica` lines, which come before all others.
    fn is_opening(&self) -> bool
        ensures { result ≡ (scene self.now).is_opening };

    /// Whether a replica has this id.
    fn has_replica(&self, id: Author) -> bool
        ensures { result ≡ (scene self.now).has_replica id };

    /// Whether the pool has a frame of this number.
    fn has_frame(&self, pool: Pool, number: u64) -> bool
        ensures { result ≡ (scene self.now).has_frame pool number };
}
