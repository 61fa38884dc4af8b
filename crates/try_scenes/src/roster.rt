//! The lines of a run of a world, as commands.
ghost use Rattle.std.specs.Prelude.{true, not};

use mr_command::{Command, LineFault, Pool, Roster};
use mr_version::Author;
use std::alloc::Global;

/// A roster in which all frames are, and all replicas once there are events: what isn't there stops the run of the world.
#[derive(Clone, Copy)]
struct AnyRoster {
    is_opening: bool,
}

impl Roster for AnyRoster {
    ghost scene = { λ roster. record { is_opening = roster.is_opening; has_replica = λ _. not roster.is_opening; has_frame = λ _ _. true } };

    fn is_opening(&self) -> bool {
        self.is_opening
    }

    fn has_replica(&self, _id: Author) -> bool {
        !self.is_opening
    }

    fn has_frame(&self, _pool: Pool, _number: u64) -> bool {
        true
    }
}

/// What a line asks for, whatever replicas and frames there are.
pub fn read(alloc: Global, line: &str) -> Result<Command, LineFault> {
    let is_opening = line.starts_with("replica");
    Command::read(alloc, line, &AnyRoster { is_opening })
}
