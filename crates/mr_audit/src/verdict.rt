//! Whether one history explains some logs.
ghost use Rattle.std.specs.Prelude.{IfOk};
ghost use Rattle.mr_settle.specs.Explains.{AreDistinct};
ghost use Rattle.mr_audit.specs.Verdict.{IsVerdict};
ghost use Rattle.mr_audit.specs.inner.Verdict.{Says};

use mr_forms::OneValue;
use mr_replica::Replica;
use mr_settle::{JoinFault, join_logs};
use mr_version::Author;
use std::alloc::{AllocError, Global};

/// Whether one history explains the logs of some replicas.
#[derive(Clone, Copy, Debug, PartialEq, Eq)]
pub enum Verdict {
    /// It does. So each version that was issued, and that none supersedes, is held by one of them, and none of them was told a version
    /// twice.
    OneHistory,
    /// A history that goes as far as any can leaves events out. Of the replicas whose events it leaves out this is the lowest, and the first
    /// of these events is this one, by its number from 1: it carries a frame that nobody gave in that history.
    Unexplained { replica: Author, event: usize },
}

/// Whether one history explains the logs of these replicas. No two of them have one id: see [`are_distinct`](crate::are_distinct).
///
/// Memory alone can be wanting. It costs what [`join_logs`] costs: the steps of all events again, with a few searches among the frames
/// that were given for each, and memory for another replica of each and for all frames.
pub fn audit<K: OneValue>(alloc: Global, ends: &[Replica<K>]) -> Result<Verdict, AllocError>
    requires distinct { AreDistinct ends.now }
    ensures verdict { IfOk result (IsVerdict K.form ends.now) }
{
    match join_logs(alloc, ends) {
        Ok(world) => {
            // What holds of each world holds of this one.
            world.promise();
            Ok(Verdict::OneHistory)
        }
        Err(fault) => verdict_of(fault),
    }
}

// What the fault says of the logs; want of memory says nothing.
fn verdict_of(fault: JoinFault) -> Result<Verdict, AllocError>
    ensures { IfOk result (Says fault) }
{
    match fault {
        JoinFault::Unexplained { replica, event } => Ok(Verdict::Unexplained { replica, event }),
        JoinFault::OutOfMemory => Err(AllocError),
    }
}
