//! The core's thread over a replica.
ghost use Rattle.std.specs.Prelude.{◌≡◌, [], true, IsTrue, IsFalse};
ghost use Rattle.mr_lane.specs.Desk.{have_all_finished};
ghost use Rattle.mr_threads.specs.Core.{AreRepliesOpen, AreFeedsOpen, KeepsLanes};
ghost use Rattle.mr_node.specs.CoreRun.{ReplicaRan, ReplicaRanShort};

use crate::replica_machine::{Answer, ReplicaMachine};
use mr_forms::Knowledge;
use mr_replica::Event;
use mr_threads::{Core, CoreEnd, run_machine};
use std::sync::Wait;

/// The parts of a replica's core.
pub type ReplicaCore<K, R> = Core<ReplicaMachine<K>, Event, Answer, R>;

/// A replica's core that has run.
pub type ReplicaCoreEnd<K, R> = CoreEnd<ReplicaMachine<K>, Event, Answer, R>;

/// Takes letters until the end marks of all senders were taken, and makes one step of each in its turn: its answer goes
/// to its sender, and what it adds to the feed to both subscribers. Then it closes all spouts.
///
/// A letter that is refused, also for want of memory, has its answer too, and changes nothing. Where an entry can't be
/// copied for want of memory, all spouts are closed at once, and the letters that come are taken without an answer;
/// `whole` is false then.
pub fn run_core<K: Knowledge, R: Wait>(rt: &R, core: ReplicaCore<K, R>) -> ReplicaCoreEnd<K, R>
    requires desk { core.desk.taken ≡ [] }
    requires replies { AreRepliesOpen core.replies }
    requires feeds { AreFeedsOpen core.feeds }
    ensures ran { IsTrue result.whole → ReplicaRan K.form core result.core }
    ensures short { IsFalse result.whole → ReplicaRanShort K.form core result.core }
    ensures lanes { KeepsLanes core result.core }
    ensures finished { have_all_finished result.core.desk.taken ≡ true }
{
    run_machine(rt, core)
}
