//! Replicas as scenes see them, whatever their form of knowledge is.
ghost use Rattle.std.specs.Prelude.{◌≡◌, []};
ghost use Rattle.mr_threads.specs.Core.{AreFeedsOpen, AreRepliesOpen};

use mr_feed::Entry;
use mr_forms::Knowledge;
use mr_lane::Desk;
use mr_node::{Answer, ReplicaMachine, run_core};
use mr_replica::{Event, Replica, Revision};
use mr_threads::{Core, CoreEnd, Feeds, Replies};
use std::alloc::AllocError;
use std::sync::Wait;

/// What a replica is asked.
pub trait SceneReplica: Drop {
    /// An equal one.
    fn copy(&self) -> Result<Self, AllocError>;

    /// Lets an event happen.
    fn step(&mut self, event: Event) -> Answer;

    /// What it has admitted.
    fn log(&self) -> &[Event];

    /// What came into its feed.
    fn feed(&self) -> &[Entry];

    /// Adds what it holds, and how many of its sessions and streams are open.
    fn push_held(&self, text: &mut String) -> Result<(), AllocError>;

    /// Runs its core over these lanes: the replica as it is then, and whether the core was whole.
    fn run_core<R: Wait + Copy>(
        self,
        rt: &R,
        desk: Desk<Event>,
        replies: Replies<Answer, R>,
        feeds: Feeds<R>,
    ) -> (Self, bool)
        requires desk { desk.taken ≡ [] }
        requires replies { AreRepliesOpen replies }
        requires feeds { AreFeedsOpen feeds };
}

impl<K: Knowledge> SceneReplica for Replica<K> {
    fn copy(&self) -> Result<Replica<K>, AllocError> {
        Replica::copy(self)
    }

    fn step(&mut self, event: Event) -> Answer {
        Replica::step(self, event)
    }

    fn log(&self) -> &[Event] {
        Replica::log(self)
    }

    fn feed(&self) -> &[Entry] {
        Replica::feed(self)
    }

    fn push_held(&self, text: &mut String) -> Result<(), AllocError> {
        let id = self.id();
        let sessions = self.open_sessions()?.len();
        let streams = self.open_streams()?.len();
        let end = if self.is_retired() { ", retired" } else { "" };
        write!(text, "{id}: heads")?;
        push_revisions(text, self.heads())?;
        text.push_str("; push-outs")?;
        push_revisions(text, self.push_outs())?;
        write!(text, "; open {sessions} {streams}{end}\n")
    }

    fn run_core<R: Wait + Copy>(
        self,
        rt: &R,
        desk: Desk<Event>,
        replies: Replies<Answer, R>,
        feeds: Feeds<R>,
    ) -> (Replica<K>, bool) {
        let core = Core {
            machine: ReplicaMachine::new(self),
            desk,
            replies,
            feeds,
        };
        let end = run_core(rt, core);
        let is_whole = end.whole;
        (machine_of(end).into_replica(), is_whole)
    }
}

/// The versions of the revisions, each behind a space.
fn push_revisions(text: &mut String, revisions: &[Revision]) -> Result<(), AllocError> {
    for revision in revisions {
        let version = revision.version();
        write!(text, " {version}")?;
    }
    Ok(())
}

/// The machine of a core that has run. It is of any kind here, since to take a big value apart is dear to prove.
fn machine_of<M: Drop, E: Drop, A: Drop, R: Copy>(end: CoreEnd<M, E, A, R>) -> M {
    end.core.machine
}
