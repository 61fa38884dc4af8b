//! A kept replica is what a node's core runs.
ghost use Rattle.std.specs.Prelude.{◌≡◌, ◌≢◌, ◌++◌, ◌∷◌, [], List, IfSome, IsNone};
ghost use Rattle.mr_replica.specs.declared.event.Reply.{Reply};
ghost use Rattle.mr_kept_node.specs.Letter.{refusal_of};
ghost use Rattle.mr_kept_node.specs.Machine.{Takes, machine_of, told_of};
ghost use Rattle.mr_kept_node.specs.inner.Telling.{feed_grows};

use mr_feed::Entry;
use mr_forms::Knowledge;
use mr_journal::Device;
use mr_kept::{Journaled, KeptFault};
use mr_node::Answer;
use mr_replica::{Event, Refusal, Reply};
use mr_threads::Machine;

/// A kept replica that takes letters: each is an event and a commit, and its answer is given once it is kept.
///
/// A letter that the replica refuses is answered by that refusal. One that can't be kept, or whose commit is refused, is
/// answered by `OutOfMemory`, as what the machine lacks and not the letter.
#[derive(Drop)]
pub struct KeptMachine<K: Knowledge, D: Device + Drop> {
    /// The replica. Of what it has, all is kept where there is no fault; else what waits was not answered.
    pub journaled: Journaled<K, D>,
    /// Why a commit was refused. No letter is taken since then.
    pub fault: Option<KeptFault>,
    /// How many entries of the feed were there when all was kept.
    pub told: usize,
}

impl<K: Knowledge, D: Device + Drop> KeptMachine<K, D> {
    ghost use Rattle.mr_replica.specs.Replay.{IsItsLog};
    ghost use Rattle.mr_kept.specs.Kept.{replica_of};

    /// The machine of this replica, before its first letter. The replica is its log replayed.
    pub fn new(journaled: Journaled<K, D>) -> KeptMachine<K, D>
        ensures is { result ≡ machine_of journaled }
        ensures is_its_log { IsItsLog K.form (replica_of journaled) }
    {
        let told = journaled.replica().feed().len();
        KeptMachine {
            journaled,
            fault: None,
            told,
        }
    }
}

impl<K: Knowledge, D: Device + Drop> Machine<Event, Answer> for KeptMachine<K, D> {
    ghost steps = { Takes K.form D.Device };

    ghost feed_of = { told_of };

    ghost feed_grows = { feed_grows K.form _ };

    fn take(&mut self, letter: Event) -> Answer {
        if self.fault.is_some() {
            return Err(Refusal::OutOfMemory);
        }
        let now = match self.journaled.ask(letter) {
            Ok(now) => now,
            Err(fault) => return Err(refusal_of(fault)),
        };
        match self.journaled.commit() {
            Ok(handed_out) => {
                self.told = self.journaled.replica().feed().len();
                Ok(reply_of(now, handed_out))
            }
            Err(fault) => {
                self.fault = Some(fault);
                Err(Refusal::OutOfMemory)
            }
        }
    }

    #[tactic(auto, using(std::proofs::lemmas::List::take_min))]
    fn feed(&self) -> &[Entry] {
        let feed = self.journaled.replica().feed();
        &feed[..self.told.min(feed.len())]
    }
}

/// The refusal that a fault is answered by.
fn refusal_of(fault: KeptFault) -> Refusal
    ensures { result ≡ refusal_of fault }
{
    match fault {
        KeptFault::OutOfMemory => Refusal::OutOfMemory,
        KeptFault::Refused(refusal) => refusal,
        KeptFault::Failed => Refusal::OutOfMemory,
        KeptFault::TooLarge => Refusal::OutOfMemory,
        KeptFault::Unsettled => Refusal::OutOfMemory,
    }
}

/// The reply to the last letter: the one that was known at once, or the last that the commit handed out.
fn reply_of(now: Option<Reply>, mut handed_out: Vec<Reply>) -> Reply
    requires { IsNone now → handed_out.items ≢ [] }
    ensures at_once { IfSome now (λ reply. result ≡ reply) }
    ensures last { IsNone now → (before : List Reply) × (handed_out.items ≡ before ++ result ∷ []) }
{
    match now {
        Some(reply) => reply,
        None => match handed_out.pop() {
            Some(reply) => reply,
            None => unreachable!(),
        },
    }
}
