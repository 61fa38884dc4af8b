//! A replica is what a node's core runs.
ghost use Rattle.std.specs.Prelude.{◌≡◌};
ghost use Rattle.mr_replica.specs.Step.{Steps};
ghost use Rattle.mr_node.specs.Machine.{feed_of, feed_grows};

use mr_feed::Entry;
use mr_forms::Knowledge;
use mr_replica::{Event, Refusal, Replica, Reply};
use mr_threads::Machine;
use std::marker::Model;

/// What a replica answers to a letter.
pub type Answer = Result<Reply, Refusal>;

/// A replica that takes events as letters. Contracts see it as the replica.
#[derive(Drop)]
pub struct ReplicaMachine<K: Knowledge> {
    replica: Replica<K>,
}

impl<K: Knowledge> Model for ReplicaMachine<K> {
    ghost use Rattle.mr_replica.specs.State.{State};

    ghost Value = { State K };

    ghost view = { λ m. m.replica };
}

impl<K: Knowledge> ReplicaMachine<K> {
    /// The machine of this replica.
    pub fn new(replica: Replica<K>) -> ReplicaMachine<K>
        ensures { result ≡ replica }
    {
        ReplicaMachine { replica }
    }

    /// The replica.
    pub fn into_replica(self) -> Replica<K>
        ensures { result ≡ self }
    {
        self.replica
    }
}

impl<K: Knowledge> Machine<Event, Answer> for ReplicaMachine<K> {
    ghost steps = { Steps K.form };

    ghost feed_of = { feed_of };

    ghost feed_grows = { feed_grows K.form };

    fn take(&mut self, letter: Event) -> Answer {
        self.replica.step(letter)
    }

    fn feed(&self) -> &[Entry] {
        self.replica.feed()
    }
}
