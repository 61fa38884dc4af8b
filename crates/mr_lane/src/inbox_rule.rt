//! The rule of an inbox, which each step of a call keeps.
use crate::note::Note;
use crate::piece::Piece;
use crossbeam_queue::RuledArrayQueue;
use crossbeam_queue::protocol::{Join, Lesson, Outcome, Protocol, Split};
use std::collections::LinkedList;

/// The queue of an inbox.
pub type InboxQueue<T> = RuledArrayQueue<Note<T>, InboxSight<T>, InboxRule>;

/// What a pass may do, and what it has done. No value of it is made.
///
/// A pass that sends has its sender's number, and what it sent. The one that takes has what it
/// took, how many senders it has made, and what those sent that it has heard out, in order.
pub struct InboxSight<T> {
    pub sends: bool,
    pub number: u8,
    pub sent: LinkedList<Piece<T>>,
    pub takes: bool,
    pub taken: LinkedList<Note<T>>,
    pub made: u8,
    pub heard_out: LinkedList<LinkedList<Piece<T>>>,
}

/// Of each sender, what was taken, and then what waits, is what it sent.
pub struct InboxRule;

impl<T> Protocol<Note<T>, InboxSight<T>> for InboxRule {
    ghost use Rattle.std.specs.Prelude.{[]};
    ghost use Rattle.mr_lane.specs.inner.InboxRule.{taker_sight, DeliversInOrder};

    ghost holds = { DeliversInOrder };

    ghost first = { taker_sight [] 0 [] };
}

/// The next sender is made, which has sent nothing.
pub struct NextSender;

impl<T> Split<InboxSight<T>> for NextSender {
    ghost use Rattle.std.specs.Prelude.{[]};
    ghost use Rattle.mr_lane.specs.inner.InboxRule.{sender_sight, with_sender};

    ghost left = { with_sender };

    ghost right = { λ s. sender_sight s.made [] };
}

/// A sender is heard out, and spent.
pub struct HearsOut;

impl<T> Join<InboxSight<T>> for HearsOut {
    ghost use Rattle.mr_lane.specs.inner.InboxRule.{with_heard, spent_sight};

    ghost both = { with_heard };

    ghost spent = { spent_sight };
}

/// A note is sent.
pub struct Sends;

impl<T> Outcome<Note<T>, InboxSight<T>> for Sends {
    ghost use Rattle.std.specs.Prelude.{◌≡◌};
    ghost use Rattle.mr_lane.specs.inner.InboxRule.{with_sent};

    ghost then = { λ s note t. t ≡ with_sent s note.piece };
}

impl<T> Lesson<Note<T>, InboxSight<T>> for Sends {
    ghost use Rattle.std.specs.Prelude.{⊤};

    // an end that sends knows nothing of what the others sent
    ghost fact = { λ s waiting. ⊤ };
}

/// A note is taken.
pub struct Takes;

impl<T> Outcome<Note<T>, InboxSight<T>> for Takes {
    ghost use Rattle.std.specs.Prelude.{◌≡◌};
    ghost use Rattle.mr_lane.specs.inner.InboxRule.{with_taken};

    ghost then = { λ s note t. t ≡ with_taken s note };
}

impl<T> Lesson<Note<T>, InboxSight<T>> for Takes {
    ghost use Rattle.std.specs.Prelude.{⊤};

    // the end that takes knows nothing of what was sent
    ghost fact = { λ s waiting. ⊤ };
}

/// With the senders heard out: of each, what was taken, and then what waits, is what it sent.
pub struct Compares;

impl<T> Lesson<Note<T>, InboxSight<T>> for Compares {
    ghost use Rattle.mr_lane.specs.inner.InboxRule.{AccountsForAll};

    ghost fact = { AccountsForAll };
}
