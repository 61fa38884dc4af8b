//! The ends of an inbox that send.
ghost use Rattle.std.specs.Prelude.{◌≡◌, [], ◌∷◌, ◌++◌, true, false, OnOk, IfErr};
ghost use Rattle.std.specs.Arc.{arc_value};
ghost use Rattle.crossbeam_queue.specs.Passes.{IsPassOf, ruled_capacity};
ghost use Rattle.mr_lane.specs.inner.InboxRule.{sender_sight};
ghost use Rattle.mr_lane.specs.Note.{sender_number};
ghost use Rattle.mr_lane.specs.Post.{inbox_sight_of, new_post, with_letter, with_end_mark, ReturnsLetter};

use crate::fault::{FinishFault, SendFault};
use crate::inbox_rule::{InboxQueue, InboxSight, Sends};
use crate::note::{Note, Sender};
use crate::piece::Piece;
use crossbeam_queue::Pass;
use std::alloc::Global;
use std::marker::Model;
use std::sync::{Arc, Wait};

/// The end of one sender.
#[derive(Drop)]
pub struct Post<T> {
    queue: Arc<InboxQueue<T>, Global>,
    pub(crate) pass: Pass<Note<T>, InboxSight<T>>,
    sender: Sender,
    finished: bool,
}

impl<T> Model for Post<T> {
    ghost use Rattle.std.specs.Arc.{arc_value};
    ghost use Rattle.crossbeam_queue.specs.Passes.{IsPassOf, ruled_capacity};
    ghost use Rattle.mr_lane.specs.Piece.{items_of};
    ghost use Rattle.mr_lane.specs.Post.{PostView, IsSightOf, inbox_sight_of};

    ghost Value = { PostView T };

    ghost view = { λ p. record {
      id = p.pass.table_id;
      capacity = ruled_capacity (arc_value p.queue);
      sender = p.sender;
      sent = items_of (inbox_sight_of p.pass).sent;
      finished = p.finished;
    } };

    ghost invariant = { λ p.
        IsPassOf (arc_value p.queue) p.pass
        × IsSightOf (inbox_sight_of p.pass) p.sender p.finished };
}

/// The three posts of an inbox.
#[derive(Drop)]
pub struct Posts<T> {
    /// The user's, sender 0.
    pub user: Post<T>,
    /// The first link's, sender 1.
    pub first_link: Post<T>,
    /// The second link's, sender 2.
    pub second_link: Post<T>,
}

impl<T: Drop> Post<T> {
    /// Whose post it is.
    pub fn sender(&self) -> Sender
        ensures { result ≡ self.now.sender }
    {
        self.sender
    }

    /// Sends a letter.
    ///
    /// A finished post hands it back as `Ended`. Where the inbox is full at one moment of the
    /// call, the letter comes back as `Full`. In both cases nothing has changed. That the inbox was
    /// full is tested and no clause says it, since a post sees nothing of what the others sent.
    pub fn send<R: Wait>(&mut self, rt: &R, letter: T) -> Result<(), SendFault<T>>
        ensures ok { OnOk result (
            (self.old.finished ≡ false) × (self.new ≡ with_letter self.old letter)) }
        ensures err { IfErr result (λ fault.
            (self.new ≡ self.old) × ReturnsLetter self.old letter fault) }
        ensures id { self.new.id ≡ self.old.id }
        ensures sender { self.new.sender ≡ self.old.sender }
    {
        if self.finished {
            return Err(SendFault::Ended(letter));
        }
        let note = Note {
            sender: self.sender,
            piece: Piece::Item(letter),
        };
        match put(rt, &self.queue, &mut self.pass, note) {
            Ok(()) => return Ok(()),
            Err(
                Note {
                    piece: Piece::Item(letter),
                    ..
                },
            ) => return Err(SendFault::Full(letter)),
            Err(_) => unreachable!(),
        }
    }

    /// Sends the end mark, which takes a place. A finished post stays finished.
    ///
    /// Where the inbox is full at one moment of the call, `Full` is answered and nothing has
    /// changed.
    pub fn finish<R: Wait>(&mut self, rt: &R) -> Result<(), FinishFault>
        ensures ok { OnOk result (self.new ≡ with_end_mark self.old) }
        ensures err { IfErr result (λ _.
            (self.new ≡ self.old) × (self.old.finished ≡ false)) }
        ensures id { self.new.id ≡ self.old.id }
        ensures sender { self.new.sender ≡ self.old.sender }
    {
        if self.finished {
            return Ok(());
        }
        let mark = Note {
            sender: self.sender,
            piece: Piece::End,
        };
        match put(rt, &self.queue, &mut self.pass, mark) {
            Ok(()) => {
                self.finished = true;
                return Ok(());
            }
            Err(_) => return Err(FinishFault::Full),
        }
    }
}

/// A post that has sent nothing.
pub(crate) fn new_post<T>(
    queue: Arc<InboxQueue<T>, Global>,
    pass: Pass<Note<T>, InboxSight<T>>,
    sender: Sender,
) -> Post<T>
    requires pass { IsPassOf (arc_value queue) pass }
    requires sight { inbox_sight_of pass ≡ sender_sight (sender_number sender) [] }
    ensures { result ≡ new_post pass.table_id (ruled_capacity (arc_value queue)) sender }
{
    Post {
        queue,
        pass,
        sender,
        finished: false,
    }
}

/// Puts a note at the back. It comes back only where the queue was full.
fn put<T: Drop, R: Wait>(
    rt: &R,
    queue: &InboxQueue<T>,
    pass: &mut Pass<Note<T>, InboxSight<T>>,
    note: Note<T>,
) -> Result<(), Note<T>>
    requires pass { IsPassOf queue.now pass.old }
    requires may { (inbox_sight_of pass.old).sends ≡ true }
    requires sender { sender_number note.sender ≡ (inbox_sight_of pass.old).number }
    ensures pass { IsPassOf queue.now pass.new × (pass.new.table_id ≡ pass.old.table_id) }
    ensures may { (inbox_sight_of pass.new).sends ≡ true }
    ensures number { (inbox_sight_of pass.new).number ≡ (inbox_sight_of pass.old).number }
    ensures ok { OnOk result (
        (inbox_sight_of pass.new).sent ≡ (inbox_sight_of pass.old).sent ++ note.piece ∷ []) }
    ensures err { IfErr result (λ n.
        (n ≡ note) × ((inbox_sight_of pass.new).sent ≡ (inbox_sight_of pass.old).sent)) }
{
    queue.push_as::<Sends, R>(rt, pass, note)
}
