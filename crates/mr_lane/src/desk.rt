//! The end of an inbox that takes.
ghost use Rattle.std.specs.Prelude.{◌≡◌, ◌↔◌, [], ◌∷◌, ◌++◌, true, IsTrue, IsOk, MatchOption, OnOk, IfErr};
ghost use Rattle.std.specs.Arc.{arc_value};
ghost use Rattle.crossbeam_queue.specs.Passes.{IsPassOf, ruled_capacity};
ghost use Rattle.mr_lane.specs.declared.desk.SettleFault.TheVariants.{NotFinished};
ghost use Rattle.mr_lane.specs.inner.InboxRule.{taker_sight};
ghost use Rattle.mr_lane.specs.Post.{inbox_sight_of};
ghost use Rattle.mr_lane.specs.Desk.{Arrives, new_desk, have_all_finished};
ghost use Rattle.mr_lane.specs.inner.Desk.{with_mark};
ghost use Rattle.mr_lane.specs.Inbox.{ArePostsOf, IsSettled};

use crate::arrival::{Arrival, Marks};
use crate::inbox_rule::{Compares, HearsOut, InboxQueue, InboxSight, Takes};
use crate::note::{Note, Sender};
use crate::piece::Piece;
use crate::post::Posts;
use crossbeam_queue::Pass;
use std::alloc::Global;
use std::fmt;
use std::marker::Model;
use std::sync::{Arc, Wait};
use thiserror::Error;

/// The end that takes.
#[derive(Drop)]
pub struct Desk<T> {
    queue: Arc<InboxQueue<T>, Global>,
    pass: Pass<Note<T>, InboxSight<T>>,
    marks: Marks,
}

impl<T> Model for Desk<T> {
    ghost use Rattle.std.specs.Arc.{arc_value};
    ghost use Rattle.crossbeam_queue.specs.Passes.{IsPassOf, ruled_capacity};
    ghost use Rattle.mr_lane.specs.Post.{inbox_sight_of};
    ghost use Rattle.mr_lane.specs.Desk.{DeskView, IsSightWith};

    ghost Value = { DeskView T };

    ghost view = { λ d. record {
      id = d.pass.table_id;
      capacity = ruled_capacity (arc_value d.queue);
      taken = (inbox_sight_of d.pass).taken;
    } };

    ghost invariant = { λ d.
        IsPassOf (arc_value d.queue) d.pass × IsSightWith (inbox_sight_of d.pass) d.marks };
}

/// Why an inbox was not settled. Everything is handed back.
#[derive(Drop, Error)]
pub enum SettleFault<T> {
    /// The end marks of all three posts were not taken yet.
    #[error("the end marks of all three posts were not taken yet")]
    NotFinished(Desk<T>, Posts<T>),
}

impl<T> SettleFault<T> {
    /// The fault's number, 3.
    pub fn number(&self) -> u8
        ensures { result ≡ 3 }
    {
        match self {
            SettleFault::NotFinished(_, _) => 3,
        }
    }
}

impl<T> fmt::Debug for SettleFault<T> {
    fn fmt<W: fmt::Write>(&self, f: &mut fmt::Formatter<W>) -> fmt::Result {
        f.write_str("NotFinished")
    }
}

impl<T: Drop> Desk<T> {
    /// Takes the first letter or end mark that waits. `Empty` is answered only where nothing
    /// waited at one moment of the call.
    pub fn take<R: Wait>(&mut self, rt: &R) -> Arrival<T>
        ensures arrives { Arrives self.old result self.new }
        ensures id { self.new.id ≡ self.old.id }
    {
        let Some(note) = get(rt, &self.queue, &mut self.pass) else {
            return Arrival::Empty;
        };
        let Note { sender, piece } = note;
        match piece {
            Piece::Item(letter) => return Arrival::Letter(sender, letter),
            Piece::End => {
                self.marks = with_mark(self.marks, sender);
                return Arrival::End(sender);
            }
        }
    }

    /// How many places its inbox has.
    pub fn capacity(&self) -> usize
        ensures { result ≡ self.now.capacity }
    {
        self.queue.capacity()
    }

    /// Whether the end marks of all three posts were taken.
    pub fn have_all_finished(&self) -> bool
        ensures { result ≡ have_all_finished self.now.taken }
    {
        self.marks.user && self.marks.first_link && self.marks.second_link
    }

    /// Puts the desk and its posts together, which uses them up: what was taken of each sender is
    /// what its post sent. Unless the end marks of all three posts were taken, it hands all back
    /// as `NotFinished`.
    pub fn settle(self, posts: Posts<T>) -> Result<(), SettleFault<T>>
        requires posts { ArePostsOf self posts }
        ensures settled { OnOk result (IsSettled self posts) }
        ensures finished { IsOk result ↔ IsTrue (have_all_finished self.taken) }
        ensures err { IfErr result (λ fault. fault ≡ NotFinished self posts) }
    {
        if !self.have_all_finished() {
            return Err(SettleFault::NotFinished(self, posts));
        }
        let Desk {
            queue,
            mut pass,
            ..
        } = self;
        let Posts {
            user,
            first_link,
            second_link,
        } = posts;
        queue.absorb::<HearsOut>(&mut pass, user.pass);
        queue.absorb::<HearsOut>(&mut pass, first_link.pass);
        queue.absorb::<HearsOut>(&mut pass, second_link.pass);
        queue.learn_as::<Compares>(&mut pass);
        Ok(())
    }
}

/// The marks, with that of one sender more.
fn with_mark(marks: Marks, sender: Sender) -> Marks
    ensures { result ≡ with_mark marks sender }
{
    match sender {
        Sender::User => Marks {
            user: true,
            ..marks
        },
        Sender::FirstLink => Marks {
            first_link: true,
            ..marks
        },
        Sender::SecondLink => Marks {
            second_link: true,
            ..marks
        },
    }
}

/// A desk that has taken nothing.
pub(crate) fn new_desk<T>(
    queue: Arc<InboxQueue<T>, Global>,
    pass: Pass<Note<T>, InboxSight<T>>,
) -> Desk<T>
    requires pass { IsPassOf (arc_value queue) pass }
    requires sight { inbox_sight_of pass ≡ taker_sight [] 3 [] }
    ensures { result ≡ new_desk pass.table_id (ruled_capacity (arc_value queue)) }
{
    Desk {
        queue,
        pass,
        marks: Marks {
            user: false,
            first_link: false,
            second_link: false,
        },
    }
}

/// Takes the note at the front. There is none only where the queue was empty.
fn get<T: Drop, R: Wait>(
    rt: &R,
    queue: &InboxQueue<T>,
    pass: &mut Pass<Note<T>, InboxSight<T>>,
) -> Option<Note<T>>
    requires pass { IsPassOf queue.now pass.old }
    requires may { (inbox_sight_of pass.old).takes ≡ true }
    ensures pass { IsPassOf queue.now pass.new × (pass.new.table_id ≡ pass.old.table_id) }
    ensures may { (inbox_sight_of pass.new).takes ≡ true }
    ensures heard { (inbox_sight_of pass.new).heard_out ≡ (inbox_sight_of pass.old).heard_out }
    ensures got { MatchOption result
        ((inbox_sight_of pass.new).taken ≡ (inbox_sight_of pass.old).taken)
        (λ note. (inbox_sight_of pass.new).taken ≡ (inbox_sight_of pass.old).taken ++ note ∷ []) }
{
    queue.pop_as::<Takes, R>(rt, pass)
}
