//! A turn, letter by letter.
ghost use Rattle.std.specs.Prelude.{◌≡◌, ◌<◌, ◌+◌, ◌^◌, [], List, false, IsSome, IfOk, OnOk, OnErr};
ghost use Rattle.mr_link.specs.Wire.{wire_of};
ghost use Rattle.mr_threads.specs.Exchange.{letters_said};
ghost use Rattle.mr_threads.specs.Talk.{Says, SaysInPart, SameLanes};
ghost use Rattle.mr_node.specs.Saying.{Saying, HasLet};
ghost use Rattle.mr_node.specs.inner.Turn.{IsAt, cut_by, progress_of};
ghost use Rattle.mr_node.specs.inner.Step.{Steps, TurnGoes, TurnRan};

use crate::exchange::exchange;
use crate::guard::{Guard, one_if_receive};
use crate::next_move::{Move, next_move};
use crate::progress::{Opened, Progress};
use crate::replica_machine::Answer;
use crate::turn::{Stop, Turn};
use mr_link::{Gate, Link, Wire};
use mr_replica::Event;
use mr_threads::{Halt, Talk};
use std::alloc::Global;
use std::sync::Wait;

/// What came of the next step of a turn.
#[derive(Clone, Copy, Debug)]
pub(crate) enum Step {
    /// A letter was said and answered.
    More,
    /// There is no more to say.
    Done,
    /// The turn stops.
    Stop(Stop),
}

/// Says the next letter of a turn, if there is one.
fn say_next<L: Link, G: Gate, R: Wait>(
    rt: &R,
    alloc: Global,
    talk: &mut Talk<Event, Answer, R>,
    wire: &mut Wire<L>,
    guard: &mut Guard<'_, G>,
    turn: &Turn,
    progress: &mut Progress,
) -> Result<Step, Halt>
    requires open { talk.old.post.finished ≡ false }
    requires count { (L.tells wire.old.link).downs + 1 < 2 ^ 64 }
    requires unread { IsSome (wire_of L.tells wire.old).unread }
    ensures so { (xs : List Saying) → IsAt turn.now xs progress.old → IfOk result (λ s. Steps (G.closes guard.old.gate.now guard.old.link) turn.now xs talk.old (wire_of L.tells wire.old) guard.old.posted s talk.new (wire_of L.tells wire.new) guard.new.posted progress.new) }
    ensures let_pass { HasLet (G.has_let guard.old.gate.now guard.old.link) guard.old.posted → IfOk result (λ _. HasLet (G.has_let guard.old.gate.now guard.old.link) guard.new.posted) }
    ensures in_turn { OnErr result (SaysInPart talk.old talk.new) }
    ensures gate { guard.new.gate ≡ guard.old.gate }
    ensures link { guard.new.link ≡ guard.old.link }
    ensures lanes { SameLanes talk.old talk.new }
{
    match next_move(rt, alloc, wire, guard, turn, *progress)? {
        Move::Done => Ok(Step::Done),
        Move::Stop(stop) => Ok(Step::Stop(stop)),
        Move::Say(letter) => {
            let receives = one_if_receive(&letter);
            let stop = exchange(rt, alloc, talk, wire, progress, letter)?;
            guard.count(receives)?;
            match stop {
                None => Ok(Step::More),
                Some(stop) => Ok(Step::Stop(stop)),
            }
        }
    }
}

/// Goes on with a turn until it is done or stops.
fn go<L: Link, G: Gate, R: Wait>(
    rt: &R,
    alloc: Global,
    talk: &mut Talk<Event, Answer, R>,
    wire: &mut Wire<L>,
    guard: &mut Guard<'_, G>,
    turn: &Turn,
    progress: &mut Progress,
) -> Result<Option<Stop>, Halt>
    requires new { progress.old ≡ progress_of [] }
    requires open { talk.old.post.finished ≡ false }
    requires count { (L.tells wire.old.link).downs + 1 < 2 ^ 64 }
    requires unread { IsSome (wire_of L.tells wire.old).unread }
    ensures so { IfOk result (λ stop. TurnGoes (G.closes guard.old.gate.now guard.old.link) turn.now stop talk.old (wire_of L.tells wire.old) guard.old.posted talk.new (wire_of L.tells wire.new) guard.new.posted progress.new) }
    ensures let_pass { HasLet (G.has_let guard.old.gate.now guard.old.link) guard.old.posted → IfOk result (λ _. HasLet (G.has_let guard.old.gate.now guard.old.link) guard.new.posted) }
    ensures in_turn { OnErr result (SaysInPart talk.old talk.new) }
    ensures gate { guard.new.gate ≡ guard.old.gate }
    ensures link { guard.new.link ≡ guard.old.link }
    ensures lanes { SameLanes talk.old talk.new }
{
    for _ in rt.forever() {
        match say_next(rt, alloc, talk, wire, guard, turn, progress)? {
            Step::More => {}
            Step::Done => return Ok(None),
            Step::Stop(stop) => return Ok(Some(stop)),
        }
    }
    unreachable!()
}

/// Takes a turn. Where it stops, what it has open is cut.
pub(crate) fn take_turn<L: Link, G: Gate, R: Wait>(
    rt: &R,
    alloc: Global,
    talk: &mut Talk<Event, Answer, R>,
    wire: &mut Wire<L>,
    guard: &mut Guard<'_, G>,
    turn: &Turn,
) -> Result<Option<Stop>, Halt>
    requires open { talk.old.post.finished ≡ false }
    requires count { (L.tells wire.old.link).downs + 1 < 2 ^ 64 }
    requires unread { IsSome (wire_of L.tells wire.old).unread }
    ensures so { IfOk result (λ stop. TurnRan (G.closes guard.old.gate.now guard.old.link) turn.now stop talk.old (wire_of L.tells wire.old) guard.old.posted talk.new (wire_of L.tells wire.new) guard.new.posted) }
    ensures let_pass { HasLet (G.has_let guard.old.gate.now guard.old.link) guard.old.posted → IfOk result (λ _. HasLet (G.has_let guard.old.gate.now guard.old.link) guard.new.posted) }
    ensures in_turn { OnErr result (SaysInPart talk.old talk.new) }
    ensures gate { guard.new.gate ≡ guard.old.gate }
    ensures link { guard.new.link ≡ guard.old.link }
    ensures lanes { SameLanes talk.old talk.new }
{
    let mut progress = Progress::new();
    match go(rt, alloc, talk, wire, guard, turn, &mut progress)? {
        None => Ok(None),
        Some(stop) => {
            cut(rt, talk, progress)?;
            Ok(Some(stop))
        }
    }
}

/// Closes what a turn has open.
fn cut<R: Wait>(rt: &R, talk: &mut Talk<Event, Answer, R>, progress: Progress) -> Result<(), Halt>
    requires open { talk.old.post.finished ≡ false }
    ensures cut { OnOk result ((ys : List Saying) × (letters_said ys ≡ cut_by progress) × Says talk.old ys talk.new) }
    ensures in_turn { OnErr result (SaysInPart talk.old talk.new) }
    ensures lanes { SameLanes talk.old talk.new }
{
    if progress.over {
        return Ok(());
    }
    match progress.opened {
        Opened::Nothing => Ok(()),
        Opened::Session(session) => talk.say(rt, Event::CutIn(session)),
        Opened::Stream(stream) => talk.say(rt, Event::CutOut(stream)),
    }
}
