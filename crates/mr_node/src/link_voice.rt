//! What a link's thread says.
ghost use Rattle.std.specs.Prelude.{◌≡◌, ◌<◌, ◌+◌, ◌^◌, List, false, IsSome, IfOk, OnErr};
ghost use Rattle.mr_link.specs.Wire.{wire_of};
ghost use Rattle.mr_threads.specs.Talk.{Says, SaysInPart, SameLanes};
ghost use Rattle.mr_node.specs.Saying.{Saying};
ghost use Rattle.mr_node.specs.Stop.{LinkRan, AreLetPass};
ghost use Rattle.mr_node.specs.inner.Voice.{HasHungUp, IsReady, IsVoiceOf, Runs};

use crate::guard::Guard;
use crate::replica_machine::Answer;
use crate::turn::{Stop, Turn};
use crate::turning::take_turn;
use mr_lane::Sender;
use mr_link::{Gate, Link, Wire};
use mr_replica::Event;
use mr_threads::{Halt, Speaker, Talk};
use std::alloc::Global;
use std::sync::Wait;

/// A link that takes its turns: what it says to the replica of its node, where each letter may rest on what came over
/// the link.
#[derive(Drop)]
pub(crate) struct LinkVoice<'g, L, G> {
    alloc: Global,
    pub wire: Wire<L>,
    turns: Vec<Turn>,
    guard: Guard<'g, G>,
}

impl<'g, L: Link, G: Gate> LinkVoice<'g, L, G> {
    /// The link that is this sender, before its first turn.
    pub(crate) fn new(
        alloc: Global,
        link: L,
        turns: Vec<Turn>,
        gate: &'g G,
        sender: Sender,
    ) -> LinkVoice<'g, L, G>
        ensures { IsVoiceOf gate.now sender link turns result }
    {
        LinkVoice {
            alloc,
            wire: Wire::new(alloc, link),
            turns,
            guard: Guard {
                gate,
                link: sender,
                posted: 0,
            },
        }
    }

    /// The link.
    pub(crate) fn into_link(self) -> L
        ensures { result ≡ self.entry.wire.link }
    {
        let LinkVoice { wire, .. } = self;
        let Wire { link, .. } = wire;
        link
    }
}

impl<'g, L: Link, G: Gate> Speaker<Event, Answer> for LinkVoice<'g, L, G> {
    ghost is_ready = { IsReady L.tells };

    ghost speaks = { Runs L.tells L.hung_up_at G.closes G.has_let };

    ghost has_hung_up = { HasHungUp L.tells };

    fn speak<R: Wait>(&mut self, rt: &R, talk: &mut Talk<Event, Answer, R>) -> Result<(), Halt> {
        take_turns(
            rt,
            self.alloc,
            talk,
            &mut self.wire,
            &mut self.guard,
            &self.turns,
        )?;
        Ok(())
    }

    fn hang_up(&mut self) {
        self.wire.link.hang_up();
    }
}

/// Takes the turns, one after the other, until one of them stops.
fn take_turns<L: Link, G: Gate, R: Wait>(
    rt: &R,
    alloc: Global,
    talk: &mut Talk<Event, Answer, R>,
    wire: &mut Wire<L>,
    guard: &mut Guard<'_, G>,
    turns: &[Turn],
) -> Result<Option<Stop>, Halt>
    requires open { talk.old.post.finished ≡ false }
    requires count { (L.tells wire.old.link).downs + 1 < 2 ^ 64 }
    requires unread { IsSome (wire_of L.tells wire.old).unread }
    requires posted { guard.old.posted ≡ 0 }
    ensures so { IfOk result (λ _. (xs : List Saying) × (LinkRan (G.closes guard.old.gate.now guard.old.link) turns.now (wire_of L.tells wire.old) xs (wire_of L.tells wire.new) × AreLetPass (G.has_let guard.old.gate.now guard.old.link) xs) × Says talk.old xs talk.new) }
    ensures in_turn { OnErr result (SaysInPart talk.old talk.new) }
    ensures lanes { SameLanes talk.old talk.new }
    ensures gate { guard.new.gate ≡ guard.old.gate }
    ensures link { guard.new.link ≡ guard.old.link }
{
    for turn in turns {
        match take_turn(rt, alloc, talk, wire, guard, turn)? {
            None => {}
            Some(stop) => return Ok(Some(stop)),
        }
    }
    Ok(None)
}
