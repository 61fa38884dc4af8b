//! A link's thread.
ghost use Rattle.std.specs.Prelude.{◌≡◌, ◌<◌, ◌+◌, ◌^◌, [], true, IsTrue};
ghost use Rattle.mr_threads.specs.Outfit.{IsNewPost};
ghost use Rattle.mr_node.specs.Thread.{SaidTurns, SaidInTurn, IsHungUpLast};

use crate::link_voice::LinkVoice;
use crate::replica_machine::Answer;
use crate::turn::Turn;
use mr_lane::{Post, Tap};
use mr_link::{Gate, Link};
use mr_replica::Event;
use mr_threads::{Talk, Voice, VoiceEnd, run_voice};
use std::alloc::Global;
use std::sync::Wait;

/// A link, its post, and the tap of the answers to what it posts.
#[derive(Drop)]
pub struct LinkParts<L, R> {
    pub post: Post<Event>,
    pub tap: Tap<Answer, R>,
    pub link: L,
}

/// A link that has run: its parts, the answers that it took, and whether it did all that it had to. It did not where a
/// growth was refused, where its replies were closed too soon, or where an answer came that no replica gives. A request too
/// long for a frame, which is one of more than 8,388,608 bytes, and a count of more letters than a `u64` has count as refused growths.
#[derive(Drop)]
pub struct LinkEnd<L, R> {
    pub post: Post<Event>,
    pub tap: Tap<Answer, R>,
    pub link: L,
    pub replies: Vec<Answer>,
    pub whole: bool,
}

/// Takes these turns over the link, one after the other, and then finishes the post, hangs up, and takes answers until
/// they are closed. The link's number, by which the gate is asked, is its post's sender.
///
/// It stops earlier where a letter is refused, where the link is down, where what comes is no frame or none that the turn
/// reads, or where the gate lets a record not pass; and then it cuts what the turn has open, if anything.
pub fn run_link<L: Link, G: Gate, R: Wait>(
    rt: &R,
    alloc: Global,
    parts: LinkParts<L, R>,
    turns: Vec<Turn>,
    gate: &G,
) -> LinkEnd<L, R>
    requires post { IsNewPost parts.post }
    requires tap { parts.tap.passed ≡ [] }
    requires count { (L.tells parts.link).downs + 1 < 2 ^ 64 }
    ensures said { IsTrue result.whole → SaidTurns L.tells (G.closes gate.now parts.post.sender) (G.has_let gate.now parts.post.sender) turns.items parts result }
    ensures in_turn { SaidInTurn result }
    ensures hung_up_last { IsTrue result.whole → IsHungUpLast L.tells L.hung_up_at parts.link result.link }
    ensures hung_up { (L.tells result.link).hung_up ≡ true }
    ensures post { result.post.id ≡ parts.post.id }
    ensures sender { result.post.sender ≡ parts.post.sender }
    ensures tap { result.tap.id ≡ parts.tap.id }
    ensures finished { result.post.finished ≡ true }
{
    let LinkParts { post, tap, link } = parts;
    let sender = post.sender();
    let voice = Voice {
        speaker: LinkVoice::new(alloc, link, turns, gate, sender),
        talk: Talk {
            post,
            tap,
            replies: Vec::new(alloc),
        },
    };
    link_end(run_voice(rt, voice))
}

/// The parts of a voice that has run.
fn link_end<L: Link, G: Gate, R>(
    end: VoiceEnd<LinkVoice<'_, L, G>, Event, Answer, R>,
) -> LinkEnd<L, R>
    ensures post { result.post ≡ end.entry.voice.talk.post }
    ensures tap { result.tap ≡ end.entry.voice.talk.tap }
    ensures replies { result.replies ≡ end.entry.voice.talk.replies }
    ensures link { result.link ≡ end.entry.voice.speaker.wire.link }
    ensures whole { result.whole ≡ end.entry.whole }
{
    let whole = end.whole;
    let Voice { speaker, talk } = end.voice;
    let Talk { post, tap, replies } = talk;
    LinkEnd {
        post,
        tap,
        link: speaker.into_link(),
        replies,
        whole,
    }
}
