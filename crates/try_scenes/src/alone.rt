//! A link's thread by itself: its link is down, and the answers to its letters wait already.
ghost use Rattle.std.specs.Prelude.{◌≡◌, [], IfOk};
ghost use Rattle.mr_threads.specs.Outfit.{IsNewPost};

use crate::device::{Device, replica_of};
use crate::lists::push_made;
use crate::replica::SceneReplica;
use crate::strange::Strange;
use crate::strange_link::StrangeLink;
use crate::tell::initial_of;
use crate::words::{next_count, next_id, next_word, words};
use crate::work::add_turns;
use anyhow::{Result, bail};
use mr_lane::{Arrival, Desk, Post, Posts, Spout, Tap, inbox, tap};
use mr_link::OpenGate;
use mr_node::{Answer, LinkParts, Turn, run_link};
use mr_replica::{Event, Reply};
use std::alloc::{AllocError, Global};
use std::sync::Wait;

/// How many places each lane has.
const PLACES: usize = 16;

/// `posts R TURNS N`: what a link of this replica posts in these turns, and whether it did all that it had to, where the
/// first N of the answers to a pull and to its cut wait already.
pub fn posts<C: SceneReplica, L, R: Wait + Copy>(
    rt: &R,
    alloc: Global,
    devices: &[Device<C, L>],
    line: &str,
) -> Result<String> {
    let mut words = words(line);
    let replica = replica_of(devices, next_id(&mut words)?)?;
    let named = next_word(&mut words)?;
    let answers = answers(alloc, replica, next_count(&mut words)?)?;
    posted(rt, alloc, turns(alloc, named)?, answers)
}

/// The turns that are joined by commas.
fn turns(alloc: Global, text: &str) -> Result<Vec<Turn>> {
    let mut turns = Vec::new(alloc);
    add_turns(alloc, &mut turns, text)?;
    Ok(turns)
}

/// The first so many of the answers of this replica to a pull and to its cut.
fn answers<C: SceneReplica>(
    alloc: Global,
    replica: &C,
    count: usize,
) -> Result<Vec<Answer>, AllocError> {
    let mut answers = Vec::new(alloc);
    if count > 0 {
        push_made(&mut answers, asked(replica))?;
    }
    if count > 1 {
        answers.push(Ok(Reply::Done))?;
    }
    Ok(answers)
}

/// The answer of a copy of this replica to a pull.
fn asked<C: SceneReplica>(replica: &C) -> Result<Answer, AllocError> {
    let mut replica = replica.copy()?;
    Ok(replica.step(Event::Pull))
}

/// What such a link posts, a character for each letter and a point for the end mark, and whether it was whole.
fn posted<R: Wait + Copy>(
    rt: &R,
    alloc: Global,
    turns: Vec<Turn>,
    answers: Vec<Answer>,
) -> Result<String> {
    let tap = answered(rt, alloc, answers)?;
    let (post, mut desk) = new_post(alloc)?;
    let is_whole = run(rt, alloc, post, tap, turns);
    Ok(told(rt, alloc, &mut desk, is_whole)?)
}

/// A closed tap of these answers.
fn answered<A: Drop, R: Wait + Copy>(rt: &R, alloc: Global, answers: Vec<A>) -> Result<Tap<A, R>>
    ensures { IfOk result (λ tap. tap.passed ≡ []) }
{
    let (mut spout, tap) = tap(*rt, alloc, PLACES)?;
    offer_all(&mut spout, answers)?;
    Ok(tap)
}

/// Offers these answers, and closes.
fn offer_all<A: Drop, R: Wait>(spout: &mut Spout<A, R>, answers: Vec<A>) -> Result<()> {
    for answer in answers {
        if spout.offer(answer).is_err() {
            bail!("the lane is full");
        }
    }
    spout.close()?;
    Ok(())
}

/// A link's post, and the desk of its inbox.
fn new_post<E: Drop>(alloc: Global) -> Result<(Post<E>, Desk<E>)>
    ensures { IfOk result (λ made. IsNewPost made.0) }
{
    let (posts, desk) = inbox::<E>(alloc, PLACES)?;
    let Posts { first_link, .. } = posts;
    Ok((first_link, desk))
}

/// Runs a link that is down with these turns: whether it was whole.
fn run<R: Wait + Copy>(
    rt: &R,
    alloc: Global,
    post: Post<Event>,
    tap: Tap<Answer, R>,
    turns: Vec<Turn>,
) -> bool
    requires post { IsNewPost post }
    requires tap { tap.passed ≡ [] }
{
    let link: StrangeLink<R> = StrangeLink::new(None, Strange::NEVER);
    let parts = LinkParts { post, tap, link };
    let end = run_link(rt, alloc, parts, turns, &OpenGate);
    end.whole
}

/// The letters that wait, a point for the end mark, and whether the link was whole.
fn told<R: Wait>(
    rt: &R,
    alloc: Global,
    desk: &mut Desk<Event>,
    is_whole: bool,
) -> Result<String, AllocError> {
    let mut text = String::new(alloc);
    for _ in 0..PLACES {
        let sign = sign_of(&desk.take(rt));
        match sign {
            Some(sign) => text.push(sign)?,
            None => break,
        }
    }
    text.push_str(if is_whole { " whole\n" } else { " not whole\n" })?;
    Ok(text)
}

/// A character for a letter, and a point for the end mark.
fn sign_of(arrival: &Arrival<Event>) -> Option<char> {
    match arrival {
        Arrival::Letter(_, letter) => Some(initial_of(letter)),
        Arrival::End(_) => Some('.'),
        Arrival::Empty => None,
    }
}
