//! What replicas that are alone have to do in the next run.
use crate::device::{Device, device_of};
use crate::gate::GateKind;
use crate::lists::push_made;
use crate::strange::Strange;
use crate::words::{next_count, next_id, next_number, next_word, read_number, words};
use anyhow::{Context, Result, bail};
use mr_command::{Command, Roster};
use mr_lane::LaneFault;
use mr_link::{LaneLink, Link, lane_link};
use mr_mail::Message;
use mr_node::Turn;
use mr_replica::{Bases, Event};
use mr_version::Version;
use mr_world::Act;
use std::alloc::{AllocError, Global};
use std::sync::Wait;

/// How many pieces may wait in each direction of a link.
const LINK_PIECES: usize = 16;

/// How many places the lanes of a node have, where no line says so.
const PLACES: usize = 4;

/// A link to come: its lane, where it isn't always down, what it does strangely, and its turns.
#[derive(Drop)]
pub struct Plan<L> {
    pub lane: Option<L>,
    pub strange: Strange,
    pub turns: Vec<Turn>,
}

/// What one has to do: what its user asks, its links, its gate, and the places of its lanes.
#[derive(Drop)]
pub struct Work<L> {
    pub events: Vec<Event>,
    pub links: Vec<Plan<L>>,
    pub gate: GateKind,
    pub places: usize,
}

impl<L> Work<L> {
    /// Nothing.
    pub fn new(alloc: Global) -> Work<L> {
        Work {
            events: Vec::new(alloc),
            links: Vec::new(alloc),
            gate: GateKind::Open,
            places: PLACES,
        }
    }
}

impl<R: Wait + Copy> Work<LaneLink<R>> {
    /// Hangs up its links, which nobody runs.
    pub fn hang_up(&mut self) {
        for plan in &mut self.links {
            if let Some(lane) = &mut plan.lane {
                lane.hang_up();
            }
        }
    }
}

/// The end of a link whose other end has its place already.
#[derive(Drop)]
pub struct Waiting<L> {
    link: u64,
    lane: L,
}

/// `ask LINE`: a letter of a replica's user.
pub fn ask<S: Roster, C, L>(
    alloc: Global,
    roster: &S,
    devices: &mut [Device<C, L>],
    line: &str,
) -> Result<()> {
    let command = Command::read(alloc, line, roster)?;
    ask_for(devices, &command)
}

/// What a command asks of a replica is asked of it in the next run.
fn ask_for<C, L>(devices: &mut [Device<C, L>], command: &Command) -> Result<()> {
    let Command::Happen(event) = command else {
        bail!("it asks nothing");
    };
    let device = device_of(devices, event.replica)?;
    push_letter(&mut device.work.events, &event.act)
}

/// Adds the letter of an act that takes no frame.
fn push_letter(letters: &mut Vec<Event>, act: &Act) -> Result<()> {
    match act {
        Act::Create(message) => push_made(letters, message.copy().map(Event::Create))?,
        Act::Edit(bases, message) => push_made(letters, edit(bases, message))?,
        Act::Retire => letters.push(Event::Retire)?,
        Act::Vouch(version) => letters.push(Event::Vouch(*version))?,
        _ => bail!("no user asks that"),
    }
    Ok(())
}

/// An edit of these bases.
fn edit(bases: &Bases, message: &Message) -> Result<Event, AllocError> {
    Ok(Event::Edit(bases.copy()?, message.copy()?))
}

/// `end L R TURNS [WHAT WHEN]`: an end of link L at this replica.
pub fn add_end<R: Wait + Copy, C>(
    rt: &R,
    alloc: Global,
    waiting: &mut Vec<Waiting<LaneLink<R>>>,
    devices: &mut [Device<C, LaneLink<R>>],
    line: &str,
) -> Result<()> {
    let mut words = words(line);
    let link = next_number(&mut words)?;
    let device = device_of(devices, next_id(&mut words)?)?;
    let turns = next_word(&mut words)?;
    let strange = Strange::read(words.next(), words.next())?;
    if device.work.links.len() > 1 {
        bail!("a node has two links");
    }
    // Room first: an end that is lost would let the other one wait.
    device.work.links.reserve(1)?;
    let lane = lane_of(rt, alloc, waiting, link)?;
    push_link(alloc, &mut device.work.links, lane, strange)?;
    let plan = device.work.links.last_mut().context("no link")?;
    add_turns(alloc, &mut plan.turns, turns)
}

/// Adds a link without turns.
fn push_link<L: Drop>(
    alloc: Global,
    links: &mut Vec<Plan<L>>,
    lane: L,
    strange: Strange,
) -> Result<(), AllocError> {
    let plan = Plan {
        lane: Some(lane),
        strange,
        turns: Vec::new(alloc),
    };
    links.push(plan)?;
    Ok(())
}

/// An end of this link: the one that waits, or else one of a new link, whose other one waits then.
fn lane_of<R: Wait + Copy>(
    rt: &R,
    alloc: Global,
    all: &mut Vec<Waiting<LaneLink<R>>>,
    link: u64,
) -> Result<LaneLink<R>> {
    match waiting_end(all, link) {
        Some(lane) => Ok(lane),
        None => first_end(all, link, lane_link(*rt, alloc, LINK_PIECES)),
    }
}

/// The end of this link that waits.
fn waiting_end<L: Drop>(all: &mut Vec<Waiting<L>>, link: u64) -> Option<L> {
    if let Some(place) = all.iter().position(|waiting| waiting.link == link) {
        let waiting = all.swap_remove(place);
        return Some(waiting.lane);
    }
    None
}

/// The first end of a new link. The other one waits then.
fn first_end<L: Drop>(
    all: &mut Vec<Waiting<L>>,
    link: u64,
    made: Result<(L, L), LaneFault>,
) -> Result<L> {
    let (here, there) = made?;
    all.push(Waiting { link, lane: there })?;
    Ok(here)
}

/// Hangs up the ends that wait: nobody has their other ends any more.
pub fn hang_up_all<R: Wait + Copy>(waiting: &mut Vec<Waiting<LaneLink<R>>>) {
    for end in waiting.iter_mut() {
        end.lane.hang_up();
    }
    waiting.clear();
}

/// Adds the turns that are joined by commas.
pub fn add_turns(alloc: Global, turns: &mut Vec<Turn>, text: &str) -> Result<()> {
    for word in text.split(',') {
        turns.push(turn(alloc, word)?)?;
    }
    Ok(())
}

/// A turn: `pull`, `serve`, `grant:V` or `redeem:N`.
fn turn(alloc: Global, word: &str) -> Result<Turn> {
    let (name, rest) = word.split_once(':').unwrap_or((word, ""));
    match name {
        "pull" => Ok(Turn::Pull),
        "serve" => Ok(Turn::Serve),
        "grant" => Ok(Turn::Grant(only(alloc, Version::read(rest)?)?)),
        "redeem" => Ok(Turn::Redeem(read_number(rest)?)),
        _ => bail!("no turn: {word}"),
    }
}

/// This one alone.
fn only(alloc: Global, version: Version) -> Result<Vec<Version>, AllocError> {
    let mut versions = Vec::new(alloc);
    versions.push(version)?;
    Ok(versions)
}

/// `gate R shuts N` or `gate R crosses`: the gate of a replica.
pub fn set_gate<C, L>(devices: &mut [Device<C, L>], line: &str) -> Result<()> {
    let mut words = words(line);
    let device = device_of(devices, next_id(&mut words)?)?;
    device.work.gate = match next_word(&mut words)? {
        "crosses" => GateKind::Crosses,
        "shuts" => GateKind::ShutsAt(next_number(&mut words)?),
        _ => bail!("no gate does that"),
    };
    Ok(())
}

/// `places R N`: how many places the lanes of a replica's node have.
pub fn set_places<C, L>(devices: &mut [Device<C, L>], line: &str) -> Result<()> {
    let mut words = words(line);
    let device = device_of(devices, next_id(&mut words)?)?;
    device.work.places = next_count(&mut words)?;
    Ok(())
}
