//! What the lines of a live script ask for.
ghost use Rattle.std.specs.Prelude.{◌≡◌, ◌∷◌, ◌++◌, IfOk, IsErr, OnOk, length};
ghost use Rattle.mr_command.specs.Words.{words};
ghost use Rattle.mr_command.specs.inner.Words.{words_left};
ghost use Rattle.mr_live.specs.Plan.{Halves, LineAsks, TextAsks, Adds, AddsReplica, AddsAsked, asked_by, event_for, events_for, is_live_line, is_live_name, no_plan};

use mr_command::{Command, LineFault, Pool, Roster};
use mr_replica::Event;
use mr_script::is_skipped;
use mr_version::Author;
use mr_world::{Act, Event as WorldEvent, Spec};
use std::alloc::{AllocError, Global};
use std::marker::Model;

/// What the user of a replica asks of it.
#[derive(Debug, Drop)]
pub struct Asked {
    /// The replica.
    pub id: Author,
    /// A Create or an Edit.
    pub event: Event,
}

/// What a node is to do.
#[derive(Debug, Drop)]
pub struct NodePlan {
    /// Its replica, and the places of its lanes.
    pub spec: Spec,
    /// What its user asks, in order.
    pub events: Vec<Event>,
}

/// What the lines of a live script have asked for so far: replicas in their order, and then events.
#[derive(Debug, Drop)]
pub struct Plan {
    specs: Vec<Spec>,
    asked: Vec<Asked>,
}

impl Model for Plan {
    ghost use Rattle.mr_live.specs.Plan.{PlanView};

    ghost Value = { PlanView };

    ghost view = { λ p. record { specs = p.specs.items; asked = p.asked.items } };
}

impl Roster for Plan {
    ghost use Rattle.mr_live.specs.Plan.{scene_of};

    ghost scene = { scene_of };

    fn is_opening(&self) -> bool {
        self.asked.is_empty()
    }

    fn has_replica(&self, id: Author) -> bool {
        self.specs.iter().any(|spec| spec.id == id)
    }

    fn has_frame(&self, _pool: Pool, _number: u64) -> bool {
        false
    }
}

impl Plan {
    /// Before the first line. It allocates nothing.
    pub fn new(alloc: Global) -> Plan
        ensures { result ≡ no_plan }
    {
        Plan {
            specs: Vec::new(alloc),
            asked: Vec::new(alloc),
        }
    }

    /// Takes a line, whose line feed is cut off. An empty line and one that begins with `#` are skipped.
    ///
    /// `NotText` where the line is not UTF-8, `UnknownCommand` where its first word is not `replica`, `create` or `edit`,
    /// and else the first fault of its words. `OutOfMemory` wherever memory is wanting. Nothing changes then.
    pub fn line(&mut self, alloc: Global, line: &[u8]) -> Result<(), LineFault>
        ensures { LineAsks self.old line.now result self.new }
    {
        match str::from_utf8(line) {
            Ok(text) => self.text(alloc, text),
            Err(_) => Err(LineFault::NotText),
        }
    }

    /// The two nodes that are to run, where there are two replicas, each with what its user asks: `None` where there are
    /// fewer or more.
    pub fn into_nodes(self, alloc: Global) -> Result<Option<(NodePlan, NodePlan)>, AllocError>
        ensures nodes { IfOk result (λ nodes. Halves self nodes) }
        ensures two { IsErr result → length self.specs ≡ 2 }
    {
        let Plan { mut specs, asked } = self;
        if specs.len() != 2 {
            return Ok(None);
        }
        let (Some(second), Some(first)) = (specs.pop(), specs.pop()) else {
            return Ok(None);
        };
        let first_events = events_for(alloc, first.id, &asked)?;
        let second_events = events_for(alloc, second.id, &asked)?;
        Ok(Some((
            NodePlan {
                spec: first,
                events: first_events,
            },
            NodePlan {
                spec: second,
                events: second_events,
            },
        )))
    }

    /// Takes a line of text.
    fn text(&mut self, alloc: Global, text: &str) -> Result<(), LineFault>
        ensures { TextAsks self.old text.now result self.new }
    {
        if is_skipped(text) {
            return Ok(());
        }
        if !is_live_line(text) {
            return Err(LineFault::UnknownCommand);
        }
        let command = Command::read(alloc, text, self)?;
        self.add(command)
    }

    /// Adds what a command asks for. `UnknownCommand` for one that is none of a live script.
    fn add(&mut self, command: Command) -> Result<(), LineFault>
        ensures { Adds self.old command result self.new }
    {
        match command {
            Command::AddReplica(spec) => self.add_replica(spec),
            Command::Happen(event) => self.add_event(event),
            Command::Sync(_) | Command::Ask(_) => Err(LineFault::UnknownCommand),
        }
    }

    /// Puts a replica behind those that are to be.
    fn add_replica(&mut self, spec: Spec) -> Result<(), LineFault>
        ensures { AddsReplica self.old spec result self.new }
    {
        Ok(self.specs.push(spec)?)
    }

    /// Puts what a user asks behind what was asked before.
    fn add_event(&mut self, event: WorldEvent) -> Result<(), LineFault>
        ensures { AddsAsked self.old (asked_by event.replica event.act) result self.new }
    {
        match asked_by(event.replica, event.act) {
            Some(asked) => Ok(self.asked.push(asked)?),
            None => Err(LineFault::UnknownCommand),
        }
    }
}

/// What an act asks of the replica of this id, if it is one of its user's.
fn asked_by(id: Author, act: Act) -> Option<Asked>
    ensures { result ≡ asked_by id act }
{
    match act {
        Act::Create(message) => Some(Asked {
            id,
            event: Event::Create(message),
        }),
        Act::Edit(bases, message) => Some(Asked {
            id,
            event: Event::Edit(bases, message),
        }),
        _ => None,
    }
}

/// What is asked of the replica of this id, in order.
fn events_for(alloc: Global, id: Author, asked: &[Asked]) -> Result<Vec<Event>, AllocError>
    ensures { IfOk result (λ events. events.items ≡ events_for id asked.now) }
{
    let mut events = Vec::new(alloc);
    for ask in asked {
        push_if_for(&mut events, id, ask)?;
    }
    Ok(events)
}

/// Adds what is asked, if it is of the replica of this id.
fn push_if_for(events: &mut Vec<Event>, id: Author, ask: &Asked) -> Result<(), AllocError>
    ensures { OnOk result (events.new.items ≡ events.old.items ++ event_for id ask.now) }
{
    if ask.id == id {
        events.push(ask.event.copy()?)?;
    }
    Ok(())
}

/// Whether the first word of a line is a command of a live script.
fn is_live_line(text: &str) -> bool
    ensures { result ≡ is_live_line text.now }
{
    let (name, _after) = first_word(text);
    is_live_name(name)
}

/// The first word of a text, and what stands after it if that is not its only one.
fn first_word(text: &str) -> (&str, Option<&str>)
    ensures { words text.now ≡ result.0.now ∷ words_left result.1 }
{
    match text.split_once(' ') {
        Some((word, after)) => (word, Some(after)),
        None => (text, None),
    }
}

/// Whether it is a command of a live script.
fn is_live_name(name: &str) -> bool
    ensures { result ≡ is_live_name name.now }
{
    name == "replica" || name == "create" || name == "edit"
}
