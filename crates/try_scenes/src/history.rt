//! A run of a world: many events in one call.
use crate::lists::{push_made, push_some};
use crate::roster::read;
use crate::words::{read_id, words};
use crate::world::{SceneWorld, Stop};
use anyhow::{Context, Result, bail};
use mr_command::Command;
use mr_world::{Answered, Event, Spec};
use std::alloc::{AllocError, Global};

/// The lines that make the replicas of a run, those that let its events happen, and the world that came of those that have
/// happened.
#[derive(Drop)]
pub struct History<W> {
    replicas: Vec<String>,
    events: Vec<String>,
    pub world: Option<W>,
}

impl<W> History<W> {
    /// No replica, and no event.
    pub fn new(alloc: Global) -> History<W> {
        History {
            replicas: Vec::new(alloc),
            events: Vec::new(alloc),
            world: None,
        }
    }

    /// `then LINE`: a line of a script behind the others, which makes a replica or lets an event happen.
    pub fn add(&mut self, alloc: Global, line: &str) -> Result<()> {
        if is_event(&read(alloc, line)?)? {
            self.events.push(String::from_str(alloc, line)?)?;
        } else {
            self.replicas.push(String::from_str(alloc, line)?)?;
        }
        Ok(())
    }
}

impl<W: SceneWorld> History<W> {
    /// `history`: lets the events that have not happened yet happen in one run, and tells how many have happened then, and
    /// where the run stopped.
    pub fn run(&mut self, alloc: Global) -> Result<String> {
        if self.world.is_none() {
            self.world = Some(W::try_new(alloc, specs(alloc, &self.replicas)?)?);
        }
        let events = events(alloc, &self.events, self.happened())?;
        let stop = run_in(&mut self.world, events);
        Ok(told(alloc, self.happened(), stop)?)
    }

    /// How many events have happened.
    fn happened(&self) -> usize {
        match &self.world {
            Some(world) => world.answers().len(),
            None => 0,
        }
    }

    /// `whole R..`: each event of the run with its answer, and what these replicas hold, tell and have admitted, as Rust
    /// prints them.
    pub fn tell(&self, alloc: Global, ids: &str) -> Result<String> {
        let world = self.world.as_ref().context("no world")?;
        let mut text = String::new(alloc);
        push_answers(&mut text, world.answers())?;
        for word in words(ids) {
            world.push_replica(&mut text, read_id(word)?)?;
        }
        Ok(text)
    }
}

/// Whether what a line asks for is an event of a run, and not one of its replicas.
fn is_event(command: &Command) -> Result<bool> {
    match command {
        Command::Happen(_) => Ok(true),
        Command::AddReplica(_) => Ok(false),
        _ => bail!("no event"),
    }
}

/// Lets these events happen: where the run stopped.
fn run_in<W: SceneWorld>(place: &mut Option<W>, events: Vec<Event>) -> Option<Stop> {
    let (world, stop) = place.take()?.run(events);
    *place = Some(world);
    stop
}

/// The replicas that the lines make.
fn specs(alloc: Global, lines: &[String]) -> Result<Vec<Spec>> {
    let mut specs = Vec::new(alloc);
    for line in lines {
        push_spec(&mut specs, &read(alloc, line.as_str())?)?;
    }
    Ok(specs)
}

/// Adds the replica that a line makes.
fn push_spec(specs: &mut Vec<Spec>, command: &Command) -> Result<(), AllocError> {
    match command {
        Command::AddReplica(spec) => push_made(specs, spec.copy()),
        _ => Ok(()),
    }
}

/// The events of the lines, but for the first so many.
fn events(alloc: Global, lines: &[String], before: usize) -> Result<Vec<Event>> {
    let mut events = Vec::new(alloc);
    for line in lines.iter().skip(before) {
        push_some(&mut events, event_of(read(alloc, line.as_str())?))?;
    }
    Ok(events)
}

/// The event that a line asks for.
fn event_of(command: Command) -> Option<Event> {
    match command {
        Command::Happen(event) => Some(event),
        _ => None,
    }
}

/// How many events have happened, and where the run stopped.
fn told(alloc: Global, count: usize, stop: Option<Stop>) -> Result<String, AllocError> {
    let mut text = format!(in alloc; "events {count}\n")?;
    if let Some(stop) = stop {
        push_stop(&mut text, stop)?;
    }
    Ok(text)
}

/// Where a run stopped, and why.
fn push_stop(text: &mut String, stop: Stop) -> Result<(), AllocError> {
    let (at, fault) = (stop.at, stop.fault);
    let number = fault.number();
    write!(text, "stopped at {at}: fault {number}: {fault}\n")
}

/// Each event with its answer.
fn push_answers(text: &mut String, answers: &[Answered]) -> Result<(), AllocError> {
    for answered in answers {
        write!(text, "{answered:?}\n")?;
    }
    Ok(())
}
