//! What the lines of a script do, one after the other.
ghost use Rattle.std.specs.Prelude.{◌≡◌, ◌==◌, [], IfOk, OnErr};
ghost use Rattle.std.specs.List.{list_any};
ghost use Rattle.std.specs.Option.{option_copied};
ghost use Rattle.mr_script.specs.Fault.{fault_of_spec};
ghost use Rattle.mr_script.specs.Question.{text_of};
ghost use Rattle.mr_script.specs.Run.{LineDoes, TextDoes, is_skipped};
ghost use Rattle.mr_script.specs.Stage.{Adds, Begins, Does, InWorld, Stage.opening, frame_count, happens_told, made_of, replies_told, syncs_told, world_of};

use crate::question::reply;
use crate::single_event::answer_of_event;
use crate::sync::sync_and_tell;
use crate::{Done, Grown};
use mr_command::{Command, LineFault, Pool, Question, Roster, Sync};
use mr_forms::Knowledge;
use mr_version::Author;
use mr_world::{Event, Spec, SpecFault, World};
use std::alloc::Global;
use std::marker::Model;
use std::mem;

/// What a script has come to, over a form of knowledge.
#[derive(Drop)]
enum Stage<K: Knowledge> {
    /// Replicas that are to be, in their order.
    Opening(Vec<Spec>),
    /// A world of them.
    Running(World<K>),
}

/// A script that is run line by line, over a form of knowledge.
///
/// Lines that make replicas come first. The first other command makes a world of them, in which it is then
/// done.
#[derive(Drop)]
pub struct Interpreter<K: Knowledge> {
    alloc: Global,
    stage: Stage<K>,
}

impl<K: Knowledge> Model for Interpreter<K> {
    ghost use Rattle.mr_script.specs.Stage.{Stage, stage_of};

    ghost Value = { Stage K };

    ghost view = { λ i. stage_of i.stage };
}

impl<K: Knowledge> Roster for Interpreter<K> {
    ghost use Rattle.mr_script.specs.Stage.{scene_of};

    ghost scene = { scene_of };

    fn is_opening(&self) -> bool {
        matches!(&self.stage, Stage::Opening(_))
    }

    fn has_replica(&self, id: Author) -> bool {
        match &self.stage {
            Stage::Opening(specs) => name(specs, id),
            Stage::Running(world) => world.replica(id).is_some(),
        }
    }

    fn has_frame(&self, pool: Pool, number: u64) -> bool {
        match &self.stage {
            Stage::Opening(_) => false,
            Stage::Running(world) => 1 <= number && number <= frame_count(world, pool),
        }
    }
}

impl<K: Knowledge> Interpreter<K> {
    /// Before the first line. It allocates nothing.
    pub fn new(alloc: Global) -> Interpreter<K>
        ensures { result ≡ opening [] }
    {
        Interpreter {
            alloc,
            stage: Stage::Opening(Vec::new(alloc)),
        }
    }

    /// Runs a line, whose line feed is cut off, and gives what it prints, each printed line with its line
    /// feed: nothing for a line that is skipped, and for one that makes a replica.
    ///
    /// `NotText` where the line is not UTF-8, and else the first fault of its words. Nothing changes then.
    /// A world's refusal is no fault. `OutOfMemory` wherever memory is wanting: what the line had already
    /// done then stands. It costs what its command costs.
    pub fn line(&mut self, line: &[u8]) -> Result<String, LineFault>
        ensures { LineDoes K.form self.old line.now (text_of result) self.new }
    {
        match str::from_utf8(line) {
            Ok(text) => self.text(text),
            Err(_) => Err(LineFault::NotText),
        }
    }

    /// The world that the lines so far made, in which their events happened. There is none as long as lines
    /// may still make replicas.
    pub fn world(&self) -> Option<&World<K>>
        ensures { option_copied result ≡ world_of self.now }
    {
        match &self.stage {
            Stage::Opening(_) => None,
            Stage::Running(world) => Some(world),
        }
    }

    /// Runs a line of text.
    fn text(&mut self, text: &str) -> Done<String>
        ensures { TextDoes K.form self.old text.now (text_of result) self.new }
    {
        if is_skipped(text) {
            return Ok(String::new(self.alloc));
        }
        let command = Command::read(self.alloc, text, self)?;
        self.obey(command)
    }

    /// Does what a command says, and gives what it prints.
    fn obey(&mut self, command: Command) -> Done<String>
        ensures { Does K.form self.old command (text_of result) self.new }
    {
        match command {
            Command::AddReplica(spec) => self.add_replica(spec),
            Command::Happen(event) => self.answer(event),
            Command::Sync(sync) => self.sync(sync),
            Command::Ask(question) => self.reply(question),
        }
    }

    /// Puts a replica behind those that are to be.
    fn add_replica(&mut self, spec: Spec) -> Done<String>
        ensures { Adds self.old spec (text_of result) self.new }
    {
        match &mut self.stage {
            Stage::Opening(specs) => {
                specs.push(spec)?;
                Ok(String::new(self.alloc))
            }
            Stage::Running(_) => Err(LineFault::LateReplica),
        }
    }

    fn answer(&mut self, event: Event) -> Done<String>
        ensures { InWorld K.form (happens_told K.form event) self.old (text_of result) self.new }
    {
        let mut world = self.take_world()?;
        let told = answer_of_event(self.alloc, &mut world, event);
        self.stage = Stage::Running(world);
        told
    }

    fn sync(&mut self, sync: Sync) -> Done<String>
        ensures { InWorld K.form (syncs_told K.form sync) self.old (text_of result) self.new }
    {
        let mut world = self.take_world()?;
        let told = sync_and_tell(self.alloc, &mut world, sync);
        self.stage = Stage::Running(world);
        told
    }

    fn reply(&mut self, question: Question) -> Done<String>
        ensures { InWorld K.form (replies_told K.form question) self.old (text_of result) self.new }
    {
        let world = self.take_world()?;
        let told = reply(self.alloc, &world, &question);
        self.stage = Stage::Running(world);
        told
    }

    /// Takes out the world that there is, or one that is made of the replicas that are to be: the caller
    /// puts it back. Nothing changes at a fault.
    fn take_world(&mut self) -> Done<World<K>>
        ensures world { Begins K.form self.old result }
        ensures unchanged { OnErr result (self.new ≡ self.old) }
    {
        match mem::replace(&mut self.stage, Stage::Opening(Vec::new(self.alloc))) {
            Stage::Running(world) => Ok(world),
            Stage::Opening(specs) => {
                let made = made_world(self.alloc, &specs);
                self.stage = Stage::Opening(specs);
                made
            }
        }
    }
}

/// A world of these replicas, in which nothing has happened. `SameReplica`, `BadLimit` or `BadCapacity`
/// where there can be none, and `OutOfMemory`.
fn made_world<K: Knowledge>(alloc: Global, specs: &[Spec]) -> Done<World<K>>
    ensures { made_of K.form specs.now result }
{
    let specs = copied(alloc, specs)?;
    match World::try_new(alloc, specs) {
        Ok(world) => Ok(world),
        Err(fault) => Err(spec_fault(fault)),
    }
}

/// Equal specifications.
fn copied(alloc: Global, specs: &[Spec]) -> Grown<Vec<Spec>>
    ensures { IfOk result (λ copies. copies.items ≡ specs.now) }
{
    let mut copies = Vec::with_capacity(alloc, specs.len())?;
    for spec in specs {
        copies.push(spec.copy()?)?;
    }
    Ok(copies)
}

/// Whether one of them has the id.
fn name(specs: &[Spec], id: Author) -> bool
    ensures { result ≡ list_any (λ spec. spec.id == id) specs.now }
{
    specs.iter().any(|spec| spec.id == id)
}

/// How many frames the pool has.
fn frame_count<K: Knowledge>(world: &World<K>, pool: Pool) -> u64
    ensures { result ≡ frame_count world.now pool }
{
    match pool {
        Pool::Asks => world.ask_count(),
        Pool::Records => world.record_count(),
        Pool::Receipts => world.receipt_count(),
    }
}

/// Why there is no world.
fn spec_fault(fault: SpecFault) -> LineFault
    ensures { result ≡ fault_of_spec fault }
{
    match fault {
        SpecFault::OutOfMemory => LineFault::OutOfMemory,
        SpecFault::SameReplica => LineFault::SameReplica,
        SpecFault::BadLimit => LineFault::BadLimit,
        SpecFault::NoCapacity => LineFault::BadCapacity,
    }
}

/// Whether a line is skipped.
pub fn is_skipped(text: &str) -> bool
    ensures { result ≡ is_skipped text.now }
{
    match text.as_bytes().first() {
        Some(byte) => *byte == b'#',
        None => true,
    }
}
