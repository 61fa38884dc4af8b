//! Scenes, line by line.
//!
//! A scene begins as a script. Replicas then leave its world and go on alone: as nodes, or joined again. Other lines are
//! about links, lanes and machines by themselves.
//!
//! | Line | What it does, and its answer |
//! |---|---|
//! | `over FORM..` | the lines up to the next `over` are done over these forms alone: `items`, `plain`, `sparing`, or `all` |
//! | a line of a script | as in a script |
//! | `scene TITLE` | all is new from here on |
//! | `then LINE` | a replica or an event behind the others of a run of a world |
//! | `history` | what of it has not happened yet happens in one run: how many events there are then, and where it stopped |
//! | `whole R..` | each event of that run with its answer, and all that these replicas hold, tell and have admitted, as Rust prints them |
//! | `leave R..` | these go on alone, as they are now in the world of the run, or else of the script |
//! | `ask LINE` | the user of a replica that is alone asks this in the next run: a create, edit, retire or vouch of a script |
//! | `end L R TURNS [WHAT WHEN]` | an end of link L at this replica in the next run |
//! | `gate R shuts N`, `gate R crosses` | the gate before a replica's records in the next run |
//! | `places R N` | the places of its lanes in the next run, where it isn't 4 |
//! | `run` | all that are alone run as nodes at once: who did not run to an end |
//! | `tell R..` | what these hold, and how many sessions and streams are open |
//! | `steps R..` | what these did, a character for each event, and what came into their feeds |
//! | `counts R..` | how many letters these had in the last run, how many were not refused, how long their logs are, and how many calls each end made |
//! | `join R..` | joins their logs: `joined`, or why not. Who is alone goes on as in the joined world |
//! | `posts R TURNS N` | what a link that is down posts in these turns, where N of the answers to a pull and its cut wait, and whether it was whole |
//! | `core R` | what the core of a replica answers, by itself, to what its user asks and to a pull of its first link, what it tells both subscribers, a point where it closed each lane, and whether it was whole |
//! | `read HEX [WHAT WHEN]` | what two reads give over a link of these bytes, one a piece |
//! | `reads N HEX WHAT` | the same where the link does this at call 0, at call 1, and so on for N calls |
//! | `send HEX HEX [WHAT WHEN]` | what becomes of two frames that are sent over a link, and the bytes that were |
//! | `lanes N` | a link by itself, with so many places: its ends are `here` and `there` |
//! | `by END sends HEX`, `receives`, `hangs` | what that end does |
//! | `inbox N` | an inbox by itself: its ends are `user`, `first`, `second` and `desk` |
//! | `by POST sends C`, `finishes`, `by desk takes` | what that end does |
//! | `tap N` | a tap by itself: its ends are `spout` and `tap` |
//! | `by spout offers C`, `by spout closes`, `by tap takes` | what that end does |
//! | `settle inbox`, `settle tap` | puts the ends together again |
//! | `pieces N M` | one end of a link sends N pieces, the other receives M, in two threads |
//! | `letters PLACES N` | two posts of an inbox send N letters each, and its desk takes them, in three threads |
//! | `items PLACES N` | a spout offers N items, and its tap takes them, in two threads |
//! | `machine PLACES N` | a small machine adds up N ones of each of two senders, in threads of a node |
//!
//! TURNS are joined by commas: `pull`, `serve`, `grant:V`, `redeem:N`. WHAT is `fails`, `starves`, `repeats`, `swaps` or
//! `spoils`, and WHEN a call of that end, from 0, or `each`, or a character: each piece that holds it. An end of a link whose other
//! end no replica has is hung up. A line that can't be done is answered by `fault: ` and why.
use crate::alone::posts;
use crate::device::Device;
use crate::form::Form;
use crate::history::History;
use crate::join::join;
use crate::leave::leave_all;
use crate::lone_core::core;
use crate::node::run_all;
use crate::parts::Parts;
use crate::tell::tell;
use crate::words::split_word;
use crate::work::{Waiting, add_end, ask, set_gate, set_places};
use crate::{between, inbox, lanes, machine, parts, tap, wire};
use anyhow::Result;
use mr_forms::Knowledge;
use mr_link::LaneLink;
use mr_replica::Replica;
use mr_script::Interpreter;
use mr_world::World;
use std::alloc::Global;
use std::sync::Wait;
use std::thread::Threads;

/// A scene: a script, worlds, and replicas that go on alone.
#[derive(Drop)]
pub struct Scene<S, W, C, R> {
    /// The script with its world.
    script: S,
    /// A run of a world.
    history: History<W>,
    /// Those that are alone.
    devices: Vec<Device<C, LaneLink<R>>>,
    /// The ends of links that have no place yet.
    waiting: Vec<Waiting<LaneLink<R>>>,
    /// Lanes and links by themselves.
    parts: Parts<R>,
}

/// A scene over a form of knowledge.
pub type SceneOver<K, R> = Scene<Interpreter<K>, World<K>, Replica<K>, R>;

impl<S, W, C, R> Scene<S, W, C, R> {
    /// Before its first line, with a new script.
    pub fn new(alloc: Global, script: S) -> Scene<S, W, C, R> {
        Scene {
            script,
            history: History::new(alloc),
            devices: Vec::new(alloc),
            waiting: Vec::new(alloc),
            parts: Parts::none(),
        }
    }
}

/// Does a line, and gives what it prints: where it can't be done, why.
pub fn answer_of<
    K: Form<Vector: Send> + Send,
    R: AllocGlobal + Threads + Wait + Sync + Send + Copy,
>(rt: &R, scene: &mut SceneOver<K, R>, line: &str) -> Result<String> {
    match do_line(rt, rt.alloc(), scene, line) {
        Ok(answer) => Ok(answer),
        Err(fault) => Ok(format!(in rt.alloc(); "fault: {fault}\n")?),
    }
}

/// Does a line.
fn do_line<K: Form<Vector: Send> + Send, R: Threads + Wait + Sync + Send + Copy>(
    rt: &R,
    alloc: Global,
    scene: &mut SceneOver<K, R>,
    line: &str,
) -> Result<String> {
    let (word, rest) = split_word(line);
    match word {
        "history" => scene.history.run(alloc),
        "whole" => scene.history.tell(alloc, rest),
        "run" => run_all(rt, alloc, &mut scene.waiting, &mut scene.devices),
        "tell" | "steps" | "counts" => tell(alloc, &scene.devices, word, rest),
        "join" => { join::<Replica<K>, World<K>, LaneLink<R>>(alloc, &mut scene.devices, rest) }
        "posts" => posts(rt, alloc, &scene.devices, rest),
        "core" => core(rt, alloc, &mut scene.devices, rest),
        "then" | "leave" | "ask" | "end" | "gate" | "places" => {
            prepare(rt, alloc, scene, word, rest)?;
            Ok(String::new(alloc))
        }
        "scene" => begin(alloc, scene, Interpreter::new(alloc)),
        _ => do_part(rt, alloc, &mut scene.script, &mut scene.parts, line),
    }
}

/// Does what a line says that prints nothing.
fn prepare<K: Form, R: Wait + Copy>(
    rt: &R,
    alloc: Global,
    scene: &mut SceneOver<K, R>,
    word: &str,
    rest: &str,
) -> Result<()> {
    match word {
        "then" => scene.history.add(alloc, rest),
        "leave" => leave_all(
            alloc,
            scene.script.world(),
            &scene.history,
            &mut scene.devices,
            rest,
        ),
        "ask" => ask(alloc, &scene.script, &mut scene.devices, rest),
        "end" => add_end(rt, alloc, &mut scene.waiting, &mut scene.devices, rest),
        "gate" => set_gate(&mut scene.devices, rest),
        _ => set_places(&mut scene.devices, rest),
    }
}

/// All is new.
fn begin<S: Drop, W: Drop, C: Drop, R: Copy>(
    alloc: Global,
    scene: &mut Scene<S, W, C, R>,
    script: S,
) -> Result<String> {
    *scene = Scene::new(alloc, script);
    Ok(String::new(alloc))
}

/// Does a line about lanes, links or machines by themselves, or a line of a script.
fn do_part<K: Knowledge, R: Threads + Wait + Sync + Send + Copy>(
    rt: &R,
    alloc: Global,
    script: &mut Interpreter<K>,
    parts: &mut Parts<R>,
    line: &str,
) -> Result<String> {
    let (word, rest) = split_word(line);
    match word {
        "read" => wire::read(rt, alloc, rest),
        "reads" => wire::reads(rt, alloc, rest),
        "send" => wire::send(alloc, rest),
        "lanes" => lanes::open(rt, alloc, &mut parts.lanes, rest),
        "inbox" => inbox::open(alloc, &mut parts.inbox, rest),
        "tap" => tap::open(rt, alloc, &mut parts.tap, rest),
        "by" => parts::by(rt, alloc, parts, rest),
        "settle" => parts::settle(alloc, parts, rest),
        "pieces" => lanes::pieces(rt, alloc, rest),
        "letters" => between::letters(rt, alloc, rest),
        "items" => between::items(rt, alloc, rest),
        "machine" => machine::run(rt, alloc, rest),
        _ => Ok(script.line(line.as_bytes())?),
    }
}
