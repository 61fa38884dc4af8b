//! A sync: a session that is run to its end, to a number of records, or to a refusal.
ghost use Rattle.std.specs.Prelude.{◌≡◌, ◌<◌, ◌+◌, ◌^◌, [], Ok};
ghost use Rattle.mr_script.specs.Question.{text_of};
ghost use Rattle.mr_script.specs.Stage.{syncs_told};
ghost use Rattle.mr_script.specs.Sync.{Draws, OpensSession, OpensStream, Takes, Rounds, answers, closes, draws, goes_through, outcome, pulls, receives, round, streams, syncs, told_by};
ghost use Rattle.mr_script.specs.inner.Sync.{MayOpenSession, MayOpenStream, MayDraw, MayTake, counts_with};

use crate::Done;
use crate::single_event::{let_happen, newest};
use crate::sync_line::{SyncCounts, SyncEnd, sync_line};
use mr_command::Sync;
use mr_forms::Knowledge;
use mr_replica::{Refusal, Reply};
use mr_wire::Body;
use mr_world::{Act, Answer, World};
use std::alloc::Global;

/// What a record tells.
#[derive(Clone, Copy, Debug, PartialEq, Eq)]
enum Told {
    Item,
    MoveOut,
    Other,
}

/// What came of a draw and of taking what was drawn.
#[derive(Debug, Drop)]
enum Round {
    /// The record was taken or known, and the next may follow.
    Taken(Told),
    /// No round follows.
    Ended(SyncEnd),
}

/// How far a sync came.
#[derive(Clone, Copy, Debug, PartialEq, Eq)]
struct Outcome {
    counts: SyncCounts,
    end: SyncEnd,
}

/// Runs a sync and gives its line. At a fault the events before it stand.
pub(crate) fn sync_and_tell<K: Knowledge>(
    alloc: Global,
    world: &mut World<K>,
    sync: Sync,
) -> Done<String>
    ensures { syncs_told K.form sync world.old (text_of result) world.new }
{
    match run_sync(world, &sync) {
        Ok(Outcome { counts, end }) => Ok(sync_line(alloc, sync, counts, end)?),
        Err(fault) => Err(fault),
    }
}

/// Opens a session, and goes on with it where it was opened.
fn run_sync<K: Knowledge>(world: &mut World<K>, sync: &Sync) -> Done<Outcome>
    ensures { syncs K.form sync.now world.old result world.new }
{
    match pull(world, sync)? {
        Ok(session) => run_session(world, sync, session),
        Err(refusal) => Ok(Outcome::refused(refusal)),
    }
}

/// Opens a stream for the session, and goes on with it where it was opened. Where it wasn't, the session
/// is cut.
fn run_session<K: Knowledge>(world: &mut World<K>, sync: &Sync, session: u64) -> Done<Outcome>
    ensures { goes_through K.form sync.now (Ok session) world.old result world.new }
{
    match answer(world, sync)? {
        Ok(stream) => run_stream(world, sync, session, stream),
        Err(refusal) => {
            let_happen(world, Act::CutIn(session).by(sync.target))?;
            Ok(Outcome::refused(refusal))
        }
    }
}

/// Draws records and has them taken. Both ends are cut unless End was taken.
fn run_stream<K: Knowledge>(
    world: &mut World<K>,
    sync: &Sync,
    session: u64,
    stream: u64,
) -> Done<Outcome>
    ensures { streams K.form sync.now session (Ok stream) world.old result world.new }
{
    match take_records(world, sync, stream) {
        Ok(Outcome { counts, end }) => close(world, sync, session, stream, counts, end),
        Err(fault) => Err(fault),
    }
}

/// Cuts the session and the stream, unless End was taken.
fn close<K: Knowledge>(
    world: &mut World<K>,
    sync: &Sync,
    session: u64,
    stream: u64,
    counts: SyncCounts,
    end: SyncEnd,
) -> Done<Outcome>
    ensures { closes K.form sync.now session stream counts end world.old result world.new }
{
    if !matches!(&end, SyncEnd::Finished) {
        let_happen(world, Act::CutIn(session).by(sync.target))?;
        let_happen(world, Act::CutOut(stream).by(sync.source))?;
    }
    Ok(Outcome { counts, end })
}

/// Draws records and has them taken, up to a round that ends the sync, or to as many as may be taken.
fn take_records<K: Knowledge>(world: &mut World<K>, sync: &Sync, stream: u64) -> Done<Outcome>
    ensures { Rounds K.form sync.now stream world.old result world.new }
{
    let mut counts = SyncCounts {
        items: 0,
        move_outs: 0,
    };
    for _taken in 0..sync.most.unwrap_or(u64::MAX) {
        match take_record(world, sync, stream)? {
            Round::Taken(told) => counts = with_counted(counts, told),
            Round::Ended(end) => return Ok(Outcome { counts, end }),
        }
    }
    Ok(Outcome {
        counts,
        end: SyncEnd::Cut,
    })
}

/// One round: a record is drawn, and comes to the target.
fn take_record<K: Knowledge>(world: &mut World<K>, sync: &Sync, stream: u64) -> Done<Round>
    ensures { round K.form sync.now stream world.old result world.new }
{
    match draw(world, sync, stream)? {
        Ok(told) => receive(world, sync, told),
        Err(refusal) => Ok(Round::Ended(SyncEnd::Refused(refusal))),
    }
}

/// The counts with a record of this kind.
fn with_counted(counts: SyncCounts, told: Told) -> SyncCounts
    requires items { counts.items + 1 < 2 ^ 64 }
    requires move_outs { counts.move_outs + 1 < 2 ^ 64 }
    ensures { result ≡ counts_with counts told }
{
    match told {
        Told::Item => SyncCounts {
            items: counts.items + 1,
            ..counts
        },
        Told::MoveOut => SyncCounts {
            move_outs: counts.move_outs + 1,
            ..counts
        },
        Told::Other => counts,
    }
}

impl Outcome {
    /// A sync that took nothing.
    fn refused(refusal: Refusal) -> Outcome
        ensures { result ≡ outcome [] (SyncEnd.Refused refusal) }
    {
        Outcome {
            counts: SyncCounts {
                items: 0,
                move_outs: 0,
            },
            end: SyncEnd::Refused(refusal),
        }
    }
}

// ---- single events

/// The target asks; the session that it opened, or its refusal.
fn pull<K: Knowledge>(world: &mut World<K>, sync: &Sync) -> Done<Result<u64, Refusal>>
    ensures { pulls K.form sync.now world.old result world.new }
{
    let_happen(world, Act::Pull.by(sync.target))?;
    Ok(session_in(newest(world)))
}

/// The source answers the newest request; the stream that it opened, or its refusal.
fn answer<K: Knowledge>(world: &mut World<K>, sync: &Sync) -> Done<Result<u64, Refusal>>
    ensures { answers K.form sync.now world.old result world.new }
{
    let newest_ask = world.ask_count();
    let_happen(world, Act::Answer(newest_ask).by(sync.source))?;
    Ok(stream_in(newest(world)))
}

/// The source gives the stream's next record; what it tells, or the refusal.
fn draw<K: Knowledge>(world: &mut World<K>, sync: &Sync, stream: u64) -> Done<Result<Told, Refusal>>
    ensures { draws K.form sync.now stream world.old result world.new }
{
    let_happen(world, Act::Next(stream).by(sync.source))?;
    Ok(drawn_in(newest(world)))
}

/// The newest record, which tells this, comes to the target.
fn receive<K: Knowledge>(world: &mut World<K>, sync: &Sync, told: Told) -> Done<Round>
    ensures { receives K.form sync.now told world.old result world.new }
{
    let newest_record = world.record_count();
    let_happen(world, Act::Receive(newest_record).by(sync.target))?;
    Ok(round_in(told, newest(world)))
}

// ---- what their answers say

fn session_in(answer: &Answer) -> Result<u64, Refusal>
    requires { MayOpenSession answer.now }
    ensures { OpensSession answer.now result }
{
    match answer {
        Answer::Stepped(Ok(Reply::Asked(ask))) => Ok(ask.session()),
        Answer::Stepped(Err(refusal)) => Err(*refusal),
        _ => unreachable!(),
    }
}

fn stream_in(answer: &Answer) -> Result<u64, Refusal>
    requires { MayOpenStream answer.now }
    ensures { OpensStream answer.now result }
{
    match answer {
        Answer::Stepped(Ok(Reply::Streaming(stream))) => Ok(*stream),
        Answer::Stepped(Err(refusal)) => Err(*refusal),
        _ => unreachable!(),
    }
}

fn drawn_in(answer: &Answer) -> Result<Told, Refusal>
    requires { MayDraw answer.now }
    ensures { Draws answer.now result }
{
    match answer {
        Answer::Stepped(Ok(Reply::Gave(sent))) => Ok(Told::of(sent.body())),
        Answer::Stepped(Err(refusal)) => Err(*refusal),
        _ => unreachable!(),
    }
}

fn round_in(told: Told, answer: &Answer) -> Round
    requires { MayTake answer.now }
    ensures { Takes told answer.now result }
{
    match answer {
        Answer::Stepped(Ok(Reply::Took)) | Answer::Stepped(Ok(Reply::Known)) => Round::Taken(told),
        Answer::Stepped(Ok(Reply::Finished)) => Round::Ended(SyncEnd::Finished),
        Answer::Stepped(Err(refusal)) => Round::Ended(SyncEnd::Refused(*refusal)),
        _ => unreachable!(),
    }
}

impl Told {
    /// What a record of this body tells.
    fn of(body: &Body) -> Told
        ensures { result ≡ told_by body.now }
    {
        match body {
            Body::Item(_) => Told::Item,
            Body::MoveOut(_) => Told::MoveOut,
            _ => Told::Other,
        }
    }
}
