//! What an act asks of its replica, or of one of the replica's ports.
ghost use Rattle.std.specs.Prelude.{All};
ghost use Rattle.std.specs.Option.{option_map};
ghost use Rattle.mr_model.specs.Moment.{numbered};
ghost use Rattle.mr_world.specs.Asked.{receiving, delivering, answering, releasing};
ghost use Rattle.mr_world.specs.inner.Asked.{asked_of, Finds, FindsFrame};
ghost use Rattle.mr_world.specs.Pool.{AreFrames, at_number, IsAskFrame, IsRecordFrame, IsReceiptFrame, questions_in, sents_in, receipts_in};

use crate::event::Act;
use crate::fault::WorldFault;
use crate::pool::Pool;
use crate::pools::Pools;
use mr_model::Subscriber;
use mr_replica::Event as ReplicaEvent;
use mr_wire::{Frame, decode};
use std::alloc::Global;

/// What an act asks for, with all that it needs of the pools.
#[derive(Drop)]
pub enum Task {
    /// An event of the replica.
    Step(ReplicaEvent),
    /// A part of a frame comes to the replica.
    Truncated,
    Offer(Subscriber),
    Take(Subscriber),
    Close(Subscriber),
}

/// What the act asks. `NoSuchFrame` where it names a number that its pool hasn't got, and `OutOfMemory`
/// otherwise. It costs a copy of what the act carries, or of the frame that it names.
pub fn task_of(alloc: Global, pools: &Pools, act: &Act) -> Result<Task, WorldFault>
    requires { AreFrames pools.now }
    ensures { Finds (asked_of pools.now act.now) result }
{
    match act {
        Act::Create(message) => Ok(Task::Step(ReplicaEvent::Create(message.copy()?))),
        Act::Edit(bases, message) => {
            let event = ReplicaEvent::Edit(bases.copy()?, message.copy()?);
            Ok(Task::Step(event))
        }
        Act::Retire => Ok(Task::Step(ReplicaEvent::Retire)),
        Act::Pull => Ok(Task::Step(ReplicaEvent::Pull)),
        Act::Receive(number) => receive(alloc, pools.records(), *number),
        Act::DeliverPart(number, bytes) => deliver_part(alloc, pools.records(), *number, *bytes),
        Act::CutIn(session) => Ok(Task::Step(ReplicaEvent::CutIn(*session))),
        Act::Answer(number) => answer(alloc, pools.asks(), *number),
        Act::Next(stream) => Ok(Task::Step(ReplicaEvent::Next(*stream))),
        Act::CutOut(stream) => Ok(Task::Step(ReplicaEvent::CutOut(*stream))),
        Act::Offer(subscriber) => Ok(Task::Offer(*subscriber)),
        Act::Take(subscriber) => Ok(Task::Take(*subscriber)),
        Act::Close(subscriber) => Ok(Task::Close(*subscriber)),
        Act::Vouch(version) => Ok(Task::Step(ReplicaEvent::Vouch(*version))),
        Act::Release(number) => release(alloc, pools.receipts(), *number),
    }
}

// The record of this number comes to the replica.
fn receive(alloc: Global, records: &Pool, number: u64) -> Result<Task, WorldFault>
    requires { All IsRecordFrame records.now.frames }
    ensures { Finds (option_map receiving (numbered (sents_in records.now.frames) number)) result }
{
    let frame = frame_at(alloc, records, number)?;
    Ok(Task::Step(ReplicaEvent::Receive(frame)))
}

// So many bytes of the record of this number come to the replica: it all, where it has no more.
fn deliver_part(alloc: Global, records: &Pool, number: u64, bytes: u64) -> Result<Task, WorldFault>
    requires { All IsRecordFrame records.now.frames }
    ensures { Finds (option_map (delivering bytes) (numbered (sents_in records.now.frames) number)) result }
{
    match records.get(number) {
        Some(frame) if bytes < frame.len() as u64 => Ok(Task::Truncated),
        Some(_) => receive(alloc, records, number),
        None => Err(WorldFault::NoSuchFrame),
    }
}

// The request of this number comes to the replica.
fn answer(alloc: Global, asks: &Pool, number: u64) -> Result<Task, WorldFault>
    requires { All IsAskFrame asks.now.frames }
    ensures { Finds (option_map answering (numbered (questions_in asks.now.frames) number)) result }
{
    match frame_at(alloc, asks, number)? {
        Frame::Ask(ask) => Ok(Task::Step(ReplicaEvent::Answer(ask))),
        _ => unreachable!(),
    }
}

// The receipt of this number comes to the replica.
fn release(alloc: Global, receipts: &Pool, number: u64) -> Result<Task, WorldFault>
    requires { All IsReceiptFrame receipts.now.frames }
    ensures { Finds (option_map releasing (numbered (receipts_in receipts.now.frames) number)) result }
{
    match frame_at(alloc, receipts, number)? {
        Frame::Receipt(receipt) => Ok(Task::Step(ReplicaEvent::Release(receipt))),
        _ => unreachable!(),
    }
}

// The frame of this number in the pool.
fn frame_at(alloc: Global, pool: &Pool, number: u64) -> Result<Frame, WorldFault>
    ensures { FindsFrame (at_number pool.now.frames number) result }
{
    match pool.get(number) {
        Some(bytes) => match decode(alloc, bytes) {
            Ok(found) => Ok(found.0),
            Err(_) => Err(WorldFault::OutOfMemory),
        },
        None => Err(WorldFault::NoSuchFrame),
    }
}
