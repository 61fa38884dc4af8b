//! How an event is answered: its replica is found, its task made, done, and its answer noted.
ghost use Rattle.std.specs.Prelude.{◌≡◌, ◌==◌, ◌<◌, OnOk, Some, vec_len, vec_capacity};
ghost use Rattle.std.specs.List.{position};
ghost use Rattle.mr_world.specs.inner.Given.{HasPlaces, KeepsFrames};
ghost use Rattle.mr_world.specs.inner.Asked.{asked_of};
ghost use Rattle.mr_world.specs.Pool.{AreFrames};
ghost use Rattle.mr_world.specs.Kept.{world_view};
ghost use Rattle.mr_world.specs.Run.{Meets};

use crate::answered::Answered;
use crate::event::Event;
use crate::fault::WorldFault;
use crate::member::{Member, place_of};
use crate::pools::Pools;
use crate::task::{Task, task_of};
use mr_forms::Knowledge;
use std::alloc::{AllocError, Global};

/// Has the event answered by the member of its id, or nothing changes.
pub(crate) fn answer_event<K: Knowledge>(
    alloc: Global,
    members: &mut Vec<Member<K>>,
    pools: &mut Pools,
    answers: &mut Vec<Answered>,
    event: Event,
) -> Result<(), WorldFault>
    requires { AreFrames pools.old }
    ensures meets { Meets K.form (world_view members.old.items pools.old answers.old.items) event result (world_view members.new.items pools.new answers.new.items) }
    ensures frames { AreFrames pools.new }
{
    match place_of(members, event.replica) {
        Some(place) => answer_at(alloc, members, place, pools, answers, event),
        None => Err(WorldFault::NoSuchReplica),
    }
}

// An event of the member at this place.
fn answer_at<K: Knowledge>(
    alloc: Global,
    members: &mut Vec<Member<K>>,
    place: usize,
    pools: &mut Pools,
    answers: &mut Vec<Answered>,
    event: Event,
) -> Result<(), WorldFault>
    requires place { position (λ m. m.replica.id == event.replica) members.old.items ≡ Some place }
    requires frames { AreFrames pools.old }
    ensures meets { Meets K.form (world_view members.old.items pools.old answers.old.items) event result (world_view members.new.items pools.new answers.new.items) }
    ensures frames { AreFrames pools.new }
{
    match task_of(alloc, pools, &event.act) {
        Ok(task) => answer_task(alloc, members, place, pools, answers, event, task),
        Err(fault) => Err(fault),
    }
}

// The event's task. All that may fail comes before the member changes.
fn answer_task<K: Knowledge>(
    alloc: Global,
    members: &mut Vec<Member<K>>,
    place: usize,
    pools: &mut Pools,
    answers: &mut Vec<Answered>,
    event: Event,
    task: Task,
) -> Result<(), WorldFault>
    requires place { position (λ m. m.replica.id == event.replica) members.old.items ≡ Some place }
    requires frames { AreFrames pools.old }
    requires task { asked_of pools.old event.act ≡ Some task }
    ensures meets { Meets K.form (world_view members.old.items pools.old answers.old.items) event result (world_view members.new.items pools.new answers.new.items) }
    ensures frames { AreFrames pools.new }
{
    let Ok(()) = reserve_places(pools, answers) else {
        return Err(WorldFault::OutOfMemory);
    };
    let member = &mut members[place];
    match member.fulfil(alloc, pools, task) {
        Ok(answer) => {
            answers.push_reserved(Answered { event, answer });
            Ok(())
        }
        Err(fault) => Err(fault),
    }
}

// Makes room for one frame more in each pool, and for one answer more.
fn reserve_places(pools: &mut Pools, answers: &mut Vec<Answered>) -> Result<(), AllocError>
    ensures places { OnOk result (HasPlaces pools.new) }
    ensures room { OnOk result (vec_len answers.new < vec_capacity answers.new) }
    ensures frames { KeepsFrames pools.old pools.new }
    ensures answers { answers.new.items ≡ answers.old.items }
{
    answers.reserve(1)?;
    pools.reserve()
}
