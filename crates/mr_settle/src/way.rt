//! How a world comes along the logs.
ghost use Rattle.std.specs.Prelude.{◌≡◌, ◌<◌, IfOk, OnOk, None};
ghost use Rattle.std.specs.List.{AllZip};
ghost use Rattle.mr_world.specs.Run.{stop_fault};
ghost use Rattle.mr_settle.specs.inner.Carried.{IsUpToDate, AreAtStart, done_of};
ghost use Rattle.mr_settle.specs.Explains.{AreDistinct};
ghost use Rattle.mr_settle.specs.inner.Named.{given_by};
ghost use Rattle.mr_settle.specs.inner.Ready.{IsReady, FindsReady};
ghost use Rattle.mr_settle.specs.inner.Way.{TellAll, HappensSo, IsUnderWay, left_over};

use crate::given::Given;
use crate::progress::Progress;
use crate::ready::{Ready, next_ready};
use crate::start::start;
use mr_forms::Knowledge;
use mr_replica::Replica;
use mr_world::{Event, World, WorldFault};
use std::alloc::{AllocError, Global};

/// A world, the numbers of what its replicas gave, and how far each end's log has come in it.
#[derive(Drop)]
pub struct Way<K: Knowledge> {
    pub world: World<K>,
    pub given: Given,
    pub progress: Vec<Progress>,
}

/// As far as the logs can be followed. The end that went on last is tried first, and then the others in turn.
pub fn follow<K: Knowledge>(alloc: Global, ends: &[Replica<K>]) -> Result<Way<K>, AllocError>
    requires { AreDistinct ends.now }
    ensures under_way { IfOk result (λ way. IsUnderWay K.form ends.now way.world (done_of way.progress.items)) }
    ensures tells { IfOk result (λ way. TellAll way.world (given_by way.given)) }
    ensures rest { IfOk result (λ way. FindsReady K.form ends.now (given_by way.given) (done_of way.progress.items) None) }
{
    let mut way = begin(alloc, ends)?;
    let mut from = 0;
    while let Some(ready) = next_ready(ends, &way.given, &way.progress, from)? {
        from = ready.place;
        way = go_on(alloc, ends, way, ready)?;
    }
    Ok(way)
}

// Nothing has happened.
fn begin<K: Knowledge>(alloc: Global, ends: &[Replica<K>]) -> Result<Way<K>, AllocError>
    requires { AreDistinct ends.now }
    ensures under_way { IfOk result (λ way. IsUnderWay K.form ends.now way.world (done_of way.progress.items)) }
    ensures up_to_date { IfOk result (λ way. AllZip IsUpToDate ends.now way.progress.items) }
    ensures tells { IfOk result (λ way. TellAll way.world (given_by way.given)) }
{
    let world = start(alloc, ends)?;
    let progress = no_progress(alloc, ends)?;
    Ok(Way {
        world,
        given: Given::new(alloc),
        progress,
    })
}

// No event of a log has happened.
fn no_progress<K: Knowledge>(
    alloc: Global,
    ends: &[Replica<K>],
) -> Result<Vec<Progress>, AllocError>
    ensures { IfOk result (λ progress. AreAtStart ends.now progress.items) }
{
    let mut progress = Vec::new(alloc);
    for end in ends {
        progress.push(Progress::try_new(alloc, end, 0)?)?;
    }
    Ok(progress)
}

// One end goes on by one event.
fn go_on<K: Knowledge>(
    alloc: Global,
    ends: &[Replica<K>],
    way: Way<K>,
    ready: Ready,
) -> Result<Way<K>, AllocError>
    requires distinct { AreDistinct ends.now }
    requires under_way { IsUnderWay K.form ends.now way.world (done_of way.progress.items) }
    requires up_to_date { AllZip IsUpToDate ends.now way.progress.items }
    requires tells { TellAll way.world (given_by way.given) }
    requires ready { IsReady K.form ends.now (given_by way.given) (done_of way.progress.items) ready }
    ensures under_way { IfOk result (λ new. IsUnderWay K.form ends.now new.world (done_of new.progress.items)) }
    ensures up_to_date { IfOk result (λ new. AllZip IsUpToDate ends.now new.progress.items) }
    ensures tells { IfOk result (λ new. TellAll new.world (given_by new.given)) }
    ensures nearer { IfOk result (λ new. left_over ends.now (done_of new.progress.items) < left_over ends.now (done_of way.progress.items)) }
{
    let Way {
        mut world,
        mut given,
        mut progress,
    } = way;
    happen(&mut world, ready.event)?;
    given.note_newest(alloc, &world)?;
    let next = Progress::try_new(alloc, &ends[ready.place], ready.after)?;
    progress[ready.place] = next;
    Ok(Way {
        world,
        given,
        progress,
    })
}

// The event happens.
fn happen<K: Knowledge>(world: &mut World<K>, event: Event) -> Result<(), AllocError>
    requires { stop_fault world.old event ≡ None }
    ensures { OnOk result (HappensSo K.form world.old event world.new) }
{
    match world.happen(event) {
        Ok(()) => Ok(()),
        Err(WorldFault::OutOfMemory) => Err(AllocError),
        Err(_) => unreachable!(),
    }
}
