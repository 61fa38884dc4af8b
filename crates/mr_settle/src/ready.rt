//! Which end can go on.
ghost use Rattle.std.specs.Prelude.{IfOk};
ghost use Rattle.std.specs.List.{AllZip};
ghost use Rattle.mr_settle.specs.inner.Carried.{IsUpToDate, done_of};
ghost use Rattle.mr_settle.specs.inner.Named.{given_by};
ghost use Rattle.mr_settle.specs.inner.Ready.{FindsAt, IsFirstReady, FindsReady};

use crate::given::Given;
use crate::progress::Progress;
use mr_forms::Knowledge;
use mr_replica::Replica;
use mr_world::Event;
use std::alloc::AllocError;

/// An event of the world by which an end goes on.
#[derive(Drop)]
pub struct Ready {
    /// The end's place.
    pub place: usize,
    /// How many events of its log have happened then.
    pub after: usize,
    pub event: Event,
}

/// An end that can go on: the first from this place on, or else the first before it.
pub fn next_ready<K: Knowledge>(
    ends: &[Replica<K>],
    given: &Given,
    progress: &[Progress],
    from: usize,
) -> Result<Option<Ready>, AllocError>
    requires { AllZip IsUpToDate ends.now progress.now }
    ensures { IfOk result (FindsReady K.form ends.now (given_by given.now) (done_of progress.now)) }
{
    match first_ready(ends, given, progress, from, ends.len())? {
        Some(ready) => Ok(Some(ready)),
        None => first_ready(ends, given, progress, 0, from),
    }
}

// The first end of these places that can go on.
fn first_ready<K: Knowledge>(
    ends: &[Replica<K>],
    given: &Given,
    progress: &[Progress],
    from: usize,
    to: usize,
) -> Result<Option<Ready>, AllocError>
    requires { AllZip IsUpToDate ends.now progress.now }
    ensures { IfOk result (IsFirstReady K.form ends.now (given_by given.now) (done_of progress.now) from to) }
{
    for place in from..to {
        match ready_at(ends, given, progress, place)? {
            Some(ready) => return Ok(Some(ready)),
            None => {}
        }
    }
    Ok(None)
}

// How the end at this place goes on, if it can.
fn ready_at<K: Knowledge>(
    ends: &[Replica<K>],
    given: &Given,
    progress: &[Progress],
    place: usize,
) -> Result<Option<Ready>, AllocError>
    requires { AllZip IsUpToDate ends.now progress.now }
    ensures { IfOk result (FindsAt K.form ends.now (given_by given.now) (done_of progress.now) place) }
{
    let (Some(end), Some(progress)) = (ends.get(place), progress.get(place)) else {
        return Ok(None);
    };
    let log = end.log();
    let Some(event) = log.get(progress.done) else {
        return Ok(None);
    };
    match given.named(event, progress.frame())? {
        Some(act) => Ok(Some(Ready {
            place,
            after: progress.done + 1,
            event: act.by(end.id()),
        })),
        None => Ok(None),
    }
}
