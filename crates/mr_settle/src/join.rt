//! One history for all logs.
ghost use Rattle.std.specs.Prelude.{◌≡◌, ◌==◌, ◌↔◌, IsTrue, IfOk, IfErr, All};
ghost use Rattle.std.specs.List.{list_any};
ghost use Rattle.mr_world.specs.Promise.{moment_of};
ghost use Rattle.mr_settle.specs.inner.Arrived.{FindsLeft, FindsLeftAt, lower_of, IsOneInWorld};
ghost use Rattle.mr_settle.specs.inner.Carried.{done_of};
ghost use Rattle.mr_settle.specs.Explains.{AreDistinct, Explains};
ghost use Rattle.mr_settle.specs.inner.Explains.{share_id};
ghost use Rattle.mr_settle.specs.Kept.{Keeps, KeepTogether};
ghost use Rattle.mr_settle.specs.Stuck.{IsWhy};

use crate::fault::JoinFault;
use crate::progress::Progress;
use crate::way::follow;
use mr_forms::{Knowledge, OneValue};
use mr_replica::{Replica, alike_are_one};
use mr_version::Author;
use mr_world::World;
use std::alloc::Global;

/// The world whose history explains how these replicas ended. No two of them have one id: see [`are_distinct`].
///
/// Each replica of the world has admitted the events of the end's log, in order, with frames that replicas of
/// the world gave, and is equal to the end. So what [`World::promise`] says holds of the replicas as they ended,
/// whatever the links between them did. Nothing else happened in the world: no event was refused, and nothing went
/// through its ports, which have one place. No ends give the empty world.
///
/// `Unexplained` where no log can go on in such a world, and nothing else happened in it: of the ends with events left
/// it names the lowest, and its next event, by its number from 1, which carries a frame that nobody gave. `OutOfMemory`
/// otherwise. The ends stay as they are.
///
/// It costs the steps of all events again, and for each of them a few searches among the frames that were given; and,
/// as often as another end goes on, a look at the ends between, with a search for each.
pub fn join_logs<K: OneValue>(alloc: Global, ends: &[Replica<K>]) -> Result<World<K>, JoinFault>
    requires distinct { AreDistinct ends.now }
    ensures explains { IfOk result (Explains K.form ends.now) }
    ensures kept { IfOk result (λ world. All (Keeps K.form (moment_of world).issues) ends.now) }
    ensures together { IfOk result (λ world. KeepTogether (moment_of world).issues ends.now) }
    ensures why { IfErr result (IsWhy K.form ends.now) }
{
    let way = follow(alloc, ends)?;
    match first_left(ends, &way.progress) {
        Some((replica, event)) => Err(JoinFault::Unexplained { replica, event }),
        None => {
            compare(&way.world, ends);
            // What holds of each world holds of the ends too.
            way.world.promise();
            Ok(way.world)
        }
    }
}

/// Whether no two of the replicas have one id. There are 64 ids, so it looks at each at most 64 times.
pub fn are_distinct<K: Knowledge>(ends: &[Replica<K>]) -> bool
    ensures { IsTrue result ↔ AreDistinct ends.now }
{
    !share_ids(ends)
}

// Whether two of the replicas have one id.
fn share_ids<K: Knowledge>(ends: &[Replica<K>]) -> bool
    ensures { result ≡ share_id ends.now }
{
    let mut rest = ends;
    while let Some((first, later)) = rest.split_first() {
        if has_id(later, first.id()) {
            return true;
        }
        rest = later;
    }
    false
}

// Whether one of the replicas has the id.
fn has_id<K: Knowledge>(ends: &[Replica<K>], id: Author) -> bool
    ensures { result ≡ list_any (λ end. end.id == id) ends.now }
{
    ends.iter().any(|end| end.id() == id)
}

// The lowest end with events left, and the number of its next one.
fn first_left<K: Knowledge>(ends: &[Replica<K>], progress: &[Progress]) -> Option<(Author, usize)>
    ensures { FindsLeft ends.now (done_of progress.now) result }
{
    let mut first: Option<(Author, usize)> = None;
    for place in 0..ends.len() {
        first = lower(first, left_at(ends, progress, place));
    }
    first
}

// The end at this place, where it has events left, and the number of its next one.
fn left_at<K: Knowledge>(
    ends: &[Replica<K>],
    progress: &[Progress],
    place: usize,
) -> Option<(Author, usize)>
    ensures { FindsLeftAt ends.now (done_of progress.now) place result }
{
    let (Some(end), Some(progress)) = (ends.get(place), progress.get(place)) else {
        return None;
    };
    if progress.done < end.log().len() {
        Some((end.id(), progress.done + 1))
    } else {
        None
    }
}

// The one of the lower replica.
fn lower(a: Option<(Author, usize)>, b: Option<(Author, usize)>) -> Option<(Author, usize)>
    ensures { result ≡ lower_of a b }
{
    match (a, b) {
        (Some(x), Some(y)) => Some(if y.0 < x.0 { y } else { x }),
        (Some(x), None) => Some(x),
        (None, b) => b,
    }
}

// Each replica of the world is the end, where the two are alike.
fn compare<K: OneValue>(world: &World<K>, ends: &[Replica<K>])
    ensures { All (IsOneInWorld K.form world.now) ends.now }
{
    for end in ends {
        compare_one(world, end);
    }
}

// The same of one end.
fn compare_one<K: OneValue>(world: &World<K>, end: &Replica<K>)
    ensures { IsOneInWorld K.form world.now end.now }
{
    // That the end is its log replayed.
    let _log = end.log();
    if let Some(replica) = world.replica(end.id()) {
        alike_are_one(replica, end);
    }
}
