//! A replica whose host writes, behind the same calls as a desk.
ghost use Rattle.mr_desk.specs.Kept.{KeptAnswers, KeptCommits, KeptMerges};
ghost use Rattle.mr_desk.specs.inner.Kept.{KeptTells};

use crate::call::{Call, VersionNumbers};
use crate::event::event_of;
use crate::fault::Fault;
use crate::merging::merge_in;
use crate::reply::{Told, told_by};
use mr_hosted::Hosted;
use mr_itemset::SparingKnowledge;
use mr_kept::KeptFault;
use mr_replica::Event;
use std::alloc::Global;

/// A replica whose host writes its file. What it hands out, and its replica, its own calls give: only once the host has done its acts.
pub type KeptDesk = Hosted<SparingKnowledge>;

/// One event. What its caller alone is told, it tells at once; what shows a version or gives a frame waits for the next commit.
fn tell(kept: &mut KeptDesk, event: Event) -> Result<Told, KeptFault>
    ensures { KeptTells kept.old event result kept.new }
{
    match kept.ask(event) {
        Ok(Some(reply)) => Ok(told_by(&reply)),
        Ok(None) => Ok(Told::Done),
        Err(fault) => Err(fault),
    }
}

/// One call of a replica whose host writes.
///
/// First what was handed over is read, with the faults of [`Desk::serve`]. Then the replica answers the event, as far as its file can
/// keep it: `Failed`, `TooLarge`, `Refused`, or `OutOfMemory`. A version and a frame wait for the next commit, and are not told here: a
/// Create, an Edit, a Pull, a Next and a Vouch are `Done`. Whatever the fault, all stays as it was.
///
/// [`Desk::serve`]: crate::Desk::serve
pub(crate) fn serve(alloc: Global, kept: &mut KeptDesk, call: &Call<'_>) -> Result<Told, Fault>
    ensures { KeptAnswers kept.old call.now result kept.new }
{
    let event = event_of(alloc, call)?;
    match tell(kept, event) {
        Ok(told) => Ok(told),
        Err(fault) => Err(Fault::from(fault)),
    }
}

/// Merges the heads of an item of a replica whose host writes, as [`Desk::merge`]; the version waits for the next commit.
///
/// `Unsettled` while an event or a note waits for a commit or the host has acts to do; then `Version`, `Merge` and `NoConflict`; then as
/// the replica takes the edit: `Failed`, `TooLarge`, `Refused`, or `OutOfMemory`. Whatever the fault, all stays as it was.
///
/// [`Desk::merge`]: crate::Desk::merge
pub(crate) fn merge(alloc: Global, kept: &mut KeptDesk, item: VersionNumbers) -> Result<Told, Fault>
    ensures { KeptMerges kept.old item result kept.new }
{
    let Some(replica) = kept.replica() else {
        return Err(Fault::Unsettled);
    };
    let event = merge_in(alloc, replica, item)?;
    match tell(kept, event) {
        Ok(told) => Ok(told),
        Err(fault) => Err(Fault::from(fault)),
    }
}

/// Has the host of the replica keep all that waits, events and notes, as [`Hosted::commit`]: `Unsettled`, `Failed`, `TooLarge` or `OutOfMemory`.
pub(crate) fn commit(kept: &mut KeptDesk) -> Result<(), Fault>
    ensures { KeptCommits kept.old result kept.new }
{
    match kept.commit() {
        Ok(()) => Ok(()),
        Err(fault) => Err(Fault::from(fault)),
    }
}
