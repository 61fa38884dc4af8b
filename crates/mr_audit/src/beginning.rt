//! A replica as it was some events ago.
ghost use Rattle.std.specs.Prelude.{◌≡◌, IfOk, take};
ghost use Rattle.mr_audit.specs.Beginning.{IsBeginning};

use mr_forms::Knowledge;
use mr_replica::{Event, Replica};
use std::alloc::{AllocError, Global};

/// The replica as it was when its log had so many events; as it is, where it has no more than that.
///
/// Memory alone can be wanting. It costs a copy of these events, and the step of each.
pub fn beginning_of<K: Knowledge>(
    alloc: Global,
    end: &Replica<K>,
    events: usize,
) -> Result<Replica<K>, AllocError>
    ensures beginning { IfOk result (IsBeginning K.form end.now) }
    ensures log { IfOk result (λ start. start.log ≡ take events end.now.log) }
{
    let log = end.log();
    let first = copies(alloc, &log[..events.min(log.len())])?;
    match Replica::replay(
        alloc,
        end.id(),
        end.filter().copy()?,
        end.event_limit(),
        first,
    ) {
        Ok(start) => Ok(start),
        // A replica refuses no event of its own log but for want of memory.
        Err(_) => Err(AllocError),
    }
}

// Copies of the events.
fn copies(alloc: Global, events: &[Event]) -> Result<Vec<Event>, AllocError>
    ensures { IfOk result (λ copies. copies.items ≡ events.now) }
{
    let mut copies = Vec::with_capacity(alloc, events.len())?;
    for event in events {
        copies.push(event.copy()?)?;
    }
    Ok(copies)
}
