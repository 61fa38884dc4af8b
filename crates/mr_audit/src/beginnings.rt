//! How far one history explains some logs.
ghost use Rattle.std.specs.Prelude.{All, IfOk};
ghost use Rattle.std.specs.List.{AllZip};
ghost use Rattle.mr_replica.specs.Replay.{IsItsLog};
ghost use Rattle.mr_settle.specs.Explains.{AreDistinct};
ghost use Rattle.mr_audit.specs.Beginning.{IsBeginning};
ghost use Rattle.mr_audit.specs.inner.Beginning.{IsPutBack};
ghost use Rattle.mr_audit.specs.Verdict.{AreExplained};

use crate::beginning::beginning_of;
use crate::verdict::{Verdict, audit};
use mr_forms::{Knowledge, OneValue};
use mr_replica::Replica;
use mr_version::Author;
use std::alloc::{AllocError, Global};

/// The replicas as they were before the first events that nobody explains: a beginning of each of them, in their order, and one history
/// explains these. As often as [`audit`] names an event, its replica goes back to before it.
///
/// No two of them have one id: see [`are_distinct`](crate::are_distinct). Memory alone can be wanting. It costs an [`audit`] for each
/// event that is named, and one more; mostly no replica goes back twice.
pub fn explained_beginnings<K: OneValue>(
    alloc: Global,
    ends: Vec<Replica<K>>,
) -> Result<Vec<Replica<K>>, AllocError>
    requires distinct { AreDistinct ends.items }
    ensures beginnings { IfOk result (λ starts. AllZip (IsBeginning K.form) ends.items starts.items) }
    ensures explained { IfOk result (λ starts. AreExplained K.form starts.items) }
{
    look_at_logs(&ends);
    let mut starts = ends;
    loop {
        match audit(alloc, &starts)? {
            Verdict::OneHistory => return Ok(starts),
            Verdict::Unexplained { replica, event } => {
                starts = put_back(alloc, starts, replica, event - 1)?;
            }
        }
    }
}

// The replicas, of which the one of this id goes back to so many events.
#[tactic(auto, using(crate::proofs::BeginningLemmas::back_begin, crate::proofs::BeginningLemmas::back_end))]
fn put_back<K: Knowledge>(
    alloc: Global,
    ends: Vec<Replica<K>>,
    replica: Author,
    events: usize,
) -> Result<Vec<Replica<K>>, AllocError>
    ensures { IfOk result (λ starts. AllZip (IsPutBack K.form replica events) ends.items starts.items) }
{
    let mut starts = Vec::new(alloc);
    for end in ends {
        starts.push(put_one_back(alloc, end, replica, events)?)?;
    }
    Ok(starts)
}

// The end, which goes back to so many events if it has this id.
#[tactic(auto, using(crate::proofs::BeginningLemmas::itself))]
fn put_one_back<K: Knowledge>(
    alloc: Global,
    end: Replica<K>,
    replica: Author,
    events: usize,
) -> Result<Replica<K>, AllocError>
    ensures { IfOk result (IsPutBack K.form replica events end) }
{
    if end.id() == replica {
        return beginning_of(alloc, &end, events);
    }
    look_at_log(&end);
    Ok(end)
}

// Each replica is its log replayed.
fn look_at_logs<K: Knowledge>(ends: &[Replica<K>])
    ensures { All (IsItsLog K.form) ends.now }
{
    for end in ends {
        look_at_log(end);
    }
}

// The same of one.
fn look_at_log<K: Knowledge>(end: &Replica<K>)
    ensures { IsItsLog K.form end.now }
{
    // a replica is its log replayed
    let _log = end.log();
}
