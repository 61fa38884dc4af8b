//! What was open is closed.
ghost use Rattle.std.specs.Prelude.{◌≡◌, [], IfOk, OnOk, IsTrue, List, true, map};
ghost use Rattle.mr_replica.specs.Step.{Steps};
ghost use Rattle.mr_replica.specs.StepThen.{answer_by};
ghost use Rattle.mr_replica.specs.declared.event.Reply.TheVariants.{Done};
ghost use Rattle.mr_journal.specs.Device.{LeavesOnly};
ghost use Rattle.mr_journal.specs.Journal.{device_of};
ghost use Rattle.mr_entry.specs.Spelling.{entry_bytes};
ghost use Rattle.mr_entry.specs.declared.entry.Entry.{Entry};
ghost use Rattle.mr_kept.specs.Closing.{AreClosed};
ghost use Rattle.mr_kept.specs.inner.Closing.{Closes, ClosesAll, cut_of, to_close};
ghost use Rattle.mr_kept.specs.Entries.{notes_of};
ghost use Rattle.mr_kept.specs.Opening.{HasCut};

use crate::fault::KeptFault;
use crate::journaled::Journaled;
use mr_forms::Knowledge;
use mr_journal::Device;
use mr_replica::{Refusal, Replica};
use std::alloc::{AllocError, Global};

/// What can be open.
#[derive(Clone, Copy)]
pub(crate) enum Kind {
    Sessions,
    Streams,
}

/// Closes each open session and each open stream, of a retired replica streams alone, and tells whether none is left: else
/// the log is full.
fn close_all<K: Knowledge>(alloc: Global, replica: &mut Replica<K>) -> Result<bool, KeptFault>
    ensures { IfOk result (λ all. ClosesAll all replica.old replica.new) }
{
    let sessions = close_each(alloc, replica, Kind::Sessions)?;
    if !sessions {
        return Ok(false);
    }
    close_each(alloc, replica, Kind::Streams)
}

/// Those of one kind.
fn close_each<K: Knowledge>(
    alloc: Global,
    replica: &mut Replica<K>,
    kind: Kind,
) -> Result<bool, KeptFault>
    ensures { IfOk result (λ all. Closes kind all replica.old replica.new) }
{
    let numbers = numbers_of(alloc, replica, kind)?;
    for number in &numbers {
        match cut(replica, kind, *number) {
            Ok(()) => {}
            Err(Refusal::LogFull) => return Ok(false),
            Err(refusal) => return Err(KeptFault::Refused(refusal)),
        }
    }
    Ok(true)
}

/// The numbers of those that are to be closed.
fn numbers_of<K: Knowledge>(
    alloc: Global,
    replica: &Replica<K>,
    kind: Kind,
) -> Result<Vec<u64>, AllocError>
    ensures { IfOk result (λ numbers. numbers.items ≡ to_close kind replica.now) }
{
    match kind {
        Kind::Sessions if replica.is_retired() => Ok(Vec::new(alloc)),
        Kind::Sessions => replica.open_sessions(),
        Kind::Streams => replica.open_streams(),
    }
}

fn cut<K: Knowledge>(replica: &mut Replica<K>, kind: Kind, number: u64) -> Result<(), Refusal>
    ensures { Steps K.form replica.old (cut_of kind number) (answer_by (λ _. Done) result) replica.new }
{
    match kind {
        Kind::Sessions => replica.cut_in(number),
        Kind::Streams => replica.cut_out(number),
    }
}

impl<K: Knowledge, D: Device + Drop> Journaled<K, D> {
    ghost use Rattle.mr_kept.specs.Kept.{IsKept, head_of, journal_of, leaving, nothing_waits, replica_of};
    ghost use Rattle.mr_kept.specs.inner.Opening.{IsClosedIn};
    ghost use Rattle.mr_kept.specs.Whole.{HasLog, IsOf};

    // Closes what is open, keeps that, and tells whether nothing is left open: else the log is full.
    pub(crate) fn close(&mut self) -> Result<bool, KeptFault>
        requires waits { nothing_waits self.old ≡ true }
        ensures closed { IfOk result (λ all. IsTrue all → AreClosed (replica_of self.new)) }
        ensures head { head_of self.new ≡ head_of self.old }
        ensures none_waits { OnOk result (nothing_waits self.new ≡ true) }
        ensures leaving { OnOk result (leaving self.new ≡ []) }
        ensures kept { IsTrue D.is_told → (entries : List Entry) → IsKept D.seen D.may_leave entries self.old
            → IfOk result (λ all. IsClosedIn D.seen D.may_leave entries all self.old self.new) }
        // A crash leaves the entries from before, or those and behind them the ones that close.
        ensures any_moment { IsTrue D.is_told → (entries : List Entry) → IsKept D.seen D.may_leave entries self.old
            → LeavesOnly D.moment D.left_since (device_of (journal_of self.old)) (device_of (journal_of self.new)) (HasCut (map entry_bytes entries)) }
        ensures left { IsTrue D.is_told → (entries : List Entry) → IsKept D.seen D.may_leave entries self.old → IsOf (head_of self.old) (replica_of self.old)
            → LeavesOnly D.moment D.left_since (device_of (journal_of self.old)) (device_of (journal_of self.new)) (λ c. HasLog K.form c (head_of self.old) (notes_of entries)) }
    {
        // the replica is its log replayed
        let _log = self.replica.log();
        let are_closed = close_all(self.alloc, &mut self.replica)?;
        // nobody asked for these events, so nobody waits for their replies
        let _ = self.commit()?;
        Ok(are_closed)
    }
}
