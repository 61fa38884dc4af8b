//! Receipts that come.
ghost use Rattle.std.specs.Prelude.{◌≡◌, MatchResult, OnOk};
ghost use Rattle.mr_kept.specs.Kept.{replica_of};
ghost use Rattle.mr_sync.specs.Taken.{GrowsOnlyBy, GrowsOnlyByTheirs, LetsGoFor, ReleasesAll, TakesReceipts};
ghost use Rattle.mr_sync.specs.inner.Taken.{IsNoReceiptOf, ReleasesOne, was_there};

use crate::fault::SyncFault;
use crate::records::{frames_in, other_side};
use crate::said::keep_and_say;
use crate::talk::Talk;
use mr_itemset::SparingKnowledge;
use mr_journal::Device;
use mr_kept::{Journaled, KeptFault};
use mr_replica::Refusal;
use mr_version::Author;
use mr_wire::{Frame, Receipt};
use std::alloc::Global;

/// Lets go of the push-outs that these receipts are for, all of them given by this replica, and counts the receipts that had
/// some. One that has none is no fault.
///
/// `OtherFrame` at a frame that is no receipt, `OtherSide` at one that another replica gave; else as the replica refuses.
pub(crate) fn take_receipts<D: Device + Drop>(
    kept: &mut Journaled<SparingKnowledge, D>,
    giver: Author,
    frames: Vec<Frame>,
) -> Result<u64, SyncFault>
    ensures grows { GrowsOnlyBy (LetsGoFor giver) (replica_of kept.old).log (replica_of kept.new).log }
    ensures all { OnOk result (ReleasesAll giver (replica_of kept.old) frames.items (replica_of kept.new)) }
{
    let mut released = 0u64;
    for frame in frames {
        let was_for_some = take_receipt(kept, giver, frame)?;
        released = released.saturating_add(u64::from(was_for_some));
    }
    Ok(released)
}

/// The receipt that a frame is, if this replica gave it.
fn receipt_of(frame: Frame, giver: Author) -> Result<Receipt, SyncFault>
    ensures { MatchResult result (λ r. (frame ≡ Frame.Receipt r) × (r.giver ≡ giver)) (IsNoReceiptOf giver frame) }
{
    match frame {
        Frame::Receipt(receipt) => {
            if receipt.giver == giver {
                Ok(receipt)
            } else {
                Err(SyncFault::OtherSide)
            }
        }
        Frame::Ask(_) => Err(SyncFault::OtherFrame),
        Frame::Record(_) => Err(SyncFault::OtherFrame),
    }
}

/// Lets go of what a receipt of this replica is for, and tells whether there was something.
fn take_receipt<D: Device + Drop>(
    kept: &mut Journaled<SparingKnowledge, D>,
    giver: Author,
    frame: Frame,
) -> Result<bool, SyncFault>
    ensures grows { GrowsOnlyBy (LetsGoFor giver) (replica_of kept.old).log (replica_of kept.new).log }
    ensures released { OnOk result (ReleasesOne giver (replica_of kept.old) frame (replica_of kept.new)) }
{
    let receipt = receipt_of(frame, giver)?;
    was_there(kept.release(receipt))
}

/// Whether a receipt was for something.
fn was_there(answer: Result<(), KeptFault>) -> Result<bool, SyncFault>
    ensures { result ≡ was_there answer }
{
    match answer {
        Ok(()) => Ok(true),
        Err(KeptFault::Refused(Refusal::NotPushedOut)) => Ok(false),
        Err(fault) => Err(SyncFault::Kept(fault)),
    }
}

/// Takes a message of receipts of the other side, keeps that, and counts those that were for something.
pub(crate) fn take_receipts_message<D: Device + Drop>(
    alloc: Global,
    kept: &mut Journaled<SparingKnowledge, D>,
    talk: &mut Talk,
    bytes: &[u8],
) -> Result<u64, SyncFault>
    ensures taken { OnOk result (TakesReceipts talk.old.theirs (replica_of kept.old) bytes.now (replica_of kept.new)) }
    ensures grows { GrowsOnlyByTheirs LetsGoFor talk.old.theirs (replica_of kept.old).log (replica_of kept.new).log }
    ensures theirs { talk.new.theirs ≡ talk.old.theirs }
{
    let giver = other_side(&talk.theirs)?;
    let frames = frames_in(alloc, bytes)?;
    let released = take_receipts(kept, giver, frames)?;
    keep_and_say(alloc, kept, &mut talk.leaving.said)?;
    Ok(released)
}
