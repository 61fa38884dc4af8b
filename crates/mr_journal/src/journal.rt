//! A journal that is open.
ghost use Rattle.std.specs.Prelude.{◌≡◌, ◌≢◌, ◌⊎◌, ◌↔◌, ◌++◌, [], ℕ, List, false, Err, IsTrue, IfOk, IfErr, OnOk, MatchResult, IsOk};
ghost use Rattle.mr_journal.specs.Device.{IsUntouched, LeavesOnly};
ghost use Rattle.mr_journal.specs.Format.{Fits, StandAlike, Stands, contents};
ghost use Rattle.mr_journal.specs.Reading.{IsReason};
ghost use Rattle.mr_journal.specs.Fault.{IsOfBatch};
ghost use Rattle.mr_journal.specs.declared.fault.JournalFault.TheVariants.{Failed, TooLarge};

use crate::Device;
use crate::fault::JournalFault;
use crate::restore::restore;
use crate::spell::{BATCH_HEAD_BYTES, body_size, staged};
use crate::steps::publish;
use std::alloc::Global;

/// The gate of a batch that counts.
const OPEN_GATE: u8 = 1;

/// A journal that is open.
#[derive(Drop)]
pub struct Journal<D: Device> {
    device: D,
    gate: u64,
    failed: bool,
}

impl<D: Device> Journal<D> {
    ghost use Rattle.mr_journal.specs.Journal.{Keeps, device_of, end_of, has_failed};

    /// Whether the device has failed, so that each call answers `Failed`.
    pub fn has_failed(&self) -> bool
        ensures { result ≡ has_failed self.now }
    {
        self.failed
    }

    /// Opens the journal that a device has, and gives its entries in the order in which they were kept. A device that has no
    /// byte yet becomes a journal without entries. What a crash left behind the entries is cut off.
    ///
    /// `NotAJournal`, `OtherFormat` and `Damaged` where the bytes are refused; then nothing was written, nor where memory ran out.
    /// `Failed` where the device failed. Each gives the device back. It reads the device once, with one batch in memory beside
    /// the entries.
    pub fn open(
        alloc: Global,
        mut device: D,
    ) -> Result<(Journal<D>, Vec<Vec<u8>>), (JournalFault, D)>
        // At `Ok` the journal has the entries that the device's bytes stood for.
        ensures opened { IsTrue D.is_told → IfOk result (λ r. Keeps D.seen D.may_leave (contents r.1.items) r.0
            × Stands (contents r.1.items) (D.seen device)) }
        // A crash at any moment of the call leaves what one before it might have left, or a file of the same entries.
        ensures any_moment { IsTrue D.is_told → MatchResult result
            (λ r. LeavesOnly D.moment D.left_since device (device_of r.0) (λ c. D.may_leave device c ⊎ StandAlike (D.seen device) c))
            (λ e. LeavesOnly D.moment D.left_since device e.1 (λ c. D.may_leave device c ⊎ StandAlike (D.seen device) c)) }
        ensures reason { IsTrue D.is_told → IfErr result (λ e. IsReason e.0 (D.seen device)) }
        ensures untouched { IsTrue D.is_told → IfErr result (λ e. e.0 ≢ Failed
            → IsUntouched D.seen D.may_leave D.moment D.left_since device e.1) }
        ensures cause { IsTrue D.is_told → IfErr result (λ e. e.0 ≡ Failed → IsTrue (D.has_failed e.1)) }
    {
        match restore(alloc, &mut device) {
            Ok((entries, gate)) => Ok((
                Journal {
                    device,
                    gate,
                    failed: false,
                },
                entries,
            )),
            Err(fault) => Err((fault, device)),
        }
    }

    /// The device.
    pub fn device(&self) -> &D
        ensures { result.now ≡ device_of self.now }
    {
        &self.device
    }

    /// The place of the closed gate, where the next batch will stand: one byte less than the journal has.
    pub fn end(&self) -> u64
        ensures { result ≡ end_of self.now }
    {
        self.gate
    }

    /// Ends the journal, and gives its device back.
    pub fn into_device(self) -> D
        ensures { result ≡ device_of self }
    {
        let Journal { device, .. } = self;
        device
    }

    /// Keeps a batch of entries: all of them or, where a crash or a fault comes between, none.
    ///
    /// `Failed` where the device failed, now or before; whether this batch is kept is known once the journal is open again.
    /// `TooLarge` where an entry has 2^32 bytes or more, or the journal would get more than 2^62. `OutOfMemory` where there is
    /// none for the batch's bytes; then and at `TooLarge` nothing has changed. It writes the batch's bytes, syncs, writes a byte
    /// and syncs, whatever the batch; of a batch without entries it writes nothing.
    pub fn commit(&mut self, alloc: Global, batch: &[Vec<u8>]) -> Result<(), JournalFault>
        // At `Ok` the journal has the entries from before and then those of the batch, and a crash leaves that.
        ensures kept { IsTrue D.is_told → (entries : List (List ℕ)) → Keeps D.seen D.may_leave entries self.old
            → OnOk result (Keeps D.seen D.may_leave (entries ++ contents batch.now) self.new) }
        // A crash at any moment of the call leaves the entries from before it, or those and the whole batch.
        ensures any_moment { IsTrue D.is_told → (entries : List (List ℕ)) → Keeps D.seen D.may_leave entries self.old
            → LeavesOnly D.moment D.left_since (device_of self.old) (device_of self.new)
            (λ c. Stands entries c ⊎ Stands (entries ++ contents batch.now) c) }
        ensures too_large { has_failed self.old ≡ false → batch.now ≢ []
            → (result ≡ Err TooLarge) ↔ (Fits (end_of self.old) (contents batch.now) → ⊥) }
        ensures failed_before { IsTrue (has_failed self.old) → (result ≡ Err Failed) × (self.new ≡ self.old) }
        ensures fails { IfErr result (λ fault. fault ≡ Failed → IsTrue (has_failed self.new)) }
        ensures refused { IfErr result (λ fault. fault ≢ Failed → self.new ≡ self.old) }
        ensures cause { IsTrue D.is_told → IfErr result (λ fault. fault ≡ Failed → IsTrue (has_failed self.old) ⊎ IsTrue (D.has_failed (device_of self.new))) }
        ensures nothing { batch.now ≡ [] → self.new ≡ self.old }
        ensures empty { batch.now ≡ [] → has_failed self.old ≡ false → IsOk result }
        ensures only { IfErr result IsOfBatch }
    {
        if self.failed {
            return Err(JournalFault::Failed);
        }
        if batch.is_empty() {
            return Ok(());
        }
        let Some(size) = body_size(self.gate, batch) else {
            return Err(JournalFault::TooLarge);
        };
        let bytes = staged(alloc, batch, size)?;
        self.failed = true;
        publish(&mut self.device, self.gate, OPEN_GATE, &bytes)?;
        self.failed = false;
        self.gate += BATCH_HEAD_BYTES + size;
        Ok(())
    }
}
