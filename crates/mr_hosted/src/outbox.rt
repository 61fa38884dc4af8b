//! A device that notes what a host has to do.
ghost use Rattle.std.specs.Prelude.{◌≡◌, ◌≤◌, ◌+◌, ◌++◌, ◌∷◌, [], IsTrue, true, false, length, take, drop, IfOk, IsOk, OnOk, OnErr};
ghost use Rattle.mr_journal.specs.Device.{Cut, Follows, HasCause, IsUntouched, Only, Passes, Rests, Torn, overwritten};
ghost use Rattle.mr_hosted.specs.Acts.{AreSyncs, IsWrite, LeftSince, MayLeave, all_done, now_counts, only_now};
ghost use Rattle.mr_hosted.specs.declared.act.Act.TheVariants as act;

use crate::act::Act;
use mr_journal::{Device, DeviceFailed};
use std::alloc::Global;

/// The bytes of a file that a host read, and what it has to do to the file since.
///
/// The host syncs the file before it reads it. It does the acts in their order, and each of them once; how many of them it has done it
/// keeps itself. An act that fails is the last one: the file is read anew then. Acts are never dropped, so an outbox has all bytes that
/// were written through it.
#[derive(Drop)]
pub struct Outbox {
    alloc: Global,
    read: Vec<u8>,
    acts: Vec<Act>,
    /// How long the file is once all acts are done.
    len: u64,
    /// Whether its bytes are those that were read.
    is_as_read: bool,
    failed: bool,
    ghost counted: { len ≡ length (all_done read.items acts.items) },
    ghost same: { IsTrue is_as_read → all_done read.items acts.items ≡ read.items },
    ghost changed: { AreSyncs acts.items → IsTrue is_as_read },
}

impl Outbox {
    ghost use Rattle.mr_hosted.specs.Outbox.{acts_of, file_of, may_leave, outbox_failed};

    /// The outbox of a file that has these bytes, and that was synced before they were read. Nothing is to be done yet.
    pub fn new(alloc: Global, read: Vec<u8>) -> Outbox
        ensures rests { Rests file_of may_leave read.items result }
        ensures none { acts_of result ≡ [] }
        ensures sound { outbox_failed result ≡ false }
    {
        Outbox {
            alloc,
            len: read.len() as u64,
            read,
            acts: Vec::new(alloc),
            is_as_read: true,
            failed: false,
        }
    }

    /// All that the host has to do, from the first act on.
    pub fn acts(&self) -> &[Act]
        ensures { result.now ≡ acts_of self.now }
    {
        &self.acts
    }
}

// Notes an act, or that there is no memory for it.
fn noted(acts: &mut Vec<Act>, act: Act, failed: &mut bool) -> Result<(), DeviceFailed>
    ensures ok { OnOk result (acts.new.items ≡ acts.old.items ++ act ∷ []) }
    ensures err { OnErr result (acts.new.items ≡ acts.old.items) }
    ensures cause { HasCause result failed.old failed.new }
{
    match acts.push(act) {
        Ok(()) => Ok(()),
        Err(_) => {
            *failed = true;
            Err(DeviceFailed)
        }
    }
}

impl Device for Outbox {
    ghost use Rattle.mr_hosted.specs.Outbox.{Notes, acts_of, begun, file_of, left_since, may_leave, outbox_failed};

    ghost is_told = { true };

    ghost seen = { λ o. all_done o.read.items o.acts.items };

    ghost may_leave = { λ o c. MayLeave o.read.items o.acts.items c };

    ghost moment = { λ o. length o.acts.items };

    ghost left_since = { λ o t c. LeftSince o.read.items o.acts.items t c };

    ghost has_failed = { λ o. o.failed };

    ghost now_counts = { λ o t c le now. now_counts o.read.items o.acts.items t c le now };

    ghost only_now = { λ o c left. only_now o.read.items o.acts.items c left };

    fn len(&mut self) -> Result<u64, DeviceFailed>
        ensures never { IsOk result }
        ensures len { IfOk result (λ n. n ≡ length (file_of self.old)) }
        ensures same { self.new ≡ self.old }
        ensures untouched { IsUntouched file_of may_leave begun left_since self.old self.new }
        ensures cause { HasCause result (outbox_failed self.old) (outbox_failed self.new) }
    {
        Ok(self.len)
    }

    // The host's file has other bytes once something was written or cut, so no read is answered from then on.
    fn read_at(&mut self, at: u64, buf: &mut [u8]) -> Result<(), DeviceFailed>
        // It fails only where something was written or cut, or where fewer bytes are there.
        ensures answers { AreSyncs (acts_of self.old) → at + length buf.old ≤ length (file_of self.old) → IsOk result }
        ensures read { OnOk result (buf.new ≡ take (length buf.old) (drop at (file_of self.old))) }
        ensures acts { acts_of self.new ≡ acts_of self.old }
        ensures untouched { IsUntouched file_of may_leave begun left_since self.old self.new }
        ensures cause { HasCause result (outbox_failed self.old) (outbox_failed self.new) }
    {
        let at = at as usize;
        if !self.is_as_read || at > self.read.len() || buf.len() > self.read.len() - at {
            self.failed = true;
            return Err(DeviceFailed);
        }
        buf.copy_from_slice(&self.read[at..at + buf.len()]);
        Ok(())
    }

    fn write_at(&mut self, at: u64, bytes: &[u8]) -> Result<(), DeviceFailed>
        ensures notes { Notes (IsWrite at bytes.now) result self.old self.new }
        ensures no_hole { OnOk result (at ≤ length (file_of self.old)) }
        ensures written { at ≤ length (file_of self.old) → OnOk result (file_of self.new ≡ overwritten (file_of self.old) at bytes.now) }
        ensures crash { Follows (Torn at bytes.now) (may_leave self.old) (may_leave self.new) }
        ensures time { Passes (begun self.old) (begun self.new) (left_since self.old) (left_since self.new) (may_leave self.new) }
        ensures cause { HasCause result (outbox_failed self.old) (outbox_failed self.new) }
    {
        if at > self.len || bytes.len() as u64 > u64::MAX - at {
            self.failed = true;
            return Err(DeviceFailed);
        }
        let end = at + bytes.len() as u64;
        let Ok(bytes) = bytes.to_vec(self.alloc) else {
            self.failed = true;
            return Err(DeviceFailed);
        };
        noted(&mut self.acts, Act::Write { at, bytes }, &mut self.failed)?;
        self.len = self.len.max(end);
        self.is_as_read = false;
        Ok(())
    }

    fn cut(&mut self, len: u64) -> Result<(), DeviceFailed>
        ensures notes { Notes (λ a. a ≡ act.Cut len) result self.old self.new }
        ensures cut { OnOk result (file_of self.new ≡ take len (file_of self.old)) }
        ensures crash { Follows (Cut len) (may_leave self.old) (may_leave self.new) }
        ensures time { Passes (begun self.old) (begun self.new) (left_since self.old) (left_since self.new) (may_leave self.new) }
        ensures cause { HasCause result (outbox_failed self.old) (outbox_failed self.new) }
    {
        noted(&mut self.acts, Act::Cut { len }, &mut self.failed)?;
        self.len = self.len.min(len);
        self.is_as_read = false;
        Ok(())
    }

    fn sync(&mut self) -> Result<(), DeviceFailed>
        ensures notes { Notes (λ a. a ≡ act.Sync) result self.old self.new }
        ensures durable { OnOk result (Only (file_of self.old) (may_leave self.new)) }
        ensures untouched { IsUntouched file_of may_leave begun left_since self.old self.new }
        ensures cause { HasCause result (outbox_failed self.old) (outbox_failed self.new) }
    {
        noted(&mut self.acts, Act::Sync, &mut self.failed)
    }
}
