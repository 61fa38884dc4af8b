//! A device in memory.
ghost use Rattle.std.specs.Prelude.{◌≡◌, [], ◌∷◌, ◌++◌, ◌≤◌, true, Ok, length, IfOk, OnOk, OnErr};
ghost use Rattle.std.proofs.Common.{inl};
ghost use Rattle.mr_journal.specs.Device.{HasCause, overwritten};
ghost use Rattle.mr_journal.specs.Past.{LeftSince, only_now};

use crate::{Device, DeviceFailed};
use std::alloc::{AllocError, Global};

/// A device in memory: each call is done at once, so a crash leaves what is there.
///
/// It keeps each content that it had before a write or a cut, so it is for tests and small journals. A call that finds no memory
/// has failed.
#[derive(Drop)]
pub struct MemoryDevice {
    alloc: Global,
    bytes: Vec<u8>,
    past: Vec<Vec<u8>>,
    failed: bool,
}

impl MemoryDevice {
    ghost use Rattle.std.specs.Prelude.{false};
    ghost use Rattle.mr_journal.specs.Memory.{memory_bytes, memory_failed};

    /// A device that has these bytes.
    pub fn new(alloc: Global, bytes: Vec<u8>) -> MemoryDevice
        ensures bytes { memory_bytes result ≡ bytes.items }
        ensures sound { memory_failed result ≡ false }
    {
        MemoryDevice {
            alloc,
            bytes,
            past: Vec::new(alloc),
            failed: false,
        }
    }

    /// The bytes.
    pub fn bytes(&self) -> &[u8]
        ensures { result.now ≡ memory_bytes self.now }
    {
        &self.bytes
    }
}

// Puts other bytes in the place of those that are there, which it keeps.
fn replace(
    alloc: Global,
    bytes: &mut Vec<u8>,
    past: &mut Vec<Vec<u8>>,
    next: Vec<u8>,
) -> Result<(), AllocError>
    ensures ok { OnOk result (bytes.new.items ≡ next.items) }
    ensures err { OnErr result (bytes.new.items ≡ bytes.old.items) }
    ensures past { OnOk result ((v : _) × (v.items ≡ bytes.old.items) × (past.new.items ≡ past.old.items ++ v ∷ [])) }
    ensures past_err { OnErr result (past.new.items ≡ past.old.items) }
{
    past.push(bytes.to_vec(alloc)?)?;
    *bytes = next;
    Ok(())
}

// The bytes with others written over them at a place.
fn with_written(
    alloc: Global,
    bytes: &[u8],
    at: usize,
    written: &[u8],
) -> Result<Vec<u8>, AllocError>
    requires { at ≤ length bytes.now }
    ensures { IfOk result (λ v. v.items ≡ overwritten bytes.now at written.now) }
{
    let mut next = bytes[..at].to_vec(alloc)?;
    next.extend_from_slice(written)?;
    if written.len() < bytes.len() - at {
        next.extend_from_slice(&bytes[at + written.len()..])?;
    }
    Ok(next)
}

// Notes where a call has failed.
fn noted<T>(outcome: Result<T, AllocError>, failed: &mut bool) -> Result<T, DeviceFailed>
    ensures ok { IfOk result (λ value. outcome ≡ Ok value) }
    ensures cause { HasCause result failed.old failed.new }
{
    match outcome {
        Ok(value) => Ok(value),
        Err(_) => {
            *failed = true;
            Err(DeviceFailed)
        }
    }
}

impl Device for MemoryDevice {
    ghost is_told = { true };

    ghost seen = { λ m. m.bytes.items };

    ghost may_leave = { λ m c. c ≡ m.bytes.items };

    ghost moment = { λ m. length m.past.items };

    ghost left_since = { λ m t c. LeftSince m.past.items m.bytes.items t c };

    ghost has_failed = { λ m. m.failed };

    ghost now_counts = { λ m t c le now. inl now };

    ghost only_now = { λ m c left. only_now m.past.items m.bytes.items c left };

    fn len(&mut self) -> Result<u64, DeviceFailed> {
        Ok(self.bytes.len() as u64)
    }

    fn read_at(&mut self, at: u64, buf: &mut [u8]) -> Result<(), DeviceFailed> {
        let at = at as usize;
        if at > self.bytes.len() || buf.len() > self.bytes.len() - at {
            self.failed = true;
            return Err(DeviceFailed);
        }
        buf.copy_from_slice(&self.bytes[at..at + buf.len()]);
        Ok(())
    }

    fn write_at(&mut self, at: u64, bytes: &[u8]) -> Result<(), DeviceFailed> {
        let at = at as usize;
        if at > self.bytes.len() {
            self.failed = true;
            return Err(DeviceFailed);
        }
        let next = noted(
            with_written(self.alloc, &self.bytes, at, bytes),
            &mut self.failed,
        )?;
        match replace(self.alloc, &mut self.bytes, &mut self.past, next) {
            Ok(()) => Ok(()),
            Err(_) => {
                self.failed = true;
                Err(DeviceFailed)
            }
        }
    }

    fn cut(&mut self, len: u64) -> Result<(), DeviceFailed> {
        let end = self.bytes.len().min(len as usize);
        let next = noted(self.bytes[..end].to_vec(self.alloc), &mut self.failed)?;
        match replace(self.alloc, &mut self.bytes, &mut self.past, next) {
            Ok(()) => Ok(()),
            Err(_) => {
                self.failed = true;
                Err(DeviceFailed)
            }
        }
    }

    fn sync(&mut self) -> Result<(), DeviceFailed> {
        Ok(())
    }
}
