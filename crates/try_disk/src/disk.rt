//! A disk that stops, is full, and tells what a crash may leave on it.
ghost use Rattle.std.specs.Prelude.{◌≤◌, [], false};

use mr_journal::{Device, DeviceFailed, DiskFile, MemoryDevice};
use std::alloc::{AllocError, Global};
use std::io;

/// Where the bytes are.
#[derive(Drop)]
enum Place {
    Memory(MemoryDevice),
    File(DiskFile),
}

/// What a crash leaves of what isn't synced yet.
#[derive(Clone, Copy, PartialEq, Eq)]
pub enum Crash {
    /// All of it, as far as it was written.
    Written,
    /// Nothing of it.
    Synced,
    /// The length, and zeros in place of what is past the old end.
    Zeros,
    /// Each second byte.
    Mixed,
}

/// Each way to crash.
pub const CRASHES: [Crash; 4] = [Crash::Written, Crash::Synced, Crash::Zeros, Crash::Mixed];

impl Crash {
    /// The way to crash of this name.
    pub fn read(name: &str) -> Option<Crash> {
        match name {
            "written" => Some(Crash::Written),
            "synced" => Some(Crash::Synced),
            "zeros" => Some(Crash::Zeros),
            "mixed" => Some(Crash::Mixed),
            _ => None,
        }
    }

    /// What it is called.
    pub fn name(self) -> &'static str {
        match self {
            Crash::Written => "written",
            Crash::Synced => "synced",
            Crash::Zeros => "zeros",
            Crash::Mixed => "mixed",
        }
    }
}

/// When a disk fails.
#[derive(Clone, Copy)]
pub struct Limits {
    /// After so many steps: each byte that is written is one, and so is each cut and each sync.
    pub steps: u64,
    /// Where more than so many bytes are written.
    pub room: u64,
}

/// A disk that never fails.
pub const NO_LIMITS: Limits = Limits {
    steps: u64::MAX,
    room: u64::MAX,
};

impl Limits {
    /// Those of a disk that fails after so many steps.
    pub fn after(steps: u64) -> Limits {
        let room = u64::MAX;
        Limits { steps, room }
    }

    /// Those of a disk that has room for so many bytes.
    pub fn at(room: u64) -> Limits {
        let steps = u64::MAX;
        Limits { steps, room }
    }
}

/// How often a disk was called.
#[derive(Clone, Copy)]
pub struct Calls {
    pub writes: u64,
    pub cuts: u64,
    pub syncs: u64,
    /// Those that failed.
    pub failed: u64,
}

/// Bytes in memory or in a file. A disk in memory knows what was synced.
#[derive(Drop)]
pub struct Disk {
    alloc: Global,
    place: Place,
    synced: Vec<u8>,
    limits: Limits,
    calls: Calls,
}

impl Disk {
    /// A disk in memory with these bytes.
    pub fn in_memory(alloc: Global, bytes: &[u8], limits: Limits) -> Result<Disk, AllocError> {
        let synced = bytes.to_vec(alloc)?;
        let memory = MemoryDevice::new(alloc, bytes.to_vec(alloc)?);
        Ok(Disk::new(alloc, Place::Memory(memory), synced, limits))
    }

    /// A disk in a file.
    pub fn in_file(alloc: Global, file: DiskFile) -> Disk {
        Disk::new(alloc, Place::File(file), Vec::new(alloc), NO_LIMITS)
    }

    fn new(alloc: Global, place: Place, synced: Vec<u8>, limits: Limits) -> Disk {
        let calls = Calls {
            writes: 0,
            cuts: 0,
            syncs: 0,
            failed: 0,
        };
        Disk {
            alloc,
            place,
            synced,
            limits,
            calls,
        }
    }

    /// The bytes as far as they are written; of a file none.
    pub fn bytes(&self) -> &[u8] {
        match &self.place {
            Place::Memory(memory) => memory.bytes(),
            Place::File(_) => &[],
        }
    }

    /// What a crash leaves.
    pub fn left_by(&self, crash: Crash) -> Result<Vec<u8>, AllocError> {
        match crash {
            Crash::Written => self.bytes().to_vec(self.alloc),
            Crash::Synced => self.synced.to_vec(self.alloc),
            Crash::Zeros => torn(self.alloc, self.bytes(), &self.synced, false),
            Crash::Mixed => torn(self.alloc, self.bytes(), &self.synced, true),
        }
    }

    /// How often it was called.
    pub fn calls(&self) -> Calls {
        self.calls
    }

    /// The system's words for the last call that failed, of a file.
    pub fn error(&self) -> Option<io::Error> {
        match &self.place {
            Place::Memory(_) => None,
            Place::File(file) => file.error(),
        }
    }

    /// Takes a step, or fails.
    fn step(&mut self) -> Result<(), DeviceFailed> {
        if self.limits.steps == 0 {
            return Err(self.fail());
        }
        self.limits.steps -= 1;
        Ok(())
    }

    /// How many of so many bytes can be written at a place.
    fn takes(&self, at: u64, count: usize) -> usize
        ensures { result ≤ count }
    {
        let room = self.limits.room.saturating_sub(at);
        let most = room.min(self.limits.steps);
        count.min(usize::try_from(most).unwrap_or(usize::MAX))
    }

    fn fail(&mut self) -> DeviceFailed {
        self.calls.failed = self.calls.failed.saturating_add(1);
        DeviceFailed
    }
}

/// What is left of bytes that were written since others were synced: of those that were there before each is the old one or the new
/// one, and past the old end there is anything. Here each second byte is new, where that is asked for, and else none.
fn torn(alloc: Global, written: &[u8], synced: &[u8], mixed: bool) -> Result<Vec<u8>, AllocError> {
    let len = torn_len(written.len(), synced.len());
    let mut bytes = Vec::new(alloc);
    for at in 0..len {
        let old = synced.get(at).copied().unwrap_or(0);
        let new = written.get(at).copied().unwrap_or(old);
        bytes.push(if mixed && at % 2 == 0 { new } else { old })?;
    }
    Ok(bytes)
}

/// The length that is left: where bytes were cut off, half of them.
fn torn_len(written: usize, synced: usize) -> usize {
    if written >= synced {
        return written;
    }
    written + (synced - written) / 2
}

impl Device for Place {
    ghost is_told = { false };

    ghost seen = { λ _. [] };

    ghost may_leave = { λ _ _. ⊥ };

    ghost moment = { λ _. 0 };

    ghost left_since = { λ _ _ _. ⊥ };

    ghost has_failed = { λ _. false };

    ghost now_counts = { λ _ _ _ _ now. now };

    ghost only_now = { λ _ _ left. left };

    fn len(&mut self) -> Result<u64, DeviceFailed> {
        match self {
            Place::Memory(memory) => memory.len(),
            Place::File(file) => file.len(),
        }
    }

    fn read_at(&mut self, at: u64, buf: &mut [u8]) -> Result<(), DeviceFailed> {
        match self {
            Place::Memory(memory) => memory.read_at(at, buf),
            Place::File(file) => file.read_at(at, buf),
        }
    }

    fn write_at(&mut self, at: u64, bytes: &[u8]) -> Result<(), DeviceFailed> {
        match self {
            Place::Memory(memory) => memory.write_at(at, bytes),
            Place::File(file) => file.write_at(at, bytes),
        }
    }

    fn cut(&mut self, len: u64) -> Result<(), DeviceFailed> {
        match self {
            Place::Memory(memory) => memory.cut(len),
            Place::File(file) => file.cut(len),
        }
    }

    fn sync(&mut self) -> Result<(), DeviceFailed> {
        match self {
            Place::Memory(memory) => memory.sync(),
            Place::File(file) => file.sync(),
        }
    }
}

impl Device for Disk {
    ghost is_told = { false };

    ghost seen = { λ _. [] };

    ghost may_leave = { λ _ _. ⊥ };

    ghost moment = { λ _. 0 };

    ghost left_since = { λ _ _ _. ⊥ };

    ghost has_failed = { λ _. false };

    ghost now_counts = { λ _ _ _ _ now. now };

    ghost only_now = { λ _ _ left. left };

    fn len(&mut self) -> Result<u64, DeviceFailed> {
        self.place.len()
    }

    fn read_at(&mut self, at: u64, buf: &mut [u8]) -> Result<(), DeviceFailed> {
        self.place.read_at(at, buf)
    }

    fn write_at(&mut self, at: u64, bytes: &[u8]) -> Result<(), DeviceFailed> {
        self.calls.writes = self.calls.writes.saturating_add(1);
        let count = self.takes(at, bytes.len());
        self.place.write_at(at, &bytes[..count])?;
        self.limits.steps = self.limits.steps.saturating_sub(count as u64);
        if count < bytes.len() {
            return Err(self.fail());
        }
        Ok(())
    }

    fn cut(&mut self, len: u64) -> Result<(), DeviceFailed> {
        self.calls.cuts = self.calls.cuts.saturating_add(1);
        self.step()?;
        self.place.cut(len)
    }

    fn sync(&mut self) -> Result<(), DeviceFailed> {
        self.calls.syncs = self.calls.syncs.saturating_add(1);
        self.step()?;
        self.place.sync()?;
        self.synced = self.bytes().to_vec(self.alloc).map_err(|_| DeviceFailed)?;
        Ok(())
    }
}
