//! A disk in memory that stops.
ghost use Rattle.std.specs.Prelude.{[], false};

use mr_journal::{Device, DeviceFailed, MemoryDevice};
use std::alloc::{AllocError, Global};

/// A disk that stops behind so many writes, cuts and syncs. Of the write at which it stops a half is there.
#[derive(Drop)]
pub struct StoppingDisk {
    alloc: Global,
    left: u64,
    /// What was written.
    pub written: MemoryDevice,
    /// What was there at the last sync.
    pub synced: Vec<u8>,
}

impl StoppingDisk {
    /// A disk with these bytes that does so many calls.
    pub fn new(alloc: Global, bytes: &[u8], calls: u64) -> Result<StoppingDisk, AllocError> {
        Ok(StoppingDisk {
            alloc,
            left: calls,
            written: MemoryDevice::new(alloc, bytes.to_vec(alloc)?),
            synced: bytes.to_vec(alloc)?,
        })
    }

    /// Counts a call. It fails where the disk has stopped.
    fn count(&mut self) -> Result<(), DeviceFailed> {
        self.left = self.left.checked_sub(1).ok_or(DeviceFailed)?;
        Ok(())
    }
}

impl Device for StoppingDisk {
    ghost is_told = { false };

    ghost seen = { λ _. [] };

    ghost may_leave = { λ _ _. ⊥ };

    ghost moment = { λ _. 0 };

    ghost left_since = { λ _ _ _. ⊥ };

    ghost has_failed = { λ _. false };

    ghost now_counts = { λ _ _ _ _ now. now };

    ghost only_now = { λ _ _ left. left };

    fn len(&mut self) -> Result<u64, DeviceFailed> {
        self.written.len()
    }

    fn read_at(&mut self, at: u64, buf: &mut [u8]) -> Result<(), DeviceFailed> {
        self.written.read_at(at, buf)
    }

    fn write_at(&mut self, at: u64, bytes: &[u8]) -> Result<(), DeviceFailed> {
        if self.left == 0 {
            self.written.write_at(at, &bytes[..bytes.len() / 2])?;
        }
        self.count()?;
        self.written.write_at(at, bytes)
    }

    fn cut(&mut self, len: u64) -> Result<(), DeviceFailed> {
        self.count()?;
        self.written.cut(len)
    }

    fn sync(&mut self) -> Result<(), DeviceFailed> {
        self.count()?;
        match self.written.bytes().to_vec(self.alloc) {
            Ok(bytes) => {
                self.synced = bytes;
                Ok(())
            }
            Err(_) => Err(DeviceFailed),
        }
    }
}
