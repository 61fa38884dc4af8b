//! The numbers of a pool's frames, by their bytes.
ghost use Rattle.std.specs.Prelude.{◌≡◌, OnOk};
ghost use Rattle.mr_settle.specs.inner.Numbers.{no_numbers, Puts, numbering};

use std::alloc::{AllocError, Global};
use std::collections::BTreeMap;

/// The number of each frame, by its bytes.
#[derive(Drop)]
pub struct Numbers {
    by_frame: BTreeMap<Vec<u8>, u64>,
}

impl Numbers {
    /// No frame has a number. It allocates nothing.
    pub fn new(alloc: Global) -> Numbers
        ensures { numbering result ≡ no_numbers }
    {
        Numbers {
            by_frame: BTreeMap::new(alloc),
        }
    }

    /// The number of the frame of these bytes, where it has one.
    pub fn find(&self, frame: &[u8]) -> Option<u64>
        ensures { result ≡ numbering self.now frame.now }
    {
        self.by_frame.get(frame).copied()
    }

    /// Gives the frame of these bytes this number.
    pub fn put(&mut self, frame: Vec<u8>, number: u64) -> Result<(), AllocError>
        ensures ok { OnOk result (Puts (numbering self.old) frame.items number (numbering self.new)) }
    {
        self.by_frame.insert(frame, number)?;
        Ok(())
    }
}
