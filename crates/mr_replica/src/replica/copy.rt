//! Copies of a replica.
ghost use Rattle.std.specs.Prelude.{◌≡◌, IfOk, OnOk};
ghost use Rattle.mr_replica.specs.inner.Parts.{parts_seen};

use super::parts::Parts;
use super::{Core, Replica};
use mr_forms::Knowledge;
use std::alloc::{AllocError, Global};

impl<K: Knowledge> Replica<K> {
    /// An equal replica, which goes its own way from then on. Memory alone can be wanting.
    ///
    /// Held revisions share their parts with the original, and each message in the log its body; the feeds, the
    /// log, what is known and what is open are copied.
    pub fn copy(&self) -> Result<Replica<K>, AllocError>
        ensures { IfOk result (λ replica. replica ≡ self.now) }
    {
        let core = self.core.copy()?;
        Ok(Replica { core })
    }
}

impl<K: Knowledge> Core<K> {
    // As the replica's method of this name.
    fn copy(&self) -> Result<Core<K>, AllocError>
        ensures { IfOk result (λ core. core ≡ self.now) }
    {
        let parts = self.parts.copy(self.alloc)?;
        Ok(Core {
            alloc: self.alloc,
            parts,
        })
    }
}

impl<K: Knowledge> Parts<K> {
    // Equal parts, with no room.
    fn copy(&self, alloc: Global) -> Result<Parts<K>, AllocError>
        ensures { IfOk result (λ parts. parts_seen parts ≡ parts_seen self.now) }
    {
        let filter = self.filter.copy()?;
        let mut copy = Parts::new(alloc, self.id, filter, self.event_limit);
        copy.copy_from(self)?;
        Ok(copy)
    }

    // Holds what the others hold, or memory is wanting.
    fn copy_from(&mut self, others: &Parts<K>) -> Result<(), AllocError>
        ensures { OnOk result (parts_seen self.new ≡ record (parts_seen others.now) { id = self.old.id; filter = self.old.filter; event_limit = self.old.event_limit }) }
    {
        self.issued = others.issued;
        self.is_retired = others.is_retired;
        self.knowledge = copied_knowledge(&others.knowledge)?;
        self.contents = others.contents.copy()?;
        self.sessions = others.sessions.copy()?;
        self.streams = others.streams.copy()?;
        Ok(())
    }
}

// An equal knowledge.
fn copied_knowledge<K: Knowledge>(knowledge: &K) -> Result<K, AllocError>
    ensures { IfOk result (λ copy. copy ≡ knowledge.now) }
{
    match knowledge.copy() {
        Ok(copy) => Ok(copy),
        Err(_) => Err(AllocError),
    }
}
