//! The world in which nothing has happened yet.
ghost use Rattle.std.specs.Prelude.{IfOk, All};
ghost use Rattle.std.specs.List.{AllZip};
ghost use Rattle.mr_settle.specs.History.{IsSpecOf, IsStartOf};
ghost use Rattle.mr_settle.specs.Explains.{AreDistinct};
ghost use Rattle.mr_settle.specs.inner.Way.{HasGoodLimit};

use mr_forms::Knowledge;
use mr_replica::Replica;
use mr_world::{Spec, SpecFault, World};
use std::alloc::{AllocError, Global};

/// A world of replicas with these ids, filters and limits, and with ports of one place, in which nothing has
/// happened.
pub fn start<K: Knowledge>(alloc: Global, ends: &[Replica<K>]) -> Result<World<K>, AllocError>
    requires { AreDistinct ends.now }
    ensures { IfOk result (IsStartOf K.form ends.now) }
{
    let specs = specs_of(alloc, ends)?;
    match World::try_new(alloc, specs) {
        Ok(world) => Ok(world),
        Err(SpecFault::OutOfMemory) => Err(AllocError),
        Err(_) => unreachable!(),
    }
}

// What the world is made of.
fn specs_of<K: Knowledge>(alloc: Global, ends: &[Replica<K>]) -> Result<Vec<Spec>, AllocError>
    ensures specs { IfOk result (λ specs. AllZip IsSpecOf ends.now specs.items) }
    ensures limits { IfOk result (λ specs. All HasGoodLimit specs.items) }
{
    let mut specs = Vec::new(alloc);
    for end in ends {
        specs.push(spec_of(end)?)?;
    }
    Ok(specs)
}

// The specification of a replica like this one.
fn spec_of<K: Knowledge>(end: &Replica<K>) -> Result<Spec, AllocError>
    ensures spec { IfOk result (IsSpecOf end.now) }
    ensures limit { IfOk result HasGoodLimit }
{
    Ok(Spec {
        id: end.id(),
        filter: end.filter().copy()?,
        event_limit: end.event_limit(),
        port_capacity: 1,
    })
}
