//! What a world is made of.
ghost use Rattle.std.specs.Prelude.{◌≡◌, ◌==◌, None, Some, IfOk, MatchResult};
ghost use Rattle.std.specs.List.{list_any};
ghost use Rattle.mr_world.specs.Made.{has_same_id, has_bad_limit, has_bad_capacity, spec_refusal};

use crate::fault::SpecFault;
use mr_feed::MAX_CAPACITY;
use mr_filter::Filter;
use mr_replica::MAX_EVENTS;
use mr_version::Author;
use std::alloc::AllocError;

/// One replica of a world that is to be made.
#[derive(Debug, Drop)]
pub struct Spec {
    /// Its id, which no other replica of the world has.
    pub id: Author,
    /// Which messages it selects.
    pub filter: Filter,
    /// How many events it admits, 1 to 1,000,000; a Retire is admitted past them, once.
    pub event_limit: u32,
    /// How many entries may wait in the port to each of its subscribers, 1 to 4,096.
    pub port_capacity: usize,
}

impl Spec {
    /// An equal specification. It costs a copy of the filter.
    pub fn copy(&self) -> Result<Spec, AllocError>
        ensures { IfOk result (λ spec. spec ≡ self.now) }
    {
        Ok(Spec {
            id: self.id,
            filter: self.filter.copy()?,
            event_limit: self.event_limit,
            port_capacity: self.port_capacity,
        })
    }
}

/// Nothing, where a world can be made of these specifications.
pub fn check_specs(specs: &[Spec]) -> Result<(), SpecFault>
    ensures { MatchResult result (λ _. spec_refusal specs.now ≡ None) (λ fault. spec_refusal specs.now ≡ Some fault) }
{
    if names_one_twice(specs) {
        return Err(SpecFault::SameReplica);
    }
    if some_have_bad_limits(specs) {
        return Err(SpecFault::BadLimit);
    }
    if some_have_bad_capacities(specs) {
        return Err(SpecFault::NoCapacity);
    }
    Ok(())
}

// Whether two of the replicas have one id. There are 64 ids, so it looks at each replica at most 64 times.
fn names_one_twice(specs: &[Spec]) -> bool
    ensures { result ≡ has_same_id specs.now }
{
    let mut rest = specs;
    while let Some((first, later)) = rest.split_first() {
        if name(later, first.id) {
            return true;
        }
        rest = later;
    }
    false
}

// Whether one of the replicas has the id.
fn name(specs: &[Spec], id: Author) -> bool
    ensures { result ≡ list_any (λ spec. spec.id == id) specs.now }
{
    specs.iter().any(|spec| spec.id == id)
}

fn some_have_bad_limits(specs: &[Spec]) -> bool
    ensures { result ≡ list_any has_bad_limit specs.now }
{
    specs.iter().any(|spec| has_bad_limit(spec))
}

fn some_have_bad_capacities(specs: &[Spec]) -> bool
    ensures { result ≡ list_any has_bad_capacity specs.now }
{
    specs.iter().any(|spec| has_bad_capacity(spec))
}

fn has_bad_limit(spec: &Spec) -> bool
    ensures { result ≡ has_bad_limit spec.now }
{
    spec.event_limit == 0 || spec.event_limit > MAX_EVENTS
}

fn has_bad_capacity(spec: &Spec) -> bool
    ensures { result ≡ has_bad_capacity spec.now }
{
    spec.port_capacity == 0 || spec.port_capacity > MAX_CAPACITY
}
