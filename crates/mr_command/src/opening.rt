//! Lines that make replicas.
ghost use Rattle.mr_command.specs.Opening.{takes_spec, reads_filter, reads_spec, reads_opening};

use crate::named::read_new_id;
use crate::number::read_up_to;
use crate::roster::Roster;
use crate::words::Words;
use crate::{LineFault, Read};
use mr_feed::MAX_CAPACITY;
use mr_filter::Filter;
use mr_replica::MAX_EVENTS;
use mr_world::Spec;
use std::alloc::Global;
use std::marker::Model;

/// `ID LIMIT CAP FILTER`. `WrongWords`, then `LateReplica` where other lines came before, and then the
/// faults of its words.
pub(crate) fn read_opening<R: Roster>(alloc: Global, words: Words, roster: &R) -> Read<Spec>
    ensures { reads_opening (R.scene roster.now) words.entry result }
{
    let words = SpecWords::take(words)?;
    if roster.is_opening() {
        words.read(alloc, roster)
    } else {
        Err(LineFault::LateReplica)
    }
}

/// The words of a line that makes a replica, not yet read.
#[derive(Drop)]
struct SpecWords<'a> {
    id: &'a str,
    limit: &'a str,
    capacity: &'a str,
    filter: &'a str,
}

impl<'a> Model for SpecWords<'a> {
    ghost use Rattle.mr_command.specs.Opening.{SpecParts};

    ghost Value = { SpecParts };

    ghost view = { λ w. record { id = w.id.now; limit = w.limit.now; capacity = w.capacity.now; filter = w.filter.now } };
}

impl<'a> SpecWords<'a> {
    /// `ID LIMIT CAP FILTER`, of which FILTER is the rest.
    fn take(mut words: Words<'a>) -> Read<SpecWords<'a>>
        ensures { takes_spec words.entry result }
    {
        Ok(SpecWords {
            id: words.next_word()?,
            limit: words.next_word()?,
            capacity: words.next_word()?,
            filter: words.text()?,
        })
    }

    /// What the replica is made of. `BadNumber`, `SameReplica`, `BadLimit`, `BadCapacity`, and the
    /// faults of a filter.
    fn read<R: Roster>(self, alloc: Global, roster: &R) -> Read<Spec>
        ensures { reads_spec (R.scene roster.now) self.entry result }
    {
        let id = read_new_id(self.id, roster)?;
        let event_limit = read_up_to(self.limit, MAX_EVENTS, LineFault::BadLimit)?;
        let capacity = read_up_to(self.capacity, MAX_CAPACITY as u32, LineFault::BadCapacity)?;
        let filter = read_filter(alloc, self.filter)?;
        Ok(Spec {
            id,
            filter,
            event_limit,
            port_capacity: capacity as usize,
        })
    }
}

/// The filter whose text this is. `BadFilter`, `TooManyClauses`, `TooManyLabels`, and `OutOfMemory`
/// last.
fn read_filter(alloc: Global, text: &str) -> Read<Filter>
    ensures { reads_filter text.now result }
{
    Ok(Filter::read(alloc, text)?)
}
