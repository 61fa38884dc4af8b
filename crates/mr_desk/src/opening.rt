//! How a desk comes to be.
ghost use Rattle.mr_desk.specs.Opening.{Opens};
ghost use Rattle.mr_desk.specs.inner.Opening.{ReadsFilter};

use crate::desk::Desk;
use crate::draft::text_of;
use crate::fault::Fault;
use crate::log::events_of;
use mr_filter::Filter;
use mr_replica::Replica;
use mr_version::Author;
use std::alloc::Global;

/// The filter that these bytes mean: `NotText` where they are not UTF-8, then `Filter`.
pub(crate) fn filter_of(alloc: Global, bytes: &[u8]) -> Result<Filter, Fault>
    ensures { ReadsFilter bytes.now result }
{
    Ok(Filter::read(alloc, text_of(bytes)?)?)
}

impl Desk {
    /// The desk whose log has these bytes: of each event that it admitted, in order, those that [`event_bytes`] gives. With no
    /// bytes nothing has happened to it.
    ///
    /// `Version` where the id is above 63; then `NotText`, then `Filter` where the bytes mean no filter; then `Event` where
    /// the log's bytes are none of events; then `Replay` where the limit is none, or at the first event that is refused.
    /// `OutOfMemory` at any of these but the first. It costs the step of each event.
    ///
    /// [`event_bytes`]: crate::event_bytes
    pub fn replay(
        alloc: Global,
        id: u16,
        filter: &[u8],
        event_limit: u32,
        log: &[u8],
    ) -> Result<Desk, Fault>
        ensures { Opens id filter.now event_limit log.now result }
    {
        let id = Author::try_new(id)?;
        let filter = filter_of(alloc, filter)?;
        let events = events_of(alloc, log)?;
        match Replica::replay(alloc, id, filter, event_limit, events) {
            Ok(replica) => Ok(Desk {
                alloc,
                replica,
                frame: Vec::new(alloc),
            }),
            Err(fault) => Err(Fault::Replay(fault)),
        }
    }
}
