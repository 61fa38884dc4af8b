//! Revisions that are to enter.
ghost use Rattle.std.specs.Prelude.{◌≡◌, IfOk};

use super::entries::{news, push_out_news};
use mr_feed::Entry;
use mr_madewith::Revision;
use mr_store::Store;
use std::alloc::{AllocError, Global};

/// A revision that is to enter, with all that takes memory.
#[derive(Drop)]
pub struct Arrival {
    pub selected: bool,
    pub revision: Revision,
    // the same, for the trail
    pub last: Revision,
    pub entries: Vec<Entry>,
    pub push_out_entries: Vec<Entry>,
}

impl Arrival {
    ghost use Rattle.mr_replica.specs.inner.Contents.{news_of, push_out_news_of};

    /// The arrival of a revision that the filter selects, or does not, at this store.
    pub fn of(
        alloc: Global,
        selected: bool,
        revision: Revision,
        store: &Store,
    ) -> Result<Arrival, AllocError>
        ensures selected { IfOk result (λ arrival. arrival.selected ≡ selected) }
        ensures revision { IfOk result (λ arrival. arrival.revision ≡ revision) }
        ensures last { IfOk result (λ arrival. arrival.last ≡ revision) }
        ensures entries { IfOk result (λ arrival. arrival.entries.items ≡ news_of selected revision store.now.heads) }
        ensures push_out_entries { IfOk result (λ arrival. arrival.push_out_entries.items ≡ push_out_news_of selected revision store.now.push_outs) }
    {
        let last = revision.copy()?;
        let comer = if selected { Some(&revision) } else { None };
        let entries = news(alloc, store, revision.item(), revision.below(), comer)?;
        let pushed = if selected { None } else { Some(&revision) };
        let push_out_entries = push_out_news(
            alloc,
            store,
            revision.item(),
            revision.below(),
            pushed,
        )?;
        Ok(Arrival {
            selected,
            revision,
            last,
            entries,
            push_out_entries,
        })
    }
}
