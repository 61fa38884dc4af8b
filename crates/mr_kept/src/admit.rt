//! Events that a replica is asked for, as far as a journal can keep them.
ghost use Rattle.std.specs.Prelude.{◌≡◌, MatchResult};
ghost use Rattle.mr_kept.specs.Answered.{Answered, MayKeep, MayNotKeep, is_held_back};

use crate::fault::KeptFault;
use mr_entry::event::encoded_len;
use mr_forms::Knowledge;
use mr_journal::{Device, Journal};
use mr_replica::{Event, Replica, Reply};
use mr_wire::MAX_REST_BYTES;

/// The most bytes of an event, its length among them.
const MAX_EVENT_BYTES: usize = MAX_REST_BYTES as usize + 4;

/// Whether the reply to the event may leave the device.
pub(crate) fn is_held_back(event: &Event) -> bool
    ensures { result ≡ is_held_back event.now }
{
    match event {
        Event::Create(_) | Event::Edit(_, _) | Event::Pull | Event::Next(_) | Event::Vouch(_) => {
            true
        }
        _ => false,
    }
}

/// Whether a journal can keep the event.
pub(crate) fn may_keep<D: Device>(journal: &Journal<D>, event: &Event) -> Result<(), KeptFault>
    ensures { MatchResult result (λ _. MayKeep journal.now event.now) (MayNotKeep journal.now event.now) }
{
    if journal.has_failed() {
        return Err(KeptFault::Failed);
    }
    if encoded_len(event) > MAX_EVENT_BYTES {
        return Err(KeptFault::TooLarge);
    }
    Ok(())
}

/// What the replica answers the event, where a journal that hasn't failed could keep it.
pub(crate) fn admit<K: Knowledge, D: Device>(
    replica: &mut Replica<K>,
    journal: &Journal<D>,
    event: Event,
) -> Result<Reply, KeptFault>
    ensures { Answered K.form journal.now replica.old event result replica.new }
{
    may_keep(journal, &event)?;
    match replica.step(event) {
        Ok(reply) => Ok(reply),
        Err(refusal) => Err(KeptFault::Refused(refusal)),
    }
}
