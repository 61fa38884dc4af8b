//! A log that is nearly full.
ghost use Rattle.std.specs.Prelude.{IsTrue, ◌↔◌, ◌≤◌, ◌*◌};

use mr_itemset::SparingKnowledge;
use mr_replica::Replica;
use std::io;

/// Warns on standard error where four fifths of the events that a replica admits are in its log.
pub fn warn_of_full_log<R: Eprint>(rt: &R, replica: &Replica<SparingKnowledge>) -> io::Result<()> {
    let events = replica.log().len() as u64;
    let limit = replica.event_limit();
    if is_nearly_full(events, limit) {
        eprintln!(rt;
            "mailfold: the log has {events} of {limit} events: `mailfold renew` gives the folder another one"
        )?;
    }
    Ok(())
}

/// Whether the warning is due.
pub fn has_full_log(replica: &Replica<SparingKnowledge>) -> bool {
    is_nearly_full(replica.log().len() as u64, replica.event_limit())
}

/// Whether four fifths of the limit are reached.
fn is_nearly_full(events: u64, limit: u32) -> bool
    ensures { IsTrue result ↔ (limit * 4 ≤ events * 5) }
{
    u128::from(limit) * 4 <= u128::from(events) * 5
}
