//! The line of a sync, with its line feed.
ghost use Rattle.std.specs.Prelude.{◌≡◌, IfOk, OnOk, ◌++◌, string_bytes};
ghost use Rattle.mr_script.specs.Answer.{sync_text, counted_text, ending_text};

use crate::Grown;
use crate::answer::push_refusal;
use mr_command::Sync;
use mr_replica::Refusal;
use std::alloc::Global;

/// How many items and move-outs the target of a sync took, or knew already.
#[derive(Clone, Copy, Debug, PartialEq, Eq)]
pub(crate) struct SyncCounts {
    pub(crate) items: u64,
    pub(crate) move_outs: u64,
}

/// How a sync ended.
#[derive(Clone, Copy, Debug, PartialEq, Eq)]
pub(crate) enum SyncEnd {
    /// The End was taken.
    Finished,
    /// As many records as were asked for were taken, and no End.
    Cut,
    /// One of its steps was refused.
    Refused(Refusal),
}

/// `sync T from S: items I moveouts M `, and how it ended.
pub(crate) fn sync_line(
    alloc: Global,
    sync: Sync,
    counts: SyncCounts,
    ending: SyncEnd,
) -> Grown<String>
    ensures { IfOk result (λ line. string_bytes line ≡ sync_text sync counts ending) }
{
    let mut line = counted(alloc, sync, counts)?;
    push_ending(&mut line, ending)?;
    line.push('\n')?;
    Ok(line)
}

/// `sync T from S: items I moveouts M `
fn counted(alloc: Global, sync: Sync, counts: SyncCounts) -> Grown<String>
    ensures { IfOk result (λ text. string_bytes text ≡ counted_text sync counts) }
{
    let Sync { target, source, .. } = sync;
    let SyncCounts { items, move_outs } = counts;
    format!(in alloc; "sync {target} from {source}: items {items} moveouts {move_outs} ")
}

/// Adds `finished`, `cut`, or the refusal.
fn push_ending(line: &mut String, ending: SyncEnd) -> Grown<()>
    ensures { OnOk result (string_bytes line.new ≡ string_bytes line.old ++ ending_text ending) }
{
    match ending {
        SyncEnd::Finished => line.push_str("finished"),
        SyncEnd::Cut => line.push_str("cut"),
        SyncEnd::Refused(refusal) => push_refusal(line, refusal),
    }
}
