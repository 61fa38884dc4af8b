//! The lines of what a replica holds, knows and tells, each with its line feed.
ghost use Rattle.std.specs.Prelude.{◌≡◌, IfOk, ◌++◌, codes, string_bytes};
ghost use Rattle.mr_script.specs.Holding.{heads_text, push_outs_text, spaced_versions, conflicts_text, feed_text, log_text, know_text};

use crate::Grown;
use crate::answer::push_entry;
use mr_concise::{ConciseVector, knowledge_text};
use mr_feed::Entry;
use mr_forms::Fragment;
use mr_replica::Revision;
use mr_version::{Author, ItemId};
use std::alloc::{AllocError, Global};

/// `heads R:` and each version after a space.
pub fn heads_line(alloc: Global, replica: Author, heads: &[Revision]) -> Result<String, AllocError>
    ensures { IfOk result (λ line. string_bytes line ≡ heads_text replica heads.now) }
{
    with_versions(format!(in alloc; "heads {replica}:")?, heads)
}

/// `pushouts R:` and each version after a space.
pub fn push_outs_line(
    alloc: Global,
    replica: Author,
    push_outs: &[Revision],
) -> Result<String, AllocError>
    ensures { IfOk result (λ line. string_bytes line ≡ push_outs_text replica push_outs.now) }
{
    with_versions(format!(in alloc; "pushouts {replica}:")?, push_outs)
}

/// The line goes on with each version after a space, and ends.
fn with_versions(mut line: String, revisions: &[Revision]) -> Grown<String>
    ensures { IfOk result (λ whole. string_bytes whole ≡ string_bytes line ++ spaced_versions revisions.now ++ codes "\n") }
{
    for revision in revisions {
        let version = revision.version();
        write!(line, " {version}")?;
    }
    line.push('\n')?;
    Ok(line)
}

/// `conflicts R:` and each item after a space.
pub(crate) fn conflicts_line(alloc: Global, replica: Author, items: &[ItemId]) -> Grown<String>
    ensures { IfOk result (λ line. string_bytes line ≡ conflicts_text replica items.now) }
{
    let mut line = format!(in alloc; "conflicts {replica}:")?;
    for item in items {
        let version = item.creator();
        write!(line, " {version}")?;
    }
    line.push('\n')?;
    Ok(line)
}

/// `feed R:` and each entry after a space: `+V` for a version that entered, `-V` for one that left.
pub(crate) fn feed_line(alloc: Global, replica: Author, entries: &[Entry]) -> Grown<String>
    ensures { IfOk result (λ line. string_bytes line ≡ feed_text replica entries.now) }
{
    let mut line = format!(in alloc; "feed {replica}:")?;
    for entry in entries {
        line.push(' ')?;
        push_entry(&mut line, entry)?;
    }
    line.push('\n')?;
    Ok(line)
}

/// `log R: N`: how many events the replica has admitted.
pub(crate) fn log_line(alloc: Global, replica: Author, count: usize) -> Grown<String>
    ensures { IfOk result (λ line. string_bytes line ≡ log_text replica count) }
{
    format!(in alloc; "log {replica}: {count}\n")
}

/// `know R: ` and the text of the fragments.
pub(crate) fn know_line(
    alloc: Global,
    replica: Author,
    fragments: &[Fragment<ConciseVector>],
) -> Grown<String>
    ensures { IfOk result (λ line. string_bytes line ≡ know_text replica fragments.now) }
{
    let text = knowledge_text(alloc, fragments)?;
    let text = text.as_str();
    format!(in alloc; "know {replica}: {text}\n")
}
