//! Labels in order.
ghost use Rattle.std.specs.Prelude.{◌≡◌};
ghost use Rattle.mr_joins.specs.Labels.{in_order};
ghost use Rattle.mr_joins.specs.Labels as specs;

use mr_mail::Label;

/// The text of the label of the inbox, where a mail stands that has no other folder.
pub const INBOX: &str = "inbox";

/// The label of the inbox.
pub fn inbox() -> Label
    ensures { result ≡ specs.inbox }
{
    match Label::read(INBOX) {
        Ok(label) => label,
        Err(_) => unreachable!(),
    }
}

/// Sorts labels by their bytes, and drops repeats.
pub(crate) fn sorted_once(mut labels: Vec<Label>) -> Vec<Label>
    ensures { result.items ≡ in_order labels.items }
{
    labels.sort_unstable();
    labels.dedup();
    labels
}
