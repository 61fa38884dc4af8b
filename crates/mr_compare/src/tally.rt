//! For how many mails what is done.
ghost use Rattle.std.specs.Prelude.{◌≡◌};
ghost use Rattle.mr_compare.specs.Tally as specs;
ghost use Rattle.mr_compare.specs.Tally.{count_of};

use crate::compare::MailAct;
use mr_maildir::Act;
use std::fmt::{self, Display, Formatter, Write};

/// For how many mails what is done.
#[derive(Clone, Copy, Debug, PartialEq, Eq)]
pub struct Tally {
    /// New items that are told.
    pub new: usize,
    /// Changes that are told.
    pub changed: usize,
    /// Deletions that are told.
    pub deleted: usize,
    /// Mails whose files are made, moved or renamed as the replica has them.
    pub shown: usize,
    /// Mails whose files go, since they left the filter or were deleted elsewhere.
    pub removed: usize,
}

/// It prints as `1 new, 2 changed, 0 deleted here; 3 shown, 4 removed`.
impl Display for Tally {
    fn fmt<W: Write>(&self, f: &mut Formatter<W>) -> fmt::Result {
        let Tally {
            new,
            changed,
            deleted,
            shown,
            removed,
        } = *self;
        write!(
            f,
            "{new} new, {changed} changed, {deleted} deleted here; {shown} shown, {removed} removed"
        )
    }
}

/// For how many mails these acts do what. It costs five walks over them.
pub fn tally_of(acts: &[MailAct]) -> Tally
    ensures new { result.new ≡ count_of specs.creates acts.now }
    ensures changed { result.changed ≡ count_of specs.edits acts.now }
    ensures deleted { result.deleted ≡ count_of specs.deletes acts.now }
    ensures shown { result.shown ≡ count_of specs.follows acts.now }
    ensures removed { result.removed ≡ count_of specs.removes acts.now }
{
    Tally {
        new: acts.iter().filter(|mail| creates(&mail.act)).count(),
        changed: acts.iter().filter(|mail| edits(&mail.act)).count(),
        deleted: acts.iter().filter(|mail| deletes(&mail.act)).count(),
        shown: acts.iter().filter(|mail| follows(&mail.act)).count(),
        removed: acts.iter().filter(|mail| removes(&mail.act)).count(),
    }
}

fn creates(act: &Act) -> bool
    ensures { result ≡ specs.creates act.now }
{
    matches!(act, Act::Create)
}

fn edits(act: &Act) -> bool
    ensures { result ≡ specs.edits act.now }
{
    matches!(act, Act::Edit(_))
}

pub(crate) fn deletes(act: &Act) -> bool
    ensures { result ≡ specs.deletes act.now }
{
    matches!(act, Act::Delete)
}

fn follows(act: &Act) -> bool
    ensures { result ≡ specs.follows act.now }
{
    matches!(act, Act::Follow)
}

fn removes(act: &Act) -> bool
    ensures { result ≡ specs.removes act.now }
{
    matches!(act, Act::Remove)
}
