//! What is done for each mail of a folder.
ghost use Rattle.std.specs.Prelude.{◌≡◌, ◌≢◌, ◌↔◌, ◌/◌, ◌++◌, ◌≤◌, All, false, None, map, IfOk, IfErr, OnOk, IsSome, IsTrue, max};
ghost use Rattle.mr_maildir.specs.Act.{standing};
ghost use Rattle.mr_maildir.specs.View.{ViewParts};
ghost use Rattle.std.specs.List.{list_all};
ghost use Rattle.std.specs.Option.{option_copied};
ghost use Rattle.mr_mail.specs.Label.{has_label};
ghost use Rattle.mr_compare.specs.declared.compare.CompareFault.TheVariants.{OutOfMemory};
ghost use Rattle.mr_compare.specs.Compare as specs;
ghost use Rattle.mr_compare.specs.Sides as specs_of;
ghost use Rattle.mr_compare.specs.Sides.{standings_by};
ghost use Rattle.mr_compare.specs.Tally.{count_of};
ghost use Rattle.mr_compare.specs.Tally as kinds;
ghost use Rattle.mr_compare.specs.Compare.{act_for, told_for, keeps_folders, due, due_acts, believed_acts, deletions, IsDeletion, IsCompareFault};

use crate::held::Digest;
use crate::sides::{HeldMail, Sides, standing_of_held, standing_of_unheld};
use crate::tally::deletes;
use mr_mail::Label;
use mr_maildir::{Act, View, next_act};
use mr_version::Version;
use std::alloc::{AllocError, AllocFailed, Global};
use thiserror::Error;

/// How one mail was left, is seen and is held.
#[derive(Debug, Drop)]
pub struct Standing {
    /// SHA-256 of its file's bytes.
    pub digest: Digest,
    /// The lowest of its versions that are held; none where it isn't held.
    pub first: Option<Version>,
    /// How the Maildir was left with it.
    pub left: Option<View>,
    /// How it stands in the Maildir now.
    pub seen: Option<View>,
    /// How the replica has it stand.
    pub held: Option<View>,
    /// Whether an edit is due that merges the heads of an item of the mail.
    pub is_merge_due: bool,
    /// Whether its file is here, in the store or in the Maildir.
    pub has_file: bool,
    /// Whether two listings in a row, during which no folder changed, say the same of it.
    pub is_certain: bool,
    /// Whether it came and went since the Maildir was left, so that its file may have been put there before the program was
    /// stopped.
    pub is_own: bool,
}

/// What is done for one mail.
#[derive(Debug, Drop)]
pub struct MailAct {
    pub digest: Digest,
    pub act: Act,
}

/// Why nothing is done.
#[derive(Clone, Copy, Debug, PartialEq, Eq, Drop, Error)]
pub enum CompareFault {
    #[error("out of memory")]
    OutOfMemory,
    /// So many mails are missing, and at most so many may be deleted in one go.
    #[error("{count} mails are missing, and at most {most} may be deleted in one go: nothing was done")]
    TooManyDeletions { count: usize, most: usize },
}

impl CompareFault {
    /// The fault's number: 0 where memory ran out, and 1 where there are too many deletions.
    pub fn number(self) -> u8
        ensures { result ≡ specs.fault_number self }
    {
        match self {
            CompareFault::OutOfMemory => 0,
            CompareFault::TooManyDeletions { .. } => 1,
        }
    }
}

impl From<AllocError> for CompareFault {
    ghost from_gives = { λ _ fault. fault ≡ OutOfMemory };

    fn from(_error: AllocError) -> CompareFault {
        CompareFault::OutOfMemory
    }
}

impl<T: Drop> From<AllocFailed<T>> for CompareFault {
    ghost from_gives = { λ _ fault. fault ≡ OutOfMemory };

    fn from(_error: AllocFailed<T>) -> CompareFault {
        CompareFault::OutOfMemory
    }
}

/// How many mails may be deleted in one go without a word of the user, of a folder of so many: 20, or a tenth where that is
/// more.
pub fn most_deletions(mails: usize) -> usize
    ensures { result ≡ max 20 (mails / 10) }
{
    (mails / 10).max(20)
}

/// What is done for a mail: what [`next_act`] says, but that nothing is told of a mail that may only have been out of sight,
/// and nothing is shown whose file isn't here.
pub fn believed_act(alloc: Global, mail: &Standing) -> Result<Act, AllocError>
    ensures value { IfOk result (λ act. act ≡ act_for mail.now) }

    // It is deleted exactly where its file is here, two quiet listings lack it, and it is held as it was left, which had a file.
    ensures deletes { IfOk result (λ act. (act ≡ Act.Delete) ↔ IsDeletion mail.now) }
    // It is new exactly where it is seen, and was neither left, nor is held, nor was put there by the program itself.
    ensures creates { IfOk result (λ act. (act ≡ Act.Create) ↔
        (IsSome (standing mail.now.seen) × (standing mail.now.left ≡ None) × (mail.now.held ≡ None) × (mail.now.is_own ≡ false))) }
    // Unless two quiet listings say so, no edit takes it out of a folder.
    ensures edits { IfOk result (λ act. (view : ViewParts) → act ≡ Act.Edit view → mail.now.is_certain ≡ false → IsTrue (keeps_folders mail.now.held view)) }
    // What left the filter is never deleted.
    ensures left_the_filter { IfOk result (λ act. mail.now.held ≡ None → act ≢ Act.Delete) }
    // What has no file here is neither deleted nor removed.
    ensures lacking { IfOk result (λ act. mail.now.has_file ≡ false → standing mail.now.seen ≡ None → act ≡ Act.Agree) }
{
    judged_act(alloc, mail)
}

/// What [`next_act`] says, as far as it is believed.
fn judged_act(alloc: Global, mail: &Standing) -> Result<Act, AllocError>
    ensures { IfOk result (λ act. act ≡ act_for mail.now) }
{
    let act = next_act(
        alloc,
        mail.left.as_ref(),
        mail.seen.as_ref(),
        mail.held.as_ref(),
    )?;
    Ok(believed(mail, act))
}

/// The act, as far as it is believed.
fn believed(mail: &Standing, act: Act) -> Act
    ensures { result ≡ specs.believed mail.now act }
{
    match act {
        Act::Delete if !(mail.has_file && mail.is_certain) => Act::Agree,
        Act::Edit(view) => believed_edit(mail, view),
        Act::Follow if !mail.has_file => Act::Agree,
        Act::Create if mail.is_own => Act::Remove,
        act => act,
    }
}

/// The edit, if it takes the mail out of no folder or that is certain.
fn believed_edit(mail: &Standing, view: View) -> Act
    ensures { result ≡ specs.believed_edit mail.now view }
{
    if mail.is_certain || keeps_folders(mail.held.as_ref(), &view) {
        Act::Edit(view)
    } else {
        Act::Agree
    }
}

/// Whether the view has each folder that is held.
pub(crate) fn keeps_folders(held: Option<&View>, view: &View) -> bool
    ensures { result ≡ specs.keeps_folders (option_copied held.entry) view.now }
{
    match held {
        Some(held) => has_all(view, held.labels()),
        None => true,
    }
}

/// Whether the view has each of these folders.
fn has_all(view: &View, labels: &[Label]) -> bool
    ensures { result ≡ list_all (λ label. has_label view.now.labels label) labels.now }
{
    labels.iter().all(|label| view.contains(label))
}

/// What is done for a mail: what is believed, but that an edit to the view that is held merges heads wherever that is due and
/// nothing else is told.
fn told_act(alloc: Global, mail: &Standing) -> Result<Act, AllocError>
    ensures { IfOk result (λ act. act ≡ told_for mail.now) }
{
    let act = believed_act(alloc, mail)?;
    merged_act(alloc, mail, act)
}

/// The act, or where it tells nothing and a merge is due the edit to the view that is held.
fn merged_act(alloc: Global, mail: &Standing, act: Act) -> Result<Act, AllocError>
    ensures { IfOk result (λ merged. merged ≡ specs.merged_act mail.now act) }
{
    match act {
        Act::Agree => merge_or(alloc, mail, Act::Agree),
        Act::Follow => merge_or(alloc, mail, Act::Follow),
        act => Ok(act),
    }
}

/// The edit to the view that is held where a merge is due, and else the act.
fn merge_or(alloc: Global, mail: &Standing, act: Act) -> Result<Act, AllocError>
    ensures { IfOk result (λ merged. merged ≡ specs.merge_or mail.now.is_merge_due mail.now.held act) }
{
    match &mail.held {
        Some(held) if mail.is_merge_due => Ok(Act::Edit(held.copy(alloc)?)),
        _ => Ok(act),
    }
}

/// What is done for the mails that are held and for these others, by the sides, in their order; for those that stand as they are held and want
/// no merge, nothing is.
///
/// Where nothing is told of a mail and a merge of its heads is due, it is edited to the view that is held: then files follow, too.
///
/// `TooManyDeletions` where more of them than `most` would be deleted, and else `OutOfMemory`. It costs some look-ups and copies of views for each mail,
/// and memory for one mail beside that of the acts.
pub fn acts_of(
    alloc: Global,
    mails: &[HeldMail],
    others: &[Digest],
    sides: &Sides,
    most: usize,
) -> Result<Vec<MailAct>, CompareFault>
    ensures value { IfOk result (λ acts. acts.items ≡ due_acts (standings_by sides.now mails.now others.now)) }
    // Where no merge is due nothing is merged: all that is done is what is believed.
    ensures unmerged { All (λ mail. mail.is_merge_due ≡ false) (standings_by sides.now mails.now others.now)
        → IfOk result (λ acts. acts.items ≡ believed_acts (standings_by sides.now mails.now others.now)) }
    ensures few { OnOk result (deletions (standings_by sides.now mails.now others.now) ≤ most) }
    ensures fault { IfErr result (IsCompareFault (standings_by sides.now mails.now others.now) most) }
{
    let acts = all_acts(alloc, mails, others, sides)?;
    let count = count_of_deletions(&acts);
    if count > most {
        return Err(CompareFault::TooManyDeletions { count, most });
    }
    Ok(acts)
}

/// What is done for the mails that are held and for these others, however many are deleted.
fn all_acts(
    alloc: Global,
    mails: &[HeldMail],
    others: &[Digest],
    sides: &Sides,
) -> Result<Vec<MailAct>, AllocError>
    ensures { IfOk result (λ acts. acts.items ≡ due_acts (standings_by sides.now mails.now others.now)) }
{
    let mut acts = Vec::new(alloc);
    push_held(alloc, &mut acts, mails, sides)?;
    push_unheld(alloc, &mut acts, others, sides)?;
    Ok(acts)
}

/// Puts what is done for mails that are held behind the others.
fn push_held(
    alloc: Global,
    acts: &mut Vec<MailAct>,
    mails: &[HeldMail],
    sides: &Sides,
) -> Result<(), AllocError>
    ensures { OnOk result (acts.new.items ≡ acts.old.items ++ due_acts (map (specs_of.standing_of_held sides.now) mails.now)) }
{
    for mail in mails {
        push_due(alloc, acts, &standing_of_held(alloc, mail, sides)?)?;
    }
    Ok(())
}

/// Puts what is done for mails that aren't held behind the others.
fn push_unheld(
    alloc: Global,
    acts: &mut Vec<MailAct>,
    digests: &[Digest],
    sides: &Sides,
) -> Result<(), AllocError>
    ensures { OnOk result (acts.new.items ≡ acts.old.items ++ due_acts (map (specs_of.standing_of_unheld sides.now) digests.now)) }
{
    for digest in digests {
        push_due(alloc, acts, &standing_of_unheld(alloc, digest, sides)?)?;
    }
    Ok(())
}

/// Puts what is done for the mail behind the others, if anything is.
fn push_due(alloc: Global, acts: &mut Vec<MailAct>, mail: &Standing) -> Result<(), AllocError>
    ensures { OnOk result (acts.new.items ≡ acts.old.items ++ due mail.now) }
{
    let act = told_act(alloc, mail)?;
    if let Act::Agree = act {
        return Ok(());
    }
    acts.push(MailAct {
        digest: mail.digest,
        act,
    })?;
    Ok(())
}

/// How many of the acts delete a mail.
fn count_of_deletions(acts: &[MailAct]) -> usize
    ensures { result ≡ count_of kinds.deletes acts.now }
{
    acts.iter().filter(|mail| deletes(&mail.act)).count()
}
