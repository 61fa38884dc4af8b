//! What is done for one mail.
ghost use Rattle.std.specs.Prelude.{◌≡◌, List, [], ◌∷◌, Some, None, false, IfOk, IfSome};
ghost use Rattle.std.specs.Option.{option_copied};
ghost use Rattle.mr_joins.specs.View.{ViewParts, is_nowhere};
ghost use Rattle.mr_joins.specs.Shown.{shown_view};
ghost use Rattle.mr_decide.specs.declared.held.HeldItem.{HeldItem};
ghost use Rattle.mr_decide.specs.Told.{IfJoin, IfChange, IfWait, IfCreate, IsHeeded, IsJoin, IsChange, WasChanged, WasRemoved, has_news};
ghost use Rattle.mr_decide.specs.inner.Deciding.{Shows, ShowsWanted};
ghost use Rattle.mr_decide.specs.Changing as specs_of;
ghost use Rattle.mr_decide.specs.Deciding as specs;

use crate::changing::{keeps_folders, wanted};
use crate::held::{HeldItem, is_one_due, together};
use crate::mail_act::{Files, MailAct, Seen, TooMuch};
use mr_joins::{Value, View};
use mr_mail::MAX_LABELS;
use mr_version::ItemId;
use std::alloc::{AllocError, Global};

/// What is done for a mail that was left so, is seen so, and of which these items are held, by rising item.
///
/// It costs a copy of each head's value, and a few views.
pub fn act_of(
    alloc: Global,
    held: &[HeldItem],
    left: Option<&View>,
    seen: &Seen,
) -> Result<MailAct, AllocError>
    ensures value { IfOk result (λ act. act ≡ specs.act_of held.now (option_copied left.entry) seen.now) }
    // Heads are joined only where an item is due and the mail's file is here, and to just what they say together.
    ensures joins { IfOk result (λ act. IfJoin act (IsJoin held.now seen.now)) }
    // What is told as a change of the user is a deletion that two listings tell, of a mail that is shown as it was left and whose file is here; or it shows what he changed, and
    // unless two listings say so it takes the mail out of no folder.
    ensures changes { IfOk result (λ act. IfChange act (IsChange held.now (option_copied left.entry) seen.now)) }
    // No change of a mail that is held is lost: it is told, waits, or is refused; and it waits only where the listings aren't certain.
    ensures heeded { IfOk result (λ act. (first : HeldItem) (more : List HeldItem) (view : ViewParts) → held.now ≡ first ∷ more
        → WasChanged held.now (option_copied left.entry) seen.now view → IsHeeded act) }
    ensures removal_heeded { IfOk result (λ act. (first : HeldItem) (more : List HeldItem) → held.now ≡ first ∷ more
        → WasRemoved held.now (option_copied left.entry) seen.now → IsHeeded act) }
    ensures waits { IfOk result (λ act. IfWait act (λ news. (seen.now.is_certain ≡ false) × (news ≡ has_news held.now (option_copied left.entry)))) }
    // What is new is seen and isn't held, was not left so, and isn't the program's own.
    ensures creates { IfOk result (λ act. IfCreate act (λ view. (held.now ≡ []) × (specs.standing seen.now.view ≡ Some view)
        × (specs.is_left (option_copied left.entry) view ≡ false) × (seen.now.is_own ≡ false))) }
{
    let act = decided(alloc, held, left, seen)?;
    Ok(act)
}

/// What is done for the mail.
fn decided(
    alloc: Global,
    held: &[HeldItem],
    left: Option<&View>,
    seen: &Seen,
) -> Result<MailAct, AllocError>
    ensures value { IfOk result (λ act. act ≡ specs.act_of held.now (option_copied left.entry) seen.now) }
    ensures shows { IfOk result (λ act. IfChange act (Shows held.now (option_copied left.entry) seen.now)) }
{
    match held.first() {
        None => act_on_unheld(alloc, left, seen),
        Some(first) => act_on_held(alloc, held, first.item, left, seen),
    }
}

/// What is done for a mail that isn't held: its files go only where it stands as it was left, or as the program itself put it there.
fn act_on_unheld(alloc: Global, left: Option<&View>, seen: &Seen) -> Result<MailAct, AllocError>
    ensures { IfOk result (λ act. act ≡ specs.act_on_unheld (option_copied left.entry) seen.now) }
{
    let Some(view) = standing(seen.view.as_ref()) else {
        return Ok(MailAct::Nothing);
    };
    if seen.is_own || is_left(left, view) {
        return Ok(MailAct::Files(Files::Remove));
    }
    Ok(MailAct::Create(view.copy(alloc)?))
}

/// The view, if it is of some folder.
fn standing(view: Option<&View>) -> Option<&View>
    ensures value { option_copied result ≡ specs.standing (option_copied view.entry) }
    ensures somewhere { IfSome (option_copied result) (λ v. is_nowhere v ≡ false) }
{
    match view {
        Some(view) if !view.is_nowhere() => Some(view),
        _ => None,
    }
}

/// What is held of a mail, taken together.
#[derive(Drop)]
struct Together {
    /// What its heads say together.
    value: Value,
    /// What that shows.
    shown: View,
    /// Whether one of its items is due.
    is_due: bool,
    /// Its first item, by which a change is raised.
    first: ItemId,
}

/// What is done for a mail that is held.
fn act_on_held(
    alloc: Global,
    held: &[HeldItem],
    first: ItemId,
    left: Option<&View>,
    seen: &Seen,
) -> Result<MailAct, AllocError>
    ensures value { IfOk result (λ act. act ≡ specs.act_on_held held.now first (option_copied left.entry) seen.now) }
    ensures shows { IfOk result (λ act. IfChange act (Shows held.now (option_copied left.entry) seen.now)) }
{
    let value = together(alloc, held)?;
    let shown = value.shown(alloc)?;
    let is_due = is_one_due(alloc, held, &shown)?;
    let mail = Together {
        value,
        shown,
        is_due,
        first,
    };
    let act = act_by(alloc, &mail, left, seen)?;
    Ok(act)
}

/// What is done for a mail of which this is held.
fn act_by(
    alloc: Global,
    mail: &Together,
    left: Option<&View>,
    seen: &Seen,
) -> Result<MailAct, AllocError>
    ensures value { IfOk result (λ act. act ≡ specs.act_by mail.now (option_copied left.entry) seen.now (specs.standing seen.now.view)) }
    ensures shows { IfOk result (λ act. IfChange act (ShowsWanted mail.now.shown (option_copied left.entry) seen.now)) }
{
    match standing(seen.view.as_ref()) {
        None => act_on_unseen(alloc, mail, left, seen),
        Some(view) => act_on_seen(alloc, mail, left, seen, view),
    }
}

/// What is done where no file is seen.
fn act_on_unseen(
    alloc: Global,
    mail: &Together,
    left: Option<&View>,
    seen: &Seen,
) -> Result<MailAct, AllocError>
    ensures { IfOk result (λ act. act ≡ specs.act_on_unseen mail.now (option_copied left.entry) seen.now) }
{
    if mail.shown.is_nowhere() || !is_left(left, &mail.shown) {
        return unchanged(alloc, mail, None, seen);
    }
    if !seen.has_file {
        return Ok(MailAct::Nothing);
    }
    if !seen.is_certain {
        return Ok(MailAct::Wait {
            has_news: mail.is_due,
        });
    }
    Ok(MailAct::Change {
        value: mail.value.deleted(alloc)?,
        files: Files::Stay,
    })
}

/// What is done where a file is seen.
fn act_on_seen(
    alloc: Global,
    mail: &Together,
    left: Option<&View>,
    seen: &Seen,
    view: &View,
) -> Result<MailAct, AllocError>
    requires { is_nowhere view.now ≡ false }
    ensures value { IfOk result (λ act. act ≡ specs.act_on_seen mail.now (option_copied left.entry) seen.now view.now) }
    ensures shows { IfOk result (λ act. IfChange act (λ value. shown_view value ≡ specs_of.wanted mail.now.shown (option_copied left.entry) view.now)) }
{
    if *view == mail.shown || is_left(left, view) {
        return unchanged(alloc, mail, Some(view), seen);
    }
    let wanted = wanted(alloc, &mail.shown, left, view)?;
    if wanted == mail.shown {
        return unchanged(alloc, mail, Some(view), seen);
    }
    if !seen.is_certain && !keeps_folders(&wanted, &mail.shown) {
        return Ok(MailAct::Wait {
            has_news: mail.is_due || !is_left(left, &mail.shown),
        });
    }
    changed(alloc, mail, view, wanted)
}

/// A change of the user that is told.
fn changed(alloc: Global, mail: &Together, view: &View, wanted: View) -> Result<MailAct, AllocError>
    requires { is_nowhere wanted ≡ false }
    ensures value { IfOk result (λ act. act ≡ specs.changed mail.now view.now wanted) }
    ensures shows { IfOk result (λ act. IfChange act (λ value. shown_view value ≡ wanted)) }
{
    if wanted.labels().len() > MAX_LABELS {
        return Ok(MailAct::Refuse(TooMuch::Folders));
    }
    if !mail.value.has_room() {
        return Ok(MailAct::Refuse(TooMuch::Toggles));
    }
    let value = mail
        .value
        .edited(alloc, mail.first, wanted.labels(), wanted.flags())?;
    let files = files_to(alloc, &wanted, Some(view), true)?;
    Ok(MailAct::Change { value, files })
}

/// What is done for a mail that no user changed, or only to what is shown.
fn unchanged(
    alloc: Global,
    mail: &Together,
    view: Option<&View>,
    seen: &Seen,
) -> Result<MailAct, AllocError>
    ensures { IfOk result (λ act. act ≡ specs.unchanged mail.now (option_copied view.entry) seen.now) }
{
    let files = files_to(alloc, &mail.shown, view, seen.has_file)?;
    if mail.is_due && seen.has_file {
        let value = mail.value.copy(alloc)?;
        return Ok(MailAct::Join { value, files });
    }
    match files {
        Files::Stay => Ok(MailAct::Nothing),
        files => Ok(MailAct::Files(files)),
    }
}

/// What becomes of the files of a mail that is shown so and of which files are seen so. What has no file here can't be shown.
fn files_to(
    alloc: Global,
    shown: &View,
    view: Option<&View>,
    has_file: bool,
) -> Result<Files, AllocError>
    ensures { IfOk result (λ files. files ≡ specs.files_to shown.now (option_copied view.entry) has_file) }
{
    match view {
        Some(view) if *view == *shown => Ok(Files::Stay),
        Some(_) if shown.is_nowhere() => Ok(Files::Remove),
        None if shown.is_nowhere() => Ok(Files::Stay),
        _ if has_file => Ok(Files::Follow(shown.copy(alloc)?)),
        _ => Ok(Files::Stay),
    }
}

/// Whether it was left so.
fn is_left(left: Option<&View>, view: &View) -> bool
    ensures { result ≡ specs.is_left (option_copied left.entry) view.now }
{
    match left {
        Some(left) => *left == *view,
        None => false,
    }
}
