//! What is done for one mail, of three views of it: as it was left, as it is seen, and as the replica has it.
ghost use Rattle.std.specs.Prelude.{◌≡◌, ◌≢◌, ◌↔◌, [], ◌∷◌, IfOk, IsSome};
ghost use Rattle.std.specs.Option.{option_copied};
ghost use Rattle.mr_maildir.specs.Act.{act_of, standing};
ghost use Rattle.mr_maildir.specs.Act as specs;
ghost use Rattle.mr_maildir.specs.Merging.{merged_view, over};

use crate::heads::shown;
use crate::view::View;
use std::alloc::{AllocError, Global};

/// What is done for a mail.
#[derive(Debug, Drop)]
pub enum Act {
    /// It stands as the replica has it.
    Agree,
    /// A file that nobody knows becomes a new item.
    Create,
    /// An edit of all that is held, to this view: what the user changed here, and what was changed elsewhere. The files
    /// follow where they differ from it.
    Edit(View),
    /// The user removed it: an edit of all that is held, to a view that is gone.
    Delete,
    /// Its files are made, moved or renamed as the replica has it.
    Follow,
    /// Its files go: it left the filter, or was deleted elsewhere.
    Remove,
}

/// What is done for a mail that was left so, is seen so, and is held so. A view of no folder counts as no file.
///
/// `left` is how this program left it or last saw it, `seen` how it stands in the Maildir, and `held` what the replica
/// shows of it; none where there is none. Only where both sides changed it, memory is asked for.
pub fn next_act(
    alloc: Global,
    left: Option<&View>,
    seen: Option<&View>,
    held: Option<&View>,
) -> Result<Act, AllocError>
    ensures value { IfOk result (λ act. act ≡ act_of (option_copied left.entry) (option_copied seen.entry) (option_copied held.entry)) }

    // It is deleted exactly where no file is seen and what is held is what was left, which had one.
    ensures deletes { IfOk result (λ act. (act ≡ Act.Delete) ↔
        ((standing (option_copied seen.entry) ≡ None) × (option_copied held.entry ≡ option_copied left.entry)
        × IsSome (standing (option_copied held.entry)))) }
    // It is new exactly where a file is seen, none was left, and the replica doesn't have the mail.
    ensures creates { IfOk result (λ act. (act ≡ Act.Create) ↔
        (IsSome (standing (option_copied seen.entry)) × (standing (option_copied left.entry) ≡ None)
        × (option_copied held.entry ≡ None))) }
    // What left the filter is never deleted.
    ensures left_the_filter { IfOk result (λ act. option_copied held.entry ≡ None → act ≢ Act.Delete) }
{
    act_where(alloc, left, standing(seen), held)
}

/// What is done for a mail, of which a file is seen or none.
fn act_where(
    alloc: Global,
    left: Option<&View>,
    seen: Option<&View>,
    held: Option<&View>,
) -> Result<Act, AllocError>
    ensures { IfOk result (λ act. act ≡ specs.act_of_standing (option_copied left.entry) (option_copied seen.entry) (option_copied held.entry)) }
{
    match seen {
        None => Ok(act_on_unseen(left, standing(held))),
        Some(seen) => act_on_seen(alloc, left, seen, held),
    }
}

/// The view, if it is of some folder.
fn standing(view: Option<&View>) -> Option<&View>
    ensures { option_copied result ≡ specs.standing (option_copied view.entry) }
{
    match view {
        Some(view) if !view.is_nowhere() => Some(view),
        _ => None,
    }
}

/// Whether it was left, and so.
fn is_left(left: Option<&View>, view: &View) -> bool
    ensures { result ≡ specs.is_left (option_copied left.entry) view.now }
{
    match left {
        Some(left) => *left == *view,
        None => false,
    }
}

/// What is done where no file is seen.
fn act_on_unseen(left: Option<&View>, held: Option<&View>) -> Act
    ensures { result ≡ specs.act_on_unseen (option_copied left.entry) (option_copied held.entry) }
{
    match held {
        None => Act::Agree,
        Some(held) if is_left(left, held) => Act::Delete,
        Some(_) => Act::Follow,
    }
}

/// What is done where a file is seen.
fn act_on_seen(
    alloc: Global,
    left: Option<&View>,
    seen: &View,
    held: Option<&View>,
) -> Result<Act, AllocError>
    ensures { IfOk result (λ act. act ≡ specs.act_on_seen (option_copied left.entry) seen.now (option_copied held.entry)) }
{
    match held {
        Some(held) => act_on_both(alloc, left, seen, held),
        None => Ok(act_on_unheld(left)),
    }
}

/// What is done where a file is seen, and the replica doesn't have the mail.
fn act_on_unheld(left: Option<&View>) -> Act
    ensures { result ≡ specs.act_on_unheld (option_copied left.entry) }
{
    match standing(left) {
        Some(_) => Act::Remove,
        None => Act::Create,
    }
}

/// What is done where a file is seen, and the replica has the mail.
fn act_on_both(
    alloc: Global,
    left: Option<&View>,
    seen: &View,
    held: &View,
) -> Result<Act, AllocError>
    ensures { IfOk result (λ act. act ≡ specs.act_on_both (option_copied left.entry) seen.now held.now) }
{
    if *seen == *held {
        return Ok(Act::Agree);
    }
    if is_left(left, seen) {
        return Ok(following(held));
    }
    if is_left(left, held) {
        return Ok(Act::Edit(seen.copy(alloc)?));
    }
    let merged = both_merged(alloc, left, seen, held)?;
    Ok(settled(merged, held))
}

/// What is done where the replica's view is to be followed.
fn following(held: &View) -> Act
    ensures { result ≡ specs.following held.now }
{
    if held.is_nowhere() {
        Act::Remove
    } else {
        Act::Follow
    }
}

/// What is seen and what is held together.
fn both_merged(
    alloc: Global,
    left: Option<&View>,
    seen: &View,
    held: &View,
) -> Result<View, AllocError>
    ensures { IfOk result (λ view. view ≡ merged_view (over (option_copied left.entry)) (seen.now ∷ held.now ∷ [])) }
{
    let mut heads = Vec::with_capacity(alloc, 2)?;
    heads.push(seen.copy(alloc)?)?;
    heads.push(held.copy(alloc)?)?;
    shown(alloc, left, heads.as_slice())
}

/// An edit to what both sides say together, unless that is what is held.
fn settled(merged: View, held: &View) -> Act
    ensures { result ≡ specs.settled merged held.now }
{
    if merged == *held {
        following(held)
    } else {
        Act::Edit(merged)
    }
}
