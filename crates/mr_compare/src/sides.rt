//! The three sides of each mail, brought together.
ghost use Rattle.std.specs.Prelude.{◌≡◌, IfOk};
ghost use Rattle.std.specs.Option.{option_copied};
ghost use Rattle.mr_compare.specs.Sides.{at_digest, left_of_held, left_of_unheld};
ghost use Rattle.mr_compare.specs.Sides as specs;

use crate::compare::Standing;
use crate::held::Digest;
use mr_maildir::View;
use mr_version::Version;
use std::alloc::{AllocError, Global};
use std::collections::{BTreeMap, BTreeSet};

/// A mail that is held.
#[derive(Debug, Drop)]
pub struct HeldMail {
    pub digest: Digest,
    /// The lowest of its versions.
    pub first: Version,
    /// How they have it stand together.
    pub view: View,
    /// Whether an edit is due that merges the heads of an item of the mail.
    pub is_merge_due: bool,
}

/// What was left of a mail, some item of which the feed changed since.
#[derive(Debug, Drop)]
pub struct LeftMail {
    /// How the feed's beginning has it stand, if it has it.
    pub view: Option<View>,
    /// Whether the rest of the feed brought it.
    pub came: bool,
}

/// What is known of the mails beside what is held of them, by the digests of their files.
#[derive(Debug, Drop)]
pub struct Sides {
    /// What was left of the mails that changed since. Each other mail is held as it was left.
    pub left: BTreeMap<Digest, LeftMail>,
    /// Where mails are seen.
    pub seen: BTreeMap<Digest, View>,
    /// Where they were seen at the listing before, if there was one.
    pub seen_before: Option<BTreeMap<Digest, View>>,
    /// Whether no folder changed during either of the two listings.
    pub are_quiet: bool,
    /// The mails whose files aren't here.
    pub lacking: BTreeSet<Digest>,
}

/// How a mail stands that is held.
pub fn standing_of_held(
    alloc: Global,
    mail: &HeldMail,
    sides: &Sides,
) -> Result<Standing, AllocError>
    ensures { IfOk result (λ standing. standing ≡ specs.standing_of_held sides.now mail.now) }
{
    let digest = mail.digest;
    let seen = sides.seen.get(&digest);
    Ok(Standing {
        digest,
        first: Some(mail.first),
        left: held_left(alloc, sides.left.get(&digest), &mail.view)?,
        seen: copied(alloc, seen)?,
        held: Some(mail.view.copy(alloc)?),
        is_merge_due: mail.is_merge_due,
        has_file: !sides.lacking.contains(&digest),
        is_certain: is_certain(sides, &digest, seen),
        is_own: false,
    })
}

/// How a mail stands that isn't held.
pub fn standing_of_unheld(
    alloc: Global,
    digest: &Digest,
    sides: &Sides,
) -> Result<Standing, AllocError>
    ensures { IfOk result (λ standing. standing ≡ specs.standing_of_unheld sides.now digest.now) }
{
    let digest = *digest;
    let seen = sides.seen.get(&digest);
    let left = sides.left.get(&digest);
    Ok(Standing {
        digest,
        first: None,
        left: unheld_left(alloc, left)?,
        seen: copied(alloc, seen)?,
        held: None,
        is_merge_due: false,
        has_file: !sides.lacking.contains(&digest),
        is_certain: is_certain(sides, &digest, seen),
        is_own: has_come(left),
    })
}

/// Whether all listings, during which no folder changed, say the same of a mail that is seen so.
fn is_certain(sides: &Sides, digest: &Digest, seen: Option<&View>) -> bool
    requires { option_copied seen ≡ at_digest sides.now.seen.entries digest.now }
    ensures { result ≡ specs.is_certain sides.now digest.now }
{
    sides.are_quiet && was_same(sides.seen_before.as_ref(), digest, seen)
}

/// Whether the listing before, if there was one, says the same of a mail that is seen so.
fn was_same(before: Option<&BTreeMap<Digest, View>>, digest: &Digest, seen: Option<&View>) -> bool
    ensures { result ≡ specs.was_same (option_copied before.entry) digest.now (option_copied seen.entry) }
{
    match before {
        Some(before) => are_same(seen, before.get(digest)),
        None => true,
    }
}

/// How a mail was left that is held so: so, unless it changed since.
fn held_left(
    alloc: Global,
    left: Option<&LeftMail>,
    held: &View,
) -> Result<Option<View>, AllocError>
    ensures { IfOk result (λ view. view ≡ left_of_held (option_copied left.entry) held.now) }
{
    match left {
        Some(left) => copied(alloc, left.view.as_ref()),
        None => Ok(Some(held.copy(alloc)?)),
    }
}

/// How a mail was left that isn't held: if it was, it changed since.
fn unheld_left(alloc: Global, left: Option<&LeftMail>) -> Result<Option<View>, AllocError>
    ensures { IfOk result (λ view. view ≡ left_of_unheld (option_copied left.entry)) }
{
    match left {
        Some(left) => copied(alloc, left.view.as_ref()),
        None => Ok(None),
    }
}

/// Whether the mail came since it was left.
fn has_come(left: Option<&LeftMail>) -> bool
    ensures { result ≡ specs.has_come (option_copied left.entry) }
{
    match left {
        Some(left) => left.came,
        None => false,
    }
}

/// An equal view, if there is one.
fn copied(alloc: Global, view: Option<&View>) -> Result<Option<View>, AllocError>
    ensures { IfOk result (λ copy. copy ≡ option_copied view.entry) }
{
    match view {
        Some(view) => Ok(Some(view.copy(alloc)?)),
        None => Ok(None),
    }
}

/// Whether two listings say the same of a mail.
pub(crate) fn are_same(view: Option<&View>, before: Option<&View>) -> bool
    ensures { result ≡ specs.are_same (option_copied view.entry) (option_copied before.entry) }
{
    match (view, before) {
        (Some(view), Some(before)) => *view == *before,
        (None, None) => true,
        _ => false,
    }
}
