//! What listings say of the mails, beside what is held of them.
ghost use Rattle.std.specs.Prelude.{◌≡◌, All, false, IfOk, option_map};
ghost use Rattle.std.specs.BTreeMap.{IsFromIterResult, values};
ghost use Rattle.std.specs.List.{list_all};
ghost use Rattle.std.specs.Option.{option_copied};
ghost use Rattle.mr_mail.specs.Label.{has_label, text_cmp};
ghost use Rattle.mr_scan.specs.Seen.{seen_view};
ghost use Rattle.mr_compare.specs.Sides.{at_digest};
ghost use Rattle.mr_compare.specs.Tally.{deletes};
ghost use Rattle.mr_fold.specs.inner.Seeing.{AreSeen, Says, held_view, left_view};
ghost use Rattle.mr_fold.specs.inner.Taking.{leaves_a_folder, takes_away};

use crate::lacking::missing_mails;
use crate::targets::held_mail;
use mr_compare::{Digest, HeldMail, LeftMail, MailAct, Sides};
use mr_mail::Label;
use mr_maildir::{Act, MailFile, View};
use mr_scan::{Index, Scan, seen_view};
use std::alloc::{AllocError, Global};
use std::collections::BTreeMap;

/// What a scan says, behind one by which the mails were seen so, if there was one.
pub(crate) fn sides_of(
    alloc: Global,
    left: BTreeMap<Digest, LeftMail>,
    seen_before: Option<BTreeMap<Digest, View>>,
    are_quiet: bool,
    mails: &[HeldMail],
    scan: &Scan,
    index: &Index,
) -> Result<Sides, AllocError>
    ensures says { IfOk result (Says (values index.now) mails.now left scan.now) }
    ensures before { IfOk result (λ sides. sides.seen_before ≡ seen_before) }
    ensures quiet { IfOk result (λ sides. sides.are_quiet ≡ are_quiet) }
{
    let lacking = missing_mails(alloc, mails, index)?;
    let seen = seen_views(alloc, scan, &left, mails)?;
    Ok(Sides {
        left,
        seen,
        seen_before,
        are_quiet,
        lacking,
    })
}

/// How each mail is seen that has files. The mails that are held stand in rising order of their digests, as the scan's do, so that both are walked
/// at once.
fn seen_views(
    alloc: Global,
    scan: &Scan,
    left: &BTreeMap<Digest, LeftMail>,
    mails: &[HeldMail],
) -> Result<BTreeMap<Digest, View>, AllocError>
    ensures { IfOk result (λ views. AreSeen scan.now.mails.entries views.entries) }
{
    let mut views = Vec::with_capacity(alloc, scan.mails.len())?;
    let mut rest = mails;
    for (digest, files) in scan.mails.iter() {
        rest = from_digest(rest, digest);
        let view = seen_view(alloc, left_view(digest, left, rest.first()), files)?;
        views.push((*digest, view))?;
    }
    by_digest(alloc, views)
}

/// The views by the digests of their mails.
fn by_digest(
    alloc: Global,
    views: Vec<(Digest, View)>,
) -> Result<BTreeMap<Digest, View>, AllocError>
    ensures { IfOk result (IsFromIterResult text_cmp views.items) }
{
    views.into_iter().collect(alloc)
}

/// How a mail is seen that was left so, if it has files.
pub(crate) fn view_seen(
    alloc: Global,
    scan: &Scan,
    digest: &Digest,
    left: Option<&View>,
) -> Result<Option<View>, AllocError>
    ensures { IfOk result (λ view. view ≡ option_map (λ files. seen_view (option_copied left.entry) files.items) (at_digest scan.now.mails.entries digest.now)) }
{
    match scan.mails.get(digest) {
        Some(files) => Ok(Some(seen_view(alloc, left, files)?)),
        None => Ok(None),
    }
}

/// How the mail was left: as it is held, unless it changed since. The first mail that isn't before it is told, if there is one.
pub(crate) fn left_view<'a>(
    digest: &Digest,
    left: &'a BTreeMap<Digest, LeftMail>,
    first: Option<&'a HeldMail>,
) -> Option<&'a View>
    ensures { option_copied result ≡ left_view (at_digest left.entry.now.entries digest.entry.now) digest.entry.now (option_copied first.entry) }
{
    match left.get(digest) {
        Some(mail) => mail.view.as_ref(),
        None => match first {
            Some(held) => view_of(digest, held),
            None => None,
        },
    }
}

/// How the mail is held, if it is this one.
fn view_of<'a>(digest: &Digest, held: &'a HeldMail) -> Option<&'a View>
    ensures { option_copied result ≡ held_view digest.now (Some held.entry.now) }
{
    if held.digest == *digest {
        Some(&held.view)
    } else {
        None
    }
}

/// The mails from this digest on, of mails in rising order of their digests.
fn from_digest<'a>(mails: &'a [HeldMail], digest: &Digest) -> &'a [HeldMail] {
    let before = mails
        .iter()
        .take_while(|mail| mail.digest < *digest)
        .count();
    let (_, rest) = mails.split_at(before.min(mails.len()));
    rest
}

/// Whether some act takes a mail away, or out of a folder. It costs a binary search for each act.
pub(crate) fn take_away(acts: &[MailAct], mails: &[HeldMail]) -> bool
    ensures { result ≡ false → All (λ mail. deletes mail.act ≡ false) acts.now }
{
    for mail in acts {
        if takes_away(&mail.act, held_view(mails, &mail.digest)) {
            return true;
        }
    }
    false
}

/// Whether the act takes the mail away, or out of a folder that it is held in.
fn takes_away(act: &Act, held: Option<&View>) -> bool
    ensures { result ≡ takes_away act.now (option_copied held.entry) }
{
    match act {
        Act::Edit(view) => leaves_a_folder(view, held),
        Act::Delete => true,
        Act::Agree | Act::Create | Act::Follow | Act::Remove => false,
    }
}

/// Whether the view lacks a folder of what is held, or that isn't known.
fn leaves_a_folder(view: &View, held: Option<&View>) -> bool
    ensures { result ≡ leaves_a_folder view.now (option_copied held.entry) }
{
    match held {
        Some(held) => !has_all(view, held.labels()),
        None => true,
    }
}

/// Whether the view has each of these folders.
pub(crate) fn has_all(view: &View, labels: &[Label]) -> bool
    ensures { result ≡ list_all (λ label. has_label view.now.labels label) labels.now }
{
    labels.iter().all(|label| view.contains(label))
}

/// How the mail is held.
fn held_view<'a>(mails: &'a [HeldMail], digest: &Digest) -> Option<&'a View> {
    match held_mail(mails, digest) {
        Some(mail) => Some(&mail.view),
        None => None,
    }
}
