//! Changes of the Maildir that aren't told yet, and that a note of what is shown would take back.
ghost use Rattle.std.specs.Prelude.{◌≡◌, All, IfOk, None, map};
ghost use Rattle.mr_compare.specs.Sides as specs_of;
ghost use Rattle.mr_compare.specs.Sides.{standings_by};
ghost use Rattle.mr_compare.specs.Undecided as specs;
ghost use Rattle.mr_compare.specs.Undecided.{IsHeeded};

use crate::compare::{Standing, keeps_folders};
use crate::held::Digest;
use crate::sides::{HeldMail, Sides, are_same, standing_of_held, standing_of_unheld};
use mr_maildir::{Act, next_act};
use std::alloc::{AllocError, Global};

/// The first mail, by its digest, that was changed in the Maildir as far as was seen, and whose change isn't told since two quiet listings
/// don't say so, while there is news of it: it isn't held as it was left, or its heads are to be merged.
///
/// What [`acts_of`](crate::acts_of) gives for such a mail takes the change back, or has the next listing take back what was changed elsewhere:
/// once what is held counts as shown, what stands in the Maildir counts as changed from that. So nothing is done then, and the
/// folders are listed anew. Where there is none such, each change that was seen is told, or its mail stays as it was left, and the next
/// listing finds it. A mail that is seen no more and was changed elsewhere follows that; it is such a one only where it is held as it was left
/// and its heads are to be merged.
///
/// It costs some look-ups, copies and comparisons of views for each mail, and memory for one mail.
pub fn first_undecided(
    alloc: Global,
    mails: &[HeldMail],
    others: &[Digest],
    sides: &Sides,
) -> Result<Option<Digest>, AllocError>
    ensures value { IfOk result (λ first. first ≡ specs.first_undecided (standings_by sides.now mails.now others.now)) }
    // Where there is none, nothing that was changed in the Maildir is lost.
    ensures heeded { IfOk result (λ first. first ≡ None → All IsHeeded (standings_by sides.now mails.now others.now)) }
{
    first_of(alloc, mails, others, sides)
}

/// The first mail whose change isn't told though there is news of it.
fn first_of(
    alloc: Global,
    mails: &[HeldMail],
    others: &[Digest],
    sides: &Sides,
) -> Result<Option<Digest>, AllocError>
    ensures { IfOk result (λ first. first ≡ specs.first_undecided (standings_by sides.now mails.now others.now)) }
{
    match first_of_held(alloc, mails, sides)? {
        Some(digest) => Ok(Some(digest)),
        None => first_of_unheld(alloc, others, sides),
    }
}

/// The first one of mails that are held.
fn first_of_held(
    alloc: Global,
    mails: &[HeldMail],
    sides: &Sides,
) -> Result<Option<Digest>, AllocError>
    ensures { IfOk result (λ first. first ≡ specs.first_undecided (map (specs_of.standing_of_held sides.now) mails.now)) }
{
    for mail in mails {
        if is_undecided(alloc, &standing_of_held(alloc, mail, sides)?)? {
            return Ok(Some(mail.digest));
        }
    }
    Ok(None)
}

/// The first one of mails that aren't held.
fn first_of_unheld(
    alloc: Global,
    digests: &[Digest],
    sides: &Sides,
) -> Result<Option<Digest>, AllocError>
    ensures { IfOk result (λ first. first ≡ specs.first_undecided (map (specs_of.standing_of_unheld sides.now) digests.now)) }
{
    for digest in digests {
        if is_undecided(alloc, &standing_of_unheld(alloc, digest, sides)?)? {
            return Ok(Some(*digest));
        }
    }
    Ok(None)
}

/// Whether a change is seen that isn't told, though there is news of the mail.
fn is_undecided(alloc: Global, mail: &Standing) -> Result<bool, AllocError>
    ensures { IfOk result (λ is. is ≡ specs.is_undecided mail.now) }
{
    let act = next_act(
        alloc,
        mail.left.as_ref(),
        mail.seen.as_ref(),
        mail.held.as_ref(),
    )?;
    Ok(is_doubted(mail, &act) && has_news(mail))
}

/// Whether only two quiet listings tell the act, and they don't.
fn is_doubted(mail: &Standing, act: &Act) -> bool
    ensures { result ≡ specs.is_doubted mail.now act.now }
{
    match act {
        Act::Edit(view) => !(mail.is_certain || keeps_folders(mail.held.as_ref(), view)),
        Act::Delete => mail.has_file && !mail.is_certain,
        _ => false,
    }
}

/// Whether it isn't held as it was left, or a merge of its heads will be told.
fn has_news(mail: &Standing) -> bool
    ensures { result ≡ specs.has_news mail.now }
{
    mail.is_merge_due || !are_same(mail.left.as_ref(), mail.held.as_ref())
}
