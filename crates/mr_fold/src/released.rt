//! Mail that left the folder's filter by a change that was made here. While it waits for a receipt it is held, and once that came it is held
//! no more, of which the feed tells nothing. Its files are the program's own then, and no new mail.
ghost use Rattle.std.specs.Prelude.{◌≡◌};
ghost use Rattle.std.specs.Option.{option_copied};
ghost use Rattle.mr_fold.specs.inner.Released.{is_as_told};

use crate::ancestors::message_told;
use crate::sides::{has_all, view_seen};
use mr_compare::{Digest, LeftMail};
use mr_itemset::SparingKnowledge;
use mr_mail::Message;
use mr_maildir::{View, read_reference};
use mr_replica::{Event, Replica};
use mr_scan::Scan;
use std::alloc::{AllocError, Global};
use std::collections::{BTreeMap, BTreeSet};

/// How mails were left, with those of the others that are seen in just the folders of the last message that the log tells of them: as
/// that message has them. The others aren't held, and are seen or were left. A mail of which it is known otherwise how it was left stays as it is.
///
/// It costs a walk over the others, and one over the log where there is such a mail.
pub(crate) fn with_released(
    alloc: Global,
    replica: &Replica<SparingKnowledge>,
    others: &[Digest],
    left: BTreeMap<Digest, LeftMail>,
    scan: &Scan,
) -> Result<BTreeMap<Digest, LeftMail>, AllocError> {
    let asked = unexplained(alloc, others, &left)?;
    if asked.is_empty() {
        return Ok(left);
    }
    let told = last_told(alloc, replica.log(), &asked)?;
    with_told(alloc, left, scan, told)
}

/// The mails that are seen and not held, of which nothing tells how they were left.
fn unexplained(
    alloc: Global,
    others: &[Digest],
    left: &BTreeMap<Digest, LeftMail>,
) -> Result<BTreeSet<Digest>, AllocError> {
    let mut asked = BTreeSet::new(alloc);
    for digest in others {
        if !left.contains_key(digest) {
            asked.insert(*digest)?;
        }
    }
    Ok(asked)
}

/// How the last message that the log tells of each of these mails has it stand.
fn last_told(
    alloc: Global,
    log: &[Event],
    asked: &BTreeSet<Digest>,
) -> Result<BTreeMap<Digest, View>, AllocError> {
    let mut told = BTreeMap::new(alloc);
    for event in log {
        if let Some(message) = message_told(event) {
            note(alloc, &mut told, asked, message)?;
        }
    }
    Ok(told)
}

/// Notes how the message has its mail stand, if that is one of these.
fn note(
    alloc: Global,
    told: &mut BTreeMap<Digest, View>,
    asked: &BTreeSet<Digest>,
    message: &Message,
) -> Result<(), AllocError> {
    if let Some(reference) = read_reference(message.body()) {
        let digest = reference.digest;
        if asked.contains(&digest) {
            let view = View::of_place(alloc, message.place())?;
            told.insert(digest, view)?;
        }
    }
    Ok(())
}

/// What was left, with the mails that are seen in just the folders that were told of them.
fn with_told(
    alloc: Global,
    left: BTreeMap<Digest, LeftMail>,
    scan: &Scan,
    told: BTreeMap<Digest, View>,
) -> Result<BTreeMap<Digest, LeftMail>, AllocError> {
    let mut left = left;
    for (digest, view) in told {
        let seen = view_seen(alloc, scan, &digest, None)?;
        if is_as_told(seen.as_ref(), &view) {
            let mail = LeftMail {
                view: Some(view),
                came: false,
            };
            left.insert(digest, mail)?;
        }
    }
    Ok(left)
}

/// Whether a mail is seen in just the folders that were told of it.
fn is_as_told(seen: Option<&View>, told: &View) -> bool
    ensures { result ≡ is_as_told (option_copied seen.entry) told.now }
{
    match seen {
        Some(seen) => has_all(seen, told.labels()) && has_all(told, seen.labels()),
        None => false,
    }
}
