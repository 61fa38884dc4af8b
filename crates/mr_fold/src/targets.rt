//! How mails are to stand, whose files follow.
use mr_compare::{Digest, HeldMail, MailAct};
use mr_itemset::SparingKnowledge;
use mr_maildir::{Act, View, read_reference};
use mr_replica::Replica;
use mr_version::Version;
use std::alloc::{AllocError, Global};
use std::collections::BTreeMap;

/// How a mail is to stand in the Maildir.
#[derive(Drop)]
pub(crate) struct Target {
    pub(crate) view: View,
    /// The lines that tell the names of its file and of folders.
    pub(crate) lines: String,
}

/// How the mails are to stand whose files are made, moved or renamed by these acts, by their digests.
pub(crate) fn targets_of(
    alloc: Global,
    replica: &Replica<SparingKnowledge>,
    acts: &[MailAct],
    mails: &[HeldMail],
) -> Result<BTreeMap<Digest, Target>, AllocError> {
    let mut targets = Vec::new(alloc);
    for mail in acts {
        if let Some(held) = held_mail(mails, &mail.digest) {
            if let Some(view) = view_after(alloc, &mail.act, held)? {
                let lines = lines_of(alloc, replica, held.first)?;
                targets.push((mail.digest, Target { view, lines }))?;
            }
        }
    }
    targets.into_iter().collect(alloc)
}

/// How the mail stands after the act, if its files follow.
fn view_after(alloc: Global, act: &Act, held: &HeldMail) -> Result<Option<View>, AllocError> {
    match act {
        Act::Edit(view) => Ok(Some(view.copy(alloc)?)),
        Act::Follow => Ok(Some(held.view.copy(alloc)?)),
        Act::Agree | Act::Create | Act::Delete | Act::Remove => Ok(None),
    }
}

/// The lines of the body of a version that is held.
fn lines_of(
    alloc: Global,
    replica: &Replica<SparingKnowledge>,
    version: Version,
) -> Result<String, AllocError> {
    let Some(revision) = replica.held(version) else {
        return Ok(String::new(alloc));
    };
    match read_reference(revision.message().body()) {
        Some(reference) => String::from_str(alloc, reference.lines),
        None => Ok(String::new(alloc)),
    }
}

/// The mail of this digest, of mails in rising order of their digests.
pub(crate) fn held_mail<'a>(mails: &'a [HeldMail], digest: &Digest) -> Option<&'a HeldMail> {
    match mails.binary_search_by(|mail| mail.digest.cmp(digest)) {
        Ok(place) => mails.get(place),
        Err(_) => None,
    }
}
