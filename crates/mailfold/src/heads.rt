//! The heads of a replica, each mail once, and whether it is deleted.
ghost use Rattle.std.specs.Prelude.{◌≡◌};
ghost use Rattle.mr_maildir.specs.View.{is_gone, view_eq};

use crate::mail_file::digest_of;
use mr_compare::Digest;
use mr_itemset::SparingKnowledge;
use mr_mail::{Flag, Message};
use mr_replica::{Replica, Revision};
use std::alloc::{AllocError, Global};
use std::collections::BTreeMap;

/// The heads, but for those that say of a mail what one before them does: where two devices told the same change, or took the
/// same mail each for itself.
pub fn distinct_heads<'a>(
    alloc: Global,
    replica: &'a Replica<SparingKnowledge>,
) -> Result<Vec<&'a Revision>, AllocError> {
    let mut distinct = Vec::new(alloc);
    let mut firsts = BTreeMap::new(alloc);
    let heads = replica.heads();
    for place in 0..heads.len() {
        let head = &heads[place];
        if !is_repeated(heads, &firsts, head) {
            distinct.push(head)?;
            put_first(&mut firsts, head, place)?;
        }
    }
    Ok(distinct)
}

/// Whether the head says of its mail what the first one does, by the places of these.
fn is_repeated(heads: &[Revision], firsts: &BTreeMap<Digest, usize>, head: &Revision) -> bool {
    match first_of(heads, firsts, head) {
        Some(first) => say_same(first.message(), head.message()),
        None => false,
    }
}

/// The first head of the head's mail, if there is one before it.
fn first_of<'a>(
    heads: &'a [Revision],
    firsts: &BTreeMap<Digest, usize>,
    head: &Revision,
) -> Option<&'a Revision> {
    let digest = digest_of(head)?;
    let place = firsts.get(&digest)?;
    heads.get(*place)
}

/// Notes the place of a head, if it is the first of its mail.
fn put_first(
    firsts: &mut BTreeMap<Digest, usize>,
    head: &Revision,
    place: usize,
) -> Result<(), AllocError> {
    if let Some(digest) = digest_of(head)
        && !firsts.contains_key(&digest)
    {
        firsts.insert(digest, place)?;
    }
    Ok(())
}

/// Whether both have the same folders and flags.
fn say_same(first: &Message, second: &Message) -> bool
    ensures { result ≡ view_eq (record { labels = first.now.labels; flags = first.now.flags }) (record { labels = second.now.labels; flags = second.now.flags }) }
{
    first.labels() == second.labels() && first.flags() == second.flags()
}

/// Whether the mail is deleted: it stands in no folder, and has the flag of deleted mail.
pub fn is_deleted(message: &Message) -> bool
    ensures { result ≡ is_gone (record { labels = message.now.labels; flags = message.now.flags }) }
{
    message.labels().is_empty() && message.flags().contains(Flag::Deleted)
}

/// How many mails the replica holds that aren't deleted.
pub fn count_mails(
    alloc: Global,
    replica: &Replica<SparingKnowledge>,
) -> Result<usize, AllocError> {
    let heads = distinct_heads(alloc, replica)?;
    Ok(
        heads
            .iter()
            .filter(|head| !is_deleted(head.message()))
            .count(),
    )
}
