//! What the replica has of each mail.
ghost use Rattle.std.specs.Prelude.{◌≡◌, ◌+◌, ◌<◌, ◌++◌, ◌∷◌, List, [], IfOk, OnOk, length, map};
ghost use Rattle.std.specs.List.{list_all};
ghost use Rattle.std.specs.List.Sorted.{IsPermutation};
ghost use Rattle.std.specs.Option.{option_copied};
ghost use Rattle.mr_madewith.specs.Revision.{Rev};
ghost use Rattle.mr_maildir.specs.View.{view_eq};
ghost use Rattle.mr_maildir.specs.Merging.{merged_view, over, differ};
ghost use Rattle.mr_compare.specs.declared.held.Head.{Head};
ghost use Rattle.mr_compare.specs.Held.{AreRead, head_of, view_at};
ghost use Rattle.mr_compare.specs.inner.Held.{ReadsOne};

use mr_madewith::Revision;
use mr_maildir::{View, read_reference, shown};
use mr_version::{ItemId, Version};
use std::alloc::{AllocError, Global};

/// SHA-256 of the bytes of a mail's file.
pub type Digest = [u8; 32];

/// A mail by its file's digest, and an item that it is.
pub type MailItem = (Digest, ItemId);

/// A version that is held, and how the mail stands by it.
#[derive(Debug, Drop)]
pub struct Head {
    pub version: Version,
    pub view: View,
}

/// The versions that are held.
#[derive(Debug, Drop)]
pub struct Held {
    /// Those that stand for a mail's file, in the order in which they were given.
    pub heads: Vec<(MailItem, Head)>,
    /// How many others there are.
    pub passed_over: usize,
}

/// Which mails these revisions are of, as their bodies tell, and how each has its mail stand. Those that stand for no
/// mail's file are counted.
///
/// A replica's heads and its push-outs are all that it holds. By [`gathered`](crate::gathered) the heads come together that are of one
/// mail and one item.
pub fn held_of(
    alloc: Global,
    heads: &[Revision],
    push_outs: &[Revision],
) -> Result<Held, AllocError>
    ensures read { IfOk result (λ held. AreRead (heads.now ++ push_outs.now) held.heads.items) }
    ensures counted { IfOk result (λ held. held.passed_over + length held.heads.items ≡ length heads.now + length push_outs.now) }
{
    let mut read = Vec::with_capacity(alloc, heads.len())?;
    read_all(alloc, &mut read, heads)?;
    read_all(alloc, &mut read, push_outs)?;
    let passed_over = passed_over(heads, push_outs, &read);
    Ok(Held {
        heads: read,
        passed_over,
    })
}

/// How many of the revisions were not read.
fn passed_over(heads: &[Revision], push_outs: &[Revision], read: &[(MailItem, Head)]) -> usize
    requires { AreRead (heads.now ++ push_outs.now) read.now }
    ensures { result + length read.now ≡ length heads.now + length push_outs.now }
{
    heads.len() + push_outs.len() - read.len()
}

/// Reads the revisions, and puts those that stand for a mail's file behind the others.
fn read_all(
    alloc: Global,
    read: &mut Vec<(MailItem, Head)>,
    revisions: &[Revision],
) -> Result<(), AllocError>
    ensures { OnOk result ((done : List Rev) → AreRead done read.old.items → AreRead (done ++ revisions.now) read.new.items) }
{
    for revision in revisions {
        read_one(alloc, read, revision)?;
    }
    Ok(())
}

/// Reads a revision, and puts it behind the others if it stands for a mail's file.
fn read_one(
    alloc: Global,
    read: &mut Vec<(MailItem, Head)>,
    revision: &Revision,
) -> Result<(), AllocError>
    ensures { OnOk result (ReadsOne revision.now read.old.items read.new.items) }
{
    match read_reference(revision.message().body()) {
        Some(reference) => {
            push_head(alloc, read, reference.digest, revision)?;
            Ok(())
        }
        None => Ok(()),
    }
}

/// Puts the revision behind the others, as a head of the mail of this digest.
fn push_head(
    alloc: Global,
    read: &mut Vec<(MailItem, Head)>,
    digest: Digest,
    revision: &Revision,
) -> Result<(), AllocError>
    ensures { OnOk result (read.new.items ≡ read.old.items ++ head_of digest revision.now ∷ []) }
{
    let view = View::of_place(alloc, revision.message().place())?;
    let version = revision.version();
    read.push(((digest, revision.item()), Head { version, view }))?;
    Ok(())
}

/// How a mail stands by the heads of one item, over the view of their newest common ancestor, if they have one. The order
/// of the heads is indifferent.
pub fn item_view(alloc: Global, ancestor: Option<&View>, heads: &[Head]) -> Result<View, AllocError>
    requires { 0 < length heads.now }
    ensures value { IfOk result (λ view. view ≡ merged_view (over (option_copied ancestor.entry)) (map view_at heads.now)) }
    ensures any_order { (others : List Head) → IsPermutation heads.now others
        → IfOk result (λ view. view ≡ merged_view (over (option_copied ancestor.entry)) (map view_at others)) }
{
    let views = views_of(alloc, heads)?;
    shown(alloc, ancestor, &views)
}

/// The views of the heads.
fn views_of(alloc: Global, heads: &[Head]) -> Result<Vec<View>, AllocError>
    ensures { IfOk result (λ views. views.items ≡ map view_at heads.now) }
{
    let mut views = Vec::with_capacity(alloc, heads.len())?;
    for head in heads {
        views.push(head.view.copy(alloc)?)?;
    }
    Ok(views)
}

/// Whether an edit is due that merges the heads of an item: exactly where two of them have the mail stand differently.
pub fn is_merge_due(heads: &[Head]) -> bool
    ensures value { result ≡ differ (map view_at heads.now) }
    ensures any_order { (others : List Head) → IsPermutation heads.now others → result ≡ differ (map view_at others) }
{
    do_differ(heads)
}

/// Whether two of the heads have other views.
fn do_differ(heads: &[Head]) -> bool
    ensures { result ≡ differ (map view_at heads.now) }
{
    match heads.split_first() {
        Some((first, others)) => !are_like(first, others),
        None => false,
    }
}

/// Whether the mail stands by each of the others as by the first.
fn are_like(first: &Head, others: &[Head]) -> bool
    ensures { result ≡ list_all (λ head. view_eq first.now.view head.view) others.now }
{
    others.iter().all(|other| first.view == other.view)
}
