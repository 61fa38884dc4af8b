//! How many bytes the files of mails have, as what is told of them says.
ghost use Rattle.std.specs.Prelude.{◌≡◌, ◌++◌, ℕ, List, IfOk, OnOk, if◌then◌else◌, Some};
ghost use Rattle.std.specs.Ordering.{is_eq};
ghost use Rattle.mr_madewith.specs.Revision.{Rev};
ghost use Rattle.mr_mail.specs.Label.{text_cmp};
ghost use Rattle.mr_compare.specs.Sides.{at_digest};
ghost use Rattle.mr_fold.specs.inner.Sizes.{AreSizes, PutsSize};

use mr_compare::Digest;
use mr_madewith::Revision;
use mr_maildir::read_reference;
use mr_scan::Sizes;
use std::alloc::{AllocError, Global};
use std::collections::BTreeMap;

/// How many bytes the files have that these revisions refer to: of those that refer to one file, the last one says it. It costs a look-up
/// for each revision.
pub(crate) fn sizes_of(
    alloc: Global,
    heads: &[Revision],
    push_outs: &[Revision],
) -> Result<Sizes, AllocError>
    ensures { IfOk result (λ sizes. AreSizes (heads.now ++ push_outs.now) sizes.entries) }
{
    let mut sizes = BTreeMap::new(alloc);
    put_all(&mut sizes, heads)?;
    put_all(&mut sizes, push_outs)?;
    Ok(sizes)
}

/// Puts the sizes that the revisions tell among the others.
fn put_all(sizes: &mut Sizes, revisions: &[Revision]) -> Result<(), AllocError>
    ensures { OnOk result ((done : List Rev) → AreSizes done sizes.old.entries → AreSizes (done ++ revisions.now) sizes.new.entries) }
{
    for revision in revisions {
        put_told(sizes, revision)?;
    }
    Ok(())
}

/// Puts the size that the revision tells among the others, if it refers to a file.
fn put_told(sizes: &mut Sizes, revision: &Revision) -> Result<(), AllocError>
    ensures { OnOk result (PutsSize revision.now.message.body sizes.old.entries sizes.new.entries) }
{
    match read_reference(revision.message().body()) {
        Some(reference) => {
            put_size(sizes, reference.digest, reference.size)?;
            Ok(())
        }
        None => Ok(()),
    }
}

/// Puts the size of the mail's file in the place of one that was told before.
pub(crate) fn put_size(sizes: &mut Sizes, digest: Digest, size: u64) -> Result<(), AllocError>
    ensures { OnOk result ((other : List ℕ) → at_digest sizes.new.entries other
        ≡ (if is_eq (text_cmp digest other) then Some size else at_digest sizes.old.entries other)) }
{
    sizes.insert(digest, size)?;
    Ok(())
}
