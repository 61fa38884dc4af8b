//! Which versions several others of an item come of.
ghost use Rattle.std.specs.Prelude.{◌≡◌, IfOk, filter};
ghost use Rattle.mr_lookup.specs.Ancestors.{is_above, is_common, is_topmost, newest_common};

use mr_madewith::Revision;
use std::alloc::{AllocError, Global};

/// Of these revisions the newest common ancestors of the heads, in their order: those that each head supersedes, and that none
/// of those supersedes. With one head it is what that head was made from; with none, all that none of the revisions supersedes.
///
/// It costs two binary searches for each revision and head, and for each two of the common ancestors.
pub fn newest_common_ancestors(
    alloc: Global,
    revisions: &[Revision],
    heads: &[Revision],
) -> Result<Vec<Revision>, AllocError>
    ensures { IfOk result (λ newest. newest.items ≡ newest_common heads.now revisions.now) }
{
    let common = common_ancestors(alloc, revisions, heads)?;
    topmost(alloc, &common)
}

/// Whether the first is a version of the second's item that supersedes it.
fn is_over(above: &Revision, revision: &Revision) -> bool
    ensures { result ≡ is_above above.now revision.now }
{
    above.item() == revision.item() && above.supersedes(revision.version())
}

/// Whether each head supersedes the revision.
fn is_below_all(heads: &[Revision], revision: &Revision) -> bool
    ensures { result ≡ is_common heads.now revision.now }
{
    heads.iter().all(|head| is_over(head, revision))
}

/// Whether none of these supersedes the revision.
fn is_below_none(revisions: &[Revision], revision: &Revision) -> bool
    ensures { result ≡ is_topmost revisions.now revision.now }
{
    revisions.iter().all(|other| !is_over(other, revision))
}

/// Those that each head supersedes.
fn common_ancestors(
    alloc: Global,
    revisions: &[Revision],
    heads: &[Revision],
) -> Result<Vec<Revision>, AllocError>
    ensures { IfOk result (λ common. common.items ≡ filter (is_common heads.now) revisions.now) }
{
    let mut common = Vec::new(alloc);
    for revision in revisions {
        if is_below_all(heads, revision) {
            common.push(revision.copy()?)?;
        }
    }
    Ok(common)
}

/// Those that none of them supersedes.
fn topmost(alloc: Global, revisions: &[Revision]) -> Result<Vec<Revision>, AllocError>
    ensures { IfOk result (λ newest. newest.items ≡ filter (is_topmost revisions.now) revisions.now) }
{
    let mut newest = Vec::new(alloc);
    for revision in revisions {
        if is_below_none(revisions, revision) {
            newest.push(revision.copy()?)?;
        }
    }
    Ok(newest)
}
