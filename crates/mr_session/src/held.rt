//! The held versions of a source, as a full stream tells them.
ghost use Rattle.std.specs.Prelude.{◌≡◌, [], ◌∷◌, map, IfOk};
ghost use Rattle.mr_forms.specs.Sets.{is_listed};
ghost use Rattle.mr_concise.specs.Vector.{IsVectorOf};
ghost use Rattle.mr_store.specs.Revisions.{AreInVersionOrder, version_of};
ghost use Rattle.mr_session.specs.Held.{AreCut};

use crate::held_runs::one_vector;
use mr_concise::ConciseVector;
use mr_forms::{FormFault, VersionSet};
use mr_madewith::Revision;
use mr_version::Version;
use std::alloc::{AllocError, Global};
use std::collections::VecDeque;
use std::mem;

// The vector of one version. It has one hole at most, so only memory can be missing.
fn vector_of(alloc: Global, version: Version) -> Result<ConciseVector, AllocError>
    ensures { IfOk result (IsVectorOf (is_listed (version ∷ []))) }
{
    let mut vector = ConciseVector::new(alloc);
    match vector.insert(version) {
        Ok(()) => {
            // the columns of a vector are as they have to be
            let _columns = vector.author_columns();
            Ok(vector)
        }
        Err(_) => Err(AllocError),
    }
}

/// The versions of these revisions, in order, in as few vectors as that order allows: a new vector is begun
/// where a column of one would get too many holes. No revisions give one empty vector. It costs a short search
/// for each run of versions where one vector has room for all; else a walk over them.
pub fn held_vectors(
    alloc: Global,
    revisions: &[Revision],
) -> Result<VecDeque<ConciseVector>, AllocError>
    requires { AreInVersionOrder revisions.now }
    ensures { IfOk result (λ vectors. AreCut (map version_of revisions.now) vectors.items) }
{
    match one_vector(alloc, revisions)? {
        Some(vector) => queue_of(alloc, vector),
        None => cut_vectors(alloc, revisions),
    }
}

// The vector alone.
fn queue_of(alloc: Global, vector: ConciseVector) -> Result<VecDeque<ConciseVector>, AllocError>
    ensures { IfOk result (λ queue. queue.items ≡ vector ∷ []) }
{
    let mut queue = VecDeque::new(alloc);
    queue.push_back(vector)?;
    Ok(queue)
}

// The same, of the versions one by one.
fn cut_vectors(alloc: Global, revisions: &[Revision]) -> Result<VecDeque<ConciseVector>, AllocError>
    ensures { IfOk result (λ vectors. AreCut (map version_of revisions.now) vectors.items) }
{
    let mut vectors = VecDeque::new(alloc);
    let mut vector = ConciseVector::new(alloc);
    for revision in revisions {
        let version = revision.version();
        match vector.insert(version) {
            Ok(()) => {}
            Err(FormFault::TooManyHoles) => {
                let next = vector_of(alloc, version)?;
                vectors.push_back(mem::replace(&mut vector, next))?;
            }
            Err(_) => return Err(AllocError),
        }
        // the columns of a vector are as they have to be
        let _columns = vector.author_columns();
    }
    vectors.push_back(vector)?;
    Ok(vectors)
}
