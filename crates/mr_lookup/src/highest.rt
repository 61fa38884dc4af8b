//! The highest version of an author that is known.
ghost use Rattle.std.specs.Prelude.{◌≡◌, ◌≢◌, All, Err, IfOk, IsErrOf, OnOk};
ghost use Rattle.mr_forms.specs.Covered.{HasItems, all_covered};
ghost use Rattle.mr_concise.specs.Vector.{vector_has};
ghost use Rattle.mr_replica.specs.Fragments.{HasHoleyPart};
ghost use Rattle.mr_lookup.specs.Highest.{IsHighestFound};
ghost use Rattle.mr_lookup.specs.inner.Highest.{higher_of};

use mr_concise::ConciseVector;
use mr_forms::{FormFault, Fragment, Knowledge};
use mr_replica::Replica;
use mr_version::Author;

/// The highest counter of the author's versions that the replica knows, of whatever item; `None` where it knows none of them.
///
/// `TooManyHoles` and `OutOfMemory` as [`Replica::fragments`], and its cost: all that is known.
pub fn highest_counter<K: Knowledge>(
    replica: &Replica<K>,
    author: Author,
) -> Result<Option<u32>, FormFault>
    ensures highest { IfOk result (IsHighestFound (K.form.known replica.now.knowledge) author) }
    ensures few { OnOk result (¬ HasHoleyPart (K.form.is_part replica.now.knowledge)) }
    ensures holes { IsErrOf result FormFault.TooManyHoles → HasHoleyPart (K.form.is_part replica.now.knowledge) }
    ensures items { result ≢ Err FormFault.TooManyItems }
{
    let fragments = replica.fragments()?;
    Ok(highest_in(&fragments, author))
}

/// The author's highest counter in one of the vectors.
fn highest_in(fragments: &[Fragment<ConciseVector>], author: Author) -> Option<u32>
    requires { All (λ fragment. HasItems fragment.items) fragments.now }
    ensures { IsHighestFound (all_covered vector_has fragments.now) author result }
{
    let mut highest = None;
    for fragment in fragments {
        highest = higher(highest, fragment.vector.last(author));
    }
    highest
}

/// The higher one of two counters, where there are any.
fn higher(a: Option<u32>, b: Option<u32>) -> Option<u32>
    ensures { result ≡ higher_of a b }
{
    match (a, b) {
        (Some(a), Some(b)) => Some(a.max(b)),
        (None, b) => b,
        (a, None) => a,
    }
}
