//! The made-with set of a new version.
ghost use Rattle.std.specs.Prelude.{◌↔◌, ◌≢◌, IfOk, IsErrOf, Err};
ghost use Rattle.std.specs.Option.{option_copied};
ghost use Rattle.mr_forms.specs.Sets.{IsSame};
ghost use Rattle.mr_forms.specs.Runs.{in_run};
ghost use Rattle.mr_concise.specs.Source.{in_some};
ghost use Rattle.mr_concise.specs.Vector.{HasTooManyHoles};
ghost use Rattle.mr_madewith.specs.MadeWith.{own_before, filled_below, AreColumnsOf};

use crate::Revision;
use mr_concise::{ConciseVector, Source};
use mr_forms::{FormFault, Run};
use mr_version::Version;
use std::alloc::Global;

/// The made-with set of the new version: its bases with all that they supersede, which the source
/// `bases` has; the author's last version of the item, where it made one, with all that this
/// supersedes; and all versions of the author with a lower counter; nothing else.
///
/// `TooManyHoles` exactly where a column of that set has more than 4,096 holes; `OutOfMemory` only
/// after it. For each edge of a column it costs a search in each of these sets. No set is copied.
pub fn below_of<S: Source>(
    alloc: Global,
    bases: &S,
    last: Option<&Revision>,
    new: Version,
) -> Result<ConciseVector, FormFault>
    ensures ok { IfOk result (AreColumnsOf (filled_below (S.has bases.now) (option_copied last.entry) new)) }
    ensures holes { IsErrOf result FormFault.TooManyHoles ↔ HasTooManyHoles (filled_below (S.has bases.now) (option_copied last.entry) new) }
    ensures items { result ≢ Err FormFault.TooManyItems }
{
    let below = ConciseVector::gather(alloc, &((bases, last), run_before(new)))?;
    // a vector's columns are as they have to be
    let _columns = below.author_columns();
    Ok(below)
}

/// The author's versions before this one.
fn run_before(version: Version) -> Option<Run>
    ensures { IsSame (in_some in_run result) (own_before version) }
{
    let last = version.counter() - 1;
    if last == 0 {
        return None;
    }
    Some(Run {
        author: version.author(),
        first: 1,
        last,
    })
}
