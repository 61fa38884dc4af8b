//! The parts of a knowledge, as frames carry them.
ghost use Rattle.std.specs.Prelude.{◌≢◌, All, IfOk, IsErrOf, Err, map};
ghost use Rattle.std.specs.List.{AllZip, Any};
ghost use Rattle.mr_forms.specs.Covered.{listed_items};
ghost use Rattle.mr_forms.specs.Parts.{part_of};
ghost use Rattle.mr_concise.specs.Fragments.{IsTooHoley};
ghost use Rattle.mr_wire.specs.Values.{AreItems};
ghost use Rattle.mr_replica.specs.Pieces.{IsPieceOf};

use mr_concise::ConciseVector;
use mr_forms::{FormFault, Fragment, VersionSet};
use mr_wire::FrameFragment;
use std::alloc::Global;
use std::collections::VecDeque;

// The fragment with the vector of its versions.
fn piece_of<V: VersionSet>(alloc: Global, fragment: Fragment<V>) -> Result<FrameFragment, FormFault>
    requires { AreItems (listed_items fragment.items) }
    ensures ok { IfOk result (IsPieceOf (part_of V.has fragment)) }
    ensures holes { IsErrOf result FormFault.TooManyHoles → IsTooHoley V.has fragment }
    ensures items { result ≢ Err FormFault.TooManyItems }
{
    let Fragment { items, vector } = fragment;
    let vector = ConciseVector::from_set(alloc, &vector)?;
    Ok(FrameFragment::new(Fragment { items, vector }))
}

/// The fragments with the vectors of their versions, in the same order.
///
/// `TooManyHoles` only where the versions of one have a column with more than 4,096 holes; where there is
/// such a fragment it answers that or `OutOfMemory`.
pub fn pieces_of<V: VersionSet>(
    alloc: Global,
    fragments: Vec<Fragment<V>>,
) -> Result<VecDeque<FrameFragment>, FormFault>
    requires { All (λ fragment. AreItems (listed_items fragment.items)) fragments.items }
    ensures ok { IfOk result (λ pieces. AllZip IsPieceOf (map (part_of V.has) fragments.items) pieces.items) }
    ensures holes { IsErrOf result FormFault.TooManyHoles → Any (IsTooHoley V.has) fragments.items }
    ensures items { result ≢ Err FormFault.TooManyItems }
{
    let mut pieces = VecDeque::new(alloc);
    for fragment in fragments {
        pieces.push_back(piece_of(alloc, fragment)?)?;
    }
    Ok(pieces)
}
