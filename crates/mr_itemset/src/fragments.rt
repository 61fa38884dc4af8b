//! Groups as fragments.
ghost use Rattle.std.specs.Prelude.{◌≡◌, ◌∷◌, None, IfOk, OnErr, Err, map};
ghost use Rattle.mr_itemset.specs.Shown.{shown, shown_group};

use crate::groups::OwnGroup;
use mr_concise::ConciseVector;
use mr_forms::{FormFault, Fragment, ItemSet};
use std::alloc::Global;

/// A fragment of all items, whose vector may be empty, and behind it one of each group.
pub(crate) fn fragments_of(
    alloc: Global,
    all: ConciseVector,
    groups: Vec<OwnGroup>,
) -> Result<Vec<Fragment<ConciseVector>>, FormFault>
    ensures ok { IfOk result (λ fragments. map shown fragments.items ≡ (record { items = None; vector = all }) ∷ map shown_group groups.items) }
    ensures memory { OnErr result (result ≡ Err FormFault.OutOfMemory) }
{
    let mut fragments = Vec::with_capacity(alloc, groups.len() + 1)?;
    fragments.push(Fragment {
        items: ItemSet::All,
        vector: all,
    })?;
    for group in groups {
        fragments.push(group.into_fragment())?;
    }
    Ok(fragments)
}
