//! What stands for a fragment with a concise vector.
ghost use Rattle.std.specs.Prelude.{◌≡◌, List, Option};
ghost use Rattle.mr_version.specs.Name.{Name};
ghost use Rattle.mr_forms.specs.Covered.{listed_items};
ghost use Rattle.mr_concise.specs.declared.vector.AuthorColumn.{AuthorColumn};

use crate::vector::ConciseVector;
use mr_forms::Fragment;

/// What stands for a fragment with a concise vector, so that fragments are found alike wherever they are kept.
pub trait AsFragment: Drop {
    /// The items that it lists, or none where it is of all items.
    ghost listed: { Self → Option (List Name) };

    /// The versions that it tells of them.
    ghost told: { Self → List AuthorColumn };

    /// The fragment.
    fn as_fragment(&self) -> &Fragment<ConciseVector>
        ensures listed { listed_items result.now.items ≡ listed self.now }
        ensures told { result.now.vector ≡ told self.now };
}

impl AsFragment for Fragment<ConciseVector> {
    ghost listed = { λ fragment. listed_items fragment.items };

    ghost told = { λ fragment. fragment.vector };

    fn as_fragment(&self) -> &Fragment<ConciseVector> {
        self
    }
}
