//! A knowledge as it is seen.
ghost use Rattle.std.specs.Prelude.{◌≡◌, [], false, All, IfOk, OnErr, Err, map, string_bytes};
ghost use Rattle.mr_forms.specs.Known.{AreSame};
ghost use Rattle.mr_forms.specs.Covered.{all_covered, HasItems};
ghost use Rattle.mr_forms.specs.Parts.{part_of, ArePartsThat};
ghost use Rattle.mr_concise.specs.Vector.{vector_has};
ghost use Rattle.mr_itemset.specs.Normal.{normal_known};
ghost use Rattle.mr_itemset.specs.ItemForm.{IsNormalPart};
ghost use Rattle.mr_itemset.specs.NormalForm.{AreNormal};
ghost use Rattle.mr_itemset.specs.Shown.{shown, fragments_in, normal_text};

use crate::knowledge::ItemsUpTo;
use crate::settled::Settled;
use mr_concise::{ConciseVector, knowledge_text};
use mr_forms::{FormFault, Fragment, VersionSet};
use mr_version::{ItemId, Version};
use std::alloc::Global;

impl<const LIMIT: usize> ItemsUpTo<LIMIT> {
    /// The knowledge of nothing. It allocates nothing; what grows later takes its memory from `alloc`.
    pub fn new(alloc: Global) -> ItemsUpTo<LIMIT>
        ensures is { result ≡ record { all = []; listed = [] } }
        ensures nothing { AreSame (normal_known result) (λ _ _. false) }
    {
        ItemsUpTo::of(Settled::new(alloc))
    }

    /// An equal knowledge. `OutOfMemory` is its only fault.
    pub fn copy(&self) -> Result<ItemsUpTo<LIMIT>, FormFault>
        ensures ok { IfOk result (λ knowledge. knowledge ≡ self.now) }
        ensures memory { OnErr result (result ≡ Err FormFault.OutOfMemory) }
    {
        Ok(self.copy_parts()?)
    }

    /// Whether the version is known for the item. It costs a few searches.
    pub fn knows(&self, item: ItemId, version: Version) -> bool
        ensures { result ≡ normal_known self.now item version }
    {
        let parts = self.parts();
        parts.pending.contains(version) || parts.settled.knows(item, version)
    }

    /// The knowledge as fragments, in normal form. That of all items comes first, and its vector may be
    /// empty. Each listed item is in one of the others, with a vector that has all that all items have,
    /// and more. Items of one vector are in one fragment, or, where they are more than `MAX_ITEMS`, in
    /// several: the lowest `MAX_ITEMS` in the first, and so on. Fragments come by their first items, and
    /// the items of each rise. `OutOfMemory` is the only fault. For n listed items it takes about n log n
    /// comparisons of vectors.
    pub fn fragments(&self) -> Result<Vec<Fragment<ConciseVector>>, FormFault>
        ensures are { IfOk result (λ fragments. map shown fragments.items ≡ fragments_in self.now) }
        ensures normal { IfOk result (λ fragments. AreNormal (map (part_of vector_has) fragments.items)) }
        ensures ok { IfOk result (λ fragments. AreSame (normal_known self.now) (all_covered vector_has fragments.items)) }
        ensures items { IfOk result (λ fragments. All (λ fragment. HasItems fragment.items) fragments.items) }
        ensures parts { IfOk result (λ fragments. ArePartsThat (IsNormalPart self.now) (map (part_of vector_has) fragments.items)) }
        ensures memory { OnErr result (result ≡ Err FormFault.OutOfMemory) }
    {
        Ok(self.folded()?.into_fragments()?)
    }

    /// The text of the knowledge: `all` or items with commas between them, a space and the vector's text,
    /// for each fragment, and `; ` between the fragments, as `all 0:4; 0.3,0.5 0:9!2!5..7`.
    pub fn text(&self) -> Result<String, FormFault>
        ensures ok { IfOk result (λ text. string_bytes text ≡ normal_text self.now) }
        ensures memory { OnErr result (result ≡ Err FormFault.OutOfMemory) }
    {
        let fragments = self.fragments()?;
        Ok(knowledge_text(self.parts().settled.allocator(), &fragments)?)
    }
}
