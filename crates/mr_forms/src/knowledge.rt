//! Which versions are known for which items, in any form.
ghost use Rattle.std.specs.Prelude.{◌≡◌, ◌↔◌, ◌≢◌, false, All, IfOk, OnOk, OnErr, IsErrOf, Err, map};
ghost use Rattle.mr_forms.specs.Known.{Form, AreSame, HasValue, IsOnlyOverItems, IsOverHolesInTurn, IsOverItemsInTurn, with_below, with_pairs, learned, learned_of, learned_with};

use crate::{FormFault, Fragment, VersionSet};
use mr_version::{ItemId, Version};
use std::alloc::Global;

/// Which versions are known for which items, in some form.
///
/// A knowledge means a set of pairs of an item and a version: see `form.known`. A form may have no
/// value for some of these sets, as one that keeps a limited number of gaps and of listed items; a
/// call whose result would be such a set answers `TooManyHoles`, or else `TooManyItems`. Each call
/// that grows or copies can answer `OutOfMemory`, after every other fault, and a call that answers a
/// fault leaves its value as it was.
pub trait Knowledge: Drop {
    ghost use Rattle.mr_forms.specs.Covered.{covered, all_covered, HasItems};
    ghost use Rattle.mr_forms.specs.Parts.{part_of, ArePartsThat};
    ghost use Rattle.mr_forms.specs.Listing.{ListsMore};
    ghost use Rattle.mr_forms.specs.ByMeaning.{IsByMeaning};
    ghost use Rattle.mr_forms.specs.Merged.{after_each, FirstHasValue, AreOverHolesInTurn, AreOverItemsInTurn};

    /// The form of the vectors of its fragments.
    type Vector: VersionSet;

    /// What its values mean, and which knowledge it has no value for.
    ghost form: { Form Self };

    /// The knowledge of nothing. It allocates nothing; what grows later takes its memory from `alloc`.
    fn new(alloc: Global) -> Self
        ensures { AreSame (form.known result) (λ _ _. false) };

    /// An equal knowledge. `OutOfMemory` is its only fault.
    fn copy(&self) -> Result<Self, FormFault>
        ensures ok { IfOk result (λ knowledge. knowledge ≡ self.now) }
        ensures memory { OnErr result (result ≡ Err FormFault.OutOfMemory) };

    /// Whether the version is known for the item.
    fn knows(&self, item: ItemId, version: Version) -> bool
        ensures { result ≡ form.known self.now item version };

    /// Adds the version for the item. Some forms add it for no other item, others for all items, and a form
    /// may choose by what is known.
    fn learn(&mut self, item: ItemId, version: Version) -> Result<(), FormFault>
        ensures ok { OnOk result (AreSame (form.known self.new) (learned form self.old item version)) }
        ensures holes { IsErrOf result FormFault.TooManyHoles ↔ form.has_too_many_holes (learned form self.old item version) }
        ensures items { IsErrOf result FormFault.TooManyItems ↔ IsOnlyOverItems form (learned form self.old item version) }
        ensures err { OnErr result (self.new ≡ self.old) };

    /// The fault that `learn` would answer where memory is there. It allocates nothing, so it answers
    /// no `OutOfMemory`.
    fn may_learn(&self, item: ItemId, version: Version) -> Result<(), FormFault>
        ensures holes { IsErrOf result FormFault.TooManyHoles ↔ form.has_too_many_holes (learned form self.now item version) }
        ensures items { IsErrOf result FormFault.TooManyItems ↔ IsOnlyOverItems form (learned form self.now item version) }
        ensures memory { result ≢ Err FormFault.OutOfMemory };

    /// Adds all versions of a set, of any form, for the item, and nothing else.
    fn learn_below<S: VersionSet>(&mut self, item: ItemId, set: &S) -> Result<(), FormFault>
        ensures ok { OnOk result (AreSame (form.known self.new) (with_below (form.known self.old) item (S.has set.now))) }
        ensures holes { IsErrOf result FormFault.TooManyHoles ↔ form.has_too_many_holes (with_below (form.known self.old) item (S.has set.now)) }
        ensures items { IsErrOf result FormFault.TooManyItems ↔ IsOnlyOverItems form (with_below (form.known self.old) item (S.has set.now)) }
        ensures err { OnErr result (self.new ≡ self.old) };

    /// Learns a version that came with the set of versions below it: the version, as `learn` does, and the
    /// set for the item. Of other items it may add besides the item's first version, where the set has it.
    /// A fault of the version without the set comes first, then one of the whole, and `OutOfMemory` after
    /// both.
    fn learn_with<S: VersionSet>(
        &mut self,
        item: ItemId,
        version: Version,
        below: &S,
    ) -> Result<(), FormFault>
        ensures ok { OnOk result (AreSame (form.known self.new) (learned_with form self.old item version (S.has below.now))) }
        ensures holes { IsErrOf result FormFault.TooManyHoles ↔ IsOverHolesInTurn form (learned_of form self.old item version (S.has below.now)) (learned_with form self.old item version (S.has below.now)) }
        ensures items { IsErrOf result FormFault.TooManyItems ↔ IsOverItemsInTurn form (learned_of form self.old item version (S.has below.now)) (learned_with form self.old item version (S.has below.now)) }
        ensures err { OnErr result (self.new ≡ self.old) };

    /// The fault that `learn_with` would answer where memory is there. It allocates nothing, so it
    /// answers no `OutOfMemory`.
    fn may_learn_with<S: VersionSet>(
        &self,
        item: ItemId,
        version: Version,
        below: &S,
    ) -> Result<(), FormFault>
        ensures holes { IsErrOf result FormFault.TooManyHoles ↔ IsOverHolesInTurn form (learned_of form self.now item version (S.has below.now)) (learned_with form self.now item version (S.has below.now)) }
        ensures items { IsErrOf result FormFault.TooManyItems ↔ IsOverItemsInTurn form (learned_of form self.now item version (S.has below.now)) (learned_with form self.now item version (S.has below.now)) }
        ensures memory { result ≢ Err FormFault.OutOfMemory };

    /// Adds all versions of a fragment, whose vector is of any form, for each of its items, and
    /// nothing else.
    fn merge<S: VersionSet>(&mut self, fragment: &Fragment<S>) -> Result<(), FormFault>
        ensures ok { OnOk result (AreSame (form.known self.new) (with_pairs (form.known self.old) (covered S.has fragment.now))) }
        ensures holes { IsErrOf result FormFault.TooManyHoles ↔ form.has_too_many_holes (with_pairs (form.known self.old) (covered S.has fragment.now)) }
        ensures items { IsErrOf result FormFault.TooManyItems ↔ IsOnlyOverItems form (with_pairs (form.known self.old) (covered S.has fragment.now)) }
        ensures err { OnErr result (self.new ≡ self.old) };

    /// The fault that `merge` would answer where memory is there. It allocates nothing, so it answers no
    /// `OutOfMemory`.
    fn may_merge<S: VersionSet>(&self, fragment: &Fragment<S>) -> Result<(), FormFault>
        ensures holes { IsErrOf result FormFault.TooManyHoles ↔ form.has_too_many_holes (with_pairs (form.known self.now) (covered S.has fragment.now)) }
        ensures items { IsErrOf result FormFault.TooManyItems ↔ IsOnlyOverItems form (with_pairs (form.known self.now) (covered S.has fragment.now)) }
        ensures memory { result ≢ Err FormFault.OutOfMemory };

    /// A knowledge that knows what this one does and what the fragments cover, which are merged one after
    /// the other; this one stays as it is. A fault is that of the first fragment whose merging has one.
    /// `OutOfMemory` may come before the fault of a later fragment, but not before that of the first.
    fn with_fragments<S: VersionSet>(&self, fragments: &[Fragment<S>]) -> Result<Self, FormFault>
        ensures ok { IfOk result (λ knowledge. AreSame (form.known knowledge) (with_pairs (form.known self.now) (all_covered S.has fragments.now))) }
        ensures value { OnOk result (All (HasValue form) (after_each S.has (form.known self.now) fragments.now)) }
        ensures holes { IsErrOf result FormFault.TooManyHoles → AreOverHolesInTurn form (after_each S.has (form.known self.now) fragments.now) }
        ensures items { IsErrOf result FormFault.TooManyItems → AreOverItemsInTurn form (after_each S.has (form.known self.now) fragments.now) }
        ensures memory { IsErrOf result FormFault.OutOfMemory → FirstHasValue form (after_each S.has (form.known self.now) fragments.now) };

    /// The knowledge as fragments: those that the form has for it, each once. At most one is of all
    /// items, and it comes first; each other one lists 1 to 65,536 items in rising order, and these
    /// come by their first item. `OutOfMemory` is its only fault.
    fn fragments(&self) -> Result<Vec<Fragment<Self::Vector>>, FormFault>
        ensures ok { IfOk result (λ fragments. AreSame (form.known self.now) (all_covered Self.Vector.has fragments.items)) }
        ensures items { IfOk result (λ fragments. All (λ fragment. HasItems fragment.items) fragments.items) }
        ensures parts { IfOk result (λ fragments. ArePartsThat (form.is_part self.now) (map (part_of Self.Vector.has) fragments.items)) }
        ensures memory { OnErr result (result ≡ Err FormFault.OutOfMemory) };

    /// Fragments list an item only where more is known for it than for all items. So a form lists just
    /// items for which some call was given something beyond what is known for all. The law is over the
    /// parts of `form`, which the fragments are.
    ghost lists_more: { ListsMore form };

    /// What is known decides all that a caller sees: two values that know the same have the same parts, and
    /// learn a version for all items in the same cases, however each came to know it. The law is over all
    /// values of the model, those that no call makes among them.
    ghost by_meaning: { IsByMeaning form };
}
