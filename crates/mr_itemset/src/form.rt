//! Laws of normal forms: each knowledge has one, and one value.
ghost use Rattle.std.specs.Prelude.{◌≡◌, ℕ};
ghost use Rattle.mr_version.specs.Name.{Name};
ghost use Rattle.mr_forms.specs.Sets.{Versions};
ghost use Rattle.mr_forms.specs.Known.{AreSame};
ghost use Rattle.mr_itemset.specs.Normal.{Normal, IsNormal, normal_known};
ghost use Rattle.mr_itemset.specs.NormalForm.{HasOneNormalForm};
ghost use Rattle.mr_itemset.specs.Sparing.{sparing_form};

use crate::knowledge::ItemsUpTo;
use crate::sparing::SparingKnowledge;

/// Each knowledge has one normal form, however many items it lists: there is one, and it is the only one.
pub fn one_normal_form()
    ensures { (limit : ℕ) (k : Normal) → IsNormal limit k → HasOneNormalForm k }
{}

/// Each knowledge has one value: two that know the same are one.
pub fn one_value<const LIMIT: usize>(first: &ItemsUpTo<LIMIT>, second: &ItemsUpTo<LIMIT>)
    ensures { AreSame (normal_known first.now) (normal_known second.now) → first.now ≡ second.now }
{
    // both are in their normal form
    let _first = first.parts();
    let _second = second.parts();
}

/// Each sparing knowledge has one value too. That two which know the same learn a version for the same items,
/// however they came to know it, holds of all values of the model, by the law `by_meaning` of `Knowledge`; here it is
/// said of two that calls made.
pub fn one_choice(first: &SparingKnowledge, second: &SparingKnowledge)
    ensures one { AreSame (normal_known first.now) (normal_known second.now) → first.now ≡ second.now }
    ensures spreads { AreSame (normal_known first.now) (normal_known second.now) → (item version : Name) (set : Versions) → sparing_form.learns_for_all first.now item version set ≡ sparing_form.learns_for_all second.now item version set }
    ensures firsts { AreSame (normal_known first.now) (normal_known second.now) → (item version : Name) (set : Versions) → sparing_form.firsts_for_all first.now item version set ≡ sparing_form.firsts_for_all second.now item version set }
{
    one_value(first.items(), second.items());
}
