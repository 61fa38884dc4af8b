//! Items, each named by the version that created it.
ghost use Rattle.std.specs.Prelude.{◌≡◌, Some, refl};
ghost use Rattle.std.specs.Cmp;
ghost use Rattle.std.proofs.Common.{rules};
ghost use Rattle.std.specs.Cmp.Rules.{comparing};
ghost use Rattle.mr_version.specs.Name.{name_cmp};
ghost use Rattle.mr_version.specs.Order.{names_total};

use crate::Version;
use std::cmp::Ordering;
use std::marker::Model;

/// An item's id: the version that created it.
#[derive(Clone, Copy, Debug, PartialEq, Eq)]
pub struct ItemId(Version);

impl Model for ItemId {
    ghost use Rattle.mr_version.specs.Name.{Name, name_code};

    ghost Value = { Name };

    ghost coded = { name_code };

    ghost view = { λ item. item.0 };

    ghost inverse = { λ v. record { 0 = v } };
}

impl ItemId {
    /// The id of the item that this version created.
    pub fn new(creator: Version) -> ItemId
        ensures { result ≡ creator }
    {
        ItemId(creator)
    }

    /// The version that created the item.
    pub fn creator(self) -> Version
        ensures { result ≡ self }
    {
        self.0
    }
}

impl PartialOrd for ItemId {
    ghost partial_cmp = { λ a b. Some (name_cmp a b) };

    ghost laws = { Cmp.partial_order_from_agreeing_total name_cmp names_total (λ _ _. refl) (Prim.search (comparing, rules)) };

    fn partial_cmp(&self, other: &ItemId) -> Option<Ordering> {
        Some(self.cmp(other))
    }
}

/// As the versions that created them.
impl Ord for ItemId {
    ghost cmp = { name_cmp };

    ghost total = { names_total };

    ghost matches_partial_cmp = { λ _ _. refl };

    ghost matches_eq = { Prim.search (comparing, rules) };

    fn cmp(&self, other: &ItemId) -> Ordering {
        Version::cmp(&self.0, &other.0)
    }
}
