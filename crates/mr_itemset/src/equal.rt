//! When two values are equal: where they know the same.
ghost use Rattle.std.specs.Prelude.{◌≡◌, ◌↔◌, IsTrue};
ghost use Rattle.std.specs.Cmp.{partial_equiv_from_equiv};
ghost use Rattle.mr_forms.specs.Known.{AreSame};
ghost use Rattle.mr_itemset.specs.Normal.{normal_known};
ghost use Rattle.mr_itemset.specs.Equal.{listed_eq, normal_eq, listed_equiv, normals_equiv};

use crate::knowledge::{ItemsUpTo, Listed};
use crate::sparing::SparingKnowledge;

impl PartialEq for Listed {
    ghost eq = { listed_eq };

    ghost laws = { partial_equiv_from_equiv listed_equiv };

    fn eq(&self, other: &Listed) -> bool {
        self.item == other.item && self.vector == other.vector
    }
}

impl Eq for Listed {
    ghost laws = { listed_equiv };
}

/// Two values are equal exactly where they know the same: each knowledge has one value.
impl<const LIMIT: usize> PartialEq for ItemsUpTo<LIMIT> {
    ghost eq = { normal_eq };

    ghost laws = { partial_equiv_from_equiv normals_equiv };

    fn eq(&self, other: &ItemsUpTo<LIMIT>) -> bool
        ensures value { result ≡ normal_eq self.now other.now }
        ensures same { IsTrue result ↔ AreSame (normal_known self.now) (normal_known other.now) }
    {
        self.covers(other) && other.covers(self)
    }
}

impl<const LIMIT: usize> Eq for ItemsUpTo<LIMIT> {
    ghost laws = { normals_equiv };
}

/// Two values are equal exactly where they know the same, and then they choose the same too.
impl PartialEq for SparingKnowledge {
    ghost eq = { normal_eq };

    ghost laws = { partial_equiv_from_equiv normals_equiv };

    fn eq(&self, other: &SparingKnowledge) -> bool
        ensures value { result ≡ normal_eq self.now other.now }
        ensures same { IsTrue result ↔ AreSame (normal_known self.now) (normal_known other.now) }
    {
        self.items() == other.items()
    }
}

impl Eq for SparingKnowledge {
    ghost laws = { normals_equiv };
}
