//! Equality and order.
ghost use Rattle.std.specs.Prelude.{◌≡◌, ◌↔◌, IsTrue, refl};
ghost use Rattle.std.specs.Cmp.{partial_equiv_from_equiv, partial_order_from_agreeing_total};
ghost use Rattle.mr_forms.specs.Sets.{IsSame};
ghost use Rattle.mr_concise.specs.Equal.{extent_eq, author_column_eq, vector_eq, extents_equiv, author_columns_equiv, vectors_equiv};
ghost use Rattle.mr_concise.specs.Vector.{vector_has};
ghost use Rattle.std.specs.declared.option.Option.TheVariants.{Some};
ghost use Rattle.mr_concise.specs.Order.{hole_cmp, extent_cmp, author_column_cmp, vector_cmp, holes_total, extents_total, author_columns_total, vectors_total, holes_tied, extents_tied, author_columns_tied, vectors_tied};

use crate::column::{Column, Hole};
use crate::vector::{AuthorColumn, ConciseVector};
use std::cmp::Ordering;

impl PartialEq for Column {
    ghost eq = { extent_eq };

    ghost laws = { partial_equiv_from_equiv extents_equiv };

    fn eq(&self, other: &Column) -> bool {
        self.upto() == other.upto() && self.holes() == other.holes()
    }
}

impl Eq for Column {
    ghost laws = { extents_equiv };
}

impl PartialEq for AuthorColumn {
    ghost eq = { author_column_eq };

    ghost laws = { partial_equiv_from_equiv author_columns_equiv };

    fn eq(&self, other: &AuthorColumn) -> bool {
        self.author.id() == other.author.id() && self.column == other.column
    }
}

impl Eq for AuthorColumn {
    ghost laws = { author_columns_equiv };
}

/// Two vectors are equal exactly where they have the same versions: each set has one value.
impl PartialEq for ConciseVector {
    ghost eq = { vector_eq };

    ghost laws = { partial_equiv_from_equiv vectors_equiv };

    fn eq(&self, other: &ConciseVector) -> bool
        ensures value { result ≡ vector_eq self.now other.now }
        ensures same { IsTrue result ↔ IsSame (vector_has self.now) (vector_has other.now) }
    {
        self.author_columns() == other.author_columns()
    }
}

impl Eq for ConciseVector {
    ghost laws = { vectors_equiv };
}

impl PartialOrd for Hole {
    ghost partial_cmp = { λ a b. Some (hole_cmp a b) };

    ghost laws = { partial_order_from_agreeing_total hole_cmp holes_total (λ _ _. refl) holes_tied };

    fn partial_cmp(&self, other: &Hole) -> Option<Ordering> {
        Some(self.cmp(other))
    }
}

/// By the first counter, then by the last.
impl Ord for Hole {
    ghost cmp = { hole_cmp };

    ghost total = { holes_total };

    ghost matches_partial_cmp = { λ _ _. refl };

    ghost matches_eq = { holes_tied };

    fn cmp(&self, other: &Hole) -> Ordering {
        match self.first.cmp(&other.first) {
            Ordering::Equal => self.last.cmp(&other.last),
            decided => decided,
        }
    }
}

impl PartialOrd for Column {
    ghost partial_cmp = { λ a b. Some (extent_cmp a b) };

    ghost laws = { partial_order_from_agreeing_total extent_cmp extents_total (λ _ _. refl) extents_tied };

    fn partial_cmp(&self, other: &Column) -> Option<Ordering> {
        Some(self.cmp(other))
    }
}

/// By the bound, then by the holes, of which the first that differs decides.
impl Ord for Column {
    ghost cmp = { extent_cmp };

    ghost total = { extents_total };

    ghost matches_partial_cmp = { λ _ _. refl };

    ghost matches_eq = { extents_tied };

    fn cmp(&self, other: &Column) -> Ordering {
        match self.upto().cmp(&other.upto()) {
            Ordering::Equal => self.holes().cmp(other.holes()),
            decided => decided,
        }
    }
}

impl PartialOrd for AuthorColumn {
    ghost partial_cmp = { λ a b. Some (author_column_cmp a b) };

    ghost laws = { partial_order_from_agreeing_total author_column_cmp author_columns_total (λ _ _. refl) author_columns_tied };

    fn partial_cmp(&self, other: &AuthorColumn) -> Option<Ordering> {
        Some(self.cmp(other))
    }
}

/// By the author, then by the column.
impl Ord for AuthorColumn {
    ghost cmp = { author_column_cmp };

    ghost total = { author_columns_total };

    ghost matches_partial_cmp = { λ _ _. refl };

    ghost matches_eq = { author_columns_tied };

    fn cmp(&self, other: &AuthorColumn) -> Ordering {
        match self.author.id().cmp(&other.author.id()) {
            Ordering::Equal => self.column.cmp(&other.column),
            decided => decided,
        }
    }
}

impl PartialOrd for ConciseVector {
    ghost partial_cmp = { λ a b. Some (vector_cmp a b) };

    ghost laws = { partial_order_from_agreeing_total vector_cmp vectors_total (λ _ _. refl) vectors_tied };

    fn partial_cmp(&self, other: &ConciseVector) -> Option<Ordering> {
        Some(self.cmp(other))
    }
}

/// By the columns, of which the first that differs decides: an order for maps and sorting, which says
/// nothing of which set has more. It takes time for the columns that are alike.
impl Ord for ConciseVector {
    ghost cmp = { vector_cmp };

    ghost total = { vectors_total };

    ghost matches_partial_cmp = { λ _ _. refl };

    ghost matches_eq = { vectors_tied };

    fn cmp(&self, other: &ConciseVector) -> Ordering {
        self.author_columns().cmp(other.author_columns())
    }
}
