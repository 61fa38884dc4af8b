//! The rule of a tap, which each step of a call keeps.
use crate::piece::Piece;
use crossbeam_queue::RuledArrayQueue;
use crossbeam_queue::protocol::{Join, Lesson, Outcome, Protocol, Split};
use std::collections::LinkedList;

/// The queue of a tap.
pub type TapQueue<T> = RuledArrayQueue<Piece<T>, TapSight<T>, TapRule>;

/// What a pass may do, and what it has done. No value of it is made.
pub struct TapSight<T> {
    pub offers: bool,
    pub takes: bool,
    pub offered: LinkedList<Piece<T>>,
    pub taken: LinkedList<Piece<T>>,
}

/// What was taken, and then what waits, is what was offered.
pub struct TapRule;

impl<T> Protocol<Piece<T>, TapSight<T>> for TapRule {
    ghost use Rattle.std.specs.Prelude.{true, []};
    ghost use Rattle.mr_lane.specs.inner.TapRule.{tap_sight, FlowsInOrder};

    ghost holds = { FlowsInOrder };

    ghost first = { tap_sight true true [] [] };
}

/// The two ends of a tap: one offers, and the other takes.
pub struct TwoEnds;

impl<T> Split<TapSight<T>> for TwoEnds {
    ghost use Rattle.std.specs.Prelude.{true, false, []};
    ghost use Rattle.mr_lane.specs.inner.TapRule.{tap_sight};

    ghost left = { λ s. tap_sight true false s.offered [] };

    ghost right = { λ s. tap_sight false true [] s.taken };
}

impl<T> Join<TapSight<T>> for TwoEnds {
    ghost use Rattle.std.specs.Prelude.{true, false, []};
    ghost use Rattle.mr_lane.specs.inner.TapRule.{tap_sight};

    ghost both = { λ s t. tap_sight true true s.offered t.taken };

    ghost spent = { tap_sight false false [] [] };
}

/// A piece is offered.
pub struct Offers;

impl<T> Outcome<Piece<T>, TapSight<T>> for Offers {
    ghost use Rattle.std.specs.Prelude.{◌≡◌, ◌++◌, ◌∷◌, []};
    ghost use Rattle.mr_lane.specs.inner.TapRule.{tap_sight};

    ghost then = { λ s p t. t ≡ tap_sight s.offers s.takes (s.offered ++ p ∷ []) s.taken };
}

impl<T> Lesson<Piece<T>, TapSight<T>> for Offers {
    ghost use Rattle.std.specs.Prelude.{List, ◌≡◌, ◌++◌};
    ghost use Rattle.mr_lane.specs.declared.piece.Piece.{Piece};

    // what waits in a full tap is the last of what was offered
    ghost fact = { λ s waiting. (gone : List (Piece T)) × (s.offered ≡ gone ++ waiting) };
}

/// A piece is taken.
pub struct Takes;

impl<T> Outcome<Piece<T>, TapSight<T>> for Takes {
    ghost use Rattle.std.specs.Prelude.{◌≡◌, ◌++◌, ◌∷◌, []};
    ghost use Rattle.mr_lane.specs.inner.TapRule.{tap_sight};

    ghost then = { λ s p t. t ≡ tap_sight s.offers s.takes s.offered (s.taken ++ p ∷ []) };
}

impl<T> Lesson<Piece<T>, TapSight<T>> for Takes {
    ghost use Rattle.std.specs.Prelude.{⊤};

    // the end that takes knows nothing of what was offered
    ghost fact = { λ s waiting. ⊤ };
}

/// Both ends together: what was taken, and then what waits, is what was offered.
pub struct Compares;

impl<T> Lesson<Piece<T>, TapSight<T>> for Compares {
    ghost use Rattle.std.specs.Prelude.{◌≡◌, ◌++◌};

    ghost fact = { λ s waiting. s.offered ≡ s.taken ++ waiting };
}
