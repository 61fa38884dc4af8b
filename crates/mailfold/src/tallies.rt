//! For how many mails what was done, over two settlings.
ghost use Rattle.std.specs.Prelude.{◌≡◌};
ghost use Rattle.mailfold.specs.Tallies.{nothing, joined};

use mr_compare::Tally;

/// Nothing was done.
pub fn nothing() -> Tally
    ensures { result ≡ nothing }
{
    Tally {
        new: 0,
        changed: 0,
        deleted: 0,
        shown: 0,
        removed: 0,
    }
}

/// What was done by both. A count that would pass 2^64 stays at its end.
pub fn joined(first: &Tally, second: &Tally) -> Tally
    ensures { result ≡ joined first.now second.now }
{
    Tally {
        new: first.new.saturating_add(second.new),
        changed: first.changed.saturating_add(second.changed),
        deleted: first.deleted.saturating_add(second.deleted),
        shown: first.shown.saturating_add(second.shown),
        removed: first.removed.saturating_add(second.removed),
    }
}
