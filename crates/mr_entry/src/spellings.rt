//! Laws of spelling, for hosts that keep entries.
ghost use Rattle.std.specs.Prelude.{◌≡◌, ◌++◌, ℕ, List};
ghost use Rattle.mr_entry.specs.declared.entry.Entry.{Entry};
ghost use Rattle.mr_entry.specs.Grammar.{Spells};

/// No spelling of an entry begins another one's, and entries of one spelling are one.
pub fn no_spelling_begins_another()
    ensures { (e f : Entry) (a b x y : List ℕ) → Spells e a → Spells f b → a ++ x ≡ b ++ y → (a ≡ b) × (e ≡ f) }
{}

/// An entry has one spelling.
pub fn one_spelling()
    ensures { (e : Entry) (a b : List ℕ) → Spells e a → Spells e b → a ≡ b }
{}
