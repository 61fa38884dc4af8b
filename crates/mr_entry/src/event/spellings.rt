//! Laws of spelling, for hosts that keep logs.
ghost use Rattle.std.specs.Prelude.{◌≡◌, ◌++◌, ℕ, List};
ghost use Rattle.mr_replica.specs.declared.event.Event.{Event};
ghost use Rattle.mr_entry.specs.Grammar.{SpellsEvent};

/// No spelling of an event begins another one's, and events of one spelling are one.
pub fn no_spelling_begins_another()
    ensures { (e f : Event) (a b x y : List ℕ) → SpellsEvent e a → SpellsEvent f b → a ++ x ≡ b ++ y → (a ≡ b) × (e ≡ f) }
{}

/// An event has one spelling.
pub fn one_spelling()
    ensures { (e : Event) (a b : List ℕ) → SpellsEvent e a → SpellsEvent e b → a ≡ b }
{}
