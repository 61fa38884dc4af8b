//! Laws of spelling, for the layers above.
ghost use Rattle.std.specs.Prelude.{◌≡◌, ◌++◌, ℕ, List};
ghost use Rattle.mr_wire.specs.declared.frame.Frame.{Frame};
ghost use Rattle.mr_wire.specs.Grammar.{Spells};

/// No spelling of a frame begins another one's, in whatever formats they are.
pub fn no_spelling_begins_another()
    ensures { (format other : ℕ) (f g : Frame) (a b x y : List ℕ) → Spells format f a → Spells other g b
        → a ++ x ≡ b ++ y → (a ≡ b) × (f ≡ g) }
{}

/// A frame has one spelling in a format.
pub fn one_spelling()
    ensures { (format : ℕ) (f : Frame) (a b : List ℕ) → Spells format f a → Spells format f b → a ≡ b }
{}
