//! The parts of a word between its separators, one after the other. No memory is taken for them.
ghost use Rattle.std.specs.Prelude.{◌≡◌, ◌<◌, [], ◌∷◌, MatchOption};
ghost use Rattle.mr_command.specs.List.{pieces_of, parts_of};
ghost use Rattle.mr_command.specs.inner.List.{parts_left};

use std::marker::Model;

/// The word for a list of nothing.
const NONE: &str = ".";

/// The parts of a word that are left to be read.
#[derive(Drop)]
pub(crate) struct Pieces<'a> {
    separator: char,
    rest: Option<&'a str>,
}

impl<'a> Model for Pieces<'a> {
    ghost use Rattle.std.specs.Prelude.{ℕ, ◌<◌, List};
    ghost use Rattle.mr_command.specs.inner.List.{parts_left};

    ghost Value = { List (List ℕ) };

    ghost view = { λ p. parts_left p.separator p.rest };

    ghost invariant = { λ p. p.separator < 128 };
}

impl<'a> Pieces<'a> {
    /// The parts of the word between its separators. A word of one dot has none.
    pub(crate) fn of(word: &'a str, separator: char) -> Pieces<'a>
        requires { separator < 128 }
        ensures { result ≡ pieces_of separator word.now }
    {
        let rest = if word == NONE { None } else { Some(word) };
        Pieces { separator, rest }
    }

    /// Takes the next part. `None` where none is left.
    pub(crate) fn next_piece(&mut self) -> Option<&'a str>
        ensures { MatchOption result ((self.old ≡ []) × (self.new ≡ []))
            (λ piece. self.old ≡ piece.now ∷ self.new) }
    {
        let (piece, after) = first_piece(self.rest?, self.separator);
        self.rest = after;
        Some(piece)
    }
}

/// The first part of a text, and what stands after its separator if that is not its only one.
pub(crate) fn first_piece(text: &str, separator: char) -> (&str, Option<&str>)
    requires { separator < 128 }
    ensures { parts_of separator text.now ≡ result.0.now ∷ parts_left separator result.1 }
{
    match text.split_once(separator) {
        Some((piece, after)) => (piece, Some(after)),
        None => (text, None),
    }
}
