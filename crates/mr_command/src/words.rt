//! The words of a line.
ghost use Rattle.std.specs.Prelude.{◌≡◌, [], ◌∷◌, ◌↔◌, ◌≢◌, Ok, Err, IsOk, IfErr, MatchResult};
ghost use Rattle.std.specs.Option.{option_copied};
ghost use Rattle.mr_command.specs.Taking.{takes_one, takes_two, takes_three, takes_two_or_three};
ghost use Rattle.mr_command.specs.inner.Taking.{takes_at_most_one};
ghost use Rattle.mr_command.specs.Words.{words, unwords};

use crate::pieces::first_piece;
use crate::{LineFault, Read};
use std::marker::Model;

/// What is left of a line after some of its words were taken.
///
/// Words are separated by one space, so two spaces have an empty word between them, and a line that
/// ends with a space ends with an empty word.
#[derive(Drop)]
pub(crate) struct Words<'a> {
    rest: Option<&'a str>,
}

impl<'a> Model for Words<'a> {
    ghost use Rattle.std.specs.Prelude.{ℕ, List};
    ghost use Rattle.mr_command.specs.inner.Words.{words_left};

    ghost Value = { List (List ℕ) };

    ghost view = { λ w. words_left w.rest };
}

impl<'a> Words<'a> {
    /// All words of the line.
    pub(crate) fn new(line: &'a str) -> Words<'a>
        ensures { result ≡ words line.now }
    {
        Words { rest: Some(line) }
    }

    /// Takes the next word. `WrongWords` where there is none.
    pub(crate) fn next_word(&mut self) -> Read<&'a str>
        ensures { MatchResult result (λ word. self.old ≡ word.now ∷ self.new)
            (λ fault. (self.old ≡ []) × (self.new ≡ []) × (fault ≡ LineFault.WrongWords)) }
    {
        let Some(rest) = self.rest else {
            return Err(LineFault::WrongWords);
        };
        let (word, after) = first_piece(rest, ' ');
        self.rest = after;
        Ok(word)
    }

    /// The one word that is left. `WrongWords` where there are none or more.
    pub(crate) fn one(mut self) -> Read<&'a str>
        ensures { MatchResult result (λ word. takes_one self.entry (Ok word.now)) (λ fault. takes_one self.entry (Err fault)) }
    {
        let word = self.next_word()?;
        self.end()?;
        Ok(word)
    }

    /// The two words that are left. `WrongWords` where there are fewer or more.
    pub(crate) fn two(mut self) -> Read<(&'a str, &'a str)>
        ensures { MatchResult result (λ ws. takes_two self.entry (Ok (ws.0.now, ws.1.now))) (λ fault. takes_two self.entry (Err fault)) }
    {
        let first = self.next_word()?;
        let second = self.next_word()?;
        self.end()?;
        Ok((first, second))
    }

    /// The three words that are left. `WrongWords` where there are fewer or more.
    pub(crate) fn three(mut self) -> Read<(&'a str, &'a str, &'a str)>
        ensures { MatchResult result (λ ws. takes_three self.entry (Ok (ws.0.now, ws.1.now, ws.2.now))) (λ fault. takes_three self.entry (Err fault)) }
    {
        let first = self.next_word()?;
        let second = self.next_word()?;
        let third = self.next_word()?;
        self.end()?;
        Ok((first, second, third))
    }

    /// The two words that are left, and a third where it is there. `WrongWords` where there are fewer
    /// or more.
    pub(crate) fn two_or_three(mut self) -> Read<(&'a str, &'a str, Option<&'a str>)>
        ensures { MatchResult result (λ ws. takes_two_or_three self.entry (Ok (ws.0.now, ws.1.now, option_copied ws.2))) (λ fault. takes_two_or_three self.entry (Err fault)) }
    {
        let first = self.next_word()?;
        let second = self.next_word()?;
        let third = self.last_word()?;
        Ok((first, second, third))
    }

    /// The one word that is left, where there is one. `WrongWords` where there are more.
    fn last_word(mut self) -> Read<Option<&'a str>>
        ensures { MatchResult result (λ word. takes_at_most_one self.entry (Ok (option_copied word))) (λ fault. takes_at_most_one self.entry (Err fault)) }
    {
        let Ok(word) = self.next_word() else {
            return Ok(None);
        };
        self.end()?;
        Ok(Some(word))
    }

    /// All that is left as one text, with its spaces. `WrongWords` where no word is left.
    pub(crate) fn text(self) -> Read<&'a str>
        ensures { MatchResult result (λ text. (text.now ≡ unwords self.entry) × (self.entry ≢ []))
            (λ fault. (self.entry ≡ []) × (fault ≡ LineFault.WrongWords)) }
    {
        match self.rest {
            Some(rest) => Ok(rest),
            None => Err(LineFault::WrongWords),
        }
    }

    /// All that is left as one text, with its spaces; empty where no word is left.
    pub(crate) fn text_or_empty(self) -> &'a str
        ensures { result.now ≡ unwords self.entry }
    {
        match self.rest {
            Some(rest) => rest,
            None => "",
        }
    }

    /// `WrongWords` where a word is left.
    fn end(self) -> Read<()>
        ensures exact { IsOk result ↔ (self.entry ≡ []) }
        ensures fault { IfErr result (λ fault. fault ≡ LineFault.WrongWords) }
    {
        match self.rest {
            Some(_) => Err(LineFault::WrongWords),
            None => Ok(()),
        }
    }
}
