//! Words of elements that this program doesn't know.
ghost use Rattle.std.specs.Prelude.{◌≡◌, ◌↔◌, IfOk, IsSome, IfSome, IsTrue, string_bytes};
ghost use Rattle.std.specs.List.{list_all};
ghost use Rattle.mr_joins.specs.Word as specs;

use mr_mail::Label;
use std::alloc::{AllocError, Global};
use std::marker::Model;

/// The most bytes of a word.
pub const MAX_WORD_BYTES: usize = 200;

/// The word of an element that is neither a flag nor a folder, as a tag of another program: 1 to 200 bytes of `!` to `~`, which are neither the letter of
/// a flag (`D`, `F`, `R`, `S`, `T`) nor a label.
#[derive(Debug, Drop)]
pub struct Word {
    text: String,
}

impl Model for Word {
    ghost use Rattle.std.specs.Prelude.{ℕ, List, IsTrue, string_bytes};
    ghost use Rattle.mr_joins.specs.Word.{is_word};

    ghost Value = { List ℕ };

    ghost view = { λ w. string_bytes w.text };

    ghost invariant = { λ w. IsTrue (is_word (string_bytes w.text)) };
}

impl Word {
    /// Whether the text is a word.
    pub fn admits(text: &str) -> bool
        ensures { result ≡ specs.is_word text.now }
    {
        1 <= text.len()
            && text.len() <= MAX_WORD_BYTES
            && are_graphic(text.as_bytes())
            && !is_flag_letter(text)
            && !Label::admits(text)
    }

    /// The word of this text; none where the text is no word.
    pub fn read(alloc: Global, text: &str) -> Result<Option<Word>, AllocError>
        ensures exact { IfOk result (λ word. IsSome word ↔ IsTrue (specs.is_word text.now)) }
        ensures value { IfOk result (λ word. IfSome word (λ w. w ≡ text.now)) }
    {
        if !Word::admits(text) {
            return Ok(None);
        }
        let own = String::from_str(alloc, text)?;
        Ok(Some(Word { text: own }))
    }

    /// The word's text.
    pub fn as_str(&self) -> &str
        ensures value { result.now ≡ self.now }
        ensures is_word { IsTrue (specs.is_word self.now) }
    {
        self.text.as_str()
    }

    /// An equal word.
    pub fn copy(&self, alloc: Global) -> Result<Word, AllocError>
        ensures { IfOk result (λ word. word ≡ self.now) }
    {
        Ok(Word {
            text: String::from_str(alloc, self.text.as_str())?,
        })
    }
}

/// Whether each byte is graphic.
fn are_graphic(bytes: &[u8]) -> bool
    ensures { result ≡ list_all specs.is_graphic bytes.now }
{
    bytes.iter().all(|byte| is_graphic(*byte))
}

/// Whether the byte is one of `!` to `~`.
fn is_graphic(byte: u8) -> bool
    ensures { result ≡ specs.is_graphic byte }
{
    matches!(byte, b'!'..=b'~')
}

/// Whether the text is the letter of a flag.
fn is_flag_letter(text: &str) -> bool
    ensures { result ≡ specs.is_flag_letter text.now }
{
    text == "D" || text == "F" || text == "R" || text == "S" || text == "T"
}
