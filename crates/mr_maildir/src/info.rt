//! What stands behind the unique part of a file's name.
ghost use Rattle.std.specs.Prelude.{◌≡◌, ◌∷◌, [], IfOk};
ghost use Rattle.std.specs.Option.{option_copied};
ghost use Rattle.mr_maildir.specs.Name.{info_text};

use arrayvec::ArrayString;
use std::alloc::{AllocError, Global};
use std::marker::Model;

/// What the letters of a name stand behind.
pub(crate) const INFO_KEY: &str = ":2,";

/// The most bytes that lie in the value. With more than 16 a file would be larger.
const SHORT_BYTES: usize = 16;

/// The most letters that lie in the value, behind `:2,`.
const SHORT_LETTERS: usize = 13;

/// What stands behind the unique part of a name: nothing, or `:2,` and the letters. It takes memory of its own only
/// where it has more than 13 letters.
#[derive(Debug, Drop)]
pub(crate) struct Info {
    text: InfoText,
}

/// Where its bytes lie: in the value, or in memory of their own.
#[derive(Debug, Drop)]
enum InfoText {
    Short(ArrayString<SHORT_BYTES>),
    Long(String),
}

impl Model for Info {
    ghost use Rattle.std.specs.Prelude.{ℕ, List};
    ghost use Rattle.mr_maildir.specs.inner.Info.{held_bytes};

    ghost Value = { List ℕ };

    ghost view = { λ i. held_bytes i.text };
}

impl Info {
    /// Nothing. It asks for no memory.
    pub(crate) fn empty() -> Info
        ensures { result ≡ [] }
    {
        Info {
            text: InfoText::Short(ArrayString::new()),
        }
    }

    /// `:2,` and the letters, or nothing.
    pub(crate) fn new(alloc: Global, letters: Option<&str>) -> Result<Info, AllocError>
        ensures { IfOk result (λ info. info ≡ info_text (option_copied letters.entry)) }
    {
        match letters {
            Some(letters) => Info::with_letters(alloc, letters),
            None => Ok(Info::empty()),
        }
    }

    /// `:2,` and the letters.
    pub(crate) fn with_letters(alloc: Global, letters: &str) -> Result<Info, AllocError>
        ensures { IfOk result (λ info. info ≡ 58 ∷ 50 ∷ 44 ∷ letters.now) }
    {
        if letters.len() <= SHORT_LETTERS {
            let mut text = ArrayString::new();
            text.push_str(INFO_KEY);
            text.push_str(letters);
            return Ok(Info {
                text: InfoText::Short(text),
            });
        }
        let mut text = String::from_str(alloc, INFO_KEY)?;
        text.push_str(letters)?;
        Ok(Info {
            text: InfoText::Long(text),
        })
    }

    /// An equal one.
    pub(crate) fn copy(&self, alloc: Global) -> Result<Info, AllocError>
        ensures { IfOk result (λ info. info ≡ self.now) }
    {
        let text = match &self.text {
            InfoText::Short(text) => InfoText::Short(*text),
            InfoText::Long(text) => InfoText::Long(String::from_str(alloc, text.as_str())?),
        };
        Ok(Info { text })
    }

    /// Its text.
    pub(crate) fn as_str(&self) -> &str
        ensures { result.now ≡ self.now }
    {
        match &self.text {
            InfoText::Short(text) => text.as_str(),
            InfoText::Long(text) => text.as_str(),
        }
    }
}
