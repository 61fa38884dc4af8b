//! What a link does strangely, and when.
use crate::words::read_number;
use anyhow::{Context, Result, bail};

/// What a link does.
#[derive(Clone, Copy)]
pub enum What {
    /// What it has to do.
    Works,
    /// It is down.
    Fails,
    /// It lacks memory.
    Starves,
    /// It hands over a piece twice.
    Repeats,
    /// It hands over a piece behind the next one.
    Swaps,
    /// It hands over a piece with each `H` made a `J`.
    Spoils,
}

/// When it does so.
#[derive(Clone, Copy)]
pub enum When {
    /// At this call, the sends and receives of that end counted from 0.
    Call(u64),
    /// At each call.
    Each,
    /// At each piece that holds this byte.
    Holds(u8),
}

/// What a link does strangely.
#[derive(Clone, Copy)]
pub struct Strange {
    pub what: What,
    pub when: When,
}

impl Strange {
    /// Nothing.
    pub const NEVER: Strange = Strange {
        what: What::Works,
        when: When::Each,
    };

    /// What the words `WHAT WHEN` say; nothing strange where there are none.
    pub fn read(what: Option<&str>, when: Option<&str>) -> Result<Strange> {
        let Some(what) = what else {
            return Ok(Strange::NEVER);
        };
        Ok(Strange {
            what: read_what(what)?,
            when: read_when(when.context("a word is missing")?)?,
        })
    }

    /// What it does at this call.
    pub fn at_call(self, call: u64) -> What {
        match self.when {
            When::Call(at) if at == call => self.what,
            When::Each => self.what,
            _ => What::Works,
        }
    }

    /// What it does with a piece that this call receives.
    pub fn at_piece(self, call: u64, piece: &[u8]) -> What {
        match self.when {
            When::Holds(byte) if piece.contains(&byte) => self.what,
            _ => self.at_call(call),
        }
    }
}

/// What the word says that a link does.
pub fn read_what(word: &str) -> Result<What> {
    match word {
        "fails" => Ok(What::Fails),
        "starves" => Ok(What::Starves),
        "repeats" => Ok(What::Repeats),
        "swaps" => Ok(What::Swaps),
        "spoils" => Ok(What::Spoils),
        _ => bail!("no link does that: {word}"),
    }
}

/// When the word says that it does so: `each`, a call's number, or a character that is no digit.
fn read_when(word: &str) -> Result<When> {
    if word == "each" {
        return Ok(When::Each);
    }
    match word.as_bytes() {
        [byte] if !byte.is_ascii_digit() => Ok(When::Holds(*byte)),
        _ => Ok(When::Call(read_number(word)?)),
    }
}
