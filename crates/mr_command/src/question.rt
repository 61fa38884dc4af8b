//! Lines that ask what there is.
ghost use Rattle.mr_command.specs.Question.{reads_text, reads_bytes, reads_index};

use crate::Read;
use crate::command::Question;
use crate::named::{read_frame, read_pool};
use crate::roster::Roster;
use crate::shape::read_two;
use crate::words::Words;
use std::alloc::Global;

/// `Qn`, `Pn` or `Rn`
pub(crate) fn read_bytes<R: Roster>(words: Words, roster: &R) -> Read<Question>
    ensures { reads_bytes (R.scene roster.now) words.entry result }
{
    let frame = words.one()?;
    let pool = read_pool(frame)?;
    let number = read_frame(pool, frame, roster)?;
    Ok(Question::Bytes(pool, number))
}

/// `R LABEL`, of which LABEL may be any word.
pub(crate) fn read_index<R: Roster>(alloc: Global, words: Words, roster: &R) -> Read<Question>
    ensures { reads_index (R.scene roster.now) words.entry result }
{
    let read = read_two(words, roster, |label| read_text(alloc, label));
    read.map(|(id, label)| Question::Index(id, label))
}

/// Any word, as it stands.
fn read_text(alloc: Global, word: &str) -> Read<String>
    ensures { reads_text word.now result }
{
    Ok(String::from_str(alloc, word)?)
}
