//! Mails that were edited in place are told of.
use crate::fault::Fault;
use std::alloc::{AllocError, Global};

/// Tells on standard error how many mails were edited in place, behind the word `note`.
pub fn tell_edited<R: Eprint + AllocGlobal>(rt: &R, count: usize) -> Result<(), Fault> {
    tell_behind(rt, "note", count)
}

/// Tells on standard error how many mails of this replica's folder were edited in place: two of them may tell it in one place.
pub fn tell_edited_by<R: Eprint + AllocGlobal>(rt: &R, id: u16, count: usize) -> Result<(), Fault> {
    let word = format!(in rt.alloc(); "replica {id}")?;
    tell_behind(rt, word.as_str(), count)
}

/// Tells it behind this word, if there are any.
fn tell_behind<R: Eprint + AllocGlobal>(rt: &R, word: &str, count: usize) -> Result<(), Fault> {
    if let Some(text) = edited_text(rt.alloc(), count)? {
        let text = text.as_str();
        eprintln!(rt; "{word}: {text}")?;
    }
    Ok(())
}

/// That so many mails were edited in place, and what becomes of them; `None` for no mail.
fn edited_text(alloc: Global, count: usize) -> Result<Option<String>, AllocError> {
    let text = match count {
        0 => return Ok(None),
        1 => format!(in alloc;
            "1 mail was edited in place: it counts as a new one, and the old one comes back by a sync"
        )?,
        _ => format!(in alloc;
            "{count} mails were edited in place: they count as new ones, and the old ones come back by a sync"
        )?,
    };
    Ok(Some(text))
}
