//! Words of a line as a hint shows them.
use std::alloc::{AllocError, Global};

/// How many characters of a word are shown.
const MOST_SHOWN: usize = 40;

/// The word in quotes, with escapes for what can't be printed. Of a long one the beginning, and two dots.
pub(crate) fn shown(alloc: Global, word: &str) -> Result<String, AllocError> {
    let end = word.char_indices().nth(MOST_SHOWN);
    match end.and_then(|(end, _)| word.get(..end)) {
        Some(beginning) => format!(in alloc; "{beginning:?}.."),
        None => format!(in alloc; "{word:?}"),
    }
}
