//! Parts of a message as words.
use mr_mail::{Flags, Label};
use std::alloc::{AllocError, Global};

/// The labels with commas between them, or a dot for none.
pub fn labels_text(alloc: Global, labels: &[Label]) -> Result<String, AllocError> {
    let mut text = String::new(alloc);
    for label in labels {
        push_word(&mut text, ",", label.as_str())?;
    }
    or_dot(text)
}

/// The names of the flags with `+` between them, or a dot for none.
pub fn flags_text(alloc: Global, flags: Flags) -> Result<String, AllocError> {
    let mut text = String::new(alloc);
    for flag in flags.list(alloc)? {
        push_word(&mut text, "+", flag.name())?;
    }
    or_dot(text)
}

/// Appends a word, behind the separator where one stands before it.
pub fn push_word(text: &mut String, separator: &str, word: &str) -> Result<(), AllocError> {
    if !text.is_empty() {
        text.push_str(separator)?;
    }
    text.push_str(word)
}

/// The text, or a dot where it is empty.
fn or_dot(mut text: String) -> Result<String, AllocError> {
    if text.is_empty() {
        text.push_str(".")?;
    }
    Ok(text)
}
