//! Views as text: `-` for none, else the labels with commas between them, a colon, and the letters of the flags.
use anyhow::Result;
use mr_mail::{Flags, Label};
use mr_maildir::{View, flags_of, letters_with};
use std::alloc::Global;

/// The view of a text.
pub fn view_of(alloc: Global, text: &str) -> Result<Option<View>> {
    let Some((names, letters)) = text.split_once(':') else {
        return Ok(None);
    };
    Ok(Some(View::of_labels(labels_of(alloc, names)?, flags_of(letters))))
}

/// The labels of a text.
fn labels_of(alloc: Global, names: &str) -> Result<Vec<Label>> {
    let mut labels = Vec::new(alloc);
    for name in names.split(',') {
        if !name.is_empty() {
            labels.push(Label::read(name)?)?;
        }
    }
    Ok(labels)
}

/// The text of a view.
pub fn text_of(alloc: Global, view: &View) -> Result<String> {
    let mut text = String::new(alloc);
    for label in view.labels() {
        if !text.is_empty() {
            text.push(',')?;
        }
        text.push_str(label.as_str())?;
    }
    text.push(':')?;
    text.push_str(letters_of(alloc, view.flags())?.as_str())?;
    Ok(text)
}

/// The letters of flags.
fn letters_of(alloc: Global, flags: Flags) -> Result<String> {
    Ok(letters_with(alloc, "", flags)?)
}
