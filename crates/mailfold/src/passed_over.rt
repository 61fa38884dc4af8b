//! What of a folder isn't shown is told.
use crate::fault::Fault;
use crate::words::push_word;
use mr_fold::{PassedOver, layout_name};
use mr_folder::FolderPath;
use mr_maildir::{Layout, printable};
use std::alloc::{AllocError, Global};

/// Tells on standard error what of a folder isn't shown, behind the word `note`.
pub fn tell_passed_over<R: Eprint + AllocGlobal>(
    rt: &R,
    passed_over: &PassedOver,
) -> Result<(), Fault> {
    tell_behind(rt, "note", passed_over)
}

/// Tells on standard error what of this replica's folder isn't shown: two of them may tell it in one place.
pub fn tell_passed_over_by<R: Eprint + AllocGlobal>(
    rt: &R,
    id: u16,
    passed_over: &PassedOver,
) -> Result<(), Fault> {
    let word = format!(in rt.alloc(); "replica {id}")?;
    tell_behind(rt, word.as_str(), passed_over)
}

/// Tells what isn't shown behind this word, as a terminal may show it: a line for each reason that there is.
fn tell_behind<R: Eprint + AllocGlobal>(
    rt: &R,
    word: &str,
    passed_over: &PassedOver,
) -> Result<(), Fault> {
    for text in passed_over_texts(rt.alloc(), passed_over)? {
        let text = printable(rt.alloc(), text.as_str())?;
        let text = text.as_str();
        eprintln!(rt; "{word}: {text}")?;
    }
    Ok(())
}

/// What isn't shown: a text for each reason that there is.
fn passed_over_texts(alloc: Global, passed_over: &PassedOver) -> Result<Vec<String>, AllocError> {
    let mut texts = Vec::new(alloc);
    let layout = layout_name(passed_over.layout);
    let why = format!(in alloc; "as the layout is {layout}")?;
    let (without, doubled) = parted(alloc, passed_over.layout, &passed_over.folders)?;
    if let Some(text) = folders_text(alloc, &without, why.as_str())? {
        texts.push(text)?;
    }
    if let Some(text) = folders_text(alloc, &doubled, "as another one has the label")? {
        texts.push(text)?;
    }
    if let Some(text) = names_text(alloc, passed_over.names)? {
        texts.push(text)?;
    }
    Ok(texts)
}

/// The folders at whose paths the layout has none, and the others.
fn parted<'a>(
    alloc: Global,
    layout: Layout,
    folders: &'a [FolderPath],
) -> Result<(Vec<&'a str>, Vec<&'a str>), AllocError> {
    let mut without = Vec::new(alloc);
    let mut others = Vec::new(alloc);
    for folder in folders {
        let path = folder.as_str();
        match layout.folder_at(alloc, path)? {
            None => without.push(path)?,
            Some(_) => others.push(path)?,
        }
    }
    Ok((without, others))
}

/// That these folders aren't shown, and why; `None` for no folder.
fn folders_text(alloc: Global, folders: &[&str], why: &str) -> Result<Option<String>, AllocError> {
    let mut names = String::new(alloc);
    for folder in folders {
        push_word(&mut names, ", ", folder)?;
    }
    let names = names.as_str();
    let text = match folders.len() {
        0 => return Ok(None),
        1 => format!(in alloc; "1 folder isn't shown, {why}: {names}")?,
        count => format!(in alloc; "{count} folders aren't shown, {why}: {names}")?,
    };
    Ok(Some(text))
}

/// That so many names stand for no mail's file; `None` for no name.
fn names_text(alloc: Global, count: u64) -> Result<Option<String>, AllocError> {
    let text = match count {
        0 => return Ok(None),
        1 => format!(in alloc;
            "1 name in the folders isn't UTF-8 or is no file: it is passed over"
        )?,
        _ => format!(in alloc;
            "{count} names in the folders aren't UTF-8 or are no files: they are passed over"
        )?,
    };
    Ok(Some(text))
}
