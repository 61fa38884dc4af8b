//! Files of a mail, folders, headers and lines of lists as text.
//!
//! A file is written as `LABEL/cur/NAME` or `LABEL/new/NAME`, and one of another mail with `!` before it.
use crate::maildir::view::view_of;
use anyhow::{Context, Result};
use mr_mail::{Day, Label};
use mr_maildir::{
    FileAct, Header, Layout, MailFile, View, file_acts, list_line, printable, read_header,
};
use mr_version::Version;
use sha2::{Digest, Sha256};
use std::alloc::Global;

/// The acts for a mail of this view, told name and files, with `; ` between them. The digest is that of no bytes.
pub fn acts(alloc: Global, words: &str) -> Result<String> {
    let (view, words) = words.split_once(' ').context("no view")?;
    let (told, words) = words.split_once(' ').context("no name")?;
    let view = view_of(alloc, view)?.unwrap_or(View::nowhere(alloc));
    acts_for(alloc, &view, told, words)
}

/// The acts for a mail of this view and told name, of these files.
fn acts_for(alloc: Global, view: &View, told: &str, words: &str) -> Result<String> {
    let seen = files_of(alloc, words, false)?;
    let taken = files_of(alloc, words, true)?;
    match file_acts(alloc, &seen, view, told, &Sha256::digest(b""), &taken) {
        Ok(acts) => acts_text(alloc, &acts),
        Err(fault) => Ok(format!(in alloc; "{fault}")?),
    }
}

/// The files of the mail, or those of others.
fn files_of(alloc: Global, words: &str, others: bool) -> Result<Vec<MailFile>> {
    let mut files = Vec::new(alloc);
    for word in words.split(' ') {
        let (is_other, word) = match word.strip_prefix('!') {
            Some(word) => (true, word),
            None => (false, word),
        };
        if is_other == others && word != "-" {
            files.push(file_of(alloc, word)?)?;
        }
    }
    Ok(files)
}

/// The file of a text.
fn file_of(alloc: Global, text: &str) -> Result<MailFile> {
    let (label, rest) = text.split_once('/').context("no label")?;
    let (part, name) = rest.split_once('/').context("no part")?;
    Ok(MailFile::read(alloc, &Label::read(label)?, part == "new", name)?)
}

/// The text of acts; `-` for none.
fn acts_text(alloc: Global, acts: &[FileAct]) -> Result<String> {
    let mut text = String::new(alloc);
    for act in acts {
        if !text.is_empty() {
            text.push_str("; ")?;
        }
        push_act(alloc, &mut text, act)?;
    }
    if text.is_empty() {
        text.push('-')?;
    }
    Ok(text)
}

/// Adds an act.
fn push_act(alloc: Global, text: &mut String, act: &FileAct) -> Result<()> {
    match act {
        FileAct::Link {
            from: Some(from),
            to,
        } => push_files(alloc, text, "link", &[from, to]),
        FileAct::Link { from: None, to } => push_files(alloc, text, "link store", &[to]),
        FileAct::Move { from, to } => push_files(alloc, text, "move", &[from, to]),
        FileAct::Remove { file } => push_files(alloc, text, "remove", &[file]),
    }
}

/// Adds these words, and files behind them.
fn push_files(alloc: Global, text: &mut String, words: &str, files: &[&MailFile]) -> Result<()> {
    text.push_str(words)?;
    for file in files {
        let path = file.path(alloc, file.label().as_str())?;
        write!(text, " {path}")?;
    }
    Ok(())
}

/// The layout that a word names.
fn layout_of(word: &str) -> Layout {
    if word == "dots" {
        Layout::Dots
    } else {
        Layout::Plain
    }
}

/// The path of the label's folder.
pub fn path(alloc: Global, words: &str) -> Result<String> {
    let (layout, words) = words.split_once(' ').context("no layout")?;
    let (label, told) = words.split_once(' ').context("no name")?;
    let told = if told == "-" { None } else { Some(told) };
    Ok(layout_of(layout).folder_path(alloc, &Label::read(label)?, told)?)
}

/// The name of the folder at a path.
pub fn folder_at(alloc: Global, words: &str) -> Result<String> {
    let (layout, path) = words.split_once(' ').context("no layout")?;
    match layout_of(layout).folder_at(alloc, path)? {
        Some(name) => Ok(name),
        None => Ok(String::from_str(alloc, "none")?),
    }
}

/// What a header has: sender, subject, Message-ID and day.
pub fn header(alloc: Global, words: &str) -> Result<String> {
    let header = header_of(alloc, words)?;
    let text = header_text(alloc, &header);
    drop(header);
    text
}

/// The text of a header.
fn header_text(alloc: Global, header: &Header) -> Result<String> {
    let (from, subject, id) = (
        header.from.as_str(),
        header.subject.as_str(),
        header.message_id.as_str(),
    );
    let day = match header.day {
        Some(day) => day.text(alloc)?,
        None => String::from_str(alloc, "no day")?,
    };
    Ok(format!(in alloc; "{from} | {subject} | {id} | {day}")?)
}

/// The header of a text, with ` / ` for each newline, and ` // ` for one with a return before it.
fn header_of(alloc: Global, words: &str) -> Result<Header> {
    let text = words.replace(alloc, " // ", "\r\n")?;
    let text = text.as_str().replace(alloc, " / ", "\n")?;
    Ok(read_header(alloc, text.as_bytes())?)
}

/// The line of a mail of this version, view, day and header, with ` | ` for each tab.
pub fn line(alloc: Global, words: &str) -> Result<String> {
    let (version, words) = words.split_once(' ').context("no version")?;
    let (view, words) = words.split_once(' ').context("no view")?;
    let (day, words) = words.split_once(' ').context("no day")?;
    let (version, day) = (Version::read(version)?, Day::read(day)?);
    let view = view_of(alloc, view)?.unwrap_or(View::nowhere(alloc));
    line_of(alloc, version, &view, day, words)
}

/// The line of a mail of these, where the header is a text.
fn line_of(alloc: Global, version: Version, view: &View, day: Day, header: &str) -> Result<String> {
    let header = header_of(alloc, header)?;
    let line = list_line(alloc, version, view, day, &header);
    drop(header);
    Ok(line?.as_str().replace(alloc, "\t", " | ")?)
}

/// The text as it is printed.
pub fn printed(alloc: Global, words: &str) -> Result<String> {
    Ok(printable(alloc, words)?)
}
