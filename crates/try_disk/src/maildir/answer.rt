//! What a case answers.
//!
//! | Call | Answer |
//! |---|---|
//! | `name NAME` | the unique part of a file's name, ` \| `, and the letters, or `none` |
//! | `safe NAME` | whether a name may be taken from others |
//! | `letters OLD NEW` | the letters of a file with the letters OLD once its flags are those that NEW tells |
//! | `label NAME` | the label of a folder |
//! | `folder LABEL NAME` | the name of the label's folder, where NAME was told of it; `-` for none |
//! | `body TEXT` | what a body tells, with ` / ` for each newline: size, name, and the folder of the label `f-1`; or `none` |
//! | `told NAME FOLDER` | the lines of a body that tell these, with ` / ` for each newline |
//! | `acts VIEW NAME FILES` | what is done with the files of a mail that was told this name (see the module `files`); `-` for none |
//! | `path dots\|plain LABEL NAME` | the path of the label's folder, where NAME was told of it; `-` for none |
//! | `at dots\|plain PATH` | the name of the folder at a path, or `none` |
//! | `header TEXT` | sender, subject, Message-ID and day, where ` / ` stands for a newline and ` // ` for one with a return |
//! | `list VERSION VIEW DAY TEXT` | the line of a mail with this header, with ` \| ` for each tab |
//! | `printable TEXT` | the text as it is printed |
//! | `act LEFT SEEN HELD` | what is done for a mail of these views (see the module `view`) |
use crate::maildir::files;
use crate::maildir::view::{text_of, view_of};
use anyhow::Result;
use mr_mail::Label;
use mr_maildir::{
    Act, View, flags_of, folder_label, folder_name, is_safe_name, letters_with, next_act,
    read_name, read_reference, told_folder, told_name, with_told_folder, with_told_name,
};
use std::alloc::Global;

/// What the line answers.
pub fn answer(alloc: Global, line: &str) -> Result<String> {
    let (call, words) = line.split_once(' ').unwrap_or((line, ""));
    match call {
        "name" => name(alloc, words),
        "safe" => Ok(format!(in alloc; "{}", is_safe_name(words))?),
        "letters" => letters(alloc, words),
        "label" => Ok(String::from_str(alloc, folder_label(alloc, words)?.as_str())?),
        "folder" => folder(alloc, words),
        "body" => body(alloc, words),
        "told" => told(alloc, words),
        "act" => act(alloc, words),
        "acts" => files::acts(alloc, words),
        "path" => files::path(alloc, words),
        "at" => files::folder_at(alloc, words),
        "header" => files::header(alloc, words),
        "list" => files::line(alloc, words),
        "printable" => files::printed(alloc, words),
        _ => Ok(String::from_str(alloc, "no call")?),
    }
}

/// The two words of a text.
fn two(words: &str) -> (&str, &str) {
    words.split_once(' ').unwrap_or((words, ""))
}

fn name(alloc: Global, text: &str) -> Result<String> {
    let name = read_name(text);
    let unique = name.unique;
    let letters = name.letters.unwrap_or("none");
    Ok(format!(in alloc; "{unique} | {letters}")?)
}

fn letters(alloc: Global, words: &str) -> Result<String> {
    let (old, new) = two(words);
    Ok(letters_with(alloc, old, flags_of(new))?)
}

fn folder(alloc: Global, words: &str) -> Result<String> {
    let (label, told) = two(words);
    let told = if told == "-" { None } else { Some(told) };
    Ok(folder_name(alloc, &Label::read(label)?, told)?)
}

fn body(alloc: Global, words: &str) -> Result<String> {
    let text = words.replace(alloc, " / ", "\n")?;
    body_told(alloc, text.as_bytes())
}

/// What a body tells.
fn body_told(alloc: Global, text: &[u8]) -> Result<String> {
    let Some(reference) = read_reference(text) else {
        return Ok(String::from_str(alloc, "none")?);
    };
    let size = reference.size;
    let name = told_name(reference.lines).unwrap_or("-");
    let folder = told_folder(alloc, reference.lines, &Label::read("f-1")?)?.unwrap_or("-");
    Ok(format!(in alloc; "{size} {name} {folder}")?)
}

fn told(alloc: Global, words: &str) -> Result<String> {
    let (name, folder) = two(words);
    let lines = with_told_name(alloc, "other\n", name)?;
    let lines = with_told_folder(alloc, lines.as_str(), &Label::read("f-1")?, folder)?;
    Ok(lines.as_str().replace(alloc, "\n", " / ")?)
}

fn act(alloc: Global, words: &str) -> Result<String> {
    let (left, rest) = two(words);
    let (seen, held) = two(rest);
    let left = view_of(alloc, left)?;
    let seen = view_of(alloc, seen)?;
    let held = view_of(alloc, held)?;
    act_of(alloc, left.as_ref(), seen.as_ref(), held.as_ref())
}

/// What is done for a mail of these views.
fn act_of(
    alloc: Global,
    left: Option<&View>,
    seen: Option<&View>,
    held: Option<&View>,
) -> Result<String> {
    let act = next_act(alloc, left, seen, held)?;
    let text = act_text(alloc, &act);
    drop(act);
    text
}

/// The text of an act.
fn act_text(alloc: Global, act: &Act) -> Result<String> {
    let word = match act {
        Act::Edit(view) => return edit_text(alloc, view),
        Act::Agree => "agree",
        Act::Create => "create",
        Act::Delete => "delete",
        Act::Follow => "follow",
        Act::Remove => "remove",
    };
    Ok(String::from_str(alloc, word)?)
}

/// An edit that makes the mail of this view.
fn edit_text(alloc: Global, view: &View) -> Result<String> {
    let text = text_of(alloc, view)?;
    Ok(format!(in alloc; "edit {text}")?)
}
