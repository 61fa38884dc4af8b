//! The line of a message, with its line feed.
ghost use Rattle.std.specs.Prelude.{◌≡◌, IfOk, OnOk, ◌++◌, map, codes, string_bytes};
ghost use Rattle.mr_script.specs.Show.{flags_text, joined, subject_text, shown_words, Shows};

use crate::Grown;
use mr_mail::{Flags, Label};
use mr_replica::Revision;
use mr_version::Version;
use std::alloc::Global;

/// `not held`
pub(crate) fn not_held_line(alloc: Global) -> Grown<String>
    ensures { IfOk result (λ line. string_bytes line ≡ codes "not held\n") }
{
    String::from_str(alloc, "not held\n")
}

/// `show V LABELS FLAGS DATE FROM SUBJECT`. An empty subject has no space before it, and the body is
/// not shown.
pub(crate) fn show_line(alloc: Global, revision: &Revision) -> Grown<String>
    ensures { IfOk result (λ line. Shows revision.now (string_bytes line)) }
{
    let message = revision.message();
    let labels = joined_labels(alloc, message.labels())?;
    let flags = joined_flags(alloc, message.flags())?;
    let date = message.day().text(alloc)?;
    let (labels, flags, date) = (labels.as_str(), flags.as_str(), date.as_str());
    let mut line = show_words(
        alloc,
        revision.version(),
        labels,
        flags,
        date,
        message.from(),
    )?;
    push_subject(&mut line, message.subject())?;
    line.push('\n')?;
    Ok(line)
}

/// `show V LABELS FLAGS DATE FROM`
fn show_words(
    alloc: Global,
    version: Version,
    labels: &str,
    flags: &str,
    date: &str,
    from: &str,
) -> Grown<String>
    ensures { IfOk result (λ line. string_bytes line
        ≡ shown_words version labels.now flags.now date.now from.now) }
{
    format!(in alloc; "show {version} {labels} {flags} {date} {from}")
}

/// Adds a subject after a space, if it is not empty.
fn push_subject(line: &mut String, subject: &str) -> Grown<()>
    ensures { OnOk result
        (string_bytes line.new ≡ string_bytes line.old ++ subject_text subject.now) }
{
    if subject.is_empty() {
        return Ok(());
    }
    line.push(' ')?;
    line.push_str(subject)
}

/// The labels joined by `,`, or a dot where there is none.
fn joined_labels(alloc: Global, labels: &[Label]) -> Grown<String>
    ensures { IfOk result (λ text. string_bytes text ≡ joined (codes ",") labels.now) }
{
    let mut texts = Vec::with_capacity(alloc, labels.len())?;
    for label in labels {
        texts.push(label.as_str())?;
    }
    joined_text(alloc, texts.as_slice(), ",")
}

/// The names of the flags joined by `+`, or a dot where there is none.
fn joined_flags(alloc: Global, flags: Flags) -> Grown<String>
    ensures { IfOk result (λ text. string_bytes text ≡ flags_text flags) }
{
    let set = flags.list(alloc)?;
    let mut names = Vec::with_capacity(alloc, set.len())?;
    for flag in &set {
        names.push(flag.name())?;
    }
    joined_text(alloc, names.as_slice(), "+")
}

/// The texts with the separator between each two, or a dot where there is none.
fn joined_text(alloc: Global, texts: &[&str], separator: &str) -> Grown<String>
    ensures { IfOk result (λ text. string_bytes text
        ≡ joined separator.now (map (λ t. t.now) texts.now)) }
{
    let Some((first, others)) = texts.split_first() else {
        return String::from_str(alloc, ".");
    };
    let mut joined = String::from_str(alloc, first)?;
    for text in others {
        joined.push_str(separator)?;
        joined.push_str(text)?;
    }
    Ok(joined)
}
