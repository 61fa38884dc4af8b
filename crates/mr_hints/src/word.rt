//! Words of a line, and what each has to be.
use crate::command::{carriage_return, usage_of};
use crate::shown::shown;
use mr_command::LineFault;
use mr_mail::{Day, Flag, Label};
use mr_version::{AUTHORS, Version};
use std::alloc::{AllocError, Global};

/// The word for a list of nothing.
const NONE: &str = ".";

/// What a word of a line has to be.
#[derive(Clone, Copy)]
enum Kind {
    Id,
    Number,
    Request,
    Record,
    Receipt,
    Frame,
    Subscriber,
    Version,
    Versions,
    Labels,
    Flags,
    Date,
    /// Anything.
    Text,
}

impl Kind {
    /// What stands where a command's usage has this word.
    fn at(usage_word: &str) -> Kind {
        match usage_word {
            "ID" | "R" | "T" | "S" => Kind::Id,
            "LIMIT" | "CAP" | "N" | "[N]" | "BYTES" => Kind::Number,
            "Qn" => Kind::Request,
            "Pn" => Kind::Record,
            "Rn" => Kind::Receipt,
            "Qn|Pn|Rn" => Kind::Frame,
            "indexer|notifier" => Kind::Subscriber,
            "V" => Kind::Version,
            "BASES" => Kind::Versions,
            "LABELS" => Kind::Labels,
            "FLAGS" => Kind::Flags,
            "DATE" => Kind::Date,
            _ => Kind::Text,
        }
    }

    /// Whether a word that is not such has this fault.
    fn has_fault(self, fault: LineFault) -> bool {
        match self {
            Kind::Id
            | Kind::Number
            | Kind::Request
            | Kind::Record
            | Kind::Receipt
            | Kind::Frame
            | Kind::Subscriber => fault == LineFault::BadNumber,
            Kind::Version | Kind::Versions => fault == LineFault::BadVersion,
            Kind::Labels => matches!(fault, LineFault::MessageRefused { .. }),
            Kind::Flags => fault == LineFault::BadFlags,
            Kind::Date => fault == LineFault::BadDate,
            Kind::Text => false,
        }
    }

    /// What stands between the parts of such a word, if it is a list.
    fn separator(self) -> Option<char> {
        match self {
            Kind::Versions | Kind::Labels => Some(','),
            Kind::Flags => Some('+'),
            _ => None,
        }
    }

    /// Whether the word, or the part of a list, is such.
    fn is_met_by(self, word: &str) -> bool {
        match self {
            Kind::Id => number_of(word).is_some_and(|id| id < AUTHORS as u64),
            Kind::Number => number_of(word).is_some(),
            Kind::Request => is_frame(word, 'Q'),
            Kind::Record => is_frame(word, 'P'),
            Kind::Receipt => is_frame(word, 'R'),
            Kind::Frame => is_frame(word, 'Q') || is_frame(word, 'P') || is_frame(word, 'R'),
            Kind::Subscriber => word == "indexer" || word == "notifier",
            Kind::Version | Kind::Versions => Version::read(word).is_ok(),
            Kind::Labels => Label::admits(word),
            Kind::Flags => Flag::from_name(word).is_some(),
            Kind::Date => Day::read(word).is_ok(),
            Kind::Text => true,
        }
    }

    /// What such a word is called.
    fn noun(self) -> &'static str {
        match self {
            Kind::Id => "no replica's id",
            Kind::Number => "no number",
            Kind::Request => "no request",
            Kind::Record => "no record",
            Kind::Receipt => "no receipt",
            Kind::Frame => "no frame",
            Kind::Subscriber => "no subscriber",
            Kind::Version | Kind::Versions => "no version",
            Kind::Labels => "no label",
            Kind::Flags => "no flag",
            Kind::Date => "no date",
            Kind::Text => "not wanted here",
        }
    }

    /// How such a word is written.
    fn rule(self) -> &'static str {
        match self {
            Kind::Id => "write 0 to 63, without leading zeros",
            Kind::Number => "write it in decimal, without a sign or leading zeros",
            Kind::Request => "write Q and its number, as Q1",
            Kind::Record => "write P and its number, as P1",
            Kind::Receipt => "write R and its number, as R1",
            Kind::Frame => "write Q1 for a request, P1 for a record, R1 for a receipt",
            Kind::Subscriber => "write indexer or notifier",
            Kind::Version => "write the replica's id, a dot and a number from 1, as 0.1",
            Kind::Versions => "write versions as 0.1; a comma joins them",
            Kind::Labels => "a label has 1 to 32 of a-z, 0-9 and -; a comma joins labels",
            Kind::Flags => {
                "flags are seen, answered, flagged, draft and deleted; a plus joins them, and a dot is none"
            }
            Kind::Date => "write YYYY-MM-DD, as 2026-01-05, from 1970-01-01 to 2149-06-06",
            Kind::Text => "leave it out",
        }
    }
}

/// What is wrong with the line's first word that has the fault.
pub(crate) fn wrong_word(
    alloc: Global,
    line: &str,
    fault: LineFault,
) -> Result<String, AllocError> {
    let (kind, word) = first_wrong(line, fault);
    if word.ends_with('\r') {
        return carriage_return(alloc);
    }
    let (noun, rule) = (kind.noun(), kind.rule());
    let part = shown(alloc, wrong_part(kind, word))?;
    format!(in alloc; "{part} is {noun}: {rule}")
}

/// The line's first word that has the fault, and what it has to be.
fn first_wrong(line: &str, fault: LineFault) -> (Kind, &str) {
    let usage = usage_of(line).unwrap_or("");
    for (wanted, word) in usage.split(' ').zip(line.split(' ')) {
        let kind = Kind::at(wanted);
        if kind.has_fault(fault) && !is_met(kind, word) {
            return (kind, word);
        }
    }
    (Kind::Text, line)
}

/// Whether the word is what it has to be: of a list, each part.
fn is_met(kind: Kind, word: &str) -> bool {
    match kind.separator() {
        Some(separator) => word == NONE || word.split(separator).all(|part| kind.is_met_by(part)),
        None => kind.is_met_by(word),
    }
}

/// The first part of a list that is wrong, and all of another word.
fn wrong_part(kind: Kind, word: &str) -> &str {
    let Some(separator) = kind.separator() else {
        return word;
    };
    for part in word.split(separator) {
        if !kind.is_met_by(part) {
            return part;
        }
    }
    word
}

/// Whether the word is this letter and a number.
fn is_frame(word: &str, letter: char) -> bool {
    match word.strip_prefix(letter) {
        Some(number) => number_of(number).is_some(),
        None => false,
    }
}

/// The number below 2^64 that the word spells in decimal, without a sign or leading zeros.
fn number_of(word: &str) -> Option<u64> {
    if word.starts_with('+') || (word.starts_with('0') && word.len() > 1) {
        return None;
    }
    word.parse().ok()
}
