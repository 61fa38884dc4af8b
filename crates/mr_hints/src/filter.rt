//! Where a filter's text is wrong.
use crate::command::carriage_return;
use crate::shown::shown;
use std::alloc::{AllocError, Global};

/// How many words stand before a filter: the command, the id, the limit and the capacity.
const WORDS_BEFORE: usize = 4;

/// What is wrong with the filter of a line that makes a replica: its piece with so many bytes of the filter before it.
pub(crate) fn bad_filter(alloc: Global, line: &str, place: usize) -> Result<String, AllocError> {
    let filter = filter_of(line);
    let piece = piece_at(filter, place);
    if piece.ends_with('\r') {
        return carriage_return(alloc);
    }
    let before = line.len().saturating_sub(filter.len());
    let byte = before.saturating_add(place).saturating_add(1);
    let rule = rule_for(piece);
    let piece = shown(alloc, piece)?;
    format!(in alloc; "at byte {byte} of the line, {piece} is no condition: {rule}")
}

/// What stands behind the words before a filter.
fn filter_of(line: &str) -> &str {
    line.splitn(WORDS_BEFORE + 1, ' ')
        .nth(WORDS_BEFORE)
        .unwrap_or("")
}

/// The piece of the filter at the place: all up to the next ` & ` or ` | `.
fn piece_at(filter: &str, place: usize) -> &str {
    let rest = filter.get(place..).unwrap_or("");
    before(before(rest, " & "), " | ")
}

/// What stands before the separator; all where there is none.
fn before<'a>(text: &'a str, separator: &str) -> &'a str {
    match text.split_once(separator) {
        Some((piece, _)) => piece,
        None => text,
    }
}

/// How a piece that begins like this one is written.
fn rule_for(piece: &str) -> &'static str {
    let wanted = piece.strip_prefix('!').unwrap_or(piece);
    if wanted == "all" || wanted == "none" {
        return "all stands alone in its clause, and none alone in the filter";
    }
    if wanted.contains('&') || wanted.contains('|') {
        return "a space stands before and behind each & and |";
    }
    if wanted.starts_with("label:") {
        return "a label has 1 to 32 of a-z, 0-9 and -";
    }
    if wanted.starts_with("flag:") {
        return "flags are seen, answered, flagged, draft and deleted";
    }
    if wanted.starts_with("since:") {
        return "write since:2026-01-05, from 1970-01-01 to 2149-06-06";
    }
    "write label:L, !label:L, flag:F, !flag:F or since:DATE; & joins them in a clause, and | joins clauses"
}
