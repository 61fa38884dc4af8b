//! The words of a line, and the fault that is its answer.
use anyhow::{Context, Result};
use mr_version::Author;
use std::alloc::Global;
use std::fmt::Display;
use std::str::SplitWhitespace;

/// The words of a text.
pub fn words(text: &str) -> SplitWhitespace<'_> {
    text.split_whitespace()
}

/// The first word of a line, and what is behind it.
pub fn split_word(line: &str) -> (&str, &str) {
    line.split_once(' ').unwrap_or((line, ""))
}

/// The id that a word is.
pub fn read_id(word: &str) -> Result<Author> {
    let number = word.parse::<u16>().context("no id")?;
    Ok(Author::try_new(number)?)
}

/// The number that a word is.
pub fn read_number(word: &str) -> Result<u64> {
    word.parse::<u64>().context("no number")
}

/// The number of places, pieces or letters that a word is.
pub fn read_count(word: &str) -> Result<usize> {
    Ok(usize::try_from(read_number(word)?)?)
}

/// The character that a word is.
pub fn read_char(word: &str) -> Result<char> {
    word.chars().next().context("no character")
}

/// The next word.
pub fn next_word<'a>(words: &mut SplitWhitespace<'a>) -> Result<&'a str> {
    words.next().context("a word is missing")
}

/// The id that the next word is.
pub fn next_id(words: &mut SplitWhitespace<'_>) -> Result<Author> {
    read_id(next_word(words)?)
}

/// The number that the next word is.
pub fn next_number(words: &mut SplitWhitespace<'_>) -> Result<u64> {
    read_number(next_word(words)?)
}

/// The number of places, pieces or letters that the next word is.
pub fn next_count(words: &mut SplitWhitespace<'_>) -> Result<usize> {
    read_count(next_word(words)?)
}

/// A fault with its number, as an answer.
pub fn fault_line<F: Display>(alloc: Global, number: u8, fault: &F) -> Result<String> {
    Ok(format!(in alloc; "fault {number}: {fault}\n")?)
}
