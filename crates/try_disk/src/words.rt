//! The words of a line.
use anyhow::{Context, Result};
use mr_version::{Author, Version};
use std::alloc::Global;
use std::str::SplitWhitespace;

/// The words of a text.
pub fn words_of(text: &str) -> SplitWhitespace<'_> {
    text.split_whitespace()
}

/// The first word of a line, and what is behind it.
pub fn split_word(line: &str) -> (&str, &str) {
    line.split_once(' ').unwrap_or((line, ""))
}

/// The next word, or nothing.
pub fn next_word<'a>(words: &mut SplitWhitespace<'a>) -> &'a str {
    words.next().unwrap_or("")
}

/// The number that a word is.
pub fn read_number(word: &str) -> Result<u64> {
    word.parse::<u64>()
        .context(format_args!("no number: {word}"))
}

/// The number that the next word is.
pub fn next_number(words: &mut SplitWhitespace<'_>) -> Result<u64> {
    read_number(next_word(words))
}

/// The number that the next word is, or this one behind the last word.
pub fn next_number_or(words: &mut SplitWhitespace<'_>, or: u64) -> Result<u64> {
    match words.next() {
        Some(word) => read_number(word),
        None => Ok(or),
    }
}

/// The byte that the next word is, or 0 behind the last word.
pub fn next_byte(words: &mut SplitWhitespace<'_>) -> Result<u8> {
    let number = next_number_or(words, 0)?;
    u8::try_from(number).context("no byte")
}

/// The id that the next word is.
pub fn next_id(words: &mut SplitWhitespace<'_>) -> Result<Author> {
    let id = u16::try_from(next_number(words)?).context("no id")?;
    Ok(Author::try_new(id)?)
}

/// How many events a replica admits, as the next word says.
pub fn next_limit(words: &mut SplitWhitespace<'_>) -> Result<u32> {
    u32::try_from(next_number(words)?).context("no limit")
}

/// The version that the next word is.
pub fn next_version(words: &mut SplitWhitespace<'_>) -> Result<Version> {
    Ok(Version::read(next_word(words))?)
}

/// The bytes that the next word spells in hexadecimal digits.
pub fn next_bytes(alloc: Global, words: &mut SplitWhitespace<'_>) -> Result<Vec<u8>> {
    Ok(hex::decode(alloc, next_word(words))?)
}
