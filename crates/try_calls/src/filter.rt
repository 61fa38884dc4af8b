//! `mr_filter`: which filters cover others, as worked out by hand. What filters select and how they are refused is
//! in the rows of `try_scripts`, and a replica copies its filter when it asks.
use crate::samples::expect;
use mr_filter::Filter;
use std::alloc::Global;
use std::test::Fail;

/// Filters that cover the one beside them.
const COVERED: [(&str, &str); 6] = [
    ("label:inbox | label:work", "label:work & flag:seen"),
    ("all", "label:a | !label:a"),
    ("none", "none"),
    ("label:a", "none"),
    ("since:2026-01-05", "since:2026-01-06"),
    ("!flag:draft", "!flag:draft & !flag:seen"),
];

/// Filters that don't.
const UNCOVERED: [(&str, &str); 4] = [
    ("label:work & flag:seen", "label:inbox | label:work"),
    ("label:a | !label:a", "all"),
    ("none", "label:a & !label:a"),
    ("since:2026-01-06", "since:2026-01-05"),
];

/// Whether the one filter covers the other, as `y` or `n`.
fn covers(alloc: Global, wide: &str, narrow: &str) -> Result<char, Fail> {
    let filter = Filter::read(alloc, wide)?;
    let is_covered = filter.covers(&Filter::read(alloc, narrow)?);
    Ok(if is_covered { 'y' } else { 'n' })
}

/// Whether filters cover those beside them.
fn answers(alloc: Global, pairs: &[(&str, &str)]) -> Result<String, Fail> {
    let mut text = String::new(alloc);
    for (wide, narrow) in pairs {
        text.push(covers(alloc, wide, narrow)?)?;
    }
    Ok(text)
}

#[test]
fn filters_that_are_covered(rt: HostRuntime) -> Result<(), Fail> {
    expect(answers(rt.alloc(), &COVERED)?, "yyyyyy")
}

#[test]
fn filters_that_are_not_covered(rt: HostRuntime) -> Result<(), Fail> {
    expect(answers(rt.alloc(), &UNCOVERED)?, "nnnn")
}
