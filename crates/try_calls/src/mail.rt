//! `mr_mail`: copies find memory; what the definitions mean by a date, as computed elsewhere.
use crate::samples::{expect, message};
use mr_mail::{Card, Day, Label, Message};
use std::alloc::Global;
use std::test::Fail;

/// The labels, with a space after each.
fn joined(alloc: Global, labels: &[Label]) -> Result<String, Fail> {
    let mut text = String::new(alloc);
    for label in labels {
        text.push_str(label.as_str())?;
        text.push(' ')?;
    }
    Ok(text)
}

/// The sender and the subject of a message's copy.
fn copied_text(alloc: Global, message: &Message) -> Result<String, Fail> {
    let copy = message.copy()?;
    let from = copy.from();
    let subject = copy.subject();
    let bytes = copy.body().len();
    Ok(format!(in alloc; "{from} {subject} {bytes}")?)
}

/// The card's labels, flags and day.
fn card_text(alloc: Global, card: &Card) -> Result<String, Fail> {
    let labels = joined(alloc, card.labels())?;
    let flags = card.flags().bits();
    let day = card.day().text(alloc)?;
    Ok(format!(in alloc; "{labels}{flags} {day}")?)
}

/// The card of a message, once it was copied.
fn copied_card(alloc: Global, message: &Message) -> Result<String, Fail> {
    card_text(alloc, &message.card()?.copy()?)
}

/// A copy of the label of this text.
fn copied_label(alloc: Global, text: &str) -> Result<String, Fail> {
    let copy = Label::try_new(String::from_str(alloc, text)?)?.copy()?;
    Ok(String::from_str(alloc, copy.as_str())?)
}

#[test]
fn ample_memory_message_copy(rt: HostRuntime) -> Result<(), Fail> {
    expect(
        copied_text(rt.alloc(), &message(rt.alloc(), &[], 20)?)?,
        "ann Hi 5",
    )
}

#[test]
fn ample_memory_card(rt: HostRuntime) -> Result<(), Fail> {
    let message = message(rt.alloc(), &["work", "inbox", "a", "b", "c"], 20)?;
    expect(
        copied_card(rt.alloc(), &message)?,
        "a b c inbox work 20 2026-01-05",
    )
}

#[test]
fn ample_memory_label_copy(rt: HostRuntime) -> Result<(), Fail> {
    expect(copied_label(rt.alloc(), "to-do")?, "to-do")
}

/// How many days are before each of these, with a space behind each.
fn days(alloc: Global, texts: &[&str]) -> Result<String, Fail> {
    let mut days = String::new(alloc);
    for text in texts {
        let count = Day::read(text)?.days();
        write!(days, "{count} ")?;
    }
    Ok(days)
}

#[test]
fn days_are_those_of_the_calendar(rt: HostRuntime) -> Result<(), Fail> {
    let texts = ["1970-01-01", "2000-02-29", "2026-01-05", "2028-02-29"];
    expect(days(rt.alloc(), &texts)?, "0 11016 20458 21243 ")
}
