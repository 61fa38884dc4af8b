//! What the tests make and compare: versions, messages and entries of feeds by their texts, and texts.
//!
//! These functions have no contracts, since nothing but tests calls them: each test is proved safe before it runs, and a
//! call without clauses costs that proof the least.
use mr_feed::Entry;
use mr_mail::{Day, Message};
use mr_version::{ItemId, Version};
use std::alloc::Global;
use std::test::Fail;

/// The version of this text.
pub(crate) fn version(text: &str) -> Result<Version, Fail> {
    Ok(Version::read(text)?)
}

/// The texts as values of their own.
fn owned(alloc: Global, texts: &[&str]) -> Result<Vec<String>, Fail> {
    let mut all = Vec::new(alloc);
    for text in texts {
        all.push(String::from_str(alloc, text)?)?;
    }
    Ok(all)
}

/// The message `Hi` of `ann`, with the body `there`, these labels and these flags.
pub(crate) fn message(alloc: Global, labels: &[&str], flags: u8) -> Result<Message, Fail> {
    let day = Day::read("2026-01-05")?;
    let from = String::from_str(alloc, "ann")?;
    let subject = String::from_str(alloc, "Hi")?;
    let body = Vec::from_slice(alloc, b"there")?;
    let labels = owned(alloc, labels)?;
    Ok(Message::try_new(alloc, from, subject, body, labels, flags, day)?)
}

/// The entry that tells that a version entered, with a card of this label and these flags.
pub(crate) fn added(alloc: Global, text: &str, label: &str, flags: u8) -> Result<Entry, Fail> {
    let version = version(text)?;
    let message = message(alloc, &[label], flags)?;
    Ok(Entry::Added {
        item: ItemId::new(version),
        version,
        card: message.card()?,
    })
}

/// The entry that tells that a version left.
pub(crate) fn dropped(text: &str) -> Result<Entry, Fail> {
    let version = version(text)?;
    Ok(Entry::Dropped {
        item: ItemId::new(version),
        version,
    })
}

/// The entry as `+0.1 ` or `-0.1 `.
pub(crate) fn shown(alloc: Global, entry: &Entry) -> Result<String, Fail> {
    let version = entry.version();
    match entry {
        Entry::Added { .. } => Ok(format!(in alloc; "+{version} ")?),
        Entry::Dropped { .. } => Ok(format!(in alloc; "-{version} ")?),
    }
}

/// The entries, one behind the other.
pub(crate) fn all_shown(alloc: Global, entries: &[Entry]) -> Result<String, Fail> {
    let mut text = String::new(alloc);
    for entry in entries {
        text.push_str(shown(alloc, entry)?.as_str())?;
    }
    Ok(text)
}

/// The texts of the versions, with a space after each.
pub(crate) fn listed(alloc: Global, versions: &[Version]) -> Result<String, Fail> {
    let mut text = String::new(alloc);
    for version in versions {
        text.push_str(version.text(alloc)?.as_str())?;
        text.push(' ')?;
    }
    Ok(text)
}

/// Fails where the text is not the wanted one, and tells both.
pub(crate) fn expect(found: String, wanted: &str) -> Result<(), Fail> {
    if found.as_str() == wanted {
        return Ok(());
    }
    Err(Fail::new(format_args!("wanted: {wanted}\nfound:  {found}")))
}
