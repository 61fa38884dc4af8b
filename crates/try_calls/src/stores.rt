//! `mr_store` and `mr_madewith`: calls that no program makes find memory.
//!
//! A replica makes room first and then changes without failing, so it calls `enter`, `remove_below`, `remove_heads` and
//! `note_reserved`. `put`, `drop_below`, `drop_unheld` and `note` do both in one call.

use crate::revisions::{created, edited, two_heads};
use crate::samples::{expect, version};
use mr_concise::ConciseVector;
use mr_forms::{Fragment, ItemSet};
use mr_madewith::{Revision, Trail};
use mr_store::Store;
use mr_version::{Author, ItemId, Version};
use std::alloc::Global;
use std::test::Fail;

/// The versions of the revisions, with a space after each.
fn versions(alloc: Global, revisions: &[Revision]) -> Result<String, Fail> {
    let mut text = String::new(alloc);
    for revision in revisions {
        text.push_str(revision.version().text(alloc)?.as_str())?;
        text.push(' ')?;
    }
    Ok(text)
}

/// The versions that left, a bar, and those of the heads that stay.
fn left_and_heads(alloc: Global, left: &[Revision], store: &Store) -> Result<String, Fail> {
    let mut text = versions(alloc, left)?;
    text.push_str("| ")?;
    text.push_str(versions(alloc, store.heads())?.as_str())?;
    Ok(text)
}

/// What leaves where a version of the item 0.1 supersedes 1.1, and what stays.
fn left_below(alloc: Global, store: &mut Store) -> Result<String, Fail> {
    let below = ConciseVector::from_versions(alloc, &[version("1.1")?])?;
    let left = store.drop_below(ItemId::new(version("0.1")?), &below)?;
    left_and_heads(alloc, left.as_slice(), store)
}

#[test]
fn ample_memory_drop_below(rt: HostRuntime) -> Result<(), Fail> {
    let mut store = two_heads(&rt, rt.alloc())?;
    expect(left_below(rt.alloc(), &mut store)?, "1.1 | 0.2 ")
}

/// A fragment of all items that has this version.
fn known_for_all(alloc: Global, text: &str) -> Result<Fragment<ConciseVector>, Fail> {
    Ok(Fragment {
        items: ItemSet::All,
        vector: ConciseVector::from_versions(alloc, &[version(text)?])?,
    })
}

/// What leaves where a full source knows 0.2 and 1.1 and holds 1.1, and what stays.
fn left_unheld(alloc: Global, store: &mut Store) -> Result<String, Fail> {
    let learned = [known_for_all(alloc, "0.2")?, known_for_all(alloc, "1.1")?];
    let held = [ConciseVector::from_versions(alloc, &[version("1.1")?])?];
    let left = store.drop_unheld(&learned, &held)?;
    left_and_heads(alloc, left.as_slice(), store)
}

#[test]
fn ample_memory_drop_unheld(rt: HostRuntime) -> Result<(), Fail> {
    let mut store = two_heads(&rt, rt.alloc())?;
    expect(left_unheld(rt.alloc(), &mut store)?, "0.2 | 1.1 ")
}

/// A trail with the created 0.1, 0.2, and so on, so many of them.
fn trail_of_created(alloc: Global, count: u16) -> Result<Trail, Fail> {
    let mut trail = Trail::new(alloc);
    let author = Author::try_new(0)?;
    for k in 0..count {
        let version = Version::try_new(author, 1 + u32::from(k))?;
        trail.note(&created(alloc, version)?)?;
    }
    Ok(trail)
}

/// The versions that the trail has as the last ones of the items 0.1 and 0.9, with a space after each.
fn lasts(alloc: Global, trail: &Trail) -> Result<String, Fail> {
    let mut text = String::new(alloc);
    for item in ["0.1", "0.9"] {
        if let Some(last) = trail.last(ItemId::new(version(item)?)) {
            text.push_str(last.version().text(alloc)?.as_str())?;
            text.push(' ')?;
        }
    }
    Ok(text)
}

#[test]
fn ample_memory_note(rt: HostRuntime) -> Result<(), Fail> {
    let mut trail = trail_of_created(rt.alloc(), 9)?;
    trail.note(&edited(&rt, rt.alloc(), "1.1")?)?;
    expect(lasts(rt.alloc(), &trail)?, "1.1 0.9 ")
}
