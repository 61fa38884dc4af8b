//! Revisions and stores that the tests share.
use crate::samples::{message, version};
use mr_concise::ConciseVector;
use mr_forms::VersionSet;
use mr_madewith::Revision;
use mr_store::{Part, Store};
use mr_version::{ItemId, Version};
use std::alloc::Global;
use std::process::Abort;
use std::test::Fail;

/// Puts a head where its version isn't held.
pub(crate) fn put_head(store: &mut Store, revision: Revision) -> Result<(), Fail> {
    if store.held(revision.version()).is_none() {
        store.put(Part::Heads, revision)?;
    }
    Ok(())
}

/// The first version of its item, with the label `inbox`.
pub(crate) fn created(alloc: Global, version: Version) -> Result<Revision, Fail> {
    let below = ConciseVector::new(alloc);
    let message = message(alloc, &["inbox"], 0)?;
    Ok(Revision::new(alloc, ItemId::new(version), version, below, message)?)
}

/// A version of the item 0.1 that supersedes the item's first, with the label `work`.
pub(crate) fn edited(rt: &impl Abort, alloc: Global, text: &str) -> Result<Revision, Fail> {
    let of = ItemId::new(version("0.1")?);
    let version = version(text)?;
    let below = ConciseVector::from_versions(alloc, &[of.creator()])?;
    assert!(rt; below.contains(of.creator()));
    assert!(rt; !below.contains(version));
    let message = message(alloc, &["work"], 0)?;
    Ok(Revision::new(alloc, of, version, below, message)?)
}

/// A store whose heads are the created 0.2 and the edited 1.1.
pub(crate) fn two_heads(rt: &impl Abort, alloc: Global) -> Result<Store, Fail> {
    let mut store = Store::new(alloc);
    put_head(&mut store, created(alloc, version("0.2")?)?)?;
    put_head(&mut store, edited(rt, alloc, "1.1")?)?;
    Ok(store)
}
