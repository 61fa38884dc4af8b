//! `mr_forms`, `mr_concise` and `mr_itemset`: the texts of a vector and a knowledge. The calls that two
//! forms have are compared by `try_random`, which fails where one finds no memory, and worlds and scripts make the
//! others.
use crate::samples::{expect, version};
use mr_concise::ConciseVector;
use mr_forms::Knowledge;
use mr_itemset::ItemKnowledge;
use mr_version::{ItemId, Version};
use std::alloc::Global;
use std::test::Fail;

/// The text of the vector of these two versions.
fn vector_text(alloc: Global, versions: &[Version]) -> Result<String, Fail> {
    Ok(ConciseVector::from_versions(alloc, versions)?.text()?)
}

#[test]
fn ample_memory_text(rt: HostRuntime) -> Result<(), Fail> {
    let versions = [version("0.3")?, version("0.1")?];
    expect(vector_text(rt.alloc(), &versions)?, "0:3!2")
}

/// The text of a knowledge that has learned the version for all items.
fn learned_text(alloc: Global, version: Version) -> Result<String, Fail> {
    let mut knowledge = ItemKnowledge::new(alloc);
    knowledge.learn(ItemId::new(version), version)?;
    Ok(knowledge.text()?)
}

#[test]
fn ample_memory_item_text(rt: HostRuntime) -> Result<(), Fail> {
    expect(learned_text(rt.alloc(), version("0.1")?)?, "all 0:1")
}
