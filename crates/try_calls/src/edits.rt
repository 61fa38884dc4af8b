//! `mr_replica`: an edit without a base, which no script's line can say.
use crate::samples::message;
use mr_filter::Filter;
use mr_itemset::ItemKnowledge;
use mr_replica::{Bases, Refusal, Replica};
use mr_version::{Author, Version};
use std::alloc::Global;
use std::test::Fail;

/// A new replica.
fn new_replica(alloc: Global) -> Result<Replica<ItemKnowledge>, Fail> {
    let filter = Filter::read(alloc, "all")?;
    Ok(Replica::try_new(alloc, Author::try_new(0)?, filter, 10)?)
}

/// What a replica answers to an edit that names no base.
fn edited(
    alloc: Global,
    replica: &mut Replica<ItemKnowledge>,
) -> Result<Result<Version, Refusal>, Fail> {
    let message = message(alloc, &["inbox"], 0)?;
    Ok(replica.edit(Bases::new(Vec::new(alloc)), message))
}

#[test]
fn an_edit_names_a_base(rt: HostRuntime) -> Result<(), Fail> {
    let mut replica = new_replica(rt.alloc())?;
    assert_eq!(rt; edited(rt.alloc(), &mut replica)?, Err(Refusal::NoBase));
    Ok(())
}
