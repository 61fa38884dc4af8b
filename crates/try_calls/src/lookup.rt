//! `mr_lookup`: common ancestors.
use crate::revisions::{created, edited};
use crate::samples::version;
use mr_lookup::newest_common_ancestors;
use mr_madewith::Revision;
use std::alloc::Global;
use std::process::Abort;
use std::test::Fail;

/// Two heads of the item 0.1, which both come of its first version.
fn two_heads_of(rt: &impl Abort, alloc: Global) -> Result<Vec<Revision>, Fail> {
    let mut heads = Vec::new(alloc);
    heads.push(edited(rt, alloc, "0.2")?)?;
    heads.push(edited(rt, alloc, "1.1")?)?;
    Ok(heads)
}

/// How many newest common ancestors of the two heads there are among so many copies of the first version and the heads.
fn count_of_common(rt: &impl Abort, alloc: Global, copies: usize) -> Result<usize, Fail> {
    let heads = two_heads_of(rt, alloc)?;
    let mut among = two_heads_of(rt, alloc)?;
    for _ in 0..copies {
        among.push(created(alloc, version("0.1")?)?)?;
    }
    Ok(newest_common_ancestors(alloc, &among, &heads)?.len())
}

#[test]
fn ample_memory_newest_common_ancestors(rt: HostRuntime) -> Result<(), Fail> {
    assert_eq!(rt; count_of_common(&rt, rt.alloc(), 10)?, 10);
    Ok(())
}
