//! Nodes that keep their replicas: the phone's disk stops at each of its first calls, and what was written by then and what was synced each
//! bring back all that its node had answered and told, in a log that joins with that of the laptop's node, which it met meanwhile.
//!
//! The contract says so of a device that behaves as `Device` says; here real threads run, and a disk that stops.
#![tactic(auto)]

mod disk;
mod node;
mod replica;

use crate::node::{Kept, KeptSide, Side, link, run_all};
use crate::replica::{begun, creates, join, opened, written};
use anyhow::{Context, Result, bail};
use std::alloc::Global;
use std::sync::Wait;
use std::thread::Threads;

/// How many messages each user writes.
const MESSAGES: u64 = 8;

/// How many calls the phone's disk does at most where it stops. A whole run has more: one as the disk is opened, and four for each commit,
/// which writes, syncs, writes and syncs. The phone's node commits each message, and at least once each as a link pulls, takes, serves
/// and gives.
const LAST: u64 = 4 * (MESSAGES + 4);

fn main(rt: HostRuntime) -> Result<()> {
    let phone = begun(rt.alloc(), 0)?;
    let laptop = begun(rt.alloc(), 1)?;
    for calls in 1..=LAST {
        if !meet(&rt, rt.alloc(), &phone, &laptop, calls)? {
            bail!("a disk that does {calls} calls doesn't stop");
        }
    }
    if meet(&rt, rt.alloc(), &phone, &laptop, u64::MAX)? {
        bail!("a disk stops that doesn't");
    }
    println!(rt;
        "stopped {LAST} times: each time all that was answered and told came back, and the logs joined"
    )?;
    Ok(())
}

/// Both users write, and both nodes pull and serve meanwhile. Tells whether the phone's disk stopped.
fn meet<R: Threads + Wait + Sync + Send + Copy>(
    rt: &R,
    alloc: Global,
    phone: &[u8],
    laptop: &[u8],
    calls: u64,
) -> Result<bool> {
    let mut sides = Vec::new(alloc);
    let has_stopped = meet_as(rt, alloc, &mut sides, phone, laptop, calls);
    drop(sides);
    has_stopped
}

/// Both sides are made, and run. Tells whether the phone's disk stopped.
fn meet_as<R: Threads + Wait + Sync + Send + Copy>(
    rt: &R,
    alloc: Global,
    sides: &mut Vec<KeptSide<R>>,
    phone: &[u8],
    laptop: &[u8],
    calls: u64,
) -> Result<bool> {
    add(alloc, sides, opened(alloc, phone, calls))?;
    add(alloc, sides, opened(alloc, laptop, u64::MAX))?;
    link(rt, alloc, sides)?;
    run_all(rt, alloc, sides);
    let phone = sides.first().context("there is no phone")?;
    let laptop = sides.last().context("there is no laptop")?;
    come_back(alloc, phone, laptop)
}

/// Adds the replica that was opened, whose user writes.
fn add<K: Drop, L: Drop>(
    alloc: Global,
    sides: &mut Vec<Side<K, L>>,
    kept: Result<K>,
) -> Result<()> {
    let kept = kept?;
    sides.push(Side::new(kept, creates(alloc, MESSAGES)?))?;
    Ok(())
}

/// The phone comes back from what was written and from what was synced. Tells whether its disk stopped.
fn come_back<L>(alloc: Global, phone: &Side<Kept, L>, laptop: &Side<Kept, L>) -> Result<bool> {
    let kept = phone
        .kept
        .as_ref()
        .context("the phone's node came to nothing")?;
    let disk = kept.journal().device();
    come_back_from(alloc, disk.written.bytes(), phone, laptop)?;
    come_back_from(alloc, &disk.synced, phone, laptop)?;
    Ok(!kept.is_kept())
}

/// The phone comes back from these bytes.
fn come_back_from<L>(
    alloc: Global,
    bytes: &[u8],
    phone: &Side<Kept, L>,
    laptop: &Side<Kept, L>,
) -> Result<()> {
    let kept = opened(alloc, bytes, u64::MAX)?;
    let told = compare(alloc, &kept, phone, laptop);
    drop(kept);
    told
}

/// What came back has all that the phone answered and told, and joins with what the laptop has.
fn compare<L>(
    alloc: Global,
    kept: &Kept,
    phone: &Side<Kept, L>,
    laptop: &Side<Kept, L>,
) -> Result<()> {
    if written(kept.replica()) < phone.answered {
        bail!("the phone has lost what it answered");
    }
    if kept.replica().feed().len() < phone.told {
        bail!("the phone has lost what it told");
    }
    let laptop = laptop
        .kept
        .as_ref()
        .context("the laptop's node came to nothing")?;
    join(alloc, kept.replica(), laptop.replica())
}
