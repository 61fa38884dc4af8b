//! Logs that are joined.
use crate::device::{Device, replica_of};
use crate::form::Unjoined;
use crate::lists::{push_made, put_made};
use crate::replica::SceneReplica;
use crate::words::{fault_line, read_id, words};
use crate::world::Holds;
use anyhow::Result;
use std::alloc::{AllocError, Global};

/// `join R..`: joins the logs of these. Who is alone goes on as in the joined world.
pub fn join<C: SceneReplica, W: Holds<C>, L>(
    alloc: Global,
    devices: &mut [Device<C, L>],
    ids: &str,
) -> Result<String> {
    let mut ends = Vec::new(alloc);
    push_copies(devices, ids, &mut ends)?;
    match join_ends::<C, W, L>(alloc, devices, &ends)? {
        None => Ok(String::from_str(alloc, "joined\n")?),
        Some(Unjoined::Fault(fault)) => fault_line(alloc, fault.number(), &fault),
        Some(unjoined) => Err(unjoined.into()),
    }
}

/// Adds the replicas of these ids.
fn push_copies<C: SceneReplica, L>(
    devices: &[Device<C, L>],
    ids: &str,
    copies: &mut Vec<C>,
) -> Result<()> {
    for word in words(ids) {
        push_made(copies, replica_of(devices, read_id(word)?)?.copy())?;
    }
    Ok(())
}

/// Each goes on as in the world that explains the logs of these ends: `None`, or why there is none.
fn join_ends<C: SceneReplica, W: Holds<C>, L>(
    alloc: Global,
    devices: &mut [Device<C, L>],
    ends: &[C],
) -> Result<Option<Unjoined>, AllocError> {
    match &W::join(alloc, ends) {
        Ok(world) => {
            take_over(devices, world)?;
            Ok(None)
        }
        Err(unjoined) => Ok(Some(*unjoined)),
    }
}

/// Each goes on as in this world, where it has one of its id.
fn take_over<C: SceneReplica, W: Holds<C>, L>(
    devices: &mut [Device<C, L>],
    world: &W,
) -> Result<(), AllocError> {
    for device in devices {
        if let Some(replica) = world.replica(device.id) {
            put_made(&mut device.replica, replica.copy())?;
        }
    }
    Ok(())
}
