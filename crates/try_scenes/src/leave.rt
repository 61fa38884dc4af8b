//! Replicas that leave their world.
use crate::device::{Device, device_of};
use crate::history::History;
use crate::replica::SceneReplica;
use crate::words::{read_id, words};
use crate::work::Work;
use crate::world::Holds;
use anyhow::{Context, Result};
use mr_version::Author;
use std::alloc::{AllocError, Global};

/// `leave R..`: these leave as they are now in the world of the history, or else in this one of the script.
pub fn leave_all<C: SceneReplica, W: Holds<C>, L: Drop>(
    alloc: Global,
    script: Option<&W>,
    history: &History<W>,
    devices: &mut Vec<Device<C, L>>,
    ids: &str,
) -> Result<()> {
    let world = match &history.world {
        Some(world) => world,
        None => script.context("nothing has happened")?,
    };
    for word in words(ids) {
        leave(alloc, world, devices, read_id(word)?)?;
    }
    Ok(())
}

/// This one leaves the world.
fn leave<C: SceneReplica, W: Holds<C>, L: Drop>(
    alloc: Global,
    world: &W,
    devices: &mut Vec<Device<C, L>>,
    id: Author,
) -> Result<()> {
    let replica = world.replica(id).context("no such replica")?;
    put_device(alloc, devices, id, replica.copy()?)?;
    Ok(())
}

/// Puts a replica in the place of the one of this id, or behind the others.
fn put_device<C: Drop, L: Drop>(
    alloc: Global,
    devices: &mut Vec<Device<C, L>>,
    id: Author,
    replica: C,
) -> Result<(), AllocError> {
    match device_of(devices, id) {
        Ok(device) => {
            device.replica = Some(replica);
            Ok(())
        }
        Err(_) => push_device(alloc, devices, id, replica),
    }
}

/// Adds a replica with nothing to do.
fn push_device<C: Drop, L: Drop>(
    alloc: Global,
    devices: &mut Vec<Device<C, L>>,
    id: Author,
    replica: C,
) -> Result<(), AllocError> {
    let device = Device {
        id,
        replica: Some(replica),
        work: Work::new(alloc),
        last: None,
    };
    devices.push(device)?;
    Ok(())
}
