//! Replicas that are alone.
use crate::last_run::LastRun;
use crate::work::Work;
use anyhow::{Context, Result, bail};
use mr_version::Author;

/// A replica that is alone, what it has to do in the next run over links of these lanes, and what came of its last. One
/// whose run came to nothing is gone.
#[derive(Drop)]
pub struct Device<C, L> {
    pub id: Author,
    pub replica: Option<C>,
    pub work: Work<L>,
    pub last: Option<LastRun>,
}

/// The one of this id.
pub fn device_of<C, L>(devices: &mut [Device<C, L>], id: Author) -> Result<&mut Device<C, L>> {
    for device in devices {
        if device.id == id {
            return Ok(device);
        }
    }
    bail!("a replica isn't alone")
}

/// The replica of this id.
pub fn replica_of<C, L>(devices: &[Device<C, L>], id: Author) -> Result<&C> {
    for device in devices {
        if device.id == id {
            return device.replica.as_ref().context("a replica is gone");
        }
    }
    bail!("a replica isn't alone")
}
