//! What C holds: two words, and the device that they own while they are open.
ghost use Rattle.std.specs.Prelude.{◌≡◌, Option, Some, None, MatchOption};
ghost use Rattle.mr_desk.specs.contracts.device.Device.{the_row as device_row};
ghost use Rattle.mr_desk.specs.declared.device.Device.{Device};
ghost use Rattle.mr_c.specs.Held.{held};

use crate::loose::Loose;
use mr_desk::Device;
use std::alloc::Global;
use std::marker::Model;
use std::{mem, ptr};

/// Two words, which C keeps and hands over. All zeros is closed; C may move it, and may not use it as two.
#[repr(C)]
#[derive(Drop)]
pub struct Handle {
    at: *mut u8,
    live: u64,
    /// The device that it owns, if it is open.
    pub ghost device: { Option Device },
}

impl Model for Handle {
    ghost also_owns = { λ h. held device_row h.at h.live h.device };
}

impl Handle {
    // A handle that owns nothing: all zeros.
    pub(crate) fn closed() -> Handle
        ensures { result.device ≡ None }
    {
        Handle {
            at: ptr::null_mut(),
            live: 0,
        }
    }

    // The handle that owns the box from now on.
    pub(crate) fn of(device: Loose<Device, Global>) -> Handle
        ensures { result.device ≡ Some device.value }
    {
        let Loose { at, alloc: _ } = device;
        Handle {
            at: at as *mut u8,
            live: 1,
        }
    }

    // The box that the handle owned, if it was open.
    pub(crate) fn into_loose(self, alloc: Global) -> Option<Loose<Device, Global>>
        ensures { MatchOption result (self.device ≡ None) (λ b. self.device ≡ Some b.value) }
    {
        let Handle { at, live } = self;
        if live == 0 {
            return None;
        }
        let at = at as *mut Device;
        Some(Loose { at, alloc })
    }

    /// Takes the device out of the handle, which is closed then. `None` where it was closed before.
    pub(crate) fn take(&mut self, alloc: Global) -> Option<Box<Device, Global>>
        ensures closed { self.new.device ≡ None }
        ensures was { MatchOption result (self.old.device ≡ None) (λ b. self.old.device ≡ Some b.value) }
    {
        let loose = mem::replace(self, Handle::closed()).into_loose(alloc)?;
        Some(loose.into_box())
    }

    /// Puts a device into the handle, which is closed: so none is lost.
    pub(crate) fn put(&mut self, device: Box<Device, Global>)
        requires { self.old.device ≡ None }
        ensures { self.new.device ≡ Some device.value }
    {
        *self = Handle::of(Loose::of(device));
    }
}

// A handle may go to another thread, since its device may.
unsafe impl Send for Handle {}

/// What is read of the device that a handle owns, which goes back into it. Where the handle is closed it is that failure, or what is given
/// for it.
macro_rules! read {
    ($alloc:ident, $handle:ident, |$device:ident| $read:expr) => {
        read!($alloc, $handle, Err(Failure::Closed), |$device| $read)
    };
    ($alloc:ident, $handle:ident, $closed:expr, |$device:ident| $read:expr) => {
        match $handle.take($alloc) {
            Some($device) => {
                let found = $read;
                $handle.put($device);
                found
            }
            None => $closed,
        }
    };
}

/// What the device that a handle owns answers when it does something. It goes back into the handle. Where that is closed it is that failure.
macro_rules! act {
    ($alloc:ident, $handle:ident, |$device:ident| $act:expr) => {
        match $handle.take($alloc) {
            Some(mut $device) => {
                let answer = $act;
                $handle.put($device);
                match answer {
                    Ok(told) => Ok(told),
                    Err(fault) => Err(Failure::Desk(fault)),
                }
            }
            None => Err(Failure::Closed),
        }
    };
}

pub(crate) use act;
pub(crate) use read;
