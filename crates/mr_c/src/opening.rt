//! Opening and closing.
ghost use Rattle.std.specs.Prelude.{◌≡◌, [], None};
ghost use Rattle.mr_c.specs.Opened.{ComesBack, ComesBegun, ComesPlain, Opened, OpensAs};
ghost use Rattle.mr_c.specs.inner.Opened.{ClosedOnly, Installed};

use crate::failure::{Failure, code_of};
use crate::handle::Handle;
use mr_desk::{Desk, Device, Fault, begin_kept, open_kept};
use std::alloc::Global;

/// The number of this interface: its upper half changes where a program has to be built anew, its lower half where functions were added.
#[unsafe(no_mangle)]
pub extern "C" fn mr_abi() -> u32
    ensures { result ≡ 65540 }
{
    0x0001_0004
}

// Refuses an open handle, which stays as it is.
fn check_closed(alloc: Global, handle: &mut Handle) -> Result<(), Failure>
    ensures { ClosedOnly handle.old.device result handle.new.device }
{
    if let Some(device) = handle.take(alloc) {
        handle.put(device);
        return Err(Failure::InUse);
    }
    Ok(())
}

// Puts a device into a closed handle, which stays closed where there is no memory for it.
fn install(alloc: Global, handle: &mut Handle, device: Device) -> Result<(), Failure>
    requires { handle.old.device ≡ None }
    ensures { Installed device result handle.new.device }
{
    match Box::new(alloc, device) {
        Ok(device) => {
            handle.put(device);
            Ok(())
        }
        Err(_) => Err(Failure::Desk(Fault::OutOfMemory)),
    }
}

// Opens a closed handle, with the device of a log. An open one stays as it is.
fn opened(
    alloc: Global,
    handle: &mut Handle,
    id: u16,
    filter: &[u8],
    event_limit: u32,
    log: &[u8],
) -> Result<(), Failure>
    ensures { Opened (ComesPlain id filter.now event_limit log.now) handle.old.device result handle.new.device }
{
    check_closed(alloc, handle)?;
    let desk = Desk::replay(alloc, id, filter, event_limit, log)?;
    install(alloc, handle, Device::Plain(desk))
}

/// Opens a replica to which nothing has happened.
///
/// `InUse` where the handle is open; then as `Desk::replay` answers. The handle is closed still where it fails.
#[unsafe(no_mangle)]
pub extern "C" fn mr_open(
    alloc: Global,
    handle: &mut Handle,
    id: u16,
    filter: &[u8],
    event_limit: u32,
) -> i32
    ensures { OpensAs (ComesPlain id filter.now event_limit []) handle.old.device handle.new.device result }
{
    code_of(&opened(alloc, handle, id, filter, event_limit, b""))
}

/// Opens a replica again, of the bytes of its log. The failures are those of `mr_open`, and then those of the log.
#[unsafe(no_mangle)]
pub extern "C" fn mr_replay(
    alloc: Global,
    handle: &mut Handle,
    id: u16,
    filter: &[u8],
    event_limit: u32,
    log: &[u8],
) -> i32
    ensures { OpensAs (ComesPlain id filter.now event_limit log.now) handle.old.device handle.new.device result }
{
    code_of(&opened(alloc, handle, id, filter, event_limit, log))
}

// Begins a kept device in a closed handle. An open one stays as it is.
fn kept_begun(
    alloc: Global,
    handle: &mut Handle,
    id: u16,
    filter: &[u8],
    event_limit: u32,
    birth: &[u8],
    mark: &[u8],
) -> Result<(), Failure>
    ensures { Opened (ComesBegun id filter.now event_limit birth.now mark.now) handle.old.device result handle.new.device }
{
    check_closed(alloc, handle)?;
    let device = Device::Kept {
        kept: begin_kept(alloc, id, filter, event_limit, birth, mark)?,
        notes: Vec::new(alloc),
    };
    install(alloc, handle, device)
}

/// Begins a device that is kept, in a file that has no byte: its acts are to be done first.
///
/// `InUse` where the handle is open; then as `begin_kept` answers. The handle is closed still where it fails.
#[unsafe(no_mangle)]
pub extern "C" fn mr_kept_begin(
    alloc: Global,
    handle: &mut Handle,
    id: u16,
    filter: &[u8],
    event_limit: u32,
    birth: &[u8],
    mark: &[u8],
) -> i32
    ensures { OpensAs (ComesBegun id filter.now event_limit birth.now mark.now) handle.old.device handle.new.device result }
{
    code_of(&kept_begun(alloc, handle, id, filter, event_limit, birth, mark))
}

// Brings a kept device back into a closed handle, with the notes that its file has. An open one stays as it is.
fn kept_opened(
    alloc: Global,
    handle: &mut Handle,
    file: &[u8],
    mark: &[u8],
    birth: &[u8],
) -> Result<(), Failure>
    ensures { Opened (ComesBack file.now mark.now birth.now) handle.old.device result handle.new.device }
{
    check_closed(alloc, handle)?;
    let (kept, notes) = open_kept(alloc, file, mark, birth)?;
    install(alloc, handle, Device::Kept { kept, notes })
}

/// Opens a device that is kept, of the bytes of its file, which was synced before it was read: its acts are to be done first.
///
/// `InUse` where the handle is open; then as `open_kept` answers. The handle is closed still where it fails.
#[unsafe(no_mangle)]
pub extern "C" fn mr_kept_open(
    alloc: Global,
    handle: &mut Handle,
    file: &[u8],
    mark: &[u8],
    birth: &[u8],
) -> i32
    ensures { OpensAs (ComesBack file.now mark.now birth.now) handle.old.device handle.new.device result }
{
    code_of(&kept_opened(alloc, handle, file, mark, birth))
}

/// Closes the handle and gives back all that it holds; a closed one stays so.
#[unsafe(no_mangle)]
pub extern "C" fn mr_close(alloc: Global, handle: &mut Handle)
    ensures { handle.new.device ≡ None }
{
    // what the handle held is given back here
    let _device = handle.take(alloc);
}
