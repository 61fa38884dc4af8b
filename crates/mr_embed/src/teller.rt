//! What the program prints.
use crate::device::Device;
use crate::fault::Fault;
use crate::mail::Draft;
use crate::screen::Screen;
use mr_kept::KeptFault;
use mr_replica::Revision;
use mr_version::Version;
use std::alloc::Global;
use std::io;

/// Has the office write the message, and tells it.
pub fn write<R: Print>(rt: &R, office: &mut Device, draft: &Draft<'_>) -> Result<Version, Fault> {
    let version = office.write(draft)?;
    tell_written(rt, version, draft)?;
    Ok(version)
}

fn tell_written<R: Print>(rt: &R, version: Version, draft: &Draft<'_>) -> Result<(), Fault> {
    let Draft { subject, label, .. } = *draft;
    printed(println!(rt; "office: {version} is {subject} in {label}"))
}

/// Tells what two devices that met found out.
pub fn tell_greeting<R: Print>(rt: &R, is_same: bool) -> Result<(), Fault> {
    let found = if is_same {
        "and know the same"
    } else {
        "and have something to tell"
    };
    printed(println!(rt; "office and phone: they meet, {found}"))
}

/// Tells why nothing is synced with a device.
pub fn tell_stranger<R: Print>(rt: &R, who: &str, fault: Fault) -> Result<(), Fault> {
    printed(println!(rt; "{who}: {fault}"))
}

/// Tells how many records an exchange took.
pub fn tell_exchange<R: Print>(rt: &R, who: &str, records: u32) -> Result<(), Fault> {
    printed(println!(rt; "{who}: up to date after {records} records"))
}

/// Tells that the connection broke.
pub fn tell_break<R: Print>(rt: &R, records: u32) -> Result<(), Fault> {
    printed(println!(rt; "phone: the connection broke after {records} records"))
}

/// Tells which version took the place of which.
pub fn tell_edit<R: Print + AllocGlobal>(
    rt: &R,
    who: &str,
    bases: &[Version],
    version: Version,
) -> Result<(), Fault> {
    let bases = version_list(rt.alloc(), bases)?;
    printed(println!(rt; "{who}: {version} replaces{bases}"))
}

/// Lets the screen take what is new on the device, and tells what it shows.
pub fn tell_screen<R: Print + AllocGlobal>(
    rt: &R,
    screen: &mut Screen,
    device: &Device,
) -> Result<(), Fault> {
    let new = screen.follow(device.feed())?;
    let inbox = version_list(rt.alloc(), &screen.inbox()?)?;
    let unseen = screen.unseen();
    printed(println!(rt; "phone: its inbox shows{inbox}, {unseen} unseen, {new} new"))
}

/// Tells why the phone can't retire yet.
pub fn tell_refusal<R: Print>(rt: &R, fault: KeptFault) -> Result<(), Fault> {
    printed(println!(rt; "phone: can't retire: {fault}"))
}

/// Tells that the phone has retired.
pub fn tell_retired<R: Print>(rt: &R) -> Result<(), Fault> {
    printed(println!(rt; "phone: retired"))
}

/// Tells what the device holds.
pub fn tell_heads<R: Print + AllocGlobal>(rt: &R, who: &str, device: &Device) -> Result<(), Fault> {
    let heads = head_list(rt.alloc(), device.heads())?;
    printed(println!(rt; "{who}: holds{heads}"))
}

/// Each version behind a space.
fn version_list(alloc: Global, versions: &[Version]) -> Result<String, Fault> {
    let mut list = String::new(alloc);
    for version in versions {
        write!(list, " {version}")?;
    }
    Ok(list)
}

/// The version of each revision behind a space.
fn head_list(alloc: Global, heads: &[Revision]) -> Result<String, Fault> {
    let mut list = String::new(alloc);
    for head in heads {
        let version = head.version();
        write!(list, " {version}")?;
    }
    Ok(list)
}

/// What became of a line: `Print` where it isn't printed.
fn printed(done: io::Result<()>) -> Result<(), Fault> {
    match done {
        Ok(()) => Ok(()),
        Err(_) => Err(Fault::Print),
    }
}
