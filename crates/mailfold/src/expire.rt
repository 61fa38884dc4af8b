//! `expire`: the files of deleted mail go.
ghost use Rattle.std.specs.Prelude.{◌↔◌, IsTrue};
ghost use Rattle.mailfold.specs.inner.Expire.{IsYounger};

use crate::command_line::ExpireRequest;
use crate::ending::Ending;
use crate::fault::Fault;
use crate::mail_file::changed_at;
use mr_compare::Digest;
use mr_fold::{OpenFolder, deleted_mails, expire_folder, open};
use std::fs::File;
use std::rt::Files;
use std::time::Clock;

/// How many seconds a day has.
const DAY: u128 = 86_400;

/// Lets the files of deleted mail go from the folder's store, or those that are old enough, and tells how many there were.
pub fn expire_mails<R: Files<File = File> + Eprint + Clock + AllocGlobal + Clone + Drop>(
    rt: &R,
    request: ExpireRequest,
) -> Result<Ending, Fault> {
    let mut folder = open(rt, request.folder)?;
    let ending = match request.days {
        Some(days) => expire_older(rt, &mut folder, request.folder, days),
        None => expire_all(rt, &mut folder),
    };
    drop(folder);
    ending
}

/// Lets the files of all deleted mail go.
fn expire_all<R: Files<File = File> + Eprint + AllocGlobal + Clone + Drop>(
    rt: &R,
    folder: &mut OpenFolder<R>,
) -> Result<Ending, Fault> {
    let expired = expire_folder(folder, &[])?;
    eprintln!(rt; "{expired} expired")?;
    Ok(Ending::Done)
}

/// Lets those files of deleted mail go that the system has left as they are for so many days.
fn expire_older<R: Files<File = File> + Eprint + Clock + AllocGlobal + Clone + Drop>(
    rt: &R,
    folder: &mut OpenFolder<R>,
    root: &str,
    days: u32,
) -> Result<Ending, Fault> {
    let now = rt.since_1970()?.as_secs();
    let deleted = deleted_mails(folder)?;
    let younger = younger_mails(rt, root, &deleted, days, now)?;
    let expired = expire_folder(folder, &younger)?;
    let kept = younger.len();
    eprintln!(rt; "{expired} expired, {kept} younger")?;
    Ok(Ending::Done)
}

/// Those of the mails whose files are younger than so many days at this time.
fn younger_mails<R: Files<File = File> + AllocGlobal>(
    rt: &R,
    root: &str,
    mails: &[Digest],
    days: u32,
    now: u64,
) -> Result<Vec<Digest>, Fault> {
    let mut younger = Vec::new(rt.alloc());
    for digest in mails {
        if let Some(changed) = changed_at(rt, root, digest)?
            && is_younger(changed, days, now)
        {
            younger.push(*digest)?;
        }
    }
    Ok(younger)
}

/// Whether it is fewer than so many days from the one time to the other, both in seconds since 1970.
fn is_younger(changed: u64, days: u32, now: u64) -> bool
    ensures { IsTrue result ↔ IsYounger changed days now }
{
    u128::from(now) < u128::from(changed) + u128::from(days) * DAY
}
