//! What tells a journal from all others: when it was begun, and where it is.
use crate::fault::Fault;
use mr_entry::{Birth, Mark};
use mr_filter::Filter;
use mr_journal::DiskFile;
use mr_kept::Setup;
use mr_version::Author;
use std::fs::File;
use std::io::Read;
use std::rt::Files;

/// How many events a device's log takes.
const EVENT_LIMIT: u32 = 1_000;

/// Where the system has random bytes.
const RANDOM: &str = "/dev/urandom";

/// Random bytes for a journal that is begun. Two journals of one id are found out by them.
pub fn birth<R: Files<File = File>>(rt: &R) -> Result<Birth, Fault> {
    let mut birth = [0u8; 16];
    match File::open(rt, RANDOM) {
        Ok(mut file) => match file.read_exact(&mut birth) {
            Ok(()) => Ok(birth),
            Err(_) => Err(Fault::Random),
        },
        Err(_) => Err(Fault::Random),
    }
}

/// Where the journal is: here the file's inode alone, which a copy doesn't have. A program that may meet several machines adds the
/// machine's id.
pub fn mark_of(file: &DiskFile) -> Result<Mark, Fault> {
    match file.inode() {
        Ok(inode) => Ok(mark_with(inode)),
        Err(_) => Err(Fault::Random),
    }
}

fn mark_with(inode: u64) -> Mark {
    let mut mark = [0u8; 32];
    mark[..8].copy_from_slice(&inode.to_be_bytes());
    mark
}

/// What a device is begun with.
pub fn setup_of(id: Author, filter: Filter, birth: Birth, mark: Mark) -> Setup {
    Setup {
        id,
        filter,
        event_limit: EVENT_LIMIT,
        birth,
        mark,
    }
}
