//! Disks, by lines.
use crate::disk::{Crash, Disk, Limits, NO_LIMITS};
use crate::slot::{OnDisk, Slot, bytes_in, disk_in, next_slot, put, put_disk, set_disk, take_disk};
use crate::words::{next_byte, next_bytes, next_number, next_word, words_of};
use anyhow::{Context, Result, bail};
use std::alloc::Global;
use std::str::SplitWhitespace;

/// Does a line that changes disks, or tells of them.
pub fn do_line<J: OnDisk>(
    alloc: Global,
    slots: &mut Vec<Slot<J>>,
    word: &str,
    rest: &str,
) -> Result<String> {
    let mut words = words_of(rest);
    match word {
        "disk" => disk(alloc, slots, &mut words)?,
        "copy" => copy(alloc, slots, &mut words)?,
        "same" => return same(alloc, slots, &mut words),
        _ => {
            let slot = next_slot(slots, &mut words)?;
            return do_in(alloc, slot, word, &mut words);
        }
    }
    Ok(String::new(alloc))
}

/// Does such a line on one disk.
fn do_in<J: OnDisk>(
    alloc: Global,
    slot: &mut Slot<J>,
    word: &str,
    words: &mut SplitWhitespace<'_>,
) -> Result<String> {
    match word {
        "bytes" => bytes(alloc, slot),
        "calls" => calls(alloc, disk_in(slot)?),
        "close" => Ok(close(alloc, slot)),
        "crash" => crash(alloc, slot, next_word(words)),
        "stop" | "room" | "append" | "cut" | "flip" => renew(alloc, slot, word, words),
        _ => bail!("there is no such line: {word}"),
    }
}

/// `disk D [HEX]`: a disk in memory, with these bytes.
fn disk<J: OnDisk>(
    alloc: Global,
    slots: &mut Vec<Slot<J>>,
    words: &mut SplitWhitespace<'_>,
) -> Result<()> {
    let name = next_word(words);
    let bytes = next_bytes(alloc, words)?;
    put_bytes(alloc, slots, name, &bytes, NO_LIMITS)
}

/// `copy D E`: disk E in memory, with the bytes that D has now.
fn copy<J: OnDisk>(
    alloc: Global,
    slots: &mut Vec<Slot<J>>,
    words: &mut SplitWhitespace<'_>,
) -> Result<()> {
    let bytes = bytes_in(alloc, next_slot(slots, words)?)?;
    let name = next_word(words);
    put_bytes(alloc, slots, name, &bytes, NO_LIMITS)
}

/// A disk in memory of this name, with these bytes.
pub fn put_bytes<J: OnDisk>(
    alloc: Global,
    slots: &mut Vec<Slot<J>>,
    name: &str,
    bytes: &[u8],
    limits: Limits,
) -> Result<()> {
    let disk = Disk::in_memory(alloc, bytes, limits)?;
    put_disk(alloc, slots, name, disk)?;
    Ok(())
}

/// `close D`: what is open there ends. What waits for a commit is lost.
fn close<J: OnDisk>(alloc: Global, slot: &mut Slot<J>) -> String {
    let disk = take_disk(slot);
    put(&mut slot.disk, disk);
    String::new(alloc)
}

/// `crash D written | synced | zeros | mixed`: what is open there is gone, and the disk has what a crash leaves.
fn crash<J: OnDisk>(alloc: Global, slot: &mut Slot<J>, how: &str) -> Result<String> {
    let crash = Crash::read(how).context("no crash")?;
    let left = disk_in(slot)?.left_by(crash)?;
    set_bytes(alloc, slot, &left, NO_LIMITS)
}

/// Nothing is open there any more, and the disk is a new one of these bytes.
fn set_bytes<J: OnDisk>(
    alloc: Global,
    slot: &mut Slot<J>,
    bytes: &[u8],
    limits: Limits,
) -> Result<String> {
    let disk = Disk::in_memory(alloc, bytes, limits)?;
    set_disk(slot, disk);
    Ok(String::new(alloc))
}

/// A line that changes the bytes of a disk, or when it fails.
fn renew<J: OnDisk>(
    alloc: Global,
    slot: &mut Slot<J>,
    word: &str,
    words: &mut SplitWhitespace<'_>,
) -> Result<String> {
    let mut bytes = bytes_in(alloc, slot)?;
    let limits = changed(alloc, &mut bytes, word, words)?;
    set_bytes(alloc, slot, &bytes, limits)
}

/// `stop D N`: it fails after N steps. `room D N`: it has room for N bytes. `append D HEX`: bytes behind its own. `cut D N`: N bytes
/// are left. `flip D N BITS`: byte N is changed by these bits.
fn changed(
    alloc: Global,
    bytes: &mut Vec<u8>,
    word: &str,
    words: &mut SplitWhitespace<'_>,
) -> Result<Limits> {
    if word == "append" {
        bytes.extend_from_slice(&next_bytes(alloc, words)?)?;
        return Ok(NO_LIMITS);
    }
    let number = next_number(words)?;
    match word {
        "stop" => return Ok(Limits::after(number)),
        "room" => return Ok(Limits::at(number)),
        "cut" => bytes.truncate(usize::try_from(number)?),
        _ => flip(bytes, usize::try_from(number)?, next_byte(words)?)?,
    }
    Ok(NO_LIMITS)
}

/// Changes a byte by these bits.
pub fn flip(bytes: &mut [u8], place: usize, bits: u8) -> Result<()> {
    let byte = bytes.get_mut(place).context("there is no such byte")?;
    *byte ^= bits;
    Ok(())
}

/// `bytes D`: the bytes that it has, in hexadecimal digits.
fn bytes<J: OnDisk>(alloc: Global, slot: &Slot<J>) -> Result<String> {
    let bytes = bytes_in(alloc, slot)?;
    Ok(hex::encode(alloc, &bytes)?)
}

/// `calls D`: how often it was called since it is there.
fn calls(alloc: Global, disk: &Disk) -> Result<String> {
    let calls = disk.calls();
    let (writes, cuts, syncs, failed) = (calls.writes, calls.cuts, calls.syncs, calls.failed);
    let len = disk.bytes().len();
    Ok(format!(in alloc;
        "writes {writes}, cuts {cuts}, syncs {syncs}, failed {failed}; bytes {len}"
    )?)
}

/// `same D E`: whether two disks have the same bytes.
fn same<J: OnDisk>(
    alloc: Global,
    slots: &mut [Slot<J>],
    words: &mut SplitWhitespace<'_>,
) -> Result<String> {
    let first = bytes_in(alloc, next_slot(slots, words)?)?;
    let second = bytes_in(alloc, next_slot(slots, words)?)?;
    let told = if first.as_slice() == second.as_slice() {
        "the same"
    } else {
        "others"
    };
    Ok(String::from_str(alloc, told)?)
}
