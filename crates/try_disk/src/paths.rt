//! Files in the folder that the program runs in, by lines.
use crate::disk::Disk;
use crate::slot::{Slot, put_disk};
use crate::told::told_fault;
use crate::words::{next_bytes, next_word, words_of};
use anyhow::Result;
use mr_journal::DiskFile;
use std::alloc::Global;
use std::fs::{self, File, OpenOptions};
use std::io::Write;
use std::rt::Files;
use std::str::SplitWhitespace;

/// Does a line on files.
pub fn do_line<J: Drop, R: Files<File = File>>(
    rt: &R,
    alloc: Global,
    slots: &mut Vec<Slot<J>>,
    word: &str,
    rest: &str,
) -> Result<String> {
    let mut words = words_of(rest);
    match word {
        "file" => file(rt, alloc, slots, &mut words),
        "add" => add(rt, alloc, &mut words),
        "length" => length(rt, alloc, next_word(&mut words)),
        _ => remove(rt, alloc, next_word(&mut words)),
    }
}

/// `file D NAME`: a disk in the file of this name, which is made where there is none.
fn file<J: Drop, R: Files<File = File>>(
    rt: &R,
    alloc: Global,
    slots: &mut Vec<Slot<J>>,
    words: &mut SplitWhitespace<'_>,
) -> Result<String> {
    let name = next_word(words);
    match DiskFile::open(rt, next_word(words)) {
        Ok(file) => {
            put_disk(alloc, slots, name, Disk::in_file(alloc, file))?;
            Ok(String::new(alloc))
        }
        Err(fault) => Ok(told_fault(alloc, fault.number(), &fault)?),
    }
}

/// `add NAME HEX`: bytes behind those of a file, as a crash may leave them.
fn add<R: Files<File = File>>(
    rt: &R,
    alloc: Global,
    words: &mut SplitWhitespace<'_>,
) -> Result<String> {
    let name = next_word(words);
    let bytes = next_bytes(alloc, words)?;
    let mut file = OpenOptions::new().append(true).open(rt, name)?;
    file.write_all(&bytes)?;
    Ok(String::new(alloc))
}

/// `length NAME`: how many bytes a file has.
fn length<R: Files<File = File>>(rt: &R, alloc: Global, name: &str) -> Result<String> {
    let length = fs::metadata(rt, name)?.len();
    Ok(format!(in alloc; "bytes {length}")?)
}

/// `remove NAME`: there is no such file any more.
fn remove<R: Files<File = File>>(rt: &R, alloc: Global, name: &str) -> Result<String> {
    let _ = fs::remove_file(rt, name);
    Ok(String::new(alloc))
}
