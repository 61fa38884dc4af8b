//! Files of scenes.
use crate::disk::Disk;
use crate::play::transcript;
use anyhow::{Context, Result};
use mr_forms::Knowledge;
use mr_itemset::{ItemKnowledge, SparingKnowledge};
use mr_kept::Journaled;
use mr_replica::Replica;
use std::fs;
use std::fs::File;
use std::rt::Files;

/// Whether each file of scenes in the folder is as it has to be. Prints a line for each, and then how many there are.
pub fn run_all<R: Files<File = File> + Print + AllocGlobal + Copy>(
    rt: &R,
    folder: &str,
) -> Result<bool> {
    let mut files = 0u64;
    let mut differing = 0u64;
    for file in &file_names(rt, folder)? {
        if let Some(name) = file.strip_suffix(".scene") {
            files = files.saturating_add(1);
            differing = differing.saturating_add(u64::from(!is_ok(rt, folder, name)?));
        }
    }
    println!(rt; "{files} files of scenes, {differing} differ")?;
    Ok(differing == 0)
}

/// The names of the files in the folder, in order.
fn file_names<R: Files + AllocGlobal + Copy>(rt: &R, folder: &str) -> Result<Vec<String>> {
    let mut names = Vec::new(rt.alloc());
    for entry in fs::read_dir(rt, folder)? {
        names.push(String::from_str(rt.alloc(), entry?.file_name())?)?;
    }
    names.sort()?;
    Ok(names)
}

/// Whether the scenes of this name are as they have to be over each form of knowledge.
fn is_ok<R: Files<File = File> + Print + AllocGlobal>(
    rt: &R,
    folder: &str,
    name: &str,
) -> Result<bool> {
    let path = format!(in rt.alloc(); "{folder}/{name}.scene")?;
    let wanted = fs::read_to_string(rt, path.as_str()).context(format_args!("reading {path}"))?;
    let over_items = is_ok_over::<ItemKnowledge, R>(rt, name, wanted.as_str())?;
    let over_sparing = is_ok_over::<SparingKnowledge, R>(rt, name, wanted.as_str())?;
    let is_ok = over_items && over_sparing;
    if is_ok {
        println!(rt; "ok {name}")?;
    }
    Ok(is_ok)
}

/// Whether what the scenes come to over this form of knowledge is the file. Prints the first line that differs and what they come
/// to where it isn't.
fn is_ok_over<K: Knowledge, R: Files<File = File> + Print + AllocGlobal>(
    rt: &R,
    name: &str,
    wanted: &str,
) -> Result<bool> {
    let played = transcript::<Journaled<K, Disk>, Replica<K>, R>(rt, wanted)?;
    let is_ok = played.as_str() == wanted;
    if !is_ok {
        let line = first_difference(wanted, played.as_str());
        println!(rt; "{name} differs at line {line}:\n{played}")?;
    }
    Ok(is_ok)
}

/// The number of the first line that differs, from 1.
fn first_difference(wanted: &str, played: &str) -> u64 {
    let mut number = 1u64;
    let mut lines = played.lines();
    for line in wanted.lines() {
        if lines.next() != Some(line) {
            return number;
        }
        number = number.saturating_add(1);
    }
    number
}
