//! The files of scenes, and whether each is as it has to be.
use crate::form::Form;
use crate::play::transcript;
use anyhow::{Context, Result};
use mr_forms::PlainKnowledge;
use mr_itemset::{ItemKnowledge, SparingKnowledge};
use std::rt::{Env, Files};
use std::sync::Wait;
use std::thread::Threads;
use std::{env, fs};

/// Whether each file of scenes is as it has to be. Prints a line for each, and then how many there are.
pub fn are_ok<R: Env + Files + Print + AllocGlobal + Threads + Wait + Sync + Send + Copy>(
    rt: &R,
) -> Result<bool> {
    let folder = folder(rt)?;
    let names = file_names(rt, folder.as_str())?;
    are_all_ok(rt, folder.as_str(), &names)
}

/// Whether each of these files that is one of scenes is as it has to be.
fn are_all_ok<R: Files + Print + AllocGlobal + Threads + Wait + Sync + Send + Copy>(
    rt: &R,
    folder: &str,
    names: &[String],
) -> Result<bool> {
    let mut files = 0u64;
    let mut differing = 0u64;
    for file in names {
        if let Some(name) = file.strip_suffix(".scene") {
            files = files.saturating_add(1);
            differing = differing.saturating_add(u64::from(!is_ok(rt, folder, name)?));
        }
    }
    println!(rt; "{files} files of scenes, {differing} differ")?;
    Ok(differing == 0)
}

/// The folder of the scenes.
fn folder<R: Env + AllocGlobal>(rt: &R) -> Result<String> {
    match env::args(rt)?.nth(1) {
        Some(folder) => Ok(folder),
        None => Ok(String::from_str(rt.alloc(), ".")?),
    }
}

/// The names of the files in the folder, in order.
fn file_names<R: Files + AllocGlobal + Copy>(rt: &R, folder: &str) -> Result<Vec<String>> {
    let mut names = Vec::new(rt.alloc());
    for entry in fs::read_dir(rt, folder)? {
        names.push(String::from_str(rt.alloc(), entry?.file_name())?)?;
    }
    names.sort()?;
    Ok(names)
}

/// Whether the scenes of this name are as they have to be over each form of knowledge.
fn is_ok<R: Files + Print + AllocGlobal + Threads + Wait + Sync + Send + Copy>(
    rt: &R,
    folder: &str,
    name: &str,
) -> Result<bool> {
    let wanted = read(rt, folder, name)?;
    is_ok_over_all(rt, name, wanted.as_str())
}

/// Whether the transcript over each form of knowledge is the file.
fn is_ok_over_all<R: Print + AllocGlobal + Threads + Wait + Sync + Send + Copy>(
    rt: &R,
    name: &str,
    wanted: &str,
) -> Result<bool> {
    let over_items = is_ok_over::<ItemKnowledge, R>(rt, name, wanted)?;
    let over_plain = is_ok_over::<PlainKnowledge, R>(rt, name, wanted)?;
    let over_sparing = is_ok_over::<SparingKnowledge, R>(rt, name, wanted)?;
    let is_ok = over_items && over_plain && over_sparing;
    if is_ok {
        println!(rt; "ok {name}")?;
    }
    Ok(is_ok)
}

/// The text of a file.
fn read<R: Files + AllocGlobal>(rt: &R, folder: &str, name: &str) -> Result<String> {
    let path = format!(in rt.alloc(); "{folder}/{name}.scene")?;
    fs::read_to_string(rt, path.as_str()).context(format_args!("reading {path}"))
}

/// Whether the transcript over this form of knowledge is the file. Prints it where it isn't.
fn is_ok_over<
    K: Form<Vector: Send> + Send,
    R: Print + AllocGlobal + Threads + Wait + Sync + Send + Copy,
>(rt: &R, name: &str, wanted: &str) -> Result<bool> {
    let played = transcript::<K, R>(rt, wanted)?;
    let is_ok = played.as_str() == wanted;
    if !is_ok {
        println!(rt; "{name} over {} differs:\n{played}", K::name())?;
    }
    Ok(is_ok)
}
