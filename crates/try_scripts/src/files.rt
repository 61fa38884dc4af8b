//! The files of a folder, and those of a row.
use crate::many::written_out;
use anyhow::{Context, Result};
use std::fs;
use std::rt::Files;

/// The bytes of a row's file of this kind, with its lines written out.
pub fn written<R: Files + AllocGlobal>(
    rt: &R,
    folder: &str,
    name: &str,
    kind: &str,
) -> Result<Vec<u8>> {
    let bytes = read(rt, folder, name, kind)?;
    written_out(rt.alloc(), bytes.as_slice())
}

/// The text of a row's file of this kind.
pub fn text<R: Files + AllocGlobal>(
    rt: &R,
    folder: &str,
    name: &str,
    kind: &str,
) -> Result<String> {
    Ok(String::from_utf8(read(rt, folder, name, kind)?)?)
}

/// The bytes of a row's file of this kind.
fn read<R: Files + AllocGlobal>(rt: &R, folder: &str, name: &str, kind: &str) -> Result<Vec<u8>> {
    let path = format!(in rt.alloc(); "{folder}/{name}.{kind}")?;
    fs::read(rt, path.as_str()).context(format_args!("reading {path}"))
}

/// Whether a row has a file of this kind.
pub fn is_there<R: Files + AllocGlobal>(
    rt: &R,
    folder: &str,
    name: &str,
    kind: &str,
) -> Result<bool> {
    let path = format!(in rt.alloc(); "{folder}/{name}.{kind}")?;
    Ok(fs::exists(rt, path.as_str())?)
}

/// The names of the files in the folder, in order.
pub fn file_names<R: Files + AllocGlobal + Clone + Drop>(
    rt: &R,
    folder: &str,
) -> Result<Vec<String>> {
    let mut names = Vec::new(rt.alloc());
    for entry in fs::read_dir(rt, folder)? {
        names.push(String::from_str(rt.alloc(), entry?.file_name())?)?;
    }
    names.sort()?;
    Ok(names)
}
