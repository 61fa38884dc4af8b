//! Faults, as they are told.
use crate::disk::Disk;
use anyhow::{Context, Result};
use std::alloc::{AllocError, Global};
use std::fmt::Display;

/// A fault by its number.
pub fn told_fault<F: Display>(alloc: Global, number: u8, fault: &F) -> Result<String, AllocError> {
    format!(in alloc; "fault {number}: {fault}")
}

/// A fault, and whether the disk, which stands in its place again, is as before.
pub fn told_refused<F: Display>(
    alloc: Global,
    number: u8,
    fault: &F,
    before: &[u8],
    disk: Option<&Disk>,
) -> Result<String> {
    let disk = disk.context("the disk is gone")?;
    let end = if disk.bytes() == before {
        "untouched"
    } else {
        "changed"
    };
    Ok(format!(in alloc; "fault {number}: {fault}; {end}")?)
}
