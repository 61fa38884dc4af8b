//! The names of a folder's logs: the log that counts, the next one before it counts, and old ones that are kept.
ghost use Rattle.std.specs.Prelude.{◌≡◌, IfOk, string_bytes, codes};
ghost use Rattle.mailfold.specs.LogNames.{inside, old_name};

use std::alloc::{AllocError, Global};

/// The most old logs that are kept.
pub const MAX_OLD_LOGS: u32 = 999;

/// The path of the log, from the folder that the program runs in.
pub fn log_path(alloc: Global, root: &str) -> Result<String, AllocError>
    ensures { IfOk result (λ path. string_bytes path ≡ inside root.now (codes "log")) }
{
    path_inside(alloc, root, "log")
}

/// The path of the next log, before it takes the log's place.
pub fn next_path(alloc: Global, root: &str) -> Result<String, AllocError>
    ensures { IfOk result (λ path. string_bytes path ≡ inside root.now (codes "log.next")) }
{
    path_inside(alloc, root, "log.next")
}

/// The path of a copy of the log, before it gets its name.
pub fn copy_path(alloc: Global, root: &str) -> Result<String, AllocError>
    ensures { IfOk result (λ path. string_bytes path ≡ inside root.now (codes "log.copy")) }
{
    path_inside(alloc, root, "log.copy")
}

/// The path of the old log of this number.
pub fn old_path(alloc: Global, root: &str, number: u32) -> Result<String, AllocError>
    ensures { IfOk result (λ path. string_bytes path ≡ inside root.now (old_name number)) }
{
    let name = old_name(alloc, number)?;
    path_inside(alloc, root, name.as_str())
}

/// The name of the old log of this number.
fn old_name(alloc: Global, number: u32) -> Result<String, AllocError>
    ensures { IfOk result (λ name. string_bytes name ≡ old_name number) }
{
    let digits = format!(in alloc; "{number}")?;
    let mut name = String::from_str(alloc, "log.")?;
    name.push_str(digits.as_str())?;
    Ok(name)
}

/// The path of a file that the program keeps in the folder.
fn path_inside(alloc: Global, root: &str, name: &str) -> Result<String, AllocError>
    ensures { IfOk result (λ path. string_bytes path ≡ inside root.now name.now) }
{
    let mut path = String::from_str(alloc, root)?;
    path.push_str("/.mailfold/")?;
    path.push_str(name)?;
    Ok(path)
}
