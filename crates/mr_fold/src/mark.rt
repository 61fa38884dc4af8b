//! What tells the place of a folder's journal.
ghost use Rattle.std.specs.Prelude.{◌≡◌, IfOk, string_bytes};
ghost use Rattle.sha2.specs.Sha256.{sha256};
ghost use Rattle.mr_fold.specs.Mark.{mark_text};

use mr_entry::Mark;
use sha2::{Digest, Sha256};
use std::alloc::{AllocError, Global};

/// The mark of a journal on the machine of this id, with this number of its inode: the SHA-256 of both, with a space between
/// them.
pub fn mark_of(alloc: Global, machine: &str, inode: u64) -> Result<Mark, AllocError>
    ensures { IfOk result (λ mark. mark ≡ sha256 (mark_text machine.now inode)) }
{
    let text = mark_text(alloc, machine, inode)?;
    Ok(Sha256::digest(text.as_bytes()))
}

/// The text of the machine's id and the inode's number.
fn mark_text(alloc: Global, machine: &str, inode: u64) -> Result<String, AllocError>
    ensures { IfOk result (λ text. string_bytes text ≡ mark_text machine.now inode) }
{
    let number = format!(in alloc; "{inode}")?;
    let mut text = String::from_str(alloc, machine)?;
    text.push_str(" ")?;
    text.push_str(number.as_str())?;
    Ok(text)
}
