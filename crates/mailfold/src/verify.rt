//! `verify`: whether the files of all mail are whole.
use crate::fault::Fault;
use crate::mail_file::{digest_of, is_whole, mail_bytes};
use mr_compare::Digest;
use mr_fold::needed_mails;
use mr_itemset::SparingKnowledge;
use mr_replica::{Replica, Revision};
use mr_version::Version;
use std::alloc::{AllocError, Global};
use std::collections::BTreeMap;
use std::fs::File;
use std::io::Write;
use std::rt::Files;

/// How many files are as they should be.
#[derive(Clone, Copy, Debug, PartialEq, Eq)]
pub struct Verified {
    pub whole: u64,
    pub missing: u64,
    pub damaged: u64,
    /// How many mails are deleted and have no file any more.
    pub expired: u64,
}

/// How a file stands.
#[derive(Clone, Copy, Debug, PartialEq, Eq)]
enum FileState {
    Whole,
    Missing,
    Damaged,
    Expired,
}

impl Verified {
    /// Whether all files are whole.
    pub fn is_whole(&self) -> bool {
        self.missing == 0 && self.damaged == 0
    }

    fn count(&mut self, state: FileState) {
        match state {
            FileState::Whole => self.whole = self.whole.saturating_add(1),
            FileState::Missing => self.missing = self.missing.saturating_add(1),
            FileState::Damaged => self.damaged = self.damaged.saturating_add(1),
            FileState::Expired => self.expired = self.expired.saturating_add(1),
        }
    }
}

/// Reads the file of each mail that is held, and writes a line for each that is missing or damaged: one of its versions, a tab, and
/// which of the two it is. Deleted mail needs no file. It reads each file once, whole.
pub fn verify<R: Files<File = File> + AllocGlobal, W: Write>(
    rt: &R,
    root: &str,
    replica: &Replica<SparingKnowledge>,
    output: &mut W,
) -> Result<Verified, Fault> {
    let mut verified = Verified {
        whole: 0,
        missing: 0,
        damaged: 0,
        expired: 0,
    };
    let needed = needed_mails(rt.alloc(), replica)?;
    for (digest, version) in &mails_of(rt.alloc(), replica)? {
        let state = file_state(rt, root, digest, needed.contains(digest))?;
        verified.count(state);
        print_state(*version, state, output)?;
    }
    Ok(verified)
}

/// The mails that are held, each with a version of it.
fn mails_of(
    alloc: Global,
    replica: &Replica<SparingKnowledge>,
) -> Result<BTreeMap<Digest, Version>, AllocError> {
    let mut mails = BTreeMap::new(alloc);
    put_mails(&mut mails, replica.push_outs())?;
    put_mails(&mut mails, replica.heads())?;
    Ok(mails)
}

fn put_mails(
    mails: &mut BTreeMap<Digest, Version>,
    revisions: &[Revision],
) -> Result<(), AllocError> {
    for revision in revisions {
        if let Some(digest) = digest_of(revision) {
            mails.insert(digest, revision.version())?;
        }
    }
    Ok(())
}

/// How the file of a mail stands, which is needed or not.
fn file_state<R: Files<File = File> + AllocGlobal>(
    rt: &R,
    root: &str,
    digest: &Digest,
    is_needed: bool,
) -> Result<FileState, Fault> {
    match mail_bytes(rt, root, digest)? {
        Some(bytes) if is_whole(bytes.as_slice(), digest) => Ok(FileState::Whole),
        Some(_) => Ok(FileState::Damaged),
        None if is_needed => Ok(FileState::Missing),
        None => Ok(FileState::Expired),
    }
}

fn print_state<W: Write>(version: Version, state: FileState, output: &mut W) -> Result<(), Fault> {
    let told = match state {
        FileState::Whole => return Ok(()),
        FileState::Expired => return Ok(()),
        FileState::Missing => "missing",
        FileState::Damaged => "damaged",
    };
    writeln!(output, "{version}\t{told}").map_err(Fault::Output)
}
