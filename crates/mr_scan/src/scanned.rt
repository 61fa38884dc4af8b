//! What a scan has found.
ghost use Rattle.std.specs.Prelude.{◌≡◌, ◌&&◌, ◌++◌, ◌∷◌, [], ℕ, List, if◌then◌else◌, not, None, IfOk, OnOk};
ghost use Rattle.std.specs.Map.{lookup};
ghost use Rattle.std.specs.Ordering.{is_eq};
ghost use Rattle.mr_mail.specs.Label.{text_cmp};
ghost use Rattle.mr_scan.specs.inner.Scan.{files_at, files_with, files_noted, is_gone, is_no_file, is_adopted, counted};

use mr_maildir::MailFile;
use std::alloc::{AllocError, Global};
use std::collections::BTreeMap;

/// What a Maildir shows.
#[derive(Drop)]
pub struct Scan {
    /// The files of each mail, by the SHA-256 of their bytes, in the order of the folders and the names in them.
    pub mails: BTreeMap<[u8; 32], Vec<MailFile>>,
    /// Whether no folder changed meanwhile, and no file went. Only then a mail that isn't found isn't there.
    pub is_quiet: bool,
    /// How many names in the folders aren't UTF-8, or are those of no file.
    pub unreadable: u64,
    /// How many files were read, since their inodes weren't those of mails of the store.
    pub adopted: u64,
}

/// What a name in a folder is.
#[derive(Clone, Copy, Debug, PartialEq, Eq)]
pub(crate) enum Sight {
    /// A mail of the store.
    Stored([u8; 32]),
    /// A mail that had to be read.
    Adopted([u8; 32]),
    /// A file that went, or changed while it was read.
    Gone,
    /// No file, as a folder.
    NoFile,
}

impl Scan {
    /// Notes what a name in a folder is, which is this file's.
    pub(crate) fn note(
        &mut self,
        alloc: Global,
        sight: Sight,
        file: MailFile,
    ) -> Result<(), AllocError>
        ensures mails { OnOk result ((digest : List ℕ) → files_at self.new.mails.entries digest
            ≡ files_noted sight file digest (files_at self.old.mails.entries digest)) }
        ensures is_quiet { OnOk result (self.new.is_quiet ≡ (self.old.is_quiet && not (is_gone sight))) }
        ensures unreadable { OnOk result (self.new.unreadable ≡ counted (is_no_file sight) self.old.unreadable) }
        ensures adopted { OnOk result (self.new.adopted ≡ counted (is_adopted sight) self.old.adopted) }
    {
        match sight {
            Sight::Stored(digest) => put(alloc, &mut self.mails, digest, file),
            Sight::Adopted(digest) => {
                self.adopted = self.adopted.saturating_add(1);
                put(alloc, &mut self.mails, digest, file)
            }
            Sight::Gone => {
                self.is_quiet = false;
                Ok(())
            }
            Sight::NoFile => {
                self.unreadable = self.unreadable.saturating_add(1);
                Ok(())
            }
        }
    }
}

/// Puts a file behind the others of its mail.
fn put(
    alloc: Global,
    mails: &mut BTreeMap<[u8; 32], Vec<MailFile>>,
    digest: [u8; 32],
    file: MailFile,
) -> Result<(), AllocError>
    ensures { OnOk result ((other : List ℕ) → files_at mails.new.entries other
        ≡ files_with (is_eq (text_cmp digest other)) file (files_at mails.old.entries other)) }
{
    let one = alone(alloc, file)?;
    match mails.insert(digest, one)? {
        Some(before) => put_behind(alloc, mails, digest, before),
        None => Ok(()),
    }
}

/// A file alone. Most mails have one.
fn alone(alloc: Global, file: MailFile) -> Result<Vec<MailFile>, AllocError>
    ensures { IfOk result (λ files. files.items ≡ file ∷ []) }
{
    let mut files = Vec::with_capacity(alloc, 1)?;
    files.push(file)?;
    Ok(files)
}

/// Puts the files of a mail behind those that were found before.
fn put_behind(
    alloc: Global,
    mails: &mut BTreeMap<[u8; 32], Vec<MailFile>>,
    digest: [u8; 32],
    before: Vec<MailFile>,
) -> Result<(), AllocError>
    ensures { OnOk result ((other : List ℕ) → files_at mails.new.entries other
        ≡ (if is_eq (text_cmp digest other) then before.items ++ files_at mails.old.entries digest else files_at mails.old.entries other)) }
{
    let mut files = before;
    let mut own = taken(alloc, mails, digest);
    files.append(&mut own)?;
    mails.insert(digest, files)?;
    Ok(())
}

/// Takes out the files of a mail.
fn taken(
    alloc: Global,
    mails: &mut BTreeMap<[u8; 32], Vec<MailFile>>,
    digest: [u8; 32],
) -> Vec<MailFile>
    ensures files { result.items ≡ files_at mails.old.entries digest }
    ensures gone { (other : List ℕ) → lookup (λ own. is_eq (text_cmp other own)) mails.new.entries
        ≡ (if is_eq (text_cmp digest other) then None else lookup (λ own. is_eq (text_cmp other own)) mails.old.entries) }
{
    match mails.remove(&digest) {
        Some(files) => files,
        None => Vec::new(alloc),
    }
}
