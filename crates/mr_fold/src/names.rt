//! The names of all mails' files.
use mr_compare::Digest;
use mr_maildir::{MailFile, unique_for};
use mr_scan::Scan;
use std::alloc::{AllocError, Global};
use std::cmp::Ordering;
use std::collections::BTreeMap;

/// A file of a mail that was seen.
#[derive(Clone, Copy)]
struct SeenFile<'a> {
    digest: &'a Digest,
    file: &'a MailFile,
}

/// A file of a mail that was made.
#[derive(Drop)]
struct MadeFile {
    digest: Digest,
    file: MailFile,
}

/// The files of all mails, by the unique parts of their names, so that no mail's file gets the name of another's.
#[derive(Drop)]
pub(crate) struct FileNames<'a> {
    alloc: Global,
    /// Those that were seen, in the order of the unique parts.
    seen: Vec<SeenFile<'a>>,
    /// Those that were made, by the unique parts.
    made: BTreeMap<String, Vec<MadeFile>>,
}

impl<'a> FileNames<'a> {
    /// The names of the files that were seen, if some are to be made.
    pub(crate) fn of(
        alloc: Global,
        scan: &'a Scan,
        are_made: bool,
    ) -> Result<FileNames<'a>, AllocError> {
        let seen = if are_made {
            seen_files(alloc, scan)?
        } else {
            Vec::new(alloc)
        };
        Ok(FileNames {
            alloc,
            seen,
            made: BTreeMap::new(alloc),
        })
    }

    /// Notes a file of a mail that was made.
    pub(crate) fn note(&mut self, digest: &Digest, file: &MailFile) -> Result<(), AllocError> {
        let made = MadeFile {
            digest: *digest,
            file: copied(self.alloc, file)?,
        };
        let mut files = match self.made.remove(file.unique()) {
            Some(files) => files,
            None => Vec::with_capacity(self.alloc, 1)?,
        };
        files.push(made)?;
        let unique = String::from_str(self.alloc, file.unique())?;
        self.made.insert(unique, files)?;
        Ok(())
    }

    /// The files of other mails that may be in the way where this one's, of which these are seen and this name was told, get other names.
    pub(crate) fn taken(
        &self,
        digest: &Digest,
        seen: &[MailFile],
        told: &str,
    ) -> Result<Vec<MailFile>, AllocError> {
        let mut taken = Vec::new(self.alloc);
        for file in seen {
            self.push_others(&mut taken, digest, file.unique())?;
        }
        let unique = unique_for(self.alloc, told, digest)?;
        self.push_others(&mut taken, digest, unique.as_str())?;
        let digits = hex::encode(self.alloc, digest.as_slice())?;
        self.push_others(&mut taken, digest, digits.as_str())?;
        Ok(taken)
    }

    /// Puts the files of other mails with this unique part behind the others.
    fn push_others(
        &self,
        taken: &mut Vec<MailFile>,
        digest: &Digest,
        unique: &str,
    ) -> Result<(), AllocError> {
        for seen in self.seen_from(unique) {
            if seen.file.unique() != unique {
                break;
            }
            self.push_other(taken, digest, seen.digest, seen.file)?;
        }
        if let Some(files) = self.made.get(unique) {
            for made in files {
                self.push_other(taken, digest, &made.digest, &made.file)?;
            }
        }
        Ok(())
    }

    /// The files that were seen, from the first one on whose unique part isn't before this one.
    fn seen_from(&self, unique: &str) -> &[SeenFile<'a>] {
        let start = self
            .seen
            .partition_point(|seen| seen.file.unique().cmp(unique) == Ordering::Less);
        &self.seen[start..]
    }

    /// Puts the file of a mail behind the others, if that isn't this mail.
    fn push_other(
        &self,
        taken: &mut Vec<MailFile>,
        digest: &Digest,
        other: &Digest,
        file: &MailFile,
    ) -> Result<(), AllocError> {
        if *other != *digest {
            taken.push(copied(self.alloc, file)?)?;
        }
        Ok(())
    }
}

/// The files that were seen, in the order of the unique parts. It takes 16 bytes for each file.
fn seen_files<'a>(alloc: Global, scan: &'a Scan) -> Result<Vec<SeenFile<'a>>, AllocError> {
    let mut seen = Vec::with_capacity(alloc, scan.mails.len())?;
    for (digest, files) in scan.mails.iter() {
        push_files(&mut seen, digest, files)?;
    }
    seen.sort_unstable_by(|a, b| a.file.unique().cmp(b.file.unique()));
    Ok(seen)
}

/// Puts the files of a mail behind the others.
fn push_files<'a>(
    seen: &mut Vec<SeenFile<'a>>,
    digest: &'a Digest,
    files: &'a [MailFile],
) -> Result<(), AllocError> {
    for file in files {
        seen.push(SeenFile { digest, file })?;
    }
    Ok(())
}

/// An equal file.
fn copied(alloc: Global, file: &MailFile) -> Result<MailFile, AllocError> {
    let name = file.name(alloc)?;
    MailFile::read(alloc, file.label(), file.is_new(), name.as_str())
}
