//! The files of a listing.
ghost use Rattle.std.specs.Prelude.{◌≡◌, ◌↔◌, IfOk, IfSome, IsSome};
ghost use Rattle.mr_folder.specs.Inside.{IsPart, mail_path};
ghost use Rattle.mr_maildir.specs.File.{name_of};
ghost use Rattle.mr_maildir.specs.Name.{IsName, name_text};
ghost use Rattle.mr_scan.specs.inner.Found.{is_of_new};

use crate::folders::MailFolder;
use mr_folder::{FilePath, Part};
use mr_maildir::MailFile;
use std::alloc::{AllocError, Global};

/// A file of a listing.
#[derive(Debug, Drop)]
pub(crate) struct FoundFile {
    /// Its path below the Maildir.
    pub(crate) path: FilePath,
    /// What its folder and its name tell.
    pub(crate) file: MailFile,
}

/// The file of this name in a part of a folder. `None` exactly where the name is that of no file.
pub(crate) fn found_file(
    alloc: Global,
    folder: &MailFolder,
    part: Part,
    name: &str,
) -> Result<Option<FoundFile>, AllocError>
    ensures is { IfOk result (λ found. IsSome found ↔ IsPart name.now) }
    ensures path { IfOk result (λ found. IfSome found (λ f. f.path ≡ mail_path folder.now.path part name.now)) }
    ensures label { IfOk result (λ found. IfSome found (λ f. f.file.label ≡ folder.now.label)) }
    ensures is_new { IfOk result (λ found. IfSome found (λ f. f.file.is_new ≡ is_of_new part)) }
    ensures named { IfOk result (λ found. IfSome found (λ f. name_text (name_of f.file) ≡ name.now)) }
    ensures is_name { IfOk result (λ found. IfSome found (λ f. IsName (name_of f.file))) }
{
    match FilePath::mail(alloc, &folder.path, part, name)? {
        Some(path) => {
            let file = MailFile::read(alloc, &folder.label, is_of_new(part), name)?;
            Ok(Some(FoundFile { path, file }))
        }
        None => Ok(None),
    }
}

/// Whether it is the part with mail that no program has looked at.
fn is_of_new(part: Part) -> bool
    ensures { result ≡ is_of_new part }
{
    match part {
        Part::Cur => false,
        Part::New => true,
    }
}
