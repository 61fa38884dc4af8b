//! The files of mail, as the store of a folder has them.
use crate::fault::Fault;
use mr_compare::Digest;
use mr_folder::FilePath;
use mr_maildir::{HEADER_BYTES, Header, read_header, read_reference};
use mr_replica::Revision;
use sha2::{Digest as _, Sha256};
use std::alloc::Global;
use std::fs::{self, File};
use std::io::{self, ErrorKind, Read};
use std::os::unix::fs::MetadataExt;
use std::rt::Files;

/// The digest of the mail that the revision is of; none where it is of no mail's file.
pub fn digest_of(revision: &Revision) -> Option<Digest> {
    match read_reference(revision.message().body()) {
        Some(reference) => Some(reference.digest),
        None => None,
    }
}

/// The header of the revision's mail; an empty one where its file isn't here.
///
/// It reads the first [`HEADER_BYTES`] of the file.
pub fn header_of<R: Files<File = File> + AllocGlobal>(
    rt: &R,
    root: &str,
    revision: &Revision,
) -> Result<Header, Fault> {
    let alloc = rt.alloc();
    let bytes = match digest_of(revision) {
        Some(digest) => first_bytes(rt, path_of(alloc, root, &digest)?)?,
        None => Vec::new(alloc),
    };
    Ok(read_header(alloc, bytes.as_slice())?)
}

/// The bytes of a mail's file; none where it isn't there.
pub fn mail_bytes<R: Files<File = File> + AllocGlobal>(
    rt: &R,
    root: &str,
    digest: &Digest,
) -> Result<Option<Vec<u8>>, Fault> {
    let path = path_of(rt.alloc(), root, digest)?;
    match fs::read(rt, path.as_str()) {
        Ok(bytes) => Ok(Some(bytes)),
        Err(said) if said.kind() == ErrorKind::NotFound => Ok(None),
        Err(said) => Err(Fault::File { path, said }),
    }
}

/// When the system last changed what it notes of a mail's file, `st_ctime` of POSIX, in seconds since 1970, and 0 for a time before; none where
/// there is no file. It does so when the file gets or loses a path.
pub fn changed_at<R: Files<File = File> + AllocGlobal>(
    rt: &R,
    root: &str,
    digest: &Digest,
) -> Result<Option<u64>, Fault> {
    let path = path_of(rt.alloc(), root, digest)?;
    match fs::symlink_metadata(rt, path.as_str()) {
        Ok(told) => Ok(Some(u64::try_from(told.ctime()).unwrap_or(0))),
        Err(said) if said.kind() == ErrorKind::NotFound => Ok(None),
        Err(said) => Err(Fault::File { path, said }),
    }
}

/// Whether these are the bytes of the mail.
pub fn is_whole(bytes: &[u8], digest: &Digest) -> bool {
    Sha256::digest(bytes) == *digest
}

/// The path of a mail's file from the folder that the program runs in.
fn path_of(alloc: Global, root: &str, digest: &Digest) -> Result<String, Fault> {
    let path = FilePath::stored(alloc, digest)?;
    let inside = path.as_str();
    Ok(format!(in alloc; "{root}/{inside}")?)
}

/// The first bytes of a file, as many as a header may have; none where there is no file.
fn first_bytes<R: Files<File = File> + AllocGlobal>(
    rt: &R,
    path: String,
) -> Result<Vec<u8>, Fault> {
    match opened_beginning(rt, path.as_str()) {
        Ok(bytes) => Ok(bytes),
        Err(said) if said.kind() == ErrorKind::NotFound => Ok(Vec::new(rt.alloc())),
        Err(said) => Err(Fault::File { path, said }),
    }
}

/// The first bytes of the file at a path, as many as a header may have.
fn opened_beginning<R: Files<File = File> + AllocGlobal>(
    rt: &R,
    path: &str,
) -> io::Result<Vec<u8>> {
    beginning(rt.alloc(), fs::open(rt, path)?)
}

/// The first bytes of a reader, as many as a header may have.
fn beginning<F: Read + Drop>(alloc: Global, file: F) -> io::Result<Vec<u8>> {
    let mut bytes = Vec::new(alloc);
    file.take(HEADER_BYTES as u64).read_to_end(&mut bytes)?;
    Ok(bytes)
}
