//! The acts for which files have to be moved, and the others.
ghost use Rattle.std.specs.Prelude.{◌≡◌, [], false, IfOk};
ghost use Rattle.mr_maildir.specs.File.{FileParts, has_file};
ghost use Rattle.mr_maildir.specs.FileActs.{mail_of, standing_files};

use mr_compare::{Digest, MailAct};
use mr_maildir::{Act, FileFault, MailFile, View, file_acts};
use mr_scan::Scan;
use std::alloc::{AllocError, Global};
use std::collections::{BTreeMap, BTreeSet};

/// Acts in two parts.
#[derive(Drop)]
struct Parted {
    /// Those for which files have to be moved.
    moved: Vec<MailAct>,
    /// The others: the files stand as they say.
    standing: Vec<MailAct>,
}

/// The acts, first those for which files have to be moved that the scan saw, and then the others, and how many the first ones are. Of a mail
/// whose file isn't here nothing is moved.
pub(crate) fn moved_first(
    alloc: Global,
    acts: Vec<MailAct>,
    scan: &Scan,
    lacking: &BTreeSet<Digest>,
) -> Result<(Vec<MailAct>, usize), AllocError> {
    let Parted {
        mut moved,
        mut standing,
    } = in_parts(alloc, acts, scan, lacking)?;
    if moved.is_empty() {
        standing.shrink_to_fit();
        return Ok((standing, 0));
    }
    let count = moved.len();
    moved.append(&mut standing)?;
    moved.shrink_to_fit();
    Ok((moved, count))
}

/// The acts in two parts, each in their order.
fn in_parts(
    alloc: Global,
    acts: Vec<MailAct>,
    scan: &Scan,
    lacking: &BTreeSet<Digest>,
) -> Result<Parted, AllocError> {
    let mut parts = Parted {
        moved: Vec::new(alloc),
        standing: Vec::new(alloc),
    };
    for mail in acts {
        let is_moved = !lacking.contains(&mail.digest) && is_moved(alloc, &mail, scan)?;
        push_act(&mut parts, mail, is_moved)?;
    }
    Ok(parts)
}

/// Puts the act behind those of its part.
fn push_act(parts: &mut Parted, mail: MailAct, is_moved: bool) -> Result<(), AllocError> {
    if is_moved {
        parts.moved.push(mail)?;
    } else {
        parts.standing.push(mail)?;
    }
    Ok(())
}

/// Whether files have to be moved for the act.
fn is_moved(alloc: Global, mail: &MailAct, scan: &Scan) -> Result<bool, AllocError> {
    match &mail.act {
        Act::Follow | Act::Remove => Ok(true),
        Act::Edit(view) => moves(alloc, seen(scan, &mail.digest), view, &mail.digest),
        Act::Agree | Act::Create | Act::Delete => Ok(false),
    }
}

/// The mail's files that the scan saw.
pub(crate) fn seen<'a>(scan: &'a Scan, digest: &Digest) -> &'a [MailFile] {
    match scan.mails.get(digest) {
        Some(files) => files,
        None => &[],
    }
}

/// Whether of the mail's files, of which these are seen, some have to be moved, so that they stand as the view says.
fn moves(alloc: Global, seen: &[MailFile], view: &View, digest: &Digest) -> Result<bool, AllocError>
    // Where none has to be, the files that are seen are just those of the view.
    ensures { IfOk result (λ moves. moves ≡ false → (file : FileParts)
        → has_file seen.now file ≡ has_file (standing_files (mail_of seen.now view.now.flags [] digest.now []) view.now.labels) file) }
{
    match file_acts(alloc, seen, view, "", digest, &[]) {
        Ok(acts) => Ok(!acts.is_empty()),
        Err(FileFault::NameTaken) => Ok(true),
        Err(FileFault::OutOfMemory) => Err(AllocError),
    }
}

/// The files of those mails that these acts create, of a scan's files. It costs a binary search for each of these.
pub(crate) fn created_files(
    alloc: Global,
    files: BTreeMap<Digest, Vec<MailFile>>,
    acts: &[MailAct],
) -> Result<BTreeMap<Digest, Vec<MailFile>>, AllocError> {
    let mut files = files;
    let created = created_mails(alloc, acts)?;
    files.retain(|digest, _| created.binary_search(digest).is_ok());
    Ok(files)
}

/// The mails that these acts create, in rising order of their digests.
fn created_mails(alloc: Global, acts: &[MailAct]) -> Result<Vec<Digest>, AllocError> {
    let mut created = Vec::new(alloc);
    for mail in acts {
        if let Act::Create = &mail.act {
            created.push(mail.digest)?;
        }
    }
    created.sort_unstable();
    Ok(created)
}
