//! The message of a new mail.
ghost use Rattle.std.specs.Prelude.{◌≡◌, ◌<◌, ◌↔◌, Err, IfErr, IfOk, length, map, string_bytes};
ghost use Rattle.mr_mail.specs.declared.label.TheConstants.{MAX_LABELS};
ghost use Rattle.mr_scan.specs.Folders.{folder_parts};
ghost use Rattle.mr_fold.specs.Message.{IsUnwritten, day_at, folder_lines, new_mail};
ghost use Rattle.mr_fold.specs.Message as specs;
ghost use Rattle.mr_fold.specs.declared.fault.SettleFault.TheVariants.{TooManyFolders};

use crate::fault::SettleFault;
use mr_compare::Digest;
use mr_mail::{Day, Message};
use mr_maildir::{MailReference, View, with_told_folder};
use mr_scan::MailFolder;
use std::alloc::{AllocError, Global};

/// Nanoseconds of a day.
const DAY: u64 = 86_400_000_000_000;

/// The message of a mail with a file of this digest and size, that stands so: its body refers to the file, with these lines.
/// Sender and subject are empty, since they stand in the file.
///
/// `TooManyFolders` where it stands in more than 16 folders, and else `OutOfMemory`.
pub fn new_mail(
    alloc: Global,
    digest: &Digest,
    size: u64,
    lines: &str,
    view: View,
    day: Day,
) -> Result<Message, SettleFault>
    ensures value { IfOk result (λ message. message ≡ new_mail (record { digest = digest.now; size = size; lines = lines.now }) view day) }
    ensures many { (result ≡ Err (TooManyFolders digest.now)) ↔ (MAX_LABELS < length view.labels) }
    ensures only { IfErr result (IsUnwritten digest.now) }
{
    let Some(place) = view.into_place(day) else {
        return Err(SettleFault::TooManyFolders(*digest));
    };
    let reference = MailReference {
        digest: *digest,
        size,
        lines,
    };
    let body = reference.write(alloc)?;
    match Message::try_of_place(alloc, "", "", body.as_bytes(), place) {
        Ok(message) => Ok(message),
        Err(_) => Err(SettleFault::OutOfMemory),
    }
}

/// The day of a time in nanoseconds since 1970; the last one that there is, for a later time.
pub fn day_at(time: u64) -> Day
    ensures { result ≡ day_at time }
{
    Day::new(u16::try_from(time / DAY).unwrap_or(u16::MAX))
}

/// The lines, with the names told of those of the folders that the mail stands in and whose label isn't their name. A name that others wouldn't take is
/// left out.
pub fn folder_lines(
    alloc: Global,
    lines: String,
    folders: &[MailFolder],
    view: &View,
) -> Result<String, AllocError>
    ensures { IfOk result (λ text. string_bytes text ≡ folder_lines (string_bytes lines) (map folder_parts folders.now) view.now) }
{
    let mut text = lines;
    for folder in folders {
        text = folder_line(alloc, text, folder, view)?;
    }
    Ok(text)
}

/// The lines, with the folder's name told, if the mail stands in it and it isn't the label.
fn folder_line(
    alloc: Global,
    lines: String,
    folder: &MailFolder,
    view: &View,
) -> Result<String, AllocError>
    ensures { IfOk result (λ text. string_bytes text ≡ specs.folder_line (string_bytes lines) (folder_parts folder.now) view.now) }
{
    if view.contains(&folder.label) && folder.name.as_str() != folder.label.as_str() {
        with_told_folder(alloc, lines.as_str(), &folder.label, folder.name.as_str())
    } else {
        Ok(lines)
    }
}
