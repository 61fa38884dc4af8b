//! `show` and `export`: what one version says, and its mail's file.
use crate::fault::Fault;
use crate::mail_file::{digest_of, header_of, is_whole, mail_bytes};
use crate::words::{flags_text, labels_text};
use mr_itemset::SparingKnowledge;
use mr_mail::Message;
use mr_maildir::{Header, MailReference, printable, read_reference, told_name};
use mr_replica::{Replica, Revision};
use mr_version::Version;
use std::alloc::{AllocError, Global};
use std::fs::File;
use std::io::Write;
use std::rt::Files;

/// Writes what a held version says of its mail: a line for each field, its name and a space before it.
pub fn print_version<R: Files<File = File> + AllocGlobal, W: Write>(
    rt: &R,
    root: &str,
    replica: &Replica<SparingKnowledge>,
    version: Version,
    output: &mut W,
) -> Result<(), Fault> {
    let alloc = rt.alloc();
    let revision = held(replica, version)?;
    let header = header_of(rt, root, revision)?;
    let text = version_text(alloc, revision, &header)?;
    let text = text.as_str();
    write!(output, "{text}").map_err(Fault::Output)
}

/// The lines of a version.
fn version_text(alloc: Global, revision: &Revision, header: &Header) -> Result<String, AllocError> {
    let mut lines = String::new(alloc);
    push_place(&mut lines, alloc, revision)?;
    push_file(&mut lines, alloc, revision.message())?;
    push_header(&mut lines, alloc, header)?;
    Ok(lines)
}

/// Writes the file of a held version's mail. It is read whole, and compared with its digest before.
pub fn print_mail<R: Files<File = File> + AllocGlobal, W: Write>(
    rt: &R,
    root: &str,
    replica: &Replica<SparingKnowledge>,
    version: Version,
    output: &mut W,
) -> Result<(), Fault> {
    let Some(digest) = digest_of(held(replica, version)?) else {
        return Err(Fault::NoMail(version));
    };
    let Some(bytes) = mail_bytes(rt, root, &digest)? else {
        return Err(Fault::Missing(version));
    };
    if !is_whole(bytes.as_slice(), &digest) {
        return Err(Fault::Damaged(version));
    }
    output.write_all(bytes.as_slice()).map_err(Fault::Output)
}

/// The revision of a version.
pub fn held(replica: &Replica<SparingKnowledge>, version: Version) -> Result<&Revision, Fault> {
    match replica.held(version) {
        Some(revision) => Ok(revision),
        None => Err(Fault::NotHeld(version)),
    }
}

/// Appends the lines of a version and of its place.
fn push_place(lines: &mut String, alloc: Global, revision: &Revision) -> Result<(), AllocError> {
    let message = revision.message();
    push_text(lines, alloc, "version", revision.version().text(alloc)?)?;
    push_text(lines, alloc, "item", revision.item().creator().text(alloc)?)?;
    push_text(
        lines,
        alloc,
        "labels",
        labels_text(alloc, message.labels())?,
    )?;
    push_text(lines, alloc, "flags", flags_text(alloc, message.flags())?)?;
    push_text(lines, alloc, "day", message.day().text(alloc)?)
}

/// Appends the lines of a mail's file; none where the message is of no mail's file.
fn push_file(lines: &mut String, alloc: Global, message: &Message) -> Result<(), AllocError> {
    match read_reference(message.body()) {
        Some(reference) => push_reference(lines, alloc, &reference),
        None => Ok(()),
    }
}

fn push_reference(
    lines: &mut String,
    alloc: Global,
    reference: &MailReference,
) -> Result<(), AllocError> {
    push_text(
        lines,
        alloc,
        "sha256",
        hex::encode(alloc, reference.digest)?,
    )?;
    push_text(
        lines,
        alloc,
        "size",
        format!(in alloc; "{}", reference.size)?,
    )?;
    match told_name(reference.lines) {
        Some(name) => push_line(lines, alloc, "name", name),
        None => Ok(()),
    }
}

/// Appends the lines of a mail's header.
fn push_header(lines: &mut String, alloc: Global, header: &Header) -> Result<(), AllocError> {
    push_line(lines, alloc, "from", header.from.as_str())?;
    push_line(lines, alloc, "subject", header.subject.as_str())?;
    push_line(lines, alloc, "message-id", header.message_id.as_str())
}

fn push_text(
    lines: &mut String,
    alloc: Global,
    name: &str,
    value: String,
) -> Result<(), AllocError> {
    push_line(lines, alloc, name, value.as_str())
}

/// Appends a line of a name and a value, as a terminal may show it.
fn push_line(lines: &mut String, alloc: Global, name: &str, value: &str) -> Result<(), AllocError> {
    let value = printable(alloc, value)?;
    let value = value.as_str();
    let line = format!(in alloc; "{name} {value}\n")?;
    lines.push_str(line.as_str())
}
