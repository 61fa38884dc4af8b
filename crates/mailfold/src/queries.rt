//! The subcommands that tell of a folder: each opens it, and lends what it holds to the function that prints what is asked for.
use crate::command_line::ListRequest;
use crate::ending::Ending;
use crate::fault::Fault;
use crate::list::print_list;
use crate::log::{print_history, print_log};
use crate::show::{print_mail, print_version};
use crate::verify::{Verified, verify};
use mr_fold::open;
use mr_itemset::SparingKnowledge;
use mr_replica::Replica;
use mr_version::Version;
use std::fs::File;
use std::io::{self, BufWriter, Write};
use std::rt::Files;

/// What a folder holds.
type FolderReplica = Replica<SparingKnowledge>;

/// `ls`: lists the mail of a folder.
pub fn list_mails<R: Files<File = File> + Print + AllocGlobal + Clone + Drop>(
    rt: &R,
    request: &ListRequest,
) -> Result<Ending, Fault> {
    let folder = open(rt, request.folder)?;
    let ending = list_held(rt, request, folder.kept.replica());
    drop(folder);
    ending
}

fn list_held<R: Files<File = File> + Print + AllocGlobal>(
    rt: &R,
    request: &ListRequest,
    replica: &FolderReplica,
) -> Result<Ending, Fault> {
    let mut output = BufWriter::new(rt.alloc(), io::writer(rt))?;
    let end = if request.ends_in_zero { "\0" } else { "\n" };
    let printed = print_list(
        rt,
        request.folder,
        replica,
        request.filter.as_ref(),
        end,
        &mut output,
    );
    finish(output, printed)?;
    Ok(Ending::Done)
}

/// `show`: tells what a version says.
pub fn show_version<R: Files<File = File> + Print + AllocGlobal + Clone + Drop>(
    rt: &R,
    root: &str,
    version: Version,
) -> Result<Ending, Fault> {
    let folder = open(rt, root)?;
    let ending = show_held(rt, root, folder.kept.replica(), version);
    drop(folder);
    ending
}

fn show_held<R: Files<File = File> + Print + AllocGlobal>(
    rt: &R,
    root: &str,
    replica: &FolderReplica,
    version: Version,
) -> Result<Ending, Fault> {
    let mut output = BufWriter::new(rt.alloc(), io::writer(rt))?;
    let printed = print_version(rt, root, replica, version, &mut output);
    finish(output, printed)?;
    Ok(Ending::Done)
}

/// `export`: writes a mail's file.
pub fn export_mail<R: Files<File = File> + Print + AllocGlobal + Clone + Drop>(
    rt: &R,
    root: &str,
    version: Version,
) -> Result<Ending, Fault> {
    let folder = open(rt, root)?;
    let ending = export_held(rt, root, folder.kept.replica(), version);
    drop(folder);
    ending
}

fn export_held<R: Files<File = File> + Print + AllocGlobal>(
    rt: &R,
    root: &str,
    replica: &FolderReplica,
    version: Version,
) -> Result<Ending, Fault> {
    let mut output = io::writer(rt);
    let printed = print_mail(rt, root, replica, version, &mut output);
    finish(output, printed)?;
    Ok(Ending::Done)
}

/// `log`: lists all events.
pub fn log_events<R: Files<File = File> + Print + AllocGlobal + Clone + Drop>(
    rt: &R,
    root: &str,
) -> Result<Ending, Fault> {
    let folder = open(rt, root)?;
    let ending = log_held(rt, folder.kept.replica());
    drop(folder);
    ending
}

fn log_held<R: Print + AllocGlobal>(rt: &R, replica: &FolderReplica) -> Result<Ending, Fault> {
    let mut output = BufWriter::new(rt.alloc(), io::writer(rt))?;
    let printed = print_log(rt.alloc(), replica, &mut output);
    finish(output, printed)?;
    Ok(Ending::Done)
}

/// `log` of a version: lists what is told of its mail.
pub fn log_history<R: Files<File = File> + Print + AllocGlobal + Clone + Drop>(
    rt: &R,
    root: &str,
    version: Version,
) -> Result<Ending, Fault> {
    let folder = open(rt, root)?;
    let ending = log_held_of(rt, folder.kept.replica(), version);
    drop(folder);
    ending
}

fn log_held_of<R: Print + AllocGlobal>(
    rt: &R,
    replica: &FolderReplica,
    version: Version,
) -> Result<Ending, Fault> {
    let mut output = BufWriter::new(rt.alloc(), io::writer(rt))?;
    let printed = print_history(rt.alloc(), replica, version, &mut output);
    finish(output, printed)?;
    Ok(Ending::Done)
}

/// `verify`: reads each file again.
pub fn verify_files<R: Files<File = File> + Print + Eprint + AllocGlobal + Clone + Drop>(
    rt: &R,
    root: &str,
) -> Result<Ending, Fault> {
    let folder = open(rt, root)?;
    let ending = verify_held(rt, root, folder.kept.replica());
    drop(folder);
    ending
}

fn verify_held<R: Files<File = File> + Print + Eprint + AllocGlobal>(
    rt: &R,
    root: &str,
    replica: &FolderReplica,
) -> Result<Ending, Fault> {
    let mut output = BufWriter::new(rt.alloc(), io::writer(rt))?;
    let verified = verify(rt, root, replica, &mut output);
    tell_verified(rt, finish(output, verified)?)
}

/// Tells how many files are as they should be.
fn tell_verified<R: Eprint>(rt: &R, verified: Verified) -> Result<Ending, Fault> {
    let Verified {
        whole,
        missing,
        damaged,
        expired,
    } = verified;
    eprintln!(rt; "{whole} whole, {missing} missing, {damaged} damaged, {expired} expired")?;
    Ok(if verified.is_whole() {
        Ending::Done
    } else {
        Ending::Stopped
    })
}

/// Hands over what was written, if all was.
fn finish<W: Write + Drop, T: Drop>(mut output: W, written: Result<T, Fault>) -> Result<T, Fault> {
    let written = written?;
    output.flush().map_err(Fault::Output)?;
    Ok(written)
}
