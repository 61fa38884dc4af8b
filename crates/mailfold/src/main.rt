//! `mailfold`: folders of mail that are kept in sync across machines.
//!
//! A folder is a Maildir that shows what a replica holds. The program opens one, lets the layers below do what the command line asks
//! for, and tells what came of it: a result on standard output, all else on standard error, and an exit status of 0 to 4. Here is what a
//! command line means ([`command_line`]), what each subcommand calls, and how the program ends ([`ending`]).
#![tactic(auto)]

ghost use Rattle.std.specs.Prelude.{◌≡◌};
ghost use Rattle.std.specs.Process.{exit_status};

mod advice;
mod after;
mod audit;
mod before;
mod build;
mod command_line;
mod counting;
mod edited;
mod ending;
mod expire;
mod fault;
mod full_log;
mod heads;
mod help;
mod init;
mod late;
mod list;
mod log;
mod log_files;
mod log_names;
mod mail_file;
mod moved;
mod noted;
mod old_log;
mod opener;
mod passed_over;
mod progress;
mod queries;
mod renew;
mod scan;
mod show;
mod status;
mod streams;
mod talk;
mod tallies;
mod told;
mod unread;
mod verify;
mod watched;
mod words;

use audit::audit_folders;
use command_line::{Request, ScanRequest, read_command_line};
use counting::{Counting, Looks};
use ending::{Ending, exit_of};
use expire::expire_mails;
use fault::Fault;
use init::init_folder;
use moved::move_folder;
use mr_talk::Role;
use queries::{export_mail, list_mails, log_events, log_history, show_version, verify_files};
use renew::renew_folder;
use scan::scan_folder;
use status::print_status;
use std::env;
use std::io::IsTerminal;
use std::process::ExitCode;
use streams::hold_places;
use talk::sync_folder;
use told::tell_fault;
use unread::answer_unread;

fn main(rt: HostRuntime) -> ExitCode {
    exit_with(exit_of(run(&rt)))
}

/// The process ends with this status.
fn exit_with(status: u8) -> ExitCode
    ensures { exit_status result ≡ status }
{
    ExitCode::from(status)
}

/// Does what the command line asks for, with no file in the place of a standard stream.
fn run(rt: &HostRuntime) -> Ending {
    match hold_places(rt) {
        Ok(places) => {
            let ending = run_given(rt);
            drop(places);
            ending
        }
        Err(said) => end_with(rt, Fault::System(said)),
    }
}

/// Does what the command line asks for.
fn run_given(rt: &HostRuntime) -> Ending {
    match words_given(rt) {
        Ok(words) => run_words(rt, &words),
        Err(fault) => end_with(rt, fault),
    }
}

/// Does what these words ask for.
fn run_words(rt: &HostRuntime, words: &[String]) -> Ending {
    match read_command_line(rt.alloc(), words) {
        Ok(request) => end(rt, answer(rt, request)),
        Err(unread) => {
            let ending = answer_unread(rt, &unread);
            drop(unread);
            ending
        }
    }
}

/// How a command ended, or why it isn't done, which is told.
fn end(rt: &HostRuntime, answer: Result<Ending, Fault>) -> Ending {
    match answer {
        Ok(ending) => ending,
        Err(fault) => end_with(rt, fault),
    }
}

/// Tells why a command isn't done.
fn end_with(rt: &HostRuntime, fault: Fault) -> Ending {
    tell_fault(rt, &fault);
    let ending = fault.ending();
    drop(fault);
    ending
}

/// The words of the command line, the program's name first.
fn words_given(rt: &HostRuntime) -> Result<Vec<String>, Fault> {
    Ok(env::args(rt)?.collect(rt.alloc())?)
}

/// Does what is asked for.
fn answer(rt: &HostRuntime, request: Request) -> Result<Ending, Fault> {
    match request {
        Request::Init(request) => init_folder(rt, request),
        Request::Scan(request) => begin_scan(rt, request),
        Request::Sync { folder, is_quiet } => begin_sync(rt, folder, is_quiet),
        Request::Serve(folder) => begin_serve(rt, folder),
        Request::Expire(request) => expire_mails(rt, request),
        Request::Renew(request) => renew_folder(rt, request),
        Request::Moved(folder) => move_folder(rt, folder),
        Request::Status { folder, is_short } => print_status(rt, folder, is_short),
        Request::List(request) => list_mails(rt, &request),
        Request::Show { folder, version } => show_version(rt, folder, version),
        Request::Export { folder, version } => export_mail(rt, folder, version),
        Request::Log(folder) => log_events(rt, folder),
        Request::History { folder, version } => log_history(rt, folder, version),
        Request::Verify(folder) => verify_files(rt, folder),
        Request::Audit(folders) => audit_folders(rt, &folders),
    }
}

/// Scans a folder. A terminal is shown how many files were looked at.
fn begin_scan(rt: &HostRuntime, request: ScanRequest) -> Result<Ending, Fault> {
    let is_watched = is_watched(rt, request.is_quiet);
    let looks = Looks::none();
    let counting = Counting::new(rt, &looks, is_watched.then_some("scan"));
    scan_folder(&counting, request, is_watched)
}

/// Begins a sync. A terminal is shown how many files were looked at, and how far the talk is.
fn begin_sync(rt: &HostRuntime, folder: &str, is_quiet: bool) -> Result<Ending, Fault> {
    check_streams(rt)?;
    let is_watched = is_watched(rt, is_quiet);
    let looks = Looks::none();
    let counting = Counting::new(rt, &looks, is_watched.then_some("sync"));
    sync_folder(&counting, folder, Role::Caller, is_watched)
}

/// Serves a folder.
fn begin_serve(rt: &HostRuntime, folder: &str) -> Result<Ending, Fault> {
    check_streams(rt)?;
    sync_folder(rt, folder, Role::Called, false)
}

/// Refuses a terminal in the place of the pipes that a talk goes over.
fn check_streams(rt: &HostRuntime) -> Result<(), Fault> {
    if rt.stdin().is_terminal() || rt.stdout().is_terminal() {
        return Err(Fault::Terminal);
    }
    Ok(())
}

/// Whether a terminal is shown how far a command is: standard error is one, and nobody asked for quiet.
fn is_watched(rt: &HostRuntime, is_quiet: bool) -> bool {
    !is_quiet && rt.stderr().is_terminal()
}
