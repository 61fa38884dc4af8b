//! What lies on disks: journals and kept replicas that are stopped, cut, changed and opened again, in scenes; and mail in folders.
//!
//! The scenes lie in the folder that the program is run in, or in the one that it is given, as by
//! `rt try -- "$PWD/data"`. A file `NAME.scene` is a row of lines. A line that begins with a space is an answer, and each
//! other one is done (`scene.rt` says what lines there are). The program does the lines of each file, over item sets and
//! over sparing knowledge, and compares what they answer with what stands in the file: it prints `ok NAME`, or the first line
//! that differs and the whole file as it would be. It ends with status 1 where a file differs or can't be read. Behind
//! the files it tells of a replica whose host writes its file (`hosted.rt`), does the cases of a Maildir, which are in the file
//! `maildir.cases` (`maildir.rt`), and plays the scene of a store of mail, which is in the file `store.mails` (`store.rt`).
//!
//! With more words it writes and reads a journal, or a replica, in a file, for tools that stop the program, cut its file and
//! change it (`commands.rt`).
#![tactic(auto)]

mod commands;
mod disk;
mod disks;
mod events;
mod files;
mod hosted;
mod journals;
mod keeper;
mod kept;
mod letters;
mod maildir;
mod office;
mod paths;
mod phone;
mod play;
mod rows;
mod scene;
mod slot;
mod store;
mod sweep;
mod tally;
mod tell;
mod told;
mod words;

use std::env;
use std::fs::File;
use std::process::ExitCode;
use std::rt::{Env, Files};

fn main(rt: HostRuntime) -> ExitCode {
    match run(&rt) {
        Ok(true) => ExitCode::SUCCESS,
        Ok(false) => ExitCode::FAILURE,
        Err(error) => {
            let _ = eprintln!(rt; "{error:?}");
            ExitCode::FAILURE
        }
    }
}

/// Does what the words of the command line say, and tells whether all is as it has to be.
fn run<R: Env + Files<File = File> + Print + AllocGlobal + Copy>(rt: &R) -> anyhow::Result<bool> {
    let words: Vec<String> = env::args(rt)?.collect(rt.alloc())?;
    match words.as_slice() {
        [] | [_] => run_all(rt, "."),
        [_, folder] => run_all(rt, folder.as_str()),
        [_, words @ ..] => {
            commands::run(rt, words)?;
            Ok(true)
        }
    }
}

/// Plays the scenes in the folder, and a host, does the cases of a Maildir, and plays a store. Tells whether all is as it has to be.
fn run_all<R: Files<File = File> + Print + AllocGlobal + Copy>(
    rt: &R,
    folder: &str,
) -> anyhow::Result<bool> {
    let are_ok = files::run_all(rt, folder)?;
    hosted::run(rt)?;
    let are_answered = maildir::run_all(rt, folder)?;
    store::print(rt, folder)?;
    Ok(are_ok && are_answered)
}
