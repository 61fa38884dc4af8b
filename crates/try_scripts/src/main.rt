//! Scripts, lines and frames with what they have to answer, as data, which this program compares; random calls; and the command
//! lines of `mailrep`.
//!
//!     try_scripts                           all rows of the folder that it is run in, random calls, and all command lines
//!     try_scripts FOLDER [BEGINNING]        the rows of this folder whose names begin so, as by `rt try -- "$PWD/data" first`
//!     try_scripts command-lines FOLDER      the command lines of this folder
//!     try_scripts random SEED COUNT         compares twins (`random/twins.rt`), and tries so many hostile frames, and what belongs to them
//!     try_scripts random SEED COUNT told    reads so many hostile frames, and says before each how long it is
//!
//! | File | What it says |
//! |---|---|
//! | `NAME.script` | a whole script. It is run over each form of knowledge for which there is an answer |
//! | `NAME.expected` | what it must answer: what it prints and, where a fault ends it, the line `fault: TEXT` behind that; over item sets, and over sparing knowledge too |
//! | `NAME.sparing.expected`, `NAME.plain.expected` | what it must answer over sparing knowledge, or over plain knowledge |
//! | `NAME.calls` | how the script of this name is read and written: each line `HOW => WHAT` says what comes of that (see `calls`) |
//! | `NAME.cases` | a table of short scripts: its first line is the opening, and each further line `LINE => ANSWER` says what the opening and that line answer, over item sets and over sparing knowledge |
//! | `NAME.frames` | a table of frames: each line `HEX => STATUS LINES` says how `mailrep frame HEX` ends and what it prints, with ` / ` between two lines. A reader is fed each frame too: in every cut into two pieces, byte by byte, and each of its parts alone |
//!
//! In a script and in its answers a line may stand for many, and in an answer `bytes Q1: {30 bytes}` stands for any 30 bytes (see
//! `many`).
//!
//! The program prints the texts of the faults of all libraries. Then it runs the rows in the order of their names and prints a
//! line for each: `ok`, or what differs. It ends with status 1 where a row differs or can't be read. Behind the rows it makes the
//! random calls of `random.rt`, and then it prints what comes of the command lines of the folder's tables `NAME.runs` (see `command_lines`).
#![tactic(auto)]

mod answer;
mod calls;
mod cases;
mod command_lines;
mod faults;
mod files;
mod form;
mod frames;
mod many;
mod pieces;
mod pipes;
mod random;
mod script;
mod tally;

use anyhow::Result;
use files::file_names;
use std::env;
use std::process::ExitCode;
use std::rt::{Env, Files};
use std::sync::Wait;
use std::thread::Threads;
use tally::Tally;

fn main(rt: HostRuntime) -> ExitCode {
    match run(&rt) {
        Ok(true) => ExitCode::SUCCESS,
        Ok(false) => ExitCode::FAILURE,
        Err(error) => {
            let _ = eprintln!(rt; "{error:?}");
            ExitCode::FAILURE
        }
    }
}

/// Does what the words of the command line say, and tells whether all is as it has to be.
fn run<R: Env + Files + Print + AllocGlobal + Threads + Wait + Sync + Send + Copy>(
    rt: &R,
) -> Result<bool> {
    let words: Vec<String> = env::args(rt)?.collect(rt.alloc())?;
    match words.as_slice() {
        [] | [_] => run_all(rt),
        [_, word, words @ ..] if word.as_str() == "random" => {
            random::run_words(rt, words)?;
            Ok(true)
        }
        [_, word, folder] if word.as_str() == "command-lines" => {
            command_lines::run_all(rt, folder.as_str())?;
            Ok(true)
        }
        [_, folder] => run_rows(rt, folder.as_str(), ""),
        [_, folder, beginning, ..] => run_rows(rt, folder.as_str(), beginning.as_str()),
    }
}

/// Runs all rows of the folder that the program is run in, makes the random calls, and runs the command lines.
fn run_all<R: Files + Print + AllocGlobal + Threads + Wait + Sync + Send + Copy>(
    rt: &R,
) -> Result<bool> {
    let are_ok = run_rows(rt, ".", "")?;
    random::run_all(rt)?;
    command_lines::run_all(rt, ".")?;
    Ok(are_ok)
}

/// Whether each row answers as expected. Prints the texts of faults, then a line for each file, and then how many there
/// are.
fn run_rows<R: Files + Print + AllocGlobal + Clone + Drop>(
    rt: &R,
    folder: &str,
    beginning: &str,
) -> Result<bool> {
    faults::print(rt)?;
    run_folder(rt, folder, beginning)?.tell(rt, "all", "files of rows")
}

/// Runs each row of a folder whose name begins so. Prints a line for each file.
fn run_folder<R: Files + Print + AllocGlobal + Clone + Drop>(
    rt: &R,
    folder: &str,
    beginning: &str,
) -> Result<Tally> {
    let mut tally = Tally::new();
    for file in &file_names(rt, folder)? {
        if file.starts_with(beginning) {
            run_file(rt, folder, file, &mut tally)?;
        }
    }
    Ok(tally)
}

/// Runs the rows of a file, if it has some.
fn run_file<R: Files + Print + AllocGlobal>(
    rt: &R,
    folder: &str,
    file: &str,
    tally: &mut Tally,
) -> Result<()> {
    match file.rsplit_once('.') {
        Some((name, "script")) => tally.note(script::is_ok(rt, folder, name)?),
        Some((name, "calls")) => tally.note(calls::are_ok(rt, folder, name)?),
        Some((name, "cases")) => tally.note(cases::are_ok(rt, folder, name)?),
        Some((name, "frames")) => tally.note(frames::are_ok(rt, folder, name)?),
        _ => {}
    }
    Ok(())
}
