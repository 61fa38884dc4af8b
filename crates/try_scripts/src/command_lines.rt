//! The program `mailrep` by a table of command lines: what each prints on which stream, and its exit status.
//!
//! Each is a call of `run_mailrep`, which is all that `main` of `mailrep` does. Its words, standard input, file and the
//! streams that fail are those of the table.
//!
//! A line of a table `NAME.runs` begins with what it is:
//!
//! ```text
//! $ run | --hints     a command line, its words separated by bars
//! < heads 0           a line of its standard input
//! @ heads 0           a line of the file `script`, the only one that there is
//! % output fails      a stream that fails: `input`, `file`, `output` or `errors`; also `output closed`, `file hidden`,
//!                     `file is a folder`, `input endless`, `words no text`
//! ^ whole             all that it prints is shown, and not only the beginning of a long text
//! ```
//!
//! In lines of scripts `\r` is a carriage return, `\s` a space, `\x` a byte that is no text, `\k` a thousand letters, `\m`
//! a byte order mark, `\g` lines by which replica 0 makes messages in the inbox and at work in turn, 4,098 of each, and `\e`
//! at the end says that the line has no line feed.
//! Lines that begin otherwise are skipped. Each command line is printed as the table has it, with `status N`, and then with `out: `
//! and `err: ` before each line of standard output and standard error.
mod case;
mod process;
mod table;

use crate::files::{file_names, text};
use anyhow::Result;
use case::Case;
use std::rt::Files;
use std::sync::Wait;
use std::thread::Threads;
use table::read_table;

/// Runs each table of the folder, in the order of their names.
pub fn run_all<R: Files + Print + AllocGlobal + Threads + Wait + Sync + Send + Copy>(
    rt: &R,
    folder: &str,
) -> Result<()> {
    for file in &file_names(rt, folder)? {
        if let Some(name) = file.strip_suffix(".runs") {
            run_table(rt, folder, name)?;
        }
    }
    Ok(())
}

/// Runs each command line of a table, and prints what comes of it.
fn run_table<R: Files + Print + AllocGlobal + Threads + Wait + Sync + Send + Copy>(
    rt: &R,
    folder: &str,
    name: &str,
) -> Result<()> {
    let text = text(rt, folder, name, "runs")?;
    println!(rt; "== {name}.runs")?;
    for case in &read_table(rt.alloc(), text.as_str())? {
        show(rt, case)?;
    }
    Ok(())
}

/// Runs a command line, and prints it, its status, and each line that it printed.
fn show<R: Print + AllocGlobal + Threads + Wait + Sync + Send + Copy>(
    rt: &R,
    case: &Case,
) -> Result<()> {
    let said = case.run(rt, rt.alloc())?;
    let (told, status) = (case.told.as_str(), said.status);
    print!(rt; "\n{told}status {status}\n")?;
    show_lines(rt, "out", said.output.as_slice(), case.is_whole)?;
    show_lines(rt, "err", said.errors.as_slice(), case.is_whole)
}

/// Prints each line of a stream behind its name: of more than twelve only the first three, and how many there are, unless
/// the whole text is to be shown.
fn show_lines<R: Print + AllocGlobal>(
    rt: &R,
    stream: &str,
    bytes: &[u8],
    is_whole: bool,
) -> Result<()> {
    let text = String::from_utf8_lossy(rt.alloc(), bytes)?;
    let count = text.lines().count();
    let shown = if is_whole || count <= 12 { count } else { 3 };
    for line in text.lines().take(shown) {
        let space = if line.is_empty() { "" } else { " " };
        println!(rt; "{stream}:{space}{line}")?;
    }
    if shown < count {
        println!(rt; "{stream}: .. {count} lines")?;
    }
    Ok(())
}
