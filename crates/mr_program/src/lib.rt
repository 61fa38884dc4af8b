//! The program `mailrep`, over its words and streams.
//!
//! `mailrep run` hands a script to `run_script`, which runs it line by line and prints the answers, over item sets or,
//! with `--sparing`, over sparing knowledge; `mailrep draw` runs it so too, and prints the picture of its world that `mr_draw` makes;
//! `mailrep live` hands one of two replicas to `run_live`, which runs them as nodes in threads of their own;
//! `mailrep frame HEX` prints what `frame_text` says of HEX. Here stand the command line with its help, how the program
//! ends, and its exit status: 0; 1 for a script, read or write fault, for a HEX that spells no frame, or where memory runs
//! out, or where the logs of two nodes do not join; 2 for a wrong command line. A fault's text goes to standard error, and with `--hints` a hint behind it.
//! Where the reader of standard output has closed it, that is no fault to tell of, and the status is 141, as of a program that SIGPIPE ended.
//!
//! [`run_mailrep`] is all of `main`. What it reads and writes are parameters, so that a program can call it with many
//! command lines, and with readers and writers that fail.
#![tactic(auto)]

ghost use Rattle.std.specs.Prelude.{◌≡◌, true};
ghost use Rattle.mr_program.specs.Ending.{is_status};

mod build;
mod command_line;
mod draw;
mod ending;
mod hints;
mod live;
mod noticing;
mod piped;
mod remembering;
mod run;

use command_line::{Request, Run, read_command_line};
pub use draw::end_picture;
use ending::leave_behind;
pub use ending::{
    Ending, Fault, ending_behind, ending_of_live, ending_of_run, exit_of, leave, tell,
};
use hints::tell_reason;
pub use live::end_live;
use live::live_named;
use mr_script::ScriptFault;
use piped::Piped;
pub use run::{end_frame, end_script};
use run::{answer_command_line, run_reader};
use std::alloc::Global;
use std::io::{Read, Write};
use std::rt::Env;
use std::sync::Wait;
use std::thread::Threads;
use std::{env, io};

/// Where the script of a name is found.
pub trait Scripts {
    /// A script that was opened.
    type Script: Read + Drop;

    /// Opens the script of this name.
    fn open_script(&self, name: &str) -> io::Result<Self::Script>;
}

/// Does what the command line of the runtime asks for, and gives the exit status: 0, 1, 2, or 141 where nobody reads the output any more.
///
/// A script is read from the input, or from the file that the command line names. Answers, pictures, frames, help and the
/// version go to the output; faults, hints and what is wrong with a command line go to the errors. The threads are for `live`
/// alone.
pub fn run_mailrep<R, T, S, I, W, E>(
    rt: &R,
    threads: &T,
    scripts: &S,
    input: I,
    output: &mut W,
    errors: &mut E,
) -> u8
where
    R: Env + AllocGlobal,
    T: Threads + Wait + Sync + Send + Copy,
    S: Scripts,
    I: Read + Drop,
    W: Write,
    E: Write,
    ensures { is_status result ≡ true }
{
    let words = match words(rt) {
        Ok(words) => words,
        Err(fault) => return leave(Ending::Stopped(fault), errors),
    };
    let mut output = Piped::new(output);
    match read_command_line(rt.alloc(), words.as_slice()) {
        Ok(Request::Frame(hex)) => tell_frame(rt.alloc(), hex, &mut output, errors),
        Ok(Request::Run(how)) => run_named(rt.alloc(), &how, scripts, input, &mut output, errors),
        Ok(Request::Live(how)) => live_named(
            threads,
            rt.alloc(),
            how,
            scripts,
            input,
            &mut output,
            errors,
        ),
        Err(error) => answer_command_line(&error, &mut output, errors),
    }
}

/// Prints what the frame says that the word spells, and gives the exit status.
fn tell_frame<W: Write, E: Write>(
    alloc: Global,
    word: &str,
    output: &mut Piped<W>,
    errors: &mut E,
) -> u8
    ensures { is_status result ≡ true }
{
    let ending = end_frame(alloc, word, output);
    leave_behind(ending, output, errors)
}

/// The words of the command line, the program's name first.
fn words<R: Env + AllocGlobal>(rt: &R) -> Result<Vec<String>, Fault> {
    let words = env::args(rt).map_err(|error| match error.kind() {
        io::ErrorKind::OutOfMemory => Fault::OutOfMemory,
        _ => Fault::CommandLine,
    })?;
    words.collect(rt.alloc()).map_err(|_| Fault::OutOfMemory)
}

/// Runs the script of the file that is named, or of the input, and gives the exit status.
fn run_named<S: Scripts, I: Read + Drop, W: Write, E: Write>(
    alloc: Global,
    how: &Run,
    scripts: &S,
    input: I,
    output: &mut Piped<W>,
    errors: &mut E,
) -> u8
    ensures { is_status result ≡ true }
{
    let Some(name) = how.file else {
        return run_reader(alloc, how, input, output, errors);
    };
    match scripts.open_script(name) {
        Ok(script) => run_reader(alloc, how, script, output, errors),
        Err(error) => leave_unopened(how.file, how.has_hints, error.kind(), errors),
    }
}

/// Tells that the script of this name can't be opened, with why where hints are wanted, and gives the exit status.
fn leave_unopened<E: Write>(
    file: Option<&str>,
    has_hints: bool,
    kind: io::ErrorKind,
    errors: &mut E,
) -> u8
    ensures { is_status result ≡ true }
{
    let status = leave(Ending::Stopped(Fault::Script(ScriptFault::Read)), errors);
    if has_hints {
        tell_reason(file, kind, errors);
    }
    status
}
