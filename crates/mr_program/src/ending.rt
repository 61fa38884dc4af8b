//! How the program ends: its exit status, and what it tells standard error.
ghost use Rattle.std.specs.Prelude.{◌≡◌, true, Some, IfOk, OnOk, string_bytes};
ghost use Rattle.mr_script.specs.Run.{end_of};
ghost use Rattle.mr_program.specs.Drawing.{text_under};
ghost use Rattle.mr_program.specs.Ending.{IsTold, ending_behind, ending_of, ending_of_live, is_status, status_of};
ghost use Rattle.mr_program.specs.Text.{fault_text, line_fault_text, script_fault_text};

use crate::piped::Piped;
use mr_live::LiveFault;
use mr_script::{LineFault, ScriptFault};
use std::alloc::{AllocError, Global};
use std::io::Write;
use std::{fmt, io};

/// What a shell has of a program that a write to a closed pipe ended: 128 and the number of SIGPIPE.
const CLOSED_PIPE: u8 = 141;

/// Why the program ends before its end.
#[derive(Clone, Copy, Debug, PartialEq, Eq)]
pub enum Fault {
    /// A word of the command line is not UTF-8.
    CommandLine,
    /// A picture, a frame's text, help or the version can't be printed.
    Write,
    OutOfMemory,
    /// A live script makes another number of replicas than two.
    NotTwo,
    /// The script, its reader or its writer.
    Script(ScriptFault),
}

/// How the program ends.
#[derive(Clone, Copy, Debug, PartialEq, Eq)]
pub enum Ending {
    /// The script ran to its end and was answered or drawn, or a frame was told, or help or the version was printed.
    Done,
    /// The word of the command line spells no frame, and standard output says how.
    NoFrame,
    /// The logs of two nodes do not join, and standard output says where.
    Unexplained,
    /// The command line is wrong, and standard error says how.
    WrongCommandLine,
    /// Whoever reads standard output closed it before all was written.
    Closed,
    /// A fault ended it.
    Stopped(Fault),
}

/// How the program ends where the run of a script ended so.
pub fn ending_of_run(ended: Result<(), ScriptFault>) -> Ending
    ensures { result ≡ ending_of (end_of ended) }
{
    match ended {
        Ok(()) => Ending::Done,
        Err(fault) => Ending::Stopped(Fault::Script(fault)),
    }
}

/// How the program ends where the run of a live script ended so.
pub fn ending_of_live(ended: Result<bool, LiveFault>) -> Ending
    ensures { result ≡ ending_of_live ended }
{
    match ended {
        Ok(true) => Ending::Done,
        Ok(false) => Ending::Unexplained,
        Err(LiveFault::OutOfMemory) => Ending::Stopped(Fault::OutOfMemory),
        Err(LiveFault::NotTwo) => Ending::Stopped(Fault::NotTwo),
        Err(LiveFault::Script(fault)) => Ending::Stopped(Fault::Script(fault)),
    }
}

/// How the program ends whose output ended so, and whose reader has closed it or not: where it has, a write fault is
/// `Closed`.
pub fn ending_behind(is_closed: bool, ending: Ending) -> Ending
    ensures { result ≡ ending_behind is_closed ending }
{
    if !is_closed {
        return ending;
    }
    match ending {
        Ending::Stopped(Fault::Write | Fault::Script(ScriptFault::Write)) => Ending::Closed,
        other => other,
    }
}

/// The exit status of an ending: 0 where all was done, 2 for a wrong command line, 141 where nobody reads the output any more, as a shell has it
/// of a program that SIGPIPE ended, and else 1.
pub fn exit_of(ending: Ending) -> u8
    ensures status { result ≡ status_of ending }
    ensures within { is_status result ≡ true }
{
    match ending {
        Ending::Done => 0,
        Ending::WrongCommandLine | Ending::Stopped(Fault::CommandLine) => 2,
        Ending::NoFrame => 1,
        Ending::Unexplained => 1,
        Ending::Closed => CLOSED_PIPE,
        Ending::Stopped(Fault::Write | Fault::OutOfMemory | Fault::NotTwo | Fault::Script(_)) => 1,
    }
}

/// Tells standard error why the program ends before its end, in one line. Of another ending it is told nothing, nor where
/// nobody reads the output any more. It takes no memory. After an error a beginning of the line may have been written.
pub fn tell<E: Write>(ending: Ending, errors: &mut E) -> io::Result<()>
    ensures { OnOk result (IsTold ending E.contents errors.old errors.new) }
{
    match ending {
        Ending::Stopped(fault) => {
            let text = FaultText(fault);
            writeln!(errors, "{text}")
        }
        Ending::Done
        | Ending::NoFrame
        | Ending::Unexplained
        | Ending::WrongCommandLine
        | Ending::Closed => Ok(()),
    }
}

/// Tells why the program ends, and gives its exit status, which is the same where that can't be told.
pub fn leave<E: Write>(ending: Ending, errors: &mut E) -> u8
    ensures status { result ≡ status_of ending }
    ensures within { is_status result ≡ true }
{
    // the exit status tells it too
    let _ = tell(ending, errors);
    exit_of(ending)
}

/// Tells why the program ends whose output went there, and gives its exit status: as `leave` does, but of a write that
/// failed since nobody reads on nothing is told.
pub(crate) fn leave_behind<W: Write, E: Write>(
    ending: Ending,
    output: &Piped<W>,
    errors: &mut E,
) -> u8
    ensures status { result ≡ status_of (ending_behind output.now.is_closed ending) }
    ensures within { is_status result ≡ true }
{
    leave(ending_behind(output.is_closed(), ending), errors)
}

/// What stands under a picture: what standard error is told of a fault, and nothing at another ending.
pub(crate) fn text_under(alloc: Global, ending: Ending) -> Result<String, AllocError>
    ensures { IfOk result (λ text. string_bytes text ≡ text_under ending) }
{
    match ending {
        Ending::Stopped(fault) => {
            let text = FaultText(fault);
            format!(in alloc; "{text}")
        }
        Ending::Done
        | Ending::NoFrame
        | Ending::Unexplained
        | Ending::WrongCommandLine
        | Ending::Closed => Ok(String::new(alloc)),
    }
}

/// What standard error is told of a fault.
#[derive(Clone, Copy)]
struct FaultText(Fault);

impl fmt::Display for FaultText {
    ghost output = { λ text. Some (fault_text text.0) };

    fn fmt<W: fmt::Write>(&self, f: &mut fmt::Formatter<W>) -> fmt::Result {
        match self.0 {
            Fault::CommandLine => write!(f, "error: the command line is not text"),
            Fault::Write => write!(f, "write fault"),
            Fault::OutOfMemory => write!(f, "out of memory"),
            Fault::NotTwo => write!(f, "live needs two replicas"),
            Fault::Script(fault) => {
                let text = ScriptText(fault);
                write!(f, "{text}")
            }
        }
    }
}

/// What is told of a script's fault.
#[derive(Clone, Copy)]
struct ScriptText(ScriptFault);

impl fmt::Display for ScriptText {
    ghost output = { λ text. Some (script_fault_text text.0) };

    fn fmt<W: fmt::Write>(&self, f: &mut fmt::Formatter<W>) -> fmt::Result {
        match self.0 {
            ScriptFault::Line { line, fault } => {
                let text = LineText(fault);
                write!(f, "line {line}: {text}")
            }
            ScriptFault::Read => write!(f, "read fault"),
            ScriptFault::Write => write!(f, "write fault"),
            ScriptFault::TooLong => write!(f, "script too long"),
        }
    }
}

/// What is told of a line's fault, behind the line's number.
#[derive(Clone, Copy)]
struct LineText(LineFault);

impl fmt::Display for LineText {
    ghost output = { λ text. Some (line_fault_text text.0) };

    fn fmt<W: fmt::Write>(&self, f: &mut fmt::Formatter<W>) -> fmt::Result {
        match self.0 {
            LineFault::NotText => write!(f, "not text"),
            LineFault::UnknownCommand => write!(f, "unknown command"),
            LineFault::WrongWords => write!(f, "wrong words"),
            LineFault::BadNumber => write!(f, "bad number"),
            LineFault::BadVersion => write!(f, "bad version"),
            LineFault::BadDate => write!(f, "bad date"),
            LineFault::BadFlags => write!(f, "bad flags"),
            LineFault::BadFilter { place } => write!(f, "bad filter at {place}"),
            LineFault::TooManyClauses => write!(f, "too many clauses"),
            LineFault::TooManyLabels => write!(f, "too many labels"),
            LineFault::MessageRefused { number } => write!(f, "message refused {number}"),
            LineFault::LateReplica => write!(f, "replica after the first event"),
            LineFault::SameReplica => write!(f, "same replica"),
            LineFault::BadLimit => write!(f, "bad limit"),
            LineFault::BadCapacity => write!(f, "bad capacity"),
            LineFault::NoSuchReplica => write!(f, "no such replica"),
            LineFault::NoSuchFrame => write!(f, "no such frame"),
            LineFault::OutOfMemory => write!(f, "out of memory"),
        }
    }
}
