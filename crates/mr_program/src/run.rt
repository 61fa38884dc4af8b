//! What the program does: runs or draws a script, tells a frame, or says what its command line is.
ghost use Rattle.std.specs.Prelude.{◌≡◌, ◌≢◌, true, IfSome};
ghost use Rattle.clap.specs.Values.{kind_of};
ghost use Rattle.mr_program.specs.Ending.{is_status};
ghost use Rattle.mr_program.specs.Printing.{EndsFrame, EndsScript};
ghost use Rattle.mr_program.specs.inner.Printing.{PrintsText};

use crate::command_line::{Form, Run, Wanted};
use crate::draw::end_picture;
use crate::ending::{Ending, Fault, ending_of_run, leave, leave_behind};
use crate::hints::{tell_hint, tell_of_sparing};
use crate::noticing::Noticing;
use crate::piped::Piped;
use crate::remembering::Remembering;
use clap::error::ErrorKind;
use mr_forms::Knowledge;
use mr_hints::Commands;
use mr_itemset::{ItemKnowledge, SparingKnowledge};
use mr_script::{Interpreter, Output, frame_text, run_script, run_script_over};
use std::alloc::Global;
use std::io;
use std::io::{Read, Write};

/// Runs the script that the reader gives over the form of knowledge, and gives the exit status.
pub(crate) fn run_reader<R: Read + Drop, W: Write, E: Write>(
    alloc: Global,
    how: &Run,
    reader: R,
    output: &mut Piped<W>,
    errors: &mut E,
) -> u8
    ensures { is_status result ≡ true }
{
    if how.has_hints {
        return run_with_hints(alloc, how, reader, output, errors);
    }
    let ending = end_over(alloc, how, reader, output);
    leave_behind(ending, output, errors)
}

/// Runs the script, and tells a hint behind its fault; and one where it was refused for too many holes, of which the sparing
/// form has fewer.
fn run_with_hints<R: Read + Drop, W: Write, E: Write>(
    alloc: Global,
    how: &Run,
    reader: R,
    output: &mut Piped<W>,
    errors: &mut E,
) -> u8
    ensures { is_status result ≡ true }
{
    let mut reader = Remembering::new(alloc, reader);
    let (ending, has_holes) = end_noticing(alloc, how, &mut reader, output);
    let status = leave_behind(ending, output, errors);
    tell_hint(alloc, Commands::All, how.file, &reader, ending, errors);
    if has_holes && matches!(how.form, Form::Items) {
        tell_of_sparing(errors);
    }
    status
}

/// Runs the script over its form, prints what is wanted of it, and says how the program ends, and whether an answer told of
/// too many holes.
fn end_noticing<R: Read + Drop, W: Write>(
    alloc: Global,
    how: &Run,
    reader: R,
    output: &mut W,
) -> (Ending, bool) {
    let mut output = Noticing::new(output);
    let ending = end_over(alloc, how, reader, &mut output);
    (ending, output.has_holes())
}

/// Runs the script over its form, prints what is wanted of it, and says how the program ends.
fn end_over<R: Read + Drop, W: Write>(
    alloc: Global,
    how: &Run,
    reader: R,
    output: &mut W,
) -> Ending {
    let names = how.names.as_slice();
    match (how.wanted, how.form) {
        (Wanted::Answers, Form::Items) => end_script::<ItemKnowledge, R, W>(alloc, reader, output),
        (Wanted::Answers, Form::Sparing) => end_script::<SparingKnowledge, R, W>(
            alloc, reader, output,
        ),
        (Wanted::Picture, Form::Items) => end_picture::<ItemKnowledge, R, W>(
            alloc, names, reader, output,
        ),
        (Wanted::Picture, Form::Sparing) => end_picture::<SparingKnowledge, R, W>(
            alloc, names, reader, output,
        ),
    }
}

/// Runs the script that the reader gives over a form of knowledge, prints its answers, and says how the program ends. Where a write fails, a beginning of
/// them was written. The world that the script made stays in memory: the program ends behind it, and the system takes all back at once.
pub fn end_script<K: Knowledge, R: Read + Drop, W: Write>(
    alloc: Global,
    reader: R,
    output: &mut W,
) -> Ending
    ensures { IfSome (R.remaining reader)
        (λ script. EndsScript K.form script result (W.contents output.old) (W.contents output.new)) }
{
    let Ok(interpreter) = Box::new(alloc, Interpreter::<K>::new(alloc)) else {
        return ending_of_run(run_script::<K, R, W>(alloc, reader, output));
    };
    let interpreter = Box::leak(interpreter);
    ending_of_run(run_script_over(alloc, reader, output, interpreter))
}

/// Prints what the frame says that the word spells, and says how the program ends. Where a write fails, a beginning of that was written; where
/// memory runs out, nothing.
pub fn end_frame<W: Write>(alloc: Global, word: &str, output: &mut W) -> Ending
    ensures { EndsFrame word.now result (W.contents output.old) (W.contents output.new) }
{
    let Ok(text) = frame_text(alloc, word) else {
        return Ending::Stopped(Fault::OutOfMemory);
    };
    if let Err(fault) = print_all(alloc, text.lines.as_str(), output) {
        return Ending::Stopped(fault);
    }
    if text.is_fault {
        Ending::NoFrame
    } else {
        Ending::Done
    }
}

/// Prints the text, of which a copy waits meanwhile, and flushes the writer. The first write that fails ends it, and a beginning was written then;
/// nothing was, where there is no memory.
pub(crate) fn print_all<W: Write>(alloc: Global, text: &str, output: &mut W) -> Result<(), Fault>
    ensures { PrintsText text.now result (W.contents output.old) (W.contents output.new) }
{
    let mut waiting = Output::new(alloc);
    if waiting.push(text).is_err() {
        return Err(Fault::OutOfMemory);
    }
    match waiting.flush(output) {
        Ok(()) => Ok(()),
        Err(_) => Err(Fault::Write),
    }
}

/// Prints what the command line is answered with in place of a run: help, the version, or what is wrong with it. Gives
/// the exit status.
pub(crate) fn answer_command_line<W: Write, E: Write>(
    error: &clap::Error,
    output: &mut Piped<W>,
    errors: &mut E,
) -> u8
    ensures wrong { kind_of error.now ≢ ErrorKind.OutOfMemory → kind_of error.now ≢ ErrorKind.DisplayHelp
        → kind_of error.now ≢ ErrorKind.DisplayVersion → result ≡ 2 }
    ensures within { is_status result ≡ true }
{
    if error.kind() == ErrorKind::OutOfMemory {
        return leave(Ending::Stopped(Fault::OutOfMemory), errors);
    }
    if error.use_stderr() {
        // the exit status tells it too
        let _ = write!(errors, "{error}");
        return leave(Ending::WrongCommandLine, errors);
    }
    match print_error(error, output) {
        Ok(()) => leave(Ending::Done, errors),
        Err(_) => leave_behind(Ending::Stopped(Fault::Write), output, errors),
    }
}

/// Prints the text, and flushes the writer.
fn print_error<W: Write>(error: &clap::Error, output: &mut W) -> io::Result<()> {
    write!(output, "{error}")?;
    output.flush()
}
