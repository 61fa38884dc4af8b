//! Scripts, run as they are read.
ghost use Rattle.std.specs.Prelude.{◌≡◌, ◌≢◌, ◌⊎◌, ◌+◌, ◌-◌, ◌<◌, ◌≤◌, ◌++◌, ℕ, List, Option, [], Err, IfOk, IfErr, IfSome, OnOk, OnErr, IsSome, length};
ghost use Rattle.std.specs.Option.{option_map};
ghost use Rattle.mr_script.specs.Fault.{fault_of_source, NumbersItsLine};
ghost use Rattle.mr_script.specs.Leaving.{LeavesBehind, ScriptLeaves};
ghost use Rattle.mr_script.specs.Run.{Breaks, PrintsAll, end_of};
ghost use Rattle.mr_script.specs.inner.Run.{NextGoes, RanTo};
ghost use Rattle.mr_script.specs.Script.{Accounts, looked_at, source_remaining};
ghost use Rattle.mr_script.specs.inner.Waiting.{MayAsk};
ghost use Rattle.mr_script.specs.Stage.{Stage.opening};
ghost use Rattle.mr_script.specs.Writing.{Settles};
ghost use Rattle.mr_script.specs.declared.source.TheConstants.{MAX_SCRIPT_BYTES};

use crate::interpreter::Interpreter;
use crate::output::Output;
use crate::source::{MAX_SCRIPT_BYTES, Source, SourceFault};
use crate::{LineFault, Ran, ScriptFault};
use mr_forms::Knowledge;
use std::alloc::Global;
use std::io::{Read, Write};

/// Runs the script that the reader gives, over a form of knowledge, and writes its answers.
///
/// Each line is run before a later one is read, and what it prints is written, and the writer flushed,
/// before a read that might wait, and at the end. So a person or a program can wait for an answer
/// before the next line is given. The first fault ends the script; what the lines before it printed
/// is written all the same, and nothing else. After `Write` a beginning of that was written, and the
/// writer isn't called again.
///
/// `Line` is the fault of the first line that has one, or `OutOfMemory` where there is no memory for
/// it; `TooLong` comes at the line that ends past 16,777,216 bytes, `Read` and `Write` where the
/// reader and the writer fail. A read or a write that was interrupted is no failure, and is tried again; a
/// write that takes nothing is one. The reader is called at most 16,777,218 times, interrupted reads
/// included: past them comes `Read`. A line costs what its command costs, and the memory of its text.
pub fn run_script<K: Knowledge, R: Read + Drop, W: Write>(
    alloc: Global,
    reader: R,
    writer: &mut W,
) -> Result<(), ScriptFault>
    ensures { PrintsAll K.form (R.remaining reader) result (W.contents writer.old) (W.contents writer.new) }
{
    let mut interpreter = Interpreter::<K>::new(alloc);
    run_script_over(alloc, reader, writer, &mut interpreter)
}

/// Runs the script as [`run_script`] does, in a new interpreter of the caller's, which has then what the script leaves: for a caller who keeps the world
/// that it makes, or who ends behind it and leaves it to the system to take its memory back.
///
/// After `Write`, and where there was no memory for an answer, the interpreter has what the lines up to some place leave.
pub fn run_script_over<K: Knowledge, R: Read + Drop, W: Write>(
    alloc: Global,
    reader: R,
    writer: &mut W,
    interpreter: &mut Interpreter<K>,
) -> Result<(), ScriptFault>
    requires { interpreter.old ≡ opening [] }
    ensures prints { PrintsAll K.form (R.remaining reader) result (W.contents writer.old) (W.contents writer.new) }
    ensures leaves { IfSome (R.remaining reader) (λ script. LeavesBehind K.form interpreter.old script result interpreter.new) }
{
    let mut output = Output::new(alloc);
    let ran = run_lines::<K, R, W>(alloc, reader, &mut output, writer, interpreter);
    finish(ran, &mut output, writer)
}

/// Runs the script that the reader gives in the interpreter, and drops its answers: for a caller who wants the world that
/// it makes.
///
/// It reads and ends as [`run_script`] does, but that nothing is written. What the lines before a fault did stands.
pub fn run_script_in<K: Knowledge, R: Read + Drop>(
    alloc: Global,
    reader: R,
    interpreter: &mut Interpreter<K>,
) -> Result<(), ScriptFault>
    ensures { IfSome (R.remaining reader)
        (λ script. ScriptLeaves K.form interpreter.old script (end_of result) interpreter.new) }
{
    let mut source = first_source(alloc, reader)?;
    let (no_output, mut line) = (Output::new(alloc), Vec::new(alloc));
    for number in 1..MAX_SCRIPT_BYTES + 2 {
        let answer = next_answer(&no_output, &mut source, interpreter, &mut line, number)?;
        let Some(_dropped) = answer else {
            return Ok(());
        };
    }
    Err(ScriptFault::TooLong)
}

/// Writes what waits when the lines have run. A writer that has failed is left alone.
fn finish<W: Write>(ran: Result<(), ScriptFault>, output: &mut Output, writer: &mut W) -> Ran<()>
    ensures settles { Settles (W.contents writer.old) (W.contents writer.new) output.old output.new }
    ensures ran { result ≢ Err ScriptFault.Write → result ≡ ran }
    ensures or_ran { (result ≡ Err ScriptFault.Write) ⊎ (result ≡ ran) }
    ensures empty { result ≢ Err ScriptFault.Write → output.new ≡ [] }
    ensures left_alone { ran ≡ Err ScriptFault.Write → writer.new ≡ writer.old }
{
    if ran != Err(ScriptFault::Write) {
        write_all(output, writer)?;
    }
    ran
}

/// Runs each line up to the end or the first fault. What it printed last may still wait.
fn run_lines<K: Knowledge, R: Read + Drop, W: Write>(
    alloc: Global,
    reader: R,
    output: &mut Output,
    writer: &mut W,
    interpreter: &mut Interpreter<K>,
) -> Ran<()>
    requires empty { output.old ≡ [] }
    requires begins { interpreter.old ≡ opening [] }
    ensures too_long { result ≡ Err ScriptFault.TooLong
        → IfSome (R.remaining reader) (λ script. MAX_SCRIPT_BYTES < length script) }
    ensures line { IfErr result NumbersItsLine }
    ensures ran { IfSome (R.remaining reader) (λ script. RanTo K.form interpreter.old script result
        (W.contents writer.old) (W.contents writer.new) output.new interpreter.new) }
{
    let mut source = first_source(alloc, reader)?;
    let mut line = Vec::new(alloc);
    for number in 1..MAX_SCRIPT_BYTES + 2 {
        settle(&source, output, writer)?;
        let answer = next_answer(output, &mut source, interpreter, &mut line, number)?;
        let Some(answer) = answer else {
            return Ok(());
        };
        push_answer(output, answer.as_str(), number)?;
    }
    Err(ScriptFault::TooLong)
}

/// The script that the reader gives, before its first line.
pub(crate) fn first_source<R: Read + Drop>(alloc: Global, reader: R) -> Ran<Source<R>>
    ensures counted { IfOk result (λ source. Accounts (R.remaining reader)
        (source_remaining R.remaining source) source.taken) }
    ensures none_taken { IfOk result (λ source. source.taken ≡ 0) }
    ensures left { IfOk result (λ source. source_remaining R.remaining source
        ≡ option_map looked_at (R.remaining reader)) }
    ensures fault { IfErr result (λ fault. Breaks 1 fault) }
    ensures no_read { result ≢ Err ScriptFault.Read }
{
    match Source::try_new(alloc, reader) {
        Ok(source) => Ok(source),
        Err(fault) => Err(source_fault(1, fault)),
    }
}

/// Puts the answer to a line behind the output. Where there is no memory, nothing of it is added.
fn push_answer(output: &mut Output, answer: &str, number: u64) -> Ran<()>
    ensures ok { OnOk result (output.new ≡ output.old ++ answer.now) }
    ensures unchanged { OnErr result (output.new ≡ output.old) }
    ensures fault { IfErr result (λ fault. fault ≡ ScriptFault.Line number LineFault.OutOfMemory) }
{
    match output.push(answer) {
        Ok(()) => Ok(()),
        Err(_) => Err(ScriptFault::Line {
            line: number,
            fault: LineFault::OutOfMemory,
        }),
    }
}

/// Writes what waits, unless the next line is at hand and not much waits.
fn settle<R: Read + Drop, W: Write>(
    source: &Source<R>,
    output: &mut Output,
    writer: &mut W,
) -> Ran<()>
    ensures settles { Settles (W.contents writer.old) (W.contents writer.new) output.old output.new }
    ensures may_ask { OnOk result (MayAsk source.now output.new) }
    ensures fault { IfErr result (λ fault. fault ≡ ScriptFault.Write) }
{
    if !source.has_line() || output.is_full() {
        write_all(output, writer)?;
    }
    Ok(())
}

/// Writes all that waits.
fn write_all<W: Write>(output: &mut Output, writer: &mut W) -> Ran<()>
    ensures settles { Settles (W.contents writer.old) (W.contents writer.new) output.old output.new }
    ensures empty { OnOk result (output.new ≡ []) }
    ensures fault { IfErr result (λ fault. fault ≡ ScriptFault.Write) }
{
    match output.flush(writer) {
        Ok(()) => Ok(()),
        Err(_) => Err(ScriptFault::Write),
    }
}

/// Takes the next line and runs it, and gives what it prints. There is none at the end. Where that may wait for
/// the reader, no answer waits to be written.
fn next_answer<K: Knowledge, R: Read + Drop>(
    _waiting: &Output,
    source: &mut Source<R>,
    interpreter: &mut Interpreter<K>,
    line: &mut Vec<u8>,
    number: u64,
) -> Ran<Option<String>>
    requires may_ask { MayAsk source.old _waiting.now }
    requires within { source.old.taken ≤ MAX_SCRIPT_BYTES }
    ensures few { OnOk result (source.new.taken ≤ MAX_SCRIPT_BYTES) }
    ensures more { IfOk result (λ answer. IsSome answer → source.old.taken < source.new.taken) }
    ensures counted { (script : Option (List ℕ))
        → Accounts script (source_remaining R.remaining source.old) source.old.taken
        → OnOk result (Accounts script (source_remaining R.remaining source.new) source.new.taken) }
    ensures too_long { (script : Option (List ℕ))
        → Accounts script (source_remaining R.remaining source.old) source.old.taken
        → result ≡ Err ScriptFault.TooLong → IfSome script (λ bytes. MAX_SCRIPT_BYTES < length bytes) }
    ensures line { 1 ≤ number → number ≤ MAX_SCRIPT_BYTES + 1 → IfErr result NumbersItsLine }
    ensures no_write { result ≢ Err ScriptFault.Write }
    ensures goes { IfSome (source_remaining R.remaining source.old) (λ bytes.
        NextGoes K.form interpreter.old number (MAX_SCRIPT_BYTES - source.old.taken) bytes result interpreter.new
        (source_remaining R.remaining source.new) (MAX_SCRIPT_BYTES - source.new.taken)) }
{
    match source.next_line(line) {
        Ok(true) => match interpreter.line(line.as_slice()) {
            Ok(answer) => Ok(Some(answer)),
            Err(fault) => Err(ScriptFault::Line {
                line: number,
                fault,
            }),
        },
        Ok(false) => Ok(None),
        Err(fault) => Err(source_fault(number, fault)),
    }
}

/// What ends a script whose line of this number can't be had.
pub fn source_fault(number: u64, fault: SourceFault) -> ScriptFault
    ensures { result ≡ fault_of_source number fault }
{
    match fault {
        SourceFault::OutOfMemory => ScriptFault::Line {
            line: number,
            fault: LineFault::OutOfMemory,
        },
        SourceFault::Read => ScriptFault::Read,
        SourceFault::TooLong => ScriptFault::TooLong,
    }
}
