//! `mailrep live`: the two replicas of a script run as nodes, and what they hold is printed.
ghost use Rattle.std.specs.Prelude.{◌≡◌, true, IfSome};
ghost use Rattle.mr_program.specs.Ending.{is_status};
ghost use Rattle.mr_program.specs.Printing.{EndsLive};

use crate::command_line::Live;
use crate::ending::{Ending, ending_of_live, leave_behind};
use crate::hints::tell_hint;
use crate::piped::Piped;
use crate::remembering::Remembering;
use crate::{Scripts, leave_unopened};
use mr_forms::OneValue;
use mr_hints::Commands;
use mr_itemset::ItemKnowledge;
use mr_live::run_live;
use std::alloc::Global;
use std::io::{Read, Write};
use std::sync::Wait;
use std::thread::Threads;

/// Runs the live script of the file that is named, or of the input, and gives the exit status.
pub(crate) fn live_named<T, S, I, W, E>(
    threads: &T,
    alloc: Global,
    how: Live,
    scripts: &S,
    input: I,
    output: &mut Piped<W>,
    errors: &mut E,
) -> u8
where
    T: Threads + Wait + Sync + Send + Copy,
    S: Scripts,
    I: Read + Drop,
    W: Write,
    E: Write,
    ensures { is_status result ≡ true }
{
    let Some(name) = how.file else {
        return live_reader(threads, alloc, how, input, output, errors);
    };
    match scripts.open_script(name) {
        Ok(script) => live_reader(threads, alloc, how, script, output, errors),
        Err(error) => leave_unopened(how.file, how.has_hints, error.kind(), errors),
    }
}

/// Runs the live script that the reader gives, and gives the exit status.
fn live_reader<T, I, W, E>(
    threads: &T,
    alloc: Global,
    how: Live,
    reader: I,
    output: &mut Piped<W>,
    errors: &mut E,
) -> u8
where
    T: Threads + Wait + Sync + Send + Copy,
    I: Read + Drop,
    W: Write,
    E: Write,
    ensures { is_status result ≡ true }
{
    if how.has_hints {
        return live_with_hints(threads, alloc, how.file, reader, output, errors);
    }
    let ending = end_live::<ItemKnowledge, T, I, Piped<W>>(threads, alloc, reader, output);
    leave_behind(ending, output, errors)
}

/// Runs the live script that the reader gives, tells a hint behind its fault, and gives the exit status.
fn live_with_hints<T, I, W, E>(
    threads: &T,
    alloc: Global,
    file: Option<&str>,
    reader: I,
    output: &mut Piped<W>,
    errors: &mut E,
) -> u8
where
    T: Threads + Wait + Sync + Send + Copy,
    I: Read + Drop,
    W: Write,
    E: Write,
    ensures { is_status result ≡ true }
{
    let mut reader = Remembering::new(alloc, reader);
    let ending = end_live::<ItemKnowledge, T, &mut Remembering<I>, Piped<W>>(
        threads,
        alloc,
        &mut reader,
        output,
    );
    let status = leave_behind(ending, output, errors);
    tell_hint(alloc, Commands::Live, file, &reader, ending, errors);
    status
}

/// Runs the live script that the reader gives over a form of knowledge, prints what its replicas hold, and says how the program
/// ends.
pub fn end_live<
    K: OneValue<Vector: Send> + Send,
    T: Threads + Wait + Sync + Send + Copy,
    I: Read + Drop,
    W: Write,
>(threads: &T, alloc: Global, reader: I, output: &mut W) -> Ending
    ensures { IfSome (I.remaining reader)
        (λ script. EndsLive K.form script result (W.contents output.old) (W.contents output.new)) }
{
    ending_of_live(run_live::<K, T, I, W>(threads, alloc, reader, output))
}
