//! What follows a fault on standard error for a person: a line that says what was wrong, and what is right.
use crate::ending::{Ending, Fault};
use crate::remembering::Remembering;
use mr_hints::{Commands, hint};
use mr_script::{LineFault, ScriptFault};
use std::alloc::Global;
use std::io::{ErrorKind, Read, Write};

/// Tells a hint behind what ended a script that may have these commands, which was read from the file of this name or from
/// standard input, if there is such a hint and memory for it.
pub(crate) fn tell_hint<R: Read, E: Write>(
    alloc: Global,
    commands: Commands,
    name: Option<&str>,
    reader: &Remembering<R>,
    ending: Ending,
    errors: &mut E,
) {
    match ending {
        Ending::Stopped(Fault::Script(ScriptFault::Line { line, fault })) => {
            tell_hint_of_line(alloc, commands, reader.line(line), fault, errors)
        }
        Ending::Stopped(Fault::Script(ScriptFault::Read)) => {
            tell_reason(name, reader.failure().unwrap_or(ErrorKind::Other), errors)
        }
        _ => {}
    }
}

/// Tells what was wrong with a line and what is right.
fn tell_hint_of_line<E: Write>(
    alloc: Global,
    commands: Commands,
    line: Option<&str>,
    fault: LineFault,
    errors: &mut E,
) {
    let Some(line) = line else {
        return;
    };
    if let Ok(Some(text)) = hint(alloc, commands, line, fault) {
        // a hint that can't be told is lost
        let _ = writeln!(errors, "hint: {text}");
    }
}

/// Tells why a script can't be read that is in the file of this name, or on standard input.
pub(crate) fn tell_reason<E: Write>(name: Option<&str>, kind: ErrorKind, errors: &mut E) {
    let reason = reason_of(kind);
    // a reason that can't be told is lost
    let _ = match name {
        Some(name) => writeln!(errors, "hint: {name:?}: {reason}"),
        None => writeln!(errors, "hint: standard input: {reason}"),
    };
}

/// Why a script can't be read where this was met.
fn reason_of(kind: ErrorKind) -> &'static str {
    match kind {
        ErrorKind::NotFound | ErrorKind::NotADirectory => "there is no such file",
        ErrorKind::IsADirectory => "it is a folder",
        ErrorKind::PermissionDenied => "it may not be read",
        _ => "it can't be read",
    }
}

/// Tells by which form of knowledge a script has fewer holes.
pub(crate) fn tell_of_sparing<E: Write>(errors: &mut E) {
    // a hint that can't be told is lost
    let _ = writeln!(
        errors,
        "hint: TooManyHoles: run it with --sparing, which keeps holes few"
    );
}
