//! Tables of short scripts.
use crate::files::text;
use crate::form::Form;
use crate::script::is_answered;
use crate::tally::Tally;
use anyhow::Result;
use std::rt::Files;

/// Whether each case of the table of this name answers as expected. Prints a line with their
/// number, and before it one for each that doesn't.
pub fn are_ok<R: Files + Print + AllocGlobal>(rt: &R, folder: &str, name: &str) -> Result<bool> {
    let table = text(rt, folder, name, "cases")?;
    run_all(rt, table.as_str())?.tell(rt, name, "cases")
}

/// Runs each case of a table.
fn run_all<R: Print + AllocGlobal>(rt: &R, table: &str) -> Result<Tally> {
    let mut tally = Tally::new();
    let mut lines = table.lines();
    let opening = lines.next().unwrap_or("");
    for line in lines {
        tally.note(is_ok(rt, opening, line)?);
    }
    Ok(tally)
}

/// Whether the case of a line, behind this opening, answers as expected over each form of knowledge. Prints
/// it where it doesn't.
fn is_ok<R: Print + AllocGlobal>(rt: &R, opening: &str, case: &str) -> Result<bool> {
    let Some((line, expected)) = case.rsplit_once(" => ") else {
        println!(rt; "no case, since it has no ` => `: {case}")?;
        return Ok(false);
    };
    let over_items = is_ok_over(rt, opening, line, expected, Form::Items)?;
    let over_sparing = is_ok_over(rt, opening, line, expected, Form::Sparing)?;
    Ok(over_items && over_sparing)
}

/// Whether the line, behind this opening, is answered as expected over a form of knowledge. Prints it where
/// it isn't.
fn is_ok_over<R: Print + AllocGlobal>(
    rt: &R,
    opening: &str,
    line: &str,
    expected: &str,
    form: Form,
) -> Result<bool> {
    let script = format!(in rt.alloc(); "{opening}\n{line}\n")?;
    let wanted = format!(in rt.alloc(); "{expected}\n")?;
    is_answered(rt, line, script.as_bytes(), wanted.as_bytes(), form)
}
