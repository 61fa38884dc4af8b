//! Whole scripts.
use crate::answer::is_expected;
use crate::files::{is_there, written};
use crate::form::Form;
use crate::tally::Tally;
use anyhow::Result;
use std::rt::Files;

/// Whether the script of this name answers as expected over each form of knowledge for which that is said. Prints
/// over how many, and before it each answer that differs.
pub fn is_ok<R: Files + Print + AllocGlobal>(rt: &R, folder: &str, name: &str) -> Result<bool> {
    let script = written(rt, folder, name, "script")?;
    run_all(rt, folder, name, script.as_slice())?.tell(rt, name, "forms")
}

/// Runs the script over each form for which its answer is said.
fn run_all<R: Files + Print + AllocGlobal>(
    rt: &R,
    folder: &str,
    name: &str,
    script: &[u8],
) -> Result<Tally> {
    let mut tally = Tally::new();
    for form in [Form::Items, Form::Sparing, Form::Plain] {
        if let Some(kind) = expected_kind(rt, folder, name, form)? {
            let expected = written(rt, folder, name, kind)?;
            tally.note(is_answered(rt, name, script, expected.as_slice(), form)?);
        }
    }
    Ok(tally)
}

/// Whether a script, by this name, is answered as expected over a form of knowledge. Prints its answer where
/// it isn't.
pub fn is_answered<R: Print + AllocGlobal>(
    rt: &R,
    name: &str,
    script: &[u8],
    expected: &[u8],
    form: Form,
) -> Result<bool> {
    let answer = form.answer(rt.alloc(), script)?;
    let is_ok = is_expected(answer.as_slice(), expected);
    if !is_ok {
        show(rt, name, answer.as_slice(), form)?;
    }
    Ok(is_ok)
}

/// Prints an answer that differs.
fn show<R: Print + AllocGlobal>(rt: &R, name: &str, answer: &[u8], form: Form) -> Result<()> {
    let shown = String::from_utf8_lossy(rt.alloc(), answer)?;
    let form_name = form.name();
    println!(rt; "{name} answers otherwise than expected over {form_name}:\n{shown}")?;
    Ok(())
}

/// The kind of the file that says what the script of this name must answer over a form, where there is one.
fn expected_kind<R: Files + AllocGlobal>(
    rt: &R,
    folder: &str,
    name: &str,
    form: Form,
) -> Result<Option<&'static str>> {
    let own = form.own_kind();
    if is_there(rt, folder, name, own)? {
        return Ok(Some(own));
    }
    if form != Form::Plain && is_there(rt, folder, name, "expected")? {
        return Ok(Some("expected"));
    }
    Ok(None)
}
