//! `mailrep draw`: a script is run, and the picture of its world is printed.
ghost use Rattle.std.specs.Prelude.{IfOk, IfSome, map, string_bytes};
ghost use Rattle.mr_program.specs.Drawing.{DrawsStage, EndsPicture, text_under};
ghost use Rattle.mr_program.specs.inner.Drawing.{PrintsPicture};

use crate::ending::{Ending, Fault, ending_of_run, text_under};
use crate::run::print_all;
use mr_draw::{draw, draw_nothing};
use mr_forms::Knowledge;
use mr_script::{Interpreter, run_script_in};
use std::alloc::{AllocError, Global};
use std::io::{Read, Write};

/// Runs the script that the reader gives over a form of knowledge, prints the picture of the world that it makes, and says
/// how the program ends: as the script does, but where there is no memory for the picture, and nothing is written, or a write fails, and a
/// beginning of it is.
///
/// These names stand above the lanes from left to right. A fault ends the script as in a run: the picture is of what was done before it, and has the fault's text under it.
pub fn end_picture<K: Knowledge, R: Read + Drop, W: Write>(
    alloc: Global,
    names: &[&str],
    reader: R,
    output: &mut W,
) -> Ending
    ensures { IfSome (R.remaining reader)
        (λ script. EndsPicture K.form (map (λ name. name.now) names.now) script result (W.contents output.old) (W.contents output.new)) }
{
    let mut interpreter = Interpreter::<K>::new(alloc);
    let ending = ending_of_run(run_script_in(alloc, reader, &mut interpreter));
    let picture = picture(alloc, names, &interpreter, ending);
    print_picture(alloc, picture, ending, output)
}

/// Prints the picture, if there was memory for it, of a script that ran so. Says how the program ends.
fn print_picture<W: Write>(
    alloc: Global,
    picture: Result<String, AllocError>,
    ran: Ending,
    output: &mut W,
) -> Ending
    ensures { PrintsPicture picture ran result (W.contents output.old) (W.contents output.new) }
{
    let Ok(svg) = picture else {
        return Ending::Stopped(Fault::OutOfMemory);
    };
    match print_all(alloc, svg.as_str(), output) {
        Ok(()) => ran,
        Err(fault) => Ending::Stopped(fault),
    }
}

/// The picture of what the script came to, with what ended it under it.
fn picture<K: Knowledge>(
    alloc: Global,
    names: &[&str],
    interpreter: &Interpreter<K>,
    ending: Ending,
) -> Result<String, AllocError>
    ensures { IfOk result (λ svg. DrawsStage (map (λ name. name.now) names.now) interpreter.now (text_under ending) (string_bytes svg)) }
{
    let under = text_under(alloc, ending)?;
    match interpreter.world() {
        Some(world) => draw(alloc, world, names, under.as_str()),
        None => draw_nothing(alloc, under.as_str()),
    }
}
