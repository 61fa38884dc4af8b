//! The lines of a live script, out of a reader.
ghost use Rattle.std.specs.Prelude.{◌≡◌, ◌≢◌, ◌+◌, ◌-◌, ◌<◌, ◌≤◌, ℕ, List, Option, Err, IsTrue, IfOk, IfErr, IfSome, OnOk, length};
ghost use Rattle.mr_live.specs.Plan.{CanAllRun, ScriptAsks};
ghost use Rattle.mr_live.specs.inner.Plan.{NextAsks};
ghost use Rattle.mr_script.specs.Fault.{NumbersItsLine};
ghost use Rattle.mr_script.specs.Script.{Accounts};
ghost use Rattle.mr_script.specs.declared.source.TheConstants.{MAX_SCRIPT_BYTES};

use crate::plan::Plan;
use mr_script::{MAX_SCRIPT_BYTES, ScriptFault, ScriptLines, source_fault};
use std::alloc::Global;
use std::io::Read;

/// Reads the whole script that the reader gives, and what its lines ask for.
///
/// It reads and ends as `run_script` does: the first fault of a line ends it, `TooLong` comes at the line that ends past
/// 16,777,216 bytes, and `Read` where the reader fails.
#[tactic(auto, using(crate::proofs::Runnable::none_run))]
pub(crate) fn read_plan<R: Read + Drop>(alloc: Global, reader: R) -> Result<Plan, ScriptFault>
    ensures asks { IfSome (R.remaining reader) (λ script. ScriptAsks script result) }
    ensures too_long { result ≡ Err ScriptFault.TooLong
        → IfSome (R.remaining reader) (λ script. MAX_SCRIPT_BYTES < length script) }
    ensures line { IfErr result NumbersItsLine }
    ensures no_write { result ≢ Err ScriptFault.Write }
    ensures can_run { IfOk result (λ plan. CanAllRun plan.specs) }
{
    let mut source = ScriptLines::try_new(alloc, reader)?;
    let (mut plan, mut line) = (Plan::new(alloc), Vec::new(alloc));
    for number in 1..MAX_SCRIPT_BYTES + 2 {
        let is_line = take_line(alloc, &mut source, &mut plan, &mut line, number)?;
        if !is_line {
            return Ok(plan);
        }
    }
    Err(ScriptFault::TooLong)
}

/// Takes the next line into the plan. There is none at the end.
fn take_line<R: Read + Drop>(
    alloc: Global,
    source: &mut ScriptLines<R>,
    plan: &mut Plan,
    line: &mut Vec<u8>,
    number: u64,
) -> Result<bool, ScriptFault>
    requires within { source.old.taken ≤ MAX_SCRIPT_BYTES }
    ensures few { OnOk result (source.new.taken ≤ MAX_SCRIPT_BYTES) }
    ensures more { IfOk result (λ is_line. IsTrue is_line → source.old.taken < source.new.taken) }
    ensures counted { (script : Option (List ℕ))
        → Accounts script source.old.left source.old.taken
        → OnOk result (Accounts script source.new.left source.new.taken) }
    ensures too_long { (script : Option (List ℕ))
        → Accounts script source.old.left source.old.taken
        → result ≡ Err ScriptFault.TooLong → IfSome script (λ bytes. MAX_SCRIPT_BYTES < length bytes) }
    ensures line { 1 ≤ number → number ≤ MAX_SCRIPT_BYTES + 1 → IfErr result NumbersItsLine }
    ensures no_write { result ≢ Err ScriptFault.Write }
    ensures can_run { CanAllRun plan.old.specs → CanAllRun plan.new.specs }
    ensures asks { IfSome source.old.left (λ bytes.
        NextAsks plan.old number (MAX_SCRIPT_BYTES - source.old.taken) bytes result plan.new
        source.new.left (MAX_SCRIPT_BYTES - source.new.taken)) }
{
    match source.next_line(line) {
        Ok(true) => match plan.line(alloc, line.as_slice()) {
            Ok(()) => Ok(true),
            Err(fault) => Err(ScriptFault::Line {
                line: number,
                fault,
            }),
        },
        Ok(false) => Ok(false),
        Err(fault) => Err(source_fault(number, fault)),
    }
}
