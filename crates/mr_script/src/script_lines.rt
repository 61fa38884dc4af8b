//! The lines of a script, for a caller that takes them one by one.
ghost use Rattle.std.specs.Prelude.{◌≡◌, ◌≢◌, ◌≤◌, ◌<◌, ℕ, List, Option, Err, IsTrue, IfOk, IfErr, OnOk, IfSome, length};
ghost use Rattle.std.specs.Option.{option_map};
ghost use Rattle.mr_script.specs.Run.{Breaks};
ghost use Rattle.mr_script.specs.Script.{Accounts, TakesLine, looked_at};
ghost use Rattle.mr_script.specs.declared.source.TheConstants.{MAX_SCRIPT_BYTES};

use crate::fault::ScriptFault;
use crate::script::first_source;
use crate::source::{Source, SourceFault};
use std::alloc::Global;
use std::io::Read;
use std::marker::Model;

/// The lines of a script, out of a reader, which is called as often as [`run_script`](crate::run_script) calls it at most.
#[derive(Drop)]
pub struct ScriptLines<R: Read + Drop> {
    source: Source<R>,
}

impl<R: Read + Drop> Model for ScriptLines<R> {
    ghost use Rattle.mr_script.specs.ScriptLines.{LinesView};
    ghost use Rattle.mr_script.specs.Script.{source_remaining};

    ghost Value = { LinesView };

    ghost view = { λ lines. record { left = source_remaining R.remaining lines.source; taken = lines.source.taken } };
}

impl<R: Read + Drop> ScriptLines<R> {
    /// The script that the reader gives, before its first line. `OutOfMemory` of line 1 where there is no memory to read it, and no
    /// other fault: no read has failed yet.
    pub fn try_new(alloc: Global, reader: R) -> Result<ScriptLines<R>, ScriptFault>
        ensures counted { IfOk result (λ lines. Accounts (R.remaining reader) lines.left lines.taken) }
        ensures none_taken { IfOk result (λ lines. lines.taken ≡ 0) }
        ensures left { IfOk result (λ lines. lines.left ≡ option_map looked_at (R.remaining reader)) }
        ensures fault { IfErr result (λ fault. Breaks 1 fault) }
        ensures no_read { result ≢ Err ScriptFault.Read }
    {
        match first_source(alloc, reader) {
            Ok(source) => Ok(ScriptLines { source }),
            Err(fault) => Err(fault),
        }
    }

    /// Puts the next line into `line`, without its line feed, and answers whether there was one. `TooLong` where it ends
    /// past 16,777,216 bytes, `Read` where the reader fails, and `OutOfMemory`; none is to be taken after a fault.
    pub fn next_line(&mut self, line: &mut Vec<u8>) -> Result<bool, SourceFault>
        requires { self.old.taken ≤ MAX_SCRIPT_BYTES }
        ensures few { OnOk result (self.new.taken ≤ MAX_SCRIPT_BYTES) }
        ensures more { IfOk result (λ is_line. IsTrue is_line → self.old.taken < self.new.taken) }
        ensures counted { (script : Option (List ℕ)) → Accounts script self.old.left self.old.taken
            → OnOk result (Accounts script self.new.left self.new.taken) }
        ensures too_long { (script : Option (List ℕ)) → Accounts script self.old.left self.old.taken
            → result ≡ Err SourceFault.TooLong → IfSome script (λ bytes. MAX_SCRIPT_BYTES < length bytes) }
        ensures line { IfSome self.old.left (λ bytes.
            TakesLine bytes self.old.taken result line.new.items self.new.left self.new.taken) }
    {
        self.source.next_line(line)
    }
}
