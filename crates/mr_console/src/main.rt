//! `mailrep`: mail replicas on the command line.
//!
//! All of it is `run_mailrep` of `mr_program`; here stand the words, streams and files of the process that it is given.
#![tactic(auto)]

ghost use Rattle.std.specs.Prelude.{◌≡◌};
ghost use Rattle.std.specs.Process.{exit_status};

mod streams;

use mr_program::{Scripts, run_mailrep};
use std::process::ExitCode;
use std::rt::Files;
use std::{fs, io};
use streams::hold_places;

/// The status of a command whose streams or script can't be read.
const UNREAD: u8 = 1;

fn main(rt: HostRuntime) -> ExitCode {
    let places = hold_places(&rt);
    if let Err(said) = &places {
        let _ = eprintln!(rt; "mailrep: {said}");
        return exit_with(UNREAD);
    }
    let (input, mut output, mut errors) = (rt.reader(), io::writer(&rt), rt.stderr());
    let status = run_mailrep(&rt, &rt, &Disk(&rt), input, &mut output, &mut errors);
    drop(places);
    exit_with(status)
}

/// The process ends with this status.
fn exit_with(status: u8) -> ExitCode
    ensures { exit_status result ≡ status }
{
    ExitCode::from(status)
}

/// Scripts as files of this machine.
#[derive(Drop)]
struct Disk<'a, R>(&'a R);

impl<R: Files> Scripts for Disk<'_, R> {
    type Script = R::File;

    fn open_script(&self, name: &str) -> io::Result<R::File> {
        fs::open(self.0, name)
    }
}
