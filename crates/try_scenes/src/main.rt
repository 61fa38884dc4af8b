//! Scenes: what happens to replicas in one world, as nodes in real threads over links that fail, and when their logs are
//! joined; and what links, lanes and a small machine do by themselves.
//!
//! The scenes lie in the folder that the program is run in, or in the one that it is given, as by
//! `rt try -- "$PWD/data"`. A file `NAME.scene` is its own transcript: a line that begins with a space is an answer, and
//! each other line is done. The program does the lines of each file over item sets, over plain knowledge and over
//! sparing knowledge, in the order of the files' names. It prints `ok NAME` where the answers are those of the file, and else the
//! whole transcript as it would be. It ends with status 1 where a file differs or can't be read.
//!
//! ```text
//! replica 0 1000 4 all
//! create 0 inbox . 2026-01-05 ann Hi // there
//!  issued 0.1
//! leave 0
//! end 1 0 pull fails 0
//! run
//! steps 0
//!  0: CPI; feed +0.1
//! ```
//!
//! [`scene`] says what lines there are. The program is proved once, and each further scene costs no proof.
#![tactic(auto)]

mod alone;
mod asker;
mod between;
mod bytes_link;
mod counter;
mod device;
mod files;
mod form;
mod gate;
mod history;
mod inbox;
mod join;
mod lanes;
mod last_run;
mod leave;
mod lists;
mod lone_core;
mod machine;
mod node;
mod parts;
mod play;
mod replica;
mod roster;
mod scene;
mod start;
mod strange;
mod strange_link;
mod tap;
mod tell;
mod wire;
mod words;
mod work;
mod world;

use std::process::ExitCode;

fn main(rt: HostRuntime) -> ExitCode {
    match files::are_ok(&rt) {
        Ok(true) => ExitCode::SUCCESS,
        Ok(false) => ExitCode::FAILURE,
        Err(error) => {
            let _ = eprintln!(rt; "{error:?}");
            ExitCode::FAILURE
        }
    }
}
