//! Scripts: lines of text that make a world of replicas, let events happen in it and ask what it holds.
//!
//! A script is UTF-8 text of at most 16,777,216 bytes. Each line is one command of `mr_command`; empty
//! lines and lines that begin with `#` are skipped, but counted. Lines that make replicas come first,
//! and the first other one makes a world of them. The commands are done one by one as they are read,
//! and each answer is a line of output.
//!
//! ```text
//! replica 0 1000000 4096 all
//! replica 1 1000000 4096 label:inbox
//! create 0 inbox . 2026-01-05 ann Hi         issued 0.1
//! sync 1 0                                   sync 1 from 0: items 1 moveouts 0 finished
//! heads 1                                    heads 1: 0.1
//! show 1 0.1                                 show 0.1 inbox . 2026-01-05 ann Hi
//! ```
//!
//! A replica's refusal is an answer like any other. A line that can't be done ends the script with a
//! fault that names the line; what the lines before it printed stands. Each event is one call of
//! `World::happen`, so what a world promises holds after every line.
//!
//! [`Interpreter`] does the lines of a script that come from anywhere, and shows the world that they made;
//! [`run_script`] takes them out of a reader and writes their answers, and [`run_script_in`] leaves them in an
//! interpreter. All are over any form of knowledge, which their caller names. [`frame_text`] is no part of a script: it tells in a line what the bytes of a
//! frame say.
#![tactic(auto)]

mod answer;
mod bytes_line;
mod fault;
mod frame;
mod frame_line;
mod holding;
mod interpreter;
mod metered;
mod output;
mod question;
mod script;
mod script_lines;
mod show;
mod single_event;
mod source;
mod sync;
mod sync_line;
mod taken;

pub use fault::ScriptFault;
pub use frame::{FrameText, frame_text};
pub use holding::{heads_line, push_outs_line};
pub use interpreter::{Interpreter, is_skipped};
pub use mr_command::LineFault;
pub use output::Output;
pub use script::{run_script, run_script_in, run_script_over, source_fault};
pub use script_lines::ScriptLines;
pub use source::{MAX_SCRIPT_BYTES, SourceFault};
use std::alloc::AllocError;

/// What is made, or that there is no memory for it.
type Grown<T> = Result<T, AllocError>;

/// What is done of a line, or its fault.
type Done<T> = Result<T, LineFault>;

/// What a script came to, or the fault that ended it.
type Ran<T> = Result<T, ScriptFault>;
