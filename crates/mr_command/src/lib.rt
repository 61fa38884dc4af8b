//! The lines of a script, read as commands.
//!
//! A line is words separated by one space: a command's name, and what it is about. Its words are
//! looked at in one order: first how many there are, then each from left to right, with whether the
//! replica or the frame that it names is there, and then a message as a whole. The first fault is the
//! line's.
//!
//! ```text
//! replica 0 1000000 4096 all                     a replica of id 0
//! create 0 inbox . 2026-01-05 ann Hi // Hello    an event of it
//! sync 1 0                                       a whole session
//! heads 1                                        a question
//! ```
//!
//! What a line's words are looked up in is a [`Roster`], as a world with its frames is one.
#![tactic(auto)]

mod command;
mod event;
mod fault;
mod lists;
mod message;
mod named;
mod number;
mod opening;
mod pieces;
mod pool;
mod question;
mod read;
mod roster;
mod shape;
mod words;

pub use command::{Command, Question, Sync};
pub use fault::LineFault;
pub use pool::Pool;
pub use roster::Roster;

/// What is read of a line, or the line's fault.
type Read<T> = Result<T, LineFault>;
