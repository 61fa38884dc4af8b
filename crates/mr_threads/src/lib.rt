//! What the threads of a running node do, whatever runs in them.
//!
//! A machine takes letters, one at a time, answers each, and keeps a feed that only grows. One thread,
//! the core, has it to itself. Three senders beside it, a user and two links, post letters and wait
//! for their answers; two subscribers take what comes into the feed. They meet over lanes alone. What
//! a sender says is up to it, a `Speaker`: it may choose each letter by what it heard before, and by
//! what happens elsewhere.
//!
//! Each of them tells what it has done as it ends, and whether it could go on: a growth that is
//! refused ends it early, and is told as `whole: false`. Who then puts the ends of the lanes together,
//! as `settle` does, has one claim of all: there is an interleaving of letters that leads the machine
//! from where it was to where it is, in which each sender's part is what it sent, with the answers
//! that it took; and each subscriber took just what came into the feed, once and in order.
//!
//! `run_roles` does all of it in threads of a scope that the caller opens:
//!
//! ```text
//! let given_up = AtomicBool::new(false);
//! let flag = &given_up;
//! let end = thread::scope(thread::scope_env(), &rt, |scope| {
//!     run_roles(&rt, scope, flag, alloc, roles, 64)
//! });
//! ```
#![tactic(auto)]

mod core_loop;
mod core_parts;
mod lanes;
mod letters;
mod listener;
mod machine;
mod outfit;
mod roles;
mod running;
mod settling;
mod settling_ends;
mod speaker;
mod starting;
mod talk;
mod voice;

pub use core_loop::run_machine;
pub use core_parts::{Core, CoreEnd, Feeds, Replies};
pub use letters::Letters;
pub use listener::{Listener, ListenerEnd, run_listener};
pub use machine::Machine;
pub use roles::{Heard, Roles, RolesEnd, RolesFault, Spoken, run_roles};
pub use settling::{FeedTaps, Taps, settle};
pub use speaker::Speaker;
pub use talk::{Halt, Talk};
pub use voice::{Voice, VoiceEnd, run_voice};
