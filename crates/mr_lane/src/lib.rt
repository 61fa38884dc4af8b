//! Lanes between threads, over a bounded queue and without a lock.
//!
//! A tap is a lane of two ends: the spout offers items, and the tap takes them in the same order.
//! An inbox is a lane of four: three posts send letters, and one desk takes them, those of each
//! sender in the order in which it sent them; between senders there is no order. Each end has its
//! own view, the list of what has passed it. Who puts the ends together again, as `tap_settle` and
//! `Desk::settle` do, learns that what was taken is what was given, whole and once, where the end
//! marks were taken; of a tap it is a beginning of that in any case.
//!
//! A lane has as many places as it was made with, and takes the memory for them as it is made, so
//! that no later call needs any. What finds no place is handed back, and an end mark takes a place
//! as well. Calls that look at the lane may wait for another thread that is in the midst of a
//! call, and take the right to it (`Wait`); making a lane and settling it wait for nobody. A call
//! costs the same however much waits.
//!
//! ```text
//! let (mut spout, mut tap) = tap(rt, alloc, 16)?;
//! spout.offer(entry)?;                        // in one thread
//! let drawn = tap.take();                     // in another
//! let all_taken = tap_settle(spout, tap);     // in whichever has both
//! ```
#![tactic(auto)]

mod arrival;
mod desk;
mod fault;
mod inbox_rule;
mod lanes;
mod laws;
mod note;
mod piece;
mod ports;
mod post;
mod tap_ends;
mod tap_rule;

pub use arrival::Arrival;
pub use desk::{Desk, SettleFault};
pub use fault::{FinishFault, LaneFault, SendFault};
pub use lanes::{inbox, tap, tap_settle};
pub use laws::letters_of_one_sender;
pub use note::Sender;
pub use post::{Post, Posts};
pub use tap_ends::{Drawn, Spout, Tap};
