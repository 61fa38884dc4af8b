//! Joining the logs of replicas that went their own ways into the history of one world.
//!
//! Replicas may run on their own, over links that lose, repeat and mix what they are given. Each keeps a log of what
//! it admitted. [`join_logs`] looks for one history of a world that explains all of them: it lets each log's next
//! event happen once somebody has given the frame that it carries, and nothing else. Where it comes to the ends of
//! all logs, the world's replicas are these replicas, and what holds of each world holds of them, whatever the links
//! did. Where no log can go on, it tells the first event that waits for a frame that nobody gave.
//!
//! ```text
//! if are_distinct(&ends) {
//!     match join_logs(alloc, &ends) {
//!         Ok(world) => world.promise(),
//!         Err(JoinFault::Unexplained { replica, event }) => ..,
//!         Err(JoinFault::OutOfMemory) => ..,
//!     }
//! }
//! ```
#![tactic(auto)]

mod fault;
mod given;
mod join;
mod numbers;
mod progress;
mod ready;
mod start;
mod way;

pub use fault::JoinFault;
pub use join::{are_distinct, join_logs};
