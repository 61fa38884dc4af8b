//! A running node: one replica in a thread of its own, the core, which takes events as letters and answers each in its
//! turn; and links beside it, each in its own.
//!
//! A replica is a machine of letters and answers, [`ReplicaMachine`]; and [`run_core`] is what its thread does. Who
//! sends letters, and who takes what comes into the feed, meets it over lanes alone.
//!
//! [`run_node`] runs all of them over a replica alone, and [`run_machine_node`] over any machine that takes a replica's letters and
//! gives its answers.
//!
//! [`run_link`] is what a link's thread does. It takes its turns, one after the other: each is a row of letters to the
//! replica, of which some are made of frames that come over the link, and whose answers give the frames that it sends.
//! A link is whole, or it stopped for one of the reasons of [`Stop`] and cut what it had open.
#![tactic(auto)]

mod exchange;
mod guard;
mod link_thread;
mod link_voice;
mod machine_node;
mod next_move;
mod node;
mod progress;
mod replica_core;
mod replica_machine;
mod turn;
mod turning;

pub use link_thread::{LinkEnd, LinkParts, run_link};
pub use machine_node::run_machine_node;
pub use node::{LinkTurns, NodeEnd, NodeFault, NodeParts, NodeReplies, NodeTaken, run_node};
pub use progress::Opened;
pub use replica_core::{ReplicaCore, ReplicaCoreEnd, run_core};
pub use replica_machine::{Answer, ReplicaMachine};
pub use turn::{Stop, Turn};
