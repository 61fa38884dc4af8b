//! Scripts of two replicas that run as nodes.
//!
//! A live script has `replica`, `create` and `edit` lines alone, and makes two replicas. Each is run as a node, first
//! with what its user asks of it, and then once more beside the other: each pulls over one link what the other serves, both
//! at once. How their threads take turns is left to the machine. [`mr_settle::join_logs`] then looks for the history of one world
//! that explains how both ended, and what holds of each world holds of them.
//!
//! ```text
//! replica 0 1000000 4096 all
//! replica 1 1000000 4096 label:inbox
//! create 0 inbox . 2026-01-05 ann Hi         joined
//! create 1 work . 2026-01-05 ann Hi          heads 0: 0.1 1.1
//!                                            pushouts 0:
//!                                            heads 1: 0.1
//!                                            pushouts 1: 1.1
//! ```
//!
//! [`Plan`] is what the lines of such a script ask for, and [`run_live`] all of it.
#![tactic(auto)]

mod fault;
mod live;
mod plan;
mod rounds;
mod source;
mod telling;

pub use fault::LiveFault;
pub use live::run_live;
pub use plan::{Asked, NodePlan, Plan};
