//! Filters: which messages a replica keeps.
//!
//! A filter is a list of clauses, and a message is selected if it meets every condition of some
//! clause. A clause wants labels and flags, bars labels and flags, and may have a first day. One
//! filter covers another if the clauses alone show that it selects all that the other does.
//!
//! ```text
//! let filter = Filter::read(alloc, "label:work & !flag:deleted | since:2026-01-05")?;
//! assert!(filter.select(&message));
//! let all = Filter::read(alloc, "all")?;
//! assert!(all.covers(&filter));
//! ```
#![tactic(auto)]

mod clause;
mod condition;
mod draft;
mod fault;
mod filter;
mod pieces;
mod read;
mod text;

pub use clause::{Clause, MAX_CLAUSE_LABELS};
pub use fault::FilterFault;
pub use filter::{Filter, MAX_CLAUSES};
