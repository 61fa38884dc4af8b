//! A node over a kept replica: no reply, frame or entry of the feed leaves it before the device has what it comes of.
//!
//! [`run_kept_node`] is `run_node` of `mr_node` over a `Journaled` of `mr_kept`. Its core runs a [`KeptMachine`], which makes of each
//! letter an event and a commit, and gives the answer only then; frames are made of answers, and of the feed the subscribers are told
//! as much as is kept. So from each answer on a crash leaves a journal that has at least the events that were answered, and at most
//! one besides.
//!
//! ```
//! let parts = NodeParts { replica: phone, events, first_link, second_link };
//! let Ok((end, first, second)) = run_kept_node(&rt, alloc, parts, &OpenGate, 16) else { .. };
//! let file = end.replica.journaled.into_device();
//! let Ok((phone, opened)) = Journaled::<SparingKnowledge, _>::open(alloc, file, &mark, None) else { .. };
//! ```
//!
//! **A commit a letter.** The core's loop answers a letter before it takes the next, and of each sender one letter at most is
//! unanswered. So a commit of all that waits would be of three letters at most, and it would ask for a machine that takes letters
//! without an answer and for a loop that keeps their senders: two calls in place of one, in the trait that every core has. A commit
//! costs two syncs.
//!
//! **A machine whose commit is refused stops,** also for want of memory. If it went on, the reply that was held back would come with
//! a later letter's, and a letter that was answered by a refusal would have happened after all. The event waits in the replica that is
//! handed back, whose `commit` may be tried again.
//!
//! **Answers are those of a replica,** since links speak to one: what it has no refusal for, a device that failed or an event too large
//! to be kept, is answered by that of memory. Links end at any refusal; `fault` at the end says which it was.
//!
//! No contract has a clock over lanes and the machine together. That a lane is offered an answer behind its commit is the order of the
//! core's loop, which takes a letter first, and then offers what `take` and `feed` gave.
#![tactic(auto)]

mod machine;
mod node;

pub use machine::KeptMachine;
pub use node::run_kept_node;
