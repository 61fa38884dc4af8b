//! Links between nodes, and frames over them.
//!
//! A [`Link`] is one end of a stream of bytes in each direction: a socket, a pipe, or a pair of lanes in one process
//! ([`lane_link`]). A host brings its own. Bytes come in pieces that are cut anywhere, and a link may be down at any
//! call, which it counts.
//!
//! A [`Wire`] is a link with the reader of its stream: it reads frames and sends them. What was received over it is
//! the spellings of the frames that were read, in order, and then what is still unread; what was sent is the spellings
//! of those that were sent. Where memory runs out nothing is lost, and the call may be made again.
//!
//! A [`Gate`] stands before the records of a node's links, and may hold them back or close.
//!
//! ```text
//! let mut wire = Wire::new(alloc, link);
//! wire.send_ask(alloc, &ask)?;
//! let frame = wire.read_frame(rt, alloc)?;
//! ```
#![tactic(auto)]

mod chunk;
mod gate;
mod lane_links;
mod link;
mod snag;
mod wire;

pub use gate::{Gate, OpenGate};
pub use lane_links::{LaneLink, lane_link, link_settle};
pub use link::{Link, LinkFault};
pub use snag::Snag;
pub use wire::Wire;
