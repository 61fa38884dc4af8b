//! The parts of frames, for a layer above that spells values of its own by the same grammar.
//!
//! A reader takes a part from the front of an [`Input`]. Called with no memory it walks over the part and
//! keeps nothing; called with memory it keeps what it reads, or answers `Some(None)` where memory ran out.
//! So what a stranger sent is walked first, and built once it is known to be in the grammar. A writer puts
//! a part behind the bytes that are there, and may have written some of it where memory runs out. The
//! lengths are told without memory.
//!
//! ```
//! let mut out = Vec::with_capacity(alloc, message_len(message))?;
//! put_message(&mut out, message)?;
//! assert!(matches!(read_message(&mut Input::new(&out), None), Some(None)));
//! ```

pub use crate::body::{ask as read_ask, frame as read_frame, receipt as read_receipt};
pub use crate::encoding::{put_ask, put_frame, put_receipt, put_u64};
pub use crate::input::Input;
pub use crate::keep::{keep, room};
pub use crate::lengths::{ask_len, message_len, parts_len as frame_len, receipt_len};
pub use crate::message::message as read_message;
pub use crate::put::{put_message, put_u32, put_version};
