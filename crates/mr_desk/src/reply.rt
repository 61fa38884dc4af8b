//! What a reply tells, and the frame that it gives.
ghost use Rattle.std.specs.Prelude.{◌≡◌, IfOk};
ghost use Rattle.mr_desk.specs.Told.{told_by, frame_by};

use mr_replica::Reply;
use mr_version::Version;
use mr_wire::{encode_ask, encode_receipt, encode_record};
use std::alloc::{AllocError, Global};

/// What came of an admitted event, besides its frame.
#[derive(Clone, Copy, Debug, PartialEq, Eq)]
pub enum Told {
    /// The version was issued.
    Issued(Version),
    /// It is done, and if the event gives a frame, it lies on the desk.
    Done,
    /// The session of this number was opened; its request lies on the desk.
    Asked(u64),
    /// The stream of this number was opened.
    Streaming(u64),
    /// The record was taken, and what it tells was not known.
    Took,
    /// The record was taken, and tells of a version that is known already.
    Known,
    /// The stream's last record was taken, and its session is closed.
    Finished,
}

/// What a reply tells.
pub(crate) fn told_by(reply: &Reply) -> Told
    ensures { result ≡ told_by reply.now }
{
    match reply {
        Reply::Issued(version) => Told::Issued(*version),
        Reply::Asked(ask) => Told::Asked(ask.session()),
        Reply::Streaming(stream) => Told::Streaming(*stream),
        Reply::Took => Told::Took,
        Reply::Known => Told::Known,
        Reply::Finished => Told::Finished,
        Reply::Done | Reply::Gave(_) | Reply::Vouched(_) => Told::Done,
    }
}

/// The bytes of the frame that a reply gives, and none where it gives none. It costs the frame's bytes.
pub fn frame_by(alloc: Global, reply: &Reply) -> Result<Vec<u8>, AllocError>
    ensures { IfOk result (λ bytes. bytes.items ≡ frame_by reply.now) }
{
    let bytes = match reply {
        Reply::Asked(ask) => encode_ask(alloc, ask),
        Reply::Gave(record) => encode_record(alloc, record),
        Reply::Vouched(receipt) => encode_receipt(alloc, receipt),
        _ => Ok(Vec::new(alloc)),
    };
    bytes.map_err(|_| AllocError)
}
