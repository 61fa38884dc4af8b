//! How far a log has come.
ghost use Rattle.std.specs.Prelude.{◌≡◌, IfOk};
ghost use Rattle.std.specs.Option.{option_copied, option_map};
ghost use Rattle.mr_settle.specs.inner.Carried.{carried, HasBytes, EncodesCarried, IsProgressAt};

use mr_forms::Knowledge;
use mr_replica::{Event as ReplicaEvent, Replica};
use mr_wire::{Frame, WireFault, encode_ask, encode_receipt, encode_record};
use std::alloc::{AllocError, Global};

/// How many events of a log have happened, and what the next one carries.
#[derive(Drop)]
pub struct Progress {
    /// How many have happened.
    pub done: usize,
    /// The bytes of the frame that the next one carries; none where it carries no frame, or one that has no bytes. They
    /// are kept while the event waits, so that a look at it costs no encoding.
    pub frame: Option<Vec<u8>>,
}

impl Progress {
    /// So many events of the log have happened. It costs the encoding of what the next one carries.
    pub fn try_new<K: Knowledge>(
        alloc: Global,
        end: &Replica<K>,
        done: usize,
    ) -> Result<Progress, AllocError>
        ensures { IfOk result (IsProgressAt end.now done) }
    {
        let frame = match end.log().get(done) {
            Some(event) => frame_of(alloc, event)?,
            None => None,
        };
        Ok(Progress { done, frame })
    }

    /// The bytes of the frame that the next event carries.
    pub fn frame(&self) -> Option<&[u8]>
        ensures { option_copied result ≡ option_map (λ bytes. bytes.items) self.now.frame }
    {
        match &self.frame {
            Some(frame) => Some(frame),
            None => None,
        }
    }
}

// The bytes of the frame that the event carries.
fn frame_of(alloc: Global, event: &ReplicaEvent) -> Result<Option<Vec<u8>>, AllocError>
    ensures { IfOk result (λ frame. HasBytes (carried event.now) (option_map (λ bytes. bytes.items) frame)) }
{
    match encoded(alloc, event) {
        None | Some(Err(WireFault::TooLong)) => Ok(None),
        Some(Ok(frame)) => Ok(Some(frame)),
        Some(Err(WireFault::OutOfMemory)) => Err(AllocError),
        Some(Err(_)) => unreachable!(),
    }
}

// The encoding of the frame that the event carries, if it carries one that replicas give.
fn encoded(alloc: Global, event: &ReplicaEvent) -> Option<Result<Vec<u8>, WireFault>>
    ensures { EncodesCarried (carried event.now) result }
{
    match event {
        ReplicaEvent::Receive(Frame::Record(sent)) => Some(encode_record(alloc, sent)),
        ReplicaEvent::Answer(ask) => Some(encode_ask(alloc, ask)),
        ReplicaEvent::Release(receipt) => Some(encode_receipt(alloc, receipt)),
        _ => None,
    }
}
