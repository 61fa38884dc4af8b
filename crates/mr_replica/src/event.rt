//! Events and replies.
ghost use Rattle.std.specs.Prelude.{◌≡◌, IfOk};

use mr_mail::Message;
use mr_model::Bases;
use mr_version::Version;
use mr_wire::{Ask, Frame, Receipt, Record};
use std::alloc::AllocError;

/// What a replica is asked to do.
#[derive(Debug, Drop)]
pub enum Event {
    /// Issue the first version of a new item.
    Create(Message),
    /// Issue a version that supersedes the bases, which are held versions of one item, with all
    /// that they supersede.
    Edit(Bases, Message),
    /// Admit nothing more but to tell others.
    Retire,
    /// Open a session, and ask in it for what the replica lacks.
    Pull,
    /// Take a record of the stream that one of its sessions asked for.
    Receive(Frame),
    /// Close the session of this number. What was taken in it stays.
    CutIn(u64),
    /// Open a stream for one who asks.
    Answer(Ask),
    /// Give the next record of the stream of this number.
    Next(u64),
    /// Close the stream of this number.
    CutOut(u64),
    /// Give a receipt for the version, which is a head.
    Vouch(Version),
    /// Let go of the push-outs of the receipt's item that are its version, or superseded by it.
    Release(Receipt),
}

impl Event {
    /// An equal event. It costs a copy of what the event carries.
    pub fn copy(&self) -> Result<Event, AllocError>
        ensures { IfOk result (λ event. event ≡ self.now) }
    {
        match self {
            Event::Create(message) => message.copy().map(Event::Create),
            Event::Edit(bases, message) => copied_edit(bases, message),
            Event::Retire => Ok(Event::Retire),
            Event::Pull => Ok(Event::Pull),
            Event::Receive(frame) => frame.copy().map(Event::Receive),
            Event::CutIn(session) => Ok(Event::CutIn(*session)),
            Event::Answer(ask) => ask.copy().map(Event::Answer),
            Event::Next(stream) => Ok(Event::Next(*stream)),
            Event::CutOut(stream) => Ok(Event::CutOut(*stream)),
            Event::Vouch(version) => Ok(Event::Vouch(*version)),
            Event::Release(receipt) => receipt.copy().map(Event::Release),
        }
    }
}

// An equal Edit.
fn copied_edit(bases: &Bases, message: &Message) -> Result<Event, AllocError>
    ensures { IfOk result (λ event. event ≡ Event.Edit bases.now message.now) }
{
    Ok(Event::Edit(bases.copy()?, message.copy()?))
}

/// What came of an admitted event.
#[derive(Debug, Drop)]
pub enum Reply {
    /// The version was issued, by a Create or an Edit.
    Issued(Version),
    /// It is done: the replica has retired, a session or a stream is closed, or push-outs were let go.
    Done,
    /// The request of the session that was opened by a Pull.
    Asked(Ask),
    /// The stream of this number was opened, by an Answer.
    Streaming(u64),
    /// The stream's next record, of what was held as a Next asked for it.
    Gave(Record),
    /// The record was taken, and what it tells was not known.
    Took,
    /// The record was taken, and tells of a version that is known already.
    Known,
    /// The stream's last record was taken, and its session is closed.
    Finished,
    /// The receipt that was asked for by a Vouch.
    Vouched(Receipt),
}

impl Reply {
    /// An equal reply. It costs a copy of what the reply carries.
    pub fn copy(&self) -> Result<Reply, AllocError>
        ensures { IfOk result (λ reply. reply ≡ self.now) }
    {
        match self {
            Reply::Issued(version) => Ok(Reply::Issued(*version)),
            Reply::Done => Ok(Reply::Done),
            Reply::Asked(ask) => ask.copy().map(Reply::Asked),
            Reply::Streaming(stream) => Ok(Reply::Streaming(*stream)),
            Reply::Gave(record) => record.copy().map(Reply::Gave),
            Reply::Took => Ok(Reply::Took),
            Reply::Known => Ok(Reply::Known),
            Reply::Finished => Ok(Reply::Finished),
            Reply::Vouched(receipt) => receipt.copy().map(Reply::Vouched),
        }
    }
}
