//! A talk over a line, for a host.
ghost use Rattle.std.specs.Prelude.{◌≡◌, Some, Ok, false, IfOk, IfErr, OnOk, OnErr};
ghost use Rattle.std.specs.Io.KnownBytes.{Appends};
ghost use Rattle.mr_talk.specs.declared.turn.Turn.TheVariants.{CallerGreets, Over};
ghost use Rattle.mr_talk.specs.Line.{Hears, ahead};
ghost use Rattle.mr_talk.specs.Said.{message_bytes};
ghost use Rattle.mr_talk.specs.Talk.{BrokeOff, Ended, TalkedFor, Talked};
ghost use Rattle.mr_talk.specs.inner.Host.{IsSentFor};
ghost use Rattle.mr_talk.specs.inner.Talk.{IsPartly, IsUnheard, IsUnsaid};
ghost use Rattle.mr_talk.specs.Turns.{next_of};

use crate::line::Line;
use crate::meeting::Meeting;
use crate::message::Message;
use crate::side::Host;
use crate::talk_fault::TalkFault;
use crate::turn::{Role, Turn};
use std::alloc::Global;
use std::io::{Read, Write};

/// Sends a message in its place, once all that the host did is kept, and flushes where the turn is over with it.
fn say<R: Read + Drop, W: Write + Drop, H: Host>(
    line: &mut Line<R, W>,
    host: &mut H,
    turn: Turn,
    message: &Message,
) -> Result<Turn, TalkFault>
    ensures next { IfOk result (λ next. next_of turn message.now.kind ≡ Some next) }
    ensures sent { OnOk result (Appends (W.contents line.old.output) (W.contents line.new.output) (message_bytes message.now)) }
    ensures part { OnErr result (IsPartly turn message.now (W.contents line.old.output) (W.contents line.new.output)) }
    ensures fault { IfErr result (λ fault. IsUnsaid turn message.now.kind fault (W.contents line.old.output) (W.contents line.new.output)) }
    ensures kept { IsSentFor H.steps result host.old host.new }
    ensures input { line.new.input ≡ line.old.input }
    ensures reader { line.new.reader ≡ line.old.reader }
{
    let Some(next) = turn.next(message.kind()) else {
        return Err(TalkFault::OutOfPlace);
    };
    host.keep()?;
    line.send(host, message.kind(), message.bytes())?;
    if next.sender() != turn.sender() {
        line.flush()?;
    }
    Ok(next)
}

/// The next message, if it is in its place.
fn hear<R: Read + Drop, W: Write + Drop>(
    line: &mut Line<R, W>,
    turn: Turn,
) -> Result<(Message, Turn), TalkFault>
    ensures heard { IfOk result (λ heard. (next_of turn heard.0.kind ≡ Some heard.1)
        × Hears (ahead line.old.reader (R.remaining line.old.input)) (Ok heard.0) (ahead line.new.reader (R.remaining line.new.input))) }
    ensures fault { IfErr result (λ fault. IsUnheard turn fault (ahead line.old.reader (R.remaining line.old.input)) (ahead line.new.reader (R.remaining line.new.input))) }
    ensures output { line.new.output ≡ line.old.output }
{
    let message = line.receive()?;
    match turn.next(message.kind()) {
        Some(next) => Ok((message, next)),
        None => Err(TalkFault::OutOfPlace),
    }
}

/// A whole talk over the line, for the host.
///
/// What was sent and what was received is a whole talk where the answer is `Ok`: the other side, which sent and received the
/// same, has come to the same end. Each message that was sent is what the host answered in its turn, each that came was handed
/// to it, and all that it did is kept. Whatever each call of the host keeps (`Host::keeps`), the talk keeps, however it ends.
///
/// A talk that breaks off is a beginning of a whole one: each message was sent in its place, the last maybe in part, and what
/// was received until then was in its place too. A fault of the host is told to the other side as soon as this one may speak;
/// until then what that one says is received and not taken. One at the last message that comes isn't told, since the other
/// side has come to its end. Where the host can't keep what it did, nothing more is sent, and the other side sees the line
/// close.
pub fn run_talk<R: Read + Drop, W: Write + Drop, H: Host>(
    alloc: Global,
    line: &mut Line<R, W>,
    host: &mut H,
    role: Role,
) -> Result<(), TalkFault>
    ensures whole { OnOk result (Talked role CallerGreets Over (W.contents line.old.output) (W.contents line.new.output)
        (ahead line.old.reader (R.remaining line.old.input)) (ahead line.new.reader (R.remaining line.new.input))) }
    ensures played { OnOk result (TalkedFor H.steps role host.old host.new (W.contents line.old.output) (W.contents line.new.output)
        (ahead line.old.reader (R.remaining line.old.input)) (ahead line.new.reader (R.remaining line.new.input))) }
    ensures kept { OnOk result (H.waits host.new ≡ false) }
    ensures keeps { H.keeps host.old host.new }
    ensures broke_off { OnErr result (BrokeOff role (W.contents line.old.output) (W.contents line.new.output)
        (ahead line.old.reader (R.remaining line.old.input))) }
    ensures cause { IfErr result (λ fault. Ended H.steps fault role host.old host.new (W.contents line.old.output) (W.contents line.new.output)
        (ahead line.old.reader (R.remaining line.old.input)) (ahead line.new.reader (R.remaining line.new.input))) }
{
    let mut meeting = Meeting::new();
    let mut turn = Turn::CallerGreets;
    'messages: for _ in 0..u64::MAX {
        let Some(sender) = turn.sender() else {
            return meeting.end(host);
        };
        if sender == role {
            let message = meeting.next_message(alloc, host, turn)?;
            turn = say(line, host, turn, &message)?;
        } else {
            let (message, next) = hear(line, turn)?;
            meeting.take(host, message)?;
            turn = next;
        }
    }
    Err(TalkFault::OutOfPlace)
}
