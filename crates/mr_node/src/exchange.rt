//! One letter of a link, its answer, and the frame that it gives.
ghost use Rattle.std.specs.Prelude.{◌≡◌, ◌≢◌, ◌∷◌, [], ◌<◌, ◌+◌, ◌^◌, false, IsSome, IfOk, OnErr, Result};
ghost use Rattle.mr_link.specs.Wire.{wire_of};
ghost use Rattle.mr_replica.specs.declared.event.Reply.{Reply};
ghost use Rattle.mr_replica.specs.declared.refusal.Refusal.{Refusal};
ghost use Rattle.mr_threads.specs.Exchange.{said};
ghost use Rattle.mr_threads.specs.Talk.{Says, SaysInPart, SameLanes};
ghost use Rattle.mr_node.specs.Saying.{reply_frame};
ghost use Rattle.mr_node.specs.inner.Turn.{advanced};
ghost use Rattle.mr_node.specs.inner.Step.{WritesAll, ComesOf, unsent};

use crate::progress::Progress;
use crate::replica_machine::Answer;
use crate::turn::Stop;
use mr_link::{Link, Snag, Wire};
use mr_replica::{Event, Reply};
use mr_threads::{Halt, Talk};
use std::alloc::Global;
use std::sync::Wait;

/// Says a letter, and sends the frame that its answer gives. A letter that was refused, or whose frame could not be sent
/// since the link was down, stops the turn.
pub(crate) fn exchange<L: Link, R: Wait>(
    rt: &R,
    alloc: Global,
    talk: &mut Talk<Event, Answer, R>,
    wire: &mut Wire<L>,
    progress: &mut Progress,
    letter: Event,
) -> Result<Option<Stop>, Halt>
    requires open { talk.old.post.finished ≡ false }
    requires count { (L.tells wire.old.link).downs + 1 < 2 ^ 64 }
    requires unread { IsSome (wire_of L.tells wire.old).unread }
    ensures so { IfOk result (λ stop. (answer : Result Reply Refusal) × Says talk.old (said letter answer ∷ []) talk.new × (progress.new ≡ advanced progress.old answer) × ComesOf (wire_of L.tells wire.old) answer stop (wire_of L.tells wire.new)) }
    ensures in_turn { OnErr result (SaysInPart talk.old talk.new) }
    ensures lanes { SameLanes talk.old talk.new }
{
    talk.say(rt, letter)?;
    let Some(answer) = talk.last_reply() else {
        return Err(Halt::Strange);
    };
    progress.advance(answer)?;
    send_answer(alloc, wire, answer)
}

/// Sends the frame that an answer gives.
fn send_answer<L: Link>(
    alloc: Global,
    wire: &mut Wire<L>,
    answer: &Answer,
) -> Result<Option<Stop>, Halt>
    requires count { (L.tells wire.old.link).downs + 1 < 2 ^ 64 }
    requires unread { IsSome (wire_of L.tells wire.old).unread }
    ensures { IfOk result (λ stop. ComesOf (wire_of L.tells wire.old) answer.now stop (wire_of L.tells wire.new)) }
{
    match answer {
        Ok(reply) => match send_reply(alloc, wire, reply) {
            Ok(()) => Ok(None),
            Err(snag) => unsent(snag),
        },
        Err(_) => Ok(Some(Stop::Refused)),
    }
}

/// Sends the frame that a reply gives, if it gives one.
fn send_reply<L: Link>(alloc: Global, wire: &mut Wire<L>, reply: &Reply) -> Result<(), Snag>
    requires count { (L.tells wire.old.link).downs + 1 < 2 ^ 64 }
    requires unread { IsSome (wire_of L.tells wire.old).unread }
    ensures { WritesAll (wire_of L.tells wire.old) (reply_frame reply.now) result (wire_of L.tells wire.new) }
{
    match reply {
        Reply::Asked(ask) => wire.send_ask(alloc, ask),
        Reply::Gave(record) => wire.send_record(alloc, record),
        Reply::Vouched(receipt) => wire.send_receipt(alloc, receipt),
        Reply::Issued(_) => Ok(()),
        Reply::Done => Ok(()),
        Reply::Streaming(_) => Ok(()),
        Reply::Took => Ok(()),
        Reply::Known => Ok(()),
        Reply::Finished => Ok(()),
    }
}

/// What it means that no frame was sent. A request too long for a frame counts as a refused growth; a bad frame is only read.
fn unsent(snag: Snag) -> Result<Option<Stop>, Halt>
    requires { snag ≢ Snag.BadFrame }
    ensures { result ≡ unsent snag }
{
    match snag {
        Snag::LinkDown => Ok(Some(Stop::NotSent)),
        Snag::OutOfMemory => Err(Halt::OutOfMemory),
        Snag::TooLong => Err(Halt::OutOfMemory),
        Snag::BadFrame => unreachable!(),
    }
}
