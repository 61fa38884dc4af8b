//! Requests, this side's and the other's.
ghost use Rattle.std.specs.Prelude.{◌≡◌, ℕ, true, IfErr, IfOk, IfSome, MatchResult, OnOk};
ghost use Rattle.mr_kept.specs.Kept.{journal_of, nothing_waits, replica_of};
ghost use Rattle.mr_wire.specs.FrameSpelling.{frame_bytes};
ghost use Rattle.mr_wire.specs.Grammar.{Spells};
ghost use Rattle.mr_sync.specs.Asking.{Answers, AsksMet, IsAnswerFault, IsAskFrame, IsMetAskFault, IsNoRequestOf, IsPullOf, TakesMetAsk};
ghost use Rattle.mr_sync.specs.inner.Asking.{last_asked};
ghost use Rattle.mr_sync.specs.inner.Taken.{IsNoAskOf};

use crate::fault::SyncFault;
use crate::marks::{mark_of, marked, own_marked};
use crate::records::other_side;
use crate::said::{Said, say_all};
use crate::talk::{Leaving, Talk};
use mr_itemset::SparingKnowledge;
use mr_journal::Device;
use mr_kept::Journaled;
use mr_lookup::asked_of;
use mr_replica::Reply;
use mr_version::Author;
use mr_wire::{Ask, Frame, decode, encode_ask};
use std::alloc::Global;

/// Asks the other side: opens the next session, keeps that, and gives the request for it, a mark of the history of the one that is asked, and
/// the frame. `NotMet` where it hasn't said who it is.
///
/// The frame of a request that a replica makes has at most 8,000,000 bytes of fragments, so a message has room for a mark before it.
pub(crate) fn ask<D: Device + Drop>(
    alloc: Global,
    kept: &mut Journaled<SparingKnowledge, D>,
    talk: &mut Talk,
) -> Result<Vec<u8>, SyncFault>
    ensures all_kept { OnOk result (nothing_waits kept.new ≡ true) }
    ensures asks { IfOk result (λ bytes. AsksMet talk.old.theirs (replica_of kept.old) bytes.items (replica_of kept.new)) }
{
    let theirs = other_side(&talk.theirs)?;
    let mark = mark_of(alloc, kept.replica(), theirs)?;
    let frame = pull_frame(alloc, kept, &mut talk.leaving.said)?;
    Ok(marked(alloc, &mark, &frame)?)
}

/// Opens the next session, keeps that, and gives the frame of the request for it.
fn pull_frame<D: Device + Drop>(
    alloc: Global,
    kept: &mut Journaled<SparingKnowledge, D>,
    said: &mut Said,
) -> Result<Vec<u8>, SyncFault>
    ensures all_kept { OnOk result (nothing_waits kept.new ≡ true) }
    ensures pulled { IfOk result (λ bytes. IsPullOf (replica_of kept.old) bytes.items (replica_of kept.new)) }
{
    kept.pull()?;
    let replies = kept.commit()?;
    say_all(alloc, &replies, said)?;
    last_ask(alloc, &replies)
}

/// The frame of the request that is the last of these replies. `OtherFrame` where it is none.
fn last_ask(alloc: Global, replies: &[Reply]) -> Result<Vec<u8>, SyncFault>
    ensures { IfOk result (λ bytes. IfSome (last_asked replies.now) (λ q. bytes.items ≡ frame_bytes 2 (Frame.Ask q))) }
{
    match replies.last() {
        Some(Reply::Asked(ask)) => Ok(encode_ask(alloc, ask)?),
        _ => Err(SyncFault::OtherFrame),
    }
}

/// Opens a stream for the request of the other side that the bytes spell, behind a mark of this side's history.
///
/// `NotMet` where the other side hasn't said who it is; `BadList` where the bytes have no room for a mark; `OtherHistory` where the
/// log doesn't agree with it; `Frame` where they go on with no frame; `OtherFrame` where it isn't all of them, or no request;
/// `OtherSide` where another replica asks; else as the replica refuses.
pub(crate) fn take_ask<D: Device + Drop>(
    alloc: Global,
    kept: &mut Journaled<SparingKnowledge, D>,
    talk: &mut Talk,
    bytes: &[u8],
) -> Result<(), SyncFault>
    ensures taken { OnOk result (TakesMetAsk talk.old.theirs (replica_of kept.old) bytes.now (replica_of kept.new)) }
    ensures fault { IfErr result (IsMetAskFault (journal_of kept.old) talk.old.theirs (replica_of kept.old) bytes.now (replica_of kept.new)) }
{
    let target = other_side(&talk.theirs)?;
    let frame = own_marked(alloc, kept.replica(), bytes)?;
    answer_ask(alloc, kept, target, &mut talk.leaving, frame)
}

/// Opens a stream for the request of the other side that the bytes spell.
fn answer_ask<D: Device + Drop>(
    alloc: Global,
    kept: &mut Journaled<SparingKnowledge, D>,
    target: Author,
    leaving: &mut Leaving,
    bytes: &[u8],
) -> Result<(), SyncFault>
    ensures answers { OnOk result (Answers (replica_of kept.old) target bytes.now (replica_of kept.new)) }
    ensures fault { IfErr result (IsAnswerFault (journal_of kept.old) (replica_of kept.old) target bytes.now (replica_of kept.new)) }
{
    let ask = ask_in(alloc, bytes, target)?;
    let asked = asked_of(alloc, &ask)?;
    let stream = kept.answer(ask)?;
    leaving.asked = Some(asked);
    leaving.stream = Some(stream);
    Ok(())
}

/// The request of this side that the bytes spell.
fn ask_in(alloc: Global, bytes: &[u8], target: Author) -> Result<Ask, SyncFault>
    ensures target { IfOk result (λ ask. ask.target ≡ target) }
    ensures spelled { IfOk result (λ ask. (format : ℕ) × Spells format (Frame.Ask ask) bytes.now) }
    ensures exact { IfOk result (IsAskFrame bytes.now) }
    ensures fault { IfErr result (IsNoRequestOf target bytes.now) }
{
    let (frame, used) = decode(alloc, bytes)?;
    if used != bytes.len() {
        return Err(SyncFault::OtherFrame);
    }
    ask_of(frame, target)
}

/// The request that a frame is, if this side asks.
fn ask_of(frame: Frame, target: Author) -> Result<Ask, SyncFault>
    ensures { MatchResult result (λ q. (frame ≡ Frame.Ask q) × (q.target ≡ target)) (IsNoAskOf target frame) }
{
    match frame {
        Frame::Ask(ask) => {
            if ask.target() == target {
                Ok(ask)
            } else {
                Err(SyncFault::OtherSide)
            }
        }
        Frame::Record(_) => Err(SyncFault::OtherFrame),
        Frame::Receipt(_) => Err(SyncFault::OtherFrame),
    }
}
