//! The end of a turn.
ghost use Rattle.std.specs.Prelude.{◌≡◌, ◌↔◌, IfErr, IfOk, IsTrue, MatchOption, MatchResult, take};
ghost use Rattle.mr_kept.specs.Kept.{replica_of};
ghost use Rattle.mr_sync.specs.Ending.{EndsBy, HasNothingOpen, IsAllTold, IsEndFault, IsUnfinished, MayEnd, is_last};

use crate::fault::SyncFault;
use crate::hello::{front_of, known_digest};
use crate::talk::{Arriving, Talk};
use mr_compare::{Digest, Meeting};
use mr_itemset::SparingKnowledge;
use mr_journal::Device;
use mr_kept::Journaled;
use mr_talk::{Hello, Short, Turn};
use std::alloc::Global;

/// The first bytes of the digest of what is known, where this side may say that it has nothing open: its digest is noted then.
///
/// In the last turns it has to say so: what is lacking then stays lacking. `Unfinished` where the other side hasn't told all
/// that it was asked for even then, as where a file that came for one that was wanted is another.
pub(crate) fn end<D: Device + Drop>(
    alloc: Global,
    kept: &Journaled<SparingKnowledge, D>,
    talk: &mut Talk,
    turn: Turn,
) -> Result<Option<Short>, SyncFault>
    ensures ends { IfOk result (λ found. MatchOption found ((MayEnd turn talk.old → ⊥) × (talk.new.mine ≡ talk.old.mine))
        (λ short. MayEnd turn talk.old × EndsBy (replica_of kept.now).knowledge short talk.new.mine)) }
    ensures lacking { talk.new.arriving.lacking.keys ≡ talk.old.arriving.lacking.keys }
    ensures fault { IfErr result (IsEndFault turn talk.old (replica_of kept.now).knowledge) }
{
    if !may_end(turn, talk)? {
        return Ok(None);
    }
    let digest = known_digest(alloc, kept.replica())?;
    talk.mine = Some(digest);
    Ok(Some(front_of::<16>(&digest)))
}

/// Whether this side may say at the end of this turn that it has nothing open.
fn may_end(turn: Turn, talk: &Talk) -> Result<bool, SyncFault>
    ensures { MatchResult result (λ may. IsTrue may ↔ MayEnd turn talk.now) (IsUnfinished turn talk.now) }
{
    if !is_last(turn) {
        return Ok(has_nothing_open(talk));
    }
    if is_all_told(&talk.arriving) {
        Ok(true)
    } else {
        Err(SyncFault::Unfinished)
    }
}

/// Whether the turn is one that has to end so.
fn is_last(turn: Turn) -> bool
    ensures { result ≡ is_last turn }
{
    matches!(
        turn,
        Turn::CalledSettles | Turn::CalledCloses | Turn::CallerCloses
    )
}

/// Whether the other side has told all that was asked for, each file that was wanted of it among that, or that it is missing.
fn is_all_told(arriving: &Arriving) -> bool
    ensures { IsTrue result ↔ IsAllTold arriving.now }
{
    arriving.is_finished && arriving.wanted.is_empty()
}

/// Whether nothing is waited for, and nothing is to be told.
fn has_nothing_open(talk: &Talk) -> bool
    ensures { IsTrue result ↔ HasNothingOpen talk.now }
{
    let arriving = &talk.arriving;
    let leaving = &talk.leaving;
    is_all_told(arriving)
        && arriving.lacking.is_empty()
        && leaving.stream.is_none()
        && leaving.said.records.is_empty()
        && leaving.said.receipts.is_empty()
        && leaving.wants.is_empty()
}

/// The meeting with the other side, as it is noted: what this side knew at the end, and the first bytes of the digest of what
/// the other knew.
pub(crate) fn meeting_of(theirs: &Hello, mine: &Digest, knows: &Short, time: u64) -> Meeting
    ensures id { result.id ≡ theirs.now.id }
    ensures birth { result.birth ≡ theirs.now.birth }
    ensures mine { result.mine ≡ mine.now }
    ensures theirs { take 16 result.theirs ≡ knows.now }
    ensures time { result.time ≡ time }
{
    let mut digest = [0u8; 32];
    digest[..16].copy_from_slice(knows);
    let birth = theirs.birth;
    let mine = *mine;
    Meeting {
        id: theirs.id,
        birth,
        mine,
        theirs: digest,
        time,
    }
}
