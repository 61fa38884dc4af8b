//! What a hello says of the other side.
ghost use Rattle.std.specs.Prelude.{IsTrue, MatchBool};
ghost use Rattle.std.specs.Option.{option_copied};
ghost use Rattle.mr_talk.specs.Told.{AreOf, NothingIsTold, Side};
ghost use Rattle.mr_talk.specs.Peer.{HasNothingToTell, IsAsMet, IsRenewed, Stands, WentOn};

use crate::hello::{Birth, Hello, Knows, Tip};

/// What is remembered of a peer since the last whole talk with it.
#[derive(Clone, Copy, Debug, PartialEq, Eq)]
pub struct Met {
    /// When its journal was begun.
    pub birth: Birth,
    /// The digest of what this side knew at the end.
    pub mine: Knows,
    /// The digest of what the peer knew at the end.
    pub theirs: Knows,
}

/// What the other side is to this one.
#[derive(Clone, Copy, Debug, PartialEq, Eq)]
pub enum Standing {
    /// Another replica, and neither is an old copy as far as the two know.
    Good,
    /// This replica itself, or a copy of it.
    Itself,
    /// Another replica with the id of this one.
    SameId,
    /// Another replica than the one that was met under this id.
    Renewed,
    /// The other has issued fewer versions than this side knows of it: it is an old copy, and would issue some of them again.
    PeerIsOldCopy,
    /// The other knows more versions of this side than it has issued: this is an old copy.
    OldCopy,
    /// The other's last version has another message than this side knows of it: it is an old copy that went on.
    PeerWentOn,
}

/// What the other side is, by both hellos, the highest counter that is known here among its versions, and what is remembered
/// of the replica with its id; and by the digest of the message of its last version, if that one's message is known here.
///
/// What isn't noticed: an old copy that meets only those who know no more of it than it does itself, and one that went on past
/// all that is known here of it. A mark that goes with a request finds the latter out.
pub fn standing_of(
    mine: &Hello,
    theirs: &Hello,
    known: u32,
    tip: Option<&Tip>,
    met: Option<&Met>,
) -> Standing
    ensures { Stands mine.now theirs.now known (option_copied tip.entry) (option_copied met.entry) result }
{
    if mine.id == theirs.id {
        return if mine.birth == theirs.birth {
            Standing::Itself
        } else {
            Standing::SameId
        };
    }
    if is_renewed(theirs, met) {
        return Standing::Renewed;
    }
    if theirs.issued < known {
        return Standing::PeerIsOldCopy;
    }
    if mine.issued < theirs.known {
        return Standing::OldCopy;
    }
    if went_on(theirs, tip) {
        return Standing::PeerWentOn;
    }
    Standing::Good
}

/// Whether the other's last version has another message than is known here.
fn went_on(theirs: &Hello, tip: Option<&Tip>) -> bool
    ensures { MatchBool result (WentOn theirs.now (option_copied tip.entry)) (WentOn theirs.now (option_copied tip.entry) → ⊥) }
{
    match tip {
        Some(tip) => *tip != theirs.tip,
        None => false,
    }
}

/// Whether another journal was met under the other's id.
fn is_renewed(theirs: &Hello, met: Option<&Met>) -> bool
    ensures { MatchBool result (IsRenewed theirs.now (option_copied met.entry)) (IsRenewed theirs.now (option_copied met.entry) → ⊥) }
{
    match met {
        Some(met) => met.birth != theirs.birth,
        None => false,
    }
}

/// Whether a talk would tell no record, as far as both hellos and what is remembered of the other can say: nothing waits
/// at either side, and either both know the same, or each knows just what it knew at the end of the last whole talk of these two.
///
/// So a `true` means that neither side holds a version that the other selects and doesn't know, if equal digests mean equal
/// knowledge.
pub fn nothing_to_tell(mine: &Hello, theirs: &Hello, met: Option<&Met>) -> bool
    ensures exact { MatchBool result (HasNothingToTell mine.now theirs.now (option_copied met.entry))
        (HasNothingToTell mine.now theirs.now (option_copied met.entry) → ⊥) }
    ensures nothing_told { IsTrue result → (a b : Side) → AreOf mine.now theirs.now (option_copied met.entry) a b → NothingIsTold a b }
{
    has_nothing(mine, theirs, met)
}

fn has_nothing(mine: &Hello, theirs: &Hello, met: Option<&Met>) -> bool
    ensures { MatchBool result (HasNothingToTell mine.now theirs.now (option_copied met.entry))
        (HasNothingToTell mine.now theirs.now (option_copied met.entry) → ⊥) }
{
    if mine.is_waiting || theirs.is_waiting {
        return false;
    }
    mine.knows == theirs.knows || is_as_met(mine, theirs, met)
}

/// Whether each knows just what it knew when the two last met.
fn is_as_met(mine: &Hello, theirs: &Hello, met: Option<&Met>) -> bool
    ensures { MatchBool result (IsAsMet mine.now theirs.now (option_copied met.entry)) (IsAsMet mine.now theirs.now (option_copied met.entry) → ⊥) }
{
    match met {
        Some(met) => {
            met.birth == theirs.birth && met.mine == mine.knows && met.theirs == theirs.knows
        }
        None => false,
    }
}
