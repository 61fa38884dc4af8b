//! What other replicas know of this one.
ghost use Rattle.std.specs.Prelude.{◌≡◌, All, Any, IfErr, MatchBool, OnOk};
ghost use Rattle.mr_kept.specs.Fault.{peer_fault_number};
ghost use Rattle.mr_kept.specs.Peer.{IsAbove, IsOther, IsPeerFault};

use crate::journaled::Journaled;
use mr_entry::Birth;
use mr_forms::Knowledge;
use mr_journal::Device;
use mr_version::{Author, Version};
use thiserror::Error;

/// Why nothing may be told to another replica, nor taken of it.
#[derive(Clone, Copy, Debug, PartialEq, Eq, Drop, Error)]
pub enum PeerFault {
    /// The other knows a version of this replica that it has not issued. So this is an old copy, which would give that
    /// version to another message.
    #[error("an old copy: another replica knows more versions than this one issued")]
    OldCopy,
    /// The other knows another journal of the same id.
    #[error("another journal of the same id: it was begun at another time")]
    OtherBirth,
}

impl PeerFault {
    /// The fault's number, from 1 in the order of the variants.
    pub fn number(self) -> u8
        ensures { result ≡ peer_fault_number self }
    {
        match self {
            PeerFault::OldCopy => 1,
            PeerFault::OtherBirth => 2,
        }
    }
}

/// Whether one of these versions is of this id and above those that were issued.
fn knows_more(id: Author, issued: u32, highest: &[Version]) -> bool
    ensures { MatchBool result (Any (IsAbove id issued) highest.now) (All (λ v. IsAbove id issued v → ⊥) highest.now) }
{
    highest.iter().any(|version| version.author() == id && version.counter() > issued)
}

/// Whether this journal is of this id and was begun at another time.
fn is_other(id: Author, birth: &Birth, told: &(Author, Birth)) -> bool
    ensures { MatchBool result (IsOther id birth.now told.now) (IsOther id birth.now told.now → ⊥) }
{
    told.0 == id && told.1 != *birth
}

/// Whether one of these journals is.
fn knows_other(id: Author, birth: &Birth, births: &[(Author, Birth)]) -> bool
    ensures { MatchBool result (Any (IsOther id birth.now) births.now) (All (λ b. IsOther id birth.now b → ⊥) births.now) }
{
    births.iter().any(|told| is_other(id, birth, told))
}

impl<K: Knowledge, D: Device + Drop> Journaled<K, D> {
    ghost use Rattle.mr_kept.specs.Kept.{head_of, issued_of};

    /// Whether what another replica tells goes with this one: the highest version that it knows of each author, and the
    /// births of the journals that it knows, each with its id. A host asks before it sends or takes anything.
    ///
    /// `OldCopy` where a version of this id has a counter above those that were issued and kept; then `OtherBirth` where a
    /// journal of this id was begun at another time. It costs a walk over both. What isn't noticed: an old copy that meets only
    /// those who know no more of it than it does itself, and two journals of one id of which the other knows but one.
    pub fn check_peer(
        &self,
        highest: &[Version],
        births: &[(Author, Birth)],
    ) -> Result<(), PeerFault>
        ensures fits { OnOk result (All (λ v. IsAbove (head_of self.now).id (issued_of self.now) v → ⊥) highest.now
            × All (λ b. IsOther (head_of self.now).id (head_of self.now).birth b → ⊥) births.now) }
        ensures fault { IfErr result (IsPeerFault (head_of self.now).id (issued_of self.now) (head_of self.now).birth highest.now births.now) }
    {
        if knows_more(self.head.id(), self.issued, highest) {
            return Err(PeerFault::OldCopy);
        }
        if knows_other(self.head.id(), &self.head.birth(), births) {
            return Err(PeerFault::OtherBirth);
        }
        Ok(())
    }
}
