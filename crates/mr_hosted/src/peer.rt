//! What other replicas know of this one.
ghost use Rattle.std.specs.Prelude.{◌≡◌, All, IfErr, OnOk};
ghost use Rattle.mr_kept.specs.Kept.{head_of, issued_of};
ghost use Rattle.mr_kept.specs.Peer.{IsAbove, IsOther, IsPeerFault};

use crate::hosted::Hosted;
use mr_entry::Birth;
use mr_forms::Knowledge;
use mr_kept::PeerFault;
use mr_version::{Author, Version};

impl<K: Knowledge> Hosted<K> {
    ghost use Rattle.mr_hosted.specs.Hosted.{journaled_of};

    /// What was drawn when the file was begun.
    pub fn birth(&self) -> Birth
        ensures { result ≡ (head_of (journaled_of self.now)).birth }
    {
        self.journaled.birth()
    }

    /// Whether what another replica tells goes with this one, as [`mr_kept::Journaled::check_peer`]: the highest version that it knows of
    /// each author, and the births of the journals that it knows, each with its id.
    ///
    /// `OldCopy` where a version of this id has a counter above those that were issued and committed; then `OtherBirth` where a
    /// journal of this id was begun at another time. It costs a walk over both.
    pub fn check_peer(
        &self,
        highest: &[Version],
        births: &[(Author, Birth)],
    ) -> Result<(), PeerFault>
        ensures fits { OnOk result (All (λ v. IsAbove (head_of (journaled_of self.now)).id (issued_of (journaled_of self.now)) v → ⊥) highest.now
            × All (λ b. IsOther (head_of (journaled_of self.now)).id (head_of (journaled_of self.now)).birth b → ⊥) births.now) }
        ensures fault { IfErr result (IsPeerFault (head_of (journaled_of self.now)).id (issued_of (journaled_of self.now)) (head_of (journaled_of self.now)).birth highest.now births.now) }
    {
        self.journaled.check_peer(highest, births)
    }
}
