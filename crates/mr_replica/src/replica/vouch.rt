//! Vouch: the replica gives its word that it holds a version as a head.
ghost use Rattle.std.specs.Prelude.{◌≡◌, None, Some, MatchResult, IfOk};
ghost use Rattle.mr_replica.specs.StepThen.{answer_by};
ghost use Rattle.mr_replica.specs.Vouch.{receipt_for};

use super::parts::Change;
use super::prepare::Prepared;
use super::{Core, Replica};
use crate::{Event, Refusal, Reply};
use mr_forms::Knowledge;
use mr_madewith::Revision;
use mr_version::{Author, Version};
use mr_wire::{Descent, Receipt};
use std::alloc::AllocError;

impl<K: Knowledge> Replica<K> {
    ghost use Rattle.mr_replica.specs.Step.{Steps};

    /// The receipt for a version, which is a head: the replica's word that it holds it. It changes nothing but
    /// the log.
    ///
    /// `Retired`, then `NotHeld` with the version, then `LogFull`, and `OutOfMemory` last; a refused event
    /// changes nothing.
    pub fn vouch(&mut self, version: Version) -> Result<Receipt, Refusal>
        ensures { Steps K.form self.old (Event.Vouch version) (answer_by (λ receipt. Reply.Vouched receipt) result) self.new }
    {
        match self.step(Event::Vouch(version))? {
            Reply::Vouched(receipt) => Ok(receipt),
            _ => unreachable!(),
        }
    }
}

impl<K: Knowledge> Core<K> {
    ghost use Rattle.mr_replica.specs.Vouch.{vouch_refusal, IsReceiptFor};
    ghost use Rattle.mr_replica.specs.inner.Prepare.{Prepares};

    pub(crate) fn prepare_vouch(&self, version: Version) -> Result<Prepared<K>, Refusal>
        ensures { Prepares K.form self.now (Event.Vouch version) result }
    {
        self.check_vouch(version)?;
        let receipt = self.receipt_of(version)?;
        Ok(Prepared {
            reply: Reply::Vouched(receipt),
            change: Change::Note,
        })
    }

    // Nothing, where the version may be vouched for.
    fn check_vouch(&self, version: Version) -> Result<(), Refusal>
        ensures { MatchResult result (λ _. vouch_refusal self.now version ≡ None) (λ e. vouch_refusal self.now version ≡ Some e) }
    {
        self.check_retired()?;
        if self.parts.contents.store().head(version).is_none() {
            return Err(Refusal::NotHeld(version));
        }
        self.check_log()
    }

    // The receipt for a version, which is a head.
    fn receipt_of(&self, version: Version) -> Result<Receipt, AllocError>
        requires { vouch_refusal self.now version ≡ None }
        ensures { IfOk result (IsReceiptFor self.now version) }
    {
        match self.parts.contents.store().head(version) {
            Some(revision) => receipt_for(self.parts.id, revision),
            None => unreachable!(),
        }
    }
}

// The giver's receipt for a revision.
fn receipt_for(giver: Author, revision: &Revision) -> Result<Receipt, AllocError>
    ensures { IfOk result (λ receipt. receipt ≡ receipt_for giver revision.now) }
{
    let below = revision.below().copy()?;
    let descent = Descent::new(revision.item(), revision.version(), below);
    Ok(Receipt { giver, descent })
}
