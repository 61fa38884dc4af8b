//! Release: push-outs for which another replica vouches are let go.
ghost use Rattle.std.specs.Prelude.{◌≡◌, ◌||◌, None, Some, IfOk, MatchResult, filter, map};
ghost use Rattle.std.specs.List.{list_any};
ghost use Rattle.mr_store.specs.Revisions.{supersedes};
ghost use Rattle.mr_replica.specs.Issue.{dropped};
ghost use Rattle.mr_replica.specs.StepThen.{answer_by};
ghost use Rattle.mr_replica.specs.Release.{vouched};

use super::contents::entries_of_gone;
use super::parts::Change;
use super::prepare::Prepared;
use super::{Core, Replica};
use crate::{Event, Refusal, Reply};
use mr_feed::Entry;
use mr_forms::{Knowledge, VersionSet};
use mr_version::Version;
use mr_wire::{Descent, Receipt};
use std::alloc::AllocError;

impl<K: Knowledge> Replica<K> {
    ghost use Rattle.mr_replica.specs.Step.{Steps};

    /// Lets go of the push-outs of the receipt's item that are its version, or superseded by it: another
    /// replica vouches for them.
    ///
    /// `Retired`, then `NotPushedOut`, then `LogFull`, and `OutOfMemory` last; a refused event changes nothing.
    pub fn release(&mut self, receipt: Receipt) -> Result<(), Refusal>
        ensures { Steps K.form self.old (Event.Release receipt) (answer_by (λ _. Reply.Done) result) self.new }
    {
        match self.step(Event::Release(receipt))? {
            Reply::Done => Ok(()),
            _ => unreachable!(),
        }
    }
}

impl<K: Knowledge> Core<K> {
    ghost use Rattle.mr_replica.specs.Release.{release_refusal};
    ghost use Rattle.mr_replica.specs.inner.Prepare.{Prepares};

    pub(crate) fn prepare_release(&self, receipt: &Receipt) -> Result<Prepared<K>, Refusal>
        ensures { Prepares K.form self.now (Event.Release receipt.now) result }
    {
        self.check_release(receipt)?;
        let entries = self.released(&receipt.descent)?;
        Ok(Prepared {
            reply: Reply::Done,
            change: Change::Release(entries),
        })
    }

    // The entries of the push-outs that leave: of this version, and what it supersedes.
    fn released(&self, descent: &Descent) -> Result<Vec<Entry>, AllocError>
        ensures { IfOk result (λ entries. entries.items ≡ map dropped (filter (supersedes descent.now.item (vouched descent.now)) self.now.push_outs)) }
    {
        entries_of_gone(
            self.alloc,
            self.parts.contents.store(),
            descent.item(),
            &[descent.version()],
            descent.below(),
        )
    }

    // Nothing, where the receipt is for a push-out.
    fn check_release(&self, receipt: &Receipt) -> Result<(), Refusal>
        ensures { MatchResult result (λ _. release_refusal self.now receipt.now ≡ None) (λ e. release_refusal self.now receipt.now ≡ Some e) }
    {
        self.check_retired()?;
        let descent = &receipt.descent;
        if !vouches_for_any(
            descent,
            self.parts.contents.store().push_outs_of(descent.item()),
        ) {
            return Err(Refusal::NotPushedOut);
        }
        self.check_log()
    }
}

// Whether one of these versions of the item is the one that is vouched for, or superseded by it.
fn vouches_for_any(descent: &Descent, versions: &[Version]) -> bool
    ensures { result ≡ list_any (vouched descent.now) versions.now }
{
    versions
        .iter()
        .any(|version| vouches_for(descent, *version))
}

fn vouches_for(descent: &Descent, version: Version) -> bool
    ensures { result ≡ vouched descent.now version }
{
    version == descent.version() || descent.below().contains(version)
}
