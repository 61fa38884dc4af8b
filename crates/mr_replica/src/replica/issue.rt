//! Issuing a version.
ghost use Rattle.std.specs.Prelude.{◌≡◌, ◌≢◌, ◌<◌, IfOk, IfErr, OnOk, Ok, Err, length};

use super::Core;
use super::contents::Arrival;
use crate::Refusal;
use mr_concise::ConciseVector;
use mr_forms::{FormFault, Knowledge};
use mr_madewith::Revision;
use mr_mail::Message;
use mr_version::{ItemId, Version};
use std::alloc::AllocError;

impl<K: Knowledge> Core<K> {
    ghost use Rattle.mr_replica.specs.State.{next_version};
    ghost use Rattle.mr_replica.specs.Issue.{Wanted.Knowledge as KnowledgeWanted, version_learned, Fits};
    ghost use Rattle.mr_replica.specs.inner.Issued.{IsNext, RefusesMade};
    ghost use Rattle.mr_replica.specs.inner.Prepare.{IsToEnter};

    // The version that is issued next.
    pub(crate) fn next_version(&self) -> Version
        requires { length self.now.log < self.now.event_limit }
        ensures { result ≡ next_version self.now }
    {
        Version::try_new(self.parts.id, self.parts.issued + 1).unwrap()
    }

    // The vector of what a version of the item supersedes, where there is one, and where what would be
    // known has a value too. Memory for the vector comes last.
    pub(crate) fn admit(
        &self,
        item: ItemId,
        version: Version,
        made: Result<ConciseVector, FormFault>,
    ) -> Result<ConciseVector, Refusal>
        requires next { version ≡ next_version self.now }
        requires no_items { made ≢ Err FormFault.TooManyItems }
        ensures ok { IfOk result (λ below. made ≡ Ok below) }
        ensures fits { OnOk result (Fits K.form (KnowledgeWanted (version_learned K.form self.now item))) }
        ensures refused { IfErr result (RefusesMade K.form made (version_learned K.form self.now item)) }
    {
        if let Err(FormFault::TooManyHoles) = &made {
            return Err(Refusal::TooManyHoles);
        }
        self.parts.knowledge.may_learn(item, version)?;
        Ok(made?)
    }

    // The next own revision, as it is to enter.
    pub(crate) fn arrival(
        &self,
        item: ItemId,
        version: Version,
        below: ConciseVector,
        message: &Message,
    ) -> Result<Arrival, AllocError>
        requires room { length self.now.log < self.now.event_limit }
        requires next { IsNext self.now (record { item = item; version = version; below = below; message = message.now }) }
        ensures to_enter { IfOk result (IsToEnter K.form self.now) }
        ensures revision { IfOk result (λ arrival. arrival.revision ≡ record { item = item; version = version; below = below; message = message.now }) }
    {
        let revision = Revision::new(self.alloc, item, version, below, message.copy()?)?;
        let selected = self.parts.filter.select(revision.message());
        Arrival::of(self.alloc, selected, revision, self.parts.contents.store())
    }
}
