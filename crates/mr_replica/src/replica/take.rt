//! Taking what a record tells of a version.
ghost use Rattle.std.specs.Prelude.{◌≡◌, ◌≢◌, None, Some, IfSome, IfOk, OnOk, IfErr, All, filter, map};
ghost use Rattle.mr_concise.specs.Vector.{vector_has};
ghost use Rattle.mr_madewith.specs.Revision.{IsRevision};
ghost use Rattle.mr_store.specs.Revisions.{supersedes};
ghost use Rattle.mr_wire.specs.Frames.{IsSent};
ghost use Rattle.mr_replica.specs.Issue.{dropped};
ghost use Rattle.mr_replica.specs.inner.Taking.{below_told, told_by, told_line, news_told};

use super::Core;
use super::contents::{entries_of_gone, news};
use super::parts::Change;
use super::prepare::Prepared;
use crate::{Refusal, Reply};
use mr_concise::ConciseVector;
use mr_feed::Entry;
use mr_forms::Knowledge;
use mr_madewith::Revision;
use mr_version::{ItemId, Version};
use mr_wire::{Body, Record};
use std::alloc::AllocError;

// What a version that is told changes of the heads: the revision that comes to them, if there is one, and the
// entries that tell of it and of what leaves; and the entries of what leaves the push-outs.
#[derive(Drop)]
pub struct Told {
    pub comer: Option<Revision>,
    pub entries: Vec<Entry>,
    pub push_out_entries: Vec<Entry>,
}

impl<K: Knowledge> Core<K> {
    ghost use Rattle.std.specs.Prelude.{false};
    ghost use Rattle.mr_replica.specs.Issue.{Fits};
    ghost use Rattle.mr_replica.specs.Receive.{record_refusal, entering, wanted_by_line};
    ghost use Rattle.mr_replica.specs.inner.Taking.{RefusesLine};
    ghost use Rattle.mr_replica.specs.inner.Prepare.{PreparesLine};

    // The record is to be taken, which tells of this version.
    pub(crate) fn prepare_line(
        &self,
        item: ItemId,
        version: Version,
        sent: &Record,
    ) -> Result<Prepared<K>, Refusal>
        requires taken { record_refusal self.now sent.now ≡ None }
        requires kept { IsSent sent.now.header sent.now.body }
        requires told { told_line sent.now.body ≡ Some (told_by item version sent.now.body) }
        ensures { PreparesLine K.form self.now sent.now (told_by item version sent.now.body) (entering self.now sent.now.body) result }
    {
        if self.parts.knowledge.knows(item, version) {
            return Ok(Prepared {
                reply: Reply::Known,
                change: Change::Take,
            });
        }
        let told = self.told(item, version, sent)?;
        Ok(Prepared {
            reply: Reply::Took,
            change: Change::Learn(item, version, told),
        })
    }

    // What the record, which tells of this version, changes of the heads and of the push-outs.
    fn told(&self, item: ItemId, version: Version, sent: &Record) -> Result<Told, Refusal>
        requires unknown { K.form.known self.now.knowledge item version ≡ false }
        requires told { told_line sent.now.body ≡ Some (told_by item version sent.now.body) }
        ensures fits { OnOk result (All (Fits K.form) (wanted_by_line K.form self.now (told_by item version sent.now.body))) }
        ensures comer { IfOk result (λ told. told.comer ≡ entering self.now sent.now.body) }
        ensures entries { IfOk result (λ told. told.entries.items ≡ news_told (told_by item version sent.now.body) told.comer self.now.heads) }
        ensures push_out_entries { IfOk result (λ told. told.push_out_entries.items ≡ map dropped (filter (supersedes item (vector_has (below_told sent.now.body))) self.now.push_outs)) }
        ensures is { OnOk result (IsRevision item version (below_told sent.now.body)) }
        ensures refused { IfErr result (RefusesLine K.form self.now (told_by item version sent.now.body)) }
    {
        let below = told_below(sent.body());
        self.parts.knowledge.may_learn_with(item, version, below)?;
        let comer = self.comer(sent.body())?;
        let store = self.parts.contents.store();
        let entries = news(self.alloc, store, item, below, comer.as_ref())?;
        let push_out_entries = entries_of_gone(self.alloc, store, item, &[], below)?;
        Ok(Told {
            comer,
            entries,
            push_out_entries,
        })
    }

    // The revision that a record brings to the heads, if there is one.
    fn comer(&self, body: &Body) -> Result<Option<Revision>, AllocError>
        ensures { IfOk result (λ comer. comer ≡ entering self.now body.now) }
    {
        match body {
            Body::Item(revision) if self.parts.filter.select(revision.message()) => {
                Ok(Some(revision.copy()?))
            }
            _ => Ok(None),
        }
    }
}

// What the version that the record tells of supersedes.
pub(super) fn told_below(body: &Body) -> &ConciseVector
    requires { told_line body.now ≢ None }
    ensures is { result.now ≡ below_told body.now }
    ensures kept { IfSome (told_line body.now) (λ line. IsRevision line.item line.version line.below) }
{
    match body {
        Body::Item(revision) => revision.below(),
        Body::MoveOut(descent) => descent.below(),
        _ => unreachable!(),
    }
}
