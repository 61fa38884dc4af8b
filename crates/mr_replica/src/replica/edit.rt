//! Edit: a version that supersedes held versions of one item.
ghost use Rattle.std.specs.Prelude.{◌≡◌, ◌≢◌, ◌==◌, ◌&&◌, ◌↔◌, not, find, None, Some, Err, IfOk, IsErrOf, MatchResult};
ghost use Rattle.mr_replica.specs.StepThen.{answer_by};
ghost use Rattle.mr_forms.specs.Sets.{is_listed};
ghost use Rattle.mr_replica.specs.Edit.{lower_of};

use super::parts::Change;
use super::prepare::Prepared;
use super::{Core, Replica};
use crate::{Bases, Event, Refusal, Reply};
use mr_concise::ConciseVector;
use mr_forms::{FormFault, Knowledge};
use mr_madewith::below_of;
use mr_mail::Message;
use mr_store::HeldVersions;
use mr_version::{Author, ItemId, Version};

impl<K: Knowledge> Replica<K> {
    ghost use Rattle.mr_replica.specs.Step.{Steps};

    /// Issues a version that supersedes the bases, which are held versions of one item, with all that they
    /// supersede, and gives it. It also supersedes the replica's last own version of the item likewise, and
    /// each lower counter of the replica's own. What it supersedes of its item leaves the heads and the
    /// push-outs; it enters the heads if the replica's filter selects it, and else the push-outs.
    ///
    /// `Retired`; then `NoBase`, `NotHeld` with the first base that is not held, `MixedItems`, and `OwnHeadLeft`
    /// with the lowest own version of the item that is held and no base; then `LogFull`. Then `TooManyHoles`
    /// where there is no vector of what the version supersedes, and that or `TooManyItems` where the form of
    /// knowledge has no value for what would be known; and `OutOfMemory` last. A refused event changes nothing.
    pub fn edit(&mut self, bases: Bases, message: Message) -> Result<Version, Refusal>
        ensures { Steps K.form self.old (Event.Edit bases message) (answer_by (λ version. Reply.Issued version) result) self.new }
    {
        match self.step(Event::Edit(bases, message))? {
            Reply::Issued(version) => Ok(version),
            _ => unreachable!(),
        }
    }
}

impl<K: Knowledge> Core<K> {
    ghost use Rattle.mr_concise.specs.Vector.{HasTooManyHoles};
    ghost use Rattle.mr_madewith.specs.MadeWith.{AreColumnsOf};
    ghost use Rattle.mr_replica.specs.State.{next_version};
    ghost use Rattle.mr_mail.specs.Mail.{Mail};
    ghost use Rattle.mr_replica.specs.Issue.{below_for};
    ghost use Rattle.mr_replica.specs.inner.Issued.{IsNext};
    ghost use Rattle.mr_replica.specs.Edit.{edit_refusal, edited_item, item_refusal, not_held, are_all_of, own_left};
    ghost use Rattle.std.specs.Option.{option_map};
    ghost use Rattle.mr_replica.specs.declared.refusal.Refusal.TheVariants.{NotHeld};
    ghost use Rattle.mr_replica.specs.inner.Prepare.{Prepares, PreparesLate};

    pub(crate) fn prepare_edit(
        &self,
        bases: &Bases,
        message: &Message,
    ) -> Result<Prepared<K>, Refusal>
        ensures { Prepares K.form self.now (Event.Edit bases.now message.now) result }
    {
        let item = self.checked_item(bases.as_slice())?;
        self.prepare_edited(item, bases, message)
    }

    // ---- refusals

    // The item of these bases, where an edit of them is admitted.
    fn checked_item(&self, bases: &[Version]) -> Result<ItemId, Refusal>
        ensures { MatchResult result (λ item. (edit_refusal self.now bases.now ≡ None) × (item ≡ edited_item self.now bases.now)) (λ e. edit_refusal self.now bases.now ≡ Some e) }
    {
        self.check_retired()?;
        let item = self.item_of(bases)?;
        if let Some(left) = self.own_left(item, bases) {
            return Err(Refusal::OwnHeadLeft(left));
        }
        self.check_log()?;
        Ok(item)
    }

    // The one item of these bases, which are all held.
    fn item_of(&self, bases: &[Version]) -> Result<ItemId, Refusal>
        ensures { MatchResult result (λ item. (item_refusal self.now bases.now ≡ None) × (item ≡ edited_item self.now bases.now)) (λ e. item_refusal self.now bases.now ≡ Some e) }
    {
        let [first, others @ ..] = bases else {
            return Err(Refusal::NoBase);
        };
        let Some(revision) = self.held(*first) else {
            return Err(Refusal::NotHeld(*first));
        };
        let item = revision.item();
        if self.are_all_of(item, others)? {
            Ok(item)
        } else {
            Err(Refusal::MixedItems)
        }
    }

    // Whether these bases, which must all be held, are versions of the item.
    fn are_all_of(&self, item: ItemId, bases: &[Version]) -> Result<bool, Refusal>
        ensures { MatchResult result (λ same. (not_held self.now bases.now ≡ None) × (same ≡ are_all_of self.now item bases.now)) (λ e. option_map NotHeld (not_held self.now bases.now) ≡ Some e) }
    {
        let mut same = true;
        for base in bases {
            let Some(revision) = self.held(*base) else {
                return Err(Refusal::NotHeld(*base));
            };
            same &= revision.item() == item;
        }
        Ok(same)
    }

    // The lowest held own version of the item that is not among the bases.
    fn own_left(&self, item: ItemId, bases: &[Version]) -> Option<Version>
        ensures { result ≡ own_left self.now item bases.now }
    {
        let store = self.parts.contents.store();
        lower(
            first_left(store.heads_of(item), self.parts.id, bases),
            first_left(store.push_outs_of(item), self.parts.id, bases),
        )
    }

    // ---- what is issued

    fn prepare_edited(
        &self,
        item: ItemId,
        bases: &Bases,
        message: &Message,
    ) -> Result<Prepared<K>, Refusal>
        requires admitted { edit_refusal self.now bases.now ≡ None }
        requires item { item ≡ edited_item self.now bases.now }
        ensures { PreparesLate K.form self.now (Event.Edit bases.now message.now) result }
    {
        let version = self.next_version();
        let made = self.edited_below(bases.as_slice(), item, version);
        let below = self.admit(item, version, made)?;
        let arrival = self.arrival(item, version, below, message)?;
        Ok(Prepared {
            reply: Reply::Issued(version),
            change: Change::Enter(arrival),
        })
    }

    // What the next version of the item supersedes as an edit of these bases.
    fn edited_below(
        &self,
        bases: &[Version],
        item: ItemId,
        version: Version,
    ) -> Result<ConciseVector, FormFault>
        requires admitted { edit_refusal self.now bases.now ≡ None }
        requires item { item ≡ edited_item self.now bases.now }
        requires version { version ≡ next_version self.now }
        ensures ok { IfOk result (AreColumnsOf (below_for self.now item bases.now)) }
        ensures next { IfOk result (λ below. (message : Mail) → IsNext self.now (record { item = item; version = version; below = below; message = message })) }
        ensures holes { IsErrOf result FormFault.TooManyHoles ↔ HasTooManyHoles (below_for self.now item bases.now) }
        ensures items { result ≢ Err FormFault.TooManyItems }
    {
        let held = HeldVersions {
            store: self.parts.contents.store(),
            versions: bases,
        };
        below_of(
            self.alloc,
            &held,
            self.parts.contents.trail().last(item),
            version,
        )
    }
}

// The lower of two versions, where there are any.
fn lower(a: Option<Version>, b: Option<Version>) -> Option<Version>
    ensures { result ≡ lower_of a b }
{
    match (a, b) {
        (Some(s), Some(t)) => Some(s.min(t)),
        (Some(s), None) => Some(s),
        (None, end) => end,
    }
}

// The first of these versions that is the author's and not among the bases.
fn first_left(versions: &[Version], author: Author, bases: &[Version]) -> Option<Version>
    ensures { result ≡ find (λ v. (v.author == author) && not (is_listed bases.now v)) versions.now }
{
    versions.iter().copied().find(|version| version.author() == author
        && !is_among(bases, *version))
}

fn is_among(versions: &[Version], version: Version) -> bool
    ensures { result ≡ is_listed versions.now version }
{
    versions.contains(&version)
}
