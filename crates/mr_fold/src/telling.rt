//! What the user did, as events.
ghost use Rattle.std.specs.Prelude.{◌≡◌, ◌<◌, ◌↔◌, ◌⊎◌, [], Err, IfErr, IfOk, None, OnOk, Some, length};
ghost use Rattle.std.specs.Option.{option_copied};
ghost use Rattle.mr_mail.specs.Mail.{Mail};
ghost use Rattle.mr_mail.specs.declared.label.TheConstants.{MAX_LABELS};
ghost use Rattle.mr_kept.specs.Kept.{SameJournal, replica_of};
ghost use Rattle.mr_maildir.specs.declared.act.Act.TheVariants as act;
ghost use Rattle.mr_fold.specs.Message.{IsUnwritten};
ghost use Rattle.mr_fold.specs.Settling.{Stay};
ghost use Rattle.mr_fold.specs.Telling.{Grows, TellsAct, TellsAll, TellsEdit, TellsEdits, edited_to, first_message, gone_view, items_at};

use crate::fault::SettleFault;
use crate::settling::{HeldItems, MailFiles};
use mr_compare::{Digest, ItemHeads, MailAct};
use mr_itemset::SparingKnowledge;
use mr_journal::Device;
use mr_kept::Journaled;
use mr_mail::{Flag, Flags, MAX_LABELS, Message};
use mr_maildir::{Act, View};
use mr_replica::{Bases, Replica};
use mr_version::Version;
use std::alloc::Global;

/// Tells what the acts say that the user changed. The events wait for a commit.
pub(crate) fn tell<D: Device + Drop, F: MailFiles>(
    alloc: Global,
    kept: &mut Journaled<SparingKnowledge, D>,
    files: &mut F,
    acts: &[MailAct],
    held: &HeldItems,
) -> Result<(), SettleFault>
    ensures told { OnOk result (Grows (TellsAll held.now.entries acts.now) (replica_of kept.old) (replica_of kept.new)) }
    ensures journal { SameJournal kept.old kept.new }
    ensures stay { Stay F.are_synced F.is_shown files.old files.new }
{
    for mail in acts {
        let items = items_of(held, &mail.digest);
        tell_act(alloc, kept, files, &mail.digest, &mail.act, items)?;
    }
    Ok(())
}

/// The items that are held of a mail.
fn items_of<'a>(held: &'a HeldItems, digest: &Digest) -> &'a [ItemHeads]
    ensures { result.now ≡ items_at held.now.entries digest.now }
{
    match held.get(digest) {
        Some(items) => items,
        None => &[],
    }
}

/// Tells what is done for a mail that is these items.
fn tell_act<D: Device + Drop, F: MailFiles>(
    alloc: Global,
    kept: &mut Journaled<SparingKnowledge, D>,
    files: &mut F,
    digest: &Digest,
    act: &Act,
    items: &[ItemHeads],
) -> Result<(), SettleFault>
    ensures told { OnOk result (Grows (TellsAct items.now act.now) (replica_of kept.old) (replica_of kept.new)) }
    ensures journal { SameJournal kept.old kept.new }
    ensures stay { Stay F.are_synced F.is_shown files.old files.new }
{
    match act {
        Act::Create => tell_new(alloc, kept, files, digest),
        Act::Edit(view) => tell_edits(alloc, kept, digest, items, view),
        Act::Delete => tell_edits(alloc, kept, digest, items, &gone(alloc)),
        Act::Agree => Ok(()),
        Act::Follow => Ok(()),
        Act::Remove => Ok(()),
    }
}

/// Tells a new mail.
fn tell_new<D: Device + Drop, F: MailFiles>(
    alloc: Global,
    kept: &mut Journaled<SparingKnowledge, D>,
    files: &mut F,
    digest: &Digest,
) -> Result<(), SettleFault>
    ensures told { OnOk result (Grows (TellsAct [] act.Create) (replica_of kept.old) (replica_of kept.new)) }
    ensures journal { SameJournal kept.old kept.new }
    ensures stay { Stay F.are_synced F.is_shown files.old files.new }
{
    let message = files.new_message(alloc, digest)?;
    kept.create(message)?;
    Ok(())
}

/// The view of a deleted mail: no folder, and the flag deleted.
fn gone(alloc: Global) -> View
    ensures { result ≡ gone_view }
{
    View::of_labels(Vec::new(alloc), Flags::empty().with(Flag::Deleted))
}

/// Tells an edit to this view of each item that a mail is, over all its heads.
fn tell_edits<D: Device + Drop>(
    alloc: Global,
    kept: &mut Journaled<SparingKnowledge, D>,
    digest: &Digest,
    items: &[ItemHeads],
    view: &View,
) -> Result<(), SettleFault>
    ensures told { OnOk result (Grows (TellsEdits view.now items.now) (replica_of kept.old) (replica_of kept.new)) }
    ensures journal { SameJournal kept.old kept.new }
{
    for heads in items {
        tell_edit(alloc, kept, digest, &heads.versions, view)?;
    }
    Ok(())
}

/// Tells an edit to this view that supersedes these versions. `NotHeld` where the first of them isn't held.
fn tell_edit<D: Device + Drop>(
    alloc: Global,
    kept: &mut Journaled<SparingKnowledge, D>,
    digest: &Digest,
    versions: &[Version],
    view: &View,
) -> Result<(), SettleFault>
    ensures told { OnOk result (Grows (TellsEdit view.now versions.now) (replica_of kept.old) (replica_of kept.new)) }
    ensures journal { SameJournal kept.old kept.new }
{
    let message = edited_head(alloc, kept.replica(), digest, versions, view)?;
    let bases = copied(alloc, versions)?;
    kept.edit(bases, message)?;
    Ok(())
}

/// The versions as bases.
fn copied(alloc: Global, versions: &[Version]) -> Result<Bases, SettleFault>
    ensures { IfOk result (λ bases. bases ≡ versions.now) }
{
    let mut bases = Vec::new(alloc);
    bases.extend_from_slice(versions)?;
    Ok(Bases::new(bases))
}

/// The message of the first of these versions, if it is held, with the view's labels and flags in place of its own.
fn edited_head(
    alloc: Global,
    replica: &Replica<SparingKnowledge>,
    digest: &Digest,
    versions: &[Version],
    view: &View,
) -> Result<Message, SettleFault>
    ensures value { IfOk result (λ message. (old : Mail) × (first_message replica.now versions.now ≡ Some old) × (message ≡ edited_to view.now old)) }
    ensures not_held { (result ≡ Err SettleFault.NotHeld) ↔ (first_message replica.now versions.now ≡ None) }
    ensures only { IfErr result (λ fault. (fault ≡ SettleFault.NotHeld) ⊎ IsUnwritten digest.now fault) }
{
    match first_message(replica, versions) {
        Some(old) => edited(alloc, digest, old, view),
        None => Err(SettleFault::NotHeld),
    }
}

/// The message of the first of these versions, if it is held.
fn first_message<'a>(
    replica: &'a Replica<SparingKnowledge>,
    versions: &[Version],
) -> Option<&'a Message>
    ensures { option_copied result ≡ first_message replica.now versions.now }
{
    let version = versions.first()?;
    let head = replica.held(*version)?;
    Some(head.message())
}

/// The message of this mail with the view's labels and flags in place of its own. `TooManyFolders` over 16 labels.
fn edited(
    alloc: Global,
    digest: &Digest,
    old: &Message,
    view: &View,
) -> Result<Message, SettleFault>
    ensures value { IfOk result (λ message. message ≡ edited_to view.now old.now) }
    ensures many { (result ≡ Err (SettleFault.TooManyFolders digest.now)) ↔ (MAX_LABELS < length view.now.labels) }
    ensures only { IfErr result (IsUnwritten digest.now) }
{
    if view.labels().len() > MAX_LABELS {
        return Err(SettleFault::TooManyFolders(*digest));
    }
    let Some(place) = view.copy(alloc)?.into_place(old.day()) else {
        return Err(SettleFault::TooManyFolders(*digest));
    };
    match Message::try_of_place(alloc, old.from(), old.subject(), old.body(), place) {
        Ok(message) => Ok(message),
        Err(_) => Err(SettleFault::OutOfMemory),
    }
}
