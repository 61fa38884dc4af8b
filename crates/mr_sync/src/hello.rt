//! What a folder says of itself, and what the other side is to it.
ghost use Rattle.std.specs.Prelude.{◌≡◌, ◌≤◌, ◌==◌, ◌||◌, take, IfErr, IfOk, MatchBool, MatchResult, Some, None, option_map};
ghost use Rattle.std.specs.Option.{option_copied};
ghost use Rattle.mr_itemset.specs.Sparing.{sparing_form};
ghost use Rattle.mr_kept.specs.Kept.{head_of, replica_of};
ghost use Rattle.mr_lookup.specs.Digest.{IsDigestOf};
ghost use Rattle.mr_lookup.specs.Versions.{versions_told};
ghost use Rattle.mr_talk.specs.Peer.{HasNothingToTell, Stands};
ghost use Rattle.mr_talk.specs.declared.peer.Standing.TheVariants.{Good};
ghost use Rattle.mr_sync.specs.Hello.{IsDigestFront, IsHelloFault, IsHelloOf, IsJudgeFault, IsTip, IsTopOf, Judges, StandsInTheWay, is_free, keeps_all, met_at, met_by, tip_of};
ghost use Rattle.mr_sync.specs.inner.Hello.{IsUntold};

use crate::fault::SyncFault;
use crate::marks::message_told;
use mr_compare::{Digest, Meeting};
use mr_filter::{Clause, Filter};
use mr_forms::FormFault;
use mr_itemset::SparingKnowledge;
use mr_journal::Device;
use mr_kept::Journaled;
use mr_lookup::{highest_counter, knowledge_digest, message_digest};
use mr_mail::Message;
use mr_replica::Replica;
use mr_talk::{Hello, Knows, Met, Standing, Tip, nothing_to_tell, standing_of};
use mr_version::Author;
use std::alloc::{AllocError, Global};
use std::collections::BTreeMap;

/// So many first bytes of a digest.
pub(crate) fn front_of<const N: usize>(digest: &Digest) -> [u8; N]
    requires { N ≤ 32 }
    ensures { result ≡ take N digest.now }
{
    let mut front = [0u8; N];
    front.copy_from_slice(&digest[..N]);
    front
}

/// The id of the one that said this, where somebody did.
pub(crate) fn id_of(hello: Option<&Hello>) -> Option<Author>
    ensures { result ≡ option_map (λ h. h.id) (option_copied hello.entry) }
{
    match hello {
        Some(hello) => Some(hello.id),
        None => None,
    }
}

/// What the folder, which lacks files or none, says of itself to the one with this id, or to one whose id it doesn't know.
///
/// `Knowledge` where what is known has no fragments or memory runs out for them. It costs all that is known, three times.
pub(crate) fn folder_hello<D: Device + Drop>(
    alloc: Global,
    kept: &Journaled<SparingKnowledge, D>,
    lacks: bool,
    theirs: Option<Author>,
) -> Result<Hello, SyncFault>
    ensures is { IfOk result (IsHelloOf (head_of kept.now).birth (replica_of kept.now) lacks theirs) }
    ensures fault { IfErr result (IsHelloFault (replica_of kept.now)) }
{
    let birth = kept.birth();
    let hello = replica_hello(alloc, kept.replica(), birth, lacks, theirs)?;
    Ok(hello)
}

/// The same of a replica whose journal was begun so.
fn replica_hello(
    alloc: Global,
    replica: &Replica<SparingKnowledge>,
    birth: [u8; 16],
    lacks: bool,
    theirs: Option<Author>,
) -> Result<Hello, FormFault>
    ensures is { IfOk result (IsHelloOf birth replica.now lacks theirs) }
    ensures fault { IfErr result (IsUntold replica.now.knowledge) }
{
    let knows = known_front(alloc, replica)?;
    let issued = highest_of(replica, Some(replica.id()))?;
    let last = tip_told(alloc, replica, replica.id(), issued)?;
    let tip = last.unwrap_or([0u8; 4]);
    let known = highest_of(replica, theirs)?;
    Ok(Hello {
        id: replica.id(),
        birth,
        knows,
        tip,
        issued,
        known,
        is_waiting: lacks || !replica.push_outs().is_empty(),
        keeps_all: selects_all(replica.filter()),
    })
}

/// The first bytes of the digest of what is known.
fn known_front(alloc: Global, replica: &Replica<SparingKnowledge>) -> Result<Knows, FormFault>
    ensures front { IfOk result (IsDigestFront 12 replica.now.knowledge) }
    ensures fault { IfErr result (IsUntold replica.now.knowledge) }
{
    let digest = known_digest(alloc, replica)?;
    Ok(front_of::<12>(&digest))
}

/// The digest of what is known.
pub(crate) fn known_digest(
    alloc: Global,
    replica: &Replica<SparingKnowledge>,
) -> Result<Digest, FormFault>
    ensures digest { IfOk result (IsDigestOf sparing_form replica.now.knowledge) }
    ensures fault { IfErr result (IsUntold replica.now.knowledge) }
{
    knowledge_digest(alloc, replica)
}

/// The first bytes of the digest of the message of this author's version, if the replica's log tells one. It costs a walk over the log.
fn tip_told(
    alloc: Global,
    replica: &Replica<SparingKnowledge>,
    author: Author,
    counter: u32,
) -> Result<Option<Tip>, AllocError>
    ensures { IfOk result (IsTip (versions_told replica.now.id replica.now.log) author counter) }
{
    match message_told(replica, author, counter) {
        Some(message) => Ok(Some(tip_of(alloc, message)?)),
        None => Ok(None),
    }
}

/// The first bytes of the digest of a message, as a hello tells them.
fn tip_of(alloc: Global, message: &Message) -> Result<Tip, AllocError>
    ensures { IfOk result (λ tip. tip ≡ tip_of message.now) }
{
    let digest = message_digest(alloc, message)?;
    Ok(front_of::<4>(&digest))
}

/// The highest counter that is known among the versions of this author; 0 for none, and for nobody.
fn highest_of(replica: &Replica<SparingKnowledge>, author: Option<Author>) -> Result<u32, FormFault>
    ensures top { IfOk result (IsTopOf replica.now.knowledge author) }
    ensures fault { IfErr result (IsUntold replica.now.knowledge) }
{
    let Some(author) = author else {
        return Ok(0);
    };
    let highest = highest_counter(replica, author)?;
    match highest {
        Some(counter) => Ok(counter),
        None => Ok(0),
    }
}

/// Whether the filter has a clause with no conditions, as `all` is.
fn selects_all(filter: &Filter) -> bool
    ensures { result ≡ keeps_all filter.now }
{
    filter
        .clauses()
        .iter()
        .any(|clause| has_no_condition(clause))
}

/// Whether a clause has no condition.
fn has_no_condition(clause: &Clause) -> bool
    ensures { result ≡ is_free clause.now }
{
    clause.all_labels().is_empty()
        && (clause.no_labels().is_empty()
            && (clause.flags_on().bits() == 0
                && (clause.flags_off().bits() == 0 && clause.since().days() == 0)))
}

/// What is remembered of the replica with this id, as a talk compares it.
pub(crate) fn remembered(meetings: &BTreeMap<u16, Meeting>, id: Author) -> Option<Met>
    ensures { result ≡ met_at meetings.now id }
{
    match meetings.get(&id.id()) {
        Some(meeting) => Some(met_of(meeting)),
        None => None,
    }
}

fn met_of(meeting: &Meeting) -> Met
    ensures { result ≡ met_by meeting.now }
{
    let birth = meeting.birth;
    let mine = front_of::<12>(&meeting.mine);
    let theirs = front_of::<12>(&meeting.theirs);
    Met {
        birth,
        mine,
        theirs,
    }
}

/// Whether there is nothing to tell the other side, by both hellos, what is told here of the other's last version, and what is
/// remembered of it; or why nothing may be told.
pub(crate) fn verdict(
    mine: &Hello,
    theirs: &Hello,
    tip: Option<Tip>,
    met: Option<Met>,
) -> Result<bool, SyncFault>
    ensures good { IfOk result (λ _. Stands mine.now theirs.now mine.now.known tip met Good) }
    ensures exact { IfOk result (λ is_idle. MatchBool is_idle (HasNothingToTell mine.now theirs.now met) (HasNothingToTell mine.now theirs.now met → ⊥)) }
    ensures fault { MatchResult result (λ _. Unit {0}) (StandsInTheWay mine.now theirs.now tip met) }
{
    match standing_of(mine, theirs, mine.known, tip.as_ref(), met.as_ref()) {
        Standing::Good => Ok(nothing_to_tell(mine, theirs, met.as_ref())),
        Standing::Itself => Err(SyncFault::Itself(mine.id)),
        Standing::SameId => Err(SyncFault::SameId(mine.id)),
        Standing::Renewed => Err(SyncFault::Renewed(theirs.id)),
        Standing::PeerIsOldCopy => Err(SyncFault::PeerIsOldCopy(theirs.id)),
        Standing::OldCopy => Err(SyncFault::OldCopy(mine.id)),
        Standing::PeerWentOn => Err(SyncFault::PeerWentOn(theirs.id)),
    }
}

/// What the folder says to the other side, and whether there is nothing to tell it, by what is known now and whether the folder lacks
/// files; or why nothing may be told.
pub(crate) fn judge<D: Device + Drop>(
    alloc: Global,
    kept: &Journaled<SparingKnowledge, D>,
    meetings: &BTreeMap<u16, Meeting>,
    lacks: bool,
    theirs: &Hello,
) -> Result<(Hello, bool), SyncFault>
    ensures says { IfOk result (λ said. IsHelloOf (head_of kept.now).birth (replica_of kept.now) lacks (Some theirs.now.id) said.0) }
    ensures judges { IfOk result (λ said. Judges (head_of kept.now).birth (replica_of kept.now) lacks theirs.now (met_at meetings.now theirs.now.id) said.1) }
    ensures fault { IfErr result (IsJudgeFault (head_of kept.now).birth (replica_of kept.now) lacks theirs.now (met_at meetings.now theirs.now.id)) }
{
    let mine = folder_hello(alloc, kept, lacks, Some(theirs.id))?;
    let tip = tip_told(alloc, kept.replica(), theirs.id, theirs.issued)?;
    let is_idle = verdict(&mine, theirs, tip, remembered(meetings, theirs.id))?;
    Ok((mine, is_idle))
}
