//! What a replica and another one tell each other before they sync.
ghost use Rattle.std.specs.Prelude.{◌≡◌, map};
ghost use Rattle.std.specs.Option.{option_map};
ghost use Rattle.mr_kept.specs.Kept.{head_of, issued_of};
ghost use Rattle.mr_hosted.specs.Hosted.{journaled_of};
ghost use Rattle.mr_desk.specs.Fault.{Reads};
ghost use Rattle.mr_desk.specs.Peer.{ChecksPeer, FindsHighest, IsVerdict, JudgesHeard, birth_of, births_fault, heard_fault, journal_by, told_verdict};
ghost use Rattle.mr_desk.specs.declared.fault.Fault.TheVariants as fault;

use crate::call::{VersionNumbers, author_of};
use crate::device::Device;
use crate::event::versions_of;
use crate::fault::Fault;
use crate::kept::KeptDesk;
use mr_entry::Birth;
use mr_itemset::SparingKnowledge;
use mr_kept::PeerFault;
use mr_lookup::highest_counter;
use mr_replica::{Refusal, Replica};
use mr_version::Author;
use std::alloc::Global;

/// The highest counter of the versions of the author with this number that the replica knows, of whatever item; `None` where it knows none.
///
/// `Version` where the number is above 63; then `Refused` with `TooManyHoles` where what is known can't be told in fragments, and with
/// `OutOfMemory`. It costs all that is known.
pub fn highest_of(replica: &Replica<SparingKnowledge>, author: u32) -> Result<Option<u32>, Fault>
    ensures { FindsHighest replica.now author result }
{
    let author = author_of(author)?;
    match highest_counter(replica, author) {
        Ok(found) => Ok(found),
        Err(fault) => Err(Fault::Refused(Refusal::from(fault))),
    }
}

/// A journal that another replica knows: the id of its replica, and what was drawn when it was begun.
#[repr(C)]
#[derive(Clone, Copy, Debug, PartialEq, Eq)]
pub struct Born {
    pub author: u32,
    pub birth: [u8; 16],
}

/// The journals that are handed over: `Version` at one with an id above 63.
fn journals_of(alloc: Global, births: &[Born]) -> Result<Vec<(Author, Birth)>, Fault>
    ensures { Reads (Unit {0}) (option_map fault.Version (births_fault births.now)) (λ journals. journals.items ≡ map journal_by births.now) result }
{
    let mut journals = Vec::new(alloc);
    for born in births {
        let author = author_of(born.author)?;
        journals.push((author, born.birth))?;
    }
    Ok(journals)
}

/// Whether what is handed over goes with the replica, or why it can't be heard.
fn verdict_on(
    alloc: Global,
    kept: &KeptDesk,
    highest: &[VersionNumbers],
    births: &[Born],
) -> Result<Result<(), PeerFault>, Fault>
    ensures { Reads (Unit {0}) (heard_fault highest.now births.now) (IsVerdict (head_of (journaled_of kept.now)) (issued_of (journaled_of kept.now)) highest.now births.now) result }
{
    let versions = versions_of(alloc, highest)?;
    let journals = journals_of(alloc, births)?;
    Ok(kept.check_peer(&versions, &journals))
}

/// A verdict against the replica is a fault.
fn told_verdict(verdict: Result<Result<(), PeerFault>, Fault>) -> Result<(), Fault>
    ensures { result ≡ told_verdict verdict }
{
    match verdict? {
        Ok(()) => Ok(()),
        Err(fault) => Err(Fault::Peer(fault)),
    }
}

fn judge(
    alloc: Global,
    kept: &KeptDesk,
    highest: &[VersionNumbers],
    births: &[Born],
) -> Result<(), Fault>
    ensures { JudgesHeard kept.now highest.now births.now result }
{
    told_verdict(verdict_on(alloc, kept, highest, births))
}

impl Device {
    /// What was drawn when the file of a kept device was begun. `Unsettled` as [`Device::replica`].
    pub fn birth(&self) -> Result<Birth, Fault>
        ensures { result ≡ birth_of self.now }
    {
        match self {
            Device::Plain(_) => Err(Fault::OtherDevice),
            Device::Kept { kept, .. } if kept.may_show() => Ok(kept.birth()),
            Device::Kept { .. } => Err(Fault::Unsettled),
            Device::Failed => Err(Fault::Failed),
        }
    }

    /// Whether what another replica tells goes with a kept device: the highest version that it knows of each author, and the journals
    /// that it knows. A host asks before it sends or takes anything.
    ///
    /// `Unsettled` as [`Device::replica`]; `Version` at a version or a journal that is none, the versions first, with want of memory before
    /// that is known; then `Peer`: `OldCopy` where a version of this id has a counter above those that were issued, and `OtherBirth` where a
    /// journal of this id was begun at another time. It costs a walk over both, and a copy.
    pub fn check_peer(
        &self,
        alloc: Global,
        highest: &[VersionNumbers],
        births: &[Born],
    ) -> Result<(), Fault>
        ensures { ChecksPeer self.now highest.now births.now result }
    {
        match self {
            Device::Plain(_) => Err(Fault::OtherDevice),
            Device::Kept { kept, .. } if kept.may_show() => judge(alloc, kept, highest, births),
            Device::Kept { .. } => Err(Fault::Unsettled),
            Device::Failed => Err(Fault::Failed),
        }
    }
}
