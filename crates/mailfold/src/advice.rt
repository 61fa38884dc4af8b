//! What may help against a fault.
ghost use Rattle.std.specs.Prelude.{◌≡◌};
ghost use Rattle.mailfold.specs.Advice as specs;

use crate::ending::Ending;
use crate::fault::Fault;
use mr_entry::EntryFault;
use mr_fold::FoldFault;
use mr_journal::JournalFault;
use mr_kept::{ExplainedFault, KeptFault, OpenFault};
use mr_replica::Refusal;

/// What may help against a fault.
#[derive(Clone, Copy, Debug, PartialEq, Eq)]
pub enum Advice {
    /// The next sync goes on.
    SyncAgain,
    /// The folder was moved, or it is made a new replica.
    MovedOrRenew,
    /// The folder is made a new replica.
    Renew,
}

impl Advice {
    /// The advice for a person to read.
    pub fn text(self) -> &'static str {
        match self {
            Advice::SyncAgain => {
                "the sync was cut short: what came stands, and the next sync goes on"
            }
            Advice::MovedOrRenew => {
                "was the folder or its disk moved, `mailfold moved DIR`; is it a copy or from a backup, `mailfold renew DIR --id N`"
            }
            Advice::Renew => {
                "`mailfold renew DIR --id N` makes the folder a new replica, and keeps its mail and the old log"
            }
        }
    }
}

/// What may help against this fault, if something does.
pub fn advice_for(fault: &Fault) -> Option<Advice>
    ensures { result ≡ specs.advice_for fault.now }
{
    match fault {
        Fault::Folder(FoldFault::Journal(fault)) => advice_for_journal(*fault),
        Fault::UnreadLog => Some(Advice::Renew),
        Fault::Talk(_) => advice_at(fault.ending()),
        _ => None,
    }
}

/// What may help where a talk ended so.
fn advice_at(ending: Ending) -> Option<Advice>
    ensures { result ≡ specs.advice_at_ending ending }
{
    match ending {
        Ending::Cut => Some(Advice::SyncAgain),
        _ => None,
    }
}

/// What may help where the journal isn't opened, or takes no more.
fn advice_for_journal(fault: ExplainedFault) -> Option<Advice>
    ensures { result ≡ specs.advice_for_journal fault }
{
    match fault {
        ExplainedFault::Open(fault) => advice_for_open(fault),
        ExplainedFault::Kept(KeptFault::Refused(Refusal::LogFull)) => Some(Advice::Renew),
        _ => None,
    }
}

/// What may help where the journal isn't opened.
fn advice_for_open(fault: OpenFault) -> Option<Advice>
    ensures { result ≡ specs.advice_for_open fault }
{
    match fault {
        OpenFault::Copied => Some(Advice::MovedOrRenew),
        OpenFault::BadEntry {
            fault: EntryFault::OtherFormat(_),
            ..
        } => None,
        OpenFault::Journal(JournalFault::NotAJournal | JournalFault::Damaged(_))
        | OpenFault::BadEntry { .. }
        | OpenFault::Misplaced(_)
        | OpenFault::OtherCounter(_)
        | OpenFault::TooManyEvents
        | OpenFault::Replay(_) => Some(Advice::Renew),
        _ => None,
    }
}
