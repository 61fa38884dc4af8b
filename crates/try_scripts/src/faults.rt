//! The texts of faults.
use anyhow::Result;
use mr_entry::event::EventFault;
use mr_feed::{CloseFault, Entry, OfferFault, PortFault};
use mr_filter::FilterFault;
use mr_forms::FormFault;
use mr_frames::FrameFault;
use mr_journal::JournalFault;
use mr_lane::{FinishFault, LaneFault, SendFault, inbox};
use mr_mail::{DayFault, MessageFault};
use mr_replica::{Refusal, ReplayFault, ReplicaFault};
use mr_script::{LineFault, ScriptFault};
use mr_session::SessionFault;
use mr_version::{ItemId, Version, VersionFault};
use mr_wire::WireFault;
use mr_world::{SpecFault, WorldFault};
use std::fmt::Display;

/// Prints each fault of each library: the name of its type, and its text.
pub fn print<R: Print + AllocGlobal>(rt: &R) -> Result<()> {
    let version = Version::read("1.7")?;
    print_values(rt)?;
    print_mail(rt)?;
    print_ports(rt, version)?;
    print_lanes(rt)?;
    print_frames(rt)?;
    print_logs(rt)?;
    print_sessions(rt)?;
    print_refusals(rt, version)?;
    print_replicas(rt, version)?;
    print_scripts(rt)?;
    print_lines(rt)
}

/// Prints the faults of one type.
fn print_all<R: Print, F: Display>(rt: &R, name: &str, faults: &[F]) -> Result<()> {
    for fault in faults {
        println!(rt; "{name}: {fault}")?;
    }
    Ok(())
}

fn print_values<R: Print>(rt: &R) -> Result<()> {
    print_all(
        rt,
        "VersionFault",
        &[VersionFault::NoSuchAuthor, VersionFault::BadVersion],
    )?;
    print_all(
        rt,
        "FormFault",
        &[
            FormFault::OutOfMemory,
            FormFault::TooManyHoles,
            FormFault::TooManyItems,
        ],
    )
}

fn print_mail<R: Print>(rt: &R) -> Result<()> {
    print_all(rt, "DayFault", &[DayFault::BadDay])?;
    print_all(
        rt,
        "MessageFault",
        &[
            MessageFault::OutOfMemory,
            MessageFault::FromTooLong,
            MessageFault::SubjectTooLong,
            MessageFault::BodyTooLong,
            MessageFault::BadLabel,
            MessageFault::TooManyLabels,
            MessageFault::BadFlags,
        ],
    )?;
    print_all(
        rt,
        "FilterFault",
        &[
            FilterFault::OutOfMemory,
            FilterFault::BadFilter(12),
            FilterFault::TooManyClauses,
            FilterFault::TooManyLabels,
        ],
    )
}

fn print_ports<R: Print>(rt: &R, version: Version) -> Result<()> {
    let item = ItemId::new(version);
    print_all(
        rt,
        "OfferFault",
        &[
            OfferFault::Full(Entry::Dropped { item, version }),
            OfferFault::Ended(Entry::Dropped { item, version }),
        ],
    )?;
    print_all(rt, "CloseFault", &[CloseFault::Full])?;
    print_all(
        rt,
        "PortFault",
        &[PortFault::OutOfMemory, PortFault::NoCapacity],
    )
}

fn print_lanes<R: Print + AllocGlobal>(rt: &R) -> Result<()> {
    print_all(
        rt,
        "SendFault",
        &[SendFault::Full('a'), SendFault::Ended('a')],
    )?;
    print_all(rt, "FinishFault", &[FinishFault::Full])?;
    print_all(
        rt,
        "LaneFault",
        &[LaneFault::OutOfMemory, LaneFault::NoCapacity],
    )?;
    let (posts, desk) = inbox::<char>(rt.alloc(), 1)?;
    match desk.settle(posts) {
        Ok(()) => Ok(()),
        Err(fault) => print_all(rt, "SettleFault", &[fault]),
    }
}

fn print_frames<R: Print>(rt: &R) -> Result<()> {
    print_all(
        rt,
        "WireFault",
        &[
            WireFault::OutOfMemory,
            WireFault::Truncated,
            WireFault::TooLong,
            WireFault::BadFormat,
            WireFault::BadKind,
            WireFault::BadBody,
        ],
    )?;
    print_all(
        rt,
        "FrameFault",
        &[FrameFault::Wire(WireFault::BadKind), FrameFault::Failed],
    )
}

fn print_logs<R: Print>(rt: &R) -> Result<()> {
    print_all(
        rt,
        "EventFault",
        &[
            EventFault::OutOfMemory,
            EventFault::Truncated,
            EventFault::TooLong,
            EventFault::BadForm,
            EventFault::BadKind,
            EventFault::BadBody,
        ],
    )?;
    print_all(
        rt,
        "JournalFault",
        &[
            JournalFault::OutOfMemory,
            JournalFault::Failed,
            JournalFault::NotAJournal,
            JournalFault::OtherFormat(2),
            JournalFault::Damaged(12),
            JournalFault::TooLarge,
        ],
    )
}

fn print_sessions<R: Print>(rt: &R) -> Result<()> {
    print_all(
        rt,
        "SessionFault",
        &[
            SessionFault::NotStart,
            SessionFault::OtherStream,
            SessionFault::Repeated,
            SessionFault::Gap,
        ],
    )
}

fn print_refusals<R: Print>(rt: &R, version: Version) -> Result<()> {
    print_all(
        rt,
        "Refusal",
        &[
            Refusal::OutOfMemory,
            Refusal::Retired,
            Refusal::NoBase,
            Refusal::NotHeld(version),
            Refusal::MixedItems,
            Refusal::OwnHeadLeft(version),
            Refusal::TooManyHoles,
            Refusal::TooManyItems,
            Refusal::LogFull,
            Refusal::TooManySessions,
            Refusal::TooManyStreams,
            Refusal::NotForMe,
            Refusal::NoSession,
            Refusal::NotStart,
            Refusal::OtherStream,
            Refusal::Repeated,
            Refusal::Gap,
            Refusal::NotARecord,
            Refusal::NoStream,
            Refusal::OwnAsk,
            Refusal::NotPushedOut,
            Refusal::PushOutsLeft,
            Refusal::Forged,
        ],
    )
}

fn print_replicas<R: Print>(rt: &R, version: Version) -> Result<()> {
    print_all(rt, "ReplicaFault", &[ReplicaFault::BadLimit])?;
    let refusal = Refusal::NotHeld(version);
    print_all(
        rt,
        "ReplayFault",
        &[
            ReplayFault::BadLimit,
            ReplayFault::Refused { place: 3, refusal },
        ],
    )?;
    print_all(
        rt,
        "SpecFault",
        &[
            SpecFault::OutOfMemory,
            SpecFault::SameReplica,
            SpecFault::BadLimit,
            SpecFault::NoCapacity,
        ],
    )?;
    print_all(
        rt,
        "WorldFault",
        &[
            WorldFault::OutOfMemory,
            WorldFault::NoSuchReplica,
            WorldFault::NoSuchFrame,
        ],
    )
}

fn print_scripts<R: Print>(rt: &R) -> Result<()> {
    print_all(
        rt,
        "ScriptFault",
        &[
            ScriptFault::Line {
                line: 16_777_217,
                fault: LineFault::WrongWords,
            },
            ScriptFault::Read,
            ScriptFault::Write,
            ScriptFault::TooLong,
        ],
    )
}

fn print_lines<R: Print>(rt: &R) -> Result<()> {
    print_all(
        rt,
        "LineFault",
        &[
            LineFault::NotText,
            LineFault::UnknownCommand,
            LineFault::WrongWords,
            LineFault::BadNumber,
            LineFault::BadVersion,
            LineFault::BadDate,
            LineFault::BadFlags,
            LineFault::BadFilter { place: 12 },
            LineFault::TooManyClauses,
            LineFault::TooManyLabels,
            LineFault::MessageRefused { number: 3 },
            LineFault::LateReplica,
            LineFault::SameReplica,
            LineFault::BadLimit,
            LineFault::BadCapacity,
            LineFault::NoSuchReplica,
            LineFault::NoSuchFrame,
            LineFault::OutOfMemory,
        ],
    )
}
