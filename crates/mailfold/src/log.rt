//! `log`: the events of a folder, or what is told of one mail.
use crate::fault::Fault;
use crate::show::held;
use crate::words::{flags_text, labels_text, push_word};
use mr_itemset::SparingKnowledge;
use mr_mail::Message;
use mr_replica::{Bases, Event, Replica, Revision};
use mr_version::{Author, ItemId, Version};
use mr_wire::{Body, Frame, Mode, Record};
use std::alloc::{AllocError, Global};
use std::collections::BTreeSet;
use std::io::Write;

/// The versions that a replica issues, as its log goes on.
#[derive(Clone, Copy)]
struct Issuing {
    author: Author,
    issued: u32,
}

impl Issuing {
    fn new(author: Author) -> Issuing {
        Issuing { author, issued: 0 }
    }

    /// The version that the event issues, if it does. Each event of the log is asked for in turn.
    fn version_of(&mut self, event: &Event) -> Option<Version> {
        match event {
            Event::Create(_) | Event::Edit(_, _) => {
                self.issued = self.issued.saturating_add(1);
                Version::try_new(self.author, self.issued).ok()
            }
            _ => None,
        }
    }
}

/// Writes a line for each event, oldest first: its number, a tab, and what happened.
pub fn print_log<W: Write>(
    alloc: Global,
    replica: &Replica<SparingKnowledge>,
    output: &mut W,
) -> Result<(), Fault> {
    let mut issuing = Issuing::new(replica.id());
    let mut number = 0u64;
    for event in replica.log() {
        number = number.saturating_add(1);
        let version = issuing.version_of(event);
        let line = event_text(alloc, event, version)?;
        print_line(number, line.as_str(), output)?;
    }
    Ok(())
}

fn print_line<W: Write>(number: u64, line: &str, output: &mut W) -> Result<(), Fault> {
    writeln!(output, "{number}\t{line}").map_err(Fault::Output)
}

/// What happened by an event, which issued this version.
fn event_text(alloc: Global, event: &Event, issued: Option<Version>) -> Result<String, AllocError> {
    match event {
        Event::Create(message) => created_text(alloc, issued, message),
        Event::Edit(bases, message) => edited_text(alloc, issued, bases, message),
        Event::Retire => String::from_str(alloc, "retire"),
        Event::Pull => String::from_str(alloc, "ask"),
        Event::Receive(frame) => received_text(alloc, frame),
        Event::CutIn(session) => format!(in alloc; "cut in {session}"),
        Event::Answer(ask) => {
            let target = ask.target().id();
            format!(in alloc; "answer {target}")
        }
        Event::Next(stream) => format!(in alloc; "tell {stream}"),
        Event::CutOut(stream) => format!(in alloc; "cut out {stream}"),
        Event::Vouch(version) => format!(in alloc; "vouch {version}"),
        Event::Release(receipt) => {
            let (version, giver) = (receipt.descent.version(), receipt.giver.id());
            format!(in alloc; "release {version} by {giver}")
        }
    }
}

fn created_text(
    alloc: Global,
    issued: Option<Version>,
    message: &Message,
) -> Result<String, AllocError> {
    let version = version_text(alloc, issued)?;
    let place = place_text(alloc, message)?;
    let (version, place) = (version.as_str(), place.as_str());
    format!(in alloc; "new {version} {place}")
}

fn edited_text(
    alloc: Global,
    issued: Option<Version>,
    bases: &Bases,
    message: &Message,
) -> Result<String, AllocError> {
    let version = version_text(alloc, issued)?;
    let bases = versions_text(alloc, bases.as_slice())?;
    let place = place_text(alloc, message)?;
    let (version, bases, place) = (version.as_str(), bases.as_str(), place.as_str());
    format!(in alloc; "change {version} over {bases} {place}")
}

fn received_text(alloc: Global, frame: &Frame) -> Result<String, AllocError> {
    match frame {
        Frame::Record(record) => record_text(alloc, record),
        Frame::Ask(_) | Frame::Receipt(_) => String::from_str(alloc, "take no record"),
    }
}

/// What is taken by a record.
fn record_text(alloc: Global, record: &Record) -> Result<String, AllocError> {
    let source = record.header().source.id();
    let body = body_text(alloc, record.body())?;
    let body = body.as_str();
    format!(in alloc; "take from {source} {body}")
}

fn body_text(alloc: Global, body: &Body) -> Result<String, AllocError> {
    match body {
        Body::Start(Mode::Full) => String::from_str(alloc, "start full"),
        Body::Start(Mode::Partial) => String::from_str(alloc, "start partial"),
        Body::Item(revision) => revision_text(alloc, revision),
        Body::MoveOut(descent) => {
            let (version, item) = (descent.version(), descent.item().creator());
            format!(in alloc; "left the filter {version} of {item}")
        }
        Body::Held(_) => String::from_str(alloc, "held"),
        Body::Know(_) => String::from_str(alloc, "known"),
        Body::End => String::from_str(alloc, "end"),
    }
}

fn revision_text(alloc: Global, revision: &Revision) -> Result<String, AllocError> {
    let (version, item) = (revision.version(), revision.item().creator());
    let place = place_text(alloc, revision.message())?;
    let place = place.as_str();
    format!(in alloc; "mail {version} of {item} {place}")
}

/// The labels and the flags of a message.
fn place_text(alloc: Global, message: &Message) -> Result<String, AllocError> {
    let labels = labels_text(alloc, message.labels())?;
    let flags = flags_text(alloc, message.flags())?;
    let (labels, flags) = (labels.as_str(), flags.as_str());
    format!(in alloc; "{labels} {flags}")
}

/// The version, or a dot for none.
fn version_text(alloc: Global, version: Option<Version>) -> Result<String, AllocError> {
    match version {
        Some(version) => version.text(alloc),
        None => String::from_str(alloc, "."),
    }
}

/// The versions with commas between them.
fn versions_text(alloc: Global, versions: &[Version]) -> Result<String, AllocError> {
    let mut text = String::new(alloc);
    for version in versions {
        let word = version.text(alloc)?;
        push_word(&mut text, ",", word.as_str())?;
    }
    Ok(text)
}

/// Writes a line for each event that tells of the mail that a held version is of, oldest first, as [`print_log`] does.
pub fn print_history<W: Write>(
    alloc: Global,
    replica: &Replica<SparingKnowledge>,
    version: Version,
    output: &mut W,
) -> Result<(), Fault> {
    let item = held(replica, version)?.item();
    let mut issuing = Issuing::new(replica.id());
    let mut own = BTreeSet::new(alloc);
    let mut number = 0u64;
    for event in replica.log() {
        number = number.saturating_add(1);
        let issued = issuing.version_of(event);
        if tells_of(&mut own, item, event, issued)? {
            let line = event_text(alloc, event, issued)?;
            print_line(number, line.as_str(), output)?;
        }
    }
    Ok(())
}

/// Whether the event tells of the item, whose versions that were told before are these; it notes the one that it tells.
fn tells_of(
    versions: &mut BTreeSet<Version>,
    item: ItemId,
    event: &Event,
    issued: Option<Version>,
) -> Result<bool, AllocError> {
    match version_told(versions, item, event, issued) {
        Some(version) => {
            versions.insert(version)?;
            Ok(true)
        }
        None => Ok(false),
    }
}

/// The version of the item that the event tells of, if it tells of the item, whose versions that were told before are these.
fn version_told(
    versions: &BTreeSet<Version>,
    item: ItemId,
    event: &Event,
    issued: Option<Version>,
) -> Option<Version> {
    match event {
        Event::Create(_) => issued.filter(|version| *version == item.creator()),
        Event::Edit(bases, _) if is_over(versions, bases.as_slice()) => issued,
        Event::Receive(Frame::Record(record)) => version_in(record.body(), item),
        _ => None,
    }
}

/// Whether one of the bases is among the versions.
fn is_over(versions: &BTreeSet<Version>, bases: &[Version]) -> bool {
    bases.iter().any(|base| versions.contains(base))
}

/// The version of the item that a record tells of.
fn version_in(body: &Body, item: ItemId) -> Option<Version> {
    match body {
        Body::Item(revision) if revision.item() == item => Some(revision.version()),
        Body::MoveOut(descent) if descent.item() == item => Some(descent.version()),
        _ => None,
    }
}
