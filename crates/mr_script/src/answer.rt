//! The lines of a world's answers, each with its line feed.
ghost use Rattle.std.specs.Prelude.{◌≡◌, IfOk, OnOk, ◌++◌, codes, string_bytes};
ghost use Rattle.mr_version.specs.Name.{name_text};
ghost use Rattle.mr_script.specs.Answer.{answer_text, reply_text, gave_text, short_words, took_text, entry_text, refused_text, refusal_text, named_version};
ghost use Rattle.mr_script.specs.inner.Frame.{after_spaces};

use crate::Grown;
use crate::frame_line::{kind_of, push_said};
use mr_feed::Entry;
use mr_replica::{Refusal, Reply};
use mr_version::Version;
use mr_wire::Body;
use mr_world::Answer;
use std::alloc::Global;

/// How many frames each of a world's pools has. It is the number of the pool's newest frame.
#[derive(Clone, Copy, Debug, PartialEq, Eq)]
pub(crate) struct PoolSizes {
    pub(crate) asks: u64,
    pub(crate) records: u64,
    pub(crate) receipts: u64,
}

/// What is printed of an answer, after which the pools have these sizes: the frame that the answer gave
/// is the newest of its pool.
pub(crate) fn answer_line(alloc: Global, sizes: PoolSizes, answer: &Answer) -> Grown<String>
    ensures { IfOk result (λ line. string_bytes line ≡ answer_text sizes answer.now) }
{
    match answer {
        Answer::Stepped(Ok(reply)) => reply_line(alloc, sizes, reply),
        Answer::Stepped(Err(refusal)) => refused_line(alloc, *refusal),
        Answer::Truncated => String::from_str(alloc, "truncated\n"),
        Answer::Offered(_) => String::from_str(alloc, "offered\n"),
        Answer::NothingNew => String::from_str(alloc, "nothing new\n"),
        Answer::Full => String::from_str(alloc, "full\n"),
        Answer::TookEntry(entry) => took_line(alloc, entry),
        Answer::Empty => String::from_str(alloc, "empty\n"),
        Answer::Closed => String::from_str(alloc, "closed\n"),
        Answer::Done => String::from_str(alloc, "done\n"),
    }
}

/// What is printed of a replica's reply.
fn reply_line(alloc: Global, sizes: PoolSizes, reply: &Reply) -> Grown<String>
    ensures { IfOk result (λ line. string_bytes line ≡ reply_text sizes reply.now) }
{
    match reply {
        Reply::Issued(version) => format!(in alloc; "issued {version}\n"),
        Reply::Done => String::from_str(alloc, "done\n"),
        Reply::Asked(ask) => {
            let (number, session) = (sizes.asks, ask.session());
            format!(in alloc; "asked Q{number} session {session}\n")
        }
        Reply::Streaming(stream) => format!(in alloc; "streaming {stream}\n"),
        Reply::Gave(record) => gave_line(alloc, sizes.records, record.body()),
        Reply::Took => String::from_str(alloc, "took\n"),
        Reply::Known => String::from_str(alloc, "known\n"),
        Reply::Finished => String::from_str(alloc, "finished\n"),
        Reply::Vouched(_) => {
            let number = sizes.receipts;
            format!(in alloc; "vouched R{number}\n")
        }
    }
}

/// `gave Pn `, and the record in short.
fn gave_line(alloc: Global, number: u64, body: &Body) -> Grown<String>
    ensures { IfOk result (λ line. string_bytes line ≡ gave_text number body.now) }
{
    let kind = kind_of(body);
    let mut line = format!(in alloc; "gave P{number} {kind}")?;
    push_short(alloc, &mut line, body)?;
    line.push('\n')?;
    Ok(line)
}

/// Adds what a record says in short, each word after a space.
fn push_short(alloc: Global, line: &mut String, body: &Body) -> Grown<()>
    ensures { OnOk result (string_bytes line.new ≡ string_bytes line.old ++ after_spaces (short_words body.now)) }
{
    match body {
        Body::Item(revision) => push_version(line, revision.version()),
        Body::MoveOut(descent) => push_version(line, descent.version()),
        _ => push_said(alloc, line, body),
    }
}

/// Adds a version after a space.
fn push_version(line: &mut String, version: Version) -> Grown<()>
    ensures { OnOk result (string_bytes line.new ≡ string_bytes line.old ++ codes " " ++ name_text version) }
{
    write!(line, " {version}")
}

/// `took +V` or `took -V`
fn took_line(alloc: Global, entry: &Entry) -> Grown<String>
    ensures { IfOk result (λ line. string_bytes line ≡ took_text entry.now) }
{
    let mut line = String::from_str(alloc, "took ")?;
    push_entry(&mut line, entry)?;
    line.push('\n')?;
    Ok(line)
}

/// Adds `+V` for a version that entered, or `-V` for one that left.
pub(crate) fn push_entry(line: &mut String, entry: &Entry) -> Grown<()>
    ensures { OnOk result (string_bytes line.new ≡ string_bytes line.old ++ entry_text entry.now) }
{
    match entry {
        Entry::Added { version, .. } => write!(line, "+{version}"),
        Entry::Dropped { version, .. } => write!(line, "-{version}"),
    }
}

/// `refused N Name`, and the version that is named by `NotHeld` and `OwnHeadLeft`.
pub(crate) fn refused_line(alloc: Global, refusal: Refusal) -> Grown<String>
    ensures { IfOk result (λ line. string_bytes line ≡ refused_text refusal) }
{
    let mut line = String::new(alloc);
    push_refusal(&mut line, refusal)?;
    line.push('\n')?;
    Ok(line)
}

/// Adds `refused N Name`, and the version that is named.
pub(crate) fn push_refusal(line: &mut String, refusal: Refusal) -> Grown<()>
    ensures { OnOk result (string_bytes line.new ≡ string_bytes line.old ++ refusal_text refusal) }
{
    let (number, name) = (refusal.number(), refusal.name());
    write!(line, "refused {number} {name}")?;
    match version_named(&refusal) {
        Some(version) => push_version(line, version),
        None => Ok(()),
    }
}

/// The version that the refusal is about, if it names one.
fn version_named(refusal: &Refusal) -> Option<Version>
    ensures { result ≡ named_version refusal.now }
{
    match refusal {
        Refusal::NotHeld(version) => Some(*version),
        Refusal::OwnHeadLeft(version) => Some(*version),
        _ => None,
    }
}
