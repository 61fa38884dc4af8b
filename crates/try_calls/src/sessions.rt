//! `mr_session`: a copy of sessions has what they have taken, and finds memory. Programs copy a replica only when
//! nothing is open.

ghost use Rattle.std.specs.Prelude.{◌≡◌, ◌≤◌, IfOk};

use mr_concise::ConciseVector;
use mr_forms::{Fragment, ItemSet};
use mr_session::Sessions;
use mr_version::{Author, Version};
use mr_wire::{Body, FrameFragment, Header, Mode, Record};
use std::alloc::Global;
use std::test::Fail;

/// A header of the stream after this one, for session 1.
fn header(source: u16, stream: u8, index: u32) -> Result<Header, Fail>
    ensures stream { IfOk result (λ header. 1 ≤ header.stream) }
    ensures session { IfOk result (λ header. header.session ≡ 1) }
    ensures index { IfOk result (λ header. header.index ≡ index) }
{
    let source = Author::try_new(source)?;
    let target = Author::try_new(9)?;
    Ok(Header {
        source,
        stream: 1 + u64::from(stream),
        target,
        session: 1,
        index,
    })
}

fn start(source: u16, stream: u8, mode: Mode) -> Result<Record, Fail> {
    let header = header(source, stream, 0)?;
    Ok(Record::new(header, Body::Start(mode)))
}

fn one_version(alloc: Global) -> Result<ConciseVector, Fail> {
    let version = Version::try_new(Author::try_new(1)?, 5)?;
    Ok(ConciseVector::from_versions(alloc, &[version])?)
}

fn held(alloc: Global, index: u8) -> Result<Record, Fail> {
    let header = header(1, 0, 1 + u32::from(index))?;
    let vector = one_version(alloc)?;
    Ok(Record::new(header, Body::Held(vector)))
}

fn know(alloc: Global, index: u8) -> Result<Record, Fail> {
    let header = header(1, 0, 1 + u32::from(index))?;
    let vector = one_version(alloc)?;
    let items = ItemSet::All;
    let fragment = FrameFragment::new(Fragment { items, vector });
    Ok(Record::new(header, Body::Know(fragment)))
}

/// Opens a session where there may be one more, and answers its number, or else 0.
fn open(sessions: &mut Sessions) -> Result<u64, Fail> {
    if sessions.is_full() || sessions.opened() == u64::MAX {
        return Ok(0);
    }
    Ok(sessions.open()?)
}

/// Gives a record to its session, where that waits for it.
fn give(sessions: &mut Sessions, sent: &Record) -> Result<(), Fail> {
    let header = sent.header();
    if !sessions.has(header.session) || header.index == u32::MAX {
        return Err(Fail::new("the session isn't open"));
    }
    if let Err(fault) = sessions.check(sent) {
        return Err(fault.into());
    }
    Ok(sessions.take(sent)?)
}

/// Sessions of which the first has taken a Start of the stream 1 of the replica 1.
fn begun(alloc: Global, mode: Mode) -> Result<Sessions, Fail> {
    let mut sessions = Sessions::new(alloc);
    open(&mut sessions)?;
    give(&mut sessions, &start(1, 0, mode)?)?;
    Ok(sessions)
}

/// Sessions of which the first has taken a Start, a Held and a Know.
fn three_taken(alloc: Global) -> Result<Sessions, Fail> {
    let mut sessions = begun(alloc, Mode::Full)?;
    give(&mut sessions, &held(alloc, 0)?)?;
    give(&mut sessions, &know(alloc, 1)?)?;
    Ok(sessions)
}

/// How many vectors and fragments the first session has kept, in a copy.
fn kept_in_copy(sessions: &Sessions) -> Result<(usize, usize), Fail> {
    Ok(match sessions.copy()?.get(1) {
        Some(session) => (session.held().len(), session.know().len()),
        None => (0, 0),
    })
}

#[test]
fn ample_memory_copy_sessions(rt: HostRuntime) -> Result<(), Fail> {
    let sessions = three_taken(rt.alloc())?;
    assert_eq!(rt; kept_in_copy(&sessions)?, (1, 1));
    Ok(())
}
