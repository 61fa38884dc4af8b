//! `mr_session`: streams find memory, and draw their records as worked examples tell. The calls that a replica
//! makes of `mr_madewith`, `mr_store` and `mr_session` are made by the programs that play worlds.

ghost use Rattle.std.specs.Prelude.{◌≡◌, None, IfOk};

use crate::revisions::{created, put_head, two_heads};
use crate::samples::{expect, version};
use mr_concise::ConciseVector;
use mr_filter::Filter;
use mr_forms::{Fragment, ItemSet};
use mr_session::{AskedOf, Streams};
use mr_store::Store;
use mr_version::{Author, Version};
use mr_wire::{Ask, Body, FrameFragment, Mode};
use std::alloc::Global;
use std::collections::VecDeque;
use std::test::Fail;

/// A fragment of all items that has these versions.
fn known_for_all(alloc: Global, texts: &[&str]) -> Result<FrameFragment, Fail>
    ensures { IfOk result (λ piece. piece.items ≡ None) }
{
    let mut versions = Vec::new(alloc);
    for text in texts {
        versions.push(version(text)?)?;
    }
    let vector = ConciseVector::from_versions(alloc, &versions)?;
    let items = ItemSet::All;
    Ok(FrameFragment::new(Fragment { items, vector }))
}

/// Fragments of all items, one for each of these versions.
fn fragments(alloc: Global, texts: &[&str]) -> Result<VecDeque<FrameFragment>, Fail> {
    let mut all = VecDeque::new(alloc);
    for text in texts {
        all.push_back(known_for_all(alloc, &[*text])?)?;
    }
    Ok(all)
}

/// What replica 9 asks for its session 1: what the filter selects, and is not claimed of all items.
fn asked(alloc: Global, filter: &str, claims: &[&str]) -> Result<AskedOf, Fail> {
    let target = Author::try_new(9)?;
    let filter = Filter::read(alloc, filter)?;
    let claimed = vec![in alloc; known_for_all(alloc, claims)?]?;
    let ask = Ask::new(alloc, target, 1, filter, claimed)?;
    Ok(AskedOf::new(alloc, &ask)?)
}

/// Opens a stream where there may be one more, and answers its number, or else 0.
fn open_stream(
    streams: &mut Streams,
    asked: AskedOf,
    mode: Mode,
    know: VecDeque<FrameFragment>,
) -> Result<u64, Fail> {
    if streams.is_full() || streams.opened() == u64::MAX {
        return Ok(0);
    }
    Ok(streams.open(asked, mode, know)?)
}

/// The kind of a record, as one letter.
fn letter(body: &Body) -> char {
    match body {
        Body::Start(_) => 'S',
        Body::Item(_) => 'I',
        Body::MoveOut(_) => 'M',
        Body::Held(_) => 'H',
        Body::Know(_) => 'K',
        Body::End => 'E',
    }
}

/// Draws from the first stream, and answers the kind of the record; a dot where the stream isn't open.
fn draw(streams: &mut Streams, store: &Store) -> Result<char, Fail> {
    match streams.get(1) {
        Some(stream) if stream.next() < u32::MAX => {}
        _ => return Ok('.'),
    }
    let record = streams.draw(1, Author::try_new(0)?, store)?;
    Ok(letter(record.body()))
}

/// So many draws from the first stream.
fn draws(alloc: Global, streams: &mut Streams, store: &Store, count: u8) -> Result<String, Fail> {
    let mut kinds = String::new(alloc);
    for _ in 0..count {
        kinds.push(draw(streams, store)?)?;
    }
    Ok(kinds)
}

/// Streams of which the first answers this filter and these claims, with two fragments to give.
fn begun_stream(alloc: Global, mode: Mode, filter: &str, claims: &[&str]) -> Result<Streams, Fail> {
    let mut streams = Streams::new(alloc);
    let asked = asked(alloc, filter, claims)?;
    open_stream(
        &mut streams,
        asked,
        mode,
        fragments(alloc, &["0.1", "0.2"])?,
    )?;
    Ok(streams)
}

/// The kinds of so many records of a full stream that answers this filter.
fn full_stream(alloc: Global, store: &Store, filter: &str, count: u8) -> Result<String, Fail> {
    let mut streams = begun_stream(alloc, Mode::Full, filter, &[])?;
    draws(alloc, &mut streams, store, count)
}

#[test]
fn ample_memory_draw_full(rt: HostRuntime) -> Result<(), Fail> {
    let store = two_heads(&rt, rt.alloc())?;
    expect(full_stream(rt.alloc(), &store, "all", 8)?, "SIIHKKE.")
}

/// The kinds of four records of a copy of the streams.
fn copy_draws(alloc: Global, streams: &Streams, store: &Store) -> Result<String, Fail> {
    let mut copy = streams.copy()?;
    draws(alloc, &mut copy, store, 4)
}

/// What a copy draws of a stream that has given three records.
fn copied_stream(alloc: Global, store: &Store) -> Result<String, Fail> {
    let mut streams = begun_stream(alloc, Mode::Full, "all", &["0.2"])?;
    draws(alloc, &mut streams, store, 3)?;
    copy_draws(alloc, &streams, store)
}

#[test]
fn ample_memory_copy_streams(rt: HostRuntime) -> Result<(), Fail> {
    let store = two_heads(&rt, rt.alloc())?;
    expect(copied_stream(rt.alloc(), &store)?, "KKE.")
}

/// Heads 0.1, 0.3, and so on, so many of them.
fn odd_heads(alloc: Global, count: u16) -> Result<Store, Fail> {
    let mut store = Store::new(alloc);
    let author = Author::try_new(0)?;
    for k in 0..count {
        let version = Version::try_new(author, 1 + 2 * u32::from(k))?;
        put_head(&mut store, created(alloc, version)?)?;
    }
    Ok(store)
}

#[test]
fn ample_memory_two_held_vectors(rt: HostRuntime) -> Result<(), Fail> {
    let store = odd_heads(rt.alloc(), 4098)?;
    expect(full_stream(rt.alloc(), &store, "none", 7)?, "SHHKKE.")
}
