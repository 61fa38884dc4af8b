//! `mr_feed`: feeds, folds and ports find memory, and how a port runs.
use crate::samples::{added, all_shown, dropped, expect, listed, shown};
use mr_feed::{Entry, Feed, OfferFault, PlainPort, PortIn, PortOut, Taken, fold};
use std::alloc::Global;
use std::test::Fail;

/// Puts five entries into a feed, for which little room is made.
fn push_five(alloc: Global, feed: &mut Feed) -> Result<(), Fail> {
    feed.reserve(1)?;
    for text in ["0.2", "0.1", "0.4", "0.3"] {
        feed.push(added(alloc, text, "inbox", 0)?)?;
    }
    Ok(feed.push(dropped("0.2")?)?)
}

/// A copy of a feed of these five entries.
fn feed_of_five(alloc: Global) -> Result<Feed, Fail> {
    let mut feed = Feed::new(alloc);
    push_five(alloc, &mut feed)?;
    Ok(feed.copy()?)
}

/// The fold of the five entries.
fn folded_text(alloc: Global) -> Result<String, Fail> {
    let versions = fold(alloc, feed_of_five(alloc)?.entries())?;
    listed(alloc, &versions)
}

/// Offers a port two entries.
fn offer_two(alloc: Global, port: &mut PlainPort) -> Result<(), Fail> {
    port.offer(added(alloc, "0.1", "inbox", 0)?)?;
    Ok(port.offer(dropped("0.1")?)?)
}

/// A copy of a port with four places and two entries in it.
fn port_of_two(alloc: Global) -> Result<PlainPort, Fail> {
    let mut port = PlainPort::try_new(alloc, 4)?;
    offer_two(alloc, &mut port)?;
    Ok(port.copy()?)
}

/// What the next take gives: an entry, `empty` or `closed`.
fn next(alloc: Global, port: &mut PlainPort) -> Result<String, Fail> {
    match port.take() {
        Taken::Entry(entry) => shown(alloc, &entry),
        Taken::Empty => Ok(String::from_str(alloc, "empty ")?),
        Taken::Closed => Ok(String::from_str(alloc, "closed ")?),
    }
}

/// What the next three takes give.
fn next_three(alloc: Global, port: &mut PlainPort) -> Result<String, Fail> {
    let mut text = String::new(alloc);
    for _ in 0..3 {
        text.push_str(next(alloc, port)?.as_str())?;
    }
    Ok(text)
}

#[test]
fn ample_memory_feed(rt: HostRuntime) -> Result<(), Fail> {
    let text = all_shown(rt.alloc(), feed_of_five(rt.alloc())?.entries())?;
    expect(text, "+0.2 +0.1 +0.4 +0.3 -0.2 ")
}

#[test]
fn ample_memory_fold(rt: HostRuntime) -> Result<(), Fail> {
    expect(folded_text(rt.alloc())?, "0.1 0.3 0.4 ")
}

#[test]
fn ample_memory_ports(rt: HostRuntime) -> Result<(), Fail> {
    assert_eq!(rt; PlainPort::try_new(rt.alloc(), 4_096)?.capacity(), 4_096);
    Ok(())
}

#[test]
fn an_open_port_gives_what_waits(rt: HostRuntime) -> Result<(), Fail> {
    expect(
        next_three(rt.alloc(), &mut port_of_two(rt.alloc())?)?,
        "+0.1 -0.1 empty ",
    )
}

#[test]
fn a_closed_port_gives_what_waits(rt: HostRuntime) -> Result<(), Fail> {
    let mut port = port_of_two(rt.alloc())?;
    port.close()?;
    expect(next_three(rt.alloc(), &mut port)?, "+0.1 -0.1 closed ")
}

#[test]
fn ample_memory_taken_copy(rt: HostRuntime) -> Result<(), Fail> {
    let taken = port_of_two(rt.alloc())?.take().copy()?;
    assert!(rt; matches!(&taken, Taken::Entry(Entry::Added { .. })));
    Ok(())
}

#[test]
fn ample_memory_fault_copy(rt: HostRuntime) -> Result<(), Fail> {
    let fault = OfferFault::Full(added(rt.alloc(), "0.1", "inbox", 0)?);
    expect(
        format!(in rt.alloc(); "{}", fault.copy()?)?,
        "the port is full",
    )
}
