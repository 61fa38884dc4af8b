//! `mr_lane`: taps as ports, through the ports' bounds.
use crate::samples::{added, dropped, expect, shown};
use mr_feed::{PortIn, PortOut, Taken};
use mr_lane::tap;
use mr_subs::{Drained, Notifier};
use std::alloc::Global;
use std::sync::Wait;
use std::test::Fail;

/// Offers two entries, and closes.
fn offer_two<P: PortIn>(alloc: Global, port: &mut P) -> Result<(), Fail> {
    for text in ["0.1", "0.2"] {
        port.offer(added(alloc, text, "inbox", 0)?)?;
    }
    Ok(port.close()?)
}

/// What the next take of a port gives: an entry, or else a word.
fn next<P: PortOut>(alloc: Global, port: &mut P) -> Result<String, Fail> {
    match port.take() {
        Taken::Entry(entry) => shown(alloc, &entry),
        Taken::Empty => Ok(String::from_str(alloc, "empty ")?),
        Taken::Closed => Ok(String::from_str(alloc, "closed ")?),
    }
}

#[test]
fn tap_as_a_port(rt: HostRuntime) -> Result<(), Fail> {
    let (mut spout, mut tap) = tap(rt, rt.alloc(), 3)?;
    offer_two(rt.alloc(), &mut spout)?;
    assert!(&rt; PortIn::offer(&mut spout, dropped("0.1")?).is_err());
    expect(next(rt.alloc(), &mut tap)?, "+0.1 ")
}

/// How many entries a port gives to a notifier before it is closed; nothing where it isn't.
fn unseen_at_close<R: Wait, P: PortOut>(
    rt: &R,
    alloc: Global,
    port: &mut P,
) -> Result<Option<usize>, Fail> {
    let mut notifier = Notifier::new(alloc);
    match notifier.drain(rt, port)? {
        Drained::Closed => Ok(Some(notifier.unseen())),
        Drained::Empty => Ok(None),
    }
}

#[test]
fn drain_of_a_tap(rt: HostRuntime) -> Result<(), Fail> {
    let (mut spout, mut tap) = tap(rt, rt.alloc(), 3)?;
    offer_two(rt.alloc(), &mut spout)?;
    assert_eq!(&rt; unseen_at_close(&rt, rt.alloc(), &mut tap)?, Some(2));
    Ok(())
}
