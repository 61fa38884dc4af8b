//! `mr_subs`: subscribers find memory.
use crate::samples::{added, dropped, expect, listed};
use mr_feed::{PlainPort, PortIn};
use mr_mail::Label;
use mr_subs::{Drained, Indexer, Notifier};
use std::alloc::Global;
use std::test::Fail;

/// More versions than a small table holds, not in order.
const TEXTS: [&str; 13] = [
    "0.9", "0.5", "0.1", "0.7", "0.3", "1.1", "2.6", "2.2", "2.4", "3.2", "4.1", "4.7", "4.5",
];

/// The same versions in order.
const SORTED_TEXTS: &str = "0.1 0.3 0.5 0.7 0.9 1.1 2.2 2.4 2.6 3.2 4.1 4.5 4.7 ";

/// A port in which these versions wait, each with the label inbox.
fn inbox_port(alloc: Global) -> Result<PlainPort, Fail> {
    let mut port = PlainPort::try_new(alloc, TEXTS.len())?;
    for text in TEXTS {
        port.offer(added(alloc, text, "inbox", 0)?)?;
    }
    Ok(port)
}

/// The versions under a label.
fn under(alloc: Global, indexer: &Indexer, label: &str) -> Result<String, Fail> {
    let label = Label::try_new(String::from_str(alloc, label)?)?;
    listed(alloc, &indexer.versions(&label)?)
}

/// Tells an indexer of a version under a label.
fn apply_added(alloc: Global, indexer: &mut Indexer, text: &str, label: &str) -> Result<(), Fail> {
    Ok(indexer.apply(added(alloc, text, label, 0)?)?)
}

/// Tells an indexer of one version under each of several labels.
fn apply_each(alloc: Global, indexer: &mut Indexer) -> Result<(), Fail> {
    for (text, label) in TEXTS.iter().zip("a b c d e f g h i j k l m".split(' ')) {
        apply_added(alloc, indexer, text, label)?;
    }
    Ok(())
}

/// An indexer that was told of one version under each of several labels, and that one left.
fn shelved(alloc: Global) -> Result<Indexer, Fail> {
    let mut indexer = Indexer::new(alloc);
    apply_each(alloc, &mut indexer)?;
    indexer.apply(dropped("0.5")?)?;
    Ok(indexer)
}

#[test]
fn ample_memory_index(rt: HostRuntime) -> Result<(), Fail> {
    let mut indexer = Indexer::new(rt.alloc());
    let _empty = indexer.drain(&rt, &mut inbox_port(rt.alloc())?)?;
    expect(under(rt.alloc(), &indexer, "inbox")?, SORTED_TEXTS)
}

#[test]
fn ample_memory_shelves(rt: HostRuntime) -> Result<(), Fail> {
    expect(under(rt.alloc(), &shelved(rt.alloc())?, "m")?, "4.5 ")
}

#[test]
fn what_left_is_on_no_shelf(rt: HostRuntime) -> Result<(), Fail> {
    expect(under(rt.alloc(), &shelved(rt.alloc())?, "b")?, "")
}

#[test]
fn ample_memory_count(rt: HostRuntime) -> Result<(), Fail> {
    let mut port = inbox_port(rt.alloc())?;
    port.close()?;
    let mut notifier = Notifier::new(rt.alloc());
    assert_eq!(rt; notifier.drain(&rt, &mut port)?, Drained::Closed);
    assert_eq!(rt; notifier.unseen(), 13);
    Ok(())
}

#[test]
fn ample_memory_apply(rt: HostRuntime) -> Result<(), Fail> {
    let mut notifier = Notifier::new(rt.alloc());
    notifier.apply(added(rt.alloc(), "0.1", "inbox", 0)?)?;
    notifier.apply(added(rt.alloc(), "0.2", "inbox", 1)?)?;
    assert_eq!(rt; notifier.unseen(), 1);
    Ok(())
}
