//! What hostile frames that are taken can do, which the page on threats tells: two facts.
use crate::random::cast::{Device, ask, sync};
use crate::random::frames::read;
use crate::random::story::create;
use anyhow::{Result, ensure};
use mr_replica::Refusal;
use mr_version::ItemId;
use std::alloc::Global;

/// Replica 2 says to replica 1, for its session 1: the start of a full stream.
const START: [u8; 31] = [
    0, 0, 0, 27, 2, 1, 0, 2, 0, 0, 0, 0, 0, 0, 0, 1, 0, 1, 0, 0, 0, 0, 0, 0, 0, 1, 0, 0, 0, 0, 1,
];

/// Then that it knows the versions 9.1 to 9.7 of all items, which nobody has issued.
const KNOW: [u8; 41] = [
    0, 0, 0, 37, 2, 5, 0, 2, 0, 0, 0, 0, 0, 0, 0, 1, 0, 1, 0, 0, 0, 0, 0, 0, 0, 1, 0, 0, 0, 1, 0,
    0, 1, 0, 9, 0, 0, 0, 7, 0, 0,
];

/// And the end.
const END: [u8; 30] = [
    0, 0, 0, 26, 2, 6, 0, 2, 0, 0, 0, 0, 0, 0, 0, 1, 0, 1, 0, 0, 0, 0, 0, 0, 0, 1, 0, 0, 0, 2,
];

/// Shows both facts. The replicas are new; the stranger is replica 9.
pub fn show_all(
    alloc: Global,
    office: &mut Device,
    friend: &mut Device,
    stranger: &mut Device,
) -> Result<()> {
    fill_streams(office, friend, stranger)?;
    teach(alloc, friend, stranger)
}

/// Eight requests of a stranger fill the streams: a friend is refused then, until one of them is cut.
fn fill_streams(office: &mut Device, friend: &mut Device, stranger: &mut Device) -> Result<()> {
    for _ in 0..8 {
        ask(stranger, office)?;
    }
    let ninth = ask(friend, office);
    ensure!(
        ninth == Err(Refusal::TooManyStreams),
        "a ninth stream is answered by {ninth:?}"
    );
    office.cut_out(3)?;
    ask(friend, office)?;
    Ok(())
}

/// A Know can teach what nobody issued: once the version of that name is issued, it is never taken.
fn teach(alloc: Global, friend: &mut Device, stranger: &mut Device) -> Result<()> {
    lie_to(alloc, friend, &START)?;
    lie_to(alloc, friend, &KNOW)?;
    lie_to(alloc, friend, &END)?;
    let version = create(alloc, stranger, "inbox")?;
    ensure!(
        friend.knows(ItemId::new(version), version),
        "the lie was not believed"
    );
    sync(friend, stranger)?;
    ensure!(
        friend.heads().is_empty(),
        "the true message was taken all the same"
    );
    Ok(())
}

/// The replica takes the frame that the bytes spell.
fn lie_to(alloc: Global, friend: &mut Device, bytes: &[u8]) -> Result<()> {
    friend.receive(read(alloc, bytes)?)?;
    Ok(())
}
