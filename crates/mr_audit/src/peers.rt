//! Which replicas gave what logs tell of.
ghost use Rattle.std.specs.Prelude.{◌≡◌, ◌<◌, ◌++◌, ◌∷◌, [], if◌then◌else◌, IfOk, OnOk, filter};
ghost use Rattle.std.specs.List.{range_with_len};
ghost use Rattle.mr_version.specs.declared.author.TheConstants.{AUTHORS};
ghost use Rattle.mr_audit.specs.Peers.{gave, gave_to, gave_to_some, giver_of, is_among, is_missing};

use mr_forms::Knowledge;
use mr_replica::{Event, Replica};
use mr_version::{AUTHORS, Author};
use mr_wire::Frame;
use std::alloc::{AllocError, Global};

/// The replica that gave the frame which the event carries, as the frame says; none where it carries no frame of a replica.
pub fn giver_of(event: &Event) -> Option<Author>
    ensures { result ≡ giver_of event.now }
{
    match event {
        Event::Receive(Frame::Record(record)) => Some(record.header().source),
        Event::Answer(ask) => Some(ask.target()),
        Event::Release(receipt) => Some(receipt.giver),
        _ => None,
    }
}

/// The replicas that gave a frame which one of these took, and that aren't among them, in the order of their ids. While there are any,
/// no history of these alone explains their logs.
///
/// It costs a walk over the logs for each of the 64 ids.
pub fn missing_peers<K: Knowledge>(
    alloc: Global,
    ends: &[Replica<K>],
) -> Result<Vec<Author>, AllocError>
    ensures { IfOk result (λ peers. peers.items ≡ filter (is_missing ends.now) (range_with_len 0 AUTHORS)) }
{
    let mut peers = Vec::new(alloc);
    for id in 0..AUTHORS {
        push_if_missing(&mut peers, ends, author_of(id))?;
    }
    Ok(peers)
}

// Adds the peer, if it is missing.
fn push_if_missing<K: Knowledge>(
    peers: &mut Vec<Author>,
    ends: &[Replica<K>],
    peer: Author,
) -> Result<(), AllocError>
    ensures { OnOk result (peers.new.items ≡ peers.old.items ++ (if is_missing ends.now peer then peer ∷ [] else [])) }
{
    if is_missing(ends, peer) {
        peers.push(peer)?;
    }
    Ok(())
}

// The author with this id.
fn author_of(id: u16) -> Author
    requires { id < AUTHORS }
    ensures { result ≡ id }
{
    match Author::try_new(id) {
        Ok(author) => author,
        Err(_) => unreachable!(),
    }
}

// Whether the peer gave something to one of these, and isn't among them.
fn is_missing<K: Knowledge>(ends: &[Replica<K>], peer: Author) -> bool
    ensures { result ≡ is_missing ends.now peer }
{
    !is_among(ends, peer) && gave_to_some(ends, peer)
}

// Whether one of the replicas has the id.
fn is_among<K: Knowledge>(ends: &[Replica<K>], peer: Author) -> bool
    ensures { result ≡ is_among ends.now peer }
{
    ends.iter().any(|end| end.id() == peer)
}

// Whether the peer gave something to one of these.
fn gave_to_some<K: Knowledge>(ends: &[Replica<K>], peer: Author) -> bool
    ensures { result ≡ gave_to_some ends.now peer }
{
    ends.iter().any(|end| gave_to(end, peer))
}

// Whether the peer gave a frame that this one took.
fn gave_to<K: Knowledge>(end: &Replica<K>, peer: Author) -> bool
    ensures { result ≡ gave_to end.now peer }
{
    end.log().iter().any(|event| gave(event, peer))
}

// Whether the event carries a frame of the peer.
fn gave(event: &Event, peer: Author) -> bool
    ensures { result ≡ gave event.now peer }
{
    match giver_of(event) {
        Some(giver) => giver == peer,
        None => false,
    }
}
