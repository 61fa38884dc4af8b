//! Marks of histories, by which a replica whose log was set back and went on is found out.
ghost use Rattle.std.specs.Prelude.{◌≡◌, ◌<◌, length, IfNone, IfOk, IfSome, MatchBool, MatchOption, MatchResult};
ghost use Rattle.mr_lookup.specs.Versions.{versions_told};
ghost use Rattle.mr_version.specs.Name.{IsVersion};
ghost use Rattle.mr_sync.specs.Marks.{AgreesWith, HasOwnMark, IsMarkOf, IsMarked, Tells, TellsNoneOf, message_short};
ghost use Rattle.mr_sync.specs.inner.Marks.{IsMarkFault};

use crate::fault::SyncFault;
use crate::hello::front_of;
use mr_itemset::SparingKnowledge;
use mr_lookup::{message_digest, newest_told, told_message};
use mr_mail::Message;
use mr_replica::Replica;
use mr_talk::Short;
use mr_version::{Author, Version};
use std::alloc::{AllocError, Global};

/// The bytes of a mark: four of the counter and sixteen of a digest.
pub(crate) const MARK_BYTES: usize = 20;

/// What is told of a replica's history: the counter of one of its versions, and the first bytes of the digest of that one's
/// message. Where no version is told, both are 0.
#[derive(Clone, Copy)]
pub(crate) struct Mark {
    pub(crate) counter: u32,
    pub(crate) short: Short,
}

/// The mark of this author, by what the replica's log tells: of the newest version that it tells. It costs a walk over the log.
pub(crate) fn mark_of(
    alloc: Global,
    replica: &Replica<SparingKnowledge>,
    author: Author,
) -> Result<Mark, AllocError>
    ensures { IfOk result (IsMarkOf (versions_told replica.now.id replica.now.log) author) }
{
    match newest_told(replica, author) {
        Some(newest) => Ok(Mark {
            counter: newest.version().counter(),
            short: message_short(alloc, newest.message())?,
        }),
        None => Ok(Mark {
            counter: 0,
            short: [0u8; 16],
        }),
    }
}

/// The first bytes of the digest of a message.
fn message_short(alloc: Global, message: &Message) -> Result<Short, AllocError>
    ensures { IfOk result (λ short. short ≡ message_short message.now) }
{
    let digest = message_digest(alloc, message)?;
    Ok(front_of::<16>(&digest))
}

/// The bytes of a mark, and the frame behind them.
pub(crate) fn marked(alloc: Global, mark: &Mark, frame: &[u8]) -> Result<Vec<u8>, AllocError>
    ensures { IfOk result (λ bytes. IsMarked bytes.items mark.now frame.now) }
{
    let mut bytes = Vec::with_capacity(alloc, MARK_BYTES + frame.len())?;
    bytes.extend_from_slice(&mark.counter.to_be_bytes())?;
    bytes.extend_from_slice(&mark.short)?;
    bytes.extend_from_slice(frame)?;
    Ok(bytes)
}

/// The mark that the bytes begin with, and what is behind it.
fn split(bytes: &[u8]) -> Option<(Mark, &[u8])>
    ensures { MatchOption result (length bytes.now < MARK_BYTES) (λ parts. IsMarked bytes.now parts.0 parts.1.now) }
{
    let (counter, rest) = bytes.split_first_chunk::<4>()?;
    let (short, frame) = rest.split_first_chunk::<16>()?;
    let mark = Mark {
        counter: u32::from_be_bytes(*counter),
        short: *short,
    };
    Some((mark, frame))
}

/// The frame behind a mark of this replica's history with which its log agrees.
///
/// `BadList` where the bytes have no room for a mark; `OtherHistory` where the log tells another message under that counter, or
/// none: it was set back, as from a backup, and went on. It costs a walk over the log.
pub(crate) fn own_marked<'a>(
    alloc: Global,
    replica: &Replica<SparingKnowledge>,
    bytes: &'a [u8],
) -> Result<&'a [u8], SyncFault>
    ensures { MatchResult result (λ frame. HasOwnMark replica.now.id (versions_told replica.now.id replica.now.log) bytes.now frame.now)
        (IsMarkFault replica.now.id (versions_told replica.now.id replica.now.log) bytes.now) }
{
    let Some((mark, frame)) = split(bytes) else {
        return Err(SyncFault::BadList);
    };
    if !agrees_with(alloc, replica, &mark)? {
        return Err(SyncFault::OtherHistory(replica.id()));
    }
    Ok(frame)
}

/// Whether the replica's log agrees with a mark of its history: the mark tells of no version, or of one that the log tells with such a message.
fn agrees_with(
    alloc: Global,
    replica: &Replica<SparingKnowledge>,
    mark: &Mark,
) -> Result<bool, AllocError>
    ensures { IfOk result (λ is. MatchBool is (AgreesWith replica.now.id (versions_told replica.now.id replica.now.log) mark.now)
        (AgreesWith replica.now.id (versions_told replica.now.id replica.now.log) mark.now → ⊥)) }
{
    if mark.counter == 0 {
        return Ok(true);
    }
    match message_told(replica, replica.id(), mark.counter) {
        Some(message) => {
            let short = message_short(alloc, message)?;
            Ok(short == mark.short)
        }
        None => Ok(false),
    }
}

/// The message of this author's version, if there is such a version and the replica's log tells one of it.
pub(crate) fn message_told(
    replica: &Replica<SparingKnowledge>,
    author: Author,
    counter: u32,
) -> Option<&Message>
    ensures { MatchOption result (TellsNoneOf (versions_told replica.now.id replica.now.log) author counter)
        (λ message. Tells (versions_told replica.now.id replica.now.log) author counter message.now) }
{
    told_message(replica, version_of(author, counter)?)
}

/// The author's version of this counter, if there is one.
fn version_of(author: Author, counter: u32) -> Option<Version>
    ensures is { IfSome result (λ version. version ≡ record { author = author; counter = counter }) }
    ensures some { IfSome result (λ _. IsVersion author counter) }
    ensures none { IfNone result (¬ IsVersion author counter) }
{
    Version::try_new(author, counter).ok()
}
