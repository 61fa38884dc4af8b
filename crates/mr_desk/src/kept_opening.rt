//! How a replica whose host writes comes to be: begun in an empty file, or brought back from one.
ghost use Rattle.std.specs.Prelude.{◌≡◌, ◌≢◌, length, MatchResult};
ghost use Rattle.mr_desk.specs.KeptOpening.{BeginsKept, IsBirth, OpensKept, given};
ghost use Rattle.mr_desk.specs.declared.fault.Fault.TheVariants.{BadLength};

use crate::fault::Fault;
use crate::kept::KeptDesk;
use crate::opening::filter_of;
use mr_entry::{Birth, Mark, Note};
use mr_hosted::Hosted;
use mr_kept::Setup;
use mr_replica::{MAX_EVENTS, ReplayFault};
use mr_version::Author;
use std::alloc::Global;

/// The birth that these bytes are: `BadLength` where they are not 16.
fn birth_of(bytes: &[u8]) -> Result<Birth, Fault>
    ensures { MatchResult result (λ birth. (birth ≡ bytes.now) × (length bytes.now ≡ 16)) (λ fault. (fault ≡ BadLength) × (length bytes.now ≢ 16)) }
{
    let mut birth = [0; 16];
    if bytes.len() != birth.len() {
        return Err(Fault::BadLength);
    }
    birth.copy_from_slice(bytes);
    Ok(birth)
}

/// The birth that these bytes are, and none where there is no byte.
fn birth_asked(bytes: &[u8]) -> Result<Option<Birth>, Fault>
    ensures { MatchResult result (λ birth. (birth ≡ given bytes.now) × IsBirth bytes.now) (λ fault. (fault ≡ BadLength) × ¬ IsBirth bytes.now) }
{
    if bytes.is_empty() {
        return Ok(None);
    }
    match birth_of(bytes) {
        Ok(birth) => Ok(Some(birth)),
        Err(fault) => Err(fault),
    }
}

/// The mark that these bytes are: `BadLength` where they are not 32.
fn mark_of(bytes: &[u8]) -> Result<Mark, Fault>
    ensures { MatchResult result (λ mark. (mark ≡ bytes.now) × (length bytes.now ≡ 32)) (λ fault. (fault ≡ BadLength) × (length bytes.now ≢ 32)) }
{
    let mut mark = [0; 32];
    if bytes.len() != mark.len() {
        return Err(Fault::BadLength);
    }
    mark.copy_from_slice(bytes);
    Ok(mark)
}

/// Begins a replica whose host writes, in a file that has no byte yet: what is to be done to it are the replica's acts.
///
/// `Version` where the id is above 63; then `NotText`, then `Filter` where the bytes mean no filter; then `BadLength` where the
/// birth or the mark has another length; then `Replay` where the limit is none. `OutOfMemory`, and `Open` where the head's bytes or the
/// acts find none, at any of these but the first.
pub fn begin_kept(
    alloc: Global,
    id: u16,
    filter: &[u8],
    event_limit: u32,
    birth: &[u8],
    mark: &[u8],
) -> Result<KeptDesk, Fault>
    ensures { BeginsKept id filter.now event_limit birth.now mark.now result }
{
    let id = Author::try_new(id)?;
    let filter = filter_of(alloc, filter)?;
    let birth = birth_of(birth)?;
    let mark = mark_of(mark)?;
    if event_limit == 0 || event_limit > MAX_EVENTS {
        return Err(Fault::Replay(ReplayFault::BadLimit));
    }
    let setup = Setup {
        id,
        filter,
        event_limit,
        birth,
        mark,
    };
    match Hosted::begin(alloc, setup) {
        Ok(kept) => Ok(kept),
        Err(fault) => Err(Fault::Open(fault)),
    }
}

/// Brings back the replica of a file that a host synced and then read, and all notes that were kept in it, in their order.
///
/// `BadLength` where the mark has another length than 32 bytes, or the birth another than 16 and than none; `OutOfMemory`; then `Open`
/// where the file isn't opened. One that a host left is, but for memory.
pub fn open_kept(
    alloc: Global,
    file: &[u8],
    mark: &[u8],
    birth: &[u8],
) -> Result<(KeptDesk, Vec<Note>), Fault>
    ensures { OpensKept file.now mark.now birth.now result }
{
    let mark = mark_of(mark)?;
    let birth = birth_asked(birth)?;
    let read = file.to_vec(alloc)?;
    match Hosted::open(alloc, read, &mark, birth) {
        Ok((kept, opened)) => Ok((kept, opened.notes)),
        Err(fault) => Err(Fault::Open(fault)),
    }
}
