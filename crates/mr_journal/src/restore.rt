//! What a device has before a journal is opened on it, and what is done to it then.
ghost use Rattle.std.specs.Prelude.{◌≡◌, ◌≢◌, ◌⊎◌, ◌↔◌, ◌+◌, ◌<◌, ◌≤◌, ◌++◌, ◌∷◌, [], ℕ, List, IsTrue, length, min, take, IfOk, IfErr, IfSome, OnOk};
ghost use Rattle.mr_journal.specs.declared.fault.JournalFault.TheVariants.{Failed};
ghost use Rattle.mr_journal.specs.Device.{Cut, HasCause, IsUntouched, LeavesOnly, Only, Rests};
ghost use Rattle.mr_journal.specs.Format.{IsNew, StandAlike, contents, head};
ghost use Rattle.mr_journal.specs.Reading.{IsReason};
ghost use Rattle.mr_journal.specs.inner.Reading.{IsExamined, IsHeadOf, IsRestored};

use crate::fault::JournalFault;
use crate::read::{read_batches, read_vec};
use crate::spell::HEAD_BYTES;
use crate::steps::{publish, put, trim};
use crate::{Device, DeviceFailed};
use std::alloc::Global;

/// What a journal begins with, before the number of its format.
const MAGIC: &[u8] = b"Jimetsal";

/// The format that is read and written here.
const FORMAT: u16 = 1;

/// The first byte of a journal.
const FIRST_BYTE: u8 = b'J';

/// What stands behind it in a journal with no batch: the rest of the head, and a closed gate.
const NEW_REST: &[u8] = b"imetsal\x00\x01\x00";

/// What was found on a device that has a journal.
#[derive(Drop)]
pub(crate) struct Found {
    pub(crate) entries: Vec<Vec<u8>>,
    pub(crate) gate: u64,
    pub(crate) len: u64,
}

/// Whether a device is to become a journal: by its first bytes and its length.
fn is_new(first: &[u8], len: u64) -> bool
    requires { length first.now ≡ min 10 len }
    ensures { (file : List ℕ) → length file ≡ len → first.now ≡ take 10 file → IsTrue result ↔ IsNew file }
{
    if len <= 1 {
        return true;
    }
    first[0] == 0 && len <= HEAD_BYTES + 1
}

/// Looks whether the first bytes are the head of a journal that is read here.
fn check_head(first: &[u8]) -> Result<(), JournalFault>
    requires { length first.now ≤ 10 }
    ensures { IsHeadOf result first.now }
{
    if first.len() < 10 || &first[..8] != MAGIC {
        return Err(JournalFault::NotAJournal);
    }
    let mut number = [0u8; 2];
    number.copy_from_slice(&first[8..10]);
    let format = u16::from_be_bytes(number);
    if format != FORMAT {
        return Err(JournalFault::OtherFormat(format));
    }
    Ok(())
}

/// Reads what a device has, and writes nothing: `None` where it is no journal yet.
pub(crate) fn examine<D: Device>(
    alloc: Global,
    device: &mut D,
) -> Result<Option<Found>, JournalFault>
    ensures found { IsTrue D.is_told → IsExamined result (D.seen device.old) }
    ensures durable { IsTrue D.is_told → OnOk result (Only (D.seen device.old) (D.may_leave device.new)) }
    ensures within { IfOk result (λ found. IfSome found (λ it. it.gate < it.len)) }
    ensures untouched { IsTrue D.is_told → IsUntouched D.seen D.may_leave D.moment D.left_since device.old device.new }
    ensures cause { IsTrue D.is_told → IfErr result (λ fault. fault ≡ Failed → IsTrue (D.has_failed device.new)) }
{
    // What is read from here on is what a crash leaves.
    device.sync()?;
    let len = device.len()?;
    let first = read_vec(alloc, device, 0, HEAD_BYTES.min(len) as usize)?;
    if is_new(&first, len) {
        return Ok(None);
    }
    check_head(&first)?;
    let (entries, gate) = read_batches(alloc, device, len)?;
    Ok(Some(Found { entries, gate, len }))
}

/// Makes a journal with no batch. Its first byte is a gate too: it is written once the rest is there.
pub(crate) fn create<D: Device>(device: &mut D) -> Result<(), DeviceFailed>
    ensures done { IsTrue D.is_told → (file : List ℕ) → Rests D.seen D.may_leave file device.old → IsNew file
        → OnOk result (Rests D.seen D.may_leave (head 1 ++ (0 ∷ [])) device.new) }
    ensures any_moment { IsTrue D.is_told → (file : List ℕ) → Rests D.seen D.may_leave file device.old → IsNew file
        → LeavesOnly D.moment D.left_since device.old device.new (StandAlike file) }
    ensures cause { IsTrue D.is_told → HasCause result (D.has_failed device.old) (D.has_failed device.new) }
{
    trim(device, 0)?;
    put(device, 0, &[0])?;
    publish(device, 0, FIRST_BYTE, NEW_REST)
}

/// Cuts off what a device of this length has behind a place. Where there is nothing it writes nothing.
fn cut_behind<D: Device>(device: &mut D, end: u64, len: u64) -> Result<(), DeviceFailed>
    ensures done { IsTrue D.is_told → (file : List ℕ) → Rests D.seen D.may_leave file device.old → len ≡ length file
        → OnOk result (Rests D.seen D.may_leave (take end file) device.new) }
    ensures any_moment { IsTrue D.is_told → (file : List ℕ) → Rests D.seen D.may_leave file device.old → len ≡ length file
        → LeavesOnly D.moment D.left_since device.old device.new (Cut end file) }
    ensures cause { IsTrue D.is_told → HasCause result (D.has_failed device.old) (D.has_failed device.new) }
{
    if end >= len {
        return Ok(());
    }
    trim(device, end)
}

/// Reads the entries of a device, and cuts off what a crash left behind them.
pub(crate) fn restore<D: Device>(
    alloc: Global,
    device: &mut D,
) -> Result<(Vec<Vec<u8>>, u64), JournalFault>
    ensures restored { IsTrue D.is_told → IfOk result (λ r. IsRestored D.seen D.may_leave (contents r.0.items) r.1 (D.seen device.old) device.new) }
    ensures any_moment { IsTrue D.is_told → LeavesOnly D.moment D.left_since device.old device.new
        (λ c. D.may_leave device.old c ⊎ StandAlike (D.seen device.old) c) }
    ensures reason { IsTrue D.is_told → IfErr result (λ fault. IsReason fault (D.seen device.old)) }
    ensures untouched { IsTrue D.is_told → IfErr result (λ fault. fault ≢ Failed
        → IsUntouched D.seen D.may_leave D.moment D.left_since device.old device.new) }
    ensures cause { IsTrue D.is_told → IfErr result (λ fault. fault ≡ Failed → IsTrue (D.has_failed device.new)) }
{
    let Some(found) = examine(alloc, device)? else {
        create(device)?;
        return Ok((Vec::new(alloc), HEAD_BYTES));
    };
    cut_behind(device, found.gate + 1, found.len)?;
    Ok((found.entries, found.gate))
}
