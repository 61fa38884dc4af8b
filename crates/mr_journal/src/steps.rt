//! Writes and cuts that are synced before anything else is done.
ghost use Rattle.std.specs.Prelude.{◌≡◌, ◌⊎◌, ◌+◌, ◌<◌, ◌≤◌, ◌^◌, ◌++◌, ◌∷◌, [], ℕ, List, IsTrue, length, take, OnOk};
ghost use Rattle.mr_journal.specs.Device.{Cut, HasCause, LeavesOnly, Rests, Torn, overwritten};
ghost use Rattle.mr_journal.specs.inner.Device.{IsStaged};

use crate::{Device, DeviceFailed};

/// Writes bytes at a place of the device, and syncs them.
pub(crate) fn put<D: Device>(device: &mut D, at: u64, bytes: &[u8]) -> Result<(), DeviceFailed>
    ensures done { IsTrue D.is_told → (file : List ℕ) → Rests D.seen D.may_leave file device.old → at ≤ length file
        → OnOk result (Rests D.seen D.may_leave (overwritten file at bytes.now) device.new) }
    ensures any_moment { IsTrue D.is_told → (file : List ℕ) → Rests D.seen D.may_leave file device.old
        → LeavesOnly D.moment D.left_since device.old device.new (Torn at bytes.now file) }
    ensures cause { IsTrue D.is_told → HasCause result (D.has_failed device.old) (D.has_failed device.new) }
{
    device.write_at(at, bytes)?;
    device.sync()
}

/// Cuts the device to a length, and syncs that.
pub(crate) fn trim<D: Device>(device: &mut D, len: u64) -> Result<(), DeviceFailed>
    ensures done { IsTrue D.is_told → (file : List ℕ) → Rests D.seen D.may_leave file device.old
        → OnOk result (Rests D.seen D.may_leave (take len file) device.new) }
    ensures any_moment { IsTrue D.is_told → (file : List ℕ) → Rests D.seen D.may_leave file device.old
        → LeavesOnly D.moment D.left_since device.old device.new (Cut len file) }
    ensures cause { IsTrue D.is_told → HasCause result (D.has_failed device.old) (D.has_failed device.new) }
{
    device.cut(len)?;
    device.sync()
}

/// Puts bytes behind the closed gate with which the device ends. Once they are there, it writes `opened` over the gate.
pub(crate) fn publish<D: Device>(
    device: &mut D,
    gate: u64,
    opened: u8,
    staged: &[u8],
) -> Result<(), DeviceFailed>
    requires { gate < 2 ^ 63 }
    ensures done { IsTrue D.is_told → (front : List ℕ) → length front ≡ gate → Rests D.seen D.may_leave (front ++ (0 ∷ [])) device.old
        → OnOk result (Rests D.seen D.may_leave (front ++ (opened ∷ staged.now)) device.new) }
    ensures any_moment { IsTrue D.is_told → (front : List ℕ) → length front ≡ gate → Rests D.seen D.may_leave (front ++ (0 ∷ [])) device.old
        → LeavesOnly D.moment D.left_since device.old device.new (λ c. IsStaged front (length staged.now) c ⊎ (c ≡ front ++ (opened ∷ staged.now))) }
    ensures cause { IsTrue D.is_told → HasCause result (D.has_failed device.old) (D.has_failed device.new) }
{
    put(device, gate + 1, staged)?;
    put(device, gate, &[opened])
}
