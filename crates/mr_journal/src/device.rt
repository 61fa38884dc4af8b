//! What a journal asks of the place where its bytes are.
ghost use Rattle.std.specs.Prelude.{◌≡◌, ◌≤◌, ℕ, Bool, IsTrue, List, length, take, drop, IfOk, OnOk};
ghost use Rattle.mr_journal.specs.Device.{Cut, Follows, HasCause, IsUntouched, Only, Passes, Torn, overwritten};

use thiserror::Error;

/// A call of a device that failed.
#[derive(Clone, Copy, Debug, PartialEq, Eq, Drop, Error)]
#[error("the device failed")]
pub struct DeviceFailed;

/// Bytes that outlive the program, in a row that can grow at its end and be cut there.
pub trait Device {
    /// Whether the clauses say what the calls give and take. Of a real file no clause can say it, so there it is false.
    ghost is_told: { Bool };

    /// The bytes that a read gives.
    ghost seen: { Self → List ℕ };

    /// What a crash at this moment may leave.
    ghost may_leave: { Self → List ℕ → Type 0 };

    /// The moment, as a number that doesn't fall.
    ghost moment: { Self → ℕ };

    /// What a crash at some moment since that one left, within a call or between two.
    ghost left_since: { Self → ℕ → List ℕ → Type 0 };

    /// Whether a call has failed so far.
    ghost has_failed: { Self → Bool };

    /// How many bytes there are.
    fn len(&mut self) -> Result<u64, DeviceFailed>
        ensures len { IsTrue is_told → IfOk result (λ n. n ≡ length (seen self.old)) }
        ensures untouched { IsTrue is_told → IsUntouched seen may_leave moment left_since self.old self.new }
        ensures cause { IsTrue is_told → HasCause result (has_failed self.old) (has_failed self.new) };

    /// Fills the buffer with the bytes from this place on. Fails where there are fewer.
    fn read_at(&mut self, at: u64, buf: &mut [u8]) -> Result<(), DeviceFailed>
        ensures read { IsTrue is_told → OnOk result (buf.new ≡ take (length buf.old) (drop at (seen self.old))) }
        ensures untouched { IsTrue is_told → IsUntouched seen may_leave moment left_since self.old self.new }
        ensures cause { IsTrue is_told → HasCause result (has_failed self.old) (has_failed self.new) };

    /// Writes over what is there and past the end. Until the next sync a crash may leave any part of it.
    fn write_at(&mut self, at: u64, bytes: &[u8]) -> Result<(), DeviceFailed>
        ensures written { IsTrue is_told → at ≤ length (seen self.old) → OnOk result (seen self.new ≡ overwritten (seen self.old) at bytes.now) }
        ensures crash { IsTrue is_told → Follows (Torn at bytes.now) (may_leave self.old) (may_leave self.new) }
        ensures time { IsTrue is_told → Passes (moment self.old) (moment self.new) (left_since self.old) (left_since self.new) (may_leave self.new) }
        ensures cause { IsTrue is_told → HasCause result (has_failed self.old) (has_failed self.new) };

    /// Cuts off what is behind this length.
    fn cut(&mut self, len: u64) -> Result<(), DeviceFailed>
        ensures cut { IsTrue is_told → OnOk result (seen self.new ≡ take len (seen self.old)) }
        ensures crash { IsTrue is_told → Follows (Cut len) (may_leave self.old) (may_leave self.new) }
        ensures time { IsTrue is_told → Passes (moment self.old) (moment self.new) (left_since self.old) (left_since self.new) (may_leave self.new) }
        ensures cause { IsTrue is_told → HasCause result (has_failed self.old) (has_failed self.new) };

    /// From the answer on a crash leaves what a read gives.
    fn sync(&mut self) -> Result<(), DeviceFailed>
        ensures durable { IsTrue is_told → OnOk result (Only (seen self.old) (may_leave self.new)) }
        ensures untouched { IsTrue is_told → IsUntouched seen may_leave moment left_since self.old self.new }
        ensures cause { IsTrue is_told → HasCause result (has_failed self.old) (has_failed self.new) };

    /// This moment is one of those since an earlier one.
    ghost now_counts: { (device : Self) (t : ℕ) (c : List ℕ) → t ≤ moment device → may_leave device c → left_since device t c };

    /// Since this moment there is no other.
    ghost only_now: { (device : Self) (c : List ℕ) → left_since device (moment device) c → may_leave device c };
}
