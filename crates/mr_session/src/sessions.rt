//! The open sessions of a replica.
ghost use Rattle.std.specs.Prelude.{◌≡◌, ◌<◌, ◌+◌, ◌^◌, length, None, IsSome, IfSome, IsOk, IsFalse, IfOk, OnOk, OnErr};
ghost use Rattle.std.specs.Result.{result_err};
ghost use Rattle.mr_session.specs.Session.{new_session, first_fault, with_taken, is_to_keep};
ghost use Rattle.mr_session.specs.Table.{open_at, with_opened};
ghost use Rattle.mr_session.specs.declared.limits.TheConstants.{MAX_OPEN};

use crate::fault::SessionFault;
use crate::incoming::Incoming;
use crate::open_table::OpenTable;
use mr_wire::Record;
use std::alloc::AllocError;

/// The open sessions of a replica, at most eight, each under a number that is given once.
pub type Sessions = OpenTable<Incoming>;

impl OpenTable<Incoming> {
    /// Opens a session that has taken nothing, under the next number, which is given. Fewer than eight are
    /// open.
    pub fn open(&mut self) -> Result<u64, AllocError>
        requires room { length self.old.open_ones < MAX_OPEN }
        requires numbers { self.old.opened + 1 < 2 ^ 64 }
        ensures number { IfOk result (λ number. number ≡ self.old.opened + 1) }
        ensures ok { OnOk result (self.new ≡ with_opened self.old new_session) }
        ensures err { OnErr result (self.new ≡ self.old) }
    {
        let session = Incoming::new(self.alloc());
        self.insert(session)
    }

    /// Whether the record's session, which is open, takes it: it begins with a Start, and goes on with the
    /// records of that stream alone, by index, with none left out.
    ///
    /// `NotStart` where the session has taken no Start, and the record is none; else `OtherStream` where the
    /// record is of another stream; else `Repeated` below the index that the session takes next, and `Gap`
    /// above it. A replica has the session at hand, and asks that: of this project only a test calls this.
    pub fn check(&self, sent: &Record) -> Result<(), SessionFault>
        requires { IsSome (open_at self.now sent.now.header.session) }
        ensures { IfSome (open_at self.now sent.now.header.session)
            (λ session. first_fault session.origin session.next sent.now ≡ result_err result) }
    {
        match self.get(sent.header().session) {
            Some(session) => session.check(sent),
            None => unreachable!(),
        }
    }

    /// The record's session takes it: it is open, its `check` admits the record, and the record's index is
    /// below the last one that there is. It costs a copy of the vector or the fragment
    /// of a full stream's Held or Know; other records need no memory.
    pub fn take(&mut self, sent: &Record) -> Result<(), AllocError>
        requires open { IsSome (open_at self.old sent.now.header.session) }
        requires admitted { IfSome (open_at self.old sent.now.header.session) (λ session. first_fault session.origin session.next sent.now ≡ None) }
        requires goes_on { sent.now.header.index + 1 < 2 ^ 32 }
        ensures ok { OnOk result (self.new ≡ with_taken sent.now self.old) }
        ensures err { OnErr result (self.new ≡ self.old) }
        ensures sure { IsFalse (is_to_keep sent.now.body) → IsOk result }
    {
        self.change(sent.header().session, |mut session| {
            let taken = session.take(sent);
            (session, taken)
        })
    }
}
