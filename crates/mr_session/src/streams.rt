//! The open streams of a replica.
ghost use Rattle.std.specs.Prelude.{◌≡◌, ◌<◌, ◌+◌, ◌^◌, length, IsSome, IfSome, IsOk, IsFalse, IfOk, OnOk, OnErr};
ghost use Rattle.mr_session.specs.Onward.{advanced};
ghost use Rattle.mr_session.specs.Preparing.{is_copied};
ghost use Rattle.mr_session.specs.Stream.{new_stream, GivesIn, IsOnlyDraw};
ghost use Rattle.mr_session.specs.Table.{open_at, with_opened};
ghost use Rattle.mr_session.specs.declared.limits.TheConstants.{MAX_OPEN};

use crate::asked::AskedOf;
use crate::open_table::OpenTable;
use crate::outgoing::{Onward, Outgoing, Prepared};
use mr_store::Store;
use mr_version::Author;
use mr_wire::{FrameFragment, Mode, Record};
use std::alloc::AllocError;
use std::collections::VecDeque;

/// The open streams of a replica, at most eight, each under a number that is given once.
pub type Streams = OpenTable<Outgoing>;

impl OpenTable<Outgoing> {
    /// Opens a stream for one who asked, under the next number, which is given. Fewer than eight are open. A
    /// full stream gives these fragments of what its source knows, behind its Held records.
    pub fn open(
        &mut self,
        asked: AskedOf,
        mode: Mode,
        know: VecDeque<FrameFragment>,
    ) -> Result<u64, AllocError>
        requires room { length self.old.open_ones < MAX_OPEN }
        requires numbers { self.old.opened + 1 < 2 ^ 64 }
        ensures number { IfOk result (λ number. number ≡ self.old.opened + 1) }
        ensures ok { OnOk result (self.new ≡ with_opened self.old (new_stream asked mode know.items)) }
        ensures err { OnErr result (self.new ≡ self.old) }
    {
        let stream = Outgoing::new(self.alloc(), asked, mode, know);
        self.insert(stream)
    }

    /// The next record of the number's stream, which is open, of what its source holds now, and how the stream
    /// goes on behind it; the index of that record is below the last one that there is. Nothing changes until
    /// the stream is made to go on, by [`OpenTable::advance`].
    ///
    /// A Start comes first. Then come the revisions that are due, by version, from behind the last one that the
    /// stream looked at, each as an Item or a MoveOut. Once nothing more is due a full stream gives its heads,
    /// and then what its source knows; an End comes last. It costs a copy of what the record says: of a
    /// revision's handle, or of a vector or a fragment. The first Held costs a short search for each run of
    /// versions of the heads, or a walk over them where one vector has no room for all. A Start and an End need
    /// no memory.
    pub fn prepare(
        &self,
        number: u64,
        source: Author,
        store: &Store,
    ) -> Result<Prepared, AllocError>
        requires open { IsSome (open_at self.now number) }
        requires goes_on { IfSome (open_at self.now number) (λ stream. stream.next + 1 < 2 ^ 32) }
        ensures gives { IfOk result (λ prepared. GivesIn source number self.now store.now prepared.record (advanced number prepared.onward self.now)) }
        ensures one { IfOk result (λ prepared. IsOnlyDraw source number self.now store.now prepared.record (advanced number prepared.onward self.now)) }
        ensures sure { IfSome (open_at self.now number) (λ stream. IsFalse (is_copied stream store.now) → IsOk result) }
    {
        // numbers are given from 1
        let _given = self.opened();
        match self.get(number) {
            Some(stream) => stream.prepare(source, number, store),
            None => unreachable!(),
        }
    }

    /// The next record of the number's stream, which is open, of what its source holds now: it is prepared, and
    /// the stream goes on behind it and is closed with its End. The index of that record is below the last one
    /// that there is. Where memory is refused, nothing changes. It costs what [`OpenTable::prepare`] costs.
    pub fn draw(&mut self, number: u64, source: Author, store: &Store) -> Result<Record, AllocError>
        requires open { IsSome (open_at self.old number) }
        requires goes_on { IfSome (open_at self.old number) (λ stream. stream.next + 1 < 2 ^ 32) }
        ensures gives { IfOk result (λ given. GivesIn source number self.old store.now given self.new) }
        ensures one { IfOk result (λ given. IsOnlyDraw source number self.old store.now given self.new) }
        ensures err { OnErr result (self.new ≡ self.old) }
        ensures sure { IfSome (open_at self.old number) (λ stream. IsFalse (is_copied stream store.now) → IsOk result) }
    {
        let Prepared { record, onward } = self.prepare(number, source, store)?;
        self.advance(number, onward);
        Ok(record)
    }

    /// The number's stream, which is open, goes on behind the record that it prepared, and is closed with its
    /// End. It can't fail. It goes on as it is told: [`OpenTable::draw`] ties it to the record.
    pub fn advance(&mut self, number: u64, onward: Onward)
        requires open { IsSome (open_at self.old number) }
        requires goes_on { IfSome (open_at self.old number) (λ stream. stream.next + 1 < 2 ^ 32) }
        ensures { self.new ≡ advanced number onward self.old }
    {
        if let Onward::Closed = onward {
            // the stream itself is told no more
            let _ = self.close(number);
            return;
        }
        self.change(number, |mut stream| {
            stream.advance(onward);
            (stream, ())
        })
    }
}
