//! Records of a stream, as many at a time as a host likes.
ghost use Rattle.std.specs.Prelude.{◌≡◌, ◌++◌, ◌∷◌, [], IfErr, IfOk, OnOk, Err, Ok, false};
ghost use Rattle.mr_journal.specs.Journal.{has_failed};
ghost use Rattle.mr_replica.specs.Step.{Steps};
ghost use Rattle.mr_replica.specs.declared.event.Event.TheVariants as asked;
ghost use Rattle.mr_replica.specs.declared.event.Reply.TheVariants as told;
ghost use Rattle.mr_wire.specs.Frames.{Sent};
ghost use Rattle.mr_kept.specs.Answered.{Answered};
ghost use Rattle.mr_kept.specs.Telling.{is_end, size_of};
ghost use Rattle.mr_kept.specs.inner.Telling.{IsRecord};

use crate::admit::admit;
use crate::fault::KeptFault;
use crate::journaled::Journaled;
use mr_forms::Knowledge;
use mr_journal::Device;
use mr_replica::{Event, Reply};
use mr_wire::{Body, Frame, Record};

/// How many bytes a record takes, and whether it is the End.
#[derive(Clone, Copy)]
struct Given {
    size: usize,
    is_end: bool,
}

/// The record, and what is to be known of it.
fn measured(sent: Record) -> (Record, Given)
    ensures same { result.0 ≡ sent }
    ensures size { result.1.size ≡ size_of sent }
    ensures end { result.1.is_end ≡ is_end sent }
{
    let is_end = matches!(sent.body(), Body::End);
    let frame = Frame::Record(sent);
    let size = frame.encoded_len();
    (record_of(frame), Given { size, is_end })
}

/// The record that the frame is.
fn record_of(frame: Frame) -> Record
    requires { IsRecord frame }
    ensures { frame ≡ Frame.Record result }
{
    match frame {
        Frame::Record(sent) => sent,
        Frame::Ask(_) => unreachable!(),
        Frame::Receipt(_) => unreachable!(),
    }
}

impl<K: Knowledge, D: Device + Drop> Journaled<K, D> {
    ghost use Rattle.mr_kept.specs.Kept.{SameJournal, journal_of, leaving, replica_of};
    ghost use Rattle.mr_kept.specs.Telling.{Tells};

    /// Has the open stream of this number give its next records, each as [`Journaled::next`] does: as long as they are fewer than
    /// `records`, have fewer bytes together than `bytes`, each as the frame that it is, and the End isn't among them. It answers whether
    /// the End is the last of them, which closes the stream. The next commit hands them out, and keeps them as one entry.
    ///
    /// The first Next that is refused ends it, by the fault of `next`: the records before it were given, and wait for the commit. Where
    /// `records` or `bytes` is 0 nothing is done. The last record may have any size, so what is given has fewer bytes than `bytes` and
    /// that record together. It costs its records.
    pub fn tell(&mut self, stream: u64, records: u32, bytes: u64) -> Result<bool, KeptFault>
        ensures told { Tells K.form stream records bytes self.old result self.new }
        ensures journal { SameJournal self.old self.new }
    {
        let mut left = bytes;
        for _ in 0..records {
            if left == 0 {
                return Ok(false);
            }
            let given = self.give(stream)?;
            if given.is_end {
                return Ok(true);
            }
            left = left.saturating_sub(given.size as u64);
        }
        Ok(false)
    }

    // The stream gives its next record, which is held back.
    fn give(&mut self, stream: u64) -> Result<Given, KeptFault>
        ensures gives { IfOk result (λ given. (sent : Sent) × (given.size ≡ size_of sent) × (given.is_end ≡ is_end sent)
            × Steps K.form (replica_of self.old) (asked.Next stream) (Ok (told.Gave sent)) (replica_of self.new) × (leaving self.new ≡ leaving self.old ++ told.Gave sent ∷ [])) }
        ensures sound { OnOk result (has_failed (journal_of self.old) ≡ false) }
        ensures refused { IfErr result (λ e. Answered K.form (journal_of self.old) (replica_of self.old) (asked.Next stream) (Err e) (replica_of self.new)
            × (leaving self.new ≡ leaving self.old)) }
        ensures journal { SameJournal self.old self.new }
    {
        self.leaving.reserve(1)?;
        match admit(&mut self.replica, &self.journal, Event::Next(stream)) {
            Ok(Reply::Gave(sent)) => {
                let (sent, given) = measured(sent);
                self.leaving.push_reserved(Reply::Gave(sent));
                Ok(given)
            }
            Ok(_reply) => unreachable!(),
            Err(fault) => Err(fault),
        }
    }
}
