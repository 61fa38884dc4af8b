//! Next: a stream gives its next record.
ghost use Rattle.std.specs.Prelude.{◌≡◌, None, Some, MatchResult, IfOk};
ghost use Rattle.mr_replica.specs.StepThen.{answer_by};

use super::parts::Change;
use super::prepare::Prepared;
use super::{Core, Replica};
use crate::{Event, Refusal, Reply};
use mr_forms::Knowledge;
use mr_session::Prepared as Given;
use mr_wire::Record;
use std::alloc::AllocError;

impl<K: Knowledge> Replica<K> {
    ghost use Rattle.mr_replica.specs.Step.{Steps};

    /// The next record of the open stream of this number, of the heads and push-outs as they are now; the End
    /// closes the stream. A retired replica gives records too. It costs what its record copies; the first record
    /// of the heads costs a short search for each run of their versions, or a walk over them where one vector has no
    /// room for all.
    ///
    /// `NoStream`, then `LogFull`, and `OutOfMemory` last; a refused event changes nothing.
    pub fn next(&mut self, stream: u64) -> Result<Record, Refusal>
        ensures { Steps K.form self.old (Event.Next stream) (answer_by (λ sent. Reply.Gave sent) result) self.new }
    {
        match self.step(Event::Next(stream))? {
            Reply::Gave(record) => Ok(record),
            _ => unreachable!(),
        }
    }
}

impl<K: Knowledge> Core<K> {
    ghost use Rattle.mr_replica.specs.Next.{next_refusal, GivesNext};
    ghost use Rattle.mr_replica.specs.inner.Next.{going_on};
    ghost use Rattle.mr_replica.specs.inner.Prepare.{Prepares};

    pub(crate) fn prepare_next(&self, stream: u64) -> Result<Prepared<K>, Refusal>
        ensures { Prepares K.form self.now (Event.Next stream) result }
    {
        self.check_next(stream)?;
        let given = self.given(stream)?;
        Ok(Prepared {
            reply: Reply::Gave(given.record),
            change: Change::GoOn(stream, given.onward),
        })
    }

    // Nothing, where the stream is open.
    fn check_next(&self, stream: u64) -> Result<(), Refusal>
        ensures { MatchResult result (λ _. next_refusal self.now stream ≡ None) (λ e. next_refusal self.now stream ≡ Some e) }
    {
        if !self.parts.streams.has(stream) {
            return Err(Refusal::NoStream);
        }
        self.check_log()
    }

    // The stream's next record, of what is held now, and how the stream goes on behind it.
    fn given(&self, stream: u64) -> Result<Given, AllocError>
        requires { next_refusal self.now stream ≡ None }
        ensures { IfOk result (λ given. GivesNext self.now stream given.record (going_on self.now stream given.onward)) }
    {
        self.parts
            .streams
            .prepare(stream, self.parts.id, self.parts.contents.store())
    }
}
