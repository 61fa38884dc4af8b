//! CutOut: a stream is closed.
ghost use Rattle.std.specs.Prelude.{◌≡◌, None, Some, MatchResult};
ghost use Rattle.mr_replica.specs.StepThen.{answer_by};

use super::parts::Change;
use super::prepare::Prepared;
use super::{Core, Replica};
use crate::{Event, Refusal, Reply};
use mr_forms::Knowledge;

impl<K: Knowledge> Replica<K> {
    ghost use Rattle.mr_replica.specs.Step.{Steps};

    /// Closes the open stream of this number, whatever is left of it. A retired replica may do so too.
    ///
    /// `NoStream`, then `LogFull`, and `OutOfMemory` last; a refused event changes nothing.
    pub fn cut_out(&mut self, stream: u64) -> Result<(), Refusal>
        ensures { Steps K.form self.old (Event.CutOut stream) (answer_by (λ _. Reply.Done) result) self.new }
    {
        match self.step(Event::CutOut(stream))? {
            Reply::Done => Ok(()),
            _ => unreachable!(),
        }
    }
}

impl<K: Knowledge> Core<K> {
    ghost use Rattle.mr_replica.specs.CutOut.{cut_out_refusal};
    ghost use Rattle.mr_replica.specs.inner.Prepare.{Prepares};

    pub(crate) fn prepare_cut_out(&self, stream: u64) -> Result<Prepared<K>, Refusal>
        ensures { Prepares K.form self.now (Event.CutOut stream) result }
    {
        self.check_cut_out(stream)?;
        Ok(Prepared {
            reply: Reply::Done,
            change: Change::CloseStream(stream),
        })
    }

    // Nothing, where the stream may be closed.
    fn check_cut_out(&self, stream: u64) -> Result<(), Refusal>
        ensures { MatchResult result (λ _. cut_out_refusal self.now stream ≡ None) (λ e. cut_out_refusal self.now stream ≡ Some e) }
    {
        if !self.parts.streams.has(stream) {
            return Err(Refusal::NoStream);
        }
        self.check_log()
    }
}
