//! Retire: the replica admits nothing more of its own.
ghost use Rattle.std.specs.Prelude.{◌≡◌, None, Some, MatchResult};
ghost use Rattle.mr_replica.specs.StepThen.{answer_by};

use super::parts::Change;
use super::prepare::Prepared;
use super::{Core, Replica};
use crate::{Event, Refusal, Reply};
use mr_forms::Knowledge;

impl<K: Knowledge> Replica<K> {
    ghost use Rattle.mr_replica.specs.Step.{Steps};

    /// Admits nothing more from now on but what tells others. It is admitted past a full log, once.
    ///
    /// `Retired`, then `PushOutsLeft`, and `OutOfMemory` last; a refused event changes nothing.
    pub fn retire(&mut self) -> Result<(), Refusal>
        ensures { Steps K.form self.old Event.Retire (answer_by (λ _. Reply.Done) result) self.new }
    {
        match self.step(Event::Retire)? {
            Reply::Done => Ok(()),
            _ => unreachable!(),
        }
    }
}

impl<K: Knowledge> Core<K> {
    ghost use Rattle.mr_replica.specs.Retire.{retire_refusal};
    ghost use Rattle.mr_replica.specs.inner.Prepare.{Prepares};

    pub(crate) fn prepare_retire(&self) -> Result<Prepared<K>, Refusal>
        ensures { Prepares K.form self.now Event.Retire result }
    {
        self.check_retire()?;
        Ok(Prepared {
            reply: Reply::Done,
            change: Change::Retire,
        })
    }

    // Nothing, where it may retire: past a full log too, but not while push-outs are left.
    fn check_retire(&self) -> Result<(), Refusal>
        ensures { MatchResult result (λ _. retire_refusal self.now ≡ None) (λ e. retire_refusal self.now ≡ Some e) }
    {
        self.check_retired()?;
        if !self.parts.contents.store().push_outs().is_empty() {
            return Err(Refusal::PushOutsLeft);
        }
        Ok(())
    }
}
