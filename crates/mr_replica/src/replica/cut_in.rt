//! CutIn: a session is closed. What was taken in it stays.
ghost use Rattle.std.specs.Prelude.{◌≡◌, None, Some, MatchResult};
ghost use Rattle.mr_replica.specs.StepThen.{answer_by};

use super::parts::Change;
use super::prepare::Prepared;
use super::{Core, Replica};
use crate::{Event, Refusal, Reply};
use mr_forms::Knowledge;

impl<K: Knowledge> Replica<K> {
    ghost use Rattle.mr_replica.specs.Step.{Steps};

    /// Closes the open session of this number; what was taken in it stays.
    ///
    /// `Retired`, then `NoSession`, then `LogFull`, and `OutOfMemory` last; a refused event changes nothing.
    pub fn cut_in(&mut self, session: u64) -> Result<(), Refusal>
        ensures { Steps K.form self.old (Event.CutIn session) (answer_by (λ _. Reply.Done) result) self.new }
    {
        match self.step(Event::CutIn(session))? {
            Reply::Done => Ok(()),
            _ => unreachable!(),
        }
    }
}

impl<K: Knowledge> Core<K> {
    ghost use Rattle.mr_replica.specs.CutIn.{cut_in_refusal};
    ghost use Rattle.mr_replica.specs.inner.Prepare.{Prepares};

    pub(crate) fn prepare_cut_in(&self, session: u64) -> Result<Prepared<K>, Refusal>
        ensures { Prepares K.form self.now (Event.CutIn session) result }
    {
        self.check_cut_in(session)?;
        Ok(Prepared {
            reply: Reply::Done,
            change: Change::CloseSession(session),
        })
    }

    // Nothing, where the session may be closed.
    fn check_cut_in(&self, session: u64) -> Result<(), Refusal>
        ensures { MatchResult result (λ _. cut_in_refusal self.now session ≡ None) (λ e. cut_in_refusal self.now session ≡ Some e) }
    {
        self.check_retired()?;
        if !self.parts.sessions.has(session) {
            return Err(Refusal::NoSession);
        }
        self.check_log()
    }
}
