//! Create: the first version of a new item.
ghost use Rattle.std.specs.Prelude.{◌≡◌, None, Some, MatchResult};
ghost use Rattle.mr_replica.specs.StepThen.{answer_by};

use super::parts::Change;
use super::prepare::Prepared;
use super::{Core, Replica};
use crate::{Event, Refusal, Reply};
use mr_concise::ConciseVector;
use mr_forms::{FormFault, Knowledge, VersionSet};
use mr_mail::Message;
use mr_version::{ItemId, Version};

impl<K: Knowledge> Replica<K> {
    ghost use Rattle.mr_replica.specs.Step.{Steps};

    /// Issues the first version of a new item, which is given. It enters the heads if the replica's filter
    /// selects it, and else the push-outs.
    ///
    /// `Retired`, then `LogFull`; then `TooManyHoles` or `TooManyItems` where the form of knowledge has no value
    /// for what would be known; and `OutOfMemory` last. A refused event changes nothing.
    pub fn create(&mut self, message: Message) -> Result<Version, Refusal>
        ensures { Steps K.form self.old (Event.Create message) (answer_by (λ version. Reply.Issued version) result) self.new }
    {
        match self.step(Event::Create(message))? {
            Reply::Issued(version) => Ok(version),
            _ => unreachable!(),
        }
    }
}

impl<K: Knowledge> Core<K> {
    ghost use Rattle.mr_replica.specs.Create.{create_refusal};
    ghost use Rattle.mr_replica.specs.inner.Prepare.{Prepares, PreparesLate};

    pub(crate) fn prepare_create(&self, message: &Message) -> Result<Prepared<K>, Refusal>
        ensures { Prepares K.form self.now (Event.Create message.now) result }
    {
        self.check_create()?;
        self.prepare_created(message)
    }

    // Nothing, where a create is admitted.
    fn check_create(&self) -> Result<(), Refusal>
        ensures { MatchResult result (λ _. create_refusal self.now ≡ None) (λ e. create_refusal self.now ≡ Some e) }
    {
        self.check_retired()?;
        self.check_log()
    }

    fn prepare_created(&self, message: &Message) -> Result<Prepared<K>, Refusal>
        requires { create_refusal self.now ≡ None }
        ensures { PreparesLate K.form self.now (Event.Create message.now) result }
    {
        let version = self.next_version();
        let item = ItemId::new(version);
        let nothing: Result<ConciseVector, FormFault> = Ok(ConciseVector::new(self.alloc));
        let below = self.admit(item, version, nothing)?;
        let arrival = self.arrival(item, version, below, message)?;
        Ok(Prepared {
            reply: Reply::Issued(version),
            change: Change::Enter(arrival),
        })
    }
}
