//! What keeps a replica from admitting an event, whatever the event asks for.
ghost use Rattle.std.specs.Prelude.{◌≡◌, None, Some, Err, MatchResult};

use super::Core;
use crate::Refusal;
use mr_forms::Knowledge;

impl<K: Knowledge> Core<K> {
    ghost use Rattle.mr_replica.specs.Admission.{retired, log_full};

    // Nothing, where the replica has not retired.
    pub(crate) fn check_retired(&self) -> Result<(), Refusal>
        ensures { MatchResult result (λ _. retired self.now ≡ None) (λ e. retired self.now ≡ Some e) }
    {
        if self.parts.is_retired {
            return Err(Refusal::Retired);
        }
        Ok(())
    }

    // Nothing, where the log has a place.
    pub(crate) fn check_log(&self) -> Result<(), Refusal>
        ensures { MatchResult result (λ _. log_full self.now ≡ None) (λ e. log_full self.now ≡ Some e) }
    {
        if self.parts.event_limit as usize <= self.parts.contents.log().len() {
            return Err(Refusal::LogFull);
        }
        Ok(())
    }
}
