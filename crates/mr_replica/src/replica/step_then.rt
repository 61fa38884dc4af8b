//! What one event does, with something made of its reply first.
ghost use Rattle.std.specs.Prelude.{◌≡◌, Ok, IfOk};
ghost use Rattle.std.specs.Fn.{FnOnceReturnsAt};
ghost use Rattle.mr_replica.specs.StepThen.{answer_of};

use super::prepare::Prepared;
use super::{Core, Replica};
use crate::{Event, Refusal, Reply};
use mr_forms::Knowledge;
use std::alloc::AllocError;

// The reply, with what is made of it.
fn answered<T: Drop, F: FnOnce(&Reply) -> Result<T, AllocError>>(
    reply: Reply,
    before: F,
) -> Result<(Reply, T), AllocError>
    requires { F.IsAlwaysCallable before }
    ensures reply { IfOk result (λ p. p.0 ≡ reply) }
    ensures made { IfOk result (λ p. FnOnceReturnsAt F.FnOnce before p.0 (Ok p.1)) }
{
    let made = before(&reply)?;
    Ok((reply, made))
}

impl<K: Knowledge> Replica<K> {
    ghost use Rattle.mr_replica.specs.Step.{Steps, IsDecided};

    /// One event, as [`Replica::step`] does it, with something made of its reply first.
    ///
    /// `before` is lent a reply before anything has changed: a host can put it into a frame, or reserve a place
    /// for it. What `before` gives comes back with the reply. Where it finds no memory the event is refused by
    /// `OutOfMemory`, with all as it was. It is no test of the event: it may be called, and what it gave dropped,
    /// where the event is refused after all. So what it keeps for itself may be of a reply that isn't given.
    pub fn step_then<T: Drop, F: FnOnce(&Reply) -> Result<T, AllocError>>(
        &mut self,
        event: Event,
        before: F,
    ) -> Result<(Reply, T), Refusal>
        requires { F.IsAlwaysCallable before }
        ensures steps { Steps K.form self.old event (answer_of result) self.new }
        // Memory aside, answer and new replica are one function of replica and event: a replica that is
        // alike, whatever value its knowledge is, has this answer too, and stays alike.
        ensures decided { IsDecided K.form self.old event (answer_of result) self.new }
        // What came back is what the closure gave for the reply.
        ensures made { IfOk result (λ p. FnOnceReturnsAt F.FnOnce before p.0 (Ok p.1)) }
    {
        self.core.answer_event(event, before)
    }
}

impl<K: Knowledge> Core<K> {
    ghost use Rattle.mr_replica.specs.Step.{Steps};

    // What is prepared of the event is put in once something was made of its reply.
    fn answer_event<T: Drop, F: FnOnce(&Reply) -> Result<T, AllocError>>(
        &mut self,
        event: Event,
        before: F,
    ) -> Result<(Reply, T), Refusal>
        requires { F.IsAlwaysCallable before }
        ensures steps { Steps K.form self.old event (answer_of result) self.new }
        ensures made { IfOk result (λ p. FnOnceReturnsAt F.FnOnce before p.0 (Ok p.1)) }
    {
        let Prepared { reply, change } = self.prepare(&event)?;
        let answer = answered(reply, before)?;
        self.apply(change, event)?;
        Ok(answer)
    }
}
