//! Receive: a session takes a record of the stream that it asked for.
ghost use Rattle.std.specs.Prelude.{◌≡◌, None, Some, MatchResult};
ghost use Rattle.mr_replica.specs.StepThen.{answer_by};
ghost use Rattle.mr_wire.specs.Frames.{IsSent};

use super::parts::Change;
use super::prepare::Prepared;
use super::{Core, Replica};
use crate::{Event, Refusal, Reply};
use mr_forms::Knowledge;
use mr_wire::{Body, Frame, Record};

/// What came of a record that was taken.
#[derive(Clone, Copy, Debug, PartialEq, Eq)]
pub enum Received {
    /// What it tells was not known.
    Took,
    /// It tells of a version that is known already.
    Known,
    /// It was the stream's last, and its session is closed.
    Finished,
}

impl<K: Knowledge> Replica<K> {
    ghost use Rattle.mr_replica.specs.Step.{Steps};
    ghost use Rattle.mr_replica.specs.Methods.{received_reply};

    /// Lets the open session that a record is for take it, if it is the next of the stream to which the session
    /// is bound, and says what came of it. A known version changes nothing else. An unknown one is learned with
    /// what it supersedes, which leaves the heads and the push-outs, and an item that the replica's filter
    /// selects enters the heads. The end of a full stream teaches what its fragments cover; what these cover
    /// and no held vector has leaves the heads. Either end closes the session.
    ///
    /// `Retired`; then `NotARecord` of another frame, and of a record `NotForMe`, `NoSession`, `NotStart`,
    /// `OtherStream`, `Repeated` or `Gap`, and `Forged`; then `LogFull`. Then `TooManyHoles` or `TooManyItems` by
    /// the first knowledge that has no value; and `OutOfMemory` last, or, at the end of a full stream, in place of
    /// the fault of a fragment behind the first. A refused event changes nothing.
    pub fn receive(&mut self, frame: Frame) -> Result<Received, Refusal>
        ensures { Steps K.form self.old (Event.Receive frame) (answer_by received_reply result) self.new }
    {
        match self.step(Event::Receive(frame))? {
            Reply::Took => Ok(Received::Took),
            Reply::Known => Ok(Received::Known),
            Reply::Finished => Ok(Received::Finished),
            _ => unreachable!(),
        }
    }
}

impl<K: Knowledge> Core<K> {
    ghost use Rattle.mr_replica.specs.Admission.{retired};
    ghost use Rattle.mr_replica.specs.Receive.{session_for, session_refusal, record_refusal};
    ghost use Rattle.mr_replica.specs.inner.Prepare.{Prepares, PreparesLate};

    pub(crate) fn prepare_receive(&self, frame: &Frame) -> Result<Prepared<K>, Refusal>
        ensures { Prepares K.form self.now (Event.Receive frame.now) result }
    {
        self.check_retired()?;
        match frame {
            Frame::Record(sent) => self.prepare_record(sent),
            Frame::Ask(_) => Err(Refusal::NotARecord),
            Frame::Receipt(_) => Err(Refusal::NotARecord),
        }
    }

    fn prepare_record(&self, sent: &Record) -> Result<Prepared<K>, Refusal>
        requires admitted { retired self.now ≡ None }
        ensures { Prepares K.form self.now (Event.Receive (Frame.Record sent.now)) result }
    {
        self.check_record(sent)?;
        self.prepare_taking(sent)
    }

    // The record is to be taken, by what it says.
    #[tactic(auto, using(crate::proofs::Preparing::take_prepared))]
    fn prepare_taking(&self, sent: &Record) -> Result<Prepared<K>, Refusal>
        requires taken { record_refusal self.now sent.now ≡ None }
        requires kept { IsSent sent.now.header sent.now.body }
        ensures { PreparesLate K.form self.now (Event.Receive (Frame.Record sent.now)) result }
    {
        match sent.body() {
            Body::Item(revision) => self.prepare_line(revision.item(), revision.version(), sent),
            Body::MoveOut(descent) => self.prepare_line(descent.item(), descent.version(), sent),
            Body::End => self.prepare_end(sent),
            Body::Start(_) | Body::Held(_) | Body::Know(_) => Ok(Prepared {
                reply: Reply::Took,
                change: Change::Take,
            }),
        }
    }

    // Nothing, where the record is taken.
    fn check_record(&self, sent: &Record) -> Result<(), Refusal>
        ensures refusal { MatchResult result (λ _. record_refusal self.now sent.now ≡ None) (λ e. record_refusal self.now sent.now ≡ Some e) }
        ensures kept { IsSent sent.now.header sent.now.body }
    {
        if sent.header().target != self.parts.id {
            return Err(Refusal::NotForMe);
        }
        self.check_session(sent)?;
        if self.is_forged(sent.body()) {
            return Err(Refusal::Forged);
        }
        self.check_log()
    }

    // Nothing, where the record is the next of an open session.
    fn check_session(&self, sent: &Record) -> Result<(), Refusal>
        ensures { MatchResult result (λ _. session_refusal (session_for self.now sent.now) sent.now ≡ None) (λ e. session_refusal (session_for self.now sent.now) sent.now ≡ Some e) }
    {
        let Some(session) = self.parts.sessions.get(sent.header().session) else {
            return Err(Refusal::NoSession);
        };
        Ok(session.check(sent)?)
    }
}
