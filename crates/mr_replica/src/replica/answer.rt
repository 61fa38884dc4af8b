//! Answer: a stream is opened for one who asks.
ghost use Rattle.std.specs.Prelude.{◌≡◌, ◌≢◌, None, Some, Err, IsErrOf, IfOk, MatchResult};
ghost use Rattle.mr_replica.specs.StepThen.{answer_by};

use super::parts::Change;
use super::prepare::Prepared;
use super::{Core, Replica};
use crate::pieces::pieces_of;
use crate::{Event, Refusal, Reply};
use mr_forms::{FormFault, Knowledge};
use mr_session::AskedOf;
use mr_wire::{Ask, FrameFragment, Mode};
use std::collections::VecDeque;

impl<K: Knowledge> Replica<K> {
    ghost use Rattle.mr_replica.specs.Step.{Steps};

    /// Opens the next stream for one who asks, and gives its number. It is full where the replica's filter
    /// covers that of the request, and then keeps what is known now; else it is partial. A retired replica
    /// may do so too.
    ///
    /// `OwnAsk`, then `TooManyStreams` where eight are open, then `LogFull`; `TooManyHoles` where the stream is
    /// full and a part of the knowledge has no vector; and `OutOfMemory` last, or in place of a part that has no
    /// vector. A refused event changes nothing.
    pub fn answer(&mut self, ask: Ask) -> Result<u64, Refusal>
        ensures { Steps K.form self.old (Event.Answer ask) (answer_by (λ stream. Reply.Streaming stream) result) self.new }
    {
        match self.step(Event::Answer(ask))? {
            Reply::Streaming(stream) => Ok(stream),
            _ => unreachable!(),
        }
    }
}

/// A stream that is to be opened: the request that it answers, and what it keeps of what is known.
#[derive(Drop)]
pub struct Opening {
    pub asked: AskedOf,
    pub mode: Mode,
    pub know: VecDeque<FrameFragment>,
}

impl<K: Knowledge> Core<K> {
    ghost use Rattle.mr_forms.specs.Known.{AreSame};
    ghost use Rattle.mr_session.specs.Stream.{claimed};
    ghost use Rattle.mr_replica.specs.Fragments.{HasHoleyPart};
    ghost use Rattle.mr_replica.specs.Pieces.{ArePiecesOf};
    ghost use Rattle.mr_replica.specs.Answer.{answer_refusal, mode_for, Keeps, KeepsHoley};
    ghost use Rattle.mr_replica.specs.inner.Prepare.{Prepares, IsOpeningFor};

    pub(crate) fn prepare_answer(&self, ask: &Ask) -> Result<Prepared<K>, Refusal>
        ensures { Prepares K.form self.now (Event.Answer ask.now) result }
    {
        self.check_answer(ask)?;
        let opening = self.opening_for(ask)?;
        let stream = self.parts.streams.opened() + 1;
        Ok(Prepared {
            reply: Reply::Streaming(stream),
            change: Change::OpenStream(opening),
        })
    }

    // The stream that is to be opened for the request.
    fn opening_for(&self, ask: &Ask) -> Result<Opening, FormFault>
        ensures ok { IfOk result (IsOpeningFor K.form self.now ask.now) }
        ensures holes { IsErrOf result FormFault.TooManyHoles → KeepsHoley K.form (mode_for self.now ask.now) self.now.knowledge }
        ensures items { result ≢ Err FormFault.TooManyItems }
    {
        let mode = self.mode_for(ask);
        let know = self.kept_for(mode)?;
        let asked = AskedOf::new(self.alloc, ask)?;
        Ok(Opening { asked, mode, know })
    }

    // Nothing, where a stream may be opened for the request.
    fn check_answer(&self, ask: &Ask) -> Result<(), Refusal>
        ensures { MatchResult result (λ _. answer_refusal self.now ask.now ≡ None) (λ e. answer_refusal self.now ask.now ≡ Some e) }
    {
        if ask.target() == self.parts.id {
            return Err(Refusal::OwnAsk);
        }
        if self.parts.streams.is_full() {
            return Err(Refusal::TooManyStreams);
        }
        self.check_log()
    }

    // Full where the replica selects all that the one who asks does.
    fn mode_for(&self, ask: &Ask) -> Mode
        ensures { result ≡ mode_for self.now ask.now }
    {
        if self.parts.filter.covers(ask.filter()) {
            Mode::Full
        } else {
            Mode::Partial
        }
    }

    // What a stream of this mode keeps of what is known.
    fn kept_for(&self, mode: Mode) -> Result<VecDeque<FrameFragment>, FormFault>
        ensures ok { IfOk result (λ know. Keeps K.form mode self.now.knowledge know.items) }
        ensures holes { IsErrOf result FormFault.TooManyHoles → KeepsHoley K.form mode self.now.knowledge }
        ensures items { result ≢ Err FormFault.TooManyItems }
    {
        match mode {
            Mode::Full => self.pieces(),
            Mode::Partial => Ok(VecDeque::new(self.alloc)),
        }
    }

    // What is known, as frames carry it.
    fn pieces(&self) -> Result<VecDeque<FrameFragment>, FormFault>
        ensures ok { IfOk result (λ pieces. ArePiecesOf (K.form.is_part self.now.knowledge) pieces.items) }
        ensures known { IfOk result (λ pieces. AreSame (K.form.known self.now.knowledge) (claimed pieces.items)) }
        ensures holes { IsErrOf result FormFault.TooManyHoles → HasHoleyPart (K.form.is_part self.now.knowledge) }
        ensures items { result ≢ Err FormFault.TooManyItems }
    {
        let Ok(fragments) = self.parts.knowledge.fragments() else {
            return Err(FormFault::OutOfMemory);
        };
        pieces_of(self.alloc, fragments)
    }
}
