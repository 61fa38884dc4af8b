//! One event in two calls: what it is answered and what it changes is prepared, and then put in.
ghost use Rattle.std.specs.Prelude.{◌≡◌, MatchResult};

use super::Core;
use super::parts::Change;
use crate::{Event, Refusal, Reply};
use mr_forms::Knowledge;
use std::alloc::AllocError;

/// What an event is answered, and what it changes.
#[derive(Drop)]
pub struct Prepared<K> {
    pub reply: Reply,
    pub change: Change<K>,
}

impl<K: Knowledge> Core<K> {
    ghost use Rattle.mr_replica.specs.inner.Prepare.{MayApply, IsChanged, Prepares};

    // What the event is answered and what it changes, or why it is refused.
    pub(crate) fn prepare(&self, event: &Event) -> Result<Prepared<K>, Refusal>
        ensures { Prepares K.form self.now event.now result }
    {
        match event {
            Event::Create(message) => self.prepare_create(message),
            Event::Edit(bases, message) => self.prepare_edit(bases, message),
            Event::Retire => self.prepare_retire(),
            Event::Pull => self.prepare_pull(),
            Event::Receive(frame) => self.prepare_receive(frame),
            Event::CutIn(session) => self.prepare_cut_in(*session),
            Event::Answer(ask) => self.prepare_answer(ask),
            Event::Next(stream) => self.prepare_next(*stream),
            Event::CutOut(stream) => self.prepare_cut_out(*stream),
            Event::Vouch(version) => self.prepare_vouch(*version),
            Event::Release(receipt) => self.prepare_release(receipt),
        }
    }

    // The change is put in, and the event noted; or memory is wanting, and nothing has changed.
    pub(crate) fn apply(&mut self, change: Change<K>, event: Event) -> Result<(), AllocError>
        requires { MayApply K.form self.old change event }
        ensures { MatchResult result (λ _. IsChanged K.form self.old change event self.new) (λ _. self.new ≡ self.old) }
    {
        self.parts.put(change, &event)?;
        self.parts.contents.note_event(event);
        Ok(())
    }
}
