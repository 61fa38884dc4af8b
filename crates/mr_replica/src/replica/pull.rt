//! Pull: a session is opened, and a request made for what the replica lacks.
ghost use Rattle.std.specs.Prelude.{◌≡◌, ◌≢◌, None, Some, Err, All, IfOk, IfErr, OnOk, IsErrOf, MatchResult, map};
ghost use Rattle.mr_wire.specs.Values.{AreItems, piece_of};
ghost use Rattle.mr_replica.specs.StepThen.{answer_by};
ghost use Rattle.mr_replica.specs.Pull.{IsLongestWithin};
ghost use Rattle.mr_wire.specs.declared.frame.TheConstants.{MAX_ASKED_BYTES};

use super::parts::Change;
use super::prepare::Prepared;
use super::{Core, Replica};
use crate::{Event, Refusal, Reply};
use mr_concise::ConciseVector;
use mr_forms::{FormFault, Fragment, Knowledge};
use mr_wire::{Ask, FrameFragment, MAX_ASKED_BYTES};
use std::alloc::{AllocError, Global};

impl<K: Knowledge> Replica<K> {
    ghost use Rattle.mr_replica.specs.Step.{Steps};

    /// Opens the next session, and gives the request for it: what the replica selects, and the longest
    /// beginning of its fragments that takes at most 8,000,000 bytes. It costs the fragments of what is known.
    ///
    /// `Retired`, then `TooManySessions` where eight are open, then `LogFull`; `TooManyHoles` where a part of the
    /// knowledge has no vector; and `OutOfMemory` last, or in place of a part that has no vector. A refused
    /// event changes nothing.
    pub fn pull(&mut self) -> Result<Ask, Refusal>
        ensures { Steps K.form self.old Event.Pull (answer_by (λ ask. Reply.Asked ask) result) self.new }
    {
        match self.step(Event::Pull)? {
            Reply::Asked(ask) => Ok(ask),
            _ => unreachable!(),
        }
    }
}

impl<K: Knowledge> Core<K> {
    ghost use Rattle.mr_replica.specs.Fragments.{HasHoleyPart};
    ghost use Rattle.mr_replica.specs.Pull.{pull_refusal, AreAsked, IsAskOf};
    ghost use Rattle.mr_replica.specs.Step.{RefusesLate};
    ghost use Rattle.mr_replica.specs.inner.Prepare.{Prepares};

    pub(crate) fn prepare_pull(&self) -> Result<Prepared<K>, Refusal>
        ensures { Prepares K.form self.now Event.Pull result }
    {
        self.check_pull()?;
        let ask = self.next_ask()?;
        Ok(Prepared {
            reply: Reply::Asked(ask),
            change: Change::OpenSession,
        })
    }

    // Nothing, where a session may be opened.
    fn check_pull(&self) -> Result<(), Refusal>
        ensures { MatchResult result (λ _. pull_refusal self.now ≡ None) (λ e. pull_refusal self.now ≡ Some e) }
    {
        self.check_retired()?;
        if self.parts.sessions.is_full() {
            return Err(Refusal::TooManySessions);
        }
        self.check_log()
    }

    // The request for the next session.
    fn next_ask(&self) -> Result<Ask, Refusal>
        requires { pull_refusal self.now ≡ None }
        ensures ok { IfOk result (IsAskOf K.form self.now) }
        ensures refused { IfErr result (RefusesLate K.form self.now Event.Pull) }
    {
        let asked = self.asked()?;
        let filter = self.parts.filter.copy()?;
        let session = self.parts.sessions.opened() + 1;
        Ok(Ask::new(self.alloc, self.parts.id, session, filter, asked)?)
    }

    // What a request tells of what is known.
    fn asked(&self) -> Result<Vec<FrameFragment>, FormFault>
        ensures ok { IfOk result (λ asked. AreAsked (K.form.is_part self.now.knowledge) (K.form.known self.now.knowledge) asked.items) }
        ensures few { OnOk result (¬ HasHoleyPart (K.form.is_part self.now.knowledge)) }
        ensures holes { IsErrOf result FormFault.TooManyHoles → HasHoleyPart (K.form.is_part self.now.knowledge) }
        ensures items { result ≢ Err FormFault.TooManyItems }
    {
        let fragments = self.fragments()?;
        Ok(first_fitting(self.alloc, fragments)?)
    }
}

// The longest beginning of the fragments that a request may have.
fn first_fitting(
    alloc: Global,
    fragments: Vec<Fragment<ConciseVector>>,
) -> Result<Vec<FrameFragment>, AllocError>
    requires { All (λ fragment. AreItems (piece_of fragment).items) fragments.items }
    ensures { IfOk result (λ asked. IsLongestWithin MAX_ASKED_BYTES (map piece_of fragments.items) asked.items) }
{
    let mut asked = Vec::with_capacity(alloc, fragments.len())?;
    let mut room = MAX_ASKED_BYTES;
    for fragment in fragments {
        let fragment = FrameFragment::new(fragment);
        let len = fragment.encoded_len();
        if room < len {
            return Ok(asked);
        }
        room -= len;
        asked.push(fragment)?;
    }
    Ok(asked)
}
