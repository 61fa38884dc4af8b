//! Records that are prepared before the stream goes on.
ghost use Rattle.std.specs.Prelude.{◌≡◌, ◌≤◌, ◌<◌, ◌+◌, ◌^◌, ◌||◌, [], is_some, IfOk, IsOk, IsFalse};
ghost use Rattle.std.specs.Option.{option_map};
ghost use Rattle.mr_session.specs.Stream.{is_end, told, due, DrawsKnow, DrawsFirstHeld, DrawsAfterWalk, DrawsWalk, Draws, Gives};
ghost use Rattle.mr_session.specs.Onward.{moved, after_given, is_last, behind_first};
ghost use Rattle.mr_session.specs.Preparing.{is_copied};
ghost use Rattle.mr_session.specs.Session.{is_full_mode};

use super::Outgoing;
use crate::asked::AskedOf;
use crate::due::due;
use crate::held::held_vectors;
use mr_concise::ConciseVector;
use mr_madewith::Revision;
use mr_store::Store;
use mr_version::{Author, Version};
use mr_wire::{Body, Descent, Header, Mode, Record};
use std::alloc::AllocError;
use std::collections::VecDeque;

/// How a stream goes on once the record that it prepared was given.
#[derive(Drop)]
pub enum Onward {
    /// As it is: the record was its Start.
    Same,
    /// Its walk has looked at this version last.
    Past(Version),
    /// The first of its vectors was given, and these are still to give.
    Held(VecDeque<ConciseVector>),
    /// The next of its vectors was given.
    BehindHeld,
    /// The next of its fragments was given.
    BehindKnow,
    /// No further: the record was its End.
    Closed,
}

/// A stream's next record, and how the stream goes on once it was given.
#[derive(Drop)]
pub struct Prepared {
    pub record: Record,
    pub onward: Onward,
}

// What the next record says, and how the stream goes on behind it.
#[derive(Drop)]
struct Saying {
    body: Body,
    onward: Onward,
}

// How the one who asks is told of the revision. It copies a handle, or the vector of what it supersedes.
fn tell(asked: &AskedOf, revision: &Revision) -> Result<Body, AllocError>
    ensures { IfOk result (λ body. body ≡ told asked.now revision.now) }
{
    if asked.selects(revision) {
        return Ok(Body::Item(revision.copy()?));
    }
    let below = revision.below().copy()?;
    let descent = Descent::new(revision.item(), revision.version(), below);
    Ok(Body::MoveOut(descent))
}

impl Outgoing {
    // The first of the vectors of the heads, as they are now.
    fn first_held(&self, store: &Store) -> Result<Saying, AllocError>
        ensures said { IfOk result (λ saying. DrawsFirstHeld self.now store.now saying.body (moved saying.onward self.now)) }
        ensures last { IfOk result (λ saying. is_end saying.body ≡ is_last saying.onward) }
    {
        let mut vectors = held_vectors(self.alloc, store.heads())?;
        match vectors.pop_front() {
            Some(vector) => Ok(Saying {
                body: Body::Held(vector),
                onward: Onward::Held(vectors),
            }),
            None => unreachable!(),
        }
    }

    // A full stream goes on to its Held records once nothing more is due, and a partial one ends.
    fn behind_walk(&self, store: &Store) -> Result<Saying, AllocError>
        ensures said { IfOk result (λ saying. DrawsAfterWalk self.now.mode self.now store.now saying.body (moved saying.onward self.now)) }
        ensures last { IfOk result (λ saying. is_end saying.body ≡ is_last saying.onward) }
        ensures sure { IsFalse (is_full_mode self.now.mode) → IsOk result }
    {
        match self.mode {
            Mode::Full => self.first_held(store),
            Mode::Partial => Ok(Saying {
                body: Body::End,
                onward: Onward::Closed,
            }),
        }
    }

    // The revision that is due, or what comes after the walk.
    fn next_due(&self, store: &Store) -> Result<Saying, AllocError>
        ensures said { IfOk result (λ saying. DrawsWalk (due self.now.asked self.now.past store.now.heads store.now.push_outs) self.now store.now saying.body (moved saying.onward self.now)) }
        ensures last { IfOk result (λ saying. is_end saying.body ≡ is_last saying.onward) }
        ensures sure { IsFalse (is_some (due self.now.asked self.now.past store.now.heads store.now.push_outs) || is_full_mode self.now.mode) → IsOk result }
    {
        match due(&self.asked, &self.past, store) {
            Some(revision) => Ok(Saying {
                body: tell(&self.asked, revision)?,
                onward: Onward::Past(revision.version()),
            }),
            None => self.behind_walk(store),
        }
    }

    // The next fragment, or the end.
    fn next_known(&self) -> Result<Saying, AllocError>
        ensures said { IfOk result (λ saying. DrawsKnow self.now.know self.now saying.body (moved saying.onward self.now)) }
        ensures last { IfOk result (λ saying. is_end saying.body ≡ is_last saying.onward) }
        ensures sure { self.now.know ≡ [] → IsOk result }
    {
        match self.know.front() {
            Some(fragment) => Ok(Saying {
                body: Body::Know(fragment.copy()?),
                onward: Onward::BehindKnow,
            }),
            None => Ok(Saying {
                body: Body::End,
                onward: Onward::Closed,
            }),
        }
    }

    // What the next record says.
    fn next_body(&self, store: &Store) -> Result<Saying, AllocError>
        ensures said { IfOk result (λ saying. Draws self.now store.now saying.body (moved saying.onward self.now)) }
        ensures last { IfOk result (λ saying. is_end saying.body ≡ is_last saying.onward) }
        ensures sure { IsFalse (is_copied self.now store.now) → IsOk result }
    {
        if self.next == 0 {
            return Ok(Saying {
                body: Body::Start(self.mode),
                onward: Onward::Same,
            });
        }
        let Some(vectors) = &self.held else {
            return self.next_due(store);
        };
        match vectors.front() {
            Some(vector) => Ok(Saying {
                body: Body::Held(vector.copy()?),
                onward: Onward::BehindHeld,
            }),
            None => self.next_known(),
        }
    }

    /// The next record of the stream of this number, of what its source holds now, and how the stream goes on
    /// behind it. The stream stays as it is.
    ///
    /// It costs a copy of what the record says: of a revision's handle, or of a vector or a fragment. The first
    /// Held costs a short search for each run of versions of the heads, or a walk over them where one vector has
    /// no room for all. A Start and an End need no memory.
    pub(crate) fn prepare(
        &self,
        source: Author,
        number: u64,
        store: &Store,
    ) -> Result<Prepared, AllocError>
        requires number { 1 ≤ number }
        requires goes_on { self.now.next + 1 < 2 ^ 32 }
        ensures gives { IfOk result (λ prepared. Gives source number self.now store.now prepared.record (after_given prepared.onward self.now)) }
        ensures last { IfOk result (λ prepared. is_end prepared.record.body ≡ is_last prepared.onward) }
        ensures sure { IsFalse (is_copied self.now store.now) → IsOk result }
    {
        let header = Header {
            source,
            stream: number,
            target: self.asked.target(),
            session: self.asked.session(),
            index: self.next,
        };
        let Saying { body, onward } = self.next_body(store)?;
        Ok(Prepared {
            record: Record::new(header, body),
            onward,
        })
    }

    /// The stream goes on behind the record that it prepared. It can't fail.
    pub(crate) fn advance(&mut self, onward: Onward)
        requires { self.old.next + 1 < 2 ^ 32 }
        ensures { self.new ≡ after_given onward self.old }
    {
        self.next += 1;
        match onward {
            Onward::Same | Onward::Closed => {}
            Onward::Past(version) => self.past = Some(version),
            Onward::Held(vectors) => self.held = Some(vectors),
            Onward::BehindHeld => self.pass_held(),
            Onward::BehindKnow => {
                self.know.pop_front();
            }
        }
    }

    // The next of the vectors was given.
    fn pass_held(&mut self)
        ensures { self.new ≡ record self.old { held = option_map behind_first self.old.held } }
    {
        if let Some(vectors) = &mut self.held {
            vectors.pop_front();
        }
    }
}
