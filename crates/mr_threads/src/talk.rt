//! A sender's talk: it posts a letter at a time, and waits for its answer before the next.
ghost use Rattle.std.specs.Prelude.{◌≡◌, ◌∷◌, ◌++◌, [], true, false, IsTrue, List, Some, OnOk, OnErr, IfErr};
ghost use Rattle.std.specs.Option.{option_copied};
ghost use Rattle.mr_threads.specs.Exchange.{Said, said, letters_said};
ghost use Rattle.mr_threads.specs.Talk.{Says, SaysInPart, HaltsAt, HaltsAmong, SameLanes};
ghost use Rattle.mr_threads.specs.inner.Talk.{HearsOut};

use crate::lanes::{send, take};
use mr_lane::{Post, Tap};
use std::sync::Wait;

/// Why a sender can't go on.
#[derive(Clone, Copy, Debug, PartialEq, Eq, Drop)]
pub enum Halt {
    /// A growth was refused.
    OutOfMemory,
    /// The replies are closed.
    Closed,
    /// An answer that no machine gives to such a letter.
    Strange,
}

/// A sender's post, the tap of its replies, and the replies that it took.
#[derive(Drop)]
pub struct Talk<E, A, R> {
    pub post: Post<E>,
    pub tap: Tap<A, R>,
    pub replies: Vec<A>,
}

impl<E: Drop, A: Drop, R: Wait> Talk<E, A, R> {
    /// Posts a letter, waits for its answer, and keeps it behind the others.
    ///
    /// `OutOfMemory` comes before anything is posted; `Closed` where no answer came.
    pub fn say(&mut self, rt: &R, letter: E) -> Result<(), Halt>
        requires { self.old.post.finished ≡ false }
        ensures ok { OnOk result ((answer : A) × Says self.old (said letter answer ∷ []) self.new) }
        ensures err { IfErr result (λ fault. HaltsAt self.old letter fault self.new) }
        ensures in_turn { OnErr result (SaysInPart self.old self.new) }
        ensures lanes { SameLanes self.old self.new }
    {
        if self.replies.reserve(1).is_err() {
            return Err(Halt::OutOfMemory);
        }
        send(rt, &mut self.post, letter);
        let Some(answer) = take(rt, &mut self.tap) else {
            return Err(Halt::Closed);
        };
        self.replies.push_reserved(answer);
        Ok(())
    }

    /// Posts all letters, in order, each once the one before it was answered. Where one can't be said, those behind it are left.
    pub fn say_all(&mut self, rt: &R, letters: Vec<E>) -> Result<(), Halt>
        requires { self.old.post.finished ≡ false }
        ensures ok { OnOk result ((xs : List (Said E A)) × (letters_said xs ≡ letters.items) × Says self.old xs self.new) }
        ensures err { IfErr result (λ fault. HaltsAmong self.old letters.items fault self.new) }
        ensures in_turn { OnErr result (SaysInPart self.old self.new) }
        ensures lanes { SameLanes self.old self.new }
    {
        for letter in letters {
            self.say(rt, letter)?;
        }
        Ok(())
    }

    /// The reply that was kept last.
    pub fn last_reply(&self) -> Option<&A>
        ensures { (before : List A) (answer : A) → self.now.replies.items ≡ before ++ answer ∷ [] → option_copied result ≡ Some answer }
    {
        self.replies.last()
    }
}

/// Takes replies until they are closed, and keeps them. Says whether memory was found for all.
pub(crate) fn hear_out<E: Drop, A: Drop, R: Wait>(rt: &R, talk: &mut Talk<E, A, R>) -> bool
    ensures heard { IsTrue result → HearsOut talk.old talk.new }
    ensures passed { (rest : List A) × (talk.new.tap.passed ≡ talk.old.tap.passed ++ rest) }
    ensures closed { talk.new.tap.closed ≡ true }
    ensures post { talk.new.post ≡ talk.old.post }
    ensures lanes { SameLanes talk.old talk.new }
{
    let mut whole = true;
    for _ in rt.forever() {
        let Some(answer) = take(rt, &mut talk.tap) else {
            return whole;
        };
        if talk.replies.push(answer).is_err() {
            whole = false;
        }
    }
    unreachable!()
}
