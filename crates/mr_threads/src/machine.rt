//! What a core runs.
ghost use Rattle.std.specs.Prelude.{◌≡◌, ◌++◌, List};
ghost use Rattle.mr_feed.specs.declared.entry.Entry.{Entry};

use mr_feed::Entry;

/// Takes letters one at a time, answers each, and tells what happened in a feed that only grows.
pub trait Machine<E, A> {
    /// A letter and its answer lead from one state to another.
    ghost steps: { Self → E → A → Self → Type 0 };

    /// What the feed has in it.
    ghost feed_of: { Self → List Entry };

    /// Takes a letter, and answers it.
    fn take(&mut self, letter: E) -> A
        ensures { steps self.old letter result self.new };

    /// The feed so far.
    fn feed(&self) -> &[Entry]
        ensures { result.now ≡ feed_of self.now };

    /// A step only adds to the feed.
    ghost feed_grows: { (s : Self) (letter : E) (answer : A) (t : Self) → steps s letter answer t → (more : List Entry) × (feed_of t ≡ feed_of s ++ more) };
}
