//! What a history of replicas means, and what holds of every history whose answers the rules allow.
//!
//! A history is a list of events, each with its answer: edits, requests, records given and taken,
//! cuts, retirements, entries moved to subscribers, receipts. The definitions in `specs/` say what
//! each of them does to a few sets: what every replica knows, what is in its store, what it holds
//! for others only (its push-outs), and what its feed tells. They speak of sets, relations and whole
//! lists, and of no data structure of a program. `docs/MODEL.md` goes through them in prose.
//!
//! An [`Event`] is a replica and its [`Act`], which a program has too: it is the one enum of what can happen,
//! over any type of messages.
//!
//! The other functions of this crate compute nothing. Each is a law: its contract is a theorem, over any
//! type `M` of messages, any type `C` of cards and any filters. A crate above cites one by a call,
//! which costs nothing:
//!
//! ```text
//! mr_model::every_run::<Message, Card>();
//! ```
//!
//! The smallest history is the empty one: its moment is `start`, every replica knows and stores
//! nothing, and `one_more_step` says how it grows. The module `worked_rows` has histories that were
//! worked out by hand, with the sets that the definitions must give after each.
#![tactic(auto)]

mod event;
pub mod worked_rows;

ghost use Rattle.std.specs.Prelude.{◌≡◌, ℕ, [], ◌∷◌, ◌++◌, IsTrue, Some};
ghost use Rattle.mr_version.specs.Name.{Name};
ghost use Rattle.mr_model.specs.History.{◌does◌, Setting, History, Ask, Record, Step};
ghost use Rattle.mr_model.specs.History.{Reply.Streaming, Reply.Gave};
ghost use Rattle.mr_model.specs.declared.event.Act.TheVariants.{Answer, Next};
ghost use Rattle.mr_model.specs.Moment.{start, Knows};
ghost use Rattle.mr_model.specs.Changes.{Change, happens, change, after_taking, now};
ghost use Rattle.mr_model.specs.Rules.{IsAllowed, IsRun, HasHeld, version_in};
ghost use Rattle.mr_model.specs.Headline.{Headline, IsSoundHolding, LosesNothing};
ghost use Rattle.mr_model.specs.Headline.{RetiresClean, FoldsToStore};
ghost use Rattle.mr_model.specs.Laws.{IsNumbered, IsClosure, IsSupersession, KnowsDownward, Grows};
ghost use Rattle.mr_model.specs.Laws.{IsOrdered, Tells, ChangesNothing, ReadsAnswer, ReadsHeld, WasOpened, WasShown};
ghost use Rattle.mr_model.specs.Check.{Tests, AreSoundTests, is_run};

pub use event::{Act, Bases, Event, Subscriber};

/// The headline, of every run. No version is added to a replica's feed twice; an author's versions of
/// one item are added as they were issued; once the replica has retired its feed stays as it is. What
/// a subscriber took is a prefix of that feed and ends where its port was closed. And a replica that
/// has learned of all versions of an item has in its store just those that its filter selects and
/// that nothing supersedes.
///
/// Beside it, of every run: the holding of each replica is sound, and whatever was issued and is not
/// superseded is held by some replica.
pub fn every_run<M, C>()
    ensures headline { (s : Setting M C) (h : History M C) → IsRun s start h → Headline s h }
    ensures sound { (s : Setting M C) (h : History M C) (r : ℕ) →
        IsRun s start h → IsSoundHolding s (now s h) r }
    ensures no_loss { (s : Setting M C) (h : History M C) →
        IsRun s start h → LosesNothing (now s h) }
{}

/// How a run grows, step by step: a history is a run up to its next step where that is allowed at
/// the moment after it, and the moment after that step is what the step's change makes of this one.
pub fn one_more_step<M, C>()
    ensures run { (s : Setting M C) (h : History M C) (x : Step M C) →
        IsRun s start h → IsAllowed s (now s h) (change (now s h) x) → IsRun s start (h ++ x ∷ []) }
    ensures moment { (s : Setting M C) (h : History M C) (x : Step M C) →
        now s (h ++ x ∷ []) ≡ happens s (now s h) (change (now s h) x) }
{}

/// A retired replica has no push-outs, at any later moment.
pub fn clean_retirement<M, C>()
    ensures no_push_outs { (s : Setting M C) (h : History M C) → IsRun s start h → RetiresClean (now s h) }
{}

/// The fold of a replica's feed is its store: the same versions, each with the card of its message.
pub fn feed_folds<M, C>()
    ensures fold_is_store { (s : Setting M C) (h : History M C) → IsRun s start h → FoldsToStore s (now s h) }
{}

/// What each event tells in a feed: Dropped for each version that left the store, by rising versions,
/// then Added for the one that entered, if any. The list that the definitions sort by version has
/// each issue, once, in that order.
pub fn feed_tells<M, C>()
    ensures order { (s : Setting M C) (h : History M C) →
        IsRun s start h → IsOrdered (now s h).issues }
    ensures step { (s : Setting M C) (h : History M C) (c : Change M C) (r : ℕ) →
        IsRun s start h → IsAllowed s (now s h) c →
        Tells s (now s h) (happens s (now s h) c) r }
{}

/// The counters of an author's versions are 1, 2, 3 and so on without a gap, and the item of an
/// issued version is itself an issued version: the one that created the item.
pub fn numbering<M, C>()
    ensures without_gap { (s : Setting M C) (h : History M C) → IsRun s start h → IsNumbered (now s h).issues }
{}

/// What a version supersedes is the transitive closure of what is replaced at each issue: the least
/// transitive relation that holds wherever one version replaces another.
///
/// It is a strict order on issued versions, never leaves an item, and orders each author's versions
/// of an item as a chain.
pub fn supersession<M, C>()
    ensures closure { (s : Setting M C) (h : History M C) →
        IsRun s start h → IsClosure (now s h).issues }
    ensures order { (s : Setting M C) (h : History M C) →
        IsRun s start h → IsSupersession (now s h).issues }
{}

/// A replica knows issued versions alone, with each all that it supersedes, all that it holds and all
/// that it issued.
pub fn knowledge<M, C>()
    ensures downward { (s : Setting M C) (h : History M C) (r : ℕ) →
        IsRun s start h → KnowsDownward (now s h) r }
{}

/// To take a record of a version that is known changes no set of any replica and no feed: that a
/// taken version is learned with all that it supersedes, known or not, makes no difference then.
pub fn taken_again<M, C>()
    ensures nothing { (s : Setting M C) (h : History M C) (r : ℕ) (x : Record) (w : Name) →
        IsRun s start h → version_in x.body ≡ Some w → Knows (now s h) r w →
        ChangesNothing (now s h) (after_taking s (now s h) r x) }
{}

/// What was issued stays issued, of the same item and superseding the same versions, whatever is
/// issued later; and replicas forget nothing.
pub fn growth<M, C>()
    ensures grows { (s : Setting M C) (before later : History M C) →
        IsRun s start (before ++ later) → Grows (now s before) (now s (before ++ later)) }
{}

/// What a full stream teaches is what its source knew at the Answer that opened the stream, and what
/// it shows as held is what the source stored as the first Held record was drawn, however long ago.
///
/// `at_answer` and `at_draw` say so from those two events on; `opened` and `shown` say that each
/// open stream, and each stream that has shown anything, comes of such an event of the history.
pub fn snapshots<M, C>()
    ensures at_answer { (s : Setting M C) (before later : History M C) (k n t : ℕ) →
        IsRun s start (before ++ record { event = k does Answer n; reply = Streaming t } ∷ later) →
        ReadsAnswer s before later k n t }
    ensures at_draw { (s : Setting M C) (before later : History M C) (k t : ℕ) (x : Record) →
        IsRun s start (before ++ record { event = k does Next t; reply = Gave x } ∷ later) →
        ReadsHeld s before later k t x }
    ensures opened { (s : Setting M C) (h : History M C) (k t : ℕ) (ask : Ask) →
        IsRun s start h → (now s h).ask_of k t ≡ Some ask → WasOpened s h k t }
    ensures shown { (s : Setting M C) (h : History M C) (k t : ℕ) →
        IsRun s start h → HasHeld (now s h).given k t → WasShown s h k t }
{}

/// A history that passes the test `is_run` is a run, where the tests of filters and cards that it is
/// given say yes only where that is so.
pub fn checked_run<M, C>()
    ensures run { (s : Setting M C) (c : Tests C) (h : History M C) →
        AreSoundTests s c → IsTrue (is_run s c start h) → IsRun s start h }
{}
