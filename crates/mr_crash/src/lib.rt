//! What a crash is in the model's histories: for the others it is as if the events that were lost had never happened.
//!
//! A program that keeps its replica in a journal may crash, and lose the replica's last events: those that
//! were not on the disk yet. It gives nothing away before the disk has it, so of the lost events nobody was
//! given anything. [`crashes_are_runs`] says what follows: the history without them is a run too, in which
//! every other replica does what it did and is at the end as it was, and the replica that crashed is as it was
//! before the first event that it lost. [`runs_with_crashes`] says so of any number of crashes, between which
//! all go on: what is left is a run, so that the headline holds of it, and all else that holds of runs.
//!
//! ```text
//! mr_crash::runs_with_crashes::<Message, Card>();
//! ```
//!
//! As the laws of `mr_model`, the functions compute nothing: their contracts are theorems. The module
//! `worked_rows` has crashes that were worked out by hand.
#![tactic(auto)]

pub mod worked_rows;

ghost use Rattle.std.specs.Prelude.{ℕ, ◌++◌};
ghost use Rattle.mr_model.specs.History.{Setting, History};
ghost use Rattle.mr_model.specs.Moment.{start};
ghost use Rattle.mr_model.specs.Rules.{IsRun};
ghost use Rattle.mr_model.specs.Headline.{Headline};
ghost use Rattle.mr_crash.specs.Crash.{NobodyTook, IsLeftOf, HoldsOfCrash, IsWithCrashes};

/// A history in which a replica crashed is a run. Let `r` lose all that it did in `later`, of which nobody
/// took anything: no Ask was answered that it made there, no record taken that it gave, no receipt used.
/// Then there is a history `left` of what the others did in `later`, in the same order. Any such history is a run
/// after `before`, each other replica is at its end as it was, and `r` is as it was after `before`.
///
/// The steps of the others may stand anywhere among those that are lost. In `left` they are the same, but that
/// one may name a frame by a lower number, since lost frames count no more. A replica's subscribers crash with it:
/// what they took in `later` is lost as well, so a program shows them nothing that isn't on the disk.
pub fn crashes_are_runs<M, C>()
    ensures leaves { (s : Setting M C) (before later : History M C) (r : ℕ) →
        IsRun s start (before ++ later) → NobodyTook s before later r →
        (left : History M C) × IsLeftOf s before later r left }
    ensures run { (s : Setting M C) (before later : History M C) (r : ℕ) →
        IsRun s start (before ++ later) → NobodyTook s before later r →
        (left : History M C) → IsLeftOf s before later r left → HoldsOfCrash s before later r left }
{}

/// What is left of a history with crashes, as many as there may be, of whichever replicas, is a run, and so its
/// headline holds. A run is such a history with no crash.
pub fn runs_with_crashes<M, C>()
    ensures run { (s : Setting M C) (h : History M C) → IsWithCrashes s h → IsRun s start h }
    ensures headline { (s : Setting M C) (h : History M C) → IsWithCrashes s h → Headline s h }
    ensures no_crash { (s : Setting M C) (h : History M C) → IsRun s start h → IsWithCrashes s h }
{}
