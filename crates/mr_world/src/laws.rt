//! What holds of every world, over any form of knowledge.
//!
//! The functions compute nothing. Each is a law, whose contract is a theorem.
ghost use Rattle.std.specs.Prelude.{◌≡◌, ◌≢◌, ◌⊎◌, IsTrue, IsFalse, ℕ, List, [], ◌∷◌, ◌++◌, Some, Ok, Err};
ghost use Rattle.mr_filter.specs.Filter.{ClauseParts};
ghost use Rattle.mr_mail.specs.Mail.{Mail, MailCard};
ghost use Rattle.mr_model.specs.History.{◌does◌, History};
ghost use Rattle.mr_model.specs.Moment.{start, known, numbered};
ghost use Rattle.mr_model.specs.Changes.{now};
ghost use Rattle.mr_model.specs.Rules.{In, IsRun, version_in};
ghost use Rattle.mr_model.specs.Versions.{is_issued, item_of};
ghost use Rattle.mr_version.specs.Name.{Name};
ghost use Rattle.mr_session.specs.Stream.{claimed};
ghost use Rattle.mr_wire.specs.Frames.{Question, Sent};
ghost use Rattle.mr_model.specs.Headline.{Headline};
ghost use Rattle.mr_model.specs.declared.event.Act.TheVariants as act;
ghost use Rattle.mr_world.specs.declared.answered.Answered.{Answered};
ghost use Rattle.mr_world.specs.World.{World};
ghost use Rattle.mr_world.specs.Moves.{Moves};
ghost use Rattle.mr_world.specs.Seen.{MailMoment, seen_body, setting_of};
ghost use Rattle.mr_world.specs.Told.{AreOfOneStream, IsToldWhole};
ghost use Rattle.mr_world.specs.Replies.{IsTooLong};
ghost use Rattle.mr_world.specs.Agrees.{Agrees};
ghost use Rattle.mr_world.specs.Runs.{IsFreshWorld, Runs, history, seen_step};
ghost use Rattle.mr_world.specs.ListedItems.{IsGenuine};

use crate::answer::Answer;
use mr_forms::Knowledge;
use mr_replica::{Refusal, Reply};
use mr_wire::{Body, Mode};

/// Every run of a fresh world is a run of the rules, the world agrees with the moment after its
/// history, and the headline holds of that.
pub fn every_world<K: Knowledge>()
    ensures run { (filters : ℕ → List ClauseParts) (w w' : World K) (xs : List Answered) →
        IsFreshWorld K.form filters w → Runs K.form w xs w' → IsRun (setting_of filters) start (history filters xs) }
    ensures agrees { (filters : ℕ → List ClauseParts) (w w' : World K) (xs : List Answered) →
        IsFreshWorld K.form filters w → Runs K.form w xs w' → Agrees K.form filters w' (now (setting_of filters) (history filters xs)) }
    ensures headline { (filters : ℕ → List ClauseParts) (w w' : World K) (xs : List Answered) →
        IsFreshWorld K.form filters w → Runs K.form w xs w' → Headline (setting_of filters) (history filters xs) }
{}

/// A fresh world agrees with the start of a history, and a world that agrees with the moment after a
/// run goes, by any event, to one that agrees with the moment after one step more: its answer is one
/// that the rules allow.
pub fn one_more_event<K: Knowledge>()
    ensures fresh { (filters : ℕ → List ClauseParts) (w : World K) →
        IsFreshWorld K.form filters w → Agrees K.form filters w start }
    ensures run { (filters : ℕ → List ClauseParts) (w w' : World K) (h : History Mail MailCard) (x : Answered) →
        let s = setting_of filters in
        IsRun s start h → Agrees K.form filters w (now s h) → Moves K.form w x.event x.answer w' →
        IsRun s start (h ++ seen_step (now s h) x ∷ []) }
    ensures agrees { (filters : ℕ → List ClauseParts) (w w' : World K) (h : History Mail MailCard) (x : Answered) →
        let s = setting_of filters in
        IsRun s start h → Agrees K.form filters w (now s h) → Moves K.form w x.event x.answer w' →
        Agrees K.form filters w' (now s (h ++ seen_step (now s h) x ∷ [])) }
{}

/// No replica of a world takes a record for forged.
///
/// A fresh world is genuine, and by any event a genuine world that agrees with the moment after a run goes
/// to a genuine one, whose answer is not `Forged`.
pub fn never_forged<K: Knowledge>()
    ensures fresh { (filters : ℕ → List ClauseParts) (w : World K) →
        IsFreshWorld K.form filters w → IsGenuine K.form [] w }
    ensures kept { (filters : ℕ → List ClauseParts) (w w' : World K) (h : History Mail MailCard) (x : Answered) →
        let s = setting_of filters in
        IsRun s start h → Agrees K.form filters w (now s h) → IsGenuine K.form (now s h).issues w → Moves K.form w x.event x.answer w' →
        IsGenuine K.form (now s (h ++ seen_step (now s h) x ∷ [])).issues w' }
    ensures answer { (filters : ℕ → List ClauseParts) (w w' : World K) (h : History Mail MailCard) (x : Answered) →
        let s = setting_of filters in
        IsRun s start h → Agrees K.form filters w (now s h) → IsGenuine K.form (now s h).issues w → Moves K.form w x.event x.answer w' →
        x.answer ≢ Answer.Stepped (Err Refusal.Forged) }
    ensures runs { (filters : ℕ → List ClauseParts) (w w' : World K) (xs : List Answered) (x : Answered) →
        IsFreshWorld K.form filters w → Runs K.form w xs w' → In x xs → x.answer ≢ Answer.Stepped (Err Refusal.Forged) }
{}

/// What the replicas of a world that agrees with a moment reply is what sets say.
///
/// A request claims of the issued versions just those that its replica knows, or leaves some out, since
/// the fragments take more bytes than a request may have. A record's version is answered as known where it
/// is known, and as taken where it is not. A full stream that was given to its End told its source's heads
/// as they were at its first Held record, and its source's knowledge as the stream was opened.
pub fn replies_of_sets<K: Knowledge>()
    ensures asks { (filters : ℕ → List ClauseParts) (w w' : World K) (m : MailMoment) (r : ℕ) (ask : Question) →
        Agrees K.form filters w m → Moves K.form w (r does act.Pull) (Answer.Stepped (Ok (Reply.Asked ask))) w' →
        ((v : Name) → IsTrue (is_issued m.issues v) → claimed ask.fragments (item_of m.issues v) v ≡ known m r v) ⊎ IsTooLong K.form (w.replicas r).knowledge }
    ensures known { (filters : ℕ → List ClauseParts) (w w' : World K) (m : MailMoment) (r n : ℕ) (sent : Sent) (v : Name) →
        Agrees K.form filters w m → Moves K.form w (r does act.Receive n) (Answer.Stepped (Ok Reply.Known)) w' → numbered w.records n ≡ Some sent →
        version_in (seen_body sent.body) ≡ Some v → IsTrue (known m r v) }
    ensures took { (filters : ℕ → List ClauseParts) (w w' : World K) (m : MailMoment) (r n : ℕ) (sent : Sent) (v : Name) →
        Agrees K.form filters w m → Moves K.form w (r does act.Receive n) (Answer.Stepped (Ok Reply.Took)) w' → numbered w.records n ≡ Some sent →
        version_in (seen_body sent.body) ≡ Some v → IsFalse (known m r v) }
    ensures told { (filters : ℕ → List ClauseParts) (w : World K) (m : MailMoment) (end start : Sent) →
        Agrees K.form filters w m → In end w.records → In start w.records → AreOfOneStream end start → end.body ≡ Body.End → start.body ≡ Body.Start Mode.Full →
        IsToldWhole m.issues w.records m.known_at_answer m.held_at_draw end }
{}
