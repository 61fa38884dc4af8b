//! What every world keeps, and what holds of it then.
//!
//! The functions compute nothing. Each is a law, whose contract is a theorem.
ghost use Rattle.std.specs.Prelude.{false, List};
ghost use Rattle.mr_forms.specs.Known.{AreSame};
ghost use Rattle.mr_mail.specs.Mail.{Mail};
ghost use Rattle.mr_world.specs.declared.answer.Answer.{Answer};
ghost use Rattle.mr_model.specs.declared.event.Event.{Event};
ghost use Rattle.mr_world.specs.declared.spec.Spec.{Spec};
ghost use Rattle.mr_world.specs.Kept.{WorldView};
ghost use Rattle.mr_world.specs.Made.{IsMadeWorld};
ghost use Rattle.mr_world.specs.Run.{Happens, Leads};
ghost use Rattle.mr_world.specs.Promise.{KeepsRules, Promises};

use mr_forms::Knowledge;

/// A world as it is made keeps the rules, and so it does after each event that happens.
pub fn keeping<K: Knowledge>()
    ensures made { (nothing : K) (specs : List Spec) (w : WorldView K) → AreSame (K.form.known nothing) (λ i v. false) → IsMadeWorld K.form specs w → KeepsRules K.form w }
    ensures happens { (w w' : WorldView K) (e : Event Mail) (answer : Answer) → KeepsRules K.form w → Happens K.form w e answer w' → KeepsRules K.form w' }
    ensures leads { (w w' : WorldView K) (events : List (Event Mail)) → KeepsRules K.form w → Leads K.form w events w' → KeepsRules K.form w' }
{}

/// What holds of a world that keeps the rules.
pub fn promise<K: Knowledge>()
    ensures { (w : WorldView K) → KeepsRules K.form w → Promises K.form w }
{}
