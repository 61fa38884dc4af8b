//! Laws of spellings and of whole streams, for the layers above: whatever calls a reader gets, and whatever they answer.
ghost use Rattle.std.specs.Prelude.{◌≡◌, ◌≢◌, ◌≤◌, ◌++◌, ◌∷◌, ℕ, List, [], Option, Some, Err, count_by};
ghost use Rattle.mr_talk.specs.declared.fault.MessageFault.TheVariants.{Truncated};
ghost use Rattle.mr_talk.specs.Said.{Said, IsMessage, message_bytes};
ghost use Rattle.mr_talk.specs.Messages.{decoded};
ghost use Rattle.mr_talk.specs.Stream.{AreMessages};
ghost use Rattle.mr_talk.specs.declared.kind.Kind.{Kind};
ghost use Rattle.mr_talk.specs.declared.turn.Role.TheVariants.{Caller, Called};
ghost use Rattle.mr_talk.specs.declared.turn.Turn.{Turn};
ghost use Rattle.mr_talk.specs.declared.turn.Turn.TheVariants.{CallerGreets};
ghost use Rattle.mr_talk.specs.Grammar.{IsWholeTalk};
ghost use Rattle.mr_talk.specs.Turns.{IsTalk, Leads, sender_of};
ghost use Rattle.mr_talk.specs.Packed.{Unpacks};
ghost use Rattle.mr_talk.specs.World.{Agree, Event, after, ends_turn, start};
ghost use Rattle.mr_talk.specs.Calls.{AreAlike, Call, ComesTo, IsDrained, Runs, fed, given, told};

/// No spelling of a message begins another one's, and messages of one spelling are one.
pub fn no_spelling_begins_another()
    ensures { (m other : Said) (x y : List ℕ) → IsMessage m → IsMessage other
        → message_bytes m ++ x ≡ message_bytes other ++ y → (m ≡ other) × (x ≡ y) }
{}

/// What was fed to a reader is the spellings of the messages that it gave, in their order, and then its rest. It tells at
/// most one fault, which is that of the rest.
pub fn fed_bytes_are_messages_and_rest()
    ensures { (calls : List Call) (state : Option (List ℕ)) → Runs (Some []) calls state
        → ComesTo (fed calls) (given calls) (told calls) state }
{}

/// Two readers that were fed the same bytes, in whatever pieces, and were asked until they had nothing more to give, gave
/// the same messages, told the same fault if any, and have the same rest.
pub fn cuts_have_no_effect()
    ensures { (calls others : List Call) (state other : Option (List ℕ)) → Runs (Some []) calls state
        → Runs (Some []) others other → fed calls ≡ fed others → IsDrained state → IsDrained other
        → AreAlike calls others state other }
{}

/// A reader that was fed the spellings of messages and then a part of one, and was asked until it had nothing more to
/// give, gave just these messages and has that part.
pub fn whole_messages_are_given()
    ensures { (calls : List Call) (state : Option (List ℕ)) (messages : List Said) (rest : List ℕ)
        → Runs (Some []) calls state → IsDrained state → AreMessages (fed calls) messages rest
        → decoded rest ≡ Err Truncated → (given calls ≡ messages) × (state ≡ Some rest) }
{}

/// A spelling of a message that lacks its end is truncated, and not a message or another fault.
pub fn part_of_a_message_is_truncated()
    ensures { (m : Said) (part more : List ℕ) → IsMessage m → message_bytes m ≡ part ++ more → more ≢ []
        → decoded part ≡ Err Truncated }
{}

/// A talk has at most seven turns: behind the caller's hello at most six messages end one.
pub fn seven_turns_at_most()
    ensures { (kinds : List Kind) (end : Turn) → Leads CallerGreets kinds end → count_by ends_turn kinds ≤ 6 }
{}

/// Nothing stands behind a whole talk, so whoever has sent or received all of it stops there.
pub fn nothing_behind_a_talk()
    ensures { (kinds : List Kind) (kind : Kind) (more : List Kind) (end : Turn) → IsTalk kinds
        → Leads CallerGreets (kinds ++ kind ∷ more) end → ⊥ }
{}

/// Whatever the two sides send and receive, in whatever order: at most one of them may send, and what is on its way to the
/// other leads that one to the same state. Where nothing is on its way, both are in one state: they stop in the same turn.
pub fn both_sides_agree()
    ensures agree { (events : List Event) → Agree (after events start) }
    ensures one_sends { (events : List Event) → sender_of (after events start).caller ≡ Some Caller
        → sender_of (after events start).called ≡ Some Called → ⊥ }
    ensures same_at_end { (events : List Event) → (after events start).to_called ≡ [] → (after events start).to_caller ≡ []
        → (after events start).caller ≡ (after events start).called }
{}

/// The states accept just the talks: those of the grammar, which tells turn by turn what may be said.
pub fn accepted_talks_are_talks()
    ensures accepted { (kinds : List Kind) → IsTalk kinds → IsWholeTalk kinds }
    ensures talks { (kinds : List Kind) → IsWholeTalk kinds → IsTalk kinds }
{}

/// Packed frames behind others are packed frames: those of both, where the second ones were packed behind the last of the first.
pub fn packed_behind_packed()
    ensures none { (before : List ℕ) → Unpacks before [] [] before }
    ensures more { (before x f mid y g after : List ℕ) → Unpacks before x f mid → Unpacks mid y g after → Unpacks before (x ++ y) (f ++ g) after }
{}
