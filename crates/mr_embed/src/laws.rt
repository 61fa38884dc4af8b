//! What the story rests on besides its calls.
use mr_crash::{crashes_are_runs, runs_with_crashes};
use mr_entry::event;
use mr_feed::{PlainPort, first_in_first_out};
use mr_frames::{
    cuts_have_no_effect, fed_bytes_are_frames_and_rest, part_of_a_frame_is_truncated,
    whole_frames_are_given,
};
use mr_itemset::one_normal_form;
use mr_journal::{bytes_stand_for_one_list, no_journal_is_refused};
use mr_mail::{Card, Message};
use mr_wire::{no_spelling_begins_another, one_spelling};

/// Laws of the libraries. Each is a function that does nothing, and its contract is a theorem about any calls: to call
/// it makes the theorem part of this program's proof, and costs nothing when it runs.
pub fn cite_laws() {
    // However a wire cuts the bytes, a reader gives the same frames: those that were sent, whole and in order.
    fed_bytes_are_frames_and_rest();
    cuts_have_no_effect();
    whole_frames_are_given();
    part_of_a_frame_is_truncated();
    // No frame can be taken for another.
    no_spelling_begins_another();
    one_spelling();
    // No event of a log can be taken for another, and no entry of a journal.
    event::no_spelling_begins_another();
    event::one_spelling();
    mr_entry::no_spelling_begins_another();
    mr_entry::one_spelling();
    // A file stands for one list of entries, and none that a journal left is refused.
    bytes_stand_for_one_list();
    no_journal_is_refused();
    // A replica that crashes, and loses what nobody was given, leaves a history of the rules.
    crashes_are_runs::<Message, Card>();
    runs_with_crashes::<Message, Card>();
    // Of each knowledge there is one text, so that it can be compared.
    one_normal_form();
    // What a port gave, and what waits in it, is what was offered.
    first_in_first_out::<PlainPort>();
}
