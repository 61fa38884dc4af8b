//! Histories that were worked out by hand: who does what, what is answered, and which sets the
//! definitions must give after it. Each row is written down in `specs/` and proved here by computing.
//!
//! Four replicas take part. Replica 0 selects all messages, 1 and 3 those of the inbox, 2 those of
//! the inbox and of work. `0 • 1` is version 1 of replica 0. Each row is also shown to be a run, so
//! the rules can be met.

ghost use Rattle.std.specs.Prelude.{[], ◌∷◌};
ghost use Rattle.mr_model.specs.History.{Body.Item, Body.MoveOut, Body.Held, Body.Know, Body.End};
ghost use Rattle.mr_model.specs.History.{Reply.Issued, Reply.Done, Reply.Streaming};
ghost use Rattle.mr_model.specs.History.{Reply.Took, Reply.Offered};
ghost use Rattle.mr_model.specs.declared.event.Act.TheVariants.{Create, Edit, Retire, Receive, Answer, Offer, Release};
ghost use Rattle.mr_model.specs.declared.event.Subscriber.TheVariants.{Notifier};
ghost use Rattle.mr_model.specs.Rows.{inbox, ◌•◌, ◌does◌gives◌, pulls, vouches};
ghost use Rattle.mr_model.specs.SyncRows.{FirstSync, CutAndResumed, MovedOut, Covered};
ghost use Rattle.mr_model.specs.SyncRows.{OldStreamEndsLate, ConflictAndMerge, OlderComesLate};
ghost use Rattle.mr_model.specs.SyncRows.{PassedOn, first_sync, passed_on};
ghost use Rattle.mr_model.specs.StreamRows.{CreatedAhead, EditedWhileStreaming, CreatedBehind};
ghost use Rattle.mr_model.specs.StreamRows.{LearnedLater, HeldTwice, TaughtByItem};
ghost use Rattle.mr_model.specs.StreamRows.{OwnIsSuperseded, WhatTeachesNothing};
ghost use Rattle.mr_model.specs.ReceiptRows.{Released, ReleasedOne, StoreStays, SupersededReleased};
ghost use Rattle.mr_model.specs.ReceiptRows.{CleanRetirement};
ghost use Rattle.mr_model.specs.PortRows.{RetiredAndClosed, SmallPort, ClosedTwice, adds};
ghost use Rattle.mr_model.specs.RefusedRows.{IsRefused, gives_next, two_entries, closed_port};
ghost use Rattle.mr_model.specs.RefusedRows.{two_to_tell};
ghost use Rattle.mr_model.specs.RefusedRows.{pushed_out_only, retired_early, inbox_asked, starts_full};

/// Syncs between replicas that rest while a stream is drawn: a first one; one that is cut and
/// resumed; a version moved out while an older stream waits; one that is covered without a move-out;
/// an old full stream that ends late; a conflict and its merge; an older version that comes late;
/// and a push-out that another replica takes over.
pub fn syncs()
    ensures first_sync { FirstSync }
    ensures cut_and_resumed { CutAndResumed }
    ensures moved_out { MovedOut }
    ensures covered { Covered }
    ensures old_stream { OldStreamEndsLate }
    ensures merge { ConflictAndMerge }
    ensures older_late { OlderComesLate }
    ensures passed_on { PassedOn }
{}

/// Streams whose source changes while they are drawn: a version created ahead of the walk, one
/// created behind it, one edited after it was told; what a stream teaches and shows is read at its
/// Answer and at its first Held record, not later.
pub fn changing_sources()
    ensures created_ahead { CreatedAhead }
    ensures edited { EditedWhileStreaming }
    ensures created_behind { CreatedBehind }
    ensures learned_later { LearnedLater }
    ensures held_twice { HeldTwice }
{}

/// What an Item teaches, what an edit supersedes, and which sessions teach nothing at their end:
/// one with a gap, one that was cut, a partial one, and one that mixes two streams.
pub fn lessons()
    ensures taught_by_item { TaughtByItem }
    ensures own_is_superseded { OwnIsSuperseded }
    ensures teach_nothing { WhatTeachesNothing }
{}

/// Receipts and retirement: a push-out is released against a receipt, another one is not, nor is
/// anything of the store; a receipt for a superseding version will do; a replica retires once its
/// push-outs are gone.
pub fn receipts()
    ensures released { Released }
    ensures released_one { ReleasedOne }
    ensures store_stays { StoreStays }
    ensures superseded_released { SupersededReleased }
    ensures clean_retirement { CleanRetirement }
{}

/// Subscribers: of a replica that is retired and whose port is closed, of one with a small port, and
/// of one whose port is closed twice.
pub fn subscribers()
    ensures retired_and_closed { RetiredAndClosed }
    ensures small_port { SmallPort }
    ensures closed_twice { ClosedTwice }
{}

/// Steps that the rules refuse, each behind a row that they allow.
pub fn refusals()
    ensures skips_a_counter { IsRefused [] (0 does Create inbox gives Issued (0 • 2)) }
    ensures answers_another_event { IsRefused [] (0 does Create inbox gives Done) }
    ensures edits_an_unheld_base { IsRefused two_entries (1 does Edit ((0 • 1) ∷ []) inbox gives Issued (1 • 1)) }
    ensures claims_later_versions { IsRefused two_entries (pulls 1 1 ((0 • 1) ∷ [])) }
    ensures leaves_out_a_due_version { IsRefused two_to_tell (gives_next 1 (Item (0 • 2))) }
    ensures shows_before_the_walk_ends { IsRefused two_to_tell (gives_next 1 Held) }
    ensures teaches_before_it_shows { IsRefused two_to_tell (gives_next 1 Know) }
    ensures ends_before_it_shows { IsRefused two_to_tell (gives_next 1 End) }
    ensures takes_what_it_knows { IsRefused first_sync (1 does Receive 2 gives Took) }
    ensures takes_after_retirement { IsRefused retired_early (1 does Receive 1 gives Took) }
    ensures vouches_for_a_push_out { IsRefused passed_on (vouches 1 (1 • 1)) }
    ensures retires_with_push_outs { IsRefused pushed_out_only (1 does Retire gives Done) }
    ensures skips_an_entry { IsRefused two_entries (0 does Offer Notifier gives Offered (adds 2)) }
    ensures offers_after_close { IsRefused closed_port (0 does Offer Notifier gives Offered (adds 2)) }
    ensures mixes_items { IsRefused two_entries (0 does Edit ((0 • 1) ∷ (0 • 2) ∷ []) inbox gives Issued (0 • 3)) }
    ensures moves_out_what_is_selected { IsRefused two_to_tell (gives_next 1 (MoveOut (0 • 1))) }
    ensures gives_an_index_again { IsRefused two_to_tell (gives_next 0 (Item (0 • 1))) }
    ensures gives_after_the_end { IsRefused first_sync (gives_next 5 Know) }
    ensures answers_its_own_ask { IsRefused two_to_tell (1 does Answer 1 gives Streaming 1) }
    ensures uses_a_stream_number_again { IsRefused two_to_tell (0 does Answer 1 gives Streaming 1) }
    ensures starts_full_without_cover { IsRefused inbox_asked starts_full }
    ensures takes_for_another { IsRefused two_to_tell (2 does Receive 1 gives Took) }
    ensures takes_what_nobody_gave { IsRefused two_entries (1 does Receive 1 gives Took) }
    ensures releases_what_nobody_vouched_for { IsRefused passed_on (1 does Release 1 gives Done) }
{}
