//! How a replica is begun, and brought back.
ghost use Rattle.std.specs.Prelude.{◌≡◌, ◌⊎◌, [], ◌∷◌, ℕ, List, IfErr, IfOk, MatchResult, true};
ghost use Rattle.mr_entry.specs.Head.{HeadParts};
ghost use Rattle.mr_entry.specs.Note.{NoteParts};
ghost use Rattle.mr_entry.specs.declared.entry.Entry.TheVariants as entry;
ghost use Rattle.mr_kept.specs.Beginning.{HasParts, IsBeginFault};
ghost use Rattle.mr_kept.specs.Kept.{IsKept, head_of, leaving, nothing_waits, replica_of};
ghost use Rattle.mr_journal.specs.Format.{StandAlike};
ghost use Rattle.mr_kept.specs.Opening.{Begins, GoesOn, IsOfPlace, Reopens};
ghost use Rattle.mr_kept.specs.Refusing.{IsOpenFault};
ghost use Rattle.mr_kept.specs.Whole.{ComesBack, HasLog, HasLogOf, IsOfMachine};
ghost use Rattle.mr_hosted.specs.Outbox.{file_of, left_since, may_leave};
ghost use Rattle.mr_replica.specs.State.{State, new_state};

use crate::hosted::Hosted;
use crate::outbox::Outbox;
use mr_entry::{Birth, Mark};
use mr_forms::Knowledge;
use mr_kept::{Journaled, OpenFault, Opened, Setup};
use std::alloc::Global;

impl<K: Knowledge> Hosted<K> {
    ghost use Rattle.mr_hosted.specs.Hosted.{IsNew, journaled_of, outbox_of};

    // The one over this, of whose acts none is done.
    fn of(alloc: Global, journaled: Journaled<K, Outbox>) -> Hosted<K>
        ensures journaled { journaled_of result ≡ journaled }
        ensures new { IsNew result }
    {
        Hosted {
            journaled,
            handed_out: Vec::new(alloc),
            done: 0,
            has_failed: false,
        }
    }

    /// Begins a replica in a file that has no byte yet. The faults are those of [`mr_kept::Journaled::begin`]; at one the host does nothing.
    pub fn begin(alloc: Global, setup: Setup) -> Result<Hosted<K>, OpenFault>
        ensures kept { IfOk result (λ h. IsKept file_of may_leave (entry.Head (head_of (journaled_of h)) ∷ []) (journaled_of h)) }
        ensures head { IfOk result (λ h. HasParts setup.id setup.filter setup.event_limit setup.birth setup.mark (head_of (journaled_of h))) }
        ensures fresh { IfOk result (λ h. replica_of (journaled_of h) ≡ new_state setup.id setup.filter setup.event_limit (replica_of (journaled_of h)).knowledge) }
        ensures none_waits { IfOk result (λ h. (nothing_waits (journaled_of h) ≡ true) × (leaving (journaled_of h) ≡ [])) }
        ensures new { IfOk result IsNew }
        ensures fault { IfErr result (IsBeginFault [] setup.id setup.filter setup.event_limit setup.birth setup.mark) }
        // In whichever act the host is killed, the file has nothing, no entry, or a head.
        ensures left { IfOk result (λ h. (c : List ℕ) → left_since (outbox_of h) 0 c → (c ≡ []) ⊎ (StandAlike [] c ⊎ Begins [] c)) }
    {
        let outbox = Outbox::new(alloc, Vec::new(alloc));
        match Journaled::begin(alloc, outbox, setup) {
            Ok(journaled) => Ok(Hosted::of(alloc, journaled)),
            Err((fault, _outbox)) => Err(fault),
        }
    }

    /// Brings back the replica of a file that was synced and then read. The faults are those of [`mr_kept::Journaled::open`]; at one the host does
    /// nothing. A file that a host left, in whichever act, is refused for memory alone, or with `NoReplica` where the host was stopped before its
    /// first act was done: then nothing was told yet, and the file may be begun anew once it is empty.
    pub fn open(
        alloc: Global,
        read: Vec<u8>,
        mark: &Mark,
        birth: Option<Birth>,
    ) -> Result<(Hosted<K>, Opened), OpenFault>
        // The entries of the file are those of a replica and of notes, and once the acts are done it has behind them those that close
        // what was open in that replica.
        ensures reopens { IfOk result (λ r. Reopens K.form file_of may_leave read.items r.1.are_closed r.1.notes.items (journaled_of r.0)) }
        ensures fault { IfErr result (IsOpenFault K.form read.items mark.now birth) }
        ensures whole { (head : HeadParts) (s : State K) (notes : List NoteParts) → HasLogOf K.form read.items head s notes → IsOfPlace head mark.now birth
            → MatchResult result (λ r. ComesBack K.form s r.1.are_closed (replica_of (journaled_of r.0)) × (r.1.notes.items ≡ notes)) (λ e. IsOfMachine e) }
        ensures place { IfOk result (λ r. IsOfPlace (head_of (journaled_of r.0)) mark.now birth) }
        // In whichever act the host is killed, the file is as it was read, or has the same entries, with those that close what was open
        // behind them or without.
        ensures any_moment { IfOk result (λ r. (c : List ℕ) → left_since (outbox_of r.0) 0 c → (c ≡ read.items) ⊎ GoesOn read.items c) }
        // So it is as it was read, or again one that has the log of a replica, and the same notes.
        ensures left { (head : HeadParts) (s : State K) (notes : List NoteParts) → HasLogOf K.form read.items head s notes
            → IfOk result (λ r. (c : List ℕ) → left_since (outbox_of r.0) 0 c → (c ≡ read.items) ⊎ HasLog K.form c head notes) }
        ensures none_waits { IfOk result (λ r. (nothing_waits (journaled_of r.0) ≡ true) × (leaving (journaled_of r.0) ≡ [])) }
        ensures new { IfOk result (λ r. IsNew r.0) }
    {
        match Journaled::open(alloc, Outbox::new(alloc, read), mark, birth) {
            Ok((journaled, opened)) => Ok((Hosted::of(alloc, journaled), opened)),
            Err((fault, _outbox)) => Err(fault),
        }
    }
}
