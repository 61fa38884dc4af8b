//! Records that come.
ghost use Rattle.std.specs.Prelude.{◌≡◌, ◌++◌, ◌||◌, ◌∷◌, ℕ, List, [], All, None, IfOk, IsTrue, MatchResult, OnOk, Some, is_some, map, option_map};
ghost use Rattle.std.specs.Cmp.Lexicographic.{slice_cmp};
ghost use Rattle.std.specs.Ordering.{is_eq, nat_cmp};
ghost use Rattle.mr_folder.specs.Inside.{stored_path};
ghost use Rattle.mr_folder.specs.Tree.{IsUntouched};
ghost use Rattle.mr_kept.specs.Kept.{replica_of};
ghost use Rattle.mr_replica.specs.declared.event.Event.TheVariants as event;
ghost use Rattle.mr_sync.specs.Named.{HasOrListsOf, is_listed};
ghost use Rattle.mr_sync.specs.Taken.{AllStay, AreFrames, GrowsOnlyBy, GrowsOnlyByTheirs, IsRecordOf, TakesNamed, TakesRecordOf};
ghost use Rattle.mr_sync.specs.inner.Taken.{IsNoRecordOf};

use crate::fault::SyncFault;
use crate::named::file_in_frame;
use crate::packed::unpacked_frames;
use crate::said::keep_and_say;
use crate::talk::{Arriving, Talk};
use mr_compare::Digest;
use mr_folder::{FilePath, FileTree};
use mr_itemset::SparingKnowledge;
use mr_journal::Device;
use mr_kept::Journaled;
use mr_replica::Received;
use mr_talk::Hello;
use mr_version::Author;
use mr_wire::{Body, Frame, decode};
use std::alloc::{AllocError, Global};
use std::collections::BTreeSet;

/// How many bytes of records and files may come before the records are kept. Where the program is killed, as much goes once more, and the
/// file that came last.
const UNKEPT_BYTES: u64 = 65_536;

/// The frames that the bytes spell, one after the other, all of them. `Frame` by the first that is none; `OutOfMemory`.
pub(crate) fn frames_in(alloc: Global, bytes: &[u8]) -> Result<Vec<Frame>, SyncFault>
    ensures { IfOk result (λ frames. AreFrames frames.items bytes.now) }
{
    let mut frames = Vec::new(alloc);
    let mut at = 0;
    for _ in 0..bytes.len() {
        if at >= bytes.len() {
            break;
        }
        let (frame, used) = decode(alloc, &bytes[at..])?;
        frames.push(frame)?;
        at += used;
    }
    if at != bytes.len() {
        return Err(SyncFault::OtherFrame);
    }
    Ok(frames)
}

/// Notes which of the files that these frames' records name the store lacks. A record whose mail is gone needs none.
pub(crate) fn note_lacking<F: FileTree>(
    alloc: Global,
    files: &mut F,
    frames: &[Frame],
    lacking: &mut BTreeSet<Digest>,
) -> Result<(), SyncFault>
    ensures named { IsTrue F.is_told → OnOk result (All (HasOrListsOf (F.seen files.new) lacking.new.keys) frames.now) }
    ensures stay { OnOk result (AllStay lacking.old.keys lacking.new.keys) }
    ensures untouched { IsTrue F.is_told → IsUntouched F.seen F.may_leave F.moment F.left_since files.old files.new }
{
    for frame in frames {
        note_file(alloc, files, frame, lacking)?;
    }
    Ok(())
}

/// Notes the file that this frame's record names, if the store lacks it.
fn note_file<F: FileTree>(
    alloc: Global,
    files: &mut F,
    frame: &Frame,
    lacking: &mut BTreeSet<Digest>,
) -> Result<(), SyncFault>
    ensures named { IsTrue F.is_told → OnOk result (HasOrListsOf (F.seen files.new) lacking.new.keys frame.now) }
    ensures stay { OnOk result (AllStay lacking.old.keys lacking.new.keys) }
    ensures untouched { IsTrue F.is_told → IsUntouched F.seen F.may_leave F.moment F.left_since files.old files.new }
{
    let Some(file) = file_in_frame(frame) else {
        return Ok(());
    };
    let digest = file.digest;
    let is_there = has_file(alloc, files, &digest)?;
    if is_there {
        return Ok(());
    }
    list(lacking, digest)?;
    Ok(())
}

/// Puts the digest on the list.
fn list(lacking: &mut BTreeSet<Digest>, digest: Digest) -> Result<(), AllocError>
    ensures { OnOk result ((other : List ℕ) → is_listed lacking.new.keys other
        ≡ (is_listed lacking.old.keys other || is_eq (slice_cmp nat_cmp digest other))) }
{
    lacking.insert(digest)?;
    Ok(())
}

/// Whether the store has a file of this digest.
pub(crate) fn has_file<F: FileTree>(
    alloc: Global,
    files: &mut F,
    digest: &Digest,
) -> Result<bool, SyncFault>
    ensures has { IsTrue F.is_told → IfOk result (λ is. is ≡ is_some (F.seen files.old (stored_path digest.now))) }
    ensures untouched { IsTrue F.is_told → IsUntouched F.seen F.may_leave F.moment F.left_since files.old files.new }
{
    let path = FilePath::stored(alloc, digest)?;
    Ok(files.has(&path)?)
}

/// Has the replica take these records, all of them given by this source. Each that is taken is an event of the log, in their
/// order, whatever comes of those behind it.
///
/// `OtherFrame` at a frame that is no record, `OtherSide` at one that another source gave; else as the replica refuses.
pub(crate) fn take_records<D: Device + Drop>(
    kept: &mut Journaled<SparingKnowledge, D>,
    source: Author,
    frames: Vec<Frame>,
    arriving: &mut Arriving,
) -> Result<(), SyncFault>
    ensures grows { GrowsOnlyBy (TakesRecordOf source) (replica_of kept.old).log (replica_of kept.new).log }
    ensures last { arriving.new.last ≡ arriving.old.last }
    ensures lacking { arriving.new.lacking ≡ arriving.old.lacking }
    ensures all { OnOk result ((replica_of kept.new).log ≡ (replica_of kept.old).log ++ map event.Receive frames.items) }
{
    for frame in frames {
        let is_item = tells_item(&frame);
        let received = take_record(kept, source, frame)?;
        arriving.note(is_item, received);
    }
    Ok(())
}

/// Whether a frame tells a revision.
fn tells_item(frame: &Frame) -> bool {
    match frame {
        Frame::Record(sent) => matches!(sent.body(), Body::Item(_)),
        _ => false,
    }
}

/// Has the replica take a record that this source gave.
fn take_record<D: Device + Drop>(
    kept: &mut Journaled<SparingKnowledge, D>,
    source: Author,
    frame: Frame,
) -> Result<Received, SyncFault>
    ensures grows { GrowsOnlyBy (TakesRecordOf source) (replica_of kept.old).log (replica_of kept.new).log }
    ensures taken { OnOk result ((replica_of kept.new).log ≡ (replica_of kept.old).log ++ event.Receive frame ∷ []) }
{
    check_record(&frame, source)?;
    Ok(kept.receive(frame)?)
}

/// That the frame is a record that this source gave.
fn check_record(frame: &Frame, source: Author) -> Result<(), SyncFault>
    ensures { MatchResult result (λ _. IsRecordOf source frame.now) (IsNoRecordOf source frame.now) }
{
    match frame {
        Frame::Record(sent) => {
            if sent.header().source == source {
                Ok(())
            } else {
                Err(SyncFault::OtherSide)
            }
        }
        Frame::Ask(_) => Err(SyncFault::OtherFrame),
        Frame::Receipt(_) => Err(SyncFault::OtherFrame),
    }
}

/// Takes a message of records of the other side, and keeps that they were taken once much has come. What isn't kept yet is so before anything
/// is sent, and where the line is cut whoever has the folder then may keep it.
pub(crate) fn take_records_message<D: Device + Drop, F: FileTree>(
    alloc: Global,
    kept: &mut Journaled<SparingKnowledge, D>,
    files: &mut F,
    talk: &mut Talk,
    bytes: &[u8],
) -> Result<(), SyncFault>
    ensures taken { OnOk result (TakesNamed F.is_told talk.old.theirs talk.old.arriving.last (replica_of kept.old) bytes.now talk.new.arriving.last (replica_of kept.new) (F.seen files.new) talk.new.arriving.lacking.keys) }
    ensures stay { OnOk result (AllStay talk.old.arriving.lacking.keys talk.new.arriving.lacking.keys) }
    ensures grows { GrowsOnlyByTheirs TakesRecordOf talk.old.theirs (replica_of kept.old).log (replica_of kept.new).log }
    ensures theirs { talk.new.theirs ≡ talk.old.theirs }
    ensures untouched { IsTrue F.is_told → IsUntouched F.seen F.may_leave F.moment F.left_since files.old files.new }
{
    let source = other_side(&talk.theirs)?;
    let frames = unpacked_frames(alloc, &mut talk.arriving.last, bytes)?;
    note_lacking(alloc, files, &frames, &mut talk.arriving.lacking)?;
    talk.arriving.note_bytes(bytes);
    take_records(kept, source, frames, &mut talk.arriving)?;
    keep_much(alloc, kept, talk)
}

/// Keeps what came, where it is much.
fn keep_much<D: Device + Drop>(
    alloc: Global,
    kept: &mut Journaled<SparingKnowledge, D>,
    talk: &mut Talk,
) -> Result<(), SyncFault>
    ensures replica { replica_of kept.new ≡ replica_of kept.old }
    ensures last { talk.new.arriving.last ≡ talk.old.arriving.last }
    ensures lacking { talk.new.arriving.lacking ≡ talk.old.arriving.lacking }
    ensures theirs { talk.new.theirs ≡ talk.old.theirs }
{
    if talk.arriving.unkept < UNKEPT_BYTES {
        return Ok(());
    }
    talk.arriving.unkept = 0;
    keep_and_say(alloc, kept, &mut talk.leaving.said)
}

/// The other side's id. `NotMet` where it hasn't said it.
pub(crate) fn other_side(theirs: &Option<Hello>) -> Result<Author, SyncFault>
    ensures { MatchResult result (λ id. option_map (λ h. h.id) theirs.now ≡ Some id) (λ fault. (fault ≡ SyncFault.NotMet) × (theirs.now ≡ None)) }
{
    match theirs {
        Some(hello) => Ok(hello.id),
        None => Err(SyncFault::NotMet),
    }
}
