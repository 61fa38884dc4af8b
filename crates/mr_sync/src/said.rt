//! What is to be said once it is kept.
ghost use Rattle.std.specs.Prelude.{◌≡◌, ◌+◌, ◌++◌, ◌≤◌, ◌∷◌, [], true, IfNone, IfOk, IfSome, OnOk, length};
ghost use Rattle.mr_kept.specs.Kept.{leaving, nothing_waits, replica_of};
ghost use Rattle.mr_talk.specs.Kinds.{limit_of};
ghost use Rattle.mr_sync.specs.inner.Said.{FrontIs, TellsFrames, bytes_of, receipt_frames, record_frames};

use crate::fault::SyncFault;
use crate::named::{NamedFile, file_in, revision_in};
use crate::sending::message_of;
use mr_itemset::SparingKnowledge;
use mr_journal::Device;
use mr_kept::Journaled;
use mr_replica::Reply;
use mr_talk::{Kind, MAX_FRAMES_BYTES, Message};
use mr_wire::{Record, WireFault, encode_receipt, encode_record};
use std::alloc::Global;
use std::collections::VecDeque;

/// A file that a record needs, and how many records were to be said before that one.
#[derive(Clone, Copy, Debug)]
pub(crate) struct DueFile {
    pub(crate) file: NamedFile,
    pub(crate) records_before: usize,
}

/// Frames that are to be said, of what is kept.
#[derive(Drop)]
pub(crate) struct Said {
    pub(crate) records: VecDeque<Vec<u8>>,
    pub(crate) receipts: VecDeque<Vec<u8>>,
    /// The files that these records name and need, in the order of the records.
    pub(crate) files: VecDeque<DueFile>,
    /// How many records were to be said so far.
    pub(crate) records_given: usize,
    /// How many revisions were to be said so far.
    pub(crate) told: u64,
}

impl Said {
    /// Nothing is to be said.
    pub(crate) fn new(alloc: Global) -> Said
        ensures { (result.records.items ≡ []) × (result.receipts.items ≡ []) }
    {
        Said {
            records: VecDeque::new(alloc),
            receipts: VecDeque::new(alloc),
            files: VecDeque::new(alloc),
            records_given: 0,
            told: 0,
        }
    }

    /// How many records are to be said before the next file goes: all of them, where none is to go.
    pub(crate) fn records_before_file(&self) -> usize {
        let said = self.records_given.saturating_sub(self.records.len());
        match self.files.front() {
            Some(due) => due.records_before.saturating_sub(said),
            None => self.records.len(),
        }
    }

    /// Takes the next file out, if the record in front needs it.
    pub(crate) fn next_file(&mut self) -> Option<NamedFile> {
        if self.records_before_file() > 0 {
            return None;
        }
        Some(self.files.pop_front()?.file)
    }
}

/// Keeps all that waits, and has what was held back for it be said, each as its frame, behind what is to be said already.
///
/// `Kept` where it isn't kept; then nothing is said. `OutOfMemory` also where it is kept and there is no memory for the
/// frames: a part of them is lost then, so the talk is to end.
pub(crate) fn keep_and_say<D: Device + Drop>(
    alloc: Global,
    kept: &mut Journaled<SparingKnowledge, D>,
    said: &mut Said,
) -> Result<(), SyncFault>
    ensures all_kept { OnOk result (nothing_waits kept.new ≡ true) }
    ensures replica { replica_of kept.new ≡ replica_of kept.old }
    ensures records { OnOk result (bytes_of said.new.records.items ≡ bytes_of said.old.records.items ++ record_frames (leaving kept.old)) }
    ensures receipts { OnOk result (bytes_of said.new.receipts.items ≡ bytes_of said.old.receipts.items ++ receipt_frames (leaving kept.old)) }
{
    let replies = kept.commit()?;
    say_all(alloc, &replies, said)?;
    Ok(())
}

/// Has the frames of replies be said, behind what is to be said already.
pub(crate) fn say_all(alloc: Global, replies: &[Reply], said: &mut Said) -> Result<(), WireFault>
    ensures records { OnOk result (bytes_of said.new.records.items ≡ bytes_of said.old.records.items ++ record_frames replies.now) }
    ensures receipts { OnOk result (bytes_of said.new.receipts.items ≡ bytes_of said.old.receipts.items ++ receipt_frames replies.now) }
{
    for reply in replies {
        say_one(alloc, reply, said)?;
    }
    Ok(())
}

fn say_one(alloc: Global, reply: &Reply, said: &mut Said) -> Result<(), WireFault>
    ensures records { OnOk result (bytes_of said.new.records.items ≡ bytes_of said.old.records.items ++ record_frames (reply.now ∷ [])) }
    ensures receipts { OnOk result (bytes_of said.new.receipts.items ≡ bytes_of said.old.receipts.items ++ receipt_frames (reply.now ∷ [])) }
{
    match reply {
        Reply::Asked(_) => Ok(()),
        Reply::Gave(record) => {
            note_file(record, said.records_given, &mut said.files, &mut said.told)?;
            said.records_given = said.records_given.saturating_add(1);
            push_frame(&mut said.records, encode_record(alloc, record)?)
        }
        Reply::Vouched(receipt) => push_frame(&mut said.receipts, encode_receipt(alloc, receipt)?),
        Reply::Issued(_) => Ok(()),
        Reply::Done => Ok(()),
        Reply::Streaming(_) => Ok(()),
        Reply::Took => Ok(()),
        Reply::Known => Ok(()),
        Reply::Finished => Ok(()),
    }
}

/// Has a frame be said behind these.
fn push_frame(frames: &mut VecDeque<Vec<u8>>, frame: Vec<u8>) -> Result<(), WireFault>
    ensures { OnOk result (bytes_of frames.new.items ≡ bytes_of frames.old.items ++ frame.items ∷ []) }
{
    frames.push_back(frame)?;
    Ok(())
}

/// Notes the file that a record needs, behind so many records, and counts the revision that it tells.
fn note_file(
    record: &Record,
    records_before: usize,
    files: &mut VecDeque<DueFile>,
    told: &mut u64,
) -> Result<(), WireFault> {
    if revision_in(record).is_some() {
        *told = told.saturating_add(1);
    }
    if let Some(file) = file_in(record) {
        files.push_back(DueFile {
            file,
            records_before,
        })?;
    }
    Ok(())
}

/// A message of the frames in front, as many as it has room for; none where there are no frames. What is told and what is left
/// is what there was.
///
/// `TooLong` where the first frame is longer than a message.
pub(crate) fn frames_message(
    alloc: Global,
    kind: Kind,
    frames: &mut VecDeque<Vec<u8>>,
) -> Result<Option<Message>, SyncFault>
    requires { MAX_FRAMES_BYTES ≤ limit_of kind }
    ensures kind { IfOk result (λ found. IfSome found (λ message. message.kind ≡ kind)) }
    ensures told { IfOk result (TellsFrames frames.old.items frames.new.items) }
{
    if frames.is_empty() {
        return Ok(None);
    }
    let bytes = front_frames(alloc, frames)?;
    if bytes.is_empty() {
        return Err(SyncFault::TooLong);
    }
    Ok(Some(message_of(kind, bytes)))
}

/// The frames in front, as many as a message has room for.
fn front_frames(alloc: Global, frames: &mut VecDeque<Vec<u8>>) -> Result<Vec<u8>, SyncFault>
    ensures short { IfOk result (λ bytes. length bytes.items ≤ MAX_FRAMES_BYTES) }
    ensures told { IfOk result (λ bytes. FrontIs frames.old.items bytes.items frames.new.items) }
{
    let mut bytes = Vec::new(alloc);
    for _ in 0..frames.len() {
        let Some(frame) = next_frame(frames, 0, MAX_FRAMES_BYTES as usize - bytes.len()) else {
            break;
        };
        bytes.extend_from_slice(&frame)?;
    }
    Ok(bytes)
}

/// The first frame, which leaves the others, if there is one and so much room has place for it and so many bytes more.
pub(crate) fn next_frame(
    frames: &mut VecDeque<Vec<u8>>,
    more: usize,
    room: usize,
) -> Option<Vec<u8>>
    ensures first { IfSome result (λ frame. frames.old.items ≡ frame ∷ frames.new.items) }
    ensures short { IfSome result (λ frame. length frame.items + more ≤ room) }
    ensures none { IfNone result (frames.new.items ≡ frames.old.items) }
{
    let most = room.checked_sub(more)?;
    let size = frames.front()?.len();
    if size > most {
        return None;
    }
    frames.pop_front()
}
