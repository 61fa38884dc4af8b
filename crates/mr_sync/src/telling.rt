//! What is told in a turn.
ghost use Rattle.std.specs.Prelude.{◌≡◌, IfOk, IfSome, IsSome, IsTrue, is_some};
ghost use Rattle.mr_folder.specs.Tree.{IsUntouched};
ghost use Rattle.mr_talk.specs.Turns.{next_of};
ghost use Rattle.mr_talk.specs.declared.kind.Kind.TheVariants as kind;
ghost use Rattle.mr_sync.specs.inner.Telling.{IsGiven, IsOfKind, IsOpened, IsWantedFile, TellsRevisions};

use crate::fault::SyncFault;
use crate::lists::{PUSH_OUT_BYTES, push_out_list};
use crate::packed::records_message;
use crate::said::{frames_message, keep_and_say};
use crate::sending::{Sending, begin_message, file_message, message_of};
use crate::talk::{Leaving, Talk};
use crate::vouching::vouch_held;
use crate::wants::wants_message;
use mr_compare::Digest;
use mr_folder::{FileTree, read_mail};
use mr_itemset::SparingKnowledge;
use mr_journal::Device;
use mr_kept::Journaled;
use mr_replica::Revision;
use mr_session::AskedOf;
use mr_talk::{Kind, MAX_LIST_BYTES, MAX_PIECE_BYTES, Message, Turn};
use mr_version::ItemId;
use std::alloc::Global;

/// How many records are drawn at a time, and about how many bytes of them: what is kept by one commit.
const BATCH_RECORDS: u32 = 512;

const BATCH_BYTES: u64 = 1_048_576;

/// The most push-outs in a message.
const MOST_PUSH_OUTS: usize = MAX_LIST_BYTES as usize / PUSH_OUT_BYTES;

/// What is said next in this turn, if there is something: nothing that has no place there. Wants and receipts go behind what the other side
/// asked for.
pub(crate) fn next_said<D: Device + Drop, F: FileTree>(
    alloc: Global,
    kept: &mut Journaled<SparingKnowledge, D>,
    files: &mut F,
    talk: &mut Talk,
    turn: Turn,
) -> Result<Option<Message>, SyncFault>
    ensures in_place { IfOk result (λ found. IfSome found (λ message. IsSome (next_of turn message.kind))) }
    ensures untouched { IsTrue F.is_told → IsUntouched F.seen F.may_leave F.moment F.left_since files.old files.new }
{
    if let Some(message) = next_asked_for(alloc, kept, files, &mut talk.leaving, turn)? {
        return Ok(Some(message));
    }
    if has_place(turn, Kind::Wants)
        && let Some(message) = wants_message(alloc, &mut talk.arriving)?
    {
        return Ok(Some(message));
    }
    if !has_place(turn, Kind::Receipts) {
        return Ok(None);
    }
    next_receipts(alloc, kept, files, talk, turn.number())
}

/// Whether a message of this kind has a place in this turn.
fn has_place(turn: Turn, kind: Kind) -> bool
    ensures { result ≡ is_some (next_of turn kind) }
{
    turn.next(kind).is_some()
}

/// What the other side asked for: what is told in the third and the fourth turn, and the files that it wants in the fifth and the sixth, each
/// within its file piece by piece.
fn next_asked_for<D: Device + Drop, F: FileTree>(
    alloc: Global,
    kept: &mut Journaled<SparingKnowledge, D>,
    files: &mut F,
    leaving: &mut Leaving,
    turn: Turn,
) -> Result<Option<Message>, SyncFault>
    ensures in_place { IfOk result (λ found. IfSome found (λ message. IsSome (next_of turn message.kind))) }
    ensures untouched { IsTrue F.is_told → IsUntouched F.seen F.may_leave F.moment F.left_since files.old files.new }
{
    match turn {
        Turn::CallerTells | Turn::CalledTells => next_told(alloc, kept, files, leaving),
        Turn::CallerSettles | Turn::CalledSettles => next_wanted_file(alloc, files, leaving),
        Turn::CallerTellsFile
        | Turn::CalledTellsFile
        | Turn::CallerSettlesFile
        | Turn::CalledSettlesFile => next_of_file(alloc, &mut leaving.sending),
        _ => Ok(None),
    }
}

/// Receipts. What is held here is vouched for once a turn.
fn next_receipts<D: Device + Drop, F: FileTree>(
    alloc: Global,
    kept: &mut Journaled<SparingKnowledge, D>,
    files: &mut F,
    talk: &mut Talk,
    number: u8,
) -> Result<Option<Message>, SyncFault>
    ensures kind { IfOk result (λ found. IfSome found (λ message. message.kind ≡ kind.Receipts)) }
    ensures untouched { IsTrue F.is_told → IsUntouched F.seen F.may_leave F.moment F.left_since files.old files.new }
{
    if talk.vouched_in != number {
        let vouched = vouch_held(alloc, kept, files, &mut talk.waiting)?;
        keep_and_say(alloc, kept, &mut talk.leaving.said)?;
        talk.vouched = talk.vouched.saturating_add(vouched);
        talk.vouched_in = number;
    }
    frames_message(alloc, Kind::Receipts, &mut talk.leaving.said.receipts)
}

/// What the other side asked for: records, each file just before the one that needs it, and behind them the push-outs. So where a talk is
/// cut off, one file at most goes once more.
fn next_told<D: Device + Drop, F: FileTree>(
    alloc: Global,
    kept: &mut Journaled<SparingKnowledge, D>,
    files: &mut F,
    leaving: &mut Leaving,
) -> Result<Option<Message>, SyncFault>
    ensures kind { IfOk result (λ found. IfSome found (λ message. IsGiven message.kind)) }
    ensures untouched { IsTrue F.is_told → IsUntouched F.seen F.may_leave F.moment F.left_since files.old files.new }
{
    draw(alloc, kept, leaving)?;
    if let Some(message) = next_file(alloc, files, leaving)? {
        return Ok(Some(message));
    }
    let most = leaving.said.records_before_file();
    if let Some(message) = records_message(
        alloc,
        &mut leaving.last,
        &mut leaving.said.records,
        most,
    )? {
        return Ok(Some(message));
    }
    let push_outs = kept.replica().push_outs();
    push_outs_message(alloc, push_outs, &mut leaving.push_outs)
}

/// Draws the next records of the stream and keeps that, where none wait to be told. Of the files that they need those stay that the other side
/// may lack.
fn draw<D: Device + Drop>(
    alloc: Global,
    kept: &mut Journaled<SparingKnowledge, D>,
    leaving: &mut Leaving,
) -> Result<(), SyncFault> {
    let Some(number) = leaving.stream else {
        return Ok(());
    };
    if !leaving.said.records.is_empty() {
        return Ok(());
    }
    let is_over = kept.tell(number, BATCH_RECORDS, BATCH_BYTES)?;
    keep_and_say(alloc, kept, &mut leaving.said)?;
    let asked = leaving.asked.as_ref();
    leaving
        .said
        .files
        .retain(|due| !is_known(asked, due.file.item));
    if is_over {
        leaving.stream = None;
    }
    Ok(())
}

/// The next file that the record in front needs, if the store has it whole.
fn next_file<F: FileTree>(
    alloc: Global,
    files: &mut F,
    leaving: &mut Leaving,
) -> Result<Option<Message>, SyncFault>
    ensures kind { IfOk result (λ found. IfSome found (λ message. IsOfKind kind.Whole kind.Begin message.kind)) }
    ensures untouched { IsTrue F.is_told → IsUntouched F.seen F.may_leave F.moment F.left_since files.old files.new }
{
    for _ in 0..leaving.said.files.len() {
        let Some(file) = leaving.said.next_file() else {
            break;
        };
        if let Some(message) = open_file(alloc, files, &file.digest, &mut leaving.sending)? {
            leaving.files = leaving.files.saturating_add(1);
            return Ok(Some(message));
        }
    }
    Ok(None)
}

/// Whether the one who asked claims to know the item's first version: then it has its file, or wants it where it let that go as the mail
/// was gone.
fn is_known(asked: Option<&AskedOf>, item: ItemId) -> bool {
    match asked {
        Some(asked) => asked.knows(item, item.creator()),
        None => false,
    }
}

/// Sends a file, if the store has it whole: in one message where it is small, or as one that is begun.
fn open_file<F: FileTree>(
    alloc: Global,
    files: &mut F,
    digest: &Digest,
    sending: &mut Option<Sending>,
) -> Result<Option<Message>, SyncFault>
    ensures kind { IfOk result (λ found. IfSome found (λ message. IsOfKind kind.Whole kind.Begin message.kind)) }
    ensures told { IfOk result (λ found. IfSome found (λ message. IsOpened digest.now message sending.old sending.new)) }
    ensures untouched { IsTrue F.is_told → IsUntouched F.seen F.may_leave F.moment F.left_since files.old files.new }
{
    let Some(bytes) = read_mail(alloc, files, digest)? else {
        return Ok(None);
    };
    if bytes.len() <= MAX_PIECE_BYTES as usize {
        return Ok(Some(message_of(Kind::Whole, bytes)));
    }
    let message = begin_message(alloc, digest, bytes.len())?;
    *sending = Some(Sending { bytes, told: 0 });
    Ok(Some(message))
}

/// The next file that the other side wants, or that it is missing here; none where it wants no more.
fn next_wanted_file<F: FileTree>(
    alloc: Global,
    files: &mut F,
    leaving: &mut Leaving,
) -> Result<Option<Message>, SyncFault>
    ensures kind { IfOk result (λ found. IfSome found (λ message. IsWantedFile message.kind)) }
    ensures untouched { IsTrue F.is_told → IsUntouched F.seen F.may_leave F.moment F.left_since files.old files.new }
{
    let Some(digest) = leaving.wants.pop_front() else {
        return Ok(None);
    };
    if let Some(message) = open_file(alloc, files, &digest, &mut leaving.sending)? {
        leaving.files = leaving.files.saturating_add(1);
        return Ok(Some(message));
    }
    Ok(Some(missing_message(alloc, &digest)?))
}

/// That a file is missing here.
fn missing_message(alloc: Global, digest: &Digest) -> Result<Message, SyncFault>
    ensures { IfOk result (λ message. (message.kind ≡ kind.Missing) × (message.bytes ≡ digest.now)) }
{
    let mut bytes = Vec::new(alloc);
    bytes.extend_from_slice(digest)?;
    Ok(message_of(Kind::Missing, bytes))
}

/// The next piece of the file that is being sent, or its end, which it is open no more behind; none where none is open.
fn next_of_file(alloc: Global, sending: &mut Option<Sending>) -> Result<Option<Message>, SyncFault>
    ensures { IfOk result (λ found. IfSome found (λ message. IsOfKind kind.Piece kind.End message.kind)) }
{
    let Some(open) = sending else {
        return Ok(None);
    };
    let message = file_message(alloc, open)?;
    if message.kind() == Kind::End {
        *sending = None;
    }
    Ok(Some(message))
}

/// The push-outs behind those that are told, as far as a message has room for them; none where all are told.
fn push_outs_message(
    alloc: Global,
    push_outs: &[Revision],
    told: &mut usize,
) -> Result<Option<Message>, SyncFault>
    ensures kind { IfOk result (λ found. IfSome found (λ message. message.kind ≡ kind.PushOuts)) }
    ensures told { IfOk result (TellsRevisions push_outs.now told.old told.new) }
{
    if *told >= push_outs.len() {
        return Ok(None);
    }
    let size = (push_outs.len() - *told).min(MOST_PUSH_OUTS);
    let upto = *told + size;
    let bytes = push_out_list(alloc, &push_outs[*told..upto])?;
    *told = upto;
    Ok(Some(message_of(Kind::PushOuts, bytes)))
}
