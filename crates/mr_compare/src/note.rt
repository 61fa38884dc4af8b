//! What an open folder notes in its journal, beside the events.
//!
//! Numbers are big-endian, and a version is its author and its counter, as in frames. A note is read back as it was
//! written. One of another kind, or with other bytes behind its kind, is none of these.
ghost use Rattle.std.specs.Prelude.{◌≡◌, ◌<◌, ◌^◌, ◌++◌, All, IfOk, IfSome, IsOk, None, OnOk, Some, length, option_map};
ghost use Rattle.std.specs.List.{flat_map};
ghost use Rattle.mr_wire.specs.Grammar.{IsItem};
ghost use Rattle.mr_wire.specs.Parts.{author_at};
ghost use Rattle.mr_wire.specs.Reading.{Finds, Gives, as_at, bytes_at, number_at};
ghost use Rattle.mr_wire.specs.Prefixed.{whole_at};
ghost use Rattle.mr_wire.specs.Spelling.{name_bytes};
ghost use Rattle.std.specs.Int.{w16};
ghost use Rattle.mr_compare.specs.declared.note.FolderNote.TheVariants as note;
ghost use Rattle.mr_compare.specs.declared.note.FolderNote.{FolderNote};
ghost use Rattle.mr_compare.specs.Note.{shown_bytes, meeting_bytes, note_kind, IsShown, IsMeeting, Spells};
ghost use Rattle.mr_compare.specs.NoteParts.{note_read, shown_at, meeting_at, items_run};
ghost use Rattle.mr_compare.specs.inner.NoteParts.{FindsNote, FindsWhole, HasItems, IsKept};

use crate::held::Digest;
use mr_version::{Author, ItemId};
use mr_wire::parts::{Input, keep, put_u32, put_u64, put_version, room};
use std::alloc::{AllocError, Global};
use std::marker::Model;

/// The kind of a note of what is shown.
pub const SHOWN_KIND: u8 = 1;

/// The kind of a note of a meeting.
pub const MEETING_KIND: u8 = 2;

/// The bytes of an item in a note.
const ITEM_BYTES: usize = 6;

/// How far the Maildir shows the replica's feed.
#[derive(Debug, Drop)]
pub struct Shown {
    entries: u64,
    lacking: Vec<ItemId>,
}

impl Model for Shown {
    ghost use Rattle.std.specs.Prelude.{◌<◌, ◌^◌, length};
    ghost use Rattle.mr_compare.specs.Shown.{ShownParts};

    ghost Value = { ShownParts };

    ghost view = { λ s. record { entries = s.entries; lacking = s.lacking.items } };

    ghost invariant = { λ s. (s.entries < 2 ^ 64) × (length s.lacking.items < 2 ^ 32) };
}

impl Shown {
    /// That so many entries are shown, but for these items, whose files aren't here yet: fewer than 2^32.
    pub fn new(entries: u64, lacking: Vec<ItemId>) -> Shown
        requires { length lacking.items < 2 ^ 32 }
        ensures { result ≡ record { entries = entries; lacking = lacking.items } }
    {
        Shown { entries, lacking }
    }

    /// How many of the feed's entries are shown.
    pub fn entries(&self) -> u64
        ensures { result ≡ self.now.entries }
    {
        self.entries
    }

    /// The items of these entries whose files aren't here yet.
    pub fn lacking(&self) -> &[ItemId]
        ensures { result.now ≡ self.now.lacking }
    {
        &self.lacking
    }
}

/// A replica with which a sync came to its end, and what both knew then.
#[derive(Clone, Copy, Debug)]
pub struct Meeting {
    /// The other replica.
    pub id: Author,
    /// What was drawn when its journal was begun.
    pub birth: [u8; 16],
    /// The digest of what this replica knew.
    pub mine: Digest,
    /// The digest of what the other one knew.
    pub theirs: Digest,
    /// When it was, in seconds since 1970.
    pub time: u64,
}

/// A note of an open folder.
#[derive(Debug, Drop)]
pub enum FolderNote {
    /// How far the Maildir shows the feed.
    Shown(Shown),
    /// With whom a sync came to its end.
    Met(Meeting),
}

impl FolderNote {
    /// The kind byte that the note is kept with.
    pub fn kind(&self) -> u8
        ensures { result ≡ note_kind self.now }
    {
        match self {
            FolderNote::Shown(_) => SHOWN_KIND,
            FolderNote::Met(_) => MEETING_KIND,
        }
    }

    /// The bytes behind the kind.
    pub fn write(&self, alloc: Global) -> Result<Vec<u8>, AllocError>
        ensures { IfOk result (λ bytes. Spells self.now (note_kind self.now) bytes.items) }
    {
        match self {
            FolderNote::Shown(shown) => shown_written(alloc, shown),
            FolderNote::Met(meeting) => meeting_written(alloc, meeting),
        }
    }
}

fn shown_written(alloc: Global, shown: &Shown) -> Result<Vec<u8>, AllocError>
    ensures written { IfOk result (λ bytes. bytes.items ≡ shown_bytes shown.now) }
    ensures in_grammar { IsOk result → IsShown shown.now }
{
    let lacking = shown.lacking();
    let mut out = Vec::new(alloc);
    put_u64(&mut out, shown.entries)?;
    put_u32(&mut out, lacking.len() as u32)?;
    put_items(&mut out, lacking)?;
    Ok(out)
}

fn put_items(out: &mut Vec<u8>, items: &[ItemId]) -> Result<(), AllocError>
    ensures written { OnOk result (out.new.items ≡ out.old.items ++ flat_map name_bytes items.now) }
    ensures in_grammar { OnOk result (All IsItem items.now) }
{
    for item in items {
        put_version(out, item.creator())?;
    }
    Ok(())
}

fn meeting_written(alloc: Global, meeting: &Meeting) -> Result<Vec<u8>, AllocError>
    ensures written { IfOk result (λ bytes. bytes.items ≡ meeting_bytes meeting.now) }
    ensures in_grammar { IsOk result → IsMeeting meeting.now }
{
    let mut out = Vec::new(alloc);
    out.extend_from_slice(&meeting.id.id().to_be_bytes())?;
    out.extend_from_slice(&meeting.birth)?;
    out.extend_from_slice(&meeting.mine)?;
    out.extend_from_slice(&meeting.theirs)?;
    put_u64(&mut out, meeting.time)?;
    Ok(out)
}

/// The note of this kind that the bytes are; none where they are none that a folder keeps.
pub fn read_note(alloc: Global, kind: u8, bytes: &[u8]) -> Result<Option<FolderNote>, AllocError>
    ensures value { IfOk result (λ found. found ≡ note_read kind bytes.now) }
    ensures written { IfOk result (λ found. IfSome found (λ note. Spells note kind bytes.now)) }
    ensures whole { (note : FolderNote) → Spells note kind bytes.now → IfOk result (λ found. found ≡ Some note) }
{
    kept_note(note_in(alloc, kind, bytes))
}

/// What was found, unless memory ran out for it.
fn kept_note(found: Option<Option<FolderNote>>) -> Result<Option<FolderNote>, AllocError>
    ensures { IfOk result (λ kept. IsKept found kept) }
{
    match found {
        None => Ok(None),
        Some(None) => Err(AllocError),
        Some(Some(note)) => Ok(Some(note)),
    }
}

/// The note of this kind that the bytes are, all of them; kept where there is memory for it.
fn note_in(alloc: Global, kind: u8, bytes: &[u8]) -> Option<Option<FolderNote>>
    ensures { FindsNote kind bytes.now result }
{
    match kind {
        SHOWN_KIND => shown_note(alloc, bytes),
        MEETING_KIND => meeting_note(bytes),
        _ => None,
    }
}

fn shown_note(alloc: Global, bytes: &[u8]) -> Option<Option<FolderNote>>
    ensures { FindsWhole (whole_at (as_at note.Shown shown_at) bytes.now) result }
{
    let mut input = Input::new(bytes);
    let shown = shown_in(&mut input, Some(alloc))?;
    if input.len() != 0 {
        return None;
    }
    Some(as_note(shown))
}

/// What is shown, as a note.
fn as_note(shown: Option<Shown>) -> Option<FolderNote>
    ensures { result ≡ option_map note.Shown shown }
{
    match shown {
        Some(shown) => Some(FolderNote::Shown(shown)),
        None => None,
    }
}

fn meeting_note(bytes: &[u8]) -> Option<Option<FolderNote>>
    ensures { FindsWhole (whole_at (as_at note.Met meeting_at) bytes.now) result }
{
    let mut input = Input::new(bytes);
    let meeting = meeting_in(&mut input)?;
    if input.len() != 0 {
        return None;
    }
    Some(Some(FolderNote::Met(meeting)))
}

/// How many entries are shown, a count of items, and so many items.
fn shown_in(input: &mut Input<'_>, memory: Option<Global>) -> Option<Option<Shown>>
    ensures { Finds (λ s. s) shown_at input.old result input.new }
{
    let entries = input.u64()?;
    let count = input.u32()?;
    let lacking = item_run(input, memory, count)?;
    Some(shown_of(entries, lacking))
}

/// What is shown, where the items are kept.
fn shown_of(entries: u64, lacking: Option<Vec<ItemId>>) -> Option<Shown>
    requires { IfSome lacking (λ v. length v.items < 2 ^ 32) }
    ensures { IfSome result (λ s. HasItems lacking (λ items. s ≡ record { entries = entries; lacking = items })) }
{
    Some(Shown::new(entries, lacking?))
}

/// So many items.
fn item_run(
    input: &mut Input<'_>,
    memory: Option<Global>,
    count: u32,
) -> Option<Option<Vec<ItemId>>>
    ensures { Finds (λ v. v.items) (items_run count) input.old result input.new }
{
    let most = input.len() / ITEM_BYTES;
    let mut items = room(memory, most.min(count as usize));
    for _ in 0..count {
        let version = input.version()?;
        keep(&mut items, Some(ItemId::new(version)));
    }
    Some(items)
}

/// An id, a birth, two digests and a time.
fn meeting_in(input: &mut Input<'_>) -> Option<Meeting>
    ensures { Gives meeting_at input.old result input.new }
{
    let id = author(input)?;
    let birth = birth(input)?;
    let mine = digest(input)?;
    let theirs = digest(input)?;
    let time = input.u64()?;
    Some(Meeting {
        id,
        birth,
        mine,
        theirs,
        time,
    })
}

/// A number of two bytes.
fn short_number(input: &mut Input<'_>) -> Option<u16>
    ensures { Gives (number_at w16) input.old result input.new }
{
    let front = input.bytes(2)?;
    Some(u16::from_be_bytes([front[0], front[1]]))
}

fn author(input: &mut Input<'_>) -> Option<Author>
    ensures { Gives author_at input.old result input.new }
{
    let id = short_number(input)?;
    Author::try_new(id).ok()
}

fn birth(input: &mut Input<'_>) -> Option<[u8; 16]>
    ensures { Gives (bytes_at 16) input.old result input.new }
{
    let front = input.bytes(16)?;
    let mut birth = [0u8; 16];
    birth.copy_from_slice(front);
    Some(birth)
}

fn digest(input: &mut Input<'_>) -> Option<Digest>
    ensures { Gives (bytes_at 32) input.old result input.new }
{
    let front = input.bytes(32)?;
    let mut digest = [0u8; 32];
    digest.copy_from_slice(front);
    Some(digest)
}
