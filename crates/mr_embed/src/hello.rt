//! What two devices tell each other before anything else.
use crate::device::Device;
use crate::fault::Fault;
use mr_entry::{Birth, Note};
use mr_lookup::{highest_counter, knowledge_digest};
use mr_version::{Author, Version};
use std::alloc::Global;

/// The kind of the note that tells whom a device has met.
const MET: u8 = 1;

/// What a device tells another: who it is, whom it has met, and what it knows of the other.
///
/// Here it is handed over as it is; a program that sends it spells it in some bytes of its own.
#[derive(Drop)]
pub struct Hello {
    id: Author,
    /// When its journal was begun.
    birth: Birth,
    /// Its own journal, and those that it has met.
    births: Vec<(Author, Birth)>,
    /// The other's highest version that it knows, if it knows any.
    highest: Vec<Version>,
    /// The digest of all that it knows.
    digest: [u8; 32],
}

/// Two devices meet. It tells whether there is nothing to sync: both know the same.
///
/// `Peer` where one of them is an old copy, or there are two journals of one id: then nothing may be sent or taken.
pub fn greet(alloc: Global, here: &mut Device, there: &mut Device) -> Result<bool, Fault> {
    let mine = told_by(alloc, here, there.replica().id())?;
    let is_same = greet_back(alloc, here, there, &mine);
    drop(mine);
    is_same
}

/// The other tells too, and each hears what it is told.
fn greet_back(
    alloc: Global,
    here: &mut Device,
    there: &mut Device,
    mine: &Hello,
) -> Result<bool, Fault> {
    let theirs = told_by(alloc, there, here.replica().id())?;
    let is_same = mine.digest == theirs.digest;
    let heard = hear(here, there, mine, &theirs);
    drop(theirs);
    heard?;
    Ok(is_same)
}

/// Each hears what the other tells, and remembers it where both may sync.
fn hear(here: &mut Device, there: &mut Device, mine: &Hello, theirs: &Hello) -> Result<(), Fault> {
    check(here, theirs)?;
    check(there, mine)?;
    remember(here, theirs)?;
    remember(there, mine)
}

/// What the device tells one of this id.
pub fn told_by(alloc: Global, device: &Device, other: Author) -> Result<Hello, Fault> {
    let digest = knowledge_digest(alloc, device.replica())?;
    let highest = known_of(alloc, device, other)?;
    let births = journals_of(alloc, device)?;
    Ok(Hello {
        id: device.replica().id(),
        birth: device.birth(),
        births,
        highest,
        digest,
    })
}

/// The journal of the device, and those that it has met.
fn journals_of(alloc: Global, device: &Device) -> Result<Vec<(Author, Birth)>, Fault> {
    let mut births = vec![in alloc; (device.replica().id(), device.birth())]?;
    births.extend_from_slice(device.met())?;
    Ok(births)
}

/// The highest version of this author that the device knows, if it knows any.
fn known_of(alloc: Global, device: &Device, author: Author) -> Result<Vec<Version>, Fault> {
    let mut highest = Vec::new(alloc);
    if let Some(counter) = highest_counter(device.replica(), author)? {
        highest.push(Version::try_new(author, counter)?)?;
    }
    Ok(highest)
}

/// Whether the device may sync with who tells this.
pub fn check(device: &Device, hello: &Hello) -> Result<(), Fault> {
    Ok(device.kept().check_peer(&hello.highest, &hello.births)?)
}

/// Notes that the device has met this one, unless it has before.
fn remember(device: &mut Device, hello: &Hello) -> Result<(), Fault> {
    if device.met().iter().any(|(id, _)| *id == hello.id) {
        return Ok(());
    }
    let birth = hello.birth;
    device.meet(hello.id, birth)
}

/// The note that tells of a journal: the id in two bytes, and the birth.
pub fn note_of(alloc: Global, id: Author, birth: &Birth) -> Result<Note, Fault> {
    let mut bytes = id.id().to_be_bytes().to_vec(alloc)?;
    bytes.extend_from_slice(birth)?;
    Ok(Note::new(MET, bytes))
}

/// The journals that the notes tell of.
pub fn met_in(alloc: Global, notes: &[Note]) -> Result<Vec<(Author, Birth)>, Fault> {
    let mut all = Vec::new(alloc);
    for note in notes {
        if let Some(met) = read_note(note) {
            all.push(met)?;
        }
    }
    Ok(all)
}

/// The journal that a note tells of, if it is such a note.
fn read_note(note: &Note) -> Option<(Author, Birth)> {
    match note.bytes().split_first_chunk::<2>() {
        Some((id, birth)) if note.kind() == MET => {
            let id = Author::try_new(u16::from_be_bytes(*id)).ok()?;
            Some((id, birth.try_into().ok()?))
        }
        _ => None,
    }
}
