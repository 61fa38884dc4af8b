//! Scenes, line by line.
//!
//! D and E are disks by name, NAME is a file, and HEX are bytes in hexadecimal digits.
//!
//! ```text
//! scene TITLE               all is new from here on
//! disk D [HEX]              a disk in memory, with these bytes
//! copy D E                  disk E in memory, with the bytes that D has now
//! file D NAME               a disk in a file, which is made where there is none
//! add NAME HEX              bytes behind those of a file
//! length NAME               how many bytes it has
//! remove NAME               there is no such file any more
//!
//! stop D N                  what is open there is gone, and the disk fails after N steps: a byte, a cut and a sync are one each
//! room D N                  ... has room for N bytes
//! append D HEX              ... has these bytes behind its own
//! cut D N                   ... has N bytes left
//! flip D N BITS             ... has byte N changed by these bits
//! crash D written           ... has what a crash leaves of it: all that was written, what was `synced`, the length but `zeros` behind
//!                           the old end, or each second byte, `mixed`
//! close D                   what is open there ends, and gives the disk back
//! bytes D                   the bytes
//! same D E                  whether two disks have the same
//! calls D                   how often it was called since it is there
//!
//! open D                    a journal, its entries and its end
//! commit D ENTRY..          a batch: an entry is a word, `-` for the empty one, or `#HEX`
//!
//! begin D ID LIMIT MARK BIRTH FILTER    a replica begins there; of a mark and a birth each byte is this one
//! back D MARK [BIRTH]       it comes back: what it holds, and its notes
//! create D SUBJECT [LABEL]  edit D VERSION SUBJECT [LABEL]  pull D  next D STREAM [COUNT]  vouch D VERSION  retire D
//! cutin D SESSION  cutout D STREAM      it is asked this
//! note D KIND TEXT          a note waits
//! keep D                    it keeps what waits: what it hands out, versions, and letters by their numbers
//! give D N                  letter N is given to it
//! tell D                    what it holds
//! peer D VERSION [ID:BIRTH ..]          whether another that knows this goes with it
//! phone ID LIMIT FILTER     a replica that isn't kept
//! sync D [N]                the phone asks D, and takes at most N records
//! ```
//!
//! A line of `sweep.rt` does other lines many times, each time from what is there now.
use crate::keeper::{Keeper, Taker};
use crate::letters::Letter;
use crate::slot::Slot;
use crate::words::split_word;
use crate::{disks, events, journals, kept, letters, paths, phone};
use anyhow::Result;
use std::alloc::Global;
use std::fs::File;
use std::rt::Files;

/// A scene over a form of knowledge.
#[derive(Drop)]
pub struct Scene<J, P> {
    /// The disks, and what is open on them.
    pub slots: Vec<Slot<J>>,
    /// What was handed out.
    pub letters: Vec<Letter>,
    /// A replica that isn't kept.
    pub phone: Option<P>,
}

impl<J, P> Scene<J, P> {
    /// Before its first line.
    pub fn new(alloc: Global) -> Scene<J, P> {
        Scene {
            slots: Vec::new(alloc),
            letters: Vec::new(alloc),
            phone: None,
        }
    }
}

/// Does a line, and gives what it prints.
pub fn do_line<J: Keeper, P: Taker, R: Files<File = File> + AllocGlobal>(
    rt: &R,
    scene: &mut Scene<J, P>,
    line: &str,
) -> Result<String> {
    let alloc = rt.alloc();
    let (word, rest) = split_word(line);
    match word {
        "scene" => begin(alloc, scene),
        "phone" => phone::begin(alloc, &mut scene.phone, rest),
        "sync" => phone::sync(alloc, &mut scene.slots, &mut scene.phone, rest),
        "keep" => letters::keep(alloc, &mut scene.slots, &mut scene.letters, rest),
        "give" => letters::give(alloc, &mut scene.slots, &scene.letters, rest),
        "file" | "add" | "length" | "remove" => {
            paths::do_line(rt, alloc, &mut scene.slots, word, rest)
        }
        _ => do_on_disks(alloc, &mut scene.slots, word, rest),
    }
}

/// All is new.
fn begin<J: Drop, P: Drop>(alloc: Global, scene: &mut Scene<J, P>) -> Result<String> {
    *scene = Scene::new(alloc);
    Ok(String::new(alloc))
}

/// Does a line that is about disks and what is open on them.
fn do_on_disks<J: Keeper>(
    alloc: Global,
    slots: &mut Vec<Slot<J>>,
    word: &str,
    rest: &str,
) -> Result<String> {
    match word {
        "open" => journals::open(alloc, slots, rest),
        "commit" => journals::commit(alloc, slots, rest),
        "begin" => kept::begin(alloc, slots, rest),
        "back" => kept::back(alloc, slots, rest),
        "note" => kept::note(alloc, slots, rest),
        "peer" => kept::peer(alloc, slots, rest),
        "tell" => kept::tell(alloc, slots, rest),
        "create" | "edit" | "pull" | "next" | "vouch" | "retire" | "cutin" | "cutout" => {
            events::ask(alloc, slots, word, rest)
        }
        _ => disks::do_line(alloc, slots, word, rest),
    }
}
