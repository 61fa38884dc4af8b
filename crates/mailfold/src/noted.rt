//! What is noted of a folder for its next talk, so that it needn't be opened where nothing was changed and nothing is to be told.
use crate::full_log::has_full_log;
use mr_fold::{AtRest, OpenFolder, PassedOver, note_at_rest, noted_at_rest};
use mr_journal::DiskFile;
use mr_sync::{Hellos, MAX_IDLE_TALKS, read_hellos, write_hellos};
use std::fs::File;
use std::rt::Files;

/// What is noted of a folder that rests.
#[derive(Drop)]
pub struct RestNote {
    /// Its replica.
    pub id: u16,
    /// What of its Maildir isn't shown.
    pub passed_over: PassedOver,
    /// The hellos of talks with nothing to tell.
    pub talks: Vec<Hellos>,
}

/// What is noted of the folder at this path, which is locked by its log's file; if it rests, and something is.
pub fn noted<R>(rt: &R, root: &str, log: &DiskFile) -> Option<RestNote>
where
    R: Files<File = File> + AllocGlobal + Clone + Drop,
{
    let AtRest { passed_over, bytes } = noted_at_rest(rt, root, log)?;
    let talks = read_hellos(rt.alloc(), &bytes).ok()??;
    let id = talks.first()?.mine.id.id();
    Some(RestNote {
        id,
        passed_over,
        talks,
    })
}

/// Notes the hellos of talks with nothing to tell, so that the folder needn't be opened for the next one like these. One that is fresh
/// still, or whose full log has to be told, is opened each time.
pub fn note_hellos<R>(rt: &R, root: &str, folder: &mut OpenFolder<R>, talks: &[Hellos])
where
    R: Files<File = File> + AllocGlobal + Clone + Drop,
{
    let replica = folder.kept.replica();
    if talks.is_empty() || replica.log().is_empty() || has_full_log(replica) {
        return;
    }
    if let Ok(bytes) = write_hellos(rt.alloc(), talks) {
        note_at_rest(rt, root, folder, &bytes);
    }
}

/// Puts the hellos of one more talk, unless there is no memory for them. Where there are many, the others go.
pub fn put_hellos(talks: &mut Vec<Hellos>, hellos: Hellos) {
    if talks.len() >= MAX_IDLE_TALKS {
        talks.clear();
    }
    // what isn't noted is asked of the folder
    let _ = talks.push(hellos);
}
