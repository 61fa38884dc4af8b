//! `sync` and `serve`: two folders talk over the standard streams.
use crate::after::{After, Talked, shown};
use crate::before::{lacking_mails, scanned};
use crate::edited::tell_edited_by;
use crate::ending::Ending;
use crate::fault::Fault;
use crate::full_log::warn_of_full_log;
use crate::late::Opens;
use crate::noted::{RestNote, note_hellos, noted, put_hellos};
use crate::opener::{
    DiskLate, DiskWatched, fault_of, folder_again, late_closed, late_open, open_watched,
};
use crate::passed_over::tell_passed_over_by;
use crate::progress::{Ticker, clear_step, show_step};
use crate::tallies::nothing;
use crate::told::{Told, tell_fault, tell_sync, tell_system};
use crate::watched::Watched;
use mr_compare::{Digest, Tally};
use mr_fold::{OpenFolder, Settled, lock};
use mr_folder::FileTree;
use mr_journal::{Device, DiskFile};
use mr_sync::{FolderHost, Hellos, Summary};
use mr_talk::{Line, MessageFault, Role, TalkFault, run_talk};
use std::alloc::Global;
use std::collections::BTreeSet;
use std::fs::File;
use std::io::{self, BufReader, BufWriter, Read, Write};
use std::rt::Files;
use std::time::Clock;

/// How many bytes are read or written at once.
const STREAM_BYTES: usize = 65_536;

/// Scans the folder, talks with the one on the standard streams, and shows what came.
///
/// What came before the talk was cut off is shown too. Who watches is shown how far it is. A folder that rests isn't opened where a talk
/// like this one is noted of it.
pub fn sync_folder<R>(rt: &R, root: &str, role: Role, is_watched: bool) -> Result<Ending, Fault>
where
    R: Files<File = File> + Input + Print + Eprint + Clock + AllocGlobal + Clone + Drop,
{
    let log = lock(rt, root)?;
    show_step(rt, is_watched, "sync: looking at the files");
    match noted(rt, root, &log) {
        Some(noted) => {
            clear_step(rt, is_watched);
            sync_noted(rt, root, log, noted, role, is_watched)
        }
        None => sync_open(rt, root, log, role, is_watched),
    }
}

/// Syncs a folder that rests, and opens it once it has to.
fn sync_noted<R>(
    rt: &R,
    root: &str,
    log: DiskFile,
    noted: RestNote,
    role: Role,
    is_watched: bool,
) -> Result<Ending, Fault>
where
    R: Files<File = File> + Input + Print + Eprint + Clock + AllocGlobal + Clone + Drop,
{
    match tell_noted(rt, &noted) {
        Ok(begun) => {
            let late = late_closed(rt, root, log, noted);
            sync_late(rt, root, late, &begun, role, is_watched)
        }
        Err(fault) => {
            drop(log);
            Err(fault)
        }
    }
}

/// Syncs a folder that has to be opened, and is scanned before it talks.
fn sync_open<R>(
    rt: &R,
    root: &str,
    log: DiskFile,
    role: Role,
    is_watched: bool,
) -> Result<Ending, Fault>
where
    R: Files<File = File> + Input + Print + Eprint + Clock + AllocGlobal + Clone + Drop,
{
    let mut folder = open_watched(rt, root, log, is_watched)?;
    match begin(rt, root, &mut folder, role, is_watched) {
        Ok(begun) => {
            let late = late_open(rt, root, folder);
            sync_late(rt, root, late, &begun, role, is_watched)
        }
        Err(fault) => {
            drop(folder);
            Err(fault)
        }
    }
}

/// What was done before a talk.
#[derive(Clone, Copy)]
struct Before {
    /// The folder's replica.
    id: u16,
    tally: Tally,
    /// Whether the folder was never scanned before.
    is_fresh: bool,
}

/// What a talk begins with.
#[derive(Drop)]
struct Begun {
    before: Before,
    /// The files that the folder lacks from before.
    wanted: BTreeSet<Digest>,
}

/// Tells what isn't shown of a folder that rests.
fn tell_noted<R: Eprint + AllocGlobal>(rt: &R, noted: &RestNote) -> Result<Begun, Fault> {
    tell_passed_over_by(rt, noted.id, &noted.passed_over)?;
    let before = Before {
        id: noted.id,
        tally: nothing(),
        is_fresh: false,
    };
    let wanted = BTreeSet::new(rt.alloc());
    Ok(Begun { before, wanted })
}

/// Scans an open folder, and finds which files it lacks from before.
fn begin<R>(
    rt: &R,
    root: &str,
    folder: &mut OpenFolder<R>,
    role: Role,
    is_watched: bool,
) -> Result<Begun, Fault>
where
    R: Files<File = File> + Eprint + AllocGlobal + Clone + Drop,
{
    let before = scan_before(rt, root, folder, role, is_watched)?;
    let wanted = lacking_mails(rt.alloc(), folder.kept.replica(), &folder.shown)?;
    Ok(Begun { before, wanted })
}

/// Scans an open folder before it talks, and tells what that passed over, and what was edited.
fn scan_before<R>(
    rt: &R,
    root: &str,
    folder: &mut OpenFolder<R>,
    role: Role,
    is_watched: bool,
) -> Result<Before, Fault>
where
    R: Files<File = File> + Eprint + AllocGlobal + Clone + Drop,
{
    let is_fresh = role == Role::Caller && folder.kept.replica().log().is_empty();
    let settled = scanned(rt, root, folder, is_fresh);
    clear_step(rt, is_watched);
    tell_before(rt, folder.kept.replica().id().id(), &settled?, is_fresh)
}

/// Tells what a scan before a talk passed over, and what was edited.
fn tell_before<R: Eprint + AllocGlobal>(
    rt: &R,
    id: u16,
    settled: &Settled,
    is_fresh: bool,
) -> Result<Before, Fault> {
    tell_passed_over_by(rt, id, &settled.passed_over)?;
    tell_edited_by(rt, id, settled.edited)?;
    Ok(Before {
        id,
        tally: settled.tally,
        is_fresh,
    })
}

/// Talks for a folder that is open, or will be once it has to, shows what came, and tells what the sync did.
fn sync_late<R>(
    rt: &R,
    root: &str,
    late: DiskLate<R>,
    begun: &Begun,
    role: Role,
    is_watched: bool,
) -> Result<Ending, Fault>
where
    R: Files<File = File> + Input + Print + Eprint + Clock + AllocGlobal + Clone + Drop,
{
    let ticker = Ticker::new(rt, is_watched);
    let mut watched = Watched { late, ticker };
    let ended = talk_and_show(rt, root, &mut watched, begun, role, is_watched);
    // the folder is unlocked before the sync is told of
    drop(watched);
    tell_ended(rt, begun.before, ended?)
}

/// What a talk came to, and what was done after it.
#[derive(Drop)]
struct Ended {
    summary: Summary,
    /// Why the talk didn't come to its end.
    fault: Option<Fault>,
    after: Result<Tally, Fault>,
}

/// Talks, and shows what came.
fn talk_and_show<R>(
    rt: &R,
    root: &str,
    watched: &mut DiskWatched<R>,
    begun: &Begun,
    role: Role,
    is_watched: bool,
) -> Result<Ended, Fault>
where
    R: Files<File = File> + Input + Print + Eprint + Clock + AllocGlobal + Clone + Drop,
{
    let (now, fault) = talk(rt, watched, role, &begun.wanted)?;
    clear_step(rt, is_watched);
    let talked = talked_of(&mut watched.late, fault.is_none(), now);
    let after = show_talked(
        rt,
        root,
        &mut watched.late,
        begun.before,
        &talked,
        is_watched,
    );
    Ok(Ended {
        summary: talked.summary,
        fault,
        after,
    })
}

/// Tells what a sync did, or why the talk did not come to its end.
fn tell_ended<R: Eprint + AllocGlobal>(
    rt: &R,
    before: Before,
    ended: Ended,
) -> Result<Ending, Fault> {
    let Ended {
        summary,
        fault,
        after,
    } = ended;
    match fault {
        Some(fault) => Err(cut_off(rt, after, fault)),
        None => tell_whole(rt, before, after, &summary),
    }
}

/// Shows what came where the folder is open, which is closed then.
fn show_talked<R>(
    rt: &R,
    root: &str,
    late: &mut DiskLate<R>,
    before: Before,
    talked: &Talked,
    is_watched: bool,
) -> Result<Tally, Fault>
where
    R: Files<File = File> + Eprint + AllocGlobal + Clone + Drop,
{
    let Some(mut folder) = folder_again(late) else {
        return Ok(nothing());
    };
    let tally = end_open(
        rt,
        root,
        &mut folder,
        before,
        talked,
        &late.talks,
        is_watched,
    );
    drop(folder);
    tally
}

/// Shows what came, and notes the hellos of a talk with nothing to tell.
fn end_open<R>(
    rt: &R,
    root: &str,
    folder: &mut OpenFolder<R>,
    before: Before,
    talked: &Talked,
    talks: &[Hellos],
    is_watched: bool,
) -> Result<Tally, Fault>
where
    R: Files<File = File> + Eprint + AllocGlobal + Clone + Drop,
{
    let tally = show_after(rt, folder, talked, before.is_fresh, is_watched)?;
    if !before.is_fresh {
        note_hellos(rt, root, folder, talks);
    }
    Ok(tally)
}

/// Shows what came. Where the talk was cut off, what the system said of the files is told.
fn show_after<R>(
    rt: &R,
    folder: &mut OpenFolder<R>,
    talked: &Talked,
    is_fresh: bool,
    is_watched: bool,
) -> Result<Tally, Fault>
where
    R: Files<File = File> + Eprint + AllocGlobal + Clone + Drop,
{
    if !talked.is_whole {
        tell_system(rt, "files", folder.tree.error());
        tell_system(rt, "log", folder.kept.journal().device().error());
    }
    show_step(rt, is_watched, "sync: showing what came");
    let shown = shown(folder, talked, is_fresh);
    clear_step(rt, is_watched);
    let After { tally, edited } = shown?;
    tell_edited_by(rt, folder.kept.replica().id().id(), edited)?;
    warn_of_full_log(rt, folder.kept.replica())?;
    Ok(tally)
}

/// Why the sync did not come to its end. A fault of what was done after the talk is told here.
fn cut_off<R: Eprint + AllocGlobal>(rt: &R, after: Result<Tally, Fault>, fault: Fault) -> Fault {
    if let Err(other) = &after {
        tell_fault(rt, other);
    }
    drop(after);
    fault
}

/// Tells what a sync did that came to its end.
fn tell_whole<R: Eprint>(
    rt: &R,
    before: Before,
    after: Result<Tally, Fault>,
    summary: &Summary,
) -> Result<Ending, Fault> {
    let after = after?;
    let told = Told {
        id: before.id,
        before: &before.tally,
        after: &after,
        summary,
        is_fresh: before.is_fresh,
    };
    tell_sync(rt, told)?;
    Ok(Ending::Done)
}

/// Talks for the folder over the standard streams: when it began to, and why the talk didn't come to its end.
fn talk<R>(
    rt: &R,
    watched: &mut DiskWatched<R>,
    role: Role,
    wanted: &BTreeSet<Digest>,
) -> Result<(u64, Option<Fault>), Fault>
where
    R: Files<File = File> + Input + Print + Eprint + Clock + AllocGlobal + Clone + Drop,
{
    let now = seconds(rt)?;
    let input = BufReader::with_capacity(rt.alloc(), STREAM_BYTES, rt.reader())?;
    let output = BufWriter::with_capacity(rt.alloc(), STREAM_BYTES, io::writer(rt));
    let mut line = line_of(rt.alloc(), input, output)?;
    let fault = talk_over(rt.alloc(), &mut line, watched, role, wanted);
    drop(line);
    Ok((now, fault_of(&mut watched.late.opener, fault)))
}

/// The line of what is read and what is written.
fn line_of<I: Read + Drop, O: Write + Drop>(
    alloc: Global,
    input: I,
    output: io::Result<O>,
) -> io::Result<Line<I, O>> {
    Ok(Line::new(alloc, input, output?))
}

/// What a talk came to that ended at this time. Its hellos are put behind those of the noted talks if it was a whole one with nothing to tell;
/// else these go.
fn talked_of<R>(late: &mut DiskLate<R>, is_whole: bool, now: u64) -> Talked
where
    R: Files<File = File> + AllocGlobal + Clone + Drop,
{
    let (Some(host), Some(aside)) = (&late.host, &late.opener.aside) else {
        return Talked::closed(is_whole);
    };
    put_idle(host, &mut late.talks, is_whole);
    Talked {
        summary: host.summary(),
        meeting: host.met(now),
        is_whole,
        push_outs_told: aside.push_outs_told,
    }
}

/// Puts the hellos of the talk that the folder has had, if that was a whole one with nothing to tell; else the others go.
fn put_idle<D: Device + Drop, F: FileTree + Drop>(
    host: &FolderHost<D, F>,
    talks: &mut Vec<Hellos>,
    is_whole: bool,
) {
    if is_whole
        && host.summary().is_idle
        && let Ok(Some(hellos)) = host.idle_hellos()
    {
        put_hellos(talks, hellos);
    } else {
        talks.clear();
    }
}

/// Talks over the line, and wants these files too. Tells why the talk didn't come to its end.
fn talk_over<R, I: Read + Drop, O: Write + Drop, D: Device + Drop, F: FileTree + Drop, P>(
    alloc: Global,
    line: &mut Line<I, O>,
    watched: &mut Watched<R, FolderHost<D, F>, P>,
    role: Role,
    wanted: &BTreeSet<Digest>,
) -> Option<TalkFault>
where
    R: Eprint + Clock,
    P: Opens<FolderHost<D, F>> + Drop,
{
    match want_all(&mut watched.late.host, wanted) {
        Ok(()) => run_talk(alloc, line, watched, role).err(),
        Err(fault) => Some(fault),
    }
}

/// Has a folder that is open want these files.
fn want_all<D: Device + Drop, F: FileTree + Drop>(
    host: &mut Option<FolderHost<D, F>>,
    wanted: &BTreeSet<Digest>,
) -> Result<(), TalkFault> {
    let Some(host) = host else {
        return Ok(());
    };
    for digest in wanted {
        if host.want(*digest).is_err() {
            return Err(TalkFault::from(MessageFault::OutOfMemory));
        }
    }
    Ok(())
}

/// The time, in seconds since 1970.
fn seconds<R: Clock>(rt: &R) -> io::Result<u64> {
    Ok(rt.since_1970()?.as_secs())
}
