//! How a folder is made, and opened again. What real files take and give no contract says, so what is here is tested only.
use crate::fold_fault::FoldFault;
use crate::mark::mark_of;
use crate::settings::{layout_told, settings_text};
use crate::state::{meetings_of, shown_of};
use mr_compare::{Meeting, Shown};
use mr_entry::{Birth, Mark, Note};
use mr_filter::Filter;
use mr_folder::{DiskTree, FolderPath};
use mr_itemset::SparingKnowledge;
use mr_journal::{DiskFile, Journal};
use mr_kept::{Journaled, OpenFault, Opened, Setup};
use mr_maildir::Layout;
use mr_scan::default_layout;
use mr_version::Author;
use std::alloc::{AllocError, Global};
use std::collections::BTreeMap;
use std::fs::{self, File};
use std::io::{self, ErrorKind};
use std::rt::Files;

/// How many events the replica of a folder admits.
const EVENT_LIMIT: u32 = 1_000_000;

/// Where the system tells the machine's id, <https://www.freedesktop.org/software/systemd/man/latest/machine-id.html>.
const MACHINE_ID: &str = "/etc/machine-id";

/// A replica with its journal in a file.
pub type Kept = Journaled<SparingKnowledge, DiskFile>;

/// What a folder's replica is begun with.
#[derive(Drop)]
pub struct FolderSetup {
    /// Its id, which no other replica of this mail may ever have.
    pub id: Author,
    /// Which mail it keeps.
    pub filter: Filter,
    /// Random bytes, drawn for this folder alone.
    pub birth: Birth,
    /// How its folders lie. Where it isn't told, it is found each time that the folder is opened.
    pub layout: Option<Layout>,
}

/// An open folder. It is locked for as long as this value lives.
#[derive(Drop)]
pub struct OpenFolder<R> {
    pub alloc: Global,
    /// The replica with its journal.
    pub kept: Kept,
    /// The files.
    pub tree: DiskTree<R>,
    /// How the folders lie.
    pub layout: Layout,
    /// How far the Maildir shows the feed.
    pub shown: Shown,
    /// The last meeting with each other replica, by its id.
    pub meetings: BTreeMap<u16, Meeting>,
}

/// Makes a folder's replica, in `.mailfold`. The folder, and its `cur`, `new` and `tmp`, are made where they are missing; mail that is
/// there is new at the first settling.
///
/// `MadeAlready` where it has one, and `InUse` where another program makes it; then nothing has changed. `NotMade` where what stands at
/// `.mailfold/log` is no file; `Journal` and `System` with what the system said. Stopped at any moment, it can be called again.
pub fn init<R: Files<File = File> + AllocGlobal + Clone + Drop>(
    rt: &R,
    root: &str,
    setup: FolderSetup,
) -> Result<(), FoldFault> {
    let file = made_log(rt, root, setup.layout)?;
    // the log is on the disk, and whoever needs it opens it
    begin_log(rt, file, setup).map(drop)
}

/// The file of the journal, which has no entry yet, in a folder that is made where it is missing, and whose settings tell this layout.
fn made_log<R: Files<File = File> + AllocGlobal + Clone + Drop>(
    rt: &R,
    root: &str,
    layout: Option<Layout>,
) -> Result<DiskFile, FoldFault> {
    let alloc = rt.alloc();
    make_folder(rt, root)?;
    let path = own_path(alloc, root, "log")?;
    let file = empty_log(alloc, DiskFile::open(rt, path.as_str())?)?;
    write_settings(rt, root, layout)?;
    Ok(file)
}

/// Makes the folder with its parts and `.mailfold`, where they are missing.
fn make_folder<R: Files<File = File> + AllocGlobal + Clone + Drop>(
    rt: &R,
    root: &str,
) -> Result<(), FoldFault> {
    let alloc = rt.alloc();
    fs::create_dir_all(rt, root)?;
    let mut tree = DiskTree::open(rt.clone()?, String::from_str(alloc, root)?)?;
    if let Some(whole) = FolderPath::read(alloc, "")? {
        tree.make_folder(&whole).map_err(|_| FoldFault::Files)?;
    }
    Ok(())
}

/// The journal's file, if it has no entry yet.
fn empty_log(alloc: Global, file: DiskFile) -> Result<DiskFile, FoldFault> {
    let (journal, entries) = match Journal::open(alloc, file) {
        Ok(opened) => opened,
        Err((fault, file)) => {
            return Err(FoldFault::Journal(OpenFault::Journal(fault).explained(file.error())));
        }
    };
    if entries.is_empty() {
        Ok(journal.into_device())
    } else {
        Err(FoldFault::MadeAlready)
    }
}

/// What was begun or opened, or why nothing was, with the system's words.
fn opened<K: Drop>(opened: Result<K, (OpenFault, DiskFile)>) -> Result<K, FoldFault> {
    match opened {
        Ok(kept) => Ok(kept),
        Err((OpenFault::NoReplica, _file)) => Err(FoldFault::NotMade),
        Err((fault, file)) => Err(FoldFault::Journal(fault.explained(file.error()))),
    }
}

/// Begins a folder's replica in the journal of this file, which has no entry yet. It touches no other file, so the layout isn't noted.
///
/// `Journal` with what the journal or the system said, as where it has entries; `System` where the file's inode isn't told.
pub fn begin_log<R: Files<File = File> + AllocGlobal>(
    rt: &R,
    file: DiskFile,
    setup: FolderSetup,
) -> Result<Kept, FoldFault> {
    let mark = mark_for(rt, &file)?;
    let FolderSetup {
        id,
        filter,
        birth,
        ..
    } = setup;
    let setup = Setup {
        id,
        filter,
        event_limit: EVENT_LIMIT,
        birth,
        mark,
    };
    opened(Kept::begin(rt.alloc(), file, setup))
}

/// Opens a folder that [`init`] made.
///
/// `NoFolder` where there is none, `NotMade` where it isn't one of mailfold, `InUse` where another program has it open, `BadSettings`
/// where `.mailfold/config` isn't understood; `Journal` where the journal isn't opened, as one that was copied or restored; `System` with
/// what the system said.
pub fn open<R: Files<File = File> + AllocGlobal + Clone + Drop>(
    rt: &R,
    root: &str,
) -> Result<OpenFolder<R>, FoldFault> {
    let log = lock(rt, root)?;
    open_locked(rt, root, log)
}

/// Locks a folder that [`init`] made, for as long as the log's file lives. The log isn't read.
///
/// `NoFolder`, `NotMade`, `InUse` and `System` as [`open`] has them.
pub fn lock<R: Files<File = File> + AllocGlobal>(
    rt: &R,
    root: &str,
) -> Result<DiskFile, FoldFault> {
    check_made(rt, root)?;
    let path = own_path(rt.alloc(), root, "log")?;
    Ok(DiskFile::open(rt, path.as_str())?)
}

/// Opens a folder that was locked by its log's file. The faults are the others of [`open`].
pub fn open_locked<R: Files<File = File> + AllocGlobal + Clone + Drop>(
    rt: &R,
    root: &str,
    log: DiskFile,
) -> Result<OpenFolder<R>, FoldFault> {
    let (kept, beside) = with_beside(rt, root, open_log(rt, log))?;
    let ((tree, layout), shown, meetings) = beside;
    Ok(OpenFolder {
        alloc: rt.alloc(),
        kept,
        tree,
        layout,
        shown,
        meetings,
    })
}

/// What an open folder has beside its replica: its files and how its folders lie, how far the Maildir shows the feed, and the last meetings.
type Beside<R> = ((DiskTree<R>, Layout), Shown, BTreeMap<u16, Meeting>);

/// The replica that was opened, with what its folder has beside it.
fn with_beside<K: Drop, R: Files<File = File> + AllocGlobal + Clone + Drop>(
    rt: &R,
    root: &str,
    opened: Result<(K, Opened), FoldFault>,
) -> Result<(K, Beside<R>), FoldFault> {
    let (kept, opened) = opened?;
    let beside = open_beside(rt, root, &opened.notes)?;
    Ok((kept, beside))
}

/// Reads what the journal's notes tell, and opens the files.
fn open_beside<R: Files<File = File> + AllocGlobal + Clone + Drop>(
    rt: &R,
    root: &str,
    notes: &[Note],
) -> Result<Beside<R>, FoldFault> {
    let alloc = rt.alloc();
    let shown = shown_of(alloc, notes)?;
    let meetings = meetings_of(alloc, notes)?;
    Ok((open_tree(rt, root)?, shown, meetings))
}

/// Whether there is a folder that has a journal: `NoFolder` and `NotMade` where there is none. The journal isn't opened.
pub fn check_made<R: Files + AllocGlobal>(rt: &R, root: &str) -> Result<(), FoldFault> {
    match fs::metadata(rt, root) {
        Ok(told) if told.is_dir() => {}
        Ok(_) => return Err(FoldFault::NoFolder(io::Error::from(ErrorKind::NotADirectory))),
        Err(said) => return Err(FoldFault::NoFolder(said)),
    }
    let path = own_path(rt.alloc(), root, "log")?;
    if fs::exists(rt, path.as_str())? {
        Ok(())
    } else {
        Err(FoldFault::NotMade)
    }
}

/// Opens the replica, with what its journal has beside it.
fn open_log<R: Files<File = File> + AllocGlobal>(
    rt: &R,
    file: DiskFile,
) -> Result<(Kept, Opened), FoldFault> {
    let mark = mark_for(rt, &file)?;
    opened(Kept::open(rt.alloc(), file, &mark, None))
}

/// Opens the files, and finds how the folders lie.
pub(crate) fn open_tree<R: Files<File = File> + AllocGlobal + Clone + Drop>(
    rt: &R,
    root: &str,
) -> Result<(DiskTree<R>, Layout), FoldFault> {
    let alloc = rt.alloc();
    let told = read_settings(rt, root)?;
    let mut tree = DiskTree::open(rt.clone()?, String::from_str(alloc, root)?)?;
    let layout = match told {
        Some(layout) => layout,
        None => default_layout(&tree.folders(alloc).map_err(|_| FoldFault::Files)?.folders),
    };
    Ok((tree, layout))
}

/// The mark that a journal in this file has, wherever it lies. A machine that tells no id has an empty one.
///
/// `System` where the file's inode isn't told.
pub fn mark_for<R: Files + AllocGlobal>(rt: &R, file: &DiskFile) -> Result<Mark, FoldFault> {
    let alloc = rt.alloc();
    let inode = file.inode()?;
    let machine = match fs::read_to_string(rt, MACHINE_ID) {
        Ok(text) => text,
        Err(_) => String::new(rt.alloc()),
    };
    Ok(mark_of(alloc, machine.as_str().trim(), inode)?)
}

/// Writes what the settings tell, or has none.
fn write_settings<R: Files<File = File> + AllocGlobal>(
    rt: &R,
    root: &str,
    layout: Option<Layout>,
) -> Result<(), FoldFault> {
    let path = own_path(rt.alloc(), root, "config")?;
    match layout {
        Some(layout) => {
            let text = settings_text(rt.alloc(), layout)?;
            fs::write(rt, path.as_str(), text.as_str())?;
            File::open(rt, path.as_str())?.sync_all()?;
            Ok(())
        }
        None => Ok(remove_file(rt, path.as_str())?),
    }
}

/// Removes a file, if it is there.
pub(crate) fn remove_file<R: Files>(rt: &R, path: &str) -> io::Result<()> {
    match fs::remove_file(rt, path) {
        Err(said) if said.kind() != ErrorKind::NotFound => Err(said),
        _ => Ok(()),
    }
}

/// The layout that the settings tell, if there are any.
fn read_settings<R: Files + AllocGlobal>(rt: &R, root: &str) -> Result<Option<Layout>, FoldFault> {
    let path = own_path(rt.alloc(), root, "config")?;
    match fs::read_to_string(rt, path.as_str()) {
        Ok(text) => layout_told(text.as_str()),
        Err(said) if said.kind() == ErrorKind::NotFound => Ok(None),
        Err(said) => Err(FoldFault::System(said)),
    }
}

/// The path of one of the program's own files or folders.
pub(crate) fn own_path(alloc: Global, root: &str, inside: &str) -> Result<String, AllocError> {
    Ok(format!(in alloc; "{root}/.mailfold/{inside}")?)
}
