//! How a folder is opened for a talk, and what it has that the talk doesn't ask for.
use crate::fault::Fault;
use crate::late::{Late, Opens};
use crate::noted::RestNote;
use crate::progress::clear_step;
use crate::watched::Watched;
use mr_compare::Shown;
use mr_fold::{FoldFault, OpenFolder, open_locked};
use mr_folder::DiskTree;
use mr_journal::DiskFile;
use mr_maildir::Layout;
use mr_sync::FolderHost;
use mr_talk::{HostFault, TalkFault};
use std::alloc::Global;
use std::collections::BTreeMap;
use std::fs::File;
use std::rt::Files;

/// A folder on the disk as it talks.
pub type DiskHost<R> = FolderHost<DiskFile, DiskTree<R>>;

/// A folder on the disk that is open, or will be as soon as it has to.
pub type DiskLate<'a, R> = Late<DiskHost<R>, Opener<'a, R>>;

/// The same, while somebody watches.
pub type DiskWatched<'a, R> = Watched<'a, R, DiskHost<R>, Opener<'a, R>>;

/// What a folder has that a talk doesn't ask for.
#[derive(Drop)]
pub struct Aside {
    pub alloc: Global,
    layout: Layout,
    shown: Shown,
    /// How many changes of its push-outs the replica had told before the talk.
    pub push_outs_told: usize,
}

/// What opens the folder at this path.
#[derive(Drop)]
pub struct Opener<'a, R> {
    pub rt: &'a R,
    root: &'a str,
    /// The log's file, by which the folder is locked, as long as it isn't read.
    log: Option<DiskFile>,
    /// What the talk doesn't ask for, once the folder is open.
    pub aside: Option<Aside>,
    /// Why it wasn't opened.
    pub fault: Option<FoldFault>,
}

impl<'a, R: Files<File = File> + AllocGlobal + Clone + Drop> Opener<'a, R> {
    /// For a folder that is locked by its log's file, or that is open and has this aside.
    pub fn new(
        rt: &'a R,
        root: &'a str,
        log: Option<DiskFile>,
        aside: Option<Aside>,
    ) -> Opener<'a, R> {
        Opener {
            rt,
            root,
            log,
            aside,
            fault: None,
        }
    }

    /// The folder. It is opened once.
    fn folder(&mut self) -> Result<OpenFolder<R>, FoldFault> {
        match self.log.take() {
            Some(log) => open_locked(self.rt, self.root, log),
            None => Err(FoldFault::Files),
        }
    }

    /// The folder as it talks, which has this aside.
    fn parted(&mut self, folder: OpenFolder<R>) -> DiskHost<R> {
        let (host, aside) = host_of(folder);
        put(&mut self.aside, aside);
        host
    }
}

/// Puts a value in the place of another one.
fn put<T: Drop>(place: &mut Option<T>, value: T) {
    *place = Some(value);
}

impl<R: Files<File = File> + AllocGlobal + Clone + Drop> Opens<DiskHost<R>> for Opener<'_, R> {
    fn open(&mut self) -> Result<DiskHost<R>, HostFault> {
        match self.folder() {
            Ok(folder) => Ok(self.parted(folder)),
            Err(fault) => {
                let told = told_of(self.rt.alloc(), &fault);
                put(&mut self.fault, fault);
                Err(told)
            }
        }
    }
}

/// Why a talk didn't come to its end: that the folder had to be opened and wasn't, or else this fault of the talk.
pub fn fault_of<R>(opener: &mut Opener<R>, fault: Option<TalkFault>) -> Option<Fault> {
    match opener.fault.take() {
        Some(unopened) => {
            drop(fault);
            Some(Fault::Folder(unopened))
        }
        None => talk_fault(fault),
    }
}

fn talk_fault(fault: Option<TalkFault>) -> Option<Fault> {
    match fault {
        Some(fault) => Some(Fault::Talk(fault)),
        None => None,
    }
}

/// Opens a folder that is locked by its log's file, while somebody watches: where it isn't opened, what was being done is shown no more.
pub fn open_watched<R>(
    rt: &R,
    root: &str,
    log: DiskFile,
    is_watched: bool,
) -> Result<OpenFolder<R>, FoldFault>
where
    R: Files<File = File> + Eprint + AllocGlobal + Clone + Drop,
{
    let folder = open_locked(rt, root, log);
    if folder.is_err() {
        clear_step(rt, is_watched);
    }
    folder
}

/// A folder that rests, and is opened once its talk needs it. It is locked by its log's file.
pub fn late_closed<'a, R>(
    rt: &'a R,
    root: &'a str,
    log: DiskFile,
    noted: RestNote,
) -> DiskLate<'a, R>
where
    R: Files<File = File> + AllocGlobal + Clone + Drop,
{
    let RestNote { talks, .. } = noted;
    Late::new(Opener::new(rt, root, Some(log), None), None, talks)
}

/// A folder that is open, and talks.
pub fn late_open<'a, R>(rt: &'a R, root: &'a str, folder: OpenFolder<R>) -> DiskLate<'a, R>
where
    R: Files<File = File> + AllocGlobal + Clone + Drop,
{
    let (host, aside) = host_of(folder);
    let opener = Opener::new(rt, root, None, Some(aside));
    Late::new(opener, Some(host), Vec::new(rt.alloc()))
}

/// Why a folder isn't opened, as the other side is told it.
fn told_of(alloc: Global, fault: &FoldFault) -> HostFault {
    let number = u16::from(fault.number());
    match format!(in alloc; "{fault}") {
        Ok(text) => HostFault { number, text },
        Err(_) => HostFault {
            number,
            text: String::new(alloc),
        },
    }
}

/// The folder as it talks, and what the talk doesn't ask for.
fn host_of<R>(folder: OpenFolder<R>) -> (DiskHost<R>, Aside)
where
    R: Files<File = File> + AllocGlobal + Clone + Drop,
{
    let OpenFolder {
        alloc,
        kept,
        tree,
        layout,
        shown,
        meetings,
    } = folder;
    let push_outs_told = kept.replica().push_out_feed().len();
    let host = FolderHost::new(alloc, kept, tree, meetings);
    let aside = Aside {
        alloc,
        layout,
        shown,
        push_outs_told,
    };
    (host, aside)
}

/// The folder that has talked, if it is open. It is taken out of the talk.
pub fn folder_again<R>(late: &mut DiskLate<R>) -> Option<OpenFolder<R>>
where
    R: Files<File = File> + AllocGlobal + Clone + Drop,
{
    let (host, aside) = late.host.take().zip(late.opener.aside.take())?;
    Some(folder_of(host, aside))
}

/// The folder that has talked. It remembers no meetings: nothing asks for them any more.
fn folder_of<R>(host: DiskHost<R>, aside: Aside) -> OpenFolder<R>
where
    R: Files<File = File> + AllocGlobal + Clone + Drop,
{
    let (kept, tree, _) = host.into_parts();
    let Aside {
        alloc,
        layout,
        shown,
        ..
    } = aside;
    OpenFolder {
        alloc,
        kept,
        tree,
        layout,
        shown,
        meetings: BTreeMap::new(alloc),
    }
}
