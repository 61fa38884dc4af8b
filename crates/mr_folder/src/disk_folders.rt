//! Folders of a disk, to be listed. What a system tells of them is trusted here: no contract can say it.
ghost use Rattle.std.specs.Prelude.{[], false, refl};

use crate::disk::{nanoseconds, noted};
use crate::files::FilesFailed;
use crate::listing::Folders;
use crate::path::{FolderPath, Part};
use std::alloc::Global;
use std::fs::{self, File};
use std::io::{self, ErrorKind};
use std::os::unix::fs::MetadataExt;
use std::rt::Files;

/// How deep folders may be in one another.
const MAX_DEPTH: u8 = 8;

/// The folders of a Maildir.
#[derive(Drop)]
pub struct FolderNames {
    /// Their paths, of which an empty one is the Maildir itself.
    pub folders: Vec<FolderPath>,
    /// How many names weren't UTF-8. They are passed over, with what is below them.
    pub unreadable: u64,
}

/// The names in a folder.
#[derive(Drop)]
pub(crate) struct NamesRead {
    pub names: Vec<String>,
    pub unreadable: u64,
}

/// The parts of folders of a disk, told by their numbers: 2k is the `cur` of the folder k, and 2k + 1 is its `new`.
///
/// Names that begin with a dot aren't mail's, and names that aren't UTF-8 are passed over and counted. A part that isn't there has no
/// names. The time of a folder is that of its last change, `st_ctime` of POSIX, which no program can set. A file
/// system's times move in steps of some milliseconds, so a change in the same step as one before it has the same time.
#[derive(Drop)]
pub struct DiskFolders<'a, R> {
    rt: &'a R,
    root: &'a str,
    folders: &'a [FolderPath],
    unreadable: u64,
    error: Option<io::Error>,
}

impl<'a, R: Files<File = File> + AllocGlobal + Clone + Drop> DiskFolders<'a, R> {
    pub(crate) fn new(rt: &'a R, root: &'a str, folders: &'a [FolderPath]) -> DiskFolders<'a, R> {
        DiskFolders {
            rt,
            root,
            folders,
            unreadable: 0,
            error: None,
        }
    }

    /// How many names weren't UTF-8, in all that was listed so far.
    pub fn unreadable(&self) -> u64 {
        self.unreadable
    }

    /// What the system said of the last call that failed.
    pub fn error(&self) -> Option<io::Error> {
        self.error
    }

    /// The path of a part.
    fn full(&self, number: usize) -> io::Result<String> {
        let Some(folder) = self.folders.get(number / 2) else {
            return Err(io::Error::from(ErrorKind::NotFound));
        };
        let root = self.root;
        let inside = folder.as_str();
        let part = if number % 2 == 0 {
            Part::Cur
        } else {
            Part::New
        };
        let part = part.name();
        Ok(format!(in self.rt.alloc(); "{root}/{inside}/{part}")?)
    }

    fn time_of(&self, number: usize) -> io::Result<u64> {
        let path = self.full(number)?;
        match fs::metadata(self.rt, path.as_str()) {
            Ok(told) => match nanoseconds(told.ctime(), told.ctime_nsec()) {
                Some(time) => Ok(time),
                None => Err(io::Error::from(ErrorKind::InvalidData)),
            },
            Err(error) if error.kind() == ErrorKind::NotFound => Ok(0),
            Err(error) => Err(error),
        }
    }

    fn names_of(&self, alloc: Global, number: usize) -> io::Result<NamesRead> {
        let path = self.full(number)?;
        match names_in(self.rt, alloc, path.as_str()) {
            Err(error) if error.kind() == ErrorKind::NotFound => Ok(NamesRead {
                names: Vec::new(alloc),
                unreadable: 0,
            }),
            outcome => outcome,
        }
    }
}

impl<'a, R: Files<File = File> + AllocGlobal + Clone + Drop> Folders for DiskFolders<'a, R> {
    ghost is_told = { false };

    ghost past = { λ _. record { names = λ _ _. []; time = λ _ _. 0 } };

    ghost moment = { λ _. 0 };

    ghost tells_changes = { λ _ _ _ _ _ _ _ _ _. refl };

    fn time(&mut self, folder: usize) -> Result<u64, FilesFailed> {
        noted(self.time_of(folder), &mut self.error)
    }

    fn names(&mut self, alloc: Global, folder: usize) -> Result<Vec<String>, FilesFailed> {
        let read = noted(self.names_of(alloc, folder), &mut self.error)?;
        self.unreadable = self.unreadable.saturating_add(read.unreadable);
        Ok(read.names)
    }
}

/// The names of what is in a folder, but those that begin with a dot.
pub(crate) fn names_in<R: Files + AllocGlobal + Clone + Drop>(
    rt: &R,
    alloc: Global,
    folder: &str,
) -> io::Result<NamesRead> {
    let mut read = NamesRead {
        names: Vec::new(alloc),
        unreadable: 0,
    };
    for entry in fs::read_dir(rt, folder)? {
        let entry = match entry {
            Ok(entry) => entry,
            Err(error) if error.kind() == ErrorKind::InvalidFilename => {
                read.unreadable = read.unreadable.saturating_add(1);
                continue;
            }
            Err(error) => return Err(error),
        };
        let name = entry.file_name();
        if !name.starts_with('.') {
            read.names.push(String::from_str(alloc, name)?)?;
        }
    }
    Ok(read)
}

/// The folders at and below a path that have a `cur`.
pub(crate) fn folders_below<R: Files + AllocGlobal + Clone + Drop>(
    rt: &R,
    alloc: Global,
    root: &str,
) -> io::Result<FolderNames> {
    let mut found = FolderNames {
        folders: Vec::new(alloc),
        unreadable: 0,
    };
    let mut level = vec![in alloc; String::new(alloc)]?;
    for _ in 0..MAX_DEPTH {
        level = next_level(rt, alloc, root, &level, &mut found)?;
    }
    Ok(found)
}

/// Takes those of these folders that have a `cur`. What is below them.
fn next_level<R: Files + AllocGlobal + Clone + Drop>(
    rt: &R,
    alloc: Global,
    root: &str,
    level: &[String],
    found: &mut FolderNames,
) -> io::Result<Vec<String>> {
    let mut next = Vec::new(alloc);
    for folder in level {
        let inside = folder.as_str();
        let cur = format!(in alloc; "{root}/{inside}/cur")?;
        if fs::exists(rt, cur.as_str())? {
            take_folder(alloc, inside, found)?;
        }
        add_below(rt, alloc, root, inside, &mut next, found)?;
    }
    Ok(next)
}

/// Takes a folder.
fn take_folder(alloc: Global, inside: &str, found: &mut FolderNames) -> io::Result<()> {
    if let Some(folder) = FolderPath::read(alloc, inside)? {
        found.folders.push(folder)?;
    }
    Ok(())
}

/// Adds the paths of the folders in a folder.
fn add_below<R: Files + AllocGlobal + Clone + Drop>(
    rt: &R,
    alloc: Global,
    root: &str,
    inside: &str,
    next: &mut Vec<String>,
    found: &mut FolderNames,
) -> io::Result<()> {
    let path = format!(in alloc; "{root}/{inside}")?;
    for entry in fs::read_dir(rt, path.as_str())? {
        let entry = match entry {
            Ok(entry) => entry,
            Err(error) if error.kind() == ErrorKind::InvalidFilename => {
                found.unreadable = found.unreadable.saturating_add(1);
                continue;
            }
            Err(error) => return Err(error),
        };
        let name = entry.file_name();
        if is_mail_folder(name) && is_folder_at(rt, entry.path().as_str())? {
            next.push(below(alloc, inside, name)?)?;
        }
    }
    Ok(())
}

/// Whether there is a folder, and no link to one.
fn is_folder_at<R: Files>(rt: &R, path: &str) -> io::Result<bool> {
    match fs::symlink_metadata(rt, path) {
        Ok(told) => Ok(told.is_dir()),
        Err(error) if error.kind() == ErrorKind::NotFound => Ok(false),
        Err(error) => Err(error),
    }
}

/// Whether a name may be that of a folder with mail, and isn't one that Maildir or the program has a use for.
fn is_mail_folder(name: &str) -> bool {
    !matches!(name, "cur" | "new" | "tmp" | ".mailfold")
}

/// The path of what is in a folder.
fn below(alloc: Global, inside: &str, name: &str) -> io::Result<String> {
    if inside.is_empty() {
        return Ok(String::from_str(alloc, name)?);
    }
    Ok(format!(in alloc; "{inside}/{name}")?)
}
