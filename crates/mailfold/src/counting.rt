//! A system whose files are counted as they are looked at, so that who watches sees how far a scan is.
use crate::progress::is_due;
use std::alloc::{AllocError, Allocator, Global};
use std::cell::Cell;
use std::fmt::Display;
use std::fs::{File, Metadata, OpenOptions, Permissions};
use std::io::{self, Lines};
use std::rt::{Clock, Files};
use std::time::Duration;

/// After how many looks the clock is asked whether a line is due.
const LOOKS: u64 = 64;

/// What a path in the store has.
const STORE: &str = "/.mailfold/files/";

/// How many files were looked at, and when that was shown last, in seconds of the monotonic clock; at the beginning 0.
#[derive(Drop)]
pub struct Looks {
    stored: Cell<u64>,
    standing: Cell<u64>,
    last: Cell<u64>,
}

impl Looks {
    /// None so far.
    pub fn none() -> Looks {
        Looks {
            stored: Cell::new(0),
            standing: Cell::new(0),
            last: Cell::new(0),
        }
    }

    /// Counts a look at this path.
    fn count(&self, path: &str) {
        let kind = if path.contains(STORE) {
            &self.stored
        } else {
            &self.standing
        };
        kind.set(kind.get().saturating_add(1));
    }

    /// Whether a line is due now, which then counts as shown.
    fn is_due<R: Clock>(&self, rt: &R) -> bool {
        let all = self.stored.get().saturating_add(self.standing.get());
        if all % LOOKS != 0 {
            return false;
        }
        match rt.monotonic() {
            Ok(now) if is_due(self.last.get(), now.as_secs()) => {
                self.last.set(now.as_secs());
                true
            }
            _ => false,
        }
    }
}

/// A system that counts each file that is looked at, and shows the counts at most once a second where somebody watches. All else is as the
/// system within has it.
#[derive(Drop)]
pub struct Counting<'a, R> {
    rt: &'a R,
    looks: &'a Looks,
    /// What the line begins with, if somebody watches.
    command: Option<&'a str>,
}

impl<'a, R> Counting<'a, R> {
    /// The system, with the looks that were counted so far.
    pub fn new(rt: &'a R, looks: &'a Looks, command: Option<&'a str>) -> Counting<'a, R> {
        Counting { rt, looks, command }
    }
}

impl<R: Eprint + Clock> Counting<'_, R> {
    /// Counts a look at the path, and shows the counts if a line is due. One that can't be shown is lost.
    fn look(&self, path: &str) {
        let Some(command) = self.command else {
            return;
        };
        self.looks.count(path);
        if self.looks.is_due(self.rt) {
            let (stored, standing) = (self.looks.stored.get(), self.looks.standing.get());
            let _ = eprint!(self.rt;
                "{command}: looked at {standing} files of the folders, and at {stored} of the store\u{1b}[K\r"
            );
        }
    }
}

impl<R> Clone for Counting<'_, R> {
    fn clone(&self) -> Result<Self, AllocError> {
        let (rt, looks, command) = (self.rt, self.looks, self.command);
        Ok(Counting { rt, looks, command })
    }
}

impl<R: Files<File = File> + Eprint + Clock> Files for Counting<'_, R> {
    type File = File;

    type Dir = R::Dir;

    fn open_file(&self, how: &OpenOptions, path: &str) -> io::Result<File> {
        self.rt.open_file(how, path)
    }

    fn open_dir(&self, path: &str) -> io::Result<R::Dir> {
        self.rt.open_dir(path)
    }

    fn metadata(&self, path: &str) -> io::Result<Metadata> {
        self.rt.metadata(path)
    }

    fn symlink_metadata(&self, path: &str) -> io::Result<Metadata> {
        self.look(path);
        self.rt.symlink_metadata(path)
    }

    fn copy(&self, from: &str, to: &str) -> io::Result<u64> {
        self.rt.copy(from, to)
    }

    fn rename(&self, from: &str, to: &str) -> io::Result<()> {
        self.rt.rename(from, to)
    }

    fn remove_file(&self, path: &str) -> io::Result<()> {
        self.rt.remove_file(path)
    }

    fn create_dir(&self, path: &str) -> io::Result<()> {
        self.rt.create_dir(path)
    }

    fn remove_dir(&self, path: &str) -> io::Result<()> {
        self.rt.remove_dir(path)
    }

    fn remove_dir_all<B: Allocator>(&self, alloc: B, path: &str) -> io::Result<()> {
        self.rt.remove_dir_all(alloc, path)
    }

    fn hard_link(&self, original: &str, link: &str) -> io::Result<()> {
        self.rt.hard_link(original, link)
    }

    fn set_permissions(&self, path: &str, perm: Permissions) -> io::Result<()> {
        self.rt.set_permissions(path, perm)
    }

    fn create_dir_with_mode(&self, path: &str, mode: u32) -> io::Result<()> {
        self.rt.create_dir_with_mode(path, mode)
    }
}

impl<R: AllocGlobal> Alloc for Counting<'_, R> {
    type A = Global;

    fn alloc(&self) -> Global {
        self.rt.alloc()
    }
}

impl<R: Clock> Clock for Counting<'_, R> {
    fn monotonic(&self) -> io::Result<Duration> {
        self.rt.monotonic()
    }

    fn since_1970(&self) -> io::Result<Duration> {
        self.rt.since_1970()
    }

    fn sleep(&self, duration: Duration) {
        self.rt.sleep(duration)
    }
}

impl<R: Eprint> Eprint for Counting<'_, R> {
    fn eprint<D: Display + Drop>(&self, value: D) -> io::Result<()> {
        self.rt.eprint(value)
    }

    fn eprintln<D: Display + Drop>(&self, value: D) -> io::Result<()> {
        self.rt.eprintln(value)
    }
}

impl<R: Print> Print for Counting<'_, R> {
    fn print<D: Display + Drop>(&self, value: D) -> io::Result<()> {
        self.rt.print(value)
    }

    fn println<D: Display + Drop>(&self, value: D) -> io::Result<()> {
        self.rt.println(value)
    }

    fn write_all(&self, bytes: &[u8]) -> io::Result<()> {
        self.rt.write_all(bytes)
    }

    fn write_some(&self, bytes: &[u8]) -> io::Result<usize> {
        self.rt.write_some(bytes)
    }
}

impl<R: Input> Input for Counting<'_, R> {
    type Reader = R::Reader;

    fn read_line<A: Allocator + Clone>(&self, buf: &mut String<A>) -> io::Result<usize> {
        self.rt.read_line(buf)
    }

    fn lines<A: Allocator>(&self, alloc: A) -> Lines<R::Reader, A> {
        self.rt.lines(alloc)
    }

    fn reader(&self) -> R::Reader {
        self.rt.reader()
    }
}
