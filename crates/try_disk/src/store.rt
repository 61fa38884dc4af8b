//! Scenes of a store of mail: over files of which each call fails in turn and that a crash then cuts, and over a folder of the disk.
//!
//! A line of the file `store.mails` says `CALL WORDS => ANSWER`. A mail is told by its text, a path by its folder (`-` for the
//! Maildir itself), its part and its name.
mod fake;

use anyhow::Result;
use fake::{Crash, FakeTree};
use mr_folder::{
    DiskTree, FilePath, FileTree, FolderPath, Listing, Part, StoreFault, adopt, append, begin, end,
    link, list, replace, stored, sweep, take_in, unlink,
};
use sha2::{Digest, Sha256};
use std::alloc::{AllocError, Global};
use std::fs::{self, File};
use std::rt::Files;

/// The file of scenes, and the folder that they are played in.
const SCENES: &str = "store.mails";

const FOLDER: &str = "store.d";

/// More calls than a scene makes.
const ALL: u64 = 1_000;

/// What a run of a scene came to.
#[derive(Clone, Copy)]
struct Run {
    /// How many answers differ.
    differing: u64,
    /// Whether each call was done.
    is_whole: bool,
}

/// What runs came to of which each call failed in turn.
#[derive(Clone, Copy)]
struct Failing {
    runs: u64,
    /// How many files a crash left in the store whose bytes aren't those that their names say.
    wrong: u64,
    /// How many mails a crash left none of that were told to be there.
    lost: u64,
}

/// Plays the scenes, and prints what came of them.
pub fn print<R: Files<File = File> + Print + AllocGlobal>(rt: &R, folder: &str) -> Result<()> {
    let path = format!(in rt.alloc(); "{folder}/{SCENES}")?;
    let scenes = fs::read_to_string(rt, path.as_str())?;
    rt.println(told(rt, scenes.as_str())?)?;
    Ok(())
}

/// What came of the scenes, as text.
fn told<R: Files<File = File> + AllocGlobal>(rt: &R, lines: &str) -> Result<String> {
    let alloc = rt.alloc();
    let differing = play_whole(alloc, lines)?.differing;
    let Failing { runs, wrong, lost } = fail_in_turn(alloc, lines)?;
    let disk = on_disk(rt, lines)?;
    Ok(format!(in alloc;
        "store: {differing} differ; {runs} runs, {wrong} wrong, {lost} lost; {disk}"
    )?)
}

/// Plays the scenes with no call failing.
fn play_whole(alloc: Global, lines: &str) -> Result<Run> {
    let mut files = FakeTree::new(alloc, ALL);
    let run = play_kept(alloc, &mut files, lines);
    drop(files);
    run
}

/// Plays the scenes with each call failing in turn, and looks at what crashes then leave.
fn fail_in_turn(alloc: Global, lines: &str) -> Result<Failing> {
    let mut failing = Failing {
        runs: 0,
        wrong: 0,
        lost: 0,
    };
    for fuse in 0..ALL {
        failing.runs = failing.runs.saturating_add(1);
        if fail_at(alloc, lines, fuse, &mut failing)? {
            break;
        }
    }
    Ok(failing)
}

/// Plays the scenes with all calls failing from the one of this number on, and looks at what crashes then leave. Tells whether no call
/// failed.
fn fail_at(alloc: Global, lines: &str, fuse: u64, failing: &mut Failing) -> Result<bool> {
    let mut files = FakeTree::new(alloc, fuse);
    let is_whole = play_and_look(alloc, &mut files, lines, failing);
    drop(files);
    is_whole
}

/// Plays the scenes over these files, and looks at what crashes then leave. Tells whether no call failed.
fn play_and_look(
    alloc: Global,
    files: &mut FakeTree,
    lines: &str,
    failing: &mut Failing,
) -> Result<bool> {
    let mut kept = Vec::new(alloc);
    let run = play(alloc, files, lines, &mut kept)?;
    failing.look_behind_each(alloc, files, &kept)?;
    Ok(run.is_whole)
}

impl Failing {
    /// Looks at what each crash leaves of these files.
    fn look_behind_each(
        &mut self,
        alloc: Global,
        files: &FakeTree,
        kept: &[[u8; 32]],
    ) -> Result<()> {
        for crash in [Crash::LosesPaths, Crash::LosesBytes] {
            let mut left = files.after(crash)?;
            let looked = self.look(alloc, &mut left, kept);
            drop(left);
            looked?;
        }
        Ok(())
    }

    /// Looks at what a crash left.
    fn look(&mut self, alloc: Global, left: &mut FakeTree, kept: &[[u8; 32]]) -> Result<()> {
        self.wrong = self.wrong.saturating_add(left.wrong()?);
        self.lost = self.lost.saturating_add(lacking(alloc, left, kept)?);
        Ok(())
    }
}

/// How many of these digests the store has no file of.
fn lacking(alloc: Global, files: &mut FakeTree, kept: &[[u8; 32]]) -> Result<u64> {
    let mut lacking = 0u64;
    for digest in kept {
        let path = FilePath::stored(alloc, digest)?;
        lacking = lacking.saturating_add(u64::from(!files.has(&path)?));
    }
    Ok(lacking)
}

/// Plays the scenes in a folder of the disk.
fn on_disk<R: Files<File = File> + AllocGlobal>(rt: &R, lines: &str) -> Result<String> {
    fs::create_dir_all(rt, FOLDER)?;
    let told = told_on_disk(rt, lines)?;
    fs::remove_dir_all(rt, FOLDER)?;
    Ok(told)
}

/// What came of the scenes in that folder, as text.
fn told_on_disk<R: Files<File = File> + AllocGlobal>(rt: &R, lines: &str) -> Result<String> {
    let alloc = rt.alloc();
    let mut tree = DiskTree::open(rt, String::from_str(alloc, FOLDER)?)?;
    let told = play_on(alloc, &mut tree, lines);
    drop(tree);
    told
}

/// What came of the scenes over this tree, as text.
fn play_on<R: Files<File = File> + AllocGlobal + Clone + Drop>(
    alloc: Global,
    tree: &mut DiskTree<R>,
    lines: &str,
) -> Result<String> {
    make_folders(alloc, tree)?;
    let differing = play_kept(alloc, tree, lines)?.differing;
    let links = same_file(alloc, tree)?;
    let names = listed(alloc, tree)?;
    Ok(format!(in alloc; "disk: {differing} differ, {names}, one file: {links}")?)
}

/// Makes the folders of the scenes.
fn make_folders<R: Files<File = File> + AllocGlobal + Clone + Drop>(
    alloc: Global,
    tree: &mut DiskTree<R>,
) -> Result<()> {
    for folder in ["", "Archive"] {
        if let Some(folder) = FolderPath::read(alloc, folder)? {
            tree.make_folder(&folder)?;
        }
    }
    Ok(())
}

/// Plays lines over files of which no call fails.
fn play_kept<F: FileTree>(alloc: Global, files: &mut F, lines: &str) -> Result<Run> {
    let mut kept = Vec::new(alloc);
    play(alloc, files, lines, &mut kept)
}

/// The names in the folders of a disk.
fn listed<R: Files<File = File> + AllocGlobal + Clone + Drop>(
    alloc: Global,
    tree: &mut DiskTree<R>,
) -> Result<String> {
    let folders = tree.folders(alloc)?;
    let listed = listed_in(alloc, tree, &folders.folders);
    drop(folders);
    listed
}

/// The names in these folders of a disk.
fn listed_in<R: Files<File = File> + AllocGlobal + Clone + Drop>(
    alloc: Global,
    tree: &DiskTree<R>,
    folders: &[FolderPath],
) -> Result<String> {
    let mut parts = tree.parts(folders);
    let listing = list(alloc, &mut parts, folders.len().saturating_mul(2));
    drop(parts);
    let listing = listing?;
    let mut text = String::new(alloc);
    push_listing(&mut text, folders.len(), &listing)?;
    Ok(text)
}

/// Adds how many folders there are, and the names of a listing.
fn push_listing(text: &mut String, count: usize, listing: &Listing) -> Result<(), AllocError> {
    write!(text, "{count} folders")?;
    for names in listing.names.iter() {
        push_names(text, names)?;
    }
    if !listing.is_quiet {
        text.push_str(" changed")?;
    }
    Ok(())
}

/// Adds names, each behind a space.
fn push_names(text: &mut String, names: &[String]) -> Result<(), AllocError> {
    for name in names.iter() {
        text.push(' ')?;
        text.push_str(name.as_str())?;
    }
    Ok(())
}

/// Whether a mail that is shown is the store's own file.
fn same_file<R: Files<File = File> + AllocGlobal + Clone + Drop>(
    alloc: Global,
    tree: &mut DiskTree<R>,
) -> Result<bool> {
    let Some(shown) = path_of(alloc, "- cur 1:2,S")? else {
        return Ok(false);
    };
    let stored = FilePath::stored(alloc, &Sha256::digest(b"one"))?;
    are_one(tree, &stored, &shown)
}

/// Whether one file stands at both paths.
fn are_one<R: Files<File = File> + AllocGlobal + Clone + Drop>(
    tree: &mut DiskTree<R>,
    first: &FilePath,
    second: &FilePath,
) -> Result<bool> {
    let first = tree.mark(first)?;
    let second = tree.mark(second)?;
    Ok(first.is_some() && first == second)
}

/// Plays lines until a call of the files fails. The digests of which it is told that they are in the store come to `kept`.
fn play<F: FileTree>(
    alloc: Global,
    files: &mut F,
    lines: &str,
    kept: &mut Vec<[u8; 32]>,
) -> Result<Run> {
    let mut run = Run {
        differing: 0,
        is_whole: true,
    };
    for line in lines.lines() {
        match differs(alloc, files, line, kept) {
            Ok(differs) => run.differing = run.differing.saturating_add(u64::from(differs)),
            Err(fault) => {
                run.is_whole = false;
                run.differing = u64::from(fault.number());
                break;
            }
        }
    }
    Ok(run)
}

/// Whether a line is answered otherwise than it says.
fn differs<F: FileTree>(
    alloc: Global,
    files: &mut F,
    line: &str,
    kept: &mut Vec<[u8; 32]>,
) -> Result<bool, StoreFault> {
    let (call, expected) = line.split_once(" => ").unwrap_or((line, ""));
    let told = answer(alloc, files, call, kept)?;
    Ok(told.as_str() != expected)
}

/// What a line answers.
fn answer<F: FileTree>(
    alloc: Global,
    files: &mut F,
    line: &str,
    kept: &mut Vec<[u8; 32]>,
) -> Result<String, StoreFault> {
    let (call, words) = line.split_once(' ').unwrap_or((line, ""));
    match call {
        "take" => take(alloc, files, words, kept),
        "whole" => whole(alloc, files, words, kept),
        "mixed" => mixed(alloc, files, words),
        "sweep" => sweep_all_but(alloc, files, words, kept),
        "stored" => count(alloc, files),
        "show" | "move" => {
            let (what, path) = halves(words);
            answer_at(alloc, files, call, what, path, kept)
        }
        _ => answer_at(alloc, files, call, "", words, kept),
    }
}

/// What a call answers that is about a path: no path leads outside.
fn answer_at<F: FileTree>(
    alloc: Global,
    files: &mut F,
    call: &str,
    what: &str,
    path: &str,
    kept: &mut Vec<[u8; 32]>,
) -> Result<String, StoreFault> {
    let Some(path) = path_of(alloc, path)? else {
        return Ok(String::from_str(alloc, "outside")?);
    };
    match call {
        "adopt" => take_link(alloc, files, &path, kept),
        "show" => show(alloc, files, what, &path),
        "move" => move_to(alloc, files, what, &path),
        "unlink" => go(alloc, files, &path),
        "read" => read(alloc, files, &path),
        _ => Ok(String::from_str(alloc, "no call")?),
    }
}

/// Takes a mail in, in two pieces.
fn take<F: FileTree>(
    alloc: Global,
    files: &mut F,
    text: &str,
    kept: &mut Vec<[u8; 32]>,
) -> Result<String, StoreFault> {
    let digest = Sha256::digest(text.as_bytes());
    let mut incoming = begin(alloc, files)?;
    let (front, back) = text.as_bytes().split_at(text.len() / 2);
    append(alloc, files, &mut incoming, front)?;
    append(alloc, files, &mut incoming, back)?;
    let is_taken = end(alloc, files, incoming, &digest)?;
    if is_taken {
        keep(kept, digest)?;
    }
    Ok(format!(in alloc; "{is_taken}")?)
}

/// Takes a mail in as a whole.
fn whole<F: FileTree>(
    alloc: Global,
    files: &mut F,
    text: &str,
    kept: &mut Vec<[u8; 32]>,
) -> Result<String, StoreFault> {
    let digest = take_in(alloc, files, text.as_bytes())?;
    keep(kept, digest)?;
    Ok(hex::encode(alloc, &digest[..4])?)
}

/// Notes that a digest is in the store.
fn keep(kept: &mut Vec<[u8; 32]>, digest: [u8; 32]) -> Result<(), AllocError> {
    kept.push(digest)?;
    Ok(())
}

/// Takes a mail in by the digest of another.
fn mixed<F: FileTree>(alloc: Global, files: &mut F, text: &str) -> Result<String, StoreFault> {
    let mut incoming = begin(alloc, files)?;
    append(alloc, files, &mut incoming, text.as_bytes())?;
    let is_taken = end(alloc, files, incoming, &Sha256::digest(b"another"))?;
    Ok(format!(in alloc; "{is_taken}")?)
}

/// The path that words tell.
fn path_of(alloc: Global, words: &str) -> Result<Option<FilePath>, AllocError> {
    let (folder, rest) = words.split_once(' ').unwrap_or((words, ""));
    let (part, name) = rest.split_once(' ').unwrap_or((rest, ""));
    let folder = if folder == "-" { "" } else { folder };
    let part = if part == "cur" { Part::Cur } else { Part::New };
    match FolderPath::read(alloc, folder)? {
        Some(folder) => FilePath::mail(alloc, &folder, part, name),
        None => Ok(None),
    }
}

/// Two halves of words, with a comma between them.
fn halves(words: &str) -> (&str, &str) {
    words.split_once(", ").unwrap_or((words, ""))
}

/// Takes a file of the Maildir into the store.
fn take_link<F: FileTree>(
    alloc: Global,
    files: &mut F,
    path: &FilePath,
    kept: &mut Vec<[u8; 32]>,
) -> Result<String, StoreFault> {
    match adopt(alloc, files, path)? {
        Some(digest) => {
            keep(kept, digest)?;
            Ok(hex::encode(alloc, &digest[..4])?)
        }
        None => Ok(String::from_str(alloc, "none")?),
    }
}

/// Shows a mail of the store at a path.
fn show<F: FileTree>(
    alloc: Global,
    files: &mut F,
    text: &str,
    path: &FilePath,
) -> Result<String, StoreFault> {
    let stored = FilePath::stored(alloc, &Sha256::digest(text.as_bytes()))?;
    let is_done = link(files, &stored, path)?;
    Ok(format!(in alloc; "{is_done}")?)
}

/// Moves a mail.
fn move_to<F: FileTree>(
    alloc: Global,
    files: &mut F,
    from: &str,
    to: &FilePath,
) -> Result<String, StoreFault> {
    let Some(from) = path_of(alloc, from)? else {
        return Ok(String::from_str(alloc, "outside")?);
    };
    let is_done = replace(files, &from, to)?;
    Ok(format!(in alloc; "{is_done}")?)
}

/// Takes a mail's path away.
fn go<F: FileTree>(alloc: Global, files: &mut F, path: &FilePath) -> Result<String, StoreFault> {
    let is_done = unlink(files, path)?;
    Ok(format!(in alloc; "{is_done}")?)
}

/// Sweeps all mails but these.
fn sweep_all_but<F: FileTree>(
    alloc: Global,
    files: &mut F,
    words: &str,
    kept: &mut Vec<[u8; 32]>,
) -> Result<String, StoreFault> {
    let mut held = Vec::new(alloc);
    for text in words.split(',') {
        keep(&mut held, Sha256::digest(text.as_bytes()))?;
    }
    held.sort()?;
    kept.retain(|digest| held.contains(digest));
    sweep(alloc, files, &held)?;
    count(alloc, files)
}

/// How many mails the store has, and how many files of other names.
fn count<F: FileTree>(alloc: Global, files: &mut F) -> Result<String, StoreFault> {
    let stored = stored(alloc, files)?;
    let mails = stored.digests.len();
    let others = stored.others;
    Ok(format!(in alloc; "{mails} and {others}")?)
}

/// The text of a mail.
fn read<F: FileTree>(alloc: Global, files: &mut F, path: &FilePath) -> Result<String, StoreFault> {
    match files.read(alloc, path)? {
        Some(bytes) => Ok(String::from_str(alloc, str::from_utf8(&bytes).unwrap_or("?"))?),
        None => Ok(String::from_str(alloc, "none")?),
    }
}
