//! The files of a folder of a disk. What real files take and give no contract says, so what is here is tested only.
ghost use Rattle.std.specs.Prelude.{◌≡◌, [], ⊤};

use crate::fault::SettleFault;
use crate::message::{day_at, folder_lines, new_mail};
use crate::names::FileNames;
use crate::parting::seen;
use crate::settling::MailFiles;
use crate::targets::Target;
use mr_compare::{Digest, MailAct};
use mr_folder::{DiskTree, FilePath, FileTree, FolderPath, Part, link, replace, unlink};
use mr_mail::{Day, Label, Message};
use mr_maildir::{
    Act, FileAct, HEADER_BYTES, MailFile, file_acts, read_header, told_folder, told_name,
    with_told_name,
};
use mr_scan::{FolderTable, Scan, seen_view};
use std::alloc::{AllocError, Global};
use std::collections::BTreeMap;
use std::fs::File;
use std::rt::Files;

/// The mails' files of a folder of a disk, as they were seen, and how they are to stand.
#[derive(Drop)]
pub(crate) struct DiskMails<'a, R> {
    tree: &'a mut DiskTree<R>,
    table: &'a FolderTable,
    scan: &'a Scan,
    /// The files of new mails that weren't told yet, but for those that the scan has.
    created: BTreeMap<Digest, Vec<MailFile>>,
    targets: &'a BTreeMap<Digest, Target>,
    /// The names of all mails' files, with those that were made.
    names: FileNames<'a>,
    /// The paths of the folders that are there or were made, by their labels.
    folders: BTreeMap<Label, FolderPath>,
    /// A path in each part of a folder that was changed and isn't synced yet, by the part's path.
    touched: BTreeMap<String, FilePath>,
}

impl<'a, R: Files<File = File> + AllocGlobal + Clone + Drop> DiskMails<'a, R> {
    /// The files that were seen, those of new mails that aren't among these, and the mails that are to stand so.
    pub(crate) fn new(
        alloc: Global,
        tree: &'a mut DiskTree<R>,
        table: &'a FolderTable,
        scan: &'a Scan,
        created: BTreeMap<Digest, Vec<MailFile>>,
        targets: &'a BTreeMap<Digest, Target>,
    ) -> Result<DiskMails<'a, R>, AllocError> {
        Ok(DiskMails {
            tree,
            table,
            scan,
            created,
            targets,
            names: FileNames::of(alloc, scan, !targets.is_empty())?,
            folders: BTreeMap::new(alloc),
            touched: BTreeMap::new(alloc),
        })
    }

    /// The message of a mail with a file of these bytes. The files of a new mail are let go.
    fn message_of(
        &mut self,
        alloc: Global,
        digest: &Digest,
        bytes: &[u8],
        time: u64,
    ) -> Result<Message, SettleFault>
        ensures { self.new.touched ≡ self.old.touched }
    {
        match self.created.remove(digest) {
            Some(files) => self.message_with(alloc, digest, &files, bytes, time),
            None => self.message_with(alloc, digest, seen(self.scan, digest), bytes, time),
        }
    }

    /// The message of a mail with these files, of these bytes.
    fn message_with(
        &self,
        alloc: Global,
        digest: &Digest,
        files: &[MailFile],
        bytes: &[u8],
        time: u64,
    ) -> Result<Message, SettleFault> {
        let view = seen_view(alloc, None, files)?;
        let lines = with_told_name(alloc, "", first_unique(files))?;
        let lines = folder_lines(alloc, lines, self.table.folders(), &view)?;
        let day = day_of(alloc, bytes, time)?;
        let size = bytes.len() as u64;
        new_mail(alloc, digest, size, lines.as_str(), view, day)
    }

    /// Has the mail's files stand as it is to. One that has no file here is passed over.
    fn place(&mut self, alloc: Global, digest: &Digest) -> Result<(), SettleFault> {
        let targets = self.targets;
        let Some(target) = targets.get(digest) else {
            return Ok(());
        };
        let seen = seen(self.scan, digest);
        if seen.is_empty() && !self.tree.has(&FilePath::stored(alloc, digest)?)? {
            return Ok(());
        }
        let told = told_name(target.lines.as_str()).unwrap_or("");
        let taken = self.names.taken(digest, seen, told)?;
        let acts = file_acts(alloc, seen, &target.view, told, digest, &taken)?;
        for act in &acts {
            self.act(alloc, digest, target.lines.as_str(), act)?;
        }
        Ok(())
    }

    /// Removes all of the mail's files.
    fn remove_all(&mut self, alloc: Global, digest: &Digest) -> Result<(), SettleFault> {
        for file in seen(self.scan, digest) {
            self.remove(alloc, file, "")?;
        }
        Ok(())
    }

    /// Does what is done with a file of the mail, whose lines tell the names of folders.
    fn act(
        &mut self,
        alloc: Global,
        digest: &Digest,
        lines: &str,
        act: &FileAct,
    ) -> Result<(), SettleFault> {
        match act {
            FileAct::Link { from, to } => {
                let from = match from {
                    Some(file) => self.path(alloc, file, lines)?,
                    None => FilePath::stored(alloc, digest)?,
                };
                self.link(alloc, digest, lines, &from, to)
            }
            FileAct::Move { from, to } => self.rename(alloc, digest, lines, from, to),
            FileAct::Remove { file } => self.remove(alloc, file, lines),
        }
    }

    /// Makes a file, as a link of what stands at this path.
    fn link(
        &mut self,
        alloc: Global,
        digest: &Digest,
        lines: &str,
        from: &FilePath,
        to: &MailFile,
    ) -> Result<(), SettleFault> {
        let path = self.path(alloc, to, lines)?;
        if !link(&mut *self.tree, from, &path)? {
            return Err(SettleFault::Changed);
        }
        self.names.note(digest, to)?;
        self.touch(alloc, path)
    }

    /// Gives a file another name.
    fn rename(
        &mut self,
        alloc: Global,
        digest: &Digest,
        lines: &str,
        from: &MailFile,
        to: &MailFile,
    ) -> Result<(), SettleFault> {
        let source = self.path(alloc, from, lines)?;
        let target = self.path(alloc, to, lines)?;
        if !replace(&mut *self.tree, &source, &target)? {
            return Err(SettleFault::Changed);
        }
        self.names.note(digest, to)?;
        self.touch(alloc, source)?;
        self.touch(alloc, target)
    }

    /// Removes a file, if it is there.
    fn remove(&mut self, alloc: Global, file: &MailFile, lines: &str) -> Result<(), SettleFault> {
        let path = self.path(alloc, file, lines)?;
        if unlink(&mut *self.tree, &path)? {
            self.touch(alloc, path)?;
        }
        Ok(())
    }

    /// The path of a file, in a folder that is made where it is missing, by the name that the lines tell.
    fn path(
        &mut self,
        alloc: Global,
        file: &MailFile,
        lines: &str,
    ) -> Result<FilePath, SettleFault> {
        self.make_folder(alloc, file.label(), lines)?;
        let name = file.name(alloc)?;
        let part = if file.is_new() { Part::New } else { Part::Cur };
        let Some(folder) = self.folders.get(file.label()) else {
            return Err(SettleFault::Files);
        };
        match FilePath::mail(alloc, folder, part, name.as_str())? {
            Some(path) => Ok(path),
            None => Err(SettleFault::Files),
        }
    }

    /// Looks up the path of a label's folder, and makes the folder where it is missing.
    fn make_folder(
        &mut self,
        alloc: Global,
        label: &Label,
        lines: &str,
    ) -> Result<(), SettleFault> {
        if self.folders.contains_key(label) {
            return Ok(());
        }
        let told = told_folder(alloc, lines, label)?;
        let Some(path) = self.table.path_for(alloc, label, told)? else {
            return Err(SettleFault::Files);
        };
        if self.table.at(label).is_none() {
            self.tree.make_folder(&path)?;
        }
        self.folders.insert(label.copy()?, path)?;
        Ok(())
    }

    /// Notes that a path was changed, so that its folder is to be synced.
    fn touch(&mut self, alloc: Global, path: FilePath) -> Result<(), SettleFault> {
        let part = match path.as_str().rsplit_once('/') {
            Some((part, _)) => String::from_str(alloc, part)?,
            None => String::new(alloc),
        };
        self.touched.insert(part, path)?;
        Ok(())
    }

    /// Has each path that was changed on the disk.
    fn sync_touched(&mut self) -> Result<(), SettleFault>
        ensures { self.new.touched ≡ self.old.touched }
    {
        for path in self.touched.values() {
            self.tree.sync_path(path)?;
        }
        Ok(())
    }
}

/// The unique part of the first file's name.
fn first_unique(files: &[MailFile]) -> &str {
    match files.first() {
        Some(file) => file.unique(),
        None => "",
    }
}

/// The day that a mail of these bytes tells, or else the one of its file's time.
fn day_of(alloc: Global, bytes: &[u8], time: u64) -> Result<Day, AllocError> {
    let header = read_header(alloc, &bytes[..bytes.len().min(HEADER_BYTES)])?;
    Ok(header.day.unwrap_or(day_at(time)))
}

impl<'a, R: Files<File = File> + AllocGlobal + Clone + Drop> MailFiles for DiskMails<'a, R> {
    ghost are_synced = { λ mails. mails.touched.entries ≡ [] };

    ghost is_shown = { λ _ _. ⊤ };

    fn new_message(&mut self, alloc: Global, digest: &Digest) -> Result<Message, SettleFault> {
        let path = FilePath::stored(alloc, digest)?;
        let time = match self.tree.mark(&path)? {
            Some(mark) => mark.time,
            None => 0,
        };
        match self.tree.read(alloc, &path)? {
            Some(bytes) => self.message_of(alloc, digest, &bytes, time),
            None => Err(SettleFault::Changed),
        }
    }

    fn show(&mut self, alloc: Global, mail: &MailAct) -> Result<(), SettleFault> {
        match &mail.act {
            Act::Edit(_) | Act::Follow => self.place(alloc, &mail.digest),
            Act::Remove => self.remove_all(alloc, &mail.digest),
            Act::Agree | Act::Create | Act::Delete => Ok(()),
        }
    }

    fn sync(&mut self, alloc: Global) -> Result<(), SettleFault> {
        self.sync_touched()?;
        self.touched = BTreeMap::new(alloc);
        Ok(())
    }
}
