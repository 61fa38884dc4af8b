//! The folders of a Maildir and their labels.
ghost use Rattle.std.specs.Prelude.{◌≡◌, ◌==◌, Contains, IfOk, OnOk, Some, filter, find, map, not, length, codes, option_map, string_bytes};
ghost use Rattle.std.specs.List.{list_all, list_any};
ghost use Rattle.std.specs.Option.{option_copied};
ghost use Rattle.mr_folder.specs.Inside.{IsFolder};
ghost use Rattle.mr_mail.specs.Label.{text_eq};
ghost use Rattle.mr_maildir.specs.Folder.{label_of};
ghost use Rattle.mr_maildir.specs.Layout.{folder_path};
ghost use Rattle.mr_scan.specs.Folders.{FolderParts, folder_parts, folder_there, folders_there, folder_of, paths_passed_over, begins_with_dot, path_given, path_or, layout_of};
ghost use Rattle.mr_scan.specs.inner.Folders.{with_folder};
ghost use Rattle.mr_scan.specs.inner.Found as found;

use mr_folder::{FolderPath, Part};
use mr_mail::Label;
use mr_maildir::{INBOX, Layout, folder_label, inbox};
use std::alloc::{AllocError, Global};
use std::marker::Model;

/// A folder of a Maildir.
#[derive(Debug, Drop)]
pub struct MailFolder {
    /// Its path below the Maildir, which is empty for the Maildir itself.
    pub path: FolderPath,
    /// The label of the mail in it.
    pub label: Label,
    /// Its name: `inbox` for the Maildir itself, else the one that [`Layout::folder_at`] tells.
    pub name: String,
}

/// The folders of a Maildir, each with a label of its own.
#[derive(Debug, Drop)]
pub struct FolderTable {
    layout: Layout,
    folders: Vec<MailFolder>,
    passed_over: Vec<FolderPath>,
}

impl Model for FolderTable {
    ghost use Rattle.std.specs.Prelude.{IsTrue, map};
    ghost use Rattle.mr_scan.specs.Folders.{TableParts, are_apart, folder_parts};

    ghost Value = { TableParts };

    ghost view = { λ t. record { layout = t.layout; folders = map folder_parts t.folders.items; passed_over = t.passed_over.items } };

    ghost invariant = { λ t. IsTrue (are_apart (map folder_parts t.folders.items)) };
}

impl FolderTable {
    /// The folders at these paths, in their order. The Maildir itself, whose path is empty, is the inbox. Passed over are a path where the
    /// layout has no folder, and a folder whose label one before it has.
    ///
    /// It costs a comparison for each two folders, and one of each path with each folder's.
    pub fn of(
        alloc: Global,
        layout: Layout,
        paths: Vec<FolderPath>,
    ) -> Result<FolderTable, AllocError>
        ensures layout { IfOk result (λ table. table.layout ≡ layout) }
        ensures folders { IfOk result (λ table. table.folders ≡ folders_there layout paths.items) }
        ensures passed_over { IfOk result (λ table. table.passed_over ≡ paths_passed_over layout paths.items) }
    {
        let copies = copied(alloc, &paths)?;
        let folders = taken_folders(alloc, layout, copies)?;
        let passed_over = paths_without(paths, &folders);
        Ok(FolderTable {
            layout,
            folders,
            passed_over,
        })
    }

    /// How the folders lie below the Maildir.
    pub fn layout(&self) -> Layout
        ensures { result ≡ self.now.layout }
    {
        self.layout
    }

    /// The folders.
    pub fn folders(&self) -> &[MailFolder]
        ensures value { map folder_parts result.now ≡ self.now.folders }
        // Each is the one that its label tells.
        ensures told { (folder : FolderParts) → Contains self.now.folders folder → folder_of self.now.folders folder.label ≡ Some folder }
    {
        self.folders.as_slice()
    }

    /// The paths that were passed over, in their order: those at which no folder of the table lies.
    pub fn passed_over(&self) -> &[FolderPath]
        ensures { result.now ≡ self.now.passed_over }
    {
        self.passed_over.as_slice()
    }

    /// The paths that were passed over, of a table that is done with.
    pub fn into_passed_over(self) -> Vec<FolderPath>
        ensures { result.items ≡ self.passed_over }
    {
        let FolderTable { passed_over, .. } = self;
        passed_over
    }

    /// The folder of this label.
    pub fn at(&self, label: &Label) -> Option<&MailFolder>
        ensures { option_map folder_parts (option_copied result) ≡ folder_of self.now.folders label.now }
    {
        folder_in(self.folders.as_slice(), label)
    }

    /// The part of a folder that a listing of all folders has at a place: at 2k the `cur` of the folder k, and at 2k + 1 its `new`.
    pub(crate) fn part_at(&self, place: usize) -> Option<(&MailFolder, Part)>
        ensures { option_map (λ p. (folder_parts p.0.now, p.1)) result ≡ found.part_at self.now.folders place }
    {
        let folder = self.folders.get(place / 2)?;
        let part = if place % 2 == 0 { Part::Cur } else { Part::New };
        Some((folder, part))
    }

    /// The folders' paths.
    pub(crate) fn paths(&self, alloc: Global) -> Result<Vec<FolderPath>, AllocError>
        ensures { IfOk result (λ paths. paths.items ≡ map (λ folder. folder.path) self.now.folders) }
    {
        copied_paths(alloc, self.folders.as_slice())
    }

    /// The path of the label's folder: of the one that is there, else the one that the layout gives it, where this name was told of it.
    ///
    /// Whatever label and name a peer sent, it is the path of a folder of the Maildir.
    pub fn path_for(
        &self,
        alloc: Global,
        label: &Label,
        told: Option<&str>,
    ) -> Result<Option<FolderPath>, AllocError>
        ensures { IfOk result (λ path. path ≡ Some (path_given self.now label.now (option_copied told.entry))) }
    {
        let path = given_path(alloc, self.at(label), self.layout(), label, told)?;
        Ok(Some(path))
    }
}

/// The path of the label's folder that is there, else the one that the layout gives it.
fn given_path(
    alloc: Global,
    folder: Option<&MailFolder>,
    layout: Layout,
    label: &Label,
    told: Option<&str>,
) -> Result<FolderPath, AllocError>
    ensures { IfOk result (λ path. path ≡ path_or (option_map folder_parts (option_copied folder.entry)) (folder_path layout label.now (option_copied told.entry))) }
{
    match folder {
        Some(folder) => path_of(alloc, folder.path.as_str()),
        None => made_path(alloc, layout, label, told),
    }
}

/// The paths of these folders.
fn copied_paths(alloc: Global, folders: &[MailFolder]) -> Result<Vec<FolderPath>, AllocError>
    ensures { IfOk result (λ paths. paths.items ≡ map (λ folder. folder.path) (map folder_parts folders.now)) }
{
    let mut paths = Vec::with_capacity(alloc, folders.len())?;
    for folder in folders {
        paths.push(path_of(alloc, folder.path.as_str())?)?;
    }
    Ok(paths)
}

/// Equal paths.
fn copied(alloc: Global, paths: &[FolderPath]) -> Result<Vec<FolderPath>, AllocError>
    ensures { IfOk result (λ copies. copies.items ≡ paths.now) }
{
    let mut copies = Vec::with_capacity(alloc, paths.len())?;
    for path in paths {
        copies.push(path_of(alloc, path.as_str())?)?;
    }
    Ok(copies)
}

/// Those of the paths at which none of these folders lies.
fn paths_without(mut paths: Vec<FolderPath>, folders: &[MailFolder]) -> Vec<FolderPath>
    ensures { result.items ≡ filter (λ path. not (list_any (λ folder. text_eq folder.path path) folders.now)) paths.items }
{
    paths.retain(|path| !has_path(folders, path));
    paths
}

/// Whether one of the folders lies at this path.
fn has_path(folders: &[MailFolder], path: &FolderPath) -> bool
    ensures { result ≡ list_any (λ folder. text_eq folder.path path.now) folders.now }
{
    folders
        .iter()
        .any(|folder| folder.path.as_str() == path.as_str())
}

/// The path of this text.
fn path_of(alloc: Global, text: &str) -> Result<FolderPath, AllocError>
    requires { IsFolder text.now }
    ensures { IfOk result (λ path. path ≡ text.now) }
{
    match FolderPath::read(alloc, text)? {
        Some(path) => Ok(path),
        None => unreachable!(),
    }
}

/// The path that the layout gives the label's folder.
fn made_path(
    alloc: Global,
    layout: Layout,
    label: &Label,
    told: Option<&str>,
) -> Result<FolderPath, AllocError>
    ensures { IfOk result (λ path. path ≡ folder_path layout label.now (option_copied told.entry)) }
{
    let path = layout.folder_path(alloc, label, told)?;
    path_of(alloc, path.as_str())
}

/// The folders at these paths, each label's first.
fn taken_folders(
    alloc: Global,
    layout: Layout,
    paths: Vec<FolderPath>,
) -> Result<Vec<MailFolder>, AllocError>
    ensures { IfOk result (λ folders. map folder_parts folders.items ≡ folders_there layout paths.items) }
{
    let mut folders = Vec::new(alloc);
    for path in paths {
        let folder = mail_folder(alloc, layout, path)?;
        push_first(&mut folders, folder)?;
    }
    Ok(folders)
}

/// Appends a folder, if there is one, unless one has its label already.
fn push_first(folders: &mut Vec<MailFolder>, folder: Option<MailFolder>) -> Result<(), AllocError>
    ensures { OnOk result (map folder_parts folders.new.items ≡ with_folder (map folder_parts folders.old.items) (option_map folder_parts folder)) }
{
    match folder {
        Some(folder) => push_new(folders, folder),
        None => Ok(()),
    }
}

/// Appends a folder, unless one has its label already.
fn push_new(folders: &mut Vec<MailFolder>, folder: MailFolder) -> Result<(), AllocError>
    ensures { OnOk result (map folder_parts folders.new.items ≡ with_folder (map folder_parts folders.old.items) (Some (folder_parts folder))) }
{
    if has_label(folders.as_slice(), &folder.label) {
        return Ok(());
    }
    folders.push(folder)?;
    Ok(())
}

/// The first folder of this label.
fn folder_in<'a>(folders: &'a [MailFolder], label: &Label) -> Option<&'a MailFolder>
    ensures { option_copied result ≡ find (λ folder. text_eq folder.label label.now) folders.now }
{
    folders.iter().find(|folder| folder.label == *label)
}

/// Whether one of the folders has this label.
fn has_label(folders: &[MailFolder], label: &Label) -> bool
    ensures { result ≡ list_any (λ folder. text_eq folder.label label.now) folders.now }
{
    folders.iter().any(|folder| folder.label == *label)
}

/// The folder at a path.
fn mail_folder(
    alloc: Global,
    layout: Layout,
    path: FolderPath,
) -> Result<Option<MailFolder>, AllocError>
    ensures { IfOk result (λ folder. option_map folder_parts folder ≡ folder_there layout path) }
{
    if path.as_str().is_empty() {
        return Ok(Some(maildir_itself(alloc, path)?));
    }
    match layout.folder_at(alloc, path.as_str())? {
        Some(name) => Ok(Some(named_folder(alloc, path, name)?)),
        None => Ok(None),
    }
}

/// The Maildir itself.
fn maildir_itself(alloc: Global, path: FolderPath) -> Result<MailFolder, AllocError>
    ensures { IfOk result (λ folder. folder_parts folder ≡ record { path = path; label = codes "inbox"; name = codes "inbox" }) }
{
    Ok(MailFolder {
        path,
        label: inbox(),
        name: String::from_str(alloc, INBOX)?,
    })
}

/// The folder of this name.
fn named_folder(alloc: Global, path: FolderPath, name: String) -> Result<MailFolder, AllocError>
    ensures { IfOk result (λ folder. folder_parts folder ≡ record { path = path; label = label_of (string_bytes name); name = string_bytes name }) }
{
    let label = folder_label(alloc, name.as_str())?;
    Ok(MailFolder { path, label, name })
}

/// How the folders at these paths lie below the Maildir: as `Dots` where some path begins with a dot, or where there is no folder but the
/// Maildir itself; else as `Plain`.
pub fn default_layout(paths: &[FolderPath]) -> Layout
    ensures { result ≡ layout_of paths.now }
{
    if has_dots(paths) || are_of_maildir(paths) {
        Layout::Dots
    } else {
        Layout::Plain
    }
}

/// Whether one of the paths begins with a dot.
fn has_dots(paths: &[FolderPath]) -> bool
    ensures { result ≡ list_any begins_with_dot paths.now }
{
    paths
        .iter()
        .any(|path| path.as_str().as_bytes().first() == Some(&b'.'))
}

/// Whether each of the paths is that of the Maildir itself.
fn are_of_maildir(paths: &[FolderPath]) -> bool
    ensures { result ≡ list_all (λ path. length path == 0) paths.now }
{
    paths.iter().all(|path| path.as_str().is_empty())
}
