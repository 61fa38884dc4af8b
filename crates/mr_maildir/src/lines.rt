//! The lines of a mail's body that tell more: its file's name, names of folders, counts, and what else stands there.
ghost use Rattle.std.specs.Prelude.{◌≡◌, ◌<◌, ◌≤◌, ◌&&◌, ◌∷◌, ◌++◌, ℕ, List, Option, Some, None, IfOk, IfSome, IsTrue, MatchOption, OnOk, [], codes, true, false, not, map, drop, length, is_some, option_map, string_bytes, if◌then◌else◌};
ghost use Rattle.std.specs.List.{list_all, flat_map};
ghost use Rattle.std.specs.Option.{option_copied};
ghost use Rattle.std.specs.Ordering.{is_lt};
ghost use Rattle.mr_mail.specs.Label.{text_cmp};
ghost use Rattle.mr_joins.specs.declared.mark.Mark.{Mark};
ghost use Rattle.mr_maildir.specs.Layout.{cut_at};
ghost use Rattle.mr_maildir.specs.Counts.{is_item, is_mark, counts_lines, ended};
ghost use Rattle.mr_maildir.specs.Lines.{FolderParts, LinesParts, AreLines, folder_of, lines_of, is_folder, name_in, folder_in, folder_line, name_lines, before_byte, behind_byte, told_lines, is_some_name};
ghost use Rattle.mr_maildir.specs.Lines as specs;
ghost use Rattle.mr_maildir.specs.inner.Lines.{begins_folder, begins_counts, first_name};

use crate::counts::{push_counts, read_counts_line};
use crate::folder::{folder_label, is_plain, is_safe_folder};
use crate::layout::lacks;
use crate::name::is_safe_name;
use crate::told::behind;
use mr_joins::Mark;
use mr_mail::Label;
use mr_version::ItemId;
use std::alloc::{AllocError, Global};

/// The name of a folder whose label is a digest of it.
#[derive(Debug, Drop)]
pub struct FolderName {
    /// The folder's label.
    pub label: Label,
    /// The name that has this label.
    pub name: String,
}

/// What the lines of a mail's body tell, behind those of its digest and size.
#[derive(Debug, Drop)]
pub struct MailLines {
    /// The name of the mail's file, if it is told.
    pub name: Option<String>,
    /// Names of folders whose labels are digests, by rising label.
    pub folders: Vec<FolderName>,
    /// What was toggled, the record's own item first.
    pub marks: Vec<Mark>,
    /// Lines that aren't known, in the order in which they stand.
    pub others: Vec<String>,
}

impl MailLines {
    /// The name of the label's folder, if it is told.
    pub fn folder_name(&self, label: &Label) -> Option<&str>
        ensures { option_copied result ≡ specs.name_of label.now (map folder_of self.now.folders.items) }
    {
        name_of(&self.folders, label)
    }
}

/// The name that the first of these folders with this label has.
fn name_of<'a>(folders: &'a [FolderName], label: &Label) -> Option<&'a str>
    ensures { option_copied result ≡ specs.name_of label.now (map folder_of folders.now) }
{
    for folder in folders {
        if folder.label == *label {
            return Some(folder.name.as_str());
        }
    }
    None
}

/// What the line of a file's name begins with, one of a folder's name, and one of counts.
const NAME_KEY: &str = "name ";

const FOLDER_KEY: &str = "folder ";

const COUNTS_KEY: &str = "counts ";

/// The name that the line tells.
fn name_told(line: &str) -> Option<&str>
    ensures { option_copied result ≡ name_in line.now }
{
    let name = behind(line, NAME_KEY)?;
    if is_safe_name(name) { Some(name) } else { None }
}

/// The folder that the line tells.
fn folder_told(alloc: Global, line: &str) -> Result<Option<FolderName>, AllocError>
    ensures { IfOk result (λ found. option_map folder_of found ≡ folder_in line.now) }
{
    match behind(line, FOLDER_KEY) {
        Some(text) => folder_cut(alloc, text),
        None => Ok(None),
    }
}

/// The folder that a text tells, a label and a name with a space between them.
fn folder_cut(alloc: Global, text: &str) -> Result<Option<FolderName>, AllocError>
    ensures { IfOk result (λ found. option_map folder_of found ≡ specs.folder_in_line (Some text.now)) }
{
    let (label, name) = parts_at_space(text);
    folder_named(alloc, label, name)
}

/// What stands in front of the first space, and behind it.
fn parts_at_space(text: &str) -> (&str, &str)
    ensures before { result.0.now ≡ before_byte 32 text.now }
    ensures behind { result.1.now ≡ behind_byte 32 text.now }
{
    text.split_once(' ').unwrap_or((text, ""))
}

/// The folder of this name, if its label is this one, and a digest.
fn folder_named(alloc: Global, label: &str, name: &str) -> Result<Option<FolderName>, AllocError>
    ensures { IfOk result (λ found. option_map folder_of found
        ≡ (if is_folder (record { label = label.now; name = name.now }) then Some (record { label = label.now; name = name.now }) else None)) }
{
    if !is_safe_folder(name) || is_plain(name) {
        return Ok(None);
    }
    let own = folder_label(alloc, name)?;
    if own.as_str() != label {
        return Ok(None);
    }
    let name = String::from_str(alloc, name)?;
    Ok(Some(FolderName { label: own, name }))
}

/// Whether the line is one of counts.
fn is_counts_line(line: &str) -> bool
    ensures { result ≡ specs.is_counts_line line.now }
{
    line.starts_with(COUNTS_KEY)
}

/// Whether the line is none that is known.
fn is_other_line(alloc: Global, line: &str) -> Result<bool, AllocError>
    ensures { IfOk result (λ is. is ≡ specs.is_other_line line.now) }
{
    if name_told(line).is_some() || is_counts_line(line) || !lacks(line.as_bytes(), b'\n') {
        return Ok(false);
    }
    let folder = folder_told(alloc, line)?;
    Ok(folder.is_none())
}

/// The lines of a text; behind the last newline stands one more.
pub(crate) fn lines_in(alloc: Global, text: &str) -> Result<Vec<&str>, AllocError>
    ensures { IfOk result (λ lines. map (λ line. line.now) lines.items ≡ cut_at 10 text.now) }
{
    text.split('\n').collect(alloc)
}

/// The name that the first of these lines tells, and where the lines behind it begin.
fn name_first<'a>(lines: &[&'a str]) -> (Option<&'a str>, usize)
    ensures value { option_copied result.0 ≡ first_name (map (λ line. line.now) lines.now) }
    ensures place { result.1 ≡ (if is_some (first_name (map (λ line. line.now) lines.now)) then 1 else 0) }
{
    if let Some(line) = lines.first() {
        if let Some(name) = name_told(line) {
            return (Some(name), 1);
        }
    }
    (None, 0)
}

/// Appends the folders that lines tell from a place on, up to the first that tells none, and answers where that is.
fn read_folders(
    alloc: Global,
    folders: &mut Vec<FolderName>,
    lines: &[&str],
    from: usize,
) -> Result<usize, AllocError>
    requires { from ≤ length lines.now }
    ensures is { list_all is_folder (map folder_of folders.old.items) ≡ true → list_all is_folder (map folder_of folders.new.items) ≡ true }
    ensures within { IfOk result (λ n. n ≤ length lines.now) }
    ensures whole { (told : List FolderParts) (rest : List (List ℕ)) → list_all is_folder told ≡ true → begins_folder rest ≡ false
        → map (λ line. line.now) (drop from lines.now) ≡ map folder_line told ++ rest
        → IfOk result (λ n. (map (λ line. line.now) (drop n lines.now) ≡ rest) × (map folder_of folders.new.items ≡ map folder_of folders.old.items ++ told)) }
{
    let mut i = from;
    while i < lines.len() {
        let Some(folder) = folder_told(alloc, lines[i])? else {
            return Ok(i);
        };
        folders.push(folder)?;
        i += 1;
    }
    Ok(i)
}

/// Appends the marks that lines of counts tell from a place on, up to the first other line, and answers where that is;
/// `None` where one of them tells none.
fn read_counts(
    alloc: Global,
    own: ItemId,
    marks: &mut Vec<Mark>,
    lines: &[&str],
    from: usize,
) -> Result<Option<usize>, AllocError>
    requires own { IsTrue (is_item own) }
    requires from { from ≤ length lines.now }
    ensures is { list_all is_mark marks.old.items ≡ true → list_all is_mark marks.new.items ≡ true }
    ensures within { IfOk result (λ found. IfSome found (λ n. n ≤ length lines.now)) }
    ensures whole { (told : List Mark) (rest : List (List ℕ)) → list_all is_mark told ≡ true → begins_counts rest ≡ false
        → map (λ line. line.now) (drop from lines.now) ≡ counts_lines own told ++ rest
        → IfOk result (λ found. MatchOption found ⊥ (λ n. (map (λ line. line.now) (drop n lines.now) ≡ rest) × (marks.new.items ≡ marks.old.items ++ told))) }
{
    let mut i = from;
    while i < lines.len() && is_counts_line(lines[i]) {
        if !read_counts_line(alloc, own, marks, lines[i])? {
            return Ok(None);
        }
        i += 1;
    }
    Ok(Some(i))
}

/// Appends the lines from a place on, if none of them is one that is known. Answers whether that is so.
fn read_others(
    alloc: Global,
    others: &mut Vec<String>,
    lines: &[&str],
    from: usize,
) -> Result<bool, AllocError>
    ensures is { list_all specs.is_other_line (map string_bytes others.old.items) ≡ true → list_all specs.is_other_line (map string_bytes others.new.items) ≡ true }
    ensures whole { list_all specs.is_other_line (map (λ line. line.now) (drop from lines.now)) ≡ true
        → IfOk result (λ all. (all ≡ true) × (map string_bytes others.new.items ≡ map string_bytes others.old.items ++ map (λ line. line.now) (drop from lines.now))) }
{
    let mut i = from;
    while i < lines.len() {
        if !is_other_line(alloc, lines[i])? {
            return Ok(false);
        }
        others.push(String::from_str(alloc, lines[i])?)?;
        i += 1;
    }
    Ok(true)
}

/// Whether each folder's label is below the next one's.
fn are_rising(folders: &[FolderName]) -> bool
    ensures { result ≡ specs.are_rising (map folder_of folders.now) }
{
    let mut i = 1;
    while i < folders.len() {
        if !stands_before(&folders[i - 1], &folders[i]) {
            return false;
        }
        i += 1;
    }
    true
}

/// Whether the label of one folder is below that of the other.
fn stands_before(a: &FolderName, b: &FolderName) -> bool
    ensures { result ≡ is_lt (text_cmp a.now.label b.now.label) }
{
    a.label.cmp(&b.label).is_lt()
}

/// An own copy of a name that is lent.
fn own_text(alloc: Global, text: Option<&str>) -> Result<Option<String>, AllocError>
    ensures { IfOk result (λ own. option_map string_bytes own ≡ option_copied text.entry) }
{
    match text {
        Some(text) => Ok(Some(String::from_str(alloc, text)?)),
        None => Ok(None),
    }
}

/// What lines tell in a record of this item; `None` where a line of counts tells none, or another stands where it isn't
/// written.
pub(crate) fn read_lines(
    alloc: Global,
    own: ItemId,
    lines: &[&str],
) -> Result<Option<MailLines>, AllocError>
    requires { IsTrue (is_item own) }
    ensures is { IfOk result (λ found. IfSome found (λ told. AreLines (lines_of told))) }
    ensures whole { (told : LinesParts) → AreLines told → map (λ line. line.now) lines.now ≡ told_lines own told
        → IfOk result (λ found. MatchOption found ⊥ (λ read. lines_of read ≡ told)) }
{
    let (name, from) = name_first(lines);
    let mut folders = Vec::new(alloc);
    let folders_end = read_folders(alloc, &mut folders, lines, from)?;
    let mut marks = Vec::new(alloc);
    let Some(counts_end) = read_counts(alloc, own, &mut marks, lines, folders_end)? else {
        return Ok(None);
    };
    let mut others = Vec::new(alloc);
    if !read_others(alloc, &mut others, lines, counts_end)? || !are_rising(&folders) {
        return Ok(None);
    }
    let name = own_text(alloc, name)?;
    Ok(Some(MailLines {
        name,
        folders,
        marks,
        others,
    }))
}

/// Appends the lines of a record of this item.
pub(crate) fn push_lines(
    alloc: Global,
    text: &mut String,
    own: ItemId,
    told: &MailLines,
) -> Result<(), AllocError>
    ensures { OnOk result (string_bytes text.new ≡ string_bytes text.old ++ flat_map ended (told_lines own (lines_of told.now))) }
{
    if let Some(name) = &told.name {
        push_name(text, name.as_str())?;
    }
    push_folders(text, &told.folders)?;
    push_counts(alloc, text, own, &told.marks)?;
    push_others(text, &told.others)
}

/// Appends the line of the file's name.
fn push_name(text: &mut String, name: &str) -> Result<(), AllocError>
    ensures { OnOk result (string_bytes text.new ≡ string_bytes text.old ++ ended (specs.name_line name.now)) }
{
    text.push_str(NAME_KEY)?;
    text.push_str(name)?;
    text.push_str("\n")?;
    Ok(())
}

/// Appends the lines of folders.
fn push_folders(text: &mut String, folders: &[FolderName]) -> Result<(), AllocError>
    ensures { OnOk result (string_bytes text.new ≡ string_bytes text.old ++ flat_map ended (map folder_line (map folder_of folders.now))) }
{
    for folder in folders {
        push_folder(text, folder)?;
    }
    Ok(())
}

/// Appends the line of a folder.
fn push_folder(text: &mut String, folder: &FolderName) -> Result<(), AllocError>
    ensures { OnOk result (string_bytes text.new ≡ string_bytes text.old ++ ended (folder_line (folder_of folder.now))) }
{
    text.push_str(FOLDER_KEY)?;
    text.push_str(folder.label.as_str())?;
    text.push_str(" ")?;
    text.push_str(folder.name.as_str())?;
    text.push_str("\n")?;
    Ok(())
}

/// Appends the lines that aren't known.
fn push_others(text: &mut String, others: &[String]) -> Result<(), AllocError>
    ensures { OnOk result (string_bytes text.new ≡ string_bytes text.old ++ flat_map ended (map string_bytes others.now)) }
{
    for other in others {
        text.push_str(other.as_str())?;
        text.push_str("\n")?;
    }
    Ok(())
}
