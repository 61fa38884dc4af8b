//! Where folders lie below the Maildir.
ghost use Rattle.std.specs.Prelude.{◌≡◌, ◌==◌, ◌&&◌, ◌∷◌, if◌then◌else◌, Some, None, IfOk, IfSome, IsTrue, codes, string_bytes, false, not, nat_le, length, map, option_map};
ghost use Rattle.std.specs.List.{list_all, join_with_byte};
ghost use Rattle.std.specs.Option.{option_copied};
ghost use Rattle.mr_mail.specs.Label.{text_eq};
ghost use Rattle.mr_maildir.specs.Folder.{label_of, is_kept_name};
ghost use Rattle.mr_maildir.specs.declared.layout.Layout.{Layout};
ghost use Rattle.mr_maildir.specs.Layout as specs;
ghost use Rattle.mr_maildir.specs.Layout.{cut_at, path_of, name_for, name_at, IsFolderPath};

use crate::folder::{INBOX, folder_label, is_part_name, is_safe_folder};
use crate::told::behind;
use mr_mail::Label;
use std::alloc::{AllocError, Global};

/// How the folders of a Maildir lie below it. The Maildir itself is the folder `inbox`.
///
/// The levels of a folder's name stand with dots between them, as in `Archive.2026`.
#[derive(Clone, Copy, Debug, PartialEq, Eq)]
pub enum Layout {
    /// A folder has its name behind a dot, as `.Archive.2026`: Maildir++, as of
    /// <https://www.courier-mta.org/imap/README.maildirquota.html>.
    Dots,
    /// Each level is a folder in the one above it, as `Archive/2026`. No level has a dot, or is `cur`, `new` or `tmp`.
    Plain,
}

impl Layout {
    /// The path of the label's folder below the Maildir, with no slash at its ends: nothing for `inbox`.
    ///
    /// The name is the one that was told, if it may be taken from others, the layout can have it, and a folder of that name has
    /// this label; else it is the label itself, or, for a label that no folder of its name has, the label of its name.
    pub fn folder_path(
        self,
        alloc: Global,
        label: &Label,
        told: Option<&str>,
    ) -> Result<String, AllocError>
        ensures value { IfOk result (λ path. string_bytes path ≡ specs.folder_path self label.now (option_copied told.entry)) }

        // Whatever was told, it is a path below the Maildir, and none of the program's own.
        ensures below { IfOk result (λ path. text_eq label.now (codes "inbox") ≡ false → IsFolderPath self (string_bytes path)) }
        ensures not_own { IfOk result (λ path. text_eq (string_bytes path) (codes ".mailfold") ≡ false) }
        // Read back, the name is of a folder with this label.
        ensures read_back { is_kept_name label.now ≡ false
            → option_map label_of (name_at self (specs.folder_path self label.now (option_copied told.entry))) ≡ Some label.now }
    {
        // a label is within its bounds
        let _text = label.as_str();
        self.path_for(alloc, label, told)
    }

    /// The name of the folder at a path below the Maildir. `None` where the layout makes no such path; so of the path of the
    /// Maildir itself, which is empty.
    pub fn folder_at(self, alloc: Global, path: &str) -> Result<Option<String>, AllocError>
        ensures value { IfOk result (λ name. option_map string_bytes name ≡ name_at self path.now) }
        ensures written { IfSome (name_at self path.now) (λ name. path_of self name ≡ path.now) }
    {
        match self {
            Layout::Dots => dotted_name(alloc, path),
            Layout::Plain => plain_name(alloc, path),
        }
    }

    /// Whether a folder of this name may be made.
    fn admits(self, name: &str) -> bool
        ensures { result ≡ specs.admits self name.now }
    {
        is_safe_folder(name)
            && match self {
                Layout::Dots => true,
                Layout::Plain => are_levels(name),
            }
    }

    /// The path of the label's folder.
    fn path_for(
        self,
        alloc: Global,
        label: &Label,
        told: Option<&str>,
    ) -> Result<String, AllocError>
        ensures value { IfOk result (λ path. string_bytes path ≡ specs.folder_path self label.now (option_copied told.entry)) }
        ensures below { IfOk result (λ path. text_eq label.now (codes "inbox") ≡ false → IsFolderPath self (string_bytes path)) }
        ensures not_own { IfOk result (λ path. text_eq (string_bytes path) (codes ".mailfold") ≡ false) }
    {
        if label.as_str() == INBOX {
            return Ok(String::new(alloc));
        }
        let name = self.name_for(alloc, label, told)?;
        self.path_of(alloc, name.as_str())
    }

    /// The name of the label's folder.
    fn name_for(
        self,
        alloc: Global,
        label: &Label,
        told: Option<&str>,
    ) -> Result<String, AllocError>
        ensures value { IfOk result (λ name. string_bytes name ≡ name_for self label.now (option_copied told.entry)) }
        ensures admitted { IfOk result (λ name. IsTrue (specs.admits self (string_bytes name))) }
    {
        match told {
            Some(told) if self.is_name_for(alloc, label, told)? => String::from_str(alloc, told),
            _ => label_name(alloc, label),
        }
    }

    /// Whether the name that was told may be that of the label's folder.
    fn is_name_for(self, alloc: Global, label: &Label, told: &str) -> Result<bool, AllocError>
        ensures { IfOk result (λ is. is ≡ (specs.admits self told.now && text_eq (label_of told.now) label.now)) }
    {
        if self.admits(told) {
            Ok(folder_label(alloc, told)? == *label)
        } else {
            Ok(false)
        }
    }

    /// The path of a folder of this name.
    fn path_of(self, alloc: Global, name: &str) -> Result<String, AllocError>
        ensures value { IfOk result (λ path. string_bytes path ≡ path_of self name.now) }
        ensures below { IsTrue (specs.admits self name.now) → IfOk result (λ path. IsFolderPath self (string_bytes path)) }
        ensures not_own { IsTrue (specs.admits self name.now) → IfOk result (λ path. text_eq (string_bytes path) (codes ".mailfold") ≡ false) }
    {
        self.written(alloc, name)
    }

    /// The path of a folder of this name, written.
    fn written(self, alloc: Global, name: &str) -> Result<String, AllocError>
        ensures { IfOk result (λ path. string_bytes path ≡ path_of self name.now) }
    {
        match self {
            Layout::Dots => behind_dot(alloc, name),
            Layout::Plain => with_slashes(alloc, name),
        }
    }
}

/// The levels of the name with slashes between them.
fn with_slashes(alloc: Global, name: &str) -> Result<String, AllocError>
    ensures { IfOk result (λ path. string_bytes path ≡ join_with_byte 47 (cut_at 46 name.now)) }
{
    let levels = levels_of_name(alloc, name)?;
    levels.as_slice().join(alloc, "/")
}

/// The parts of the path with dots between them.
fn with_dots(alloc: Global, path: &str) -> Result<String, AllocError>
    ensures { IfOk result (λ name. string_bytes name ≡ join_with_byte 46 (cut_at 47 path.now)) }
{
    let levels = levels_of_path(alloc, path)?;
    levels.as_slice().join(alloc, ".")
}

/// The levels of a name.
fn levels_of_name(alloc: Global, name: &str) -> Result<Vec<&str>, AllocError>
    ensures { IfOk result (λ levels. map (λ level. level.now) levels.items ≡ cut_at 46 name.now) }
{
    name.split('.').collect(alloc)
}

/// The parts of a path.
fn levels_of_path(alloc: Global, path: &str) -> Result<Vec<&str>, AllocError>
    ensures { IfOk result (λ levels. map (λ level. level.now) levels.items ≡ cut_at 47 path.now) }
{
    path.split('/').collect(alloc)
}

/// The name of the label's folder where none was told.
fn label_name(alloc: Global, label: &Label) -> Result<String, AllocError>
    ensures value { IfOk result (λ name. string_bytes name ≡ label_of label.now) }
    ensures admitted { (layout : Layout) → IfOk result (λ name. IsTrue (specs.admits layout (string_bytes name))) }
{
    let named = folder_label(alloc, label.as_str())?;
    String::from_str(alloc, named.as_str())
}

/// The name behind a dot.
fn behind_dot(alloc: Global, name: &str) -> Result<String, AllocError>
    ensures { IfOk result (λ path. string_bytes path ≡ 46 ∷ name.now) }
{
    let mut path = String::from_str(alloc, ".")?;
    path.push_str(name)?;
    Ok(path)
}

/// Whether each level of the name may be a folder of its own.
fn are_levels(name: &str) -> bool
    ensures { result ≡ list_all specs.is_level (cut_at 46 name.now) }
{
    name.split('.').all(|level| is_level(level))
}

/// Whether a level may be a folder of its own.
fn is_level(level: &str) -> bool
    ensures { result ≡ specs.is_level level.now }
{
    !level.is_empty() && !is_part_name(level)
}

/// The name that stands behind a dot in the path.
fn dotted_name(alloc: Global, path: &str) -> Result<Option<String>, AllocError>
    ensures { IfOk result (λ name. option_map string_bytes name ≡ specs.dotted_name path.now) }
{
    match behind(path, ".") {
        Some(name) => name_behind_dot(alloc, name),
        None => Ok(None),
    }
}

/// The name, if it may stand behind a dot.
fn name_behind_dot(alloc: Global, name: &str) -> Result<Option<String>, AllocError>
    ensures { IfOk result (λ found. option_map string_bytes found ≡ (if nat_le 1 (length name.now) && list_all (λ b. not (b == 47)) name.now then Some name.now else None)) }
{
    if is_dotted(name) {
        Ok(Some(String::from_str(alloc, name)?))
    } else {
        Ok(None)
    }
}

/// Whether a name may stand behind a dot.
fn is_dotted(name: &str) -> bool
    ensures { result ≡ (nat_le 1 (length name.now) && list_all (λ b. not (b == 47)) name.now) }
{
    1 <= name.len() && lacks(name.as_bytes(), b'/')
}

/// Whether the byte is none of these.
pub(crate) fn lacks(bytes: &[u8], byte: u8) -> bool
    ensures { result ≡ list_all (λ b. not (b == byte)) bytes.now }
{
    bytes.iter().all(|b| *b != byte)
}

/// The name whose levels are the parts of the path.
fn plain_name(alloc: Global, path: &str) -> Result<Option<String>, AllocError>
    ensures { IfOk result (λ name. option_map string_bytes name ≡ name_at Layout.Plain path.now) }
{
    if !are_read_levels(path) {
        return Ok(None);
    }
    Ok(Some(with_dots(alloc, path)?))
}

/// Whether each part of the path is a level.
fn are_read_levels(path: &str) -> bool
    ensures { result ≡ list_all specs.is_read_level (cut_at 47 path.now) }
{
    path.split('/').all(|level| is_read_level(level))
}

/// Whether a part of a path is a level: it has no dot.
fn is_read_level(level: &str) -> bool
    ensures { result ≡ specs.is_read_level level.now }
{
    is_level(level) && lacks(level.as_bytes(), b'.')
}
