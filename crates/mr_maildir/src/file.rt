//! A mail's file in a folder of a Maildir.
ghost use Rattle.std.specs.Prelude.{◌≡◌, ◌++◌, ◌∷◌, [], if◌then◌else◌, nat_le, length, IfOk, codes, string_bytes, true, false};
ghost use Rattle.mr_maildir.specs.Name.{name_text, IsName};
ghost use Rattle.mr_maildir.specs.File.{name_of, flags_on, letters_on, path_text};

use crate::info::{INFO_KEY, Info};
use crate::letters::flags_of;
use crate::name::read_name;
use crate::told::behind;
use mr_mail::{Flags, Label};
use std::alloc::{AllocError, Global};
use std::marker::Model;

/// A file of a mail in a Maildir: the label of the folder that it lies in, whether it stands there in `new` and not in
/// `cur`, and the parts of its name.
#[derive(Debug, Drop)]
pub struct MailFile {
    label: Label,
    is_new: bool,
    unique: String,
    info: Info,
}

impl Model for MailFile {
    ghost use Rattle.std.specs.Prelude.{string_bytes};
    ghost use Rattle.mr_maildir.specs.File.{FileParts};

    ghost Value = { FileParts };

    ghost view = { λ f. record { label = f.label; is_new = f.is_new; unique = string_bytes f.unique; info = f.info } };
}

impl MailFile {
    /// The file of this name in the label's folder, in `new` or in `cur`. The parts of the name are those of `read_name`.
    pub fn read(
        alloc: Global,
        label: &Label,
        is_new: bool,
        name: &str,
    ) -> Result<MailFile, AllocError>
        ensures label { IfOk result (λ file. file.label ≡ label.now) }
        ensures is_new { IfOk result (λ file. file.is_new ≡ is_new) }
        ensures written { IfOk result (λ file. file.unique ++ file.info ≡ name.now) }
        ensures named { IfOk result (λ file. name_text (name_of file) ≡ name.now) }
        ensures is_name { IfOk result (λ file. IsName (name_of file)) }
    {
        let parts = read_name(name);
        Ok(MailFile {
            label: label.copy()?,
            is_new,
            unique: String::from_str(alloc, parts.unique)?,
            info: Info::new(alloc, parts.letters)?,
        })
    }

    /// The file with these letters, in `cur`.
    pub(crate) fn with_letters(
        alloc: Global,
        label: &Label,
        unique: &str,
        letters: &str,
    ) -> Result<MailFile, AllocError>
        ensures { IfOk result (λ file. file ≡ record { label = label.now; is_new = false; unique = unique.now; info = 58 ∷ 50 ∷ 44 ∷ letters.now }) }
    {
        Ok(MailFile {
            label: label.copy()?,
            is_new: false,
            unique: String::from_str(alloc, unique)?,
            info: Info::with_letters(alloc, letters)?,
        })
    }

    /// The file without letters, in `new`.
    pub(crate) fn without_letters(
        alloc: Global,
        label: &Label,
        unique: &str,
    ) -> Result<MailFile, AllocError>
        ensures { IfOk result (λ file. file ≡ record { label = label.now; is_new = true; unique = unique.now; info = [] }) }
    {
        Ok(MailFile {
            label: label.copy()?,
            is_new: true,
            unique: String::from_str(alloc, unique)?,
            info: Info::empty(),
        })
    }

    /// An equal file. Its name takes one piece of memory, and one more where it has more than 13 letters.
    pub(crate) fn copy(&self, alloc: Global) -> Result<MailFile, AllocError>
        ensures { IfOk result (λ file. file ≡ self.now) }
    {
        let is_new = self.is_new;
        Ok(MailFile {
            label: self.label.copy()?,
            is_new,
            unique: String::from_str(alloc, self.unique.as_str())?,
            info: self.info.copy(alloc)?,
        })
    }

    /// The label of its folder.
    pub fn label(&self) -> &Label
        ensures { result.now ≡ self.now.label }
    {
        &self.label
    }

    /// Whether it stands in `new`, and not in `cur`.
    pub fn is_new(&self) -> bool
        ensures { result ≡ self.now.is_new }
    {
        self.is_new
    }

    /// What is unique of its name.
    pub fn unique(&self) -> &str
        ensures { result.now ≡ self.now.unique }
    {
        self.unique.as_str()
    }

    /// Its letters; none where its name has no `:2,`.
    pub fn letters(&self) -> &str
        ensures { result.now ≡ letters_on self.now }
    {
        match behind(self.info.as_str(), INFO_KEY) {
            Some(letters) => letters,
            None => "",
        }
    }

    /// The flags that its letters tell.
    pub fn flags(&self) -> Flags
        ensures { result ≡ flags_on self.now }
    {
        flags_of(self.letters())
    }

    /// Its name, as a listing of its folder has it.
    pub fn name(&self, alloc: Global) -> Result<String, AllocError>
        ensures { IfOk result (λ name. string_bytes name ≡ self.now.unique ++ self.now.info) }
    {
        let mut name = String::from_str(alloc, self.unique.as_str())?;
        name.push_str(self.info.as_str())?;
        Ok(name)
    }

    /// Its path below the Maildir, as `FOLDER/cur/NAME`, in a folder of this path, which is empty for the Maildir itself.
    pub fn path(&self, alloc: Global, folder: &str) -> Result<String, AllocError>
        ensures { IfOk result (λ path. string_bytes path ≡ path_text folder.now self.now) }
    {
        let mut path = folder_part(alloc, folder)?;
        path.push_str(part_name(self.is_new))?;
        path.push_str(self.unique.as_str())?;
        path.push_str(self.info.as_str())?;
        Ok(path)
    }
}

impl PartialEq for MailFile {
    ghost use Rattle.std.specs.Cmp;
    ghost use Rattle.mr_maildir.specs.File.{file_eq, file_eq_equiv};

    ghost eq = { file_eq };

    ghost laws = { Cmp.partial_equiv_from_equiv file_eq_equiv };

    fn eq(&self, other: &MailFile) -> bool {
        self.label == other.label
            && self.is_new == other.is_new
            && self.unique.as_str() == other.unique.as_str()
            && self.info.as_str() == other.info.as_str()
    }
}

/// The path of a folder and the slash behind it, or nothing for the Maildir itself.
fn folder_part(alloc: Global, folder: &str) -> Result<String, AllocError>
    ensures { IfOk result (λ path. string_bytes path ≡ (if nat_le 1 (length folder.now) then folder.now ++ 47 ∷ [] else [])) }
{
    let mut path = String::from_str(alloc, folder)?;
    if !folder.is_empty() {
        path.push_str("/")?;
    }
    Ok(path)
}

/// The folder's part that the file stands in.
fn part_name(is_new: bool) -> &'static str
    ensures { result.now ≡ (if is_new then codes "new/" else codes "cur/") }
{
    if is_new { "new/" } else { "cur/" }
}
