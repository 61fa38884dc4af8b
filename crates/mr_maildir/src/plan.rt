//! What is done with the files of a mail, so that they stand as a view says.
ghost use Rattle.std.specs.Prelude.{◌≡◌, ◌<◌, ◌+◌, ◌++◌, ℕ, List, Option, string_bytes, IfOk, IfErr, OnOk, IsTrue, false, true, length, take};
ghost use Rattle.std.specs.List.{list_all, list_any, flat_map};
ghost use Rattle.std.specs.Option.{option_copied};
ghost use Rattle.hex.specs.Hex.{encode_lower};
ghost use Rattle.mr_maildir.specs.Name.{IsMadeName};
ghost use Rattle.mr_maildir.specs.File.{FileParts, has_file};
ghost use Rattle.mr_maildir.specs.FileActs as specs;
ghost use Rattle.mr_maildir.specs.FileActs.{mail_of, acts_for, after, standing_files, touches, tells, overwrites_nothing, IsFileFault, put_in};
ghost use Rattle.mr_maildir.specs.inner.FileActs.{mail_in};

use crate::file::MailFile;
use crate::folder::is_path_byte;
use crate::letters::letters_with;
use crate::name::unique_for;
use crate::view::View;
use mr_mail::{Flags, Label};
use std::alloc::{AllocError, AllocFailed, Global};
use thiserror::Error;

/// What is done with a file of a mail.
#[derive(Debug, Drop)]
pub enum FileAct {
    /// A link of a file that is seen is made, or, where it is of none, of the store's file.
    Link {
        from: Option<MailFile>,
        to: MailFile,
    },
    /// A file gets another name in its folder.
    Move {
        from: MailFile,
        to: MailFile,
    },
    /// A file is removed.
    Remove {
        file: MailFile,
    },
}

/// Why a mail's files can't be made to stand as a view says.
#[derive(Clone, Copy, Debug, PartialEq, Eq, Drop, Error)]
pub enum FileFault {
    #[error("out of memory")]
    OutOfMemory,
    #[error("another mail's file has the name")]
    NameTaken,
}

impl FileFault {
    /// The fault's number: 0 for out of memory, and 1 for a name that is taken.
    pub fn number(self) -> u8
        ensures { result ≡ specs.fault_number self }
    {
        match self {
            FileFault::OutOfMemory => 0,
            FileFault::NameTaken => 1,
        }
    }
}

impl From<AllocError> for FileFault {
    ghost use Rattle.std.specs.Prelude.{◌≡◌};
    ghost use Rattle.mr_maildir.specs.declared.plan.FileFault.TheVariants.{OutOfMemory};

    ghost from_gives = { λ _ fault. fault ≡ OutOfMemory };

    fn from(_error: AllocError) -> FileFault {
        FileFault::OutOfMemory
    }
}

impl<T: Drop> From<AllocFailed<T>> for FileFault {
    ghost use Rattle.std.specs.Prelude.{◌≡◌};
    ghost use Rattle.mr_maildir.specs.declared.plan.FileFault.TheVariants.{OutOfMemory};

    ghost from_gives = { λ _ fault. fault ≡ OutOfMemory };

    fn from(_error: AllocFailed<T>) -> FileFault {
        FileFault::OutOfMemory
    }
}

/// The acts that lead from the seen files of one mail to those of the view: one file in each of its folders, whose
/// letters tell the view's flags, with each letter that tells none as it was. A view of no folder removes them all.
///
/// First come links, from the first file that is seen, then new names, and last what goes; so a view of some folder is
/// never without a file, once it has one. A file that stays is not touched: of several in a folder one that tells the
/// flags, or else the first. A file that is made stands in `new` if it has no letter and is made of the store's file or
/// of one in `new`, else in `cur`.
///
/// A made file has the unique part of the one that it is made of, if that is fit for it (1 to 200 bytes without control
/// characters, `/` and `:`, of which the first is no dot), else what `unique_for` gives of `told` and `digest`; where
/// another mail's file in the folder has that, the digits of the digest. `taken` are the files of other mails that might
/// be in the way; more of them do no harm. `NameTaken` if a folder has both names.
///
/// It takes time as the labels of the view and the files that are seen, multiplied.
pub fn file_acts(
    alloc: Global,
    seen: &[MailFile],
    view: &View,
    told: &str,
    digest: &[u8; 32],
    taken: &[MailFile],
) -> Result<Vec<FileAct>, FileFault>
    ensures value { IfOk result (λ acts. acts.items ≡ acts_for (mail_of seen.now view.now.flags told.now digest.now taken.now) view.now.labels) }
    ensures fault { IfErr result (IsFileFault (mail_of seen.now view.now.flags told.now digest.now taken.now) view.now.labels) }

    // Done in turn, they leave just the files of the view.
    ensures files { let mail = mail_of seen.now view.now.flags told.now digest.now taken.now in
        (file : FileParts) → has_file (after (acts_for mail view.now.labels) seen.now) file
        ≡ has_file (standing_files mail view.now.labels) file }
    ensures flags { let mail = mail_of seen.now view.now.flags told.now digest.now taken.now in
        IsTrue (list_all (tells view.now.flags) (standing_files mail view.now.labels)) }
    // What stays is not touched.
    ensures untouched { let mail = mail_of seen.now view.now.flags told.now digest.now taken.now in
        (file : FileParts) → has_file seen.now file ≡ true → has_file (standing_files mail view.now.labels) file ≡ true
        → list_any (touches file) (acts_for mail view.now.labels) ≡ false }
    // Some file stands at every moment.
    ensures stands { let mail = mail_of seen.now view.now.flags told.now digest.now taken.now in
        (k : ℕ) → 0 < length view.now.labels → 0 < length seen.now + k
        → 0 < length (after (take k (acts_for mail view.now.labels)) seen.now) }
    // Nothing is overwritten.
    ensures free { let mail = mail_of seen.now view.now.flags told.now digest.now taken.now in
        OnOk result (IsTrue (list_all (overwrites_nothing mail) (acts_for mail view.now.labels))) }
    // Whatever was told, a made file's name is one part of a path, and can be read again.
    ensures named { let mail = mail_of seen.now view.now.flags told.now digest.now taken.now in
        OnOk result ((label : List ℕ) (source : Option FileParts) → IsMadeName (put_in mail label source).unique) }
{
    // a view has rising labels, and flags in their range
    let _flags = view.flags();
    acts_of(alloc, seen, view, told, digest, taken)
}

/// The acts, of the names that the mail has.
fn acts_of(
    alloc: Global,
    seen: &[MailFile],
    view: &View,
    told: &str,
    digest: &[u8; 32],
    taken: &[MailFile],
) -> Result<Vec<FileAct>, FileFault>
    ensures value { IfOk result (λ acts. acts.items ≡ acts_for (mail_of seen.now view.now.flags told.now digest.now taken.now) view.now.labels) }
    ensures fault { IfErr result (IsFileFault (mail_of seen.now view.now.flags told.now digest.now taken.now) view.now.labels) }
    ensures open { OnOk result (list_any (specs.is_blocked (mail_of seen.now view.now.flags told.now digest.now taken.now)) view.now.labels ≡ false) }
    ensures named { OnOk result ((label : List ℕ) (source : Option FileParts)
        → IsMadeName (put_in (mail_of seen.now view.now.flags told.now digest.now taken.now) label source).unique) }
{
    let spare = unique_for(alloc, told, digest)?;
    let digits = digits_of(alloc, digest)?;
    let mail = MailNames {
        seen,
        taken,
        flags: view.flags(),
        spare: spare.as_str(),
        digits: digits.as_str(),
    };
    mail.acts(alloc, view.labels())
}

/// The digits of a digest.
fn digits_of(alloc: Global, digest: &[u8; 32]) -> Result<String, AllocError>
    ensures value { IfOk result (λ digits. string_bytes digits ≡ encode_lower digest.now) }
    ensures named { IsMadeName (encode_lower digest.now) }
{
    hex::encode(alloc, digest.as_slice())
}

/// A mail's files, the flags that it should have, and what it may be named.
#[derive(Clone, Copy)]
struct MailNames<'a> {
    seen: &'a [MailFile],
    taken: &'a [MailFile],
    flags: Flags,
    spare: &'a str,
    digits: &'a str,
}

impl MailNames<'_> {
    /// The acts, unless names are taken.
    fn acts(&self, alloc: Global, labels: &[Label]) -> Result<Vec<FileAct>, FileFault>
        ensures value { IfOk result (λ acts. acts.items ≡ acts_for (mail_in self.now) labels.now) }
        ensures fault { IfErr result (IsFileFault (mail_in self.now) labels.now) }
        ensures open { OnOk result (list_any (specs.is_blocked (mail_in self.now)) labels.now ≡ false) }
    {
        if self.are_blocked(labels) {
            return Err(FileFault::NameTaken);
        }
        Ok(self.acts_in_turn(alloc, labels)?)
    }

    /// Whether some folder is blocked.
    fn are_blocked(&self, labels: &[Label]) -> bool
        ensures { result ≡ list_any (specs.is_blocked (mail_in self.now)) labels.now }
    {
        labels.iter().any(|label| self.is_blocked(label))
    }

    /// The acts.
    fn acts_in_turn(&self, alloc: Global, labels: &[Label]) -> Result<Vec<FileAct>, AllocError>
        ensures { IfOk result (λ acts. acts.items ≡ acts_for (mail_in self.now) labels.now) }
    {
        let mut acts = Vec::new(alloc);
        self.push_links(alloc, &mut acts, labels)?;
        self.push_moves(alloc, &mut acts, labels)?;
        self.push_removes(alloc, &mut acts, labels)?;
        Ok(acts)
    }

    /// Appends the links of these folders.
    fn push_links(
        &self,
        alloc: Global,
        acts: &mut Vec<FileAct>,
        labels: &[Label],
    ) -> Result<(), AllocError>
        ensures { OnOk result (acts.new.items ≡ acts.old.items ++ flat_map (specs.link_in (mail_in self.now)) labels.now) }
    {
        for label in labels {
            self.push_link(alloc, acts, label)?;
        }
        Ok(())
    }

    /// Appends the new names in these folders.
    fn push_moves(
        &self,
        alloc: Global,
        acts: &mut Vec<FileAct>,
        labels: &[Label],
    ) -> Result<(), AllocError>
        ensures { OnOk result (acts.new.items ≡ acts.old.items ++ flat_map (specs.move_in (mail_in self.now)) labels.now) }
    {
        for label in labels {
            self.push_move(alloc, acts, label)?;
        }
        Ok(())
    }

    /// Appends the removals.
    fn push_removes(
        &self,
        alloc: Global,
        acts: &mut Vec<FileAct>,
        labels: &[Label],
    ) -> Result<(), AllocError>
        ensures { OnOk result (acts.new.items ≡ acts.old.items ++ flat_map (specs.remove_of (mail_in self.now) labels.now) self.now.seen.now) }
    {
        for file in self.seen {
            self.push_remove(alloc, acts, labels, file)?;
        }
        Ok(())
    }

    /// Appends the link that is made in the folder, if there is one to be made.
    fn push_link(
        &self,
        alloc: Global,
        acts: &mut Vec<FileAct>,
        label: &Label,
    ) -> Result<(), AllocError>
        ensures { OnOk result (acts.new.items ≡ acts.old.items ++ specs.link_in (mail_in self.now) label.now) }
    {
        if self.kept_in(label).is_some() {
            return Ok(());
        }
        let from = copied(alloc, self.seen.first())?;
        let to = self.put_in(alloc, label, self.seen.first())?;
        acts.push(FileAct::Link { from, to })?;
        Ok(())
    }

    /// Appends the new name of the file that is kept in the folder, if it gets one.
    fn push_move(
        &self,
        alloc: Global,
        acts: &mut Vec<FileAct>,
        label: &Label,
    ) -> Result<(), AllocError>
        ensures { OnOk result (acts.new.items ≡ acts.old.items ++ specs.move_in (mail_in self.now) label.now) }
    {
        match self.kept_in(label) {
            Some(file) if !self.tells(file) => {
                let from = file.copy(alloc)?;
                let to = self.put_in(alloc, label, Some(file))?;
                acts.push(FileAct::Move { from, to })?;
                Ok(())
            }
            _ => Ok(()),
        }
    }

    /// Appends the file's removal, unless it is kept.
    fn push_remove(
        &self,
        alloc: Global,
        acts: &mut Vec<FileAct>,
        labels: &[Label],
        file: &MailFile,
    ) -> Result<(), AllocError>
        ensures { OnOk result (acts.new.items ≡ acts.old.items ++ specs.remove_of (mail_in self.now) labels.now file.now) }
    {
        if self.is_kept(labels, file) {
            return Ok(());
        }
        let file = file.copy(alloc)?;
        acts.push(FileAct::Remove { file })?;
        Ok(())
    }

    /// Whether the file tells the flags.
    fn tells(&self, file: &MailFile) -> bool
        ensures { result ≡ tells self.now.flags file.now }
    {
        file.flags() == self.flags
    }

    /// The first file of the folder.
    fn first_in(&self, label: &Label) -> Option<&MailFile>
        ensures { option_copied result ≡ specs.first_in (mail_in self.now) label.now }
    {
        self.seen.iter().find(|file| *file.label() == *label)
    }

    /// The first file of the folder that tells the flags.
    fn telling_in(&self, label: &Label) -> Option<&MailFile>
        ensures { option_copied result ≡ specs.telling_in (mail_in self.now) label.now }
    {
        self.seen
            .iter()
            .find(|file| *file.label() == *label && self.tells(file))
    }

    /// The file of the folder that is kept.
    fn kept_in(&self, label: &Label) -> Option<&MailFile>
        ensures { option_copied result ≡ specs.kept_in (mail_in self.now) label.now }
    {
        match self.telling_in(label) {
            Some(file) => Some(file),
            None => self.first_in(label),
        }
    }

    /// Whether the file is kept.
    fn is_kept(&self, labels: &[Label], file: &MailFile) -> bool
        ensures { result ≡ specs.is_kept (mail_in self.now) labels.now file.now }
    {
        labels.contains(file.label()) && self.is_kept_there(file)
    }

    /// Whether the file is the one that is kept in its folder.
    fn is_kept_there(&self, file: &MailFile) -> bool
        ensures { result ≡ specs.is_one (specs.kept_in (mail_in self.now) file.now.label) file.now }
    {
        match self.kept_in(file.label()) {
            Some(kept) => *kept == *file,
            None => false,
        }
    }

    /// The mail's own name, where a file is made of this one, or of the store's.
    fn own_name<'b>(&'b self, source: Option<&'b MailFile>) -> &'b str
        ensures { result.now ≡ specs.own_name (mail_in self.now) (option_copied source.entry) }
    {
        match source {
            Some(file) if is_fit(file.unique()) => file.unique(),
            _ => self.spare,
        }
    }

    /// The name that a file gets in the folder.
    fn name_in<'b>(&'b self, label: &Label, source: Option<&'b MailFile>) -> &'b str
        ensures { result.now ≡ specs.name_in (mail_in self.now) label.now (option_copied source.entry) }
    {
        let name = self.own_name(source);
        if is_taken(self.taken, label, name) {
            self.digits
        } else {
            name
        }
    }

    /// The file that is put into the folder.
    fn put_in(
        &self,
        alloc: Global,
        label: &Label,
        source: Option<&MailFile>,
    ) -> Result<MailFile, AllocError>
        ensures { IfOk result (λ file. file ≡ specs.put_in (mail_in self.now) label.now (option_copied source.entry)) }
    {
        let letters = letters_with(alloc, letters_from(source), self.flags)?;
        let name = self.name_in(label, source);
        if letters.is_empty() && is_from_new(source) {
            MailFile::without_letters(alloc, label, name)
        } else {
            MailFile::with_letters(alloc, label, name, letters.as_str())
        }
    }

    /// Whether a file has to be made in the folder, and both names are taken.
    fn is_blocked(&self, label: &Label) -> bool
        ensures { result ≡ specs.is_blocked (mail_in self.now) label.now }
    {
        match self.kept_in(label) {
            Some(file) => !self.tells(file) && self.is_blocked_from(label, Some(file)),
            None => self.is_blocked_from(label, self.seen.first()),
        }
    }

    /// Whether both names are taken, where a file is made of this one.
    fn is_blocked_from(&self, label: &Label, source: Option<&MailFile>) -> bool
        ensures { result ≡ specs.is_blocked_from (mail_in self.now) label.now (option_copied source.entry) }
    {
        is_taken(self.taken, label, self.own_name(source))
            && is_taken(self.taken, label, self.digits)
    }
}

/// A copy of the file, if there is one.
fn copied(alloc: Global, file: Option<&MailFile>) -> Result<Option<MailFile>, AllocError>
    ensures { IfOk result (λ copy. copy ≡ option_copied file.entry) }
{
    match file {
        Some(file) => Ok(Some(file.copy(alloc)?)),
        None => Ok(None),
    }
}

/// Whether one of these files stands in the folder and has this name.
fn is_taken(taken: &[MailFile], label: &Label, unique: &str) -> bool
    ensures { result ≡ specs.is_taken taken.now label.now unique.now }
{
    taken
        .iter()
        .any(|file| *file.label() == *label && file.unique() == unique)
}

/// The letters of a file, or none.
fn letters_from(source: Option<&MailFile>) -> &str
    ensures { result.now ≡ specs.letters_from (option_copied source.entry) }
{
    match source {
        Some(file) => file.letters(),
        None => "",
    }
}

/// Whether what is made of this file, or of the store's, is new mail.
fn is_from_new(source: Option<&MailFile>) -> bool
    ensures { result ≡ specs.is_from_new (option_copied source.entry) }
{
    match source {
        Some(file) => file.is_new(),
        None => true,
    }
}

/// Whether a name may be given again.
fn is_fit(text: &str) -> bool
    ensures { result ≡ specs.is_fit text.now }
{
    let bytes = text.as_bytes();
    1 <= bytes.len() && bytes.len() <= MAX_NAME_BYTES && bytes[0] != b'.' && are_fit_bytes(bytes)
}

/// The most bytes of a unique part that is given again.
const MAX_NAME_BYTES: usize = 200;

/// Whether each of the bytes may stand in a name that is given again.
fn are_fit_bytes(bytes: &[u8]) -> bool
    ensures { result ≡ list_all specs.is_fit_byte bytes.now }
{
    bytes
        .iter()
        .all(|byte| is_path_byte(*byte) && *byte != b':')
}
