//! How a mail is seen in its files.
ghost use Rattle.std.specs.Prelude.{◌≡◌, IfOk, map};
ghost use Rattle.std.specs.List.{list_all, list_any};
ghost use Rattle.std.specs.Option.{option_copied};
ghost use Rattle.mr_mail.specs.Flag.{flag_eq};
ghost use Rattle.mr_mail.specs.declared.flags.Flag.TheVariants.{Deleted};
ghost use Rattle.mr_maildir.specs.Letters.{flags_where};
ghost use Rattle.mr_scan.specs.Seen as specs;
ghost use Rattle.mr_scan.specs.Seen.{flags_left, is_flag_on, is_flag_seen, file_label};

use mr_mail::{Flag, Flags, Label};
use mr_maildir::{MailFile, View};
use std::alloc::{AllocError, Global};

/// How a mail is seen that was left in this view, if it was left, and has these files: in the folders of all of them. A flag that was
/// left stays where each file has it, and another one comes where some file has it.
///
/// That it is deleted is seen only where each file says so: who marks one of two copies for deletion keeps the other.
pub fn seen_view(alloc: Global, left: Option<&View>, files: &[MailFile]) -> Result<View, AllocError>
    ensures { IfOk result (λ view. view ≡ specs.seen_view (option_copied left.entry) files.now) }
{
    let labels = labels_of(alloc, files)?;
    Ok(View::of_labels(labels, seen_flags(left_flags(left), files)))
}

/// The flags that a mail was left with.
fn left_flags(left: Option<&View>) -> Flags
    ensures { result ≡ flags_left (option_copied left.entry) }
{
    match left {
        Some(view) => view.flags(),
        None => Flags::empty(),
    }
}

/// The labels of the files' folders, one for each file.
fn labels_of(alloc: Global, files: &[MailFile]) -> Result<Vec<Label>, AllocError>
    ensures { IfOk result (λ labels. labels.items ≡ map file_label files.now) }
{
    let mut labels = Vec::with_capacity(alloc, files.len())?;
    for file in files {
        labels.push(file.label().copy()?)?;
    }
    Ok(labels)
}

/// The flags that are seen.
fn seen_flags(left: Flags, files: &[MailFile]) -> Flags
    ensures { result ≡ flags_where (is_flag_seen left files.now) }
{
    Flag::ALL.iter().fold(Flags::empty(), |flags, flag| {
        if is_flag_seen(left, files, *flag) {
            flags.with(*flag)
        } else {
            flags
        }
    })
}

/// Whether the flag is seen.
fn is_flag_seen(left: Flags, files: &[MailFile], flag: Flag) -> bool
    ensures { result ≡ is_flag_seen left files.now flag }
{
    if is_deleted(flag) || left.contains(flag) {
        is_on_each(files, flag)
    } else {
        is_on_some(files, flag)
    }
}

/// Whether it is the flag of a mail that counts as deleted.
fn is_deleted(flag: Flag) -> bool
    ensures { result ≡ flag_eq flag Deleted }
{
    flag.bit() == Flag::Deleted.bit()
}

/// Whether each of the files has the flag.
fn is_on_each(files: &[MailFile], flag: Flag) -> bool
    ensures { result ≡ list_all (is_flag_on flag) files.now }
{
    files.iter().all(|file| is_flag_on(file, flag))
}

/// Whether some of the files has the flag.
fn is_on_some(files: &[MailFile], flag: Flag) -> bool
    ensures { result ≡ list_any (is_flag_on flag) files.now }
{
    files.iter().any(|file| is_flag_on(file, flag))
}

/// Whether the file has the flag.
fn is_flag_on(file: &MailFile, flag: Flag) -> bool
    ensures { result ≡ specs.is_flag_on flag file.now }
{
    file.flags().contains(flag)
}
