//! What is shown of marks.
ghost use Rattle.std.specs.Prelude.{◌≡◌, ◌++◌, IfOk, OnOk};
ghost use Rattle.std.specs.List.{list_any, flat_map};
ghost use Rattle.mr_joins.specs.Shown as specs;

use crate::element::Element;
use crate::labels::{inbox, sorted_once};
use crate::mark::Mark;
use mr_mail::{Flag, Flags, Label, MAX_LABELS};
use std::alloc::{AllocError, Global};

/// Whether nothing was raised beyond what the deletions knew.
pub(crate) fn are_deleted(marks: &[Mark]) -> bool
    ensures { result ≡ specs.is_deleted marks.now }
{
    marks.iter().all(|mark| mark.count.is_covered())
}

/// Whether the element is set by some delivery.
pub(crate) fn is_had(marks: &[Mark], element: &Element) -> bool
    ensures { result ≡ specs.has marks.now element.now }
{
    marks.iter().any(|mark| is_set_by(element, mark))
}

/// Whether a mark sets this element.
fn is_set_by(element: &Element, mark: &Mark) -> bool
    ensures { result ≡ specs.sets element.now mark.now }
{
    *element == mark.element && mark.count.is_set()
}

/// In which folders a mail with these marks is shown.
pub(crate) fn folders_shown(alloc: Global, marks: &[Mark]) -> Result<Vec<Label>, AllocError>
    ensures { IfOk result (λ labels. labels.items ≡ specs.folders_shown marks.now) }
{
    if are_deleted(marks) {
        return Ok(Vec::new(alloc));
    }
    let set = folders_set(alloc, marks)?;
    or_inbox(first_labels(set)?)
}

/// The folders that are set, by their labels in rising order.
fn folders_set(alloc: Global, marks: &[Mark]) -> Result<Vec<Label>, AllocError>
    ensures { IfOk result (λ labels. labels.items ≡ specs.folders_set marks.now) }
{
    let mut labels = Vec::new(alloc);
    for mark in marks {
        push_folder(&mut labels, mark)?;
    }
    Ok(sorted_once(labels))
}

/// Puts the label of the folder that the mark sets behind the others.
fn push_folder(labels: &mut Vec<Label>, mark: &Mark) -> Result<(), AllocError>
    ensures { OnOk result (labels.new.items ≡ labels.old.items ++ specs.folder_set mark.now) }
{
    if !mark.count.is_set() {
        return Ok(());
    }
    push_label(labels, &mark.element)
}

/// Puts the label of an element that is a folder behind the others.
fn push_label(labels: &mut Vec<Label>, element: &Element) -> Result<(), AllocError>
    ensures { OnOk result (labels.new.items ≡ labels.old.items ++ specs.label_of element.now) }
{
    if let Element::Folder(label) = element {
        labels.push(label.copy()?)?;
    }
    Ok(())
}

/// Sixteen labels at most: the least; where the inbox is behind these, the fifteen least and the inbox.
fn first_labels(mut labels: Vec<Label>) -> Result<Vec<Label>, AllocError>
    ensures { IfOk result (λ first. first.items ≡ specs.first_labels labels.items) }
{
    if !is_behind(&labels, &inbox()) {
        labels.truncate(MAX_LABELS);
        return Ok(labels);
    }
    labels.truncate(MAX_LABELS - 1);
    labels.push(inbox())?;
    Ok(labels)
}

/// Whether the label stands behind the sixteen first ones.
fn is_behind(labels: &[Label], label: &Label) -> bool
    ensures { result ≡ specs.is_behind labels.now label.now }
{
    labels.iter().skip(MAX_LABELS).any(|own| *label == *own)
}

/// These labels, or the inbox where there is none.
fn or_inbox(mut labels: Vec<Label>) -> Result<Vec<Label>, AllocError>
    ensures { IfOk result (λ shown. shown.items ≡ specs.or_inbox labels.items) }
{
    if labels.is_empty() {
        labels.push(inbox())?;
    }
    Ok(labels)
}

/// Which flags are shown of a mail with these marks.
pub(crate) fn flags_shown(marks: &[Mark]) -> Flags
    ensures { result ≡ specs.flags_shown marks.now }
{
    if are_deleted(marks) {
        return Flags::empty().with(Flag::Deleted);
    }
    flags_set(marks)
}

/// Which flags are set.
fn flags_set(marks: &[Mark]) -> Flags
    ensures { result ≡ specs.flags_set marks.now }
{
    Flag::ALL.iter().fold(Flags::empty(), |flags, flag| {
        with_flag_if(flags, *flag, is_had(marks, &Element::Flag(*flag)))
    })
}

/// The flags, with one more if it is wanted.
fn with_flag_if(flags: Flags, flag: Flag, wanted: bool) -> Flags
    ensures { result ≡ specs.with_flag_if flags flag wanted }
{
    if wanted { flags.with(flag) } else { flags }
}
