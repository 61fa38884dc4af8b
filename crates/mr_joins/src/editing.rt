//! What users' acts make of marks.
ghost use Rattle.std.specs.Prelude.{◌≡◌, ◌<◌, ◌-◌, ◌^◌, ◌++◌, ◌↔◌, IfOk, IsTrue, OnOk, map};
ghost use Rattle.std.specs.List.{flat_map};
ghost use Rattle.mr_joins.specs.Value.{says};
ghost use Rattle.mr_joins.specs.Value as value_specs;
ghost use Rattle.mr_joins.specs.Shown as shown_specs;
ghost use Rattle.mr_mail.specs.declared.flags.Flag.{Flag};
ghost use Rattle.mr_joins.specs.declared.element.Element.TheVariants as element;
ghost use Rattle.mr_joins.specs.Edited.{HasRoom};
ghost use Rattle.mr_joins.specs.Edited as specs;

use crate::count::Count;
use crate::element::Element;
use crate::mark::Mark;
use crate::putting::join_marks;
use crate::shown::{are_deleted, folders_shown, is_had};
use mr_mail::{Flag, Flags, Label};
use mr_version::ItemId;
use std::alloc::{AllocError, Global};

/// What the marks say of an element of a delivery.
pub(crate) fn count_at(marks: &[Mark], item: ItemId, element: &Element) -> Count
    ensures { result ≡ says marks.now (item, element.now) }
{
    for mark in marks {
        if is_of(mark, item, element) {
            return mark.count;
        }
    }
    Count { raised: 0, gone: 0 }
}

/// Whether the mark is of this element of this delivery.
fn is_of(mark: &Mark, item: ItemId, element: &Element) -> bool
    ensures { result ≡ value_specs.is_of mark.now (item, element.now) }
{
    item.cmp(&mark.item)
        .then_with(|| element.cmp(&mark.element))
        .is_eq()
}

/// Whether each count may rise by two.
pub(crate) fn have_room(marks: &[Mark]) -> bool
    ensures value { result ≡ specs.has_room marks.now }
    ensures room { IsTrue result ↔ HasRoom marks.now }
{
    marks.iter().all(|mark| mark.count.raised < u32::MAX - 1)
}

/// The elements of a mail that stands in these folders and has these flags.
fn elements_of(alloc: Global, labels: &[Label], flags: Flags) -> Result<Vec<Element>, AllocError>
    ensures { IfOk result (λ elements. elements.items ≡ specs.elements_of labels.now flags) }
{
    let mut elements = flag_elements(alloc, flags)?;
    for label in labels {
        elements.push(Element::Folder(label.copy()?))?;
    }
    Ok(elements)
}

/// These flags as elements.
fn flag_elements(alloc: Global, flags: Flags) -> Result<Vec<Element>, AllocError>
    ensures { IfOk result (λ elements. elements.items ≡ specs.flag_elements flags) }
{
    let flags = flags.list(alloc)?;
    elements_of_flags(alloc, &flags)
}

/// Flags as elements.
fn elements_of_flags(alloc: Global, flags: &[Flag]) -> Result<Vec<Element>, AllocError>
    ensures { IfOk result (λ elements. elements.items ≡ map (λ (f : Flag). element.Flag f) flags.now) }
{
    let mut elements = Vec::new(alloc);
    for flag in flags {
        elements.push(Element::Flag(*flag))?;
    }
    Ok(elements)
}

/// The marks of a new mail: each of its elements was toggled once.
pub(crate) fn new_marks(
    alloc: Global,
    item: ItemId,
    labels: &[Label],
    flags: Flags,
) -> Result<Vec<Mark>, AllocError>
    ensures { IfOk result (λ marks. marks.items ≡ specs.new_mail item labels.now flags) }
{
    let elements = elements_of(alloc, labels, flags)?;
    let own = toggled_once(alloc, item, &elements)?;
    let mut marks = Vec::new(alloc);
    join_marks(&mut marks, own)?;
    Ok(marks)
}

/// A mark for each element, which was toggled once.
fn toggled_once(alloc: Global, item: ItemId, elements: &[Element]) -> Result<Vec<Mark>, AllocError>
    ensures { IfOk result (λ marks. marks.items ≡ map (specs.new_mark item) elements.now) }
{
    let mut marks = Vec::new(alloc);
    for element in elements {
        let element = element.copy(alloc)?;
        let count = Count { raised: 1, gone: 0 };
        marks.push(Mark {
            item,
            element,
            count,
        })?;
    }
    Ok(marks)
}

/// The marks of the mail deleted: as far as is known of each count.
pub(crate) fn deleted_marks(alloc: Global, marks: &[Mark]) -> Result<Vec<Mark>, AllocError>
    ensures { IfOk result (λ deleted. deleted.items ≡ specs.deleted marks.now) }
{
    let mut deleted = Vec::new(alloc);
    for mark in marks {
        deleted.push(deleted_mark(alloc, mark)?)?;
    }
    Ok(deleted)
}

/// The mark of a mail that is deleted.
fn deleted_mark(alloc: Global, mark: &Mark) -> Result<Mark, AllocError>
    ensures { IfOk result (λ deleted. deleted ≡ specs.deleted_mark mark.now) }
{
    let mut deleted = mark.copy(alloc)?;
    deleted.count.gone = mark.count.raised.max(mark.count.gone);
    Ok(deleted)
}

/// The marks after an edit to these folders and flags.
pub(crate) fn changed_marks(
    alloc: Global,
    marks: &[Mark],
    item: ItemId,
    labels: &[Label],
    flags: Flags,
) -> Result<Vec<Mark>, AllocError>
    requires { HasRoom marks.now }
    ensures { IfOk result (λ changed. changed.items ≡ specs.changed marks.now item labels.now flags) }
{
    let shown = folders_shown(alloc, marks)?;
    let elements = elements_of(alloc, labels, flags)?;
    let raised = raised_marks(alloc, marks, item, &shown, labels, &elements)?;
    let mut changed = left_marks(alloc, marks, &shown, labels, flags)?;
    join_marks(&mut changed, raised)?;
    Ok(changed)
}

/// The marks with what an edit takes off.
fn left_marks(
    alloc: Global,
    marks: &[Mark],
    shown: &[Label],
    labels: &[Label],
    flags: Flags,
) -> Result<Vec<Mark>, AllocError>
    requires room { HasRoom marks.now }
    requires shown { shown.now ≡ shown_specs.folders_shown marks.now }
    ensures { IfOk result (λ left. left.items ≡ map (specs.left_mark marks.now labels.now flags) marks.now) }
{
    let mut left = Vec::new(alloc);
    for mark in marks {
        let is_taken = takes(marks, shown, labels, flags, &mark.element);
        left.push(left_mark(alloc, mark, is_taken)?)?;
    }
    Ok(left)
}

/// The mark, with its element taken off or not.
fn left_mark(alloc: Global, mark: &Mark, is_taken: bool) -> Result<Mark, AllocError>
    requires { mark.now.count.raised < 2 ^ 32 - 2 }
    ensures { IfOk result (λ left. left ≡ specs.with_left mark.now is_taken) }
{
    let mut left = mark.copy(alloc)?;
    if is_taken {
        left.count = mark.count.to_even();
    }
    Ok(left)
}

/// A mark for each of these elements that an edit raises.
fn raised_marks(
    alloc: Global,
    marks: &[Mark],
    item: ItemId,
    shown: &[Label],
    labels: &[Label],
    elements: &[Element],
) -> Result<Vec<Mark>, AllocError>
    requires room { HasRoom marks.now }
    requires shown { shown.now ≡ shown_specs.folders_shown marks.now }
    ensures { IfOk result (λ raised. raised.items ≡ flat_map (specs.raised_of marks.now item labels.now) elements.now) }
{
    let mut raised = Vec::new(alloc);
    for element in elements {
        push_raised(alloc, &mut raised, marks, item, shown, labels, element)?;
    }
    Ok(raised)
}

/// Puts the mark of a wanted element behind the others, if an edit raises it.
fn push_raised(
    alloc: Global,
    raised: &mut Vec<Mark>,
    marks: &[Mark],
    item: ItemId,
    shown: &[Label],
    labels: &[Label],
    element: &Element,
) -> Result<(), AllocError>
    requires room { HasRoom marks.now }
    requires shown { shown.now ≡ shown_specs.folders_shown marks.now }
    ensures { OnOk result (raised.new.items ≡ raised.old.items ++ specs.raised_of marks.now item labels.now element.now) }
{
    if raises(marks, shown, labels, element) {
        raised.push(raised_mark(alloc, marks, item, element)?)?;
    }
    Ok(())
}

/// The mark of an element that is raised to the next odd number.
fn raised_mark(
    alloc: Global,
    marks: &[Mark],
    item: ItemId,
    element: &Element,
) -> Result<Mark, AllocError>
    requires { HasRoom marks.now }
    ensures { IfOk result (λ mark. mark ≡ specs.raised_mark marks.now item element.now) }
{
    Ok(Mark {
        item,
        element: element.copy(alloc)?,
        count: count_at(marks, item, element).to_next_odd(),
    })
}

/// Whether an edit is about an element.
fn is_about(shown: &[Label], labels: &[Label], element: &Element) -> bool
    ensures { result ≡ specs.is_about_by shown.now labels.now element.now }
{
    match element {
        Element::Flag(_) => true,
        Element::Other(_) => false,
        Element::Folder(_) => shown != labels,
    }
}

/// Whether an element is one of these folders and flags.
fn is_wanted(labels: &[Label], flags: Flags, element: &Element) -> bool
    ensures { result ≡ specs.is_wanted labels.now flags element.now }
{
    match element {
        Element::Flag(flag) => flags.contains(*flag),
        Element::Other(_) => false,
        Element::Folder(label) => labels.contains(label),
    }
}

/// Whether an edit takes an element off.
fn takes(marks: &[Mark], shown: &[Label], labels: &[Label], flags: Flags, element: &Element) -> bool
    requires { shown.now ≡ shown_specs.folders_shown marks.now }
    ensures { result ≡ specs.takes marks.now labels.now flags element.now }
{
    are_deleted(marks) || (is_about(shown, labels, element) && !is_wanted(labels, flags, element))
}

/// Whether an edit raises an element that is wanted.
fn raises(marks: &[Mark], shown: &[Label], labels: &[Label], element: &Element) -> bool
    requires { shown.now ≡ shown_specs.folders_shown marks.now }
    ensures { result ≡ specs.raises marks.now labels.now element.now }
{
    are_deleted(marks)
        || (is_about(shown, labels, element)
            && (!is_had(marks, element) || is_unseen(shown, element)))
}

/// Whether an element is a folder that isn't shown.
fn is_unseen(shown: &[Label], element: &Element) -> bool
    ensures { result ≡ specs.is_unseen shown.now element.now }
{
    match element {
        Element::Folder(label) => !shown.contains(label),
        Element::Flag(_) | Element::Other(_) => false,
    }
}
