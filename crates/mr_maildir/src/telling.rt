//! Which marks a record tells of a mail's value.
ghost use Rattle.std.specs.Prelude.{◌≡◌, ◌&&◌, ◌==◌, ◌≢◌, ◌++◌, List, IfOk, IfSome, IsTrue, MatchOption, OnOk, [], true};
ghost use Rattle.std.specs.List.{list_all};
ghost use Rattle.std.specs.Cmp.Lexicographic.{pointwise};
ghost use Rattle.mr_mail.specs.Label.{text_eq};
ghost use Rattle.mr_joins.specs.declared.mark.Mark.{Mark};
ghost use Rattle.mr_joins.specs.Value.{IsValue, join};
ghost use Rattle.mr_maildir.specs.Counts.{is_mark};
ghost use Rattle.mr_maildir.specs.Telling.{mark_eq, marks_eq, own_marks, other_marks};
ghost use Rattle.mr_maildir.specs.Telling as specs;

use mr_joins::{Mark, Value};
use mr_mail::{Flag, Flags, Label};
use mr_version::ItemId;
use std::alloc::{AllocError, Global};

/// The value of a record of this item that tells no marks: of each label and flag of its message that it was toggled once, by this item; of a
/// message that says that the mail is deleted, nothing.
pub fn uncounted(
    alloc: Global,
    own: ItemId,
    labels: &[Label],
    flags: Flags,
) -> Result<Value, AllocError>
    ensures { IfOk result (λ value. value ≡ specs.uncounted own labels.now flags) }
{
    if labels.is_empty() && flags.contains(Flag::Deleted) {
        return Ok(Value::nothing(alloc));
    }
    Value::new_mail(alloc, own, labels, flags)
}

/// The marks that a record of this item tells of the value, where its message has these labels and flags: none where the value is that of a record that
/// tells none; else all, the own item's first, and then by rising item and element.
pub fn told_marks(
    alloc: Global,
    own: ItemId,
    value: &Value,
    labels: &[Label],
    flags: Flags,
) -> Result<Vec<Mark>, AllocError>
    ensures { IfOk result (λ marks. marks.items ≡ specs.told_marks own value.now labels.now flags) }
{
    let without = uncounted(alloc, own, labels, flags)?;
    let mut marks = Vec::new(alloc);
    if !are_same(without.marks(), value.marks()) {
        push_own(alloc, &mut marks, own, value.marks())?;
        push_others(alloc, &mut marks, own, value.marks())?;
    }
    Ok(marks)
}

/// The value that a record of this item tells by these marks, where its message has these labels and flags. `None` if the value doesn't show just these, or if
/// other marks would be told of it, or in another order: the body is none of a mail then.
pub fn told_value(
    alloc: Global,
    own: ItemId,
    marks: &[Mark],
    labels: &[Label],
    flags: Flags,
) -> Result<Option<Value>, AllocError>
    requires { list_all is_mark marks.now ≡ true }
    ensures told { IfOk result (λ found. IfSome found (λ value. specs.told_marks own value labels.now flags ≡ marks.now)) }
    ensures shown { IfOk result (λ found. IfSome found (λ value. specs.is_shown_by value labels.now flags ≡ true)) }
    ensures whole { (value : List Mark) → IsValue value → specs.is_shown_by value labels.now flags ≡ true → specs.told_marks own value labels.now flags ≡ marks.now
        → IfOk result (λ found. MatchOption found ⊥ (λ read. read ≡ value)) }
{
    let value = value_by(alloc, own, marks, labels, flags)?;
    if is_told(alloc, own, &value, marks, labels, flags)? {
        Ok(Some(value))
    } else {
        Ok(None)
    }
}

/// Whether the value shows just these labels and flags.
pub fn is_shown_by(
    alloc: Global,
    value: &Value,
    labels: &[Label],
    flags: Flags,
) -> Result<bool, AllocError>
    ensures { IfOk result (λ is. is ≡ specs.is_shown_by value.now labels.now flags) }
{
    let folders = value.folders_shown(alloc)?;
    Ok(are_labels(&folders, labels) && value.flags_shown() == flags)
}

/// Whether two lists of labels are one.
fn are_labels(a: &[Label], b: &[Label]) -> bool
    ensures { result ≡ pointwise text_eq a.now b.now }
{
    a == b
}

/// Whether the value shows these labels and flags, and these are the marks that would be told of it.
fn is_told(
    alloc: Global,
    own: ItemId,
    value: &Value,
    marks: &[Mark],
    labels: &[Label],
    flags: Flags,
) -> Result<bool, AllocError>
    ensures { IfOk result (λ is. is ≡ (specs.is_shown_by value.now labels.now flags && marks_eq (specs.told_marks own value.now labels.now flags) marks.now)) }
{
    if !is_shown_by(alloc, value, labels, flags)? {
        return Ok(false);
    }
    let told = told_marks(alloc, own, value, labels, flags)?;
    Ok(are_same(&told, marks))
}

/// The value of all these marks together; where there are none, that of a record without.
fn value_by(
    alloc: Global,
    own: ItemId,
    marks: &[Mark],
    labels: &[Label],
    flags: Flags,
) -> Result<Value, AllocError>
    requires { list_all is_mark marks.now ≡ true }
    ensures none { marks.now ≡ [] → IfOk result (λ value. value ≡ specs.uncounted own labels.now flags) }
    ensures some { marks.now ≢ [] → IfOk result (λ value. value ≡ join [] marks.now) }
{
    if marks.is_empty() {
        uncounted(alloc, own, labels, flags)
    } else {
        value_of(alloc, marks)
    }
}

/// The value of these marks together.
fn value_of(alloc: Global, marks: &[Mark]) -> Result<Value, AllocError>
    requires { list_all is_mark marks.now ≡ true }
    ensures { IfOk result (λ value. value ≡ join [] marks.now) }
{
    let mut value = Value::nothing(alloc);
    for mark in marks {
        value = value.with_mark(mark.copy(alloc)?)?;
    }
    Ok(value)
}

/// Appends the marks of the own item.
fn push_own(
    alloc: Global,
    told: &mut Vec<Mark>,
    own: ItemId,
    marks: &[Mark],
) -> Result<(), AllocError>
    ensures { OnOk result (told.new.items ≡ told.old.items ++ own_marks own marks.now) }
{
    for mark in marks {
        if own == mark.item {
            told.push(mark.copy(alloc)?)?;
        }
    }
    Ok(())
}

/// Appends the marks of other items.
fn push_others(
    alloc: Global,
    told: &mut Vec<Mark>,
    own: ItemId,
    marks: &[Mark],
) -> Result<(), AllocError>
    ensures { OnOk result (told.new.items ≡ told.old.items ++ other_marks own marks.now) }
{
    for mark in marks {
        if own != mark.item {
            told.push(mark.copy(alloc)?)?;
        }
    }
    Ok(())
}

/// Whether two lists of marks are one.
fn are_same(a: &[Mark], b: &[Mark]) -> bool
    ensures { result ≡ marks_eq a.now b.now }
{
    if a.len() != b.len() {
        return false;
    }
    for i in 0..a.len() {
        if !is_same(&a[i], &b[i]) {
            return false;
        }
    }
    true
}

/// Whether two marks are one.
fn is_same(a: &Mark, b: &Mark) -> bool
    ensures { result ≡ mark_eq a.now b.now }
{
    a.item == b.item
        && a.element == b.element
        && a.count.raised == b.count.raised
        && a.count.gone == b.count.gone
}
