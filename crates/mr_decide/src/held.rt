//! What is held of a mail.
ghost use Rattle.std.specs.Prelude.{◌≡◌, ◌++◌, List, All, false, IfOk, OnOk, map};
ghost use Rattle.std.specs.List.{list_any};
ghost use Rattle.mr_joins.specs.Says.{AreAmong};
ghost use Rattle.mr_joins.specs.Value.{IsValue};
ghost use Rattle.mr_joins.specs.Shown.{shown_view};
ghost use Rattle.mr_decide.specs.declared.held.Head.{Head};
ghost use Rattle.mr_decide.specs.declared.held.HeldItem.{HeldItem};
ghost use Rattle.mr_decide.specs.Held as specs;

use mr_joins::{Value, View};
use mr_version::{ItemId, Version};
use std::alloc::{AllocError, Global};

/// A version of an item that counts: a head or a push-out that is held, or the own last version where nothing that is held supersedes it.
#[derive(Debug, Drop)]
pub struct Head {
    pub version: Version,
    pub value: Value,
    /// Whether it is held, so that an edit replaces it.
    pub is_base: bool,
}

/// An item of a mail, with what counts of it.
#[derive(Debug, Drop)]
pub struct HeldItem {
    pub item: ItemId,
    pub heads: Vec<Head>,
}

/// What all that counts of a mail says together. It costs a copy of each value.
pub fn together(alloc: Global, held: &[HeldItem]) -> Result<Value, AllocError>
    ensures value { IfOk result (λ value. value ≡ specs.together held.now) }
    // Which values there are tells it: neither their order, nor repeats, nor of which items they are.
    ensures set { IfOk result (λ value. (others : List HeldItem) → All IsValue (specs.values_of others)
        → AreAmong (specs.values_of held.now) (specs.values_of others) → AreAmong (specs.values_of others) (specs.values_of held.now) → specs.together others ≡ value) }
{
    let values = values_of(alloc, held)?;
    let value = Value::joined(alloc, values)?;
    Ok(value)
}

/// The values of all that counts of a mail.
fn values_of(alloc: Global, held: &[HeldItem]) -> Result<Vec<Value>, AllocError>
    ensures { IfOk result (λ values. values.items ≡ specs.values_of held.now) }
{
    let mut values = Vec::new(alloc);
    for item in held {
        push_values(alloc, &mut values, &item.heads)?;
    }
    Ok(values)
}

/// Puts the heads' values behind the others.
fn push_values(alloc: Global, values: &mut Vec<Value>, heads: &[Head]) -> Result<(), AllocError>
    ensures { OnOk result (values.new.items ≡ values.old.items ++ map (λ head. head.value) heads.now) }
{
    for head in heads {
        values.push(head.value.copy(alloc)?)?;
    }
    Ok(())
}

/// Whether an item is to be edited to what is shown of its mail: whether one of its heads shows something else.
pub fn is_due(alloc: Global, item: &HeldItem, shown: &View) -> Result<bool, AllocError>
    ensures value { IfOk result (λ is. is ≡ specs.is_due item.now shown.now) }
    // It isn't just where all its heads show what is shown, as they do once that was told over them.
    ensures agrees { IfOk result (λ is. is ≡ false → All (λ (head : Head). shown_view head.value ≡ shown.now) item.now.heads.items) }
    ensures rests { IfOk result (λ is. All (λ (head : Head). shown_view head.value ≡ shown.now) item.now.heads.items → is ≡ false) }
{
    let is_due = does_one_differ(alloc, &item.heads, shown)?;
    Ok(is_due)
}

/// Whether one of the heads shows something else.
fn does_one_differ(alloc: Global, heads: &[Head], shown: &View) -> Result<bool, AllocError>
    ensures { IfOk result (λ is. is ≡ list_any (specs.differs shown.now) heads.now) }
{
    for head in heads {
        if differs(alloc, head, shown)? {
            return Ok(true);
        }
    }
    Ok(false)
}

/// Whether the head shows something else.
fn differs(alloc: Global, head: &Head, shown: &View) -> Result<bool, AllocError>
    ensures { IfOk result (λ is. is ≡ specs.differs shown.now head.now) }
{
    let own = head.value.shown(alloc)?;
    Ok(own != *shown)
}

/// Whether an item of the mail is due.
pub(crate) fn is_one_due(alloc: Global, held: &[HeldItem], shown: &View) -> Result<bool, AllocError>
    ensures { IfOk result (λ is. is ≡ list_any (λ item. specs.is_due item shown.now) held.now) }
{
    for item in held {
        if is_due(alloc, item, shown)? {
            return Ok(true);
        }
    }
    Ok(false)
}
