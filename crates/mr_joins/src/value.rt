//! The value of a mail.
ghost use Rattle.std.specs.Prelude.{◌≡◌, ◌≢◌, ◌≤◌, ◌<◌, ◌&&◌, ◌↔◌, if◌then◌else◌, List, [], ◌∷◌, All, IfOk, IsTrue, length};
ghost use Rattle.std.specs.List.Sorted.{IsStrictlySortedBy};
ghost use Rattle.mr_version.specs.Name.{name_eq};
ghost use Rattle.mr_mail.specs.Label.{text_cmp};
ghost use Rattle.mr_mail.specs.declared.label.TheConstants.{MAX_LABELS};
ghost use Rattle.mr_joins.specs.Count.{larger, never, once};
ghost use Rattle.mr_joins.specs.Says.{Says, Agree, AreAmong, IsAmong, IsBelow, IsDeleted, Stands, Has, both, together};
ghost use Rattle.mr_joins.specs.declared.mark.Mark.{Mark};
ghost use Rattle.mr_joins.specs.Value.{IsMark, IsValue, Key, said_by, says, values_of};
ghost use Rattle.mr_joins.specs.Value as specs;
ghost use Rattle.mr_joins.specs.Shown as shown_specs;
ghost use Rattle.mr_joins.specs.Edited.{HasRoom, changed_count, is_wanted};
ghost use Rattle.mr_joins.specs.Edited as edited_specs;

use crate::count::Count;
use crate::editing::{changed_marks, count_at, deleted_marks, have_room, new_marks};
use crate::element::Element;
use crate::mark::Mark;
use crate::putting::{join_marks, put_mark};
use crate::shown::{are_deleted, flags_shown, folders_shown, is_had};
use crate::view::View;
use mr_mail::{Flags, Label};
use mr_version::ItemId;
use std::alloc::{AllocError, Global};
use std::marker::Model;

/// What is told of a mail: of each element of each delivery how often it was toggled, and how often it had been as the mail was deleted last.
///
/// Its marks rise by delivery and element, each of them once, and each was toggled and says of no deletion that knew more. So values that say the same are
/// one. They take one piece of memory, and one more for each word.
#[derive(Debug, Drop)]
pub struct Value {
    marks: Vec<Mark>,
}

impl Model for Value {
    ghost use Rattle.std.specs.Prelude.{List};
    ghost use Rattle.mr_joins.specs.declared.mark.Mark.{Mark};
    ghost use Rattle.mr_joins.specs.Value.{IsValue};

    ghost Value = { List Mark };

    ghost view = { λ v. v.marks.items };

    ghost invariant = { λ v. IsValue v.marks.items };
}

/// The value with these marks.
fn value_of(marks: Vec<Mark>) -> Value
    requires { IsValue marks.items }
    ensures { result ≡ marks.items }
{
    Value { marks }
}

impl Value {
    /// The value that says nothing: no element was ever toggled.
    pub fn nothing(alloc: Global) -> Value
        ensures { result ≡ [] }
    {
        value_of(Vec::new(alloc))
    }

    /// The value of a new mail, which came as this item into these folders and with these flags: each was toggled once.
    pub fn new_mail(
        alloc: Global,
        item: ItemId,
        labels: &[Label],
        flags: Flags,
    ) -> Result<Value, AllocError>
        ensures value { IfOk result (λ value. value ≡ edited_specs.new_mail item labels.now flags) }
        ensures says { IfOk result (λ value. (key : Key) → says value key
            ≡ (if name_eq key.0 item && is_wanted labels.now flags key.1 then once else never)) }
        ensures shown { IfOk result (λ value. labels.now ≢ [] → IsStrictlySortedBy text_cmp labels.now → length labels.now ≤ MAX_LABELS
            → shown_specs.shown_view value ≡ record { labels = labels.now; flags = flags }) }
    {
        // the flags are in their range
        let _bits = flags.bits();
        let marks = new_marks(alloc, item, labels, flags)?;
        Ok(value_of(marks))
    }

    /// The marks, by rising delivery and then element.
    pub fn marks(&self) -> &[Mark]
        ensures value { result.now ≡ self.now }
        ensures kept { IsValue self.now }
    {
        self.marks.as_slice()
    }

    /// An equal value.
    pub fn copy(&self, alloc: Global) -> Result<Value, AllocError>
        ensures { IfOk result (λ value. value ≡ self.now) }
    {
        let marks = copied_marks(alloc, &self.marks)?;
        Ok(value_of(marks))
    }

    /// The value with one more mark: beside another one of its key the greater of each count stays.
    pub fn with_mark(self, mark: Mark) -> Result<Value, AllocError>
        requires { IsMark mark }
        ensures value { IfOk result (λ value. value ≡ specs.with_mark mark self) }
        ensures says { IfOk result (λ value. (key : Key) → says value key ≡ larger (says self key) (said_by mark key)) }
    {
        let mut marks = self.marks;
        put_mark(&mut marks, mark)?;
        Ok(value_of(marks))
    }

    /// What two values say together: of each element of each delivery the greater of each count.
    pub fn join(self, other: Value) -> Result<Value, AllocError>
        ensures value { IfOk result (λ value. value ≡ specs.join self other) }
        ensures says { IfOk result (λ value. Agree (says value) (both (says self) (says other))) }
        ensures values { IfOk result (λ value. IsValue self × IsValue other) }
        // Whichever comes first, it is one value; and however they are grouped.
        ensures commutes { IfOk result (λ value. value ≡ specs.join other self) }
        ensures associates { IfOk result (λ value. (third : List Mark) → IsValue third → specs.join value third ≡ specs.join self (specs.join other third)) }
        ensures idempotent { IfOk result (λ value. other ≡ self → value ≡ self) }
    {
        let mut marks = self.marks;
        join_marks(&mut marks, other.marks)?;
        Ok(value_of(marks))
    }

    /// What heads say together, whatever their order is. No heads say nothing.
    pub fn joined(alloc: Global, heads: Vec<Value>) -> Result<Value, AllocError>
        ensures value { IfOk result (λ value. value ≡ specs.joined heads.items) }
        ensures says { IfOk result (λ value. Agree (says value) (together (values_of heads.items))) }
        // It is at or above each head, and the least such: it raises nothing that no head raised.
        ensures above { IfOk result (λ value. (head : List Mark) → IsAmong head heads.items → IsBelow (says head) (says value)) }
        ensures least { IfOk result (λ value. (other : Says Key) → ((head : List Mark) → IsAmong head heads.items → IsBelow (says head) other) → IsBelow (says value) other) }
        // Which heads there are tells it: neither their order, nor repeats.
        ensures set { IfOk result (λ value. (others : List (List Mark)) → All IsValue others → AreAmong heads.items others → AreAmong others heads.items
            → specs.joined others ≡ value) }
        // Where it was told, beside whichever heads, nothing else is said.
        ensures told { IfOk result (λ value. (kept : List (List Mark)) → AreAmong kept heads.items → specs.joined (value ∷ kept) ≡ value) }
        // Deleted where each head says so; standing where one raised something more often than any deletion knew.
        ensures deleted { IfOk result (λ value. ((head : List Mark) → IsAmong head heads.items → IsDeleted (says head)) → IsDeleted (says value)) }
        ensures stands { IfOk result (λ value. (head : List Mark) (key : Key) → IsAmong head heads.items
            → ((other : List Mark) → IsAmong other heads.items → (says other key).gone < (says head key).raised) → Stands (says value)) }
    {
        let mut value = Value::nothing(alloc);
        for head in heads {
            value = value.join(head)?;
        }
        Ok(value)
    }

    /// What the value says of an element of a delivery.
    pub fn count_at(&self, item: ItemId, element: &Element) -> Count
        ensures { result ≡ says self.now (item, element.now) }
    {
        count_at(&self.marks, item, element)
    }

    /// Whether the mail is deleted: nothing was raised beyond what the deletions knew.
    pub fn is_deleted(&self) -> bool
        ensures value { result ≡ shown_specs.is_deleted self.now }
        ensures says { IsTrue result ↔ IsDeleted (says self.now) }
    {
        are_deleted(&self.marks)
    }

    /// Whether the element is set, by one of the deliveries.
    pub fn has(&self, element: &Element) -> bool
        ensures value { result ≡ shown_specs.has self.now element.now }
        ensures says { IsTrue result ↔ Has (says self.now) element.now }
    {
        is_had(&self.marks, element)
    }

    /// In which folders the mail is shown, by their labels in rising order: in none if it is deleted; else in those that are set, of more than sixteen in the
    /// sixteen least, of which the inbox is the first; and in the inbox where none is set.
    pub fn folders_shown(&self, alloc: Global) -> Result<Vec<Label>, AllocError>
        ensures value { IfOk result (λ labels. labels.items ≡ shown_specs.folders_shown self.now) }
        ensures rising { IfOk result (λ labels. IsStrictlySortedBy text_cmp labels.items) }
        ensures few { IfOk result (λ labels. length labels.items ≤ MAX_LABELS) }
        ensures nowhere { IfOk result (λ labels. (labels.items ≡ []) ↔ IsDeleted (says self.now)) }
    {
        let labels = folders_shown(alloc, &self.marks)?;
        Ok(labels)
    }

    /// How the mail is shown: in these folders, with these flags.
    pub fn shown(&self, alloc: Global) -> Result<View, AllocError>
        ensures { IfOk result (λ view. view ≡ shown_specs.shown_view self.now) }
    {
        let labels = self.folders_shown(alloc)?;
        Ok(View::of_rising(labels, self.flags_shown()))
    }

    /// Which flags are shown: of a mail that is deleted that it is; else those that are set.
    pub fn flags_shown(&self) -> Flags
        ensures { result ≡ shown_specs.flags_shown self.now }
    {
        flags_shown(&self.marks)
    }

    /// Whether each count may rise by two below 2^32.
    pub fn has_room(&self) -> bool
        ensures value { result ≡ edited_specs.has_room self.now }
        ensures room { IsTrue result ↔ HasRoom self.now }
    {
        have_room(&self.marks)
    }

    /// The value of the mail deleted: no count rises, and the deletion knows all that is known of each.
    pub fn deleted(&self, alloc: Global) -> Result<Value, AllocError>
        ensures value { IfOk result (λ value. value ≡ edited_specs.deleted self.now) }
        ensures gone { IfOk result (λ value. IsDeleted (says value)) }
        ensures above { IfOk result (λ value. IsBelow (says self.now) (says value)) }
    {
        let marks = deleted_marks(alloc, &self.marks)?;
        Ok(value_of(marks))
    }

    /// The value after a user made the mail stand in these folders with these flags; in no folder, the mail is deleted.
    ///
    /// This delivery, the first one that is held, raises what is wanted and wasn't set; and of folders, if others are wanted than are shown, what wasn't shown. Each
    /// delivery leaves what is set and isn't wanted. An edit of flags alone leaves the folders as they are, also those beyond the sixteen that are shown. Of a mail that is
    /// deleted each delivery leaves all that was set first. It costs a copy of the marks, and some look-ups among them for each.
    ///
    /// A user's own seventeenth folder is the caller's to refuse: with more than sixteen labels the edit is told, and not all of them are shown.
    pub fn edited(
        &self,
        alloc: Global,
        item: ItemId,
        labels: &[Label],
        flags: Flags,
    ) -> Result<Value, AllocError>
        requires room { HasRoom self.now }
        ensures value { IfOk result (λ value. value ≡ edited_specs.edited self.now item labels.now flags) }
        // Key by key, so that nothing else rises.
        ensures says { IfOk result (λ value. labels.now ≢ [] → (key : Key) → says value key ≡ changed_count self.now item labels.now flags key) }
        ensures above { IfOk result (λ value. IsBelow (says self.now) (says value)) }
        // What was wanted is what is shown.
        ensures shown { IfOk result (λ value. labels.now ≢ [] → IsStrictlySortedBy text_cmp labels.now → length labels.now ≤ MAX_LABELS
            → shown_specs.shown_view value ≡ record { labels = labels.now; flags = flags }) }
        ensures deletes { IfOk result (λ value. labels.now ≡ [] → IsDeleted (says value)) }
        // Where that is what was shown nothing rises.
        ensures nothing { IfOk result (λ value. labels.now ≡ shown_specs.folders_shown self.now → flags ≡ shown_specs.flags_shown self.now → value ≡ self.now) }
    {
        // the flags are in their range
        let _bits = flags.bits();
        let marks = edited_marks(alloc, &self.marks, item, labels, flags)?;
        Ok(value_of(marks))
    }
}

/// The marks after an edit to these folders and flags: to no folder, a deletion.
fn edited_marks(
    alloc: Global,
    marks: &[Mark],
    item: ItemId,
    labels: &[Label],
    flags: Flags,
) -> Result<Vec<Mark>, AllocError>
    requires { HasRoom marks.now }
    ensures { IfOk result (λ edited. edited.items ≡ edited_specs.edited marks.now item labels.now flags) }
{
    if labels.is_empty() {
        deleted_marks(alloc, marks)
    } else {
        changed_marks(alloc, marks, item, labels, flags)
    }
}

/// Equal marks, in the same order.
fn copied_marks(alloc: Global, marks: &[Mark]) -> Result<Vec<Mark>, AllocError>
    ensures { IfOk result (λ copied. copied.items ≡ marks.now) }
{
    let mut copied = Vec::with_capacity(alloc, marks.len())?;
    for mark in marks {
        copied.push(mark.copy(alloc)?)?;
    }
    Ok(copied)
}
