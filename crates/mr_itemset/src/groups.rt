//! Listed items with one vector, brought together. Vectors are moved into groups, and not copied.
ghost use Rattle.std.specs.Prelude.{◌≡◌, ◌≢◌, ◌≤◌, ◌↔◌, ℕ, [], false, None, Some, IsTrue, List, get_or, length, All, IfOk, IfSome, OnOk};
ghost use Rattle.mr_concise.specs.declared.vector.AuthorColumn.{AuthorColumn};
ghost use Rattle.mr_forms.specs.declared.fragment.TheConstants.{MAX_ITEMS};
ghost use Rattle.mr_itemset.specs.Groups.{alone, with_item, grouped, all_grouped, takes};
ghost use Rattle.mr_itemset.specs.inner.Entries.{listed_of};
ghost use Rattle.mr_itemset.specs.inner.Groups.{mark_of, slot_of, FillInTurn, IsNoted, AreNoted, TakesAt};
ghost use Rattle.mr_itemset.specs.inner.Grouping.{IsGrouping};
ghost use Rattle.mr_itemset.specs.Shown.{shown, shown_group};

use crate::knowledge::Listed;
use crate::settled::Vectors;
use mr_concise::ConciseVector;
use mr_forms::{Fragment, ItemSet, MAX_ITEMS};
use mr_version::ItemId;
use std::alloc::{AllocError, Global};
use std::collections::BTreeMap;
use std::marker::Model;

/// Places of groups by their vectors, where another group has the slot.
type Others = BTreeMap<ConciseVector, usize>;

/// How many slots there are for each item that may be the first of a group.
const SLOTS_EACH: usize = 4;

/// Listed items that have one vector, by rising item, and that vector.
#[derive(Drop)]
pub(crate) struct OwnGroup {
    vector: ConciseVector,
    items: Vec<ItemId>,
}

impl Model for OwnGroup {
    ghost use Rattle.mr_itemset.specs.Groups.{Alike};
    ghost use Rattle.mr_itemset.specs.inner.Groups.{alike_code};

    ghost Value = { Alike };

    ghost coded = { alike_code };

    ghost view = { λ g. record { vector = g.vector; items = g.items.items } };
}

impl OwnGroup {
    /// The group of one item.
    fn of(x: Listed, alloc: Global) -> Result<OwnGroup, AllocError>
        ensures { IfOk result (λ group. group ≡ alone x) }
    {
        let Listed { item, vector } = x;
        let mut items = Vec::with_capacity(alloc, 1)?;
        items.push(item)?;
        Ok(OwnGroup { vector, items })
    }

    /// Its items with their vector. It costs no copy.
    pub(crate) fn into_fragment(self) -> Fragment<ConciseVector>
        ensures { shown result ≡ shown_group self }
    {
        let OwnGroup { vector, items } = self;
        Fragment {
            items: ItemSet::Listed(items),
            vector,
        }
    }

    /// Whether it takes an item of the vector.
    fn takes(&self, vector: &ConciseVector) -> bool
        ensures { result ≡ takes MAX_ITEMS self.now vector.now }
    {
        self.vector == *vector && self.items.len() < MAX_ITEMS
    }

    /// Puts an item behind the others.
    fn push(&mut self, item: ItemId) -> Result<(), AllocError>
        ensures { OnOk result (self.new ≡ with_item self.old item) }
    {
        self.items.push(item)?;
        Ok(())
    }
}

/// Whether the group at the place is the one that takes an item of the vector.
fn takes_at(groups: &[OwnGroup], at: usize, vector: &ConciseVector) -> bool
    ensures { IsTrue result ↔ TakesAt groups.now vector.now at }
{
    if at < groups.len() {
        groups[at].takes(vector)
    } else {
        false
    }
}

/// A number in which vectors differ soonest: the bound of the first column.
fn mark_of(vector: &ConciseVector) -> u32
    ensures { result ≡ mark_of vector.now }
{
    match vector.author_columns().first() {
        Some(x) => x.column.upto(),
        None => 0,
    }
}

/// The slot of the vector. Vectors with other marks may have the same one.
fn slot_of(slots: &[Option<usize>], vector: &ConciseVector) -> usize
    requires { 1 ≤ length slots.now }
    ensures { result ≡ slot_of (length slots.now) vector.now }
{
    mark_of(vector) as usize % slots.len()
}

/// The place in the vector's slot.
fn noted_in_slot(slots: &[Option<usize>], vector: &ConciseVector) -> Option<usize>
    requires { 1 ≤ length slots.now }
    ensures { result ≡ get_or slots.now (slot_of (length slots.now) vector.now) None }
{
    let slot = slot_of(slots, vector);
    if slot < slots.len() {
        slots[slot]
    } else {
        None
    }
}

/// The place, where the group there takes an item of the vector.
fn checked(groups: &[OwnGroup], noted: Option<usize>, vector: &ConciseVector) -> Option<usize>
    ensures some { IfSome result (TakesAt groups.now vector.now) }
    ensures none { result ≡ None → (at : ℕ) → noted ≡ Some at → ¬ TakesAt groups.now vector.now at }
{
    match noted {
        Some(at) if takes_at(groups, at, vector) => Some(at),
        _ => None,
    }
}

/// Which group takes an item of the vector. It costs a look at a slot and, where that has no such group, a
/// search among the vectors that have no slot.
fn place(
    groups: &[OwnGroup],
    slots: &[Option<usize>],
    others: &Others,
    vector: &ConciseVector,
) -> Option<usize>
    requires some { 1 ≤ length slots.now }
    requires noted { AreNoted groups.now slots.now others.now }
    ensures some { IfSome result (TakesAt groups.now vector.now) }
    ensures none { result ≡ None → All (λ g. takes MAX_ITEMS g vector.now ≡ false) groups.now }
{
    if let Some(at) = checked(groups, noted_in_slot(slots, vector), vector) {
        return Some(at);
    }
    checked(groups, others.get(vector).copied(), vector)
}

/// Notes the place of a new group in its vector's slot, or beside the slots where another group has it.
fn note(
    slots: &mut [Option<usize>],
    others: &mut Others,
    vector: &ConciseVector,
    place: usize,
) -> Result<(), AllocError>
    requires { 1 ≤ length slots.old }
    ensures same { length slots.new ≡ length slots.old }
    ensures here { OnOk result (IsNoted slots.new others.new vector.now place) }
    ensures kept { OnOk result ((v : List AuthorColumn) (at : ℕ) → v ≢ vector.now → IsNoted slots.old others.old v at → IsNoted slots.new others.new v at) }
{
    let slot = slot_of(slots, vector);
    if slot < slots.len() && slots[slot].is_none() {
        slots[slot] = Some(place);
        return Ok(());
    }
    others.insert(vector.copy()?, place)?;
    Ok(())
}

/// Puts a listed item into the group that takes it, or else into one of its own behind the others.
fn add(
    groups: &mut Vec<OwnGroup>,
    slots: &mut [Option<usize>],
    others: &mut Others,
    x: Listed,
    alloc: Global,
) -> Result<(), AllocError>
    requires some { 1 ≤ length slots.old }
    requires in_turn { FillInTurn MAX_ITEMS groups.old.items }
    requires noted { AreNoted groups.old.items slots.old others.old }
    ensures same { length slots.new ≡ length slots.old }
    ensures added { OnOk result (groups.new.items ≡ grouped MAX_ITEMS groups.old.items x) }
    ensures in_turn { OnOk result (FillInTurn MAX_ITEMS groups.new.items) }
    ensures noted { OnOk result (AreNoted groups.new.items slots.new others.new) }
{
    match place(groups, slots, others, &x.vector) {
        Some(at) => groups[at].push(x.item)?,
        None => {
            note(slots, others, &x.vector, groups.len())?;
            groups.push(OwnGroup::of(x, alloc)?)?;
        }
    }
    Ok(())
}

/// Listed items as they are grouped, one after the other.
#[derive(Drop)]
pub(crate) struct Grouping {
    groups: Vec<OwnGroup>,
    /// The places of groups, in the slots of their vectors.
    slots: Vec<Option<usize>>,
    others: Others,
}

impl Grouping {
    /// No groups yet, and slots for so many items.
    pub(crate) fn new(alloc: Global, count: usize) -> Result<Grouping, AllocError>
        ensures { IfOk result (IsGrouping []) }
    {
        let slots = count.saturating_mul(SLOTS_EACH).max(1);
        Ok(Grouping {
            groups: Vec::with_capacity(alloc, count)?,
            slots: Vec::from_elem(alloc, None, slots)?,
            others: BTreeMap::new(alloc),
        })
    }

    /// Puts a listed item into the group that takes it, or else into one of its own behind the others, as the items of a
    /// map are grouped. It costs a look at a slot, and a search where that is another group's.
    pub(crate) fn add(&mut self, alloc: Global, x: Listed) -> Result<(), AllocError>
        requires { IsGrouping self.old.groups.items self.old }
        ensures { OnOk result (IsGrouping (grouped MAX_ITEMS self.old.groups.items x) self.new) }
    {
        add(
            &mut self.groups,
            &mut self.slots,
            &mut self.others,
            x,
            alloc,
        )
    }

    /// The groups.
    pub(crate) fn into_groups(self) -> Vec<OwnGroup>
        ensures { result ≡ self.groups }
    {
        self.groups
    }
}

/// The listed items, grouped by their vectors, with as many in a group as a fragment lists: the groups stand by
/// their first items.
pub(crate) fn groups_of(alloc: Global, listed: Vectors) -> Result<Vec<OwnGroup>, AllocError>
    ensures { IfOk result (λ groups. groups.items ≡ all_grouped MAX_ITEMS [] (listed_of listed.entries)) }
{
    let mut grouping = Grouping::new(alloc, listed.len())?;
    for (item, vector) in listed {
        grouping.add(alloc, Listed { item, vector })?;
    }
    Ok(grouping.into_groups())
}
