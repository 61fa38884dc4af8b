//! What the fragments of a sparing knowledge say of listed items: what all items lack.
ghost use Rattle.std.specs.Prelude.{◌≡◌, ◌<◌, ◌≤◌, ◌↔◌, ℕ, true, false, nat_lt, length, MatchOption, IfOk, IfSome, OnOk, OnErr, Err, All, Contains, map};
ghost use Rattle.std.specs.List.{AllZip};
ghost use Rattle.std.specs.List.Sorted.{IsNonDecreasingBy, IsPartitionPoint};
ghost use Rattle.mr_forms.specs.Runs.{of_author};
ghost use Rattle.mr_forms.specs.Sets.{both};
ghost use Rattle.mr_concise.specs.Column.{IsColumn, column_has, empty_column};
ghost use Rattle.mr_concise.specs.Next.{IsNextIn, HasNoneFrom};
ghost use Rattle.mr_concise.specs.Vector.{vector_has, column_of, IsVectorFrom};
ghost use Rattle.mr_itemset.specs.inner.Entries.{listed_as};
ghost use Rattle.mr_itemset.specs.Folded.{folded};
ghost use Rattle.mr_itemset.specs.inner.Folded.{Fits};
ghost use Rattle.mr_itemset.specs.Shown.{shown, fragments_in};
ghost use Rattle.mr_itemset.specs.Told.{IsToldOfAuthor, AreTold, IsToldOf};
ghost use Rattle.mr_itemset.specs.inner.Grouping.{AreGroupsTold, GroupsTold, IsGrouping};
ghost use Rattle.mr_itemset.specs.inner.Told.{beyond, Skips};

use crate::fragments::fragments_of;
use crate::groups::{Grouping, OwnGroup};
use crate::knowledge::Listed;
use crate::settled::Settled;
use mr_concise::{AuthorColumn, Column, ConciseVector, Hole, Source};
use mr_forms::{FormFault, Fragment};
use mr_version::{Author, ItemId, MAX_COUNTER};
use std::alloc::{AllocError, Global};

/// The author's column, where there is one.
fn column_in(vector: &ConciseVector, author: Author) -> Option<&Column>
    ensures is { MatchOption result (column_of vector.now author ≡ empty_column) (λ column. column.now ≡ column_of vector.now author) }
    ensures ok { IfSome result (λ column. IsColumn column.now) }
{
    for x in vector.author_columns() {
        if x.author.id() == author.id() {
            return Some(&x.column);
        }
    }
    None
}

/// The last hole that begins before the counter. It costs a binary search.
fn last_begun(holes: &[Hole], counter: u32) -> Option<Hole>
    requires { IsNonDecreasingBy (λ hole. hole.first) holes.now }
    ensures { IfSome result (λ hole. Contains holes.now hole × (hole.first < counter)) }
{
    let begun = begun_before(holes, counter);
    if begun > 0 {
        Some(holes[begun - 1])
    } else {
        None
    }
}

/// How many holes begin before the counter.
fn begun_before(holes: &[Hole], counter: u32) -> usize
    requires { IsNonDecreasingBy (λ hole. hole.first) holes.now }
    ensures bound { result ≤ length holes.now }
    ensures begun { IsPartitionPoint (λ hole. nat_lt hole.first counter ≡ true) (λ hole. nat_lt hole.first counter ≡ false) holes.now result }
{
    holes.partition_point(|hole| hole.first < counter)
}

/// The last counter before the end that the column lacks, where it lacks the first one. Callers may rely on
/// any such counter; that it is the last one saves them steps.
#[tactic(auto, using(crate::proofs::HoleWalk::above_lacks))]
fn last_gap_before(column: &Column, first: u32, end: u32) -> u32
    requires column { IsColumn column.now }
    requires before { first < end }
    requires lacks { column_has column.now first ≡ false }
    ensures above { first ≤ result }
    ensures below { result < end }
    ensures lacks { column_has column.now result ≡ false }
{
    if column.upto() < end - 1 {
        return end - 1;
    }
    match last_begun(column.holes(), end) {
        Some(hole) => hole.last.min(end - 1).max(first),
        None => first,
    }
}

/// The author's last counter before the end that the vector lacks, where it lacks the first one, as
/// [`last_gap_before`] tells it of a column.
fn last_out_before(vector: &ConciseVector, author: Author, first: u32, end: u32) -> u32
    requires before { first < end }
    requires lacks { of_author (vector_has vector.now) author first ≡ false }
    ensures above { first ≤ result }
    ensures below { result < end }
    ensures lacks { of_author (vector_has vector.now) author result ≡ false }
{
    match column_in(vector, author) {
        Some(column) => last_gap_before(column, first, end),
        None => end - 1,
    }
}

/// A counter up to which two columns have the same: the last one of the holes that they share from the first one on.
/// Callers may rely on any such counter; that it is a high one saves them steps. It costs a look at each of these holes.
fn alike_until(all: &Column, own: &Column) -> u32
    requires all { IsColumn all.now }
    requires own { IsColumn own.now }
    ensures { (c : ℕ) → c ≤ result → column_has all.now c ≡ column_has own.now c }
{
    let (left, right) = (all.holes(), own.holes());
    let most = left.len().min(right.len());
    let mut shared = 0;
    while shared < most && left[shared] == right[shared] {
        shared += 1;
    }
    if shared > 0 { left[shared - 1].last } else { 0 }
}

/// What all items have, and what an item has beside: it has what one of the two has.
#[derive(Drop)]
struct Difference<'a> {
    all: &'a ConciseVector,
    own: &'a ConciseVector,
}

impl<'a> Difference<'a> {
    /// A counter of the author up to which the item has nothing that not all items have.
    fn nothing_until(&self, author: Author) -> u32
        ensures { (c : ℕ) → c ≤ result → beyond self.now.all.now self.now.own.now author c ≡ false }
    {
        match (column_in(self.all, author), column_in(self.own, author)) {
            (Some(all), Some(own)) => alike_until(all, own),
            _ => 0,
        }
    }

    /// The author's first counter from here on that the item has, and not all items. It costs a look at each hole
    /// that the two columns share at their beginning, and behind these two searches for each run of what the item has.
    fn next_in(&self, author: Author, from: u32) -> Option<u32>
        requires { 1 ≤ from }
        ensures next { MatchOption result (HasNoneFrom (beyond self.now.all.now self.now.own.now author) from) (λ at. IsNextIn (beyond self.now.all.now self.now.own.now author) from at) }
        ensures bound { IfSome result (λ at. at ≤ MAX_COUNTER) }
    {
        let mut at = from.max(self.nothing_until(author));
        loop {
            let there = self.own.next_in(author, at)?;
            let next = self.all.next_out(author, there);
            if next == there {
                return Some(there);
            }
            at = next;
        }
    }

    /// The last counter, of those that the item has in a row from the first one on, that not all items have.
    /// It costs a search in each of the two columns, however many holes all items have in that row.
    fn last_in_row(&self, author: Author, first: u32) -> u32
        requires first { (1 ≤ first) × (first ≤ MAX_COUNTER) }
        requires is { beyond self.now.all.now self.now.own.now author first ≡ true }
        ensures above { first ≤ result }
        ensures bound { result ≤ MAX_COUNTER }
        ensures is { beyond self.now.all.now self.now.own.now author result ≡ true }
        ensures row { (c : ℕ) → first ≤ c → c ≤ result → of_author (vector_has self.now.own.now) author c ≡ true }
    {
        let end = self.own.next_out(author, first);
        last_out_before(self.all, author, first, end)
    }

    /// Whether the item has all of the author's counters from here to before the other one.
    fn has_row(&self, author: Author, from: u32, end: u32) -> bool
        requires { (1 ≤ from) × (from ≤ MAX_COUNTER) }
        ensures yes { result ≡ true → (c : ℕ) → from ≤ c → c < end → of_author (both (vector_has self.now.all.now) (vector_has self.now.own.now)) author c ≡ true }
        ensures no { result ≡ false → (c : ℕ) × ((from ≤ c) × ((c < end) × (of_author (both (vector_has self.now.all.now) (vector_has self.now.own.now)) author c ≡ false))) }
    {
        if end <= self.own.next_out(author, from) {
            return true;
        }
        let known = (self.all, self.own);
        end <= known.next_out(author, from)
    }

    /// Puts a hole of the counters from here to before the other behind the others, unless the item has
    /// them all.
    fn skip(
        &self,
        holes: &mut Vec<Hole>,
        author: Author,
        from: u32,
        first: u32,
    ) -> Result<(), AllocError>
        requires from { (1 ≤ from) × (from ≤ MAX_COUNTER) }
        requires first { (from ≤ first) × (first ≤ MAX_COUNTER) }
        ensures { OnOk result (Skips (of_author (both (vector_has self.now.all.now) (vector_has self.now.own.now)) author) from first holes.old.items holes.new.items) }
    {
        if !self.has_row(author, from, first) {
            holes.push(Hole {
                first: from,
                last: first - 1,
            })?;
        }
        Ok(())
    }

    /// The author's counters that the item has and all items lack, in the column with the fewest holes that
    /// leaves the meaning as it is: those between two of them, and before the first, are in it where the
    /// item has them all.
    fn column(&self, alloc: Global, author: Author) -> Result<Column, AllocError>
        ensures column { IfOk result IsColumn }
        ensures told { IfOk result (λ column. (c : ℕ) → (column_has column c ≡ true) ↔ IsToldOfAuthor (vector_has self.now.all.now) (both (vector_has self.now.all.now) (vector_has self.now.own.now)) author c) }
    {
        // a vector's columns are as they have to be
        let _own = self.own.author_columns();
        let mut holes = Vec::new(alloc);
        let mut upto = 0;
        while let Some(first) = self.next_in(author, upto + 1) {
            self.skip(&mut holes, author, upto + 1, first)?;
            upto = self.last_in_row(author, first);
        }
        Ok(Column::new(upto, holes))
    }

    /// The same of all authors.
    fn vector(&self, alloc: Global) -> Result<ConciseVector, AllocError>
        ensures vector { IfOk result (IsVectorFrom 0) }
        ensures told { IfOk result (λ vector. AreTold (vector_has self.now.all.now) (both (vector_has self.now.all.now) (vector_has self.now.own.now)) (vector_has vector)) }
    {
        let mut columns = Vec::with_capacity(alloc, self.own.author_columns().len())?;
        let mut id = 0;
        while let Some(author) = self.own.next_author(id) {
            let column = self.column(alloc, author)?;
            if column.upto() > 0 {
                columns.push(AuthorColumn { author, column })?;
            }
            id = author.id() + 1;
        }
        Ok(ConciseVector::from_columns(alloc, columns))
    }
}

/// Puts what is told of an item into the group that takes it, if the item has something that not all items have.
fn group_told(
    grouping: &mut Grouping,
    alloc: Global,
    all: &ConciseVector,
    item: ItemId,
    own: &ConciseVector,
) -> Result<(), AllocError>
    requires { IsGrouping grouping.old.groups.items grouping.old }
    ensures { OnOk result (GroupsTold all.now (listed_as item own.now) grouping.old grouping.new) }
{
    let difference = Difference { all, own };
    let vector = difference.vector(alloc)?;
    if vector.author_columns().is_empty() {
        return Ok(());
    }
    grouping.add(alloc, Listed { item, vector })?;
    Ok(())
}

impl<const LIMIT: usize> Settled<LIMIT> {
    /// What is told of each listed item that has something that not all items have, grouped.
    fn told_groups(&self, all: &ConciseVector) -> Result<Vec<OwnGroup>, AllocError>
        ensures { IfOk result (λ groups. AreGroupsTold all.now self.now.listed groups.items) }
    {
        let alloc = self.allocator();
        let mut grouping = Grouping::new(alloc, self.listed().len())?;
        for (item, own) in self.listed() {
            group_told(&mut grouping, alloc, all, *item, own)?;
        }
        Ok(grouping.into_groups())
    }

    /// The knowledge, with these versions for all items, as fragments that say each thing once. They are
    /// those of the normal form, but of its listed items each says what all items lack, in the column with
    /// the fewest holes that leaves the meaning as it is. For n listed items it takes about n log n
    /// comparisons of what is told of them, and some searches for each run of what is listed.
    pub(crate) fn told(
        &self,
        pending: &ConciseVector,
    ) -> Result<Vec<Fragment<ConciseVector>>, FormFault>
        requires vector { IsVectorFrom 0 pending.now }
        requires all { Fits self.now.all pending.now }
        requires listed { All (λ x. Fits x.vector pending.now) self.now.listed }
        ensures are { IfOk result (λ fragments. AllZip (IsToldOf (folded self.now pending.now).all) (fragments_in (folded self.now pending.now)) (map shown fragments.items)) }
        ensures memory { OnErr result (result ≡ Err FormFault.OutOfMemory) }
    {
        let alloc = self.allocator();
        let sources = (pending, self.for_all());
        let Ok(all) = ConciseVector::gather(alloc, &sources) else {
            return Err(FormFault::OutOfMemory);
        };
        let groups = self.told_groups(&all)?;
        Ok(fragments_of(alloc, all, groups)?)
    }
}
