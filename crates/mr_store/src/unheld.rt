//! What a full source covers and did not hold.
ghost use Rattle.std.specs.Prelude.{◌≡◌, ◌≤◌, ◌<◌, ℕ, List, map, filter, length, true, false, IfOk, MatchOption};
ghost use Rattle.mr_forms.specs.Runs.{of_author};
ghost use Rattle.mr_concise.specs.AnyOf.{in_any};
ghost use Rattle.mr_concise.specs.Fragments.{ConciseFragment};
ghost use Rattle.mr_concise.specs.Next.{IsNextIn, HasNoneFrom};
ghost use Rattle.mr_concise.specs.Vector.{vector_has};
ghost use Rattle.mr_concise.specs.declared.vector.AuthorColumn.{AuthorColumn};
ghost use Rattle.mr_store.specs.FragmentIndex.{Finds};
ghost use Rattle.mr_store.specs.inner.FragmentIndex.{items_of};
ghost use Rattle.mr_store.specs.Revisions.{AreInVersionOrder};
ghost use Rattle.mr_store.specs.Unheld.{is_unheld};
ghost use Rattle.mr_store.specs.inner.Unheld.{by_vector};

use crate::FragmentIndex;
use crate::by_version::place_before;
use mr_concise::{AnyOf, COUNTERS_END, ConciseVector, Source, lower_counter};
use mr_forms::{Fragment, VersionSet};
use mr_madewith::Revision;
use mr_version::{Author, ItemId, Version};
use std::alloc::{AllocError, Global};

/// Those of these revisions, which stand in version order, that the fragments cover and that no vector has. It
/// costs a sort of the items that the fragments list. A run of versions that some vector has is passed by three
/// binary searches; so is, where nothing is listed, a run that no fragment has. Each other revision is
/// tested.
pub fn unheld_of(
    alloc: Global,
    learned: &[Fragment<ConciseVector>],
    held: &[ConciseVector],
    revisions: &[Revision],
) -> Result<Vec<Revision>, AllocError>
    requires { AreInVersionOrder revisions.now }
    ensures { IfOk result (λ left. left.items ≡ filter (λ r. is_unheld learned.now held.now r.item r.version) revisions.now) }
{
    let index = FragmentIndex::new(alloc, learned)?;
    let mut left = Vec::new(alloc);
    let mut rest = pass(&index, learned, held, revisions);
    while let Some(first) = rest.first() {
        if is_unheld(&index, learned, held, first.item(), first.version()) {
            left.push(first.copy()?)?;
        }
        rest = pass(&index, learned, held, &rest[1..]);
    }
    Ok(left)
}

// Whether these fragments, of which this is the index, cover the version for the item, and no vector has
// it. It costs two binary searches for each vector; and only where none has it, a look-up in the index.
fn is_unheld(
    index: &FragmentIndex,
    learned: &[Fragment<ConciseVector>],
    held: &[ConciseVector],
    item: ItemId,
    version: Version,
) -> bool
    requires { Finds (map items_of learned.now) index.now }
    ensures { result ≡ is_unheld learned.now held.now item version }
{
    !is_in_some(held, version) && index.covers(learned, item, version)
}

fn is_in_some(held: &[ConciseVector], version: Version) -> bool
    ensures { result ≡ in_any vector_has held.now version }
{
    held.iter().any(|vector| vector.contains(version))
}

// What is left behind runs of versions at the front that are not unheld, if there are any.
fn pass<'a>(
    index: &FragmentIndex,
    learned: &[Fragment<ConciseVector>],
    held: &[ConciseVector],
    revisions: &'a [Revision],
) -> &'a [Revision]
    requires { AreInVersionOrder revisions.now }
    ensures in_order { AreInVersionOrder result.now }
    ensures shorter { length result.now ≤ length revisions.now }
    ensures unheld { filter (λ r. is_unheld learned.now held.now r.item r.version) result.now ≡ filter (λ r. is_unheld learned.now held.now r.item r.version) revisions.now }
{
    let rest = pass_held(held, revisions);
    if index.lists_items() {
        rest
    } else {
        pass_uncovered(learned, rest)
    }
}

// The author's counters from the version's up to this one are each in some vector.
fn held_until(held: &[ConciseVector], version: Version) -> u32
    ensures { (counter : ℕ) → version.counter ≤ counter → counter < result → in_any vector_has held.now (record { author = version.author; counter = counter }) ≡ true }
{
    let all = AnyOf { sources: held };
    all.next_out(version.author(), version.counter())
}

// What is left behind the run of one author's versions, at the front, that some vector has.
fn pass_held<'a>(held: &[ConciseVector], revisions: &'a [Revision]) -> &'a [Revision]
    requires { AreInVersionOrder revisions.now }
    ensures in_order { AreInVersionOrder result.now }
    ensures shorter { length result.now ≤ length revisions.now }
    ensures unheld { (learned : List ConciseFragment) → filter (λ r. is_unheld learned held.now r.item r.version) result.now ≡ filter (λ r. is_unheld learned held.now r.item r.version) revisions.now }
{
    match revisions.first() {
        Some(first) => {
            let version = first.version();
            let until = held_until(held, version);
            &revisions[place_before(revisions, version.author(), until)..]
        }
        None => revisions,
    }
}

// The first of the author's counters from here on that some fragment has, if there is one.
fn next_in_some(learned: &[Fragment<ConciseVector>], author: Author, from: u32) -> Option<u32>
    requires { 1 ≤ from }
    ensures { MatchOption result (HasNoneFrom (of_author (in_any by_vector learned.now) author) from) (λ at. IsNextIn (of_author (in_any by_vector learned.now) author) from at) }
{
    let mut next: Option<u32> = None;
    for fragment in learned {
        next = lower_counter(next, fragment.vector.next_in(author, from));
    }
    next
}

// The author's counters from the version's up to this one are in no fragment.
fn uncovered_until(learned: &[Fragment<ConciseVector>], version: Version) -> u32
    ensures { (counter : ℕ) → version.counter ≤ counter → counter < result → in_any by_vector learned.now (record { author = version.author; counter = counter }) ≡ false }
{
    match next_in_some(learned, version.author(), version.counter()) {
        Some(counter) => counter,
        None => COUNTERS_END,
    }
}

// What is left behind the run of one author's versions, at the front, that no fragment has.
fn pass_uncovered<'a>(
    learned: &[Fragment<ConciseVector>],
    revisions: &'a [Revision],
) -> &'a [Revision]
    requires { AreInVersionOrder revisions.now }
    ensures in_order { AreInVersionOrder result.now }
    ensures shorter { length result.now ≤ length revisions.now }
    ensures unheld { (held : List (List AuthorColumn)) → filter (λ r. is_unheld learned.now held r.item r.version) result.now ≡ filter (λ r. is_unheld learned.now held r.item r.version) revisions.now }
{
    match revisions.first() {
        Some(first) => {
            let version = first.version();
            let until = uncovered_until(learned, version);
            &revisions[place_before(revisions, version.author(), until)..]
        }
        None => revisions,
    }
}
