//! The versions of a source's heads in one vector, made of their runs.
ghost use Rattle.std.specs.Prelude.{◌≡◌, ◌≤◌, ◌<◌, ◌+◌, ◌-◌, ◌++◌, [], map, length, get_or, true, IfOk, OnOk, IfSome};
ghost use Rattle.mr_version.specs.Name.{name_eq};
ghost use Rattle.mr_forms.specs.Sets.{is_listed, IsSame};
ghost use Rattle.mr_concise.specs.Column.{gap};
ghost use Rattle.mr_concise.specs.Vector.{IsVectorOf};
ghost use Rattle.mr_madewith.specs.Revision.{Rev};
ghost use Rattle.mr_store.specs.Revisions.{AreInVersionOrder, version_of};
ghost use Rattle.mr_session.specs.inner.Held.{counter_on, IsRow, extent, with_last, IsGrowth, IsAbove, IsBelowFirst, IsClosed, IsTurned, IsExtended};

use mr_concise::{AuthorColumn, Column, ConciseVector, Hole, MAX_HOLES};
use mr_forms::{Run, VersionSet};
use mr_madewith::Revision;
use mr_version::{Author, Version};
use std::alloc::{AllocError, Global};
use std::mem;

// Whether the version is the author's that is so many counters behind the first one.
fn is_on(version: Version, first: Version, by: usize) -> bool
    ensures { result ≡ name_eq version (counter_on first by) }
{
    version.author() == first.author()
        && version.counter() >= first.counter()
        && (version.counter() - first.counter()) as usize == by
}

// How many revisions at the front have the author's counters in a row, from the first one's on. It costs a search
// whose steps double: some look-ups for a short run, and by the logarithm of its length for a long one.
fn row_length(revisions: &[Revision], first: Version) -> usize
    requires in_order { AreInVersionOrder revisions.now }
    requires some { 0 < length revisions.now }
    requires first { (d : Rev) → (get_or revisions.now 0 d).version ≡ first }
    ensures some { 1 ≤ result }
    ensures within { result ≤ length revisions.now }
    ensures row { IsRow first result revisions.now }
{
    let mut low = 1;
    let mut high = revisions.len();
    let mut step = 1;
    while low < high {
        let probe = low + (high - low).min(step) - 1;
        if is_on(revisions[probe].version(), first, probe) {
            low = probe + 1;
            step = low;
        } else {
            high = probe;
            step = (high - low) / 2 + 1;
        }
    }
    low
}

// A vector that grows by runs, each above those that it has: the columns of lower authors, and in its parts the
// column of the last author, which may be empty.
#[derive(Drop)]
struct Growing {
    columns: Vec<AuthorColumn>,
    author: Author,
    upto: u32,
    holes: Vec<Hole>,
}

// Puts the last author's column behind the others, if it has something.
fn put_column(
    columns: &mut Vec<AuthorColumn>,
    author: Author,
    upto: u32,
    holes: Vec<Hole>,
) -> Result<(), AllocError>
    requires { IsGrowth columns.old.items author (extent upto holes.items) }
    ensures { OnOk result (IsClosed columns.old.items author (extent upto holes.items) columns.new.items) }
{
    if upto == 0 {
        return Ok(());
    }
    // an author's id is below 64
    let _range = author.id();
    let column = Column::new(upto, holes);
    columns.push(AuthorColumn { author, column })?;
    Ok(())
}

// Goes on with the column of the author of this run, which stands above all that there is.
#[tactic(auto, using(crate::proofs::GrowingLemmas::stays, crate::proofs::GrowingLemmas::turns))]
fn turn_to(alloc: Global, growing: &mut Growing, run: &Run) -> Result<(), AllocError>
    requires grown { IsGrowth growing.old.columns.items growing.old.author (extent growing.old.upto growing.old.holes.items) }
    requires above { IsAbove growing.old.author growing.old.upto run.now.author run.now.first }
    ensures { OnOk result (IsTurned (with_last growing.old.columns.items growing.old.author (extent growing.old.upto growing.old.holes.items)) run.now growing.new.columns.items growing.new.author (extent growing.new.upto growing.new.holes.items)) }
{
    if growing.author == run.author {
        return Ok(());
    }
    let holes = mem::replace(&mut growing.holes, Vec::new(alloc));
    put_column(&mut growing.columns, growing.author, growing.upto, holes)?;
    growing.author = run.author;
    growing.upto = 0;
    Ok(())
}

// Puts what lies between a column's bound and a higher counter behind its holes, and tells whether they are few enough.
fn put_hole(holes: &mut Vec<Hole>, upto: u32, first: u32) -> Result<bool, AllocError>
    requires above { upto < first }
    requires few { length holes.old.items ≤ MAX_HOLES }
    ensures few { IfOk result (λ fits. fits ≡ true → length holes.new.items ≤ MAX_HOLES) }
    ensures holes { IfOk result (λ fits. fits ≡ true → holes.new.items ≡ holes.old.items ++ gap (upto + 1) (first - 1)) }
{
    if first == upto + 1 {
        return Ok(true);
    }
    if holes.len() == MAX_HOLES {
        return Ok(false);
    }
    holes.push(Hole {
        first: upto + 1,
        last: first - 1,
    })?;
    Ok(true)
}

// Puts a run of the last author above its column, and tells whether its holes are few enough.
#[tactic(auto, using(crate::proofs::GrowingLemmas::extends_last))]
fn extend(growing: &mut Growing, run: Run) -> Result<bool, AllocError>
    requires grown { IsGrowth growing.old.columns.items growing.old.author (extent growing.old.upto growing.old.holes.items) }
    requires author { growing.old.author ≡ run.author }
    requires above { growing.old.upto < run.first }
    ensures { IfOk result (λ fits. fits ≡ true → IsExtended (with_last growing.old.columns.items growing.old.author (extent growing.old.upto growing.old.holes.items)) run growing.new.columns.items growing.new.author (extent growing.new.upto growing.new.holes.items)) }
{
    let fits = put_hole(&mut growing.holes, growing.upto, run.first)?;
    growing.upto = run.last;
    Ok(fits)
}

// The run from one version to the author's that is so many counters on.
fn run_to(first: Version, last: Version, by: usize) -> Run
    requires { last ≡ counter_on first by }
    ensures author { result.author ≡ first.author }
    ensures first { result.first ≡ first.counter }
    ensures last { result.last ≡ first.counter + by }
{
    Run {
        author: first.author(),
        first: first.counter(),
        last: last.counter(),
    }
}

// The run of versions in a row at the front, and how many these are.
fn first_run(revisions: &[Revision], first: Version) -> (Run, usize)
    requires in_order { AreInVersionOrder revisions.now }
    requires some { 0 < length revisions.now }
    requires first { (d : Rev) → (get_or revisions.now 0 d).version ≡ first }
    ensures some { 1 ≤ result.1 }
    ensures within { result.1 ≤ length revisions.now }
    ensures author { result.0.author ≡ first.author }
    ensures first { result.0.first ≡ first.counter }
    ensures last { result.0.last ≡ first.counter + (result.1 - 1) }
    ensures row { IsRow first result.1 revisions.now }
{
    let length = row_length(revisions, first);
    let by = length - 1;
    let last = revisions[by].version();
    (run_to(first, last, by), length)
}

// Puts the runs of these revisions above what there is, one after the other, and tells whether the holes are few
// enough.
fn extend_by_all(
    alloc: Global,
    growing: &mut Growing,
    revisions: &[Revision],
) -> Result<bool, AllocError>
    requires in_order { AreInVersionOrder revisions.now }
    requires grown { IsGrowth growing.old.columns.items growing.old.author (extent growing.old.upto growing.old.holes.items) }
    requires none { IsSame (with_last growing.old.columns.items growing.old.author (extent growing.old.upto growing.old.holes.items)) (is_listed []) }
    requires above { IsBelowFirst growing.old.author growing.old.upto (map version_of revisions.now) }
    ensures grown { IfOk result (λ fits. fits ≡ true → IsGrowth growing.new.columns.items growing.new.author (extent growing.new.upto growing.new.holes.items)) }
    ensures has { IfOk result (λ fits. fits ≡ true → IsSame (with_last growing.new.columns.items growing.new.author (extent growing.new.upto growing.new.holes.items)) (is_listed (map version_of revisions.now))) }
{
    let mut rest = revisions;
    while let Some(first) = rest.first() {
        let version = first.version();
        let (run, length) = first_run(rest, version);
        turn_to(alloc, growing, &run)?;
        let fits = extend(growing, run)?;
        if !fits {
            return Ok(false);
        }
        rest = &rest[length..];
    }
    Ok(true)
}

/// The versions of these revisions in one vector, or nothing where a column would have too many holes. It costs a
/// short search for each run of versions.
pub fn one_vector(
    alloc: Global,
    revisions: &[Revision],
) -> Result<Option<ConciseVector>, AllocError>
    requires { AreInVersionOrder revisions.now }
    ensures { IfOk result (λ made. IfSome made (IsVectorOf (is_listed (map version_of revisions.now)))) }
{
    let Some(lowest) = revisions.first() else {
        return Ok(Some(empty_vector(alloc)));
    };
    let version = lowest.version();
    // a version's counter is 1 or more
    let _range = version.counter();
    let mut growing = Growing {
        columns: Vec::new(alloc),
        author: version.author(),
        upto: 0,
        holes: Vec::new(alloc),
    };
    let fits = extend_by_all(alloc, &mut growing, revisions)?;
    if !fits {
        return Ok(None);
    }
    let mut columns = growing.columns;
    put_column(&mut columns, growing.author, growing.upto, growing.holes)?;
    Ok(Some(ConciseVector::from_columns(alloc, columns)))
}

// The vector of no versions.
fn empty_vector(alloc: Global) -> ConciseVector
    ensures { IsVectorOf (is_listed []) result }
{
    let vector = ConciseVector::new(alloc);
    // a vector's columns are as they have to be
    let _columns = vector.author_columns();
    vector
}
