//! Vectors of any set, and knowledge as fragments with concise vectors.
ghost use Rattle.std.specs.Prelude.{◌≡◌, ◌<◌, ◌≢◌, ◌↔◌, true, AllPairs, Some, All, IfOk, IfSome, OnOk, IsErrOf, Err, string_bytes};
ghost use Rattle.std.specs.List.{AllZip, Any};
ghost use Rattle.mr_forms.specs.Sets.{IsSame};
ghost use Rattle.mr_forms.specs.Runs.{in_runs, with_run, StandsBefore};
ghost use Rattle.mr_concise.specs.Vector.{column_of, vector_has, IsVectorFrom, IsVectorOf, HasTooManyHoles};
ghost use Rattle.mr_concise.specs.Fragments.{IsConciseOf, IsTooHoley, items_text, knowledge_text};

use crate::column::Column;
use crate::source::OfSet;
use crate::sweep::would_have_too_many;
use crate::vector::{AuthorColumn, ConciseVector, place, put};
use mr_forms::{FormFault, Fragment, ItemSet, Run, VersionSet};
use std::alloc::{AllocError, Global};
use std::fmt;

/// Puts a run into its author's column, which has nothing from there on. `false` where the column would have
/// too many holes.
fn append_run(columns: &mut Vec<AuthorColumn>, alloc: Global, run: Run) -> Result<bool, AllocError>
    requires columns { IsVectorFrom 0 columns.old.items }
    requires behind { (column_of columns.old.items run.author).upto < run.first }
    ensures { IfOk result (λ done. done ≡ true → IsVectorFrom 0 columns.new.items × IsSame (vector_has columns.new.items) (with_run (vector_has columns.old.items) run)) }
{
    let at = place(columns, run.author);
    if at < columns.len() && columns[at].author.id() == run.author.id() {
        let found = &mut columns[at];
        return found.column.append(run);
    }
    let mut column = Column::empty(alloc);
    if !column.append(run)? {
        return Ok(false);
    }
    put(
        columns,
        AuthorColumn {
            author: run.author,
            column,
        },
    )?;
    Ok(true)
}

/// The columns of runs. `None` where one would have too many holes.
fn columns_of_runs(alloc: Global, runs: &[Run]) -> Result<Option<Vec<AuthorColumn>>, AllocError>
    requires { AllPairs StandsBefore runs.now }
    ensures vector { IfOk result (λ columns. IfSome columns (λ v. IsVectorFrom 0 v.items)) }
    ensures means { IfOk result (λ columns. IfSome columns (λ v. IsSame (vector_has v.items) (in_runs runs.now))) }
{
    // most vectors have one column or two, each of one run
    let mut columns = Vec::with_capacity(alloc, runs.len().min(2))?;
    for run in runs {
        if !append_run(&mut columns, alloc, *run)? {
            return Ok(None);
        }
    }
    Ok(Some(columns))
}

/// The columns of all authors of a set. `None` where one would have too many holes.
fn columns_of_set<S: VersionSet>(
    alloc: Global,
    set: &S,
) -> Result<Option<Vec<AuthorColumn>>, AllocError>
    ensures vector { IfOk result (λ columns. IfSome columns (λ v. IsVectorFrom 0 v.items)) }
    ensures means { IfOk result (λ columns. IfSome columns (λ v. IsSame (vector_has v.items) (S.has set.now))) }
{
    let Ok(runs) = set.columns() else {
        return Err(AllocError);
    };
    columns_of_runs(alloc, &runs)
}

impl ConciseVector {
    /// The vector of the versions of a set in any form.
    ///
    /// `TooManyHoles` exactly where a column of the set has more than 4,096 holes; `OutOfMemory` only
    /// after it. It takes the set's runs once, as a list, and memory for these and for the vector; where there
    /// are too many holes or memory ends, it takes them again, one by one, to tell which.
    pub fn from_set<S: VersionSet>(alloc: Global, set: &S) -> Result<ConciseVector, FormFault>
        ensures ok { IfOk result (λ vector. IsSame (vector_has vector) (S.has set.now)) }
        ensures canonical { IfOk result (λ vector. IsVectorOf (S.has set.now) vector) }
        ensures holes { IsErrOf result FormFault.TooManyHoles ↔ HasTooManyHoles (S.has set.now) }
        ensures items { result ≢ Err FormFault.TooManyItems }
    {
        match columns_of_set(alloc, set) {
            Ok(Some(columns)) => Ok(ConciseVector { alloc, columns }),
            Ok(None) => ConciseVector::gather(alloc, &OfSet { set }),
            Err(_) if would_have_too_many(&OfSet { set }) => Err(FormFault::TooManyHoles),
            Err(_) => Err(FormFault::OutOfMemory),
        }
    }
}

/// The fragment with the concise vector of its set.
fn concise_fragment<V: VersionSet>(
    alloc: Global,
    fragment: Fragment<V>,
) -> Result<Fragment<ConciseVector>, FormFault>
    ensures ok { IfOk result (λ concise. IsConciseOf V.has fragment concise) }
    ensures few { OnOk result (¬ IsTooHoley V.has fragment) }
    ensures holes { IsErrOf result FormFault.TooManyHoles → IsTooHoley V.has fragment }
    ensures items { result ≢ Err FormFault.TooManyItems }
{
    let Fragment { items, vector } = fragment;
    let vector = ConciseVector::from_set(alloc, &vector)?;
    Ok(Fragment { items, vector })
}

/// The fragments with concise vectors: the same items in the same order, each with the vector of its set.
///
/// `TooManyHoles` only where one of the sets has a column with more than 4,096 holes; where there is such
/// a set it answers that or `OutOfMemory`.
pub fn concise_fragments<V: VersionSet>(
    alloc: Global,
    fragments: Vec<Fragment<V>>,
) -> Result<Vec<Fragment<ConciseVector>>, FormFault>
    ensures ok { IfOk result (λ concise. AllZip (IsConciseOf V.has) fragments.items concise.items) }
    ensures few { OnOk result (All (λ fragment. ¬ IsTooHoley V.has fragment) fragments.items) }
    ensures holes { IsErrOf result FormFault.TooManyHoles → Any (IsTooHoley V.has) fragments.items }
    ensures items { result ≢ Err FormFault.TooManyItems }
{
    let mut concise = Vec::with_capacity(alloc, fragments.len())?;
    for fragment in fragments {
        concise.push(concise_fragment(alloc, fragment)?)?;
    }
    Ok(concise)
}

/// Items, as a text shows them.
#[derive(Drop)]
struct ItemsText<'a>(&'a ItemSet);

/// Writes `all`, or the items with commas between them.
impl<'a> fmt::Display for ItemsText<'a> {
    ghost output = { λ items. Some (items_text items.0.now) };

    fn fmt<W: fmt::Write>(&self, f: &mut fmt::Formatter<W>) -> fmt::Result {
        let ItemSet::Listed(items) = self.0 else {
            return write!(f, "all");
        };
        match items.as_slice() {
            [] => Ok(()),
            [first, rest @ ..] => {
                write!(f, "{}", first.creator())?;
                for item in rest {
                    write!(f, ",{}", item.creator())?;
                }
                Ok(())
            }
        }
    }
}

/// Fragments, as a text shows them.
#[derive(Drop)]
struct KnowledgeText<'a>(&'a [Fragment<ConciseVector>]);

/// Writes the fragments with `; ` between them, or `-` where there is none.
impl<'a> fmt::Display for KnowledgeText<'a> {
    ghost output = { λ fragments. Some (knowledge_text fragments.0.now) };

    fn fmt<W: fmt::Write>(&self, f: &mut fmt::Formatter<W>) -> fmt::Result {
        match self.0 {
            [] => write!(f, "-"),
            [first, rest @ ..] => {
                write!(f, "{} {}", ItemsText(&first.items), first.vector)?;
                for fragment in rest {
                    write!(f, "; {} {}", ItemsText(&fragment.items), fragment.vector)?;
                }
                Ok(())
            }
        }
    }
}

/// The text of a knowledge, given by its fragments: `all` or the items with commas between them, a space
/// and the vector's text; fragments have `; ` between them, as `all 0:1; 0.3,0.5 0:9!2!5..7`. It is `-` for
/// no fragment.
pub fn knowledge_text(
    alloc: Global,
    fragments: &[Fragment<ConciseVector>],
) -> Result<String, AllocError>
    ensures { IfOk result (λ text. string_bytes text ≡ knowledge_text fragments.now) }
{
    format!(in alloc; "{}", KnowledgeText(fragments))
}
