//! Filters: a count of clauses, and each clause with its labels, flags and first day.
ghost use Rattle.std.specs.Prelude.{◌≡◌, ◌≤◌, ◌+◌, IfSome, IsSomeAnd, length};
ghost use Rattle.mr_mail.specs.Label.{IsLabelSet};
ghost use Rattle.mr_filter.specs.Filter.{IsFilter, clause_with};
ghost use Rattle.mr_wire.specs.Parts.{clause_at, clauses_at, filter_at};
ghost use Rattle.mr_wire.specs.Reading.{Finds};
ghost use Rattle.mr_filter.specs.declared.clause.TheConstants.{MAX_CLAUSE_LABELS};

use crate::input::Input;
use crate::keep::{keep, room};
use crate::label::{flags, labels};
use mr_filter::{Clause, Filter, MAX_CLAUSE_LABELS, MAX_CLAUSES};
use mr_mail::{Day, Flags, Label};
use std::alloc::Global;

/// The fewest bytes of a clause: two counts of no labels, two bytes of flags, and a day.
const CLAUSE_BYTES: usize = 6;

/// The clause of these parts, where its labels are kept.
fn clause_of(
    wanted: Option<Vec<Label>>,
    barred: Option<Vec<Label>>,
    on: Flags,
    off: Flags,
    since: Day,
) -> Option<Clause>
    requires wanted { IfSome wanted (λ v. IsLabelSet v.items) }
    requires barred { IfSome barred (λ v. IsLabelSet v.items) }
    requires few { IfSome wanted (λ a. IfSome barred (λ b. length a.items + length b.items ≤ MAX_CLAUSE_LABELS)) }
    ensures { IfSome result (λ c. IsSomeAnd wanted (λ a. IsSomeAnd barred (λ b. c ≡ clause_with a.items b.items on off since))) }
{
    Some(Clause::new(wanted?, barred?, on, off, since))
}

fn clause(input: &mut Input<'_>, memory: Option<Global>) -> Option<Option<Clause>>
    ensures { Finds (λ c. c) clause_at input.old result input.new }
{
    let (wanted, wanted_count) = labels(input, memory)?;
    let (barred, barred_count) = labels(input, memory)?;
    let on = flags(input)?;
    let off = flags(input)?;
    let since = Day::new(input.u16()?);
    if usize::from(wanted_count + barred_count) > MAX_CLAUSE_LABELS {
        return None;
    }
    Some(clause_of(wanted, barred, on, off, since))
}

fn clauses(input: &mut Input<'_>, memory: Option<Global>, count: u8) -> Option<Option<Vec<Clause>>>
    ensures { Finds (λ v. v.items) (clauses_at count) input.old result input.new }
{
    let most = input.len() / CLAUSE_BYTES;
    let mut clauses = room(memory, most.min(usize::from(count)));
    for _ in 0..count {
        let clause = clause(input, memory)?;
        keep(&mut clauses, clause);
    }
    Some(clauses)
}

/// The filter of these clauses, where they are kept.
fn filter_of(clauses: Option<Vec<Clause>>) -> Option<Filter>
    requires { IfSome clauses (λ v. IsFilter v.items) }
    ensures { IfSome result (λ f. IsSomeAnd clauses (λ v. f ≡ v.items)) }
{
    Some(Filter::new(clauses?))
}

pub(crate) fn filter(input: &mut Input<'_>, memory: Option<Global>) -> Option<Option<Filter>>
    ensures { Finds (λ f. f) filter_at input.old result input.new }
{
    let count = input.u8()?;
    if usize::from(count) > MAX_CLAUSES {
        return None;
    }
    let clauses = clauses(input, memory, count)?;
    Some(filter_of(clauses))
}
