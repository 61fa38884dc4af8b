//! Filters from their texts.
ghost use Rattle.std.specs.Prelude.{◌≡◌, ◌↔◌, IsTrue, IfOk, IfErr, All};
ghost use Rattle.std.specs.List.{AllZip, AllByRecursion};
ghost use Rattle.mr_filter.specs.Filter.{IsClause};
ghost use Rattle.mr_filter.specs.Grammar.{clauses_of, HasCrowdedClause, IsClauseInGrammar, NamesTooMany, ReadsClause};

use crate::clause::Clause;
use crate::condition::condition_of;
use crate::draft::Draft;
use crate::fault::FilterFault;
use crate::pieces::{AND, NO_CONDITION, OR, cut};
use std::alloc::{AllocError, Global};

/// The conditions of a clause's text, which is in the grammar, or `TooManyLabels` if they name more
/// than eight.
fn read_conditions(text: &str) -> Result<Draft<'_>, FilterFault>
    requires { IsClauseInGrammar text.now }
    ensures read { IfOk result (ReadsClause text.now) }
    ensures kept { IfOk result IsClause }
    ensures many { IfErr result (λ _. NamesTooMany text.now) }
    ensures fault { IfErr result (λ fault. fault ≡ FilterFault.TooManyLabels) }
{
    let mut draft = Draft::new();
    if text == NO_CONDITION {
        return Ok(draft);
    }
    let mut rest = text;
    loop {
        let (piece, more) = cut(rest, AND);
        let Some(condition) = condition_of(piece) else {
            unreachable!()
        };
        draft.add(condition)?;
        let Some(next) = more else {
            return Ok(draft);
        };
        rest = next;
    }
}

/// Whether a clause of a text that is in the grammar names more than eight labels. It takes no
/// memory.
pub(crate) fn is_crowded(text: &str) -> bool
    requires { AllByRecursion IsClauseInGrammar (clauses_of text.now) }
    ensures { IsTrue result ↔ HasCrowdedClause text.now }
{
    let mut rest = text;
    loop {
        let (clause, more) = cut(rest, OR);
        if read_conditions(clause).is_err() {
            return true;
        }
        let Some(next) = more else {
            return false;
        };
        rest = next;
    }
}

/// The clause of a text that is in the grammar and names at most eight labels.
fn read_clause(alloc: Global, text: &str) -> Result<Clause, AllocError>
    requires in_grammar { IsClauseInGrammar text.now }
    requires few { NamesTooMany text.now → ⊥ }
    ensures read { IfOk result (ReadsClause text.now) }
    ensures kept { IfOk result IsClause }
{
    let Ok(draft) = read_conditions(text) else {
        unreachable!()
    };
    draft.to_clause(alloc)
}

/// The clauses of a text that is in the grammar and of which none names more than eight labels.
pub(crate) fn read_clauses(alloc: Global, text: &str) -> Result<Vec<Clause>, AllocError>
    requires in_grammar { AllByRecursion IsClauseInGrammar (clauses_of text.now) }
    requires few { HasCrowdedClause text.now → ⊥ }
    ensures read { IfOk result (λ clauses. AllZip ReadsClause (clauses_of text.now) clauses.items) }
    ensures kept { IfOk result (λ clauses. All IsClause clauses.items) }
{
    let mut clauses = Vec::new(alloc);
    let mut rest = text;
    loop {
        let (clause, more) = cut(rest, OR);
        clauses.push(read_clause(alloc, clause)?)?;
        let Some(next) = more else {
            return Ok(clauses);
        };
        rest = next;
    }
}
