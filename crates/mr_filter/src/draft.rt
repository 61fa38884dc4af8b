//! A clause in the making, while its conditions are read.
ghost use Rattle.std.specs.Prelude.{◌≡◌, ℕ, List, [], ◌∷◌, ◌++◌, ◌<◌, ◌≤◌, IsTrue, IfOk, IfErr, OnOk, OnErr, length};
ghost use Rattle.std.specs.List.{AllPass};
ghost use Rattle.mr_mail.specs.Label.{is_label, different_labels, AreLabelsOf, IsLabelSet};
ghost use Rattle.mr_filter.specs.Condition.{SpellsCondition};
ghost use Rattle.mr_filter.specs.inner.Draft.{IsWithCondition, label_count_with, no_condition};
ghost use Rattle.mr_filter.specs.Filter.{IsClause};
ghost use Rattle.mr_filter.specs.inner.Written.{meaning_of, lent_texts};
ghost use Rattle.mr_filter.specs.declared.clause.TheConstants.{MAX_CLAUSE_LABELS};

use crate::clause::{Clause, MAX_CLAUSE_LABELS};
use crate::condition::Condition;
use crate::fault::FilterFault;
use arrayvec::ArrayVec;
use mr_mail::{Day, Flags, Label};
use std::alloc::{AllocError, Global};
use std::marker::Model;

/// Labels in rising order, each once. They are lent from the filter's text, so that reading needs
/// no memory.
type LentLabels<'a> = ArrayVec<&'a str, MAX_CLAUSE_LABELS>;

/// What the conditions of a clause so far ask together.
#[derive(Drop)]
pub(crate) struct Draft<'a> {
    wanted: LentLabels<'a>,
    barred: LentLabels<'a>,
    on: Flags,
    off: Flags,
    since: Day,
}

impl<'a> Model for Draft<'a> {
    ghost use Rattle.mr_filter.specs.Filter.{ClauseParts, clause_code, clause_with, IsClause};
    ghost use Rattle.mr_filter.specs.inner.Written.{lent_texts};

    ghost Value = { ClauseParts };

    ghost coded = { clause_code };

    ghost view = { λ d. clause_with (lent_texts d.wanted.items) (lent_texts d.barred.items) d.on d.off d.since };

    ghost invariant = { λ d. IsClause
        (clause_with (lent_texts d.wanted.items) (lent_texts d.barred.items) d.on d.off d.since) };
}

impl<'a> Draft<'a> {
    /// No condition.
    pub(crate) fn new() -> Draft<'a>
        ensures value { result ≡ no_condition }
        ensures kept { IsClause result }
    {
        Draft {
            wanted: ArrayVec::new(),
            barred: ArrayVec::new(),
            on: Flags::empty(),
            off: Flags::empty(),
            since: Day::new(0),
        }
    }

    /// One more condition. `TooManyLabels` if the conditions would name more than eight labels.
    pub(crate) fn add(&mut self, condition: Condition<'a>) -> Result<(), FilterFault>
        requires { (text : List ℕ) × SpellsCondition text (meaning_of condition) }
        ensures added { OnOk result (IsWithCondition self.old (meaning_of condition.entry) self.new) }
        ensures kept { OnOk result (IsClause self.new) }
        ensures many { IfErr result (λ _. MAX_CLAUSE_LABELS < label_count_with self.old (meaning_of condition.entry)) }
        ensures fault { IfErr result (λ fault. fault ≡ FilterFault.TooManyLabels) }
        ensures err { OnErr result (self.new ≡ self.old) }
    {
        match condition {
            Condition::HasLabel(label) => {
                put_label(
                    &mut self.wanted,
                    label,
                    MAX_CLAUSE_LABELS - self.barred.len(),
                )?
            }
            Condition::LacksLabel(label) => {
                put_label(
                    &mut self.barred,
                    label,
                    MAX_CLAUSE_LABELS - self.wanted.len(),
                )?
            }
            Condition::HasFlag(flag) => self.on = self.on.with(flag),
            Condition::LacksFlag(flag) => self.off = self.off.with(flag),
            Condition::Since(day) => self.since = self.since.max(day),
        }
        Ok(())
    }

    /// The clause of these conditions.
    pub(crate) fn to_clause(&self, alloc: Global) -> Result<Clause, AllocError>
        ensures { IfOk result (λ clause. clause ≡ self.now) }
    {
        Ok(Clause::new(
            owned_labels(alloc, self.wanted.as_slice())?,
            owned_labels(alloc, self.barred.as_slice())?,
            self.on,
            self.off,
            self.since,
        ))
    }
}

/// Puts the label at its place, unless it is there already. `TooManyLabels` if there are as many as
/// there may be.
fn put_label<'a>(
    labels: &mut LentLabels<'a>,
    label: &'a str,
    most: usize,
) -> Result<(), FilterFault>
    requires set { IsLabelSet (lent_texts labels.old.items) }
    requires label { IsTrue (is_label label.now) }
    requires few { length labels.old.items ≤ most }
    requires room { most ≤ MAX_CLAUSE_LABELS }
    ensures put { OnOk result
        (AreLabelsOf (lent_texts labels.old.items ++ label.now ∷ []) (lent_texts labels.new.items)) }
    ensures kept { OnOk result (IsLabelSet (lent_texts labels.new.items)) }
    ensures few { OnOk result (length labels.new.items ≤ most) }
    ensures many { IfErr result
        (λ _. most < different_labels (lent_texts labels.old.items ++ label.now ∷ [])) }
    ensures fault { IfErr result (λ fault. fault ≡ FilterFault.TooManyLabels) }
    ensures err { OnErr result (labels.new ≡ labels.old) }
{
    let Err(place) = labels.as_slice().binary_search(&label) else {
        return Ok(());
    };
    if labels.len() >= most {
        return Err(FilterFault::TooManyLabels);
    }
    labels.insert(place, label);
    Ok(())
}

/// The labels of these texts, in the same order.
fn owned_labels(alloc: Global, texts: &[&str]) -> Result<Vec<Label>, AllocError>
    requires { AllPass is_label (lent_texts texts.now) }
    ensures { IfOk result (λ labels. labels.items ≡ lent_texts texts.now) }
{
    let mut labels = Vec::with_capacity(alloc, texts.len())?;
    for text in texts {
        labels.push(label_of(text))?;
    }
    Ok(labels)
}

/// The label of this text.
fn label_of(text: &str) -> Label
    requires { IsTrue (is_label text.now) }
    ensures { result ≡ text.now }
{
    Label::read(text).unwrap()
}
