//! Clauses: conditions that hold together.
ghost use Rattle.std.specs.Prelude.{◌≡◌, ◌≤◌, ◌<◌, ◌+◌, ◌&&◌, IfOk, length};
ghost use Rattle.std.specs.List.{list_all, list_any};
ghost use Rattle.std.specs.List.Sorted.{IsStrictlySortedBy};
ghost use Rattle.mr_mail.specs.Label.{IsLabelSet, has_label, text_cmp};
ghost use Rattle.mr_filter.specs.Filter.{IsClause, clause_with};
ghost use Rattle.mr_filter.specs.Meaning.{has_labels, lacks_labels, meets, is_as_wide};
ghost use Rattle.mr_filter.specs.declared.clause.TheConstants.{MAX_CLAUSE_LABELS};

use mr_mail::{Day, Flags, Label, Place};
use std::alloc::AllocError;
use std::marker::Model;

/// The most labels of a clause, wanted and barred together.
pub const MAX_CLAUSE_LABELS: usize = 8;

/// Conditions that a message is to meet together: labels that it has, labels that it lacks, flags
/// that are on, flags that are off, and the first day of which it may be.
///
/// Each of the two lists of labels is in rising order of bytes, each label once; together they have
/// at most eight. A clause that contradicts itself is allowed, and no message meets it.
#[derive(Debug, Drop)]
pub struct Clause {
    all_labels: Vec<Label>,
    no_labels: Vec<Label>,
    flags_on: Flags,
    flags_off: Flags,
    since: Day,
}

impl Model for Clause {
    ghost use Rattle.mr_filter.specs.Filter.{ClauseParts, clause_code, clause_with, IsClause};

    ghost Value = { ClauseParts };

    ghost coded = { clause_code };

    ghost view = { λ c. clause_with c.all_labels.items c.no_labels.items c.flags_on c.flags_off c.since };

    ghost invariant = { λ c. IsClause
        (clause_with c.all_labels.items c.no_labels.items c.flags_on c.flags_off c.since) };
}

impl Clause {
    /// The clause with these parts.
    pub fn new(
        all_labels: Vec<Label>,
        no_labels: Vec<Label>,
        flags_on: Flags,
        flags_off: Flags,
        since: Day,
    ) -> Clause
        requires wanted { IsLabelSet all_labels.items }
        requires barred { IsLabelSet no_labels.items }
        requires few { length all_labels.items + length no_labels.items ≤ MAX_CLAUSE_LABELS }
        ensures { result ≡ clause_with all_labels.items no_labels.items flags_on flags_off since }
    {
        // the flags and the day are in their ranges
        let _on = flags_on.bits();
        let _off = flags_off.bits();
        let _days = since.days();
        Clause {
            all_labels,
            no_labels,
            flags_on,
            flags_off,
            since,
        }
    }

    /// The labels that a message is to have, in rising order of their bytes.
    pub fn all_labels(&self) -> &[Label]
        ensures value { result.now ≡ self.now.all_labels }
        ensures kept { IsClause self.now }
    {
        self.all_labels.as_slice()
    }

    /// The labels that a message is to lack, in rising order of their bytes.
    pub fn no_labels(&self) -> &[Label]
        ensures value { result.now ≡ self.now.no_labels }
        ensures kept { IsClause self.now }
    {
        self.no_labels.as_slice()
    }

    /// The flags that a message is to have.
    pub fn flags_on(&self) -> Flags
        ensures value { result ≡ self.now.flags_on }
        ensures kept { self.now.flags_on ≤ 31 }
    {
        self.flags_on
    }

    /// The flags that a message is to lack.
    pub fn flags_off(&self) -> Flags
        ensures value { result ≡ self.now.flags_off }
        ensures kept { self.now.flags_off ≤ 31 }
    {
        self.flags_off
    }

    /// The first day of which a message may be.
    pub fn since(&self) -> Day
        ensures value { result ≡ self.now.since }
        ensures kept { self.now.since < 65536 }
    {
        self.since
    }

    /// An equal clause.
    pub fn copy(&self) -> Result<Clause, AllocError>
        ensures { IfOk result (λ clause. clause ≡ self.now) }
    {
        Ok(Clause {
            all_labels: Label::copy_all(self.all_labels.allocator().clone()?, self.all_labels())?,
            no_labels: Label::copy_all(self.no_labels.allocator().clone()?, self.no_labels())?,
            flags_on: self.flags_on,
            flags_off: self.flags_off,
            since: self.since,
        })
    }

    /// Whether a message of this place meets every condition.
    pub(crate) fn is_met_by(&self, place: &Place) -> bool
        ensures { result ≡ meets place.now self.now }
    {
        place.day() >= self.since
            && place.flags().is_superset(self.flags_on)
            && place.flags().is_disjoint(self.flags_off)
            && self.admits_labels(place.labels())
    }

    /// Whether these labels, which rise, have each label that is wanted and none that is barred.
    fn admits_labels(&self, labels: &[Label]) -> bool
        requires { IsStrictlySortedBy text_cmp labels.now }
        ensures { result ≡ (has_labels labels.now self.now.all_labels && lacks_labels labels.now self.now.no_labels) }
    {
        has_each(labels, self.all_labels()) && !has_any(labels, self.no_labels())
    }

    /// Whether each condition of this clause is one of the other's.
    pub(crate) fn is_as_wide_as(&self, other: &Clause) -> bool
        ensures { result ≡ is_as_wide self.now other.now }
    {
        other.since >= self.since
            && other.flags_on.is_superset(self.flags_on)
            && other.flags_off.is_superset(self.flags_off)
            && self.names_only_labels_of(other)
    }

    /// Whether the other clause wants each label that this one wants, and bars each that it bars.
    fn names_only_labels_of(&self, other: &Clause) -> bool
        ensures { result ≡ (has_labels other.now.all_labels self.now.all_labels && has_labels other.now.no_labels self.now.no_labels) }
    {
        has_each(other.all_labels(), self.all_labels())
            && has_each(other.no_labels(), self.no_labels())
    }
}

/// Whether the label is among these, which rise.
fn has(labels: &[Label], label: &Label) -> bool
    requires { IsStrictlySortedBy text_cmp labels.now }
    ensures { result ≡ has_label labels.now label.now }
{
    labels.binary_search(label).is_ok()
}

/// Whether each of the wanted labels is among these, which rise.
fn has_each(labels: &[Label], wanted: &[Label]) -> bool
    requires { IsStrictlySortedBy text_cmp labels.now }
    ensures { result ≡ list_all (has_label labels.now) wanted.now }
{
    wanted.iter().all(|label| has(labels, label))
}

/// Whether one of the barred labels is among these, which rise.
fn has_any(labels: &[Label], barred: &[Label]) -> bool
    requires { IsStrictlySortedBy text_cmp labels.now }
    ensures { result ≡ list_any (has_label labels.now) barred.now }
{
    barred.iter().any(|label| has(labels, label))
}
