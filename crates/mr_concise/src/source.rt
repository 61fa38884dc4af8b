//! What a vector can be gathered of: vectors, runs, sets in other forms, and several sources in one.
ghost use Rattle.std.specs.Prelude.{◌≡◌, ◌≤◌, MatchOption, IfSome, false};
ghost use Rattle.mr_forms.specs.Sets.{Versions, both};
ghost use Rattle.mr_forms.specs.Runs.{of_author, HasNoAuthorFrom, IsNextAuthor, in_run};
ghost use Rattle.mr_concise.specs.Next.{IsNextOut, IsNextIn, HasNoneFrom};
ghost use Rattle.mr_concise.specs.AnyOf.{in_any, lower_of};
ghost use Rattle.mr_concise.specs.inner.AnyOf.{IsPassed};
ghost use Rattle.mr_concise.specs.Source.{in_some};
ghost use Rattle.mr_version.specs.Name.{name_eq};
ghost use Rattle.mr_concise.specs.Vector.{vector_has};
ghost use Rattle.mr_concise.specs.inner.Vector.{in_column};

use crate::column::COUNTERS_END;
use crate::column_ref::ColumnRef;
use crate::vector::{ConciseVector, column_at, next_author};
use mr_forms::{Run, VersionSet};
use mr_version::{Author, MAX_COUNTER, Version};

/// Versions of which a vector is gathered: they tell, for a place in their order, what comes next.
///
/// A source is a vector, a run, a version, or several of these: a reference to a source is one, an
/// `Option` (nothing, where it is `None`), a pair (what one of the two has), and an
/// [`AnyOf`](crate::AnyOf) of many. No call allocates. Its counters are those of versions, 1 to
/// 1,000,000, so that the place past the last one is 1,000,001.
pub trait Source: Drop {
    /// Which versions it has.
    ghost has: { Self → Versions };

    /// The next author, from this id on, of which there may be something: it has nothing of those
    /// that are passed over. `None` where it has nothing from this id on.
    fn next_author(&self, id: u16) -> Option<Author>
        ensures { MatchOption result (HasNoAuthorFrom (has self.now) id) (λ author. IsNextAuthor (has self.now) id author) };

    /// The author's first counter from here on that is not among them. `from` is 1 to 1,000,001.
    fn next_out(&self, author: Author, from: u32) -> u32
        requires { (1 ≤ from) × (from ≤ COUNTERS_END) }
        ensures next { IsNextOut (of_author (has self.now) author) from result }
        ensures bound { result ≤ COUNTERS_END }
        ensures zero { of_author (has self.now) author 0 ≡ false };

    /// The author's first counter from here on that is among them, if there is one. `from` is 1 or
    /// more.
    fn next_in(&self, author: Author, from: u32) -> Option<u32>
        requires { 1 ≤ from }
        ensures next { MatchOption result (HasNoneFrom (of_author (has self.now) author) from) (λ at. IsNextIn (of_author (has self.now) author) from at) }
        ensures bound { IfSome result (λ at. at ≤ MAX_COUNTER) };
}

/// Sources that are united: what one of them has.
#[derive(Drop)]
pub struct AnyOf<'a, S> {
    pub sources: &'a [S],
}

impl<'a, S: Source> Source for AnyOf<'a, S> {
    ghost has = { λ all. in_any S.has all.sources.now };

    fn next_author(&self, id: u16) -> Option<Author> {
        let mut next: Option<Author> = None;
        for source in self.sources {
            next = lower_author(next, source.next_author(id));
        }
        next
    }

    fn next_out(&self, author: Author, from: u32) -> u32 {
        let mut at = from;
        loop {
            let next = passed(self.sources, author, at);
            if next == at {
                return at;
            }
            at = next;
        }
    }

    fn next_in(&self, author: Author, from: u32) -> Option<u32> {
        let mut next: Option<u32> = None;
        for source in self.sources {
            next = lower_counter(next, source.next_in(author, from));
        }
        next
    }
}

/// The lower of two authors, where there are any: what a source of several sources tells of its next author.
pub fn lower_author(a: Option<Author>, b: Option<Author>) -> Option<Author>
    ensures { result ≡ lower_of a b }
{
    match (a, b) {
        (Some(s), Some(t)) => Some(if s.id() <= t.id() { s } else { t }),
        (Some(s), None) => Some(s),
        (None, end) => end,
    }
}

/// The lower of two counters, where there are any: what a source of several sources tells of its next counter.
pub fn lower_counter(a: Option<u32>, b: Option<u32>) -> Option<u32>
    ensures { result ≡ lower_of a b }
{
    match (a, b) {
        (Some(s), Some(t)) => Some(if s <= t { s } else { t }),
        (Some(s), None) => Some(s),
        (None, end) => end,
    }
}

/// Goes on from here past what a source has, source by source.
fn passed<S: Source>(sources: &[S], author: Author, from: u32) -> u32
    requires { (1 ≤ from) × (from ≤ COUNTERS_END) }
    ensures { IsPassed (of_author (in_any S.has sources.now) author) from result }
{
    let mut at = from;
    for source in sources {
        at = source.next_out(author, at);
    }
    at
}

/// The versions of a vector.
impl Source for ConciseVector {
    ghost has = { vector_has };

    fn next_author(&self, id: u16) -> Option<Author> {
        next_author(self.author_columns(), id)
    }

    fn next_out(&self, author: Author, from: u32) -> u32 {
        column_at(self.author_columns(), author).next_out(from)
    }

    fn next_in(&self, author: Author, from: u32) -> Option<u32> {
        column_at(self.author_columns(), author).next_in(from)
    }
}

/// An author's column, lent.
#[derive(Drop)]
pub(crate) struct OneColumn<'a> {
    pub(crate) author: Author,
    pub(crate) column: ColumnRef<'a>,
}

impl<'a> Source for OneColumn<'a> {
    ghost has = { λ one. in_column one.author one.column };

    fn next_author(&self, id: u16) -> Option<Author> {
        if self.author.id() >= id {
            Some(self.author)
        } else {
            None
        }
    }

    fn next_out(&self, author: Author, from: u32) -> u32 {
        if self.author.id() == author.id() {
            self.column.next_out(from)
        } else {
            from
        }
    }

    fn next_in(&self, author: Author, from: u32) -> Option<u32> {
        if self.author.id() == author.id() {
            self.column.next_in(from)
        } else {
            None
        }
    }
}

/// The versions of a run.
impl Source for Run {
    ghost has = { in_run };

    fn next_author(&self, id: u16) -> Option<Author> {
        if self.author.id() >= id {
            Some(self.author)
        } else {
            None
        }
    }

    fn next_out(&self, author: Author, from: u32) -> u32 {
        if self.author.id() == author.id() && self.first <= from && from <= self.last {
            self.last + 1
        } else {
            from
        }
    }

    fn next_in(&self, author: Author, from: u32) -> Option<u32> {
        if self.author.id() == author.id() && from <= self.last {
            Some(from.max(self.first))
        } else {
            None
        }
    }
}

/// The version alone.
#[tactic(auto, using(crate::proofs::NameLemmas::name_eq_parts))]
impl Source for Version {
    ghost has = { name_eq };

    fn next_author(&self, id: u16) -> Option<Author> {
        let author = self.author();
        if author.id() >= id {
            Some(author)
        } else {
            None
        }
    }

    fn next_out(&self, author: Author, from: u32) -> u32 {
        let counter = self.counter();
        if self.author().id() == author.id() && counter == from {
            from + 1
        } else {
            from
        }
    }

    fn next_in(&self, author: Author, from: u32) -> Option<u32> {
        let counter = self.counter();
        if self.author().id() == author.id() && from <= counter {
            Some(counter)
        } else {
            None
        }
    }
}

/// What the source has that is referred to.
impl<'a, S: Source> Source for &'a S {
    ghost has = { λ source. S.has source.now };

    fn next_author(&self, id: u16) -> Option<Author> {
        (**self).next_author(id)
    }

    fn next_out(&self, author: Author, from: u32) -> u32 {
        (**self).next_out(author, from)
    }

    fn next_in(&self, author: Author, from: u32) -> Option<u32> {
        (**self).next_in(author, from)
    }
}

/// What the source has, or nothing where there is none.
impl<S: Source> Source for Option<S> {
    ghost has = { in_some S.has };

    fn next_author(&self, id: u16) -> Option<Author> {
        match self {
            Some(source) => source.next_author(id),
            None => None,
        }
    }

    fn next_out(&self, author: Author, from: u32) -> u32 {
        match self {
            Some(source) => source.next_out(author, from),
            None => from,
        }
    }

    fn next_in(&self, author: Author, from: u32) -> Option<u32> {
        match self {
            Some(source) => source.next_in(author, from),
            None => None,
        }
    }
}

/// What one of the two has.
impl<A: Source, B: Source> Source for (A, B) {
    ghost has = { λ pair. both (A.has pair.0) (B.has pair.1) };

    fn next_author(&self, id: u16) -> Option<Author> {
        lower_author(self.0.next_author(id), self.1.next_author(id))
    }

    fn next_out(&self, author: Author, from: u32) -> u32 {
        let mut at = self.0.next_out(author, from);
        loop {
            let next = self.1.next_out(author, at);
            if next == at {
                return at;
            }
            at = self.0.next_out(author, next);
        }
    }

    fn next_in(&self, author: Author, from: u32) -> Option<u32> {
        lower_counter(self.0.next_in(author, from), self.1.next_in(author, from))
    }
}

/// The versions of a set in any form, as a source. It takes the set's runs one by one.
#[derive(Drop)]
pub struct OfSet<'a, S> {
    pub set: &'a S,
}

impl<'a, S: VersionSet> Source for OfSet<'a, S> {
    ghost has = { λ source. S.has source.set.now };

    fn next_author(&self, id: u16) -> Option<Author> {
        self.set.next_author(id)
    }

    fn next_out(&self, author: Author, from: u32) -> u32 {
        match self.set.run_from(author, from) {
            Some(run) if run.first == from => run.last + 1,
            _ => from,
        }
    }

    fn next_in(&self, author: Author, from: u32) -> Option<u32> {
        match self.set.run_from(author, from) {
            Some(run) => Some(run.first),
            None => None,
        }
    }
}
