//! Sets of versions, in any form.
ghost use Rattle.std.specs.Prelude.{◌≡◌, ◌≤◌, ◌↔◌, ◌≢◌, false, MatchOption, IsTrue, IfOk, OnOk, OnErr, IsErrOf, Err};
ghost use Rattle.mr_forms.specs.Sets.{Versions, IsSame, Covers, with_version, both};
ghost use Rattle.mr_forms.specs.Runs.{with_run, AreRunsOf, HasVersionsAlone, HasNoAuthorFrom, IsNextAuthor, HasNoRunFrom, IsRunFrom};

use crate::{FormFault, Run};
use mr_version::{Author, Version};
use std::alloc::Global;

/// A set of versions, in some form.
///
/// Every answer is that of the set: see `has`. A form may have no value for some sets, as one that
/// keeps a limited number of gaps; a call whose result would be such a set answers `TooManyHoles`.
/// Each call that grows or copies can answer `OutOfMemory`, after every other fault, and a call that
/// answers a fault leaves its value as it was.
pub trait VersionSet: Drop {
    /// Which versions the set has.
    ghost has: { Self → Versions };

    /// The sets that this form has no value for.
    ghost has_too_many_holes: { Versions → Type 0 };

    /// The empty set. It allocates nothing; what grows later takes its memory from `alloc`.
    fn new(alloc: Global) -> Self
        ensures { IsSame (has result) (λ _. false) };

    /// An equal set. `OutOfMemory` is its only fault.
    fn copy(&self) -> Result<Self, FormFault>
        ensures ok { IfOk result (λ set. set ≡ self.now) }
        ensures memory { OnErr result (result ≡ Err FormFault.OutOfMemory) };

    /// Whether the set has the version.
    fn contains(&self, version: Version) -> bool
        ensures { result ≡ has self.now version };

    /// The next author, from this id on, of whom the set may have something: it has nothing of those
    /// that are passed over. `None` where it has nothing from this id on. It allocates nothing.
    fn next_author(&self, id: u16) -> Option<Author>
        ensures { MatchOption result (HasNoAuthorFrom (has self.now) id) (λ author. IsNextAuthor (has self.now) id author) };

    /// The author's first unbroken run from this counter on, as long as can be. It allocates nothing,
    /// so that a set can be walked where no memory is left. `from` is 1 or more.
    fn run_from(&self, author: Author, from: u32) -> Option<Run>
        requires { 1 ≤ from }
        ensures run { MatchOption result (HasNoRunFrom (has self.now) author from) (λ run. IsRunFrom (has self.now) author from run) }
        ensures versions { HasVersionsAlone (has self.now) };

    /// Adds one version.
    fn insert(&mut self, version: Version) -> Result<(), FormFault>
        ensures ok { OnOk result (IsSame (has self.new) (with_version (has self.old) version)) }
        ensures holes { IsErrOf result FormFault.TooManyHoles ↔ has_too_many_holes (with_version (has self.old) version) }
        ensures items { result ≢ Err FormFault.TooManyItems }
        ensures err { OnErr result (self.new ≡ self.old) };

    /// Adds all versions of a run.
    fn insert_range(&mut self, run: Run) -> Result<(), FormFault>
        ensures ok { OnOk result (IsSame (has self.new) (with_run (has self.old) run)) }
        ensures holes { IsErrOf result FormFault.TooManyHoles ↔ has_too_many_holes (with_run (has self.old) run) }
        ensures items { result ≢ Err FormFault.TooManyItems }
        ensures err { OnErr result (self.new ≡ self.old) };

    /// Adds all versions of another set.
    fn union(&mut self, other: &Self) -> Result<(), FormFault>
        ensures ok { OnOk result (IsSame (has self.new) (both (has self.old) (has other.now))) }
        ensures holes { IsErrOf result FormFault.TooManyHoles ↔ has_too_many_holes (both (has self.old) (has other.now)) }
        ensures items { result ≢ Err FormFault.TooManyItems }
        ensures err { OnErr result (self.new ≡ self.old) };

    /// Whether the set has every version of the other.
    fn covers(&self, other: &Self) -> bool
        ensures { IsTrue result ↔ Covers (has self.now) (has other.now) };

    /// The set as runs: each as long as can be, by author and then by counter.
    /// `OutOfMemory` is its only fault.
    fn columns(&self) -> Result<Vec<Run>, FormFault>
        ensures ok { IfOk result (λ runs. AreRunsOf (has self.now) runs.items) }
        ensures memory { OnErr result (result ≡ Err FormFault.OutOfMemory) };
}
