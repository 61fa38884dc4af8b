//! Runs: versions of one author whose counters have no gap.
ghost use Rattle.std.specs.Prelude.{◌≡◌, ◌≤◌, ◌+◌, ◌↔◌, IsTrue};
ghost use Rattle.mr_version.specs.declared.version.TheConstants.{MAX_COUNTER};

use mr_version::{Author, MAX_COUNTER, Version};

/// An unbroken run of one author's versions, from the first counter to the last, both included.
///
/// Counters are those of versions: 1 to 1,000,000.
#[derive(Clone, Copy, Debug, PartialEq, Eq)]
pub struct Run {
    /// Whose versions they are.
    pub author: Author,
    /// The lowest counter.
    pub first: u32,
    /// The highest counter.
    pub last: u32,
    ghost from_one: { 1 ≤ first },
    ghost ordered: { first ≤ last },
    ghost in_range: { last ≤ MAX_COUNTER },
}

impl Run {
    /// Whether the version is the author's next after the run.
    pub(crate) fn is_before(&self, version: Version) -> bool
        ensures { IsTrue result ↔ ((self.now.author ≡ version.author) × (self.now.last + 1 ≡ version.counter)) }
    {
        self.author == version.author() && self.last + 1 == version.counter()
    }
}
