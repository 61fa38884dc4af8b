//! Random runs of versions.
use crate::random::numbers::Numbers;
use anyhow::Result;
use mr_forms::Run;
use mr_version::Author;

impl Numbers {
    /// A run of one of three authors, with few and low counters.
    pub fn run(&mut self) -> Result<Run> {
        let author = Author::try_new(self.below(3) as u16)?;
        let first = self.below(40) + 1;
        let last = first + self.below(7);
        Ok(Run {
            author,
            first,
            last,
        })
    }
}
