//! How many rows are as they should be.
use anyhow::Result;

/// How many rows there were, and how many of them differ from what is expected.
#[derive(Clone, Copy, Drop)]
pub struct Tally {
    rows: u64,
    differing: u64,
}

impl Tally {
    /// No row yet.
    pub fn new() -> Tally {
        Tally {
            rows: 0,
            differing: 0,
        }
    }

    /// Counts a row.
    pub fn note(&mut self, is_ok: bool) {
        self.rows = self.rows.saturating_add(1);
        self.differing = self.differing.saturating_add(u64::from(!is_ok));
    }

    /// Prints how many rows of this name there are, or how many differ. Whether there are some, and none differs.
    pub fn tell<R: Print>(&self, rt: &R, name: &str, what: &str) -> Result<bool> {
        let Tally { rows, differing } = *self;
        if rows != 0 && differing == 0 {
            println!(rt; "ok {name}, {what}: {rows}")?;
            return Ok(true);
        }
        println!(rt; "{name}: {differing} of {rows} {what} differ")?;
        Ok(false)
    }
}
