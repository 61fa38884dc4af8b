//! How often each outcome came.
use crate::disk::Crash;
use std::alloc::{AllocError, Global};

/// An outcome, behind a crash or behind none, and how often it came.
#[derive(Drop)]
struct Count {
    crash: Option<Crash>,
    told: String,
    times: u64,
}

/// The outcomes in the order in which they came first.
#[derive(Drop)]
pub struct Tally {
    counts: Vec<Count>,
}

impl Tally {
    /// Nothing came yet.
    pub fn new(alloc: Global) -> Tally {
        Tally {
            counts: Vec::new(alloc),
        }
    }

    /// Counts an outcome behind this crash.
    pub fn count(&mut self, crash: Option<Crash>, told: String) -> Result<(), AllocError> {
        for count in &mut self.counts {
            if count.crash == crash && count.told == told {
                count.times = count.times.saturating_add(1);
                return Ok(());
            }
        }
        self.push(crash, told)
    }

    fn push(&mut self, crash: Option<Crash>, told: String) -> Result<(), AllocError> {
        let times = 1;
        self.counts.push(Count { crash, told, times })?;
        Ok(())
    }

    /// A line for each outcome behind this crash.
    pub fn push_lines(&self, text: &mut String, crash: Option<Crash>) -> Result<(), AllocError> {
        for count in &self.counts {
            if count.crash == crash {
                push_line(text, crash, count.times, count.told.as_str())?;
            }
        }
        Ok(())
    }
}

/// A line that tells an outcome.
fn push_line(
    text: &mut String,
    crash: Option<Crash>,
    times: u64,
    told: &str,
) -> Result<(), AllocError> {
    if let Some(crash) = crash {
        let name = crash.name();
        write!(text, "{name}: ")?;
    }
    write!(text, "{times} x {told}\n")
}
