//! How often each answer was given.

/// How many refusals and faults there may be, and one place more.
pub const PLACES: usize = 24;

/// How often each fault or refusal was met, by its number. Number 0 stands for what was taken.
#[derive(Clone, Copy, Drop)]
pub struct Tally {
    counts: [u64; PLACES],
}

impl Tally {
    /// Nothing was met.
    pub fn new() -> Tally {
        Tally {
            counts: [0; PLACES],
        }
    }

    /// Notes the fault or refusal of this number.
    pub fn note(&mut self, number: u8) {
        if let Some(count) = self.counts.get_mut(usize::from(number)) {
            *count = count.saturating_add(1);
        }
    }

    /// How often each was met.
    pub fn counts(&self) -> &[u64] {
        &self.counts
    }
}
