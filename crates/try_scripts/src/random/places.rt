//! Random places, and what happens now and then.
ghost use Rattle.std.specs.Prelude.{◌≤◌, ◌<◌};

use crate::random::numbers::Numbers;
use rand::RngExt;

impl Numbers {
    /// The next place, which is below the limit.
    pub fn place_below(&mut self, limit: usize) -> usize
        requires { 1 ≤ limit }
        ensures { result < limit }
    {
        self.generator.random_range(0..limit)
    }

    /// Whether a thing that happens once in so many times happens now.
    pub fn is_once_in(&mut self, times: u32) -> bool
        requires { 1 ≤ times }
    {
        self.below(times) == 0
    }
}
