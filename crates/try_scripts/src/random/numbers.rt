//! Numbers, as a seed gives them.
ghost use Rattle.std.specs.Prelude.{◌≤◌, ◌<◌};

use rand::RngExt;
use rand_core::SeedableRng;
use rand_pcg::Pcg32;

/// A generator of numbers.
#[derive(Drop)]
pub struct Numbers {
    pub(crate) generator: Pcg32,
}

impl Numbers {
    /// The generator with this seed.
    pub fn from_seed(seed: u64) -> Numbers {
        Numbers {
            generator: Pcg32::seed_from_u64(seed),
        }
    }

    /// The next number, which is below the limit.
    pub fn below(&mut self, limit: u32) -> u32
        requires { 1 ≤ limit }
        ensures { result < limit }
    {
        self.generator.random_range(0..limit)
    }
}
