//! A sender that looks at its answer.
ghost use Rattle.std.specs.Prelude.{◌≡◌, true};

use mr_threads::{Halt, Speaker, Talk};
use std::sync::Wait;

/// Asks for the sum, once, and keeps it.
#[derive(Drop)]
pub struct Asker {
    pub heard: Option<u32>,
    pub hung_up: bool,
}

impl Speaker<u32, Option<u32>> for Asker {
    ghost is_ready = { λ _. Unit {0} };

    ghost speaks = { λ _ _ _. Unit {0} };

    ghost has_hung_up = { λ s. s.hung_up ≡ true };

    fn speak<R: Wait>(&mut self, rt: &R, talk: &mut Talk<u32, Option<u32>, R>) -> Result<(), Halt> {
        talk.say(rt, 0)?;
        self.heard = talk.last_reply().copied().flatten();
        Ok(())
    }

    fn hang_up(&mut self) {
        self.hung_up = true;
    }
}
