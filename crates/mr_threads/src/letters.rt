//! A sender whose letters are known beforehand.
ghost use Rattle.std.specs.Prelude.{◌≡◌};
ghost use Rattle.mr_threads.specs.Letters.{SaysLetters};

use crate::speaker::Speaker;
use crate::talk::{Halt, Talk};
use std::alloc::Global;
use std::mem;
use std::sync::Wait;

/// Letters that are posted in order, each once the one before it was answered.
#[derive(Drop)]
pub struct Letters<E> {
    alloc: Global,
    pub letters: Vec<E>,
}

impl<E> Letters<E> {
    /// A sender of these letters.
    pub fn new(alloc: Global, letters: Vec<E>) -> Letters<E>
        ensures { result.letters ≡ letters }
    {
        Letters { alloc, letters }
    }
}

impl<E: Drop, A: Drop> Speaker<E, A> for Letters<E> {
    ghost is_ready = { λ _. Unit {0} };

    ghost speaks = { SaysLetters };

    ghost has_hung_up = { λ _. Unit {0} };

    fn speak<R: Wait>(&mut self, rt: &R, talk: &mut Talk<E, A, R>) -> Result<(), Halt> {
        let letters = mem::replace(&mut self.letters, Vec::new(self.alloc));
        talk.say_all(rt, letters)
    }

    fn hang_up(&mut self) {}
}
