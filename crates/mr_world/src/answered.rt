//! An event with its answer.

use crate::answer::Answer;
use crate::event::Event;

/// An event of a world, with what the world answered.
#[derive(Debug, Drop)]
pub struct Answered {
    /// What happened.
    pub event: Event,
    /// What was answered.
    pub answer: Answer,
}
