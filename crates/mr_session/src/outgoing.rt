//! Streams: what a replica tells another one that asked.
ghost use Rattle.std.specs.Prelude.{◌≡◌, IfOk};
ghost use Rattle.mr_session.specs.Stream.{new_stream};

mod onward;

use crate::asked::AskedOf;
use crate::copies::{copied_know, copied_queue};
use mr_concise::ConciseVector;
use mr_version::Version;
use mr_wire::{FrameFragment, Mode};
pub use onward::{Onward, Prepared};
use std::alloc::{AllocError, Global};
use std::collections::VecDeque;
use std::marker::Model;

/// A stream of records for one who asked.
#[derive(Drop)]
pub struct Outgoing {
    alloc: Global,
    asked: AskedOf,
    mode: Mode,
    // the index of the next record
    next: u32,
    // the version that the walk looked at last
    past: Option<Version>,
    // the vectors still to give, once the first of them was given
    held: Option<VecDeque<ConciseVector>>,
    // the fragments still to give
    know: VecDeque<FrameFragment>,
}

impl Model for Outgoing {
    ghost use Rattle.std.specs.Option.{option_map};
    ghost use Rattle.mr_session.specs.Stream.{Stream};

    ghost Value = { Stream };

    ghost view = { λ s. record { asked = s.asked; mode = s.mode; next = s.next; past = s.past; held = option_map (λ vectors. vectors.items) s.held; know = s.know.items } };
}

impl Outgoing {
    /// A stream of which nothing was drawn. A full one gives these fragments of what its source knows.
    pub fn new(alloc: Global, asked: AskedOf, mode: Mode, know: VecDeque<FrameFragment>) -> Outgoing
        ensures { result ≡ new_stream asked mode know.items }
    {
        Outgoing {
            alloc,
            asked,
            mode,
            next: 0,
            past: None,
            held: None,
            know,
        }
    }

    /// What was asked for.
    pub fn asked(&self) -> &AskedOf
        ensures { result.now ≡ self.now.asked }
    {
        &self.asked
    }

    /// Whether it tells all that its source knows.
    pub fn mode(&self) -> Mode
        ensures { result ≡ self.now.mode }
    {
        self.mode
    }

    /// The index of its next record.
    pub fn next(&self) -> u32
        ensures { result ≡ self.now.next }
    {
        self.next
    }

    /// An equal stream. It copies what was asked for, and the vectors and fragments that are still to give.
    pub fn copy(&self) -> Result<Outgoing, AllocError>
        ensures { IfOk result (λ stream. stream ≡ self.now) }
    {
        let asked = self.asked.copy()?;
        let held = copied_queue(self.alloc, &self.held)?;
        let know = copied_know(self.alloc, &self.know)?;
        Ok(Outgoing {
            alloc: self.alloc,
            asked,
            mode: self.mode,
            next: self.next,
            past: self.past,
            held,
            know,
        })
    }
}

impl Clone for Outgoing {
    ghost is_clone = { λ stream copy. copy ≡ stream };

    fn clone(&self) -> Result<Outgoing, AllocError> {
        self.copy()
    }
}
