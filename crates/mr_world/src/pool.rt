//! A pool: all frames of one kind that replicas gave.
ghost use Rattle.std.specs.Prelude.{◌≡◌, ◌<◌, ◌++◌, ◌∷◌, [], length, OnOk};
ghost use Rattle.std.specs.Option.{option_copied};
ghost use Rattle.mr_world.specs.Pool.{at_number};

use std::alloc::{AllocError, Global};
use std::marker::Model;

/// Frames, the oldest first. They are numbered from 1, and none ever leaves.
#[derive(Drop)]
pub struct Pool {
    frames: Vec<Vec<u8>>,
}

impl Model for Pool {
    ghost use Rattle.std.specs.Prelude.{◌-◌, map};
    ghost use Rattle.std.specs.Vec.{vec_len, vec_capacity};
    ghost use Rattle.mr_world.specs.Pool.{FrameList};

    ghost Value = { FrameList };

    ghost view = { λ p. record { frames = map (λ frame. frame.items) p.frames.items; room = vec_capacity p.frames - vec_len p.frames } };
}

impl Pool {
    /// A pool with no frame. It allocates nothing.
    pub fn new(alloc: Global) -> Pool
        ensures { result.frames ≡ [] }
    {
        Pool {
            frames: Vec::new(alloc),
        }
    }

    /// How many frames there are: the number of the newest.
    pub fn count(&self) -> u64
        ensures { result ≡ length self.now.frames }
    {
        self.frames.len() as u64
    }

    /// The frame of this number, where there is one.
    pub fn get(&self, number: u64) -> Option<&[u8]>
        ensures { option_copied result ≡ at_number self.now.frames number }
    {
        if number == 0 {
            return None;
        }
        match self.frames.get((number - 1) as usize) {
            Some(frame) => Some(frame.as_slice()),
            None => None,
        }
    }

    /// Makes room for one frame more.
    pub fn reserve(&mut self) -> Result<(), AllocError>
        ensures room { OnOk result (0 < self.new.room) }
        ensures frames { self.new.frames ≡ self.old.frames }
    {
        self.frames.reserve(1)
    }

    /// Puts a frame behind the others, where there is room.
    pub fn push_reserved(&mut self, frame: Vec<u8>)
        requires { 0 < self.old.room }
        ensures { self.new.frames ≡ self.old.frames ++ frame.items ∷ [] }
    {
        self.frames.push_reserved(frame);
    }
}
