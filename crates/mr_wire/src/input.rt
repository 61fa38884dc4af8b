//! Numbers, versions and items: the parts that take no memory.
ghost use Rattle.std.specs.Prelude.{◌≡◌, length};
ghost use Rattle.std.specs.Option.{option_copied};
ghost use Rattle.std.specs.Int.{w8, w16, w32, w64};
ghost use Rattle.mr_wire.specs.Parts.{author_at, counter_at, name_at};
ghost use Rattle.mr_wire.specs.Reading.{Gives, number_at, bytes_at};

use mr_version::{Author, MAX_COUNTER, Version};
use std::marker::Model;

/// Bytes that are read from the front.
///
/// Each reader answers `None` where what it reads doesn't stand at the front. What is left then may begin
/// anywhere in what it tried.
#[derive(Drop)]
pub struct Input<'a> {
    rest: &'a [u8],
}

impl<'a> Model for Input<'a> {
    ghost use Rattle.std.specs.Prelude.{List, ℕ};

    ghost Value = { List ℕ };

    ghost view = { λ i. i.rest.now };
}

impl<'a> Input<'a> {
    /// The bytes, none of which is read yet.
    pub fn new(bytes: &'a [u8]) -> Input<'a>
        ensures { result ≡ bytes.now }
    {
        Input { rest: bytes }
    }

    /// How many bytes are left.
    pub fn len(&self) -> usize
        ensures { result ≡ length self.now }
    {
        self.rest.len()
    }

    /// So many bytes.
    pub fn bytes(&mut self, count: usize) -> Option<&'a [u8]>
        ensures none { Gives (bytes_at count) self.old (option_copied result) self.new }
    {
        if self.rest.len() < count {
            return None;
        }
        let (front, rest) = self.rest.split_at(count);
        self.rest = rest;
        Some(front)
    }

    /// A number of one byte.
    pub fn u8(&mut self) -> Option<u8>
        ensures { Gives (number_at w8) self.old result self.new }
    {
        let (number, rest) = self.rest.split_first()?;
        self.rest = rest;
        Some(*number)
    }

    /// A number of two bytes.
    pub(crate) fn u16(&mut self) -> Option<u16>
        ensures { Gives (number_at w16) self.old result self.new }
    {
        let front = self.bytes(2)?;
        Some(u16::from_be_bytes([front[0], front[1]]))
    }

    /// A number of four bytes.
    pub fn u32(&mut self) -> Option<u32>
        ensures { Gives (number_at w32) self.old result self.new }
    {
        let front = self.bytes(4)?;
        Some(u32::from_be_bytes([front[0], front[1], front[2], front[3]]))
    }

    /// A number of eight bytes.
    pub fn u64(&mut self) -> Option<u64>
        ensures { Gives (number_at w64) self.old result self.new }
    {
        let front = self.bytes(8)?;
        Some(u64::from_be_bytes([
            front[0], front[1], front[2], front[3], front[4], front[5], front[6], front[7],
        ]))
    }

    /// An author.
    pub(crate) fn author(&mut self) -> Option<Author>
        ensures { Gives author_at self.old result self.new }
    {
        let id = self.u16()?;
        Author::try_new(id).ok()
    }

    /// A counter, 1 to 1,000,000.
    pub(crate) fn counter(&mut self) -> Option<u32>
        ensures { Gives counter_at self.old result self.new }
    {
        let counter = self.u32()?;
        if counter < 1 || counter > MAX_COUNTER {
            return None;
        }
        Some(counter)
    }

    /// A version, or the version that created an item.
    pub fn version(&mut self) -> Option<Version>
        ensures { Gives name_at self.old result self.new }
    {
        let author = self.author()?;
        let counter = self.counter()?;
        Version::try_new(author, counter).ok()
    }
}
