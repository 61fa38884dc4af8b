//! A small machine.
ghost use Rattle.std.specs.Prelude.{◌≡◌, ◌++◌, List};
ghost use Rattle.mr_feed.specs.declared.entry.Entry.{Entry};

use mr_feed::Entry;
use mr_threads::Machine;
use mr_version::{Author, ItemId, Version};
use std::alloc::Global;

/// Adds up the numbers that it is sent, and tells of each sum that is new. The answer is the sum; `None`
/// where no memory was found.
#[derive(Drop)]
pub struct Counter {
    sum: u32,
    feed: Vec<Entry>,
}

impl Counter {
    /// Nothing was sent yet.
    pub fn new(alloc: Global) -> Counter {
        Counter {
            sum: 0,
            feed: Vec::new(alloc),
        }
    }
}

/// Tells that the version with this counter left.
fn left(counter: u32) -> Option<Entry> {
    let version = Version::try_new(Author::try_new(0).ok()?, counter).ok()?;
    Some(Entry::Dropped {
        item: ItemId::new(version),
        version,
    })
}

impl Machine<u32, Option<u32>> for Counter {
    ghost steps = { λ s letter answer t. (more : List Entry) × (t.feed.items ≡ s.feed.items ++ more) };

    ghost feed_of = { λ s. s.feed.items };

    fn take(&mut self, letter: u32) -> Option<u32> {
        if letter == 0 {
            return Some(self.sum);
        }
        let sum = self.sum.checked_add(letter)?;
        self.feed.push(left(sum)?).ok()?;
        self.sum = sum;
        Some(sum)
    }

    fn feed(&self) -> &[Entry] {
        self.feed.as_slice()
    }

    ghost feed_grows = { λ s letter answer t h. h };
}

/// The sum of which an entry tells.
pub fn told_sum(entry: &Entry) -> Option<u32> {
    match entry {
        Entry::Dropped { version, .. } => Some(version.counter()),
        Entry::Added { .. } => None,
    }
}
