//! Room for one more revision.
ghost use Rattle.std.specs.Prelude.{◌≡◌};
ghost use Rattle.mr_version.specs.Name.{name_eq};
ghost use Rattle.mr_store.specs.Room.{room_of};
ghost use Rattle.mr_store.specs.inner.Room.{is_for_later};

use mr_madewith::Revision;
use mr_version::{ItemId, Version};

/// The version of an item for which there is room.
#[derive(Clone, Copy, Debug, PartialEq, Eq)]
pub struct Room {
    pub item: ItemId,
    pub version: Version,
}

impl Room {
    /// Room for the revision.
    pub fn of(revision: &Revision) -> Room
        ensures { result ≡ room_of revision.now }
    {
        Room {
            item: revision.item(),
            version: revision.version(),
        }
    }

    /// Whether it is for the first version of its item.
    pub fn is_for_first(&self) -> bool
        ensures { result ≡ name_eq self.now.version self.now.item }
    {
        self.version == self.item.creator()
    }
}

/// Whether the room is for a version of the item that is not its first.
pub fn is_for_later(room: Option<Room>, item: ItemId) -> bool
    ensures { result ≡ is_for_later room item }
{
    match room {
        Some(room) => room.item == item && !room.is_for_first(),
        None => false,
    }
}
