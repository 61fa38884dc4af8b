//! Records that no replica gave.
ghost use Rattle.std.specs.Prelude.{◌≡◌, false};
ghost use Rattle.std.specs.List.{list_any};
ghost use Rattle.std.specs.Option.{option_map_or};
ghost use Rattle.mr_concise.specs.Vector.{column_of};
ghost use Rattle.mr_wire.specs.Values.{piece_of, listed_items};

use super::Core;
use mr_concise::ConciseVector;
use mr_forms::{Fragment, ItemSet, Knowledge};
use mr_version::{Author, ItemId, Version};
use mr_wire::Body;

impl<K: Knowledge> Core<K> {
    ghost use Rattle.mr_replica.specs.Forged.{is_forged, is_early, has_early, is_early_line, is_early_piece, is_misfiled};

    // Whether the record tells of an own version that was not issued, or of a held one as of another
    // item.
    pub(crate) fn is_forged(&self, body: &Body) -> bool
        ensures { result ≡ is_forged self.now body.now }
    {
        match body {
            Body::Start(_) => false,
            Body::Item(revision) => {
                let (item, version) = (revision.item(), revision.version());
                self.is_early_line(item, version, revision.below())
                    || self.is_misfiled(item, version)
            }
            Body::MoveOut(descent) => {
                self.is_early_line(descent.item(), descent.version(), descent.below())
            }
            Body::Held(vector) => self.has_early(vector),
            Body::Know(fragment) => self.is_early_fragment(fragment.as_fragment()),
            Body::End => false,
        }
    }

    // Whether it is an own version that was not issued.
    fn is_early(&self, version: Version) -> bool
        ensures { result ≡ is_early self.now version }
    {
        version.author() == self.parts.id && self.parts.issued < version.counter()
    }

    // Whether the vector has such a version.
    fn has_early(&self, vector: &ConciseVector) -> bool
        ensures { result ≡ has_early self.now vector.now }
    {
        self.parts.issued < highest(vector, self.parts.id)
    }

    fn is_early_line(&self, item: ItemId, version: Version, below: &ConciseVector) -> bool
        ensures { result ≡ is_early_line self.now (record { item = item; version = version; below = below.now }) }
    {
        self.is_early(item.creator()) || self.is_early(version) || self.has_early(below)
    }

    fn is_early_fragment(&self, fragment: &Fragment<ConciseVector>) -> bool
        ensures { result ≡ is_early_piece self.now (piece_of fragment.now) }
    {
        self.lists_early(&fragment.items) || self.has_early(&fragment.vector)
    }

    fn lists_early(&self, items: &ItemSet) -> bool
        ensures { result ≡ option_map_or (list_any (is_early self.now)) (listed_items items.now) false }
    {
        match items {
            ItemSet::All => false,
            ItemSet::Listed(items) => self.has_early_item(items),
        }
    }

    fn has_early_item(&self, items: &[ItemId]) -> bool
        ensures { result ≡ list_any (is_early self.now) items.now }
    {
        items.iter().any(|item| self.is_early(item.creator()))
    }

    // Whether the version is held as one of another item.
    fn is_misfiled(&self, item: ItemId, version: Version) -> bool
        ensures { result ≡ is_misfiled self.now item version }
    {
        match self.held(version) {
            Some(revision) => revision.item() != item,
            None => false,
        }
    }
}

// The author's highest counter in the vector, or 0.
fn highest(vector: &ConciseVector, author: Author) -> u32
    ensures { result ≡ (column_of vector.now author).upto }
{
    // a vector's columns are as they have to be
    let _columns = vector.author_columns();
    vector.last(author).unwrap_or(0)
}
