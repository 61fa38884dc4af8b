//! Items and fragments: a tag, the listed items if there are any, and a vector.
ghost use Rattle.std.specs.Prelude.{◌≡◌, IfSome, IsSomeAnd, Some};
ghost use Rattle.mr_forms.specs.declared.fragment.ItemSet.{ItemSet};
ghost use Rattle.mr_wire.specs.Values.{AreItems, item_follows, listed_items};
ghost use Rattle.mr_wire.specs.Parts.{item_at};
ghost use Rattle.mr_wire.specs.Reading.{Gives};
ghost use Rattle.mr_wire.specs.inner.Items.{FindsItems, FindsListed, FindsItemSet, FindsFragment, first_or};

use crate::fragment::FrameFragment;
use crate::input::Input;
use crate::keep::{keep, room};
use crate::vector::vector;
use mr_concise::ConciseVector;
use mr_forms::{Fragment, ItemSet, MAX_ITEMS};
use mr_version::{ItemId, Version};
use std::alloc::Global;

/// The tag of a fragment of all items.
pub(crate) const ALL_ITEMS: u8 = 0;

/// The tag of a fragment of listed items.
pub(crate) const LISTED_ITEMS: u8 = 1;

/// The bytes of an item.
const ITEM_BYTES: usize = 6;

/// Whether the item may stand behind the one before it, if there is one.
pub(crate) fn follows(before: Option<Version>, item: Version) -> bool
    ensures { result ≡ item_follows before item }
{
    match before {
        None => true,
        Some(before) => before.cmp(&item).is_lt(),
    }
}

/// An item that may stand behind the one before it.
fn item(input: &mut Input<'_>, before: Option<Version>) -> Option<Version>
    ensures { Gives (item_at before) input.old result input.new }
{
    let item = input.version()?;
    if follows(before, item) {
        Some(item)
    } else {
        None
    }
}

/// The first of the items, once one more is read.
fn first_of(first: Option<Version>, item: Version) -> Option<Version>
    ensures { result ≡ first_or first item }
{
    match first {
        None => Some(item),
        Some(first) => Some(first),
    }
}

/// So many items, which rise, and the first of them.
fn items(
    input: &mut Input<'_>,
    memory: Option<Global>,
    count: u32,
) -> Option<(Option<Vec<ItemId>>, Option<Version>)>
    ensures { FindsItems count input.old result input.new }
{
    let most = input.len() / ITEM_BYTES;
    let mut items = room(memory, most.min(count as usize));
    let mut before = None;
    let mut first = None;
    for _ in 0..count {
        let item = item(input, before)?;
        before = Some(item);
        first = first_of(first, item);
        keep(&mut items, Some(ItemId::new(item)));
    }
    Some((items, first))
}

/// 1 to 65,536 items behind their count, and the first of them.
fn listed(
    input: &mut Input<'_>,
    memory: Option<Global>,
) -> Option<(Option<Vec<ItemId>>, Option<Version>)>
    ensures { FindsListed input.old result input.new }
{
    let count = input.u32()?;
    if count < 1 || count as usize > MAX_ITEMS {
        return None;
    }
    items(input, memory, count)
}

/// The item set, where its items are kept.
fn listed_set(items: Option<Vec<ItemId>>) -> Option<ItemSet>
    ensures { IfSome result (λ set. IsSomeAnd items (λ v. listed_items set ≡ Some v.items)) }
{
    Some(ItemSet::Listed(items?))
}

/// All items, or listed ones and the least of them.
fn item_set(
    input: &mut Input<'_>,
    memory: Option<Global>,
) -> Option<(Option<ItemSet>, Option<Version>)>
    ensures { FindsItemSet input.old result input.new }
{
    let tag = input.u8()?;
    if tag == ALL_ITEMS {
        return Some((Some(ItemSet::All), None));
    }
    if tag != LISTED_ITEMS {
        return None;
    }
    let (items, least) = listed(input, memory)?;
    Some((listed_set(items), least))
}

/// The fragment, where its parts are kept.
fn fragment_of(items: Option<ItemSet>, vector: Option<ConciseVector>) -> Option<FrameFragment>
    requires { IfSome items (λ set. AreItems (listed_items set)) }
    ensures { IfSome result (λ f. IsSomeAnd items (λ set. IsSomeAnd vector (λ v. f ≡ record { items = listed_items set; vector = v }))) }
{
    let fragment = Fragment {
        items: items?,
        vector: vector?,
    };
    Some(FrameFragment::new(fragment))
}

/// A fragment, and the least of its items if they are listed.
pub(crate) fn fragment(
    input: &mut Input<'_>,
    memory: Option<Global>,
) -> Option<(Option<FrameFragment>, Option<Version>)>
    ensures { FindsFragment input.old result input.new }
{
    let (items, least) = item_set(input, memory)?;
    let vector = vector(input, memory)?;
    Some((fragment_of(items, vector), least))
}
