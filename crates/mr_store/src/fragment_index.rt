//! Fragments of knowledge, found by item.
ghost use Rattle.std.specs.Prelude.{◌≡◌, ◌≤◌, ◌==◌, ◌++◌, not, map, length, filter, true, false, IfOk, OnOk};
ghost use Rattle.std.specs.List.{list_any, slice_get};
ghost use Rattle.std.specs.List.Sorted.{IsPermutation, IsPartitionPoint, IsSortedByKey};
ghost use Rattle.std.specs.Ordering.{is_lt};
ghost use Rattle.mr_version.specs.Name.{name_cmp};
ghost use Rattle.mr_forms.specs.Covered.{listed_items};
ghost use Rattle.mr_store.specs.FragmentIndex.{item_of, is_told, listing_at, listings_of, listings_from, general_of, general_from, Finds};
ghost use Rattle.mr_store.specs.inner.FragmentIndex.{is_for, has_at};

use mr_concise::AsFragment;
use mr_forms::{ItemSet, VersionSet};
use mr_version::{ItemId, Version};
use std::alloc::{AllocError, Global};
use std::marker::Model;

/// An item that a fragment lists, and the fragment's place among the others, from 0.
#[derive(Clone, Copy, Debug, PartialEq, Eq)]
pub struct Listing {
    pub item: ItemId,
    pub place: usize,
}

/// Where fragments are found by item: an index of a list of fragments, which stays where it is.
///
/// Each question about the fragments is asked with the same list that the index was made of.
#[derive(Drop)]
pub struct FragmentIndex {
    alloc: Global,
    // the places of the fragments of all items
    general: Vec<usize>,
    // what the others list, by rising item
    listings: Vec<Listing>,
}

impl Model for FragmentIndex {
    ghost use Rattle.std.specs.List.Sorted.{IsSortedByKey};
    ghost use Rattle.mr_version.specs.Name.{name_cmp};
    ghost use Rattle.mr_store.specs.FragmentIndex.{Places, item_of};

    ghost Value = { Places };

    ghost view = { λ i. record { general = i.general.items; listings = i.listings.items } };

    ghost invariant = { λ i. IsSortedByKey item_of name_cmp i.listings.items };
}

// Puts the place behind the others, if it is of a fragment of all items.
fn note_general(general: &mut Vec<usize>, items: &ItemSet, place: usize) -> Result<(), AllocError>
    ensures { OnOk result (general.new.items ≡ general.old.items ++ general_of place (listed_items items.now)) }
{
    match items {
        ItemSet::All => Ok(general.push(place)?),
        ItemSet::Listed(_) => Ok(()),
    }
}

// Puts the items behind the other listings, for the fragment at this place.
fn list_all(listings: &mut Vec<Listing>, items: &[ItemId], place: usize) -> Result<(), AllocError>
    ensures { OnOk result (listings.new.items ≡ listings.old.items ++ map (listing_at place) items.now) }
{
    for item in items {
        listings.push(Listing { item: *item, place })?;
    }
    Ok(())
}

// Puts what the fragment at this place lists behind the other listings.
fn note_listed(listings: &mut Vec<Listing>, items: &ItemSet, place: usize) -> Result<(), AllocError>
    ensures { OnOk result (listings.new.items ≡ listings.old.items ++ listings_of place (listed_items items.now)) }
{
    match items {
        ItemSet::All => Ok(()),
        ItemSet::Listed(listed) => list_all(listings, listed, place),
    }
}

// The places of the fragments of all items.
fn general_places<F: AsFragment>(alloc: Global, fragments: &[F]) -> Result<Vec<usize>, AllocError>
    ensures { IfOk result (λ places. places.items ≡ general_from 0 (map F.listed fragments.now)) }
{
    let mut places = Vec::new(alloc);
    for (place, fragment) in fragments.iter().enumerate() {
        note_general(&mut places, &fragment.as_fragment().items, place)?;
    }
    Ok(places)
}

// What the fragments list.
fn all_listings<F: AsFragment>(alloc: Global, fragments: &[F]) -> Result<Vec<Listing>, AllocError>
    ensures { IfOk result (λ listings. listings.items ≡ listings_from 0 (map F.listed fragments.now)) }
{
    let mut listings = Vec::with_capacity(alloc, fragments.len())?;
    for (place, fragment) in fragments.iter().enumerate() {
        note_listed(&mut listings, &fragment.as_fragment().items, place)?;
    }
    Ok(listings)
}

fn sort_by_item(listings: &mut Vec<Listing>)
    ensures same { IsPermutation listings.old.items listings.new.items }
    ensures sorted { IsSortedByKey item_of name_cmp listings.new.items }
{
    listings.sort_unstable_by_key(|listing| listing.item);
}

// How many listings are of a lower item.
fn place_of(listings: &[Listing], item: ItemId) -> usize
    requires { IsSortedByKey item_of name_cmp listings.now }
    ensures bound { result ≤ length listings.now }
    ensures place { IsPartitionPoint (λ l. is_lt (name_cmp l.item item) ≡ true) (λ l. is_lt (name_cmp l.item item) ≡ false) listings.now result }
{
    listings.partition_point(|listing| listing.item < item)
}

// The listings of the item. It costs a binary search, and a look at each of them.
fn listings_for(listings: &[Listing], item: ItemId) -> &[Listing]
    requires { IsSortedByKey item_of name_cmp listings.now }
    ensures { result.now ≡ filter (is_for item) listings.now }
{
    let from = place_of(listings, item);
    let mut to = from;
    while to < listings.len() && listings[to].item == item {
        to += 1;
    }
    &listings[from..to]
}

// Whether the fragment at the place has the version.
fn has_at<F: AsFragment>(fragments: &[F], version: Version, place: usize) -> bool
    ensures { result ≡ has_at F.told fragments.now version place }
{
    match fragments.get(place) {
        Some(fragment) => fragment.as_fragment().vector.contains(version),
        None => false,
    }
}

// Whether the fragment at one of the places has the version.
fn some_has<F: AsFragment>(fragments: &[F], version: Version, places: &[usize]) -> bool
    ensures { result ≡ list_any (has_at F.told fragments.now version) places.now }
{
    places
        .iter()
        .any(|place| has_at(fragments, version, *place))
}

// Whether a fragment that one of the listings is of has the version.
fn any_has<F: AsFragment>(fragments: &[F], version: Version, listings: &[Listing]) -> bool
    ensures { result ≡ list_any (λ l. has_at F.told fragments.now version l.place) listings.now }
{
    listings
        .iter()
        .any(|listing| has_at(fragments, version, listing.place))
}

impl FragmentIndex {
    /// The index of these fragments. It sorts the items that they list, and copies no fragment.
    pub fn new<F: AsFragment>(alloc: Global, fragments: &[F]) -> Result<FragmentIndex, AllocError>
        ensures { IfOk result (Finds (map F.listed fragments.now)) }
    {
        let general = general_places(alloc, fragments)?;
        let mut listings = all_listings(alloc, fragments)?;
        sort_by_item(&mut listings);
        Ok(FragmentIndex {
            alloc,
            general,
            listings,
        })
    }

    /// An equal index. It costs a copy of a place for each item that is listed.
    pub fn copy(&self) -> Result<FragmentIndex, AllocError>
        ensures { IfOk result (λ index. index ≡ self.now) }
    {
        let general = Vec::from_slice(self.alloc, &self.general)?;
        let listings = Vec::from_slice(self.alloc, &self.listings)?;
        Ok(FragmentIndex {
            alloc: self.alloc,
            general,
            listings,
        })
    }

    /// The place of the first fragment of all items, if there is one. It costs no search.
    pub fn first_general(&self) -> Option<usize>
        ensures { result ≡ slice_get self.now.general 0 }
    {
        self.general.first().copied()
    }

    /// Whether some fragment lists items, and is not of all items. It costs no search.
    pub fn lists_items(&self) -> bool
        ensures { result ≡ not (length self.now.listings == 0) }
    {
        !self.listings.is_empty()
    }

    /// Whether one of the fragments, of which this is the index, covers the version for the item. It costs
    /// a binary search among all listed items, and two in the vector of each fragment that is of the item.
    pub fn covers<F: AsFragment>(&self, fragments: &[F], item: ItemId, version: Version) -> bool
        requires { Finds (map F.listed fragments.now) self.now }
        ensures { result ≡ is_told F.listed F.told fragments.now item version }
    {
        some_has(fragments, version, &self.general)
            || any_has(fragments, version, listings_for(&self.listings, item))
    }
}
