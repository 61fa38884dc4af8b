//! A form of knowledge by sets of items beside plain knowledge: calls on few items and low versions.
//!
//! What the one learns for an item the other learns for all, and the sparing form chooses by what it knows,
//! so they are compared by the pairs of a version with the item that it is of.
use super::Outcome;
use crate::random::numbers::Numbers;
use anyhow::Result;
use mr_concise::ConciseVector;
use mr_forms::{
    FormFault, Fragment, ItemSet, Knowledge, PlainKnowledge, PlainVersions, VersionSet,
};
use mr_version::{Author, ItemId, Version};
use std::alloc::Global;

const SEED: u64 = 15_009;

/// How many authors the versions have that are compared.
const AUTHORS: u16 = 3;

/// An author creates an item, edits it so often, and then creates another.
const VERSIONS_OF_ITEM: u32 = 4;

/// The item that a version is of.
fn item_of(version: Version) -> Result<ItemId> {
    let place = (version.counter() - 1) % VERSIONS_OF_ITEM;
    let creator = Version::try_new(version.author(), version.counter() - place)?;
    Ok(ItemId::new(creator))
}

/// How long a comparison is.
#[derive(Clone, Copy)]
pub struct Course {
    /// How many calls are made.
    pub calls: u32,
    /// How many counters of each author are learned. Every second of 40 leaves more holes than the
    /// sparing form spares in a column.
    pub counters: u16,
}

/// One knowledge, in both forms.
#[derive(Drop)]
struct Twin<K: Knowledge> {
    counters: u16,
    items: K,
    plain: PlainKnowledge,
}

/// A random call's parts: a version with its item, a set of versions, and the kind of the call.
#[derive(Drop)]
struct Call {
    counters: u16,
    kind: u32,
    version: Version,
    item: ItemId,
    set: ConciseVector,
}

impl Call {
    fn random(numbers: &mut Numbers, alloc: Global, counters: u16) -> Result<Call> {
        let run = numbers.run()?;
        let version = Version::try_new(run.author, numbers.below(u32::from(counters).max(1)) + 1)?;
        let mut set = ConciseVector::new(alloc);
        set.insert_range(run)?;
        set.insert_range(numbers.run()?)?;
        Ok(Call {
            counters,
            kind: numbers.below(16),
            version,
            item: item_of(version)?,
            set,
        })
    }

    /// The call's set for its item and for the next one, or for all items.
    fn fragment(&self, alloc: Global) -> Result<Fragment<ConciseVector>> {
        let vector = self.set.copy()?;
        if self.kind == 3 {
            let items = ItemSet::All;
            return Ok(Fragment { items, vector });
        }
        let next = Version::try_new(self.version.author(), u32::from(self.counters) + 1)?;
        let items = ItemSet::Listed(vec![in alloc; item_of(next)?, self.item]?);
        Ok(Fragment { items, vector })
    }
}

/// The fragments of one knowledge, in both forms.
#[derive(Drop)]
struct Fragments<V: VersionSet> {
    of_items: Vec<Fragment<V>>,
    of_plain: Vec<Fragment<PlainVersions>>,
}

/// Merges all that the one knows into the other, whatever their forms.
fn merge_all<K: Knowledge, L: Knowledge>(from: &K, into: &mut L) -> Result<(), FormFault> {
    for fragment in &from.fragments()? {
        into.merge(fragment)?;
    }
    Ok(())
}

/// Whether some fragment has the version for the item.
fn cover<V: VersionSet>(fragments: &[Fragment<V>], item: ItemId, version: Version) -> bool {
    fragments.iter().any(|fragment| {
        let lists = match &fragment.items {
            ItemSet::All => true,
            ItemSet::Listed(items) => items.contains(&item),
        };
        lists && fragment.vector.contains(version)
    })
}

impl<K: Knowledge + PartialEq> Twin<K> {
    /// The knowledge of nothing.
    fn new(alloc: Global, counters: u16) -> Twin<K> {
        Twin {
            counters,
            items: K::new(alloc),
            plain: PlainKnowledge::new(alloc),
        }
    }

    /// The knowledge of every second version of an author.
    fn with_gaps(alloc: Global, counters: u16, author: Author) -> Result<Twin<K>> {
        let mut twin: Twin<K> = Twin::new(alloc, counters);
        for place in 0..u32::from(counters / 2) {
            let version = Version::try_new(author, 2 * place + 2)?;
            let item = item_of(version)?;
            twin.items.learn(item, version)?;
            twin.plain.learn(item, version)?;
        }
        Ok(twin)
    }

    /// The knowledge with which the call begins anew.
    fn anew(alloc: Global, call: &Call) -> Result<Twin<K>> {
        if call.version.counter() % 4 == 1 {
            return Ok(Twin::new(alloc, call.counters));
        }
        Twin::with_gaps(alloc, call.counters, call.version.author())
    }

    /// Makes a call that teaches on both forms. With so few items and versions neither may refuse.
    fn learn(&mut self, call: &Call) -> Result<bool> {
        let (item, version, set) = (call.item, call.version, &call.set);
        match call.kind {
            5 | 6 => {
                self.items.learn_below(item, set)?;
                self.plain.learn_below(item, set)?;
            }
            7 | 8 => {
                self.items.learn_with(item, version, set)?;
                self.plain.learn_with(item, version, set)?;
            }
            _ => {
                self.items.learn(item, version)?;
                self.plain.learn(item, version)?;
            }
        }
        Ok(true)
    }

    /// Both forms take a fragment, which neither may refuse.
    fn merge(&mut self, fragment: &Fragment<ConciseVector>) -> Result<bool> {
        self.items.merge(fragment)?;
        self.plain.merge(fragment)?;
        Ok(true)
    }

    /// Each form takes what the other form of another knowledge has.
    fn take(&mut self, other: &Twin<K>) -> Result<bool> {
        merge_all(&other.plain, &mut self.items)?;
        merge_all(&other.items, &mut self.plain)?;
        Ok(true)
    }

    /// Whether a copy is equal, and what is made anew of the fragments. The plain form goes on as a copy.
    fn is_made(&mut self, alloc: Global) -> Result<bool> {
        self.plain = self.plain.copy()?;
        let mut made = K::new(alloc);
        merge_all(&self.items, &mut made)?;
        Ok(self.items == made && self.items == self.items.copy()?)
    }

    /// Whether both forms know this version of its item alike, and their fragments cover it so.
    fn agrees_about(&self, fragments: &Fragments<K::Vector>, version: Version) -> Result<bool> {
        let item = item_of(version)?;
        let knows = self.plain.knows(item, version);
        Ok(
            self.items.knows(item, version) == knows
                && cover(&fragments.of_items, item, version) == knows
                && cover(&fragments.of_plain, item, version) == knows,
        )
    }

    /// Whether both forms know the same of an author, version by version.
    fn agrees_of(&self, fragments: &Fragments<K::Vector>, author: Author) -> Result<bool> {
        for counter in 1..u32::from(self.counters) + 1 {
            if !self.agrees_about(fragments, Version::try_new(author, counter)?)? {
                return Ok(false);
            }
        }
        Ok(true)
    }

    /// Whether both forms know the same.
    fn agrees(&self) -> Result<bool> {
        let fragments = Fragments {
            of_items: self.items.fragments()?,
            of_plain: self.plain.fragments()?,
        };
        for id in 0..AUTHORS {
            if !self.agrees_of(&fragments, Author::try_new(id)?)? {
                return Ok(false);
            }
        }
        Ok(true)
    }
}

/// Makes one call on both forms of the first knowledge, and gives whether they answer alike. Some
/// calls begin anew, or change the places of the two.
fn make<K: Knowledge + PartialEq>(
    twin: &mut Twin<K>,
    other: &mut Twin<K>,
    alloc: Global,
    call: &Call,
) -> Result<bool> {
    match call.kind {
        0 => {
            *twin = Twin::anew(alloc, call)?;
            Ok(true)
        }
        1 => {
            std::mem::swap(twin, other);
            Ok(true)
        }
        2 => twin.take(other),
        3 | 4 => twin.merge(&call.fragment(alloc)?),
        9 => twin.is_made(alloc),
        _ => twin.learn(call),
    }
}

/// Makes one random call, and gives whether both forms answer alike and then know the same.
fn call_agrees<K: Knowledge + PartialEq>(
    twin: &mut Twin<K>,
    other: &mut Twin<K>,
    numbers: &mut Numbers,
    alloc: Global,
) -> Result<bool> {
    let call = Call::random(numbers, alloc, twin.counters)?;
    Ok(make(twin, other, alloc, &call)? && twin.agrees()?)
}

/// Makes random calls on two knowledges, and compares both forms after each.
pub fn compare<K: Knowledge + PartialEq>(alloc: Global, course: Course) -> Result<Outcome> {
    let Course { calls, counters } = course;
    let mut numbers = Numbers::from_seed(SEED);
    let mut twin: Twin<K> = Twin::new(alloc, counters);
    let mut other: Twin<K> = Twin::new(alloc, counters);
    for before in 0..calls {
        if !call_agrees(&mut twin, &mut other, &mut numbers, alloc)? {
            return Ok(Outcome::DifferAt(before + 1));
        }
    }
    Ok(Outcome::Agree { calls, refused: 0 })
}
