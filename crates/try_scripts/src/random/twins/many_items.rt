//! Knowledge of as many items as a fragment lists: one fragment has them all. Of one item more, knowledge by
//! sets of items refuses it, and its sparing form tells it in a second fragment.
use super::Outcome;
use anyhow::Result;
use mr_concise::ConciseVector;
use mr_forms::{FormFault, Fragment, ItemSet, Knowledge, MAX_ITEMS, VersionSet};
use mr_itemset::{ItemKnowledge, SparingKnowledge};
use mr_version::{Author, ItemId, Version};
use std::alloc::Global;

/// One item more than a fragment lists.
const ITEMS: u32 = 65_537;

/// The set of the version 1.1 alone.
fn one_version(alloc: Global) -> Result<ConciseVector> {
    let mut set = ConciseVector::new(alloc);
    set.insert(Version::try_new(Author::try_new(1)?, 1)?)?;
    Ok(set)
}

/// So many items of author 0, each with this set alone.
fn learned<K: Knowledge>(alloc: Global, set: &ConciseVector, count: u32) -> Result<K> {
    let author = Author::try_new(0)?;
    let mut knowledge = K::new(alloc);
    for counter in 0..count {
        let item = ItemId::new(Version::try_new(author, counter + 1)?);
        knowledge.learn_below(item, set)?;
    }
    Ok(knowledge)
}

/// Whether the fragment is of all items, and has nothing.
fn is_empty(fragment: &Fragment<ConciseVector>) -> bool {
    matches!(fragment.items, ItemSet::All) && fragment.vector.author_columns().is_empty()
}

/// Whether the fragment lists so many items, with this set.
fn lists(fragment: &Fragment<ConciseVector>, count: usize, set: &ConciseVector) -> bool {
    matches!(&fragment.items, ItemSet::Listed(items) if items.len() == count)
        && fragment.vector == *set
}

/// Whether the knowledge has one fragment of the most items beside that of all, which is empty.
fn has_one_fragment(knowledge: &ItemKnowledge, set: &ConciseVector) -> Result<bool> {
    let fragments = knowledge.fragments()?;
    Ok(match fragments.as_slice() {
        [all, listed] => is_empty(all) && lists(listed, MAX_ITEMS, set),
        _ => false,
    })
}

/// Whether sparing knowledge of one item more has a second fragment, of that item alone, and is made anew of
/// its fragments.
fn has_second_fragment(alloc: Global, set: &ConciseVector) -> Result<bool> {
    let knowledge: SparingKnowledge = learned(alloc, set, ITEMS)?;
    let fragments = knowledge.fragments()?;
    let are_so = match fragments.as_slice() {
        [all, full, rest] => { is_empty(all) && lists(full, MAX_ITEMS, set) && lists(rest, 1, set) }
        _ => false,
    };
    Ok(are_so && SparingKnowledge::new(alloc).with_fragments(&fragments)? == knowledge)
}

/// Whether one item more is refused, and changes nothing.
fn refuses_one_more(knowledge: &mut ItemKnowledge, set: &ConciseVector) -> Result<bool> {
    let last = ItemId::new(Version::try_new(Author::try_new(0)?, ITEMS)?);
    let before = knowledge.copy()?;
    let answer = knowledge.learn_below(last, set);
    Ok(answer == Err(FormFault::TooManyItems) && *knowledge == before)
}

/// Learns the same of one item after the other, up to the first that is one too many for a fragment.
pub fn compare(alloc: Global) -> Result<Outcome> {
    let set = one_version(alloc)?;
    let mut knowledge: ItemKnowledge = learned(alloc, &set, ITEMS - 1)?;
    if !refuses_one_more(&mut knowledge, &set)? || !has_one_fragment(&knowledge, &set)? {
        return Ok(Outcome::DifferAt(ITEMS));
    }
    if !has_second_fragment(alloc, &set)? {
        return Ok(Outcome::DifferAt(2 * ITEMS));
    }
    let calls = 2 * ITEMS;
    Ok(Outcome::Agree { calls, refused: 1 })
}
