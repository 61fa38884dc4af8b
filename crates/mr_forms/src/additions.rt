//! Keys that are added to a set: all of them, or none.
ghost use Rattle.std.specs.Prelude.{◌≡◌, ◌||◌, OnOk, OnErr};
ghost use Rattle.std.specs.List.{list_any};
ghost use Rattle.std.specs.Ordering.{eq_by_cmp};
ghost use Rattle.std.specs.BTreeSet.{contains};
ghost use Rattle.mr_forms.specs.inner.Additions.{taken_back};

use std::alloc::{AllocError, Global};
use std::collections::BTreeSet;

fn take_back<K: Ord + Copy>(set: &mut BTreeSet<K>, mut added: Vec<K>)
    ensures { set.new.keys ≡ taken_back K.cmp added.items set.old.keys }
{
    while let Some(key) = added.pop() {
        set.remove(&key);
    }
}

/// Adds the keys to the set: all of them, or none where there is no memory.
///
/// It takes time and memory for the keys, and not for the set.
pub(crate) fn add_all<K: Ord + Copy>(
    set: &mut BTreeSet<K>,
    keys: &[K],
    alloc: Global,
) -> Result<(), AllocError>
    ensures ok { OnOk result ((key : K) → contains K.cmp set.new key ≡ (list_any (eq_by_cmp K.cmp key) keys.now || contains K.cmp set.old key)) }
    ensures err { OnErr result (set.new.keys ≡ set.old.keys) }
{
    let mut added: Vec<K> = Vec::new(alloc);
    for key in keys {
        match add_one(set, &mut added, *key) {
            Ok(()) => {}
            Err(fault) => {
                take_back(set, added);
                return Err(fault);
            }
        }
    }
    Ok(())
}

fn add_one<K: Ord + Copy>(
    set: &mut BTreeSet<K>,
    added: &mut Vec<K>,
    key: K,
) -> Result<(), AllocError>
    ensures ok { OnOk result ((k : K) → contains K.cmp set.new k ≡ (eq_by_cmp K.cmp k key || contains K.cmp set.old k)) }
    ensures same_rest { taken_back K.cmp added.new.items set.new.keys ≡ taken_back K.cmp added.old.items set.old.keys }
{
    if set.contains(&key) {
        return Ok(());
    }
    added.push(key)?;
    match set.insert(key) {
        Ok(_) => Ok(()),
        Err(_) => {
            added.pop();
            Err(AllocError)
        }
    }
}
