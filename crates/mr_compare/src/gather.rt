//! Values by their keys.
ghost use Rattle.std.specs.Prelude.{◌≡◌, ◌++◌, ◌∷◌, [], if◌then◌else◌, None, IfOk, OnOk};
ghost use Rattle.std.specs.Ordering.{is_eq};
ghost use Rattle.std.specs.Map.{lookup};
ghost use Rattle.mr_compare.specs.Gather.{values_at, values_of};

use std::alloc::{AllocError, Global};
use std::collections::BTreeMap;

/// The values of each key, in the order in which the pairs have them. It costs a look-up for each pair, and three more for one whose key was there before.
pub fn gathered<K: Ord + Copy, V: Drop>(
    alloc: Global,
    pairs: Vec<(K, V)>,
) -> Result<BTreeMap<K, Vec<V>>, AllocError>
    ensures { IfOk result (λ table. (key : K) → values_at K.cmp table.entries key ≡ values_of K.cmp key pairs.items) }
{
    let mut table = BTreeMap::new(alloc);
    for pair in pairs {
        put(alloc, &mut table, pair)?;
    }
    Ok(table)
}

/// Puts a value behind the others of its key.
fn put<K: Ord + Copy, V: Drop>(
    alloc: Global,
    table: &mut BTreeMap<K, Vec<V>>,
    pair: (K, V),
) -> Result<(), AllocError>
    ensures { OnOk result ((key : K) → values_at K.cmp table.new.entries key
        ≡ (if is_eq (K.cmp pair.0 key) then values_at K.cmp table.old.entries key ++ pair.1 ∷ [] else values_at K.cmp table.old.entries key)) }
{
    let (key, value) = pair;
    let one = alone(alloc, value)?;
    match table.insert(key, one)? {
        Some(before) => put_behind(alloc, table, key, before),
        None => Ok(()),
    }
}

/// A value alone.
fn alone<V: Drop>(alloc: Global, value: V) -> Result<Vec<V>, AllocError>
    ensures { IfOk result (λ values. values.items ≡ value ∷ []) }
{
    let mut values = Vec::with_capacity(alloc, 1)?;
    values.push(value)?;
    Ok(values)
}

/// Puts the values of a key behind those that it had before.
fn put_behind<K: Ord + Copy, V: Drop>(
    alloc: Global,
    table: &mut BTreeMap<K, Vec<V>>,
    key: K,
    before: Vec<V>,
) -> Result<(), AllocError>
    ensures { OnOk result ((other : K) → values_at K.cmp table.new.entries other
        ≡ (if is_eq (K.cmp key other) then before.items ++ values_at K.cmp table.old.entries key else values_at K.cmp table.old.entries other)) }
{
    let mut values = before;
    let mut own = taken(alloc, table, key);
    values.append(&mut own)?;
    table.insert(key, values)?;
    Ok(())
}

/// Takes out the values of a key.
fn taken<K: Ord + Copy, V: Drop>(alloc: Global, table: &mut BTreeMap<K, Vec<V>>, key: K) -> Vec<V>
    ensures values { result.items ≡ values_at K.cmp table.old.entries key }
    ensures gone { (other : K) → lookup (λ own. is_eq (K.cmp other own)) table.new.entries
        ≡ (if is_eq (K.cmp key other) then None else lookup (λ own. is_eq (K.cmp other own)) table.old.entries) }
{
    match table.remove(&key) {
        Some(values) => values,
        None => Vec::new(alloc),
    }
}
