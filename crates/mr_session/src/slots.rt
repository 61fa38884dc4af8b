//! Values under numbers, in the slots of a slab.
ghost use Rattle.std.specs.Prelude.{◌≡◌, ◌≤◌, ◌+◌, ℕ, map, Some, None, IfSome, IfNone, IsSome, IfOk};
ghost use Rattle.std.specs.Option.{option_copied};
ghost use Rattle.slab.specs.Slab.{slab_len, HasRoomFor, entries};
ghost use Rattle.mr_session.specs.inner.Slots.{with_at};
ghost use Rattle.mr_session.specs.Slots.{HasNumber, AreOnce, AreUpTo};
ghost use Rattle.mr_session.specs.inner.Slots.{value_at};

use slab::Slab;
use std::alloc::{AllocError, Global};

/// A value under its number.
#[derive(Drop)]
pub struct Entry<T> {
    pub number: u64,
    pub value: T,
}

impl<T: Clone> Clone for Entry<T> {
    ghost is_clone = { λ entry copy. (copy.number ≡ entry.number) × T.is_clone entry.value copy.value };

    fn clone(&self) -> Result<Entry<T>, AllocError> {
        Ok(Entry {
            number: self.number,
            value: self.value.clone()?,
        })
    }
}

// The key of the number's entry.
fn key_of<T>(slots: &Slab<Entry<T>>, number: u64) -> Option<usize>
    ensures found { IfSome result (λ key. HasNumber slots.now number key) }
    ensures absent { IfNone result ((key : ℕ) → ¬ HasNumber slots.now number key) }
{
    for (key, entry) in slots.iter() {
        if entry.number == number {
            return Some(key);
        }
    }
    None
}

/// What is under the number.
pub fn value<T>(slots: &Slab<Entry<T>>, number: u64) -> Option<&T>
    requires { AreOnce slots.now }
    ensures { option_copied result ≡ value_at slots.now number }
{
    match key_of(slots, number) {
        Some(key) => Some(&slots[key].value),
        None => None,
    }
}

/// The numbers of all slots, in the order of the slots.
pub fn numbers_in<T>(alloc: Global, slots: &Slab<Entry<T>>) -> Result<Vec<u64>, AllocError>
    ensures { IfOk result (λ numbers. numbers.items ≡ map (λ e. e.1.number) (entries slots.now)) }
{
    let mut numbers = Vec::with_capacity(alloc, slots.len())?;
    for (_, entry) in slots.iter() {
        numbers.push(entry.number)?;
    }
    Ok(numbers)
}

/// Takes out what is under the number, which leaves room for it.
pub fn lift<T>(slots: &mut Slab<Entry<T>>, number: u64) -> T
    requires once { AreOnce slots.old }
    requires open { IsSome (value_at slots.old number) }
    ensures value { value_at slots.old number ≡ Some result }
    ensures left { value_at slots.new ≡ with_at number None (value_at slots.old) }
    ensures once { AreOnce slots.new }
    ensures up_to { (last : ℕ) → AreUpTo slots.old last → AreUpTo slots.new last }
    ensures count { slab_len slots.new + 1 ≡ slab_len slots.old }
    ensures room { HasRoomFor slots.new 1 }
{
    match key_of(slots, number) {
        Some(key) => slots.remove(key).value,
        None => unreachable!(),
    }
}

/// Puts a value under a number that has none. There is room.
pub fn place<T>(slots: &mut Slab<Entry<T>>, number: u64, value: T)
    requires once { AreOnce slots.old }
    requires absent { value_at slots.old number ≡ None }
    requires room { HasRoomFor slots.old 1 }
    ensures placed { value_at slots.new ≡ with_at number (Some value) (value_at slots.old) }
    ensures once { AreOnce slots.new }
    ensures up_to { (last : ℕ) → 1 ≤ number → number ≤ last → AreUpTo slots.old last → AreUpTo slots.new last }
    ensures count { slab_len slots.new ≡ slab_len slots.old + 1 }
{
    slots.insert_reserved(Entry { number, value });
}
