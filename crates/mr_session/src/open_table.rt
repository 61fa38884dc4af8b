//! Tables of what is open, each under a number of its own.
ghost use Rattle.std.specs.Prelude.{◌≡◌, ◌<◌, ◌≤◌, ◌+◌, ◌^◌, nat_le, length, is_some, IsSome, Some, IfOk, OnOk, OnErr};
ghost use Rattle.std.specs.Option.{option_copied, ForSome};
ghost use Rattle.mr_session.specs.Table.{open_at, open_numbers, empty_table, with_opened, with_closed, IsTable};
ghost use Rattle.mr_session.specs.inner.Table.{Changes};
ghost use Rattle.mr_session.specs.declared.limits.TheConstants.{MAX_OPEN};

use crate::limits::MAX_OPEN;
use crate::slots::{Entry, lift, numbers_in, place, value};
use slab::Slab;
use std::alloc::{AllocError, Global};
use std::marker::Model;

/// What is open: at most eight at a time, each under a number that is given once, from 1.
#[derive(Drop)]
pub struct OpenTable<T> {
    alloc: Global,
    // how many were ever opened: the last number given
    opened: u64,
    slots: Slab<Entry<T>>,
}

impl<T> Model for OpenTable<T> {
    ghost use Rattle.mr_session.specs.Table.{Table};
    ghost use Rattle.mr_session.specs.Slots.{by_number, AreSlots};

    ghost Value = { Table T };

    ghost view = { λ t. record { opened = t.opened; open_ones = by_number t.slots.slots } };

    ghost invariant = { λ t. AreSlots t.slots t.opened };
}

impl<T> OpenTable<T> {
    /// A table in which nothing was opened. It allocates nothing.
    pub fn new(alloc: Global) -> OpenTable<T>
        ensures { result ≡ empty_table }
    {
        OpenTable {
            alloc,
            opened: 0,
            slots: Slab::new(alloc),
        }
    }

    // ---- readers

    /// How many were ever opened, which is the last number given.
    pub fn opened(&self) -> u64
        ensures value { result ≡ self.now.opened }
        ensures kept { IsTable self.now }
    {
        self.opened
    }

    /// Whether eight are open.
    pub fn is_full(&self) -> bool
        ensures { result ≡ nat_le MAX_OPEN (length self.now.open_ones) }
    {
        self.slots.len() >= MAX_OPEN
    }

    /// Whether the number is open.
    pub fn has(&self, number: u64) -> bool
        ensures { result ≡ is_some (open_at self.now number) }
    {
        value(&self.slots, number).is_some()
    }

    /// What is open under the number.
    pub fn get(&self, number: u64) -> Option<&T>
        ensures { option_copied result ≡ open_at self.now number }
    {
        value(&self.slots, number)
    }

    /// The numbers that are open, rising: at most eight. It costs a list of them.
    pub fn numbers(&self) -> Result<Vec<u64>, AllocError>
        ensures value { IfOk result (λ numbers. numbers.items ≡ open_numbers self.now) }
        ensures kept { IsTable self.now }
    {
        let mut numbers = numbers_in(self.alloc, &self.slots)?;
        numbers.sort_unstable();
        Ok(numbers)
    }

    // Where the table's memory is from.
    pub(crate) fn alloc(&self) -> Global {
        self.alloc
    }

    // ---- changes

    // Opens this under the next number, which is given. Fewer than eight are open.
    pub(crate) fn insert(&mut self, value: T) -> Result<u64, AllocError>
    where
        T: Drop,
        requires room { length self.old.open_ones < MAX_OPEN }
        requires numbers { self.old.opened + 1 < 2 ^ 64 }
        ensures number { IfOk result (λ number. number ≡ self.old.opened + 1) }
        ensures ok { OnOk result (self.new ≡ with_opened self.old value) }
        ensures err { OnErr result (self.new ≡ self.old) }
    {
        self.slots.reserve(1)?;
        let number = self.opened + 1;
        place(&mut self.slots, number, value);
        self.opened = number;
        Ok(number)
    }

    // Puts what the change makes of it in the place of what is open under the number.
    pub(crate) fn change<R, F: FnOnce(T) -> (T, R)>(&mut self, number: u64, change: F) -> R
        requires open { IsSome (open_at self.old number) }
        requires callable { 1 ≤ number → ForSome (open_at self.old number) (F.pre change) }
        ensures changed { Changes (F.post change) number self.old result self.new }
        ensures kept { IsTable self.old }
    {
        let before = lift(&mut self.slots, number);
        let (after, answer) = change(before);
        place(&mut self.slots, number, after);
        answer
    }

    /// Closes the number, which is open, and gives what was open under it.
    pub fn close(&mut self, number: u64) -> T
        requires { IsSome (open_at self.old number) }
        ensures value { open_at self.old number ≡ Some result }
        ensures closed { self.new ≡ with_closed self.old number }
    {
        lift(&mut self.slots, number)
    }
}

impl<T: Clone> OpenTable<T> {
    /// An equal table. A clone of what is open is equal to it.
    pub fn copy(&self) -> Result<OpenTable<T>, AllocError>
        requires { (value clone : T) → T.is_clone value clone → clone ≡ value }
        ensures { IfOk result (λ table. table ≡ self.now) }
    {
        Ok(OpenTable {
            alloc: self.alloc,
            opened: self.opened,
            slots: self.slots.clone()?,
        })
    }
}
