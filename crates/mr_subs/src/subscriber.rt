//! A subscriber: a fold, and one place for an entry.
ghost use Rattle.std.specs.Prelude.{◌≡◌, ◌⊎◌, ◌++◌, ◌∷◌, [], List, Some, None, IsSome, IfOk, OnOk, IfErr, OnErr};
ghost use Rattle.std.specs.Option.{option_copied};
ghost use Rattle.mr_mail.specs.Mail.{MailCard};
ghost use Rattle.mr_model.specs.Headline.{Cards, no_cards};
ghost use Rattle.mr_feed.specs.declared.entry.Entry.{Entry};
ghost use Rattle.mr_subs.specs.Subscriber.{ShowsFold, Applies, EndedSo, CatchesUp, AppliesAll, KeepsLast, pending};

use mr_feed::{Entry, PortOut, Taken};
use std::alloc::{AllocError, AllocFailed, Global};
use std::marker::Model;
use std::sync::Wait;

/// How a drain ended.
#[derive(Clone, Copy, Debug, PartialEq, Eq, Drop)]
pub enum Drained {
    /// Nothing waited, and the port was not closed.
    Empty,
    /// The port is closed, and nothing comes any more.
    Closed,
}

/// The fold of a feed's entries, in a form of its own.
pub trait Fold: Drop {
    /// The fold's versions have these cards, and no other version has one.
    ghost shows: { Self → Cards MailCard → Type 0 };

    /// The fold of no entry.
    fn new(alloc: Global) -> Self
        ensures { shows result no_cards };

    /// Applies one entry. Where memory runs out nothing has changed.
    fn fold_in(&mut self, entry: &Entry) -> Result<(), AllocError>
        ensures ok { OnOk result (Applies shows self.old (entry.now ∷ []) self.new) }
        ensures err { OnErr result (self.new ≡ self.old) };
}

/// A fold of the entries that were taken, and a place for one entry that could not be applied.
#[derive(Debug, Drop)]
pub struct Subscriber<F> {
    fold: F,
    kept: Option<Entry>,
}

impl<F> Model for Subscriber<F> {
    ghost use Rattle.mr_subs.specs.Subscriber.{Keeping};

    ghost Value = { Keeping F };

    ghost view = { λ s. record { fold = s.fold; kept = s.kept } };
}

impl<F: Fold> Subscriber<F> {
    /// A subscriber that has taken nothing.
    pub fn new(alloc: Global) -> Subscriber<F>
        ensures fold { ShowsFold F.shows result.fold [] }
        ensures kept { result.kept ≡ None }
    {
        Subscriber {
            fold: F::new(alloc),
            kept: None,
        }
    }

    /// The fold of the entries that were applied.
    pub fn fold(&self) -> &F
        ensures { result.now ≡ self.now.fold }
    {
        &self.fold
    }

    /// The entry that was taken and could not be applied. The next call applies it first.
    pub fn kept(&self) -> Option<&Entry>
        ensures { option_copied result ≡ self.now.kept }
    {
        self.kept.as_ref()
    }

    /// Applies an entry, and before it the kept one, if there is one.
    ///
    /// Where memory runs out the entry is handed back, and is not kept. Then nothing has changed, or the
    /// kept entry alone was applied: that one found memory, and the entry given found none.
    pub fn apply(&mut self, entry: Entry) -> Result<(), AllocFailed<Entry>>
        ensures ok { OnOk result (Applies F.shows self.old.fold (pending self.old ++ entry ∷ []) self.new.fold) }
        ensures none_kept { OnOk result (self.new.kept ≡ None) }
        ensures value_returned { IfErr result (λ failed. failed.value ≡ entry) }
        ensures err { OnErr result ((self.new ≡ self.old) ⊎ CatchesUp F.shows self.old self.new) }
        ensures unchanged { self.old.kept ≡ None → OnErr result (self.new ≡ self.old) }
    {
        if self.catch_up().is_err() {
            return Err(AllocFailed { value: entry });
        }
        if self.fold.fold_in(&entry).is_err() {
            return Err(AllocFailed { value: entry });
        }
        Ok(())
    }

    // Applies the kept entry.
    fn catch_up(&mut self) -> Result<(), AllocError>
        ensures ok { OnOk result (Applies F.shows self.old.fold (pending self.old) self.new.fold) }
        ensures none_kept { OnOk result (self.new.kept ≡ None) }
        ensures same { self.old.kept ≡ None → self.new ≡ self.old }
        ensures either { OnOk result ((self.new ≡ self.old) ⊎ CatchesUp F.shows self.old self.new) }
        ensures err { OnErr result (IsSome self.old.kept × (self.new ≡ self.old)) }
    {
        if let Some(entry) = &self.kept {
            self.fold.fold_in(entry)?;
            self.kept = None;
        }
        Ok(())
    }

    /// Takes entries from the port and applies them, the kept one first, until the port answers that
    /// nothing waits or that it is closed.
    ///
    /// Where memory runs out, all that was taken is applied but the last, which is kept; or an entry was
    /// kept before, memory runs out at that one, and nothing has changed.
    pub fn drain<P: PortOut, R: Wait>(
        &mut self,
        rt: &R,
        port: &mut P,
    ) -> Result<Drained, AllocError>
        ensures ok { OnOk result (AppliesAll F.shows P.took self.old port.old self.new port.new) }
        ensures ended { IfOk result (EndedSo P.is_done P.was_empty port.new) }
        ensures err { OnErr result ((IsSome self.old.kept × (self.new ≡ self.old) × (port.new ≡ port.old))
            ⊎ KeepsLast F.shows P.took self.old port.old self.new port.new) }
    {
        self.catch_up()?;
        match fold_all(rt, &mut self.fold, port) {
            Ok(drained) => Ok(drained),
            Err(entry) => {
                self.kept = Some(entry);
                Err(AllocError)
            }
        }
    }
}

/// Takes entries from the port and folds them in, and gives back the one that found no memory.
fn fold_all<F: Fold, P: PortOut, R: Wait>(
    rt: &R,
    fold: &mut F,
    port: &mut P,
) -> Result<Drained, Entry>
    ensures ok { IfOk result (λ drained. (xs : List Entry) × P.took port.old xs port.new × Applies F.shows fold.old xs fold.new × EndedSo P.is_done P.was_empty port.new drained) }
    ensures err { IfErr result (λ last. (xs : List Entry) × P.took port.old (xs ++ last ∷ []) port.new × Applies F.shows fold.old xs fold.new) }
{
    for _ in rt.forever() {
        match port.take() {
            Taken::Entry(entry) => match fold.fold_in(&entry) {
                Ok(()) => {}
                Err(_) => return Err(entry),
            },
            Taken::Empty => return Ok(Drained::Empty),
            Taken::Closed => return Ok(Drained::Closed),
        }
    }
    unreachable!()
}
