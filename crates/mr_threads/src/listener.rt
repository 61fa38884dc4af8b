//! A subscriber's thread: it takes entries, keeps them in a list, and applies them.
ghost use Rattle.std.specs.Prelude.{◌≡◌, ◌∷◌, ◌++◌, [], true, false, List, None, OnOk};
ghost use Rattle.mr_feed.specs.declared.entry.Entry.{Entry};
ghost use Rattle.mr_subs.specs.Subscriber.{ShowsFold};
ghost use Rattle.mr_threads.specs.Ends.{ListenerRan};
ghost use Rattle.mr_threads.specs.Listening.{HasHeard};

use crate::lanes::take;
use mr_feed::Entry;
use mr_lane::Tap;
use mr_subs::{Fold, Subscriber};
use std::alloc::AllocError;
use std::sync::Wait;

/// A subscriber, the tap from which it takes, and the entries that it took.
#[derive(Drop)]
pub struct Listener<F, R> {
    pub tap: Tap<Entry, R>,
    pub subscriber: Subscriber<F>,
    pub taken: Vec<Entry>,
}

/// Takes entries and applies them until the tap is closed. Where memory runs out, it takes the rest and drops it.
pub(crate) fn listen<F: Fold, R: Wait>(rt: &R, listener: &mut Listener<F, R>) -> bool
    requires { HasHeard F.shows [] listener.old }
    ensures heard { result ≡ true → (entries : List Entry) × HasHeard F.shows entries listener.new }
    ensures closed { listener.new.tap.closed ≡ true }
    ensures id { listener.new.tap.id ≡ listener.old.tap.id }
{
    for _ in rt.forever() {
        let Some(entry) = take(rt, &mut listener.tap) else {
            return true;
        };
        if hear(&mut listener.subscriber, &mut listener.taken, entry).is_err() {
            drop_rest(rt, &mut listener.tap);
            return false;
        }
    }
    unreachable!()
}

/// Applies an entry, and keeps it behind the others.
#[tactic(auto, using(crate::proofs::Saying::hears_one))]
fn hear<F: Fold>(
    subscriber: &mut Subscriber<F>,
    taken: &mut Vec<Entry>,
    entry: Entry,
) -> Result<(), AllocError>
    requires { subscriber.old.kept ≡ None }
    ensures taken { OnOk result (taken.new.items ≡ taken.old.items ++ entry ∷ []) }
    ensures applied { (entries : List Entry) → ShowsFold F.shows subscriber.old.fold entries → OnOk result (ShowsFold F.shows subscriber.new.fold (entries ++ entry ∷ [])) }
    ensures none_kept { OnOk result (subscriber.new.kept ≡ None) }
{
    taken.reserve(1)?;
    let copy = entry.copy()?;
    match subscriber.apply(entry) {
        Ok(()) => {
            taken.push_reserved(copy);
            Ok(())
        }
        Err(_) => Err(AllocError),
    }
}

/// Takes the entries that come, and drops them.
fn drop_rest<R: Wait>(rt: &R, tap: &mut Tap<Entry, R>)
    ensures id { tap.new.id ≡ tap.old.id }
    ensures closed { tap.new.closed ≡ true }
{
    for _ in rt.forever() {
        if take(rt, tap).is_none() {
            return;
        }
    }
    unreachable!()
}

/// A subscriber that has run, and whether it applied and kept all entries.
#[derive(Drop)]
pub struct ListenerEnd<F, R> {
    pub listener: Listener<F, R>,
    pub whole: bool,
}

/// Takes entries, keeps them and applies them until the tap is closed. Where memory runs out, the rest is
/// taken and dropped, and the end isn't whole.
pub fn run_listener<F: Fold, R: Wait>(rt: &R, mut listener: Listener<F, R>) -> ListenerEnd<F, R>
    requires { HasHeard F.shows [] listener }
    ensures { ListenerRan F.shows listener result }
{
    let whole = listen(rt, &mut listener);
    ListenerEnd { listener, whole }
}
