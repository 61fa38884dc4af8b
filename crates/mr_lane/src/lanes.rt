//! How lanes are made, and how a tap's ends are put together again.
ghost use Rattle.std.specs.Prelude.{◌≡◌, ◌<◌, ◌≤◌, ◌⊎◌, ◌↔◌, ◌++◌, List, true, IsTrue, IfOk, Err};
ghost use Rattle.mr_lane.specs.Inbox.{IsNewInbox};
ghost use Rattle.mr_lane.specs.Tap.{new_end};

use crate::desk::{Desk, new_desk};
use crate::fault::LaneFault;
use crate::inbox_rule::{InboxQueue, NextSender};
use crate::note::Sender;
use crate::post::{Posts, new_post};
use crate::tap_ends::{Spout, Tap};
use crate::tap_rule::{Compares, TapQueue, TwoEnds};
use mr_feed::MAX_CAPACITY;
use std::alloc::Global;
use std::sync::Arc;

/// An inbox with this many places, 1 to 4,096; `NoCapacity` for other numbers. The posts and the
/// desk are lent the right to wait at each call.
pub fn inbox<T: Drop>(alloc: Global, capacity: usize) -> Result<(Posts<T>, Desk<T>), LaneFault>
    ensures ok { IfOk result (λ made. IsNewInbox capacity made.0 made.1) }
    ensures no_capacity { (result ≡ Err LaneFault.NoCapacity) ↔ ((capacity ≡ 0) ⊎ (MAX_CAPACITY < capacity)) }
{
    if !is_capacity(capacity) {
        return Err(LaneFault::NoCapacity);
    }
    let (queue, mut pass) = InboxQueue::<T>::ruled(alloc, capacity)?;
    let user = queue.another::<NextSender>(&mut pass);
    let first = queue.another::<NextSender>(&mut pass);
    let second = queue.another::<NextSender>(&mut pass);
    let queue = Arc::new(alloc, queue)?;
    let posts = Posts {
        user: new_post(Arc::try_clone(&queue)?, user, Sender::User),
        first_link: new_post(Arc::try_clone(&queue)?, first, Sender::FirstLink),
        second_link: new_post(Arc::try_clone(&queue)?, second, Sender::SecondLink),
    };
    Ok((posts, new_desk(queue, pass)))
}

/// A tap with this many places, 1 to 4,096; `NoCapacity` for other numbers. Both ends keep the
/// right to wait that is given here.
pub fn tap<T: Drop, R: Copy>(
    rt: R,
    alloc: Global,
    capacity: usize,
) -> Result<(Spout<T, R>, Tap<T, R>), LaneFault>
    ensures ok { IfOk result (λ ends.
        (ends.0 ≡ new_end ends.0.id capacity) × (ends.1 ≡ new_end ends.0.id capacity)) }
    ensures no_capacity { (result ≡ Err LaneFault.NoCapacity) ↔ ((capacity ≡ 0) ⊎ (MAX_CAPACITY < capacity)) }
{
    if !is_capacity(capacity) {
        return Err(LaneFault::NoCapacity);
    }
    let (queue, mut pass) = TapQueue::<T>::ruled(alloc, capacity)?;
    let other = queue.another::<TwoEnds>(&mut pass);
    let queue = Arc::new(alloc, queue)?;
    let shared = Arc::try_clone(&queue)?;
    let spout = Spout {
        rt,
        queue,
        pass,
        closed: false,
    };
    let tap = Tap {
        rt,
        queue: shared,
        pass: other,
        closed: false,
    };
    Ok((spout, tap))
}

/// Puts the ends of one tap together, which uses them up, and answers whether the end mark was
/// taken. What was taken is a beginning of what was offered; where the answer is true it is all of
/// it.
pub fn tap_settle<T: Drop, R: Drop>(spout: Spout<T, R>, tap: Tap<T, R>) -> bool
    requires one_tap { spout.id ≡ tap.id }
    ensures answer { result ≡ tap.closed }
    ensures order { (rest : List T) × (spout.passed ≡ tap.passed ++ rest) }
    ensures all { IsTrue result → (tap.passed ≡ spout.passed) × (spout.closed ≡ true) }
{
    let Spout {
        rt: _,
        queue,
        mut pass,
        closed: _,
    } = spout;
    let Tap {
        rt: _,
        queue: _,
        pass: other,
        closed,
    } = tap;
    queue.absorb::<TwoEnds>(&mut pass, other);
    queue.learn_as::<Compares>(&mut pass);
    closed
}

/// Whether a lane may have this many places.
fn is_capacity(places: usize) -> bool
    ensures { IsTrue result ↔ ((0 < places) × (places ≤ MAX_CAPACITY)) }
{
    places > 0 && places <= MAX_CAPACITY
}
