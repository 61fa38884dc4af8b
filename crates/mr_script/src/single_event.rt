//! Events of a script's world, one at a time.
ghost use Rattle.std.specs.Prelude.{◌≡◌, IsSome, Some};
ghost use Rattle.mr_script.specs.inner.Doing.{happens_noted, newest};
ghost use Rattle.mr_script.specs.Fault.{fault_of_stop};
ghost use Rattle.mr_script.specs.Question.{text_of};
ghost use Rattle.mr_script.specs.Stage.{happens_told, sizes_of};

use crate::Done;
use crate::answer::{PoolSizes, answer_line};
use mr_command::LineFault;
use mr_forms::Knowledge;
use mr_world::{Answer, Event, World, WorldFault};
use std::alloc::Global;

/// Lets the event happen. `NoSuchReplica` and `NoSuchFrame` where it names what isn't there, and
/// `OutOfMemory`: then nothing has changed.
pub(crate) fn let_happen<K: Knowledge>(world: &mut World<K>, event: Event) -> Done<()>
    ensures { happens_noted K.form event world.old result world.new }
{
    match world.happen(event) {
        Ok(()) => Ok(()),
        Err(fault) => Err(stop_fault(fault)),
    }
}

/// Lets the event happen, and gives its answer's line. The event stands also where there is no memory
/// for the line.
pub(crate) fn answer_of_event<K: Knowledge>(
    alloc: Global,
    world: &mut World<K>,
    event: Event,
) -> Done<String>
    ensures { happens_told K.form event world.old (text_of result) world.new }
{
    let_happen(world, event)?;
    Ok(answer_line(alloc, pool_sizes(world), newest(world))?)
}

/// The answer to the newest event, where there is one.
pub(crate) fn newest<K: Knowledge>(world: &World<K>) -> &Answer
    requires { IsSome (newest world.now) }
    ensures { newest world.now ≡ Some result.now }
{
    match world.newest() {
        Some(answered) => &answered.answer,
        None => unreachable!(),
    }
}

/// How many frames there are.
fn pool_sizes<K: Knowledge>(world: &World<K>) -> PoolSizes
    ensures { result ≡ sizes_of world.now }
{
    PoolSizes {
        asks: world.ask_count(),
        records: world.record_count(),
        receipts: world.receipt_count(),
    }
}

/// Why a line ends where the world stopped.
fn stop_fault(fault: WorldFault) -> LineFault
    ensures { result ≡ fault_of_stop fault }
{
    match fault {
        WorldFault::OutOfMemory => LineFault::OutOfMemory,
        WorldFault::NoSuchReplica => LineFault::NoSuchReplica,
        WorldFault::NoSuchFrame => LineFault::NoSuchFrame,
    }
}
