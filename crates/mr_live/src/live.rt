//! A live script from its first line to what is printed of it.
ghost use Rattle.std.specs.Prelude.{◌≡◌, ◌≢◌, ◌∷◌, [], ◌<◌, Err, Some, Result, IfOk, IfErr, IfSome, length, string_bytes};
ghost use Rattle.mr_script.specs.declared.fault.ScriptFault.{ScriptFault};
ghost use Rattle.mr_script.specs.declared.source.TheConstants.{MAX_SCRIPT_BYTES};
ghost use Rattle.mr_live.specs.Live.{AreById, CannotMeet, LiveEnds, NodesEnd, NodesMeet, PlanEnds, TellsBoth, Writes};
ghost use Rattle.mr_live.specs.Plan.{CanAllRun, Halves, PlanView, ScriptAsks};
ghost use Rattle.mr_live.specs.inner.Plan.{CanBothRun};

use crate::fault::LiveFault;
use crate::plan::{NodePlan, Plan};
use crate::rounds::run_rounds;
use crate::source::read_plan;
use crate::telling::{Told, tell_joined};
use mr_forms::OneValue;
use mr_replica::Replica;
use mr_script::{Output, ScriptFault};
use std::alloc::{AllocError, Global};
use std::io::{Read, Write};
use std::sync::Wait;
use std::thread::Threads;

/// Reads a live script, runs its two replicas as nodes, joins their logs, and writes what they hold: whether the logs joined.
///
/// The whole script is read before a node runs. `Script` is the first fault of a line, or that of the reader, as of
/// `run_script`; `NotTwo` comes behind it, where the script makes another number of replicas; then `OutOfMemory` wherever memory is
/// wanting or a thread can't be made, for an event that a replica answers so too, and `Script` again where the writer fails, which is then not called again. Nothing is written at another
/// fault. That the call returns is not promised: see [`mr_node::run_node`].
pub fn run_live<
    K: OneValue<Vector: Send> + Send,
    R: Threads + Wait + Sync + Send + Copy,
    I: Read + Drop,
    W: Write,
>(rt: &R, alloc: Global, reader: I, writer: &mut W) -> Result<bool, LiveFault>
    ensures ends { (asks : Result PlanView ScriptFault) × IfSome (I.remaining reader) (λ script. ScriptAsks script asks)
        × LiveEnds K.form asks result (W.contents writer.old) (W.contents writer.new) }
    ensures too_long { result ≡ Err (LiveFault.Script ScriptFault.TooLong)
        → IfSome (I.remaining reader) (λ script. MAX_SCRIPT_BYTES < length script) }
{
    match read_plan(alloc, reader) {
        Ok(plan) => run_plan::<K, R, W>(rt, alloc, plan, writer),
        Err(fault) => Err(LiveFault::Script(fault)),
    }
}

/// Runs what a script asks for, and writes what comes of it.
fn run_plan<K: OneValue<Vector: Send> + Send, R: Threads + Wait + Sync + Send + Copy, W: Write>(
    rt: &R,
    alloc: Global,
    plan: Plan,
    writer: &mut W,
) -> Result<bool, LiveFault>
    requires can_run { CanAllRun plan.specs }
    ensures { PlanEnds K.form plan result (W.contents writer.old) (W.contents writer.new) }
{
    match nodes_of(alloc, plan) {
        Ok(nodes) => meet::<K, R, W>(rt, alloc, nodes, writer),
        Err(fault) => Err(fault),
    }
}

/// Runs two nodes, and writes how they ended.
fn meet<K: OneValue<Vector: Send> + Send, R: Threads + Wait + Sync + Send + Copy, W: Write>(
    rt: &R,
    alloc: Global,
    nodes: (NodePlan, NodePlan),
    writer: &mut W,
) -> Result<bool, LiveFault>
    requires can_run { CanBothRun nodes }
    ensures { NodesEnd K.form nodes result (W.contents writer.old) (W.contents writer.new) }
{
    match run_nodes::<K, R>(rt, alloc, nodes) {
        Ok(told) => write_told(alloc, &told, writer),
        Err(_) => Err(LiveFault::OutOfMemory),
    }
}

/// The two nodes of a plan. `NotTwo` where it has another number of replicas.
fn nodes_of(alloc: Global, plan: Plan) -> Result<(NodePlan, NodePlan), LiveFault>
    ensures nodes { IfOk result (λ nodes. Halves plan (Some nodes)) }
    ensures fault { IfErr result (λ fault. CannotMeet plan fault) }
{
    match plan.into_nodes(alloc) {
        Ok(Some(nodes)) => Ok(nodes),
        Ok(None) => Err(LiveFault::NotTwo),
        Err(_) => Err(LiveFault::OutOfMemory),
    }
}

/// Runs two nodes, and tells how they ended.
fn run_nodes<K: OneValue<Vector: Send> + Send, R: Threads + Wait + Sync + Send + Copy>(
    rt: &R,
    alloc: Global,
    nodes: (NodePlan, NodePlan),
) -> Result<Told, AllocError>
    requires can_run { CanBothRun nodes }
    ensures { IfOk result (λ told. NodesMeet K.form nodes told.joined (string_bytes told.text)) }
{
    match run_rounds::<K, R>(rt, alloc, nodes.0, nodes.1) {
        Some(ended) => tell_both(alloc, ended),
        None => Err(AllocError),
    }
}

/// Joins the logs of both, and tells what they hold.
fn tell_both<K: OneValue>(
    alloc: Global,
    ended: (Replica<K>, Replica<K>),
) -> Result<Told, AllocError>
    requires apart { ended.0.id ≢ ended.1.id }
    ensures { IfOk result (λ told. TellsBoth K.form ended told.joined (string_bytes told.text)) }
{
    match by_id(alloc, ended.0, ended.1) {
        Ok(ends) => tell_joined(alloc, &ends),
        Err(fault) => Err(fault),
    }
}

/// Both, the one of the lower id first.
fn by_id<K: OneValue>(
    alloc: Global,
    first: Replica<K>,
    second: Replica<K>,
) -> Result<Vec<Replica<K>>, AllocError>
    requires apart { first.id ≢ second.id }
    ensures { IfOk result (λ ends. AreById first second ends.items) }
{
    if second.id() < first.id() {
        both(alloc, second, first)
    } else {
        both(alloc, first, second)
    }
}

/// Both, in this order.
fn both<T: Drop>(alloc: Global, low: T, high: T) -> Result<Vec<T>, AllocError>
    ensures { IfOk result (λ two. two.items ≡ low ∷ high ∷ []) }
{
    let mut two = Vec::with_capacity(alloc, 2)?;
    two.push(low)?;
    two.push(high)?;
    Ok(two)
}

/// Writes what was told, and flushes the writer.
fn write_told<W: Write>(alloc: Global, told: &Told, writer: &mut W) -> Result<bool, LiveFault>
    ensures { Writes told.now.joined (string_bytes told.now.text) result (W.contents writer.old) (W.contents writer.new) }
{
    let mut output = Output::new(alloc);
    output.push(told.text.as_str())?;
    match output.flush(writer) {
        Ok(()) => Ok(told.joined),
        Err(_) => Err(LiveFault::Script(ScriptFault::Write)),
    }
}
