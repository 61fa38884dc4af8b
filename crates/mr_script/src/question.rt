//! What a script's world is asked.
ghost use Rattle.std.specs.Prelude.{◌≡◌, MatchResult, Some, None};
ghost use Rattle.std.specs.Option.{option_copied};
ghost use Rattle.mr_replica.specs.State.{held};
ghost use Rattle.mr_world.specs.Kept.{replica_at};
ghost use Rattle.mr_script.specs.Question.{replies, tells_conflicts, tells_held, tells_known, text_of, IsFrameAt};

use crate::Done;
use crate::answer::refused_line;
use crate::bytes_line::bytes_line;
use crate::holding::{conflicts_line, feed_line, heads_line, know_line, log_line, push_outs_line};
use crate::show::{not_held_line, show_line};
use crate::taken::{index_line, unseen_line};
use mr_command::{LineFault, Pool, Question};
use mr_forms::{FormFault, Knowledge};
use mr_replica::{Refusal, Replica};
use mr_version::{Author, Version};
use mr_world::World;
use std::alloc::Global;

/// The line that answers the question. `NoSuchReplica`, `NoSuchFrame`, `OutOfMemory`. It costs a walk over
/// what is printed, and for `index` and `unseen` over the answers of the world.
pub(crate) fn reply<K: Knowledge>(
    alloc: Global,
    world: &World<K>,
    question: &Question,
) -> Done<String>
    ensures { replies K.form world.now question.now (text_of result) }
{
    match question {
        Question::Heads(id) => Ok(heads_line(alloc, *id, replica(world, *id)?.heads())?),
        Question::PushOuts(id) => Ok(push_outs_line(alloc, *id, replica(world, *id)?.push_outs())?),
        Question::Conflicts(id) => several_line(alloc, *id, replica(world, *id)?),
        Question::Know(id) => known_line(alloc, *id, replica(world, *id)?),
        Question::Feed(id) => Ok(feed_line(alloc, *id, replica(world, *id)?.feed())?),
        Question::Log(id) => Ok(log_line(alloc, *id, replica(world, *id)?.log().len())?),
        Question::Show(id, version) => held_line(alloc, replica(world, *id)?, *version),
        Question::Bytes(pool, number) => bytes(alloc, world, *pool, *number),
        Question::Index(id, label) => Ok(index_line(alloc, world.answers(), *id, label.as_str())?),
        Question::Unseen(id) => Ok(unseen_line(alloc, world.answers(), *id)?),
    }
}

/// The replica of this id.
fn replica<K: Knowledge>(world: &World<K>, id: Author) -> Done<&Replica<K>>
    ensures { MatchResult result (λ replica. replica_at world.now.members id ≡ Some replica.now)
        (λ fault. (replica_at world.now.members id ≡ None) × (fault ≡ LineFault.NoSuchReplica)) }
{
    match world.replica(id) {
        Some(replica) => Ok(replica),
        None => Err(LineFault::NoSuchReplica),
    }
}

fn bytes<K: Knowledge>(alloc: Global, world: &World<K>, pool: Pool, number: u64) -> Done<String>
    ensures { replies K.form world.now (Question.Bytes pool number) (text_of result) }
{
    match frame(world, pool, number) {
        Some(frame) => Ok(bytes_line(alloc, pool, number, frame)?),
        None => Err(LineFault::NoSuchFrame),
    }
}

/// The frame of this number, where there is one.
fn frame<K: Knowledge>(world: &World<K>, pool: Pool, number: u64) -> Option<&[u8]>
    ensures { IsFrameAt world.now pool number (option_copied result) }
{
    match pool {
        Pool::Asks => world.ask(number),
        Pool::Records => world.record(number),
        Pool::Receipts => world.receipt(number),
    }
}

/// The items of which the replica has several heads.
fn several_line<K: Knowledge>(alloc: Global, id: Author, replica: &Replica<K>) -> Done<String>
    ensures { tells_conflicts id replica.now.heads (text_of result) }
{
    let items = replica.conflicts()?;
    Ok(conflicts_line(alloc, id, &items)?)
}

/// What the replica tells of what it knows. A fragment that has no concise vector is a refusal.
fn known_line<K: Knowledge>(alloc: Global, id: Author, replica: &Replica<K>) -> Done<String>
    ensures { tells_known id (K.form.known replica.now.knowledge) (K.form.is_part replica.now.knowledge) (text_of result) }
{
    match replica.fragments() {
        Ok(fragments) => Ok(know_line(alloc, id, fragments.as_slice())?),
        Err(FormFault::TooManyHoles) => Ok(refused_line(alloc, Refusal::TooManyHoles)?),
        Err(_) => Err(LineFault::OutOfMemory),
    }
}

/// What the replica shows of a version.
fn held_line<K: Knowledge>(alloc: Global, replica: &Replica<K>, version: Version) -> Done<String>
    ensures { tells_held (held replica.now version) (text_of result) }
{
    match replica.held(version) {
        Some(revision) => Ok(show_line(alloc, revision)?),
        None => Ok(not_held_line(alloc)?),
    }
}
