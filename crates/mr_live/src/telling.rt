//! What is printed of two replicas that ended.
ghost use Rattle.std.specs.Prelude.{◌≡◌, ◌++◌, IfOk, OnOk, string_bytes};
ghost use Rattle.mr_settle.specs.Explains.{AreDistinct};
ghost use Rattle.mr_live.specs.Telling.{Tells, held_text, told_text, unexplained_text};
ghost use Rattle.mr_live.specs.inner.Telling.{IsWhyNot, TellsFault};

use mr_forms::{Knowledge, OneValue};
use mr_replica::Replica;
use mr_script::{heads_line, push_outs_line};
use mr_settle::{JoinFault, join_logs};
use mr_version::Author;
use std::alloc::{AllocError, Global};

/// What is printed, and whether the logs joined.
#[derive(Drop)]
pub(crate) struct Told {
    pub text: String,
    pub joined: bool,
}

/// Joins the logs of the replicas, and tells what they hold or which event nobody explains.
pub(crate) fn tell_joined<K: OneValue>(
    alloc: Global,
    ends: &[Replica<K>],
) -> Result<Told, AllocError>
    requires distinct { AreDistinct ends.now }
    ensures { IfOk result (λ told. Tells K.form ends.now told.joined (string_bytes told.text)) }
{
    match why_not(alloc, ends) {
        None => Ok(Told {
            text: joined_text(alloc, ends)?,
            joined: true,
        }),
        Some(fault) => tell_fault(alloc, fault),
    }
}

/// Tells the event that nobody explains.
fn tell_fault(alloc: Global, fault: JoinFault) -> Result<Told, AllocError>
    ensures { IfOk result (λ told. TellsFault fault told.joined (string_bytes told.text)) }
{
    match fault {
        JoinFault::Unexplained { replica, event } => Ok(Told {
            text: unexplained_line(alloc, replica, event)?,
            joined: false,
        }),
        JoinFault::OutOfMemory => Err(AllocError),
    }
}

/// Why the logs of the replicas do not join; `None` where they do.
fn why_not<K: OneValue>(alloc: Global, ends: &[Replica<K>]) -> Option<JoinFault>
    requires distinct { AreDistinct ends.now }
    ensures { IsWhyNot K.form ends.now result }
{
    match join_logs(alloc, ends) {
        Ok(_world) => None,
        Err(fault) => Some(fault),
    }
}

/// `unexplained R E`
fn unexplained_line(alloc: Global, replica: Author, event: usize) -> Result<String, AllocError>
    ensures { IfOk result (λ line. string_bytes line ≡ unexplained_text replica event) }
{
    format!(in alloc; "unexplained {replica} {event}\n")
}

/// `joined`, and what each of them holds.
fn joined_text<K: Knowledge>(alloc: Global, ends: &[Replica<K>]) -> Result<String, AllocError>
    ensures { IfOk result (λ text. string_bytes text ≡ told_text ends.now) }
{
    let mut text = String::from_str(alloc, "joined\n")?;
    for end in ends {
        push_held(alloc, &mut text, end)?;
    }
    Ok(text)
}

/// Adds the heads and the push-outs of a replica, each in a line.
fn push_held<K: Knowledge>(
    alloc: Global,
    text: &mut String,
    end: &Replica<K>,
) -> Result<(), AllocError>
    ensures { OnOk result (string_bytes text.new ≡ string_bytes text.old ++ held_text end.now) }
{
    text.push_str(heads_line(alloc, end.id(), end.heads())?.as_str())?;
    text.push_str(push_outs_line(alloc, end.id(), end.push_outs())?.as_str())
}
