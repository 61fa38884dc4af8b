//! A small machine in real threads: two senders of numbers, one that asks for their sum, and two subscribers.
use crate::asker::Asker;
use crate::counter::{Counter, told_sum};
use crate::words::{next_count, words};
use anyhow::Result;
use mr_feed::Entry;
use mr_subs::{Index, UnseenVersions};
use mr_threads::{Letters, Machine, Roles, RolesEnd, RolesFault, run_roles};
use std::alloc::{AllocError, Global};
use std::sync::Wait;
use std::sync::atomic::AtomicBool;
use std::thread;
use std::thread::Threads;

/// What the threads run.
type Run = Roles<Counter, Letters<u32>, Letters<u32>, Asker>;

/// What they come to.
type RunEnd = RolesEnd<
    Counter,
    Option<u32>,
    Letters<u32>,
    Letters<u32>,
    Asker,
    Index,
    UnseenVersions,
>;

/// Why they come to nothing.
type RunFault = RolesFault<Counter, Letters<u32>, Letters<u32>, Asker>;

/// `machine PLACES N`: the user and the first link send N ones each, and the second link asks for the sum, over lanes of so
/// many places. What each was answered, and what the subscribers took.
pub fn run<R: Threads + Wait + Sync + Send + Copy>(
    rt: &R,
    alloc: Global,
    line: &str,
) -> Result<String> {
    let mut words = words(line);
    let places = next_count(&mut words)?;
    let count = next_count(&mut words)?;
    let ran = run_over(rt, alloc, new_run(alloc, count)?, places);
    ran_text(alloc, &ran)
}

/// Two senders of ones, and one that asks for the sum.
fn new_run(alloc: Global, count: usize) -> Result<Run, AllocError> {
    Ok(Roles {
        machine: Counter::new(alloc),
        user: ones(alloc, count)?,
        first_link: ones(alloc, count)?,
        second_link: Asker {
            heard: None,
            hung_up: false,
        },
    })
}

/// A sender of so many ones.
fn ones(alloc: Global, count: usize) -> Result<Letters<u32>, AllocError> {
    let mut letters = Vec::new(alloc);
    for _ in 0..count {
        letters.push(1)?;
    }
    Ok(Letters::new(alloc, letters))
}

/// Runs it over lanes of so many places.
fn run_over<R: Threads + Wait + Sync + Send + Copy>(
    rt: &R,
    alloc: Global,
    roles: Run,
    places: usize,
) -> Result<RunEnd, RunFault> {
    let given_up = AtomicBool::new(false);
    let flag = &given_up;
    thread::scope(
        thread::scope_env(),
        rt,
        |scope| -> Result<RunEnd, RunFault>
            ensures { Unit {0} }
        { run_roles(rt, scope, flag, alloc, roles, places) },
    )
}

/// What they came to, or the number of the fault and how many letters of the user are handed back.
fn ran_text(alloc: Global, ran: &Result<RunEnd, RunFault>) -> Result<String> {
    match ran {
        Ok(end) => end_text(alloc, end),
        Err(RolesFault::NoCapacity(roles)) => {
            let letters = roles.user.letters.len();
            Ok(format!(in alloc; "fault 1, letters {letters}\n")?)
        }
        Err(RolesFault::OutOfMemory) => Ok(String::from_str(alloc, "fault 0\n")?),
    }
}

/// What they came to.
fn end_text(alloc: Global, end: &RunEnd) -> Result<String> {
    let mut text = String::new(alloc);
    push_sums(&mut text, alloc, &end.user.replies, &end.first_link.replies)?;
    push_entries(&mut text, "feed", end.machine.feed())?;
    push_entries(&mut text, "indexer", &end.indexer.taken)?;
    push_entries(&mut text, "notifier", &end.notifier.taken)?;
    push_asker(
        &mut text,
        &end.second_link.speaker,
        &end.second_link.replies,
    )?;
    Ok(text)
}

/// How many sums were answered, whether those of each sender rise, and whether they are all from 1 on.
fn push_sums(
    text: &mut String,
    alloc: Global,
    user: &[Option<u32>],
    first_link: &[Option<u32>],
) -> Result<()> {
    let rising = if rise(user) && rise(first_link) {
        "rising"
    } else {
        "not rising"
    };
    let sums = sums(alloc, user, first_link)?;
    let count = sums.len();
    let whole = if sums.iter().zip(1..).all(|(sum, wanted)| *sum == wanted) {
        "from 1 on"
    } else {
        "with gaps"
    };
    write!(text, "{count} sums, {rising}, {whole}\n")?;
    Ok(())
}

/// Whether each answer is a larger sum than the one before.
fn rise(replies: &[Option<u32>]) -> bool {
    replies
        .iter()
        .zip(replies.iter().skip(1))
        .all(|(a, b)| a < b)
}

/// The sums that were answered, in order of size.
fn sums(
    alloc: Global,
    user: &[Option<u32>],
    first_link: &[Option<u32>],
) -> Result<Vec<u32>, AllocError> {
    let mut sums = Vec::new(alloc);
    for reply in user.iter().chain(first_link.iter()) {
        sums.push(reply.unwrap_or(0))?;
    }
    sums.sort()?;
    Ok(sums)
}

/// How many entries there are, and whether they tell of the sums from 1 on in order.
fn push_entries(text: &mut String, whose: &str, entries: &[Entry]) -> Result<(), AllocError> {
    let count = entries.len();
    let in_order = entries
        .iter()
        .zip(1..)
        .all(|(entry, sum)| told_sum(entry) == Some(sum));
    let order = if in_order { "in order" } else { "mixed" };
    write!(text, "{whose}: {count}, {order}\n")
}

/// Whether the one that asked heard the one answer that it was given, and hung up.
fn push_asker(text: &mut String, asker: &Asker, replies: &[Option<u32>]) -> Result<(), AllocError> {
    let count = replies.len();
    let heard = if replies.last() == Some(&asker.heard) {
        "heard"
    } else {
        "not heard"
    };
    let hung_up = if asker.hung_up {
        "hung up"
    } else {
        "not hung up"
    };
    write!(text, "asker: {count} answer, {heard}, {hung_up}\n")
}
