//! `status`: how a folder stands.
use crate::build::BUILD_LINE;
use crate::edited::tell_edited;
use crate::ending::Ending;
use crate::fault::Fault;
use crate::heads::count_mails;
use crate::passed_over::tell_passed_over;
use jiff::Timestamp;
use mr_compare::{Meeting, tally_of};
use mr_fold::{FoldFault, Looked, OpenFolder, StrayMails, look_if_changed, open};
use mr_itemset::SparingKnowledge;
use mr_maildir::printable;
use mr_replica::Replica;
use std::alloc::{AllocError, Global};
use std::collections::BTreeMap;
use std::fs::File;
use std::rt::Files;

/// Tells how the folder stands, in some lines or in one.
pub fn print_status<R: Files<File = File> + Print + Eprint + AllocGlobal + Clone + Drop>(
    rt: &R,
    root: &str,
    is_short: bool,
) -> Result<Ending, Fault> {
    let mut folder = open(rt, root)?;
    let ending = print_opened(rt, root, &mut folder, is_short);
    drop(folder);
    ending
}

fn print_opened<R: Files<File = File> + Print + Eprint + AllocGlobal + Clone + Drop>(
    rt: &R,
    root: &str,
    folder: &mut OpenFolder<R>,
    is_short: bool,
) -> Result<Ending, Fault> {
    let plan = plan_text(rt, root, folder)?;
    let text = if is_short {
        short_text(rt.alloc(), folder.kept.replica(), plan.as_str())?
    } else {
        long_text(rt.alloc(), folder, plan.as_str())?
    };
    let text = text.as_str();
    print!(rt; "{text}").map_err(Fault::Output)?;
    Ok(Ending::Done)
}

/// What a scan would do. What of the folder isn't shown is told on standard error.
fn plan_text<R: Files<File = File> + Eprint + AllocGlobal + Clone + Drop>(
    rt: &R,
    root: &str,
    folder: &mut OpenFolder<R>,
) -> Result<String, Fault> {
    match look_if_changed(rt, root, folder) {
        Ok(looked) => {
            let text = looked_text(rt, &looked);
            drop(looked);
            text
        }
        Err(FoldFault::PassedOver(mails)) => Ok(straying_text(rt.alloc(), mails)?),
        Err(fault) => Err(Fault::Folder(fault)),
    }
}

/// What a scan would do by what was seen.
fn looked_text<R: Eprint + AllocGlobal>(rt: &R, looked: &Looked) -> Result<String, Fault> {
    tell_passed_over(rt, &looked.passed_over)?;
    tell_edited(rt, looked.edited)?;
    let tally = tally_of(&looked.acts);
    Ok(format!(in rt.alloc(); "{tally}")?)
}

/// That a scan would do nothing, as it would delete these mails.
fn straying_text(alloc: Global, mails: StrayMails) -> Result<String, AllocError> {
    let text = format!(in alloc; "nothing, as {mails}")?;
    printable(alloc, text.as_str())
}

/// How many mails are held, and what a scan would do.
fn short_text(
    alloc: Global,
    replica: &Replica<SparingKnowledge>,
    plan: &str,
) -> Result<String, AllocError> {
    let mails = count_mails(alloc, replica)?;
    format!(in alloc; "{mails} mails; {plan}\n")
}

fn long_text<R>(alloc: Global, folder: &OpenFolder<R>, plan: &str) -> Result<String, AllocError> {
    let mut text = replica_text(alloc, folder.kept.replica())?;
    text.push_str(BUILD_LINE)?;
    text.push_str(format!(in alloc; "a scan would do: {plan}\n")?.as_str())?;
    text.push_str(meetings_text(alloc, &folder.meetings)?.as_str())?;
    Ok(text)
}

/// What replica it is, what it holds, and how full its log is.
fn replica_text(alloc: Global, replica: &Replica<SparingKnowledge>) -> Result<String, AllocError> {
    let id = replica.id().id();
    let filter = replica.filter().text()?;
    let filter = filter.as_str();
    let mails = count_mails(alloc, replica)?;
    let waiting = replica.push_outs().len();
    let (events, limit) = (replica.log().len(), replica.event_limit());
    format!(in alloc;
        "replica {id}, filter {filter}\n{mails} mails, {waiting} left the filter here and wait for a sync\n{events} of {limit} events\n"
    )
}

/// A line for each replica that was met.
fn meetings_text(alloc: Global, meetings: &BTreeMap<u16, Meeting>) -> Result<String, AllocError> {
    let mut text = String::new(alloc);
    for (id, meeting) in meetings {
        let time = time_text(alloc, meeting.time)?;
        let time = time.as_str();
        text.push_str(format!(in alloc; "met {id} at {time}\n")?.as_str())?;
    }
    Ok(text)
}

/// A time in seconds since 1970, as of RFC 3339; one that no calendar here has as its number.
fn time_text(alloc: Global, seconds: u64) -> Result<String, AllocError> {
    match timestamp(seconds) {
        Some(time) => format!(in alloc; "{time}"),
        None => format!(in alloc; "{seconds}"),
    }
}

fn timestamp(seconds: u64) -> Option<Timestamp> {
    let seconds = i64::try_from(seconds).ok()?;
    Timestamp::from_second(seconds).ok()
}
