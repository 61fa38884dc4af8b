//! `ls`: the mail of a folder, a line each.
use crate::fault::Fault;
use crate::heads::{distinct_heads, is_deleted};
use crate::mail_file::header_of;
use mr_filter::Filter;
use mr_itemset::SparingKnowledge;
use mr_mail::Message;
use mr_maildir::{View, list_line};
use mr_replica::{Replica, Revision};
use std::fs::File;
use std::io::Write;
use std::rt::Files;

/// Writes a line for each head that the filter selects, or with none for each that isn't deleted; each with this end.
pub fn print_list<R: Files<File = File> + AllocGlobal, W: Write>(
    rt: &R,
    root: &str,
    replica: &Replica<SparingKnowledge>,
    filter: Option<&Filter>,
    end: &str,
    output: &mut W,
) -> Result<(), Fault> {
    for head in &distinct_heads(rt.alloc(), replica)? {
        if is_listed(filter, head.message()) {
            let line = line_of(rt, root, head)?;
            print_line(line.as_str(), end, output)?;
        }
    }
    Ok(())
}

/// Whether the filter selects the message, or with none whether it isn't deleted.
fn is_listed(filter: Option<&Filter>, message: &Message) -> bool {
    match filter {
        Some(filter) => filter.select(message),
        None => !is_deleted(message),
    }
}

/// The line of a head.
fn line_of<R: Files<File = File> + AllocGlobal>(
    rt: &R,
    root: &str,
    head: &Revision,
) -> Result<String, Fault> {
    let alloc = rt.alloc();
    let header = header_of(rt, root, head)?;
    let message = head.message();
    let view = View::of_place(alloc, message.place())?;
    Ok(list_line(alloc, head.version(), &view, message.day(), &header)?)
}

fn print_line<W: Write>(line: &str, end: &str, output: &mut W) -> Result<(), Fault> {
    write!(output, "{line}{end}").map_err(Fault::Output)
}
