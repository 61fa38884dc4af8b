//! An inbox by itself: its three posts and its desk, in one thread.
ghost use Rattle.mr_lane.specs.Inbox.{ArePostsOf};

use crate::words::{fault_line, next_word, read_char, read_count};
use anyhow::{Result, bail};
use mr_lane::{Arrival, Desk, FinishFault, Posts, SendFault, Sender, SettleFault, inbox};
use std::alloc::{AllocError, Global};
use std::str::SplitWhitespace;
use std::sync::Wait;

/// The posts and the desk of one inbox, whose letters are characters.
#[derive(Drop)]
pub struct Inbox {
    posts: Posts<char>,
    desk: Desk<char>,
    ghost of_one: { ArePostsOf desk posts },
}

/// `inbox N`: a new inbox with so many places.
pub fn open(alloc: Global, place: &mut Option<Inbox>, line: &str) -> Result<String> {
    match inbox(alloc, read_count(line)?) {
        Ok((posts, desk)) => {
            *place = Some(Inbox { posts, desk });
            Ok(String::new(alloc))
        }
        Err(fault) => fault_line(alloc, fault.number(), &fault),
    }
}

/// `by user|first|second sends C`, `.. finishes`, and `by desk takes`.
pub fn by<R: Wait>(
    rt: &R,
    alloc: Global,
    inbox: &mut Inbox,
    who: &str,
    mut words: SplitWhitespace<'_>,
) -> Result<String> {
    match (who, next_word(&mut words)?) {
        ("desk", "takes") => Ok(arrived(alloc, inbox.desk.take(rt))?),
        ("desk", _) => bail!("no desk does that"),
        (_, "sends") => send(
            rt,
            alloc,
            inbox,
            sender(who)?,
            read_char(next_word(&mut words)?)?,
        ),
        (_, "finishes") => finish(rt, alloc, inbox, sender(who)?),
        _ => bail!("no post does that"),
    }
}

/// Whose post the word names.
fn sender(word: &str) -> Result<Sender> {
    match word {
        "user" => Ok(Sender::User),
        "first" => Ok(Sender::FirstLink),
        "second" => Ok(Sender::SecondLink),
        _ => bail!("no post: {word}"),
    }
}

/// What a send answers.
fn send<R: Wait>(
    rt: &R,
    alloc: Global,
    inbox: &mut Inbox,
    sender: Sender,
    letter: char,
) -> Result<String> {
    let sent = match sender {
        Sender::User => inbox.posts.user.send(rt, letter),
        Sender::FirstLink => inbox.posts.first_link.send(rt, letter),
        Sender::SecondLink => inbox.posts.second_link.send(rt, letter),
    };
    Ok(sent_line(alloc, &sent)?)
}

/// What a finish answers.
fn finish<R: Wait>(rt: &R, alloc: Global, inbox: &mut Inbox, sender: Sender) -> Result<String> {
    let finished = match sender {
        Sender::User => inbox.posts.user.finish(rt),
        Sender::FirstLink => inbox.posts.first_link.finish(rt),
        Sender::SecondLink => inbox.posts.second_link.finish(rt),
    };
    Ok(finished_line(alloc, &finished)?)
}

/// `settle`: whether the desk has heard all out, which uses the inbox up. One that has not is handed back.
pub fn settle(alloc: Global, place: &mut Option<Inbox>) -> Result<String> {
    let Some(Inbox { posts, desk }) = place.take() else {
        bail!("no inbox");
    };
    match desk.settle(posts) {
        Ok(()) => Ok(String::from_str(alloc, "settled\n")?),
        Err(fault) => {
            let told = fault_line(alloc, fault.number(), &fault);
            let SettleFault::NotFinished(desk, posts) = fault;
            *place = Some(Inbox { posts, desk });
            told
        }
    }
}

/// The answer to a send or an offer: nothing where it was sent.
pub fn sent_line(alloc: Global, sent: &Result<(), SendFault<char>>) -> Result<String, AllocError> {
    match sent {
        Ok(()) => Ok(String::new(alloc)),
        Err(SendFault::Full(letter)) => format!(in alloc; "full {letter}\n"),
        Err(SendFault::Ended(letter)) => format!(in alloc; "ended {letter}\n"),
    }
}

/// The answer to a finish or a close: nothing where it was done.
pub fn finished_line(
    alloc: Global,
    finished: &Result<(), FinishFault>,
) -> Result<String, AllocError> {
    match finished {
        Ok(()) => Ok(String::new(alloc)),
        Err(FinishFault::Full) => String::from_str(alloc, "full\n"),
    }
}

/// The answer to a take of the desk.
fn arrived(alloc: Global, arrival: Arrival<char>) -> Result<String, AllocError> {
    match arrival {
        Arrival::Letter(sender, letter) => {
            let number = sender.number();
            format!(in alloc; "{letter} of {number}\n")
        }
        Arrival::End(sender) => {
            let number = sender.number();
            format!(in alloc; "end of {number}\n")
        }
        Arrival::Empty => String::from_str(alloc, "empty\n"),
    }
}
