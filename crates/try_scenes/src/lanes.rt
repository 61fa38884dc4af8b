//! Both ends of a link over lanes by themselves, in one thread or in two.
ghost use Rattle.std.specs.Prelude.{◌≡◌};
ghost use Rattle.mr_link.specs.LaneLink.{SameEnd};

use crate::strange_link::{receive_over, send_over};
use crate::words::{fault_line, next_word, read_count, words};
use anyhow::{Context, Result, bail};
use mr_lane::LaneFault;
use mr_link::{LaneLink, Link, LinkFault, lane_link, link_settle};
use std::alloc::{AllocError, Global};
use std::str::SplitWhitespace;
use std::sync::Wait;
use std::thread;
use std::thread::Threads;

/// How many pieces may wait between two threads.
const PLACES: usize = 2;

/// How many pieces were sent.
#[derive(Clone, Copy)]
enum Sent {
    All,
    Some(usize),
}

/// Both ends of a link, where there is one.
#[derive(Drop)]
pub struct LaneEnds<L> {
    here: Option<L>,
    there: Option<L>,
}

impl<L> LaneEnds<L> {
    /// No link.
    pub fn none() -> LaneEnds<L> {
        LaneEnds {
            here: None,
            there: None,
        }
    }
}

/// `lanes N`: a new link with so many places.
pub fn open<R: Wait + Copy>(
    rt: &R,
    alloc: Global,
    ends: &mut LaneEnds<LaneLink<R>>,
    line: &str,
) -> Result<String> {
    match put_both(ends, lane_link(*rt, alloc, read_count(line)?)) {
        Ok(()) => Ok(String::new(alloc)),
        Err(fault) => fault_line(alloc, fault.number(), &fault),
    }
}

/// Puts both ends there, where they were made.
fn put_both<L: Drop>(
    ends: &mut LaneEnds<L>,
    made: Result<(L, L), LaneFault>,
) -> Result<(), LaneFault> {
    let (here, there) = made?;
    ends.here = Some(here);
    ends.there = Some(there);
    Ok(())
}

/// `by here|there sends HEX`, `.. receives`, or `.. hangs`.
pub fn by<R: Wait + Copy>(
    alloc: Global,
    ends: &mut LaneEnds<LaneLink<R>>,
    who: &str,
    mut words: SplitWhitespace<'_>,
) -> Result<String> {
    let end = if who == "here" {
        &mut ends.here
    } else {
        &mut ends.there
    };
    match next_word(&mut words)? {
        "sends" => {
            let bytes = hex::decode(alloc, words.next().unwrap_or(""))?;
            sent_line(alloc, send_over(end, alloc, &bytes))
        }
        "receives" => received_line(alloc, &receive_over(end, alloc)),
        "hangs" => hang_up(alloc, end),
        _ => bail!("no end of a link does that"),
    }
}

/// Hangs up, and tells how often that end found the link down.
fn hang_up<R: Wait + Copy>(alloc: Global, end: &mut Option<LaneLink<R>>) -> Result<String> {
    let lane = end.as_mut().context("no link")?;
    lane.hang_up();
    let downs = lane.downs();
    Ok(format!(in alloc; "downs {downs}\n")?)
}

/// The answer to a send: nothing where it was sent.
fn sent_line(alloc: Global, sent: Result<(), LinkFault>) -> Result<String> {
    match sent {
        Ok(()) => Ok(String::new(alloc)),
        Err(fault) => fault_line(alloc, fault.number(), &fault),
    }
}

/// The answer to a receive.
fn received_line(alloc: Global, received: &Result<Vec<u8>, LinkFault>) -> Result<String> {
    match received {
        Ok(piece) => {
            let bytes = hex::encode(alloc, piece.as_slice())?;
            Ok(format!(in alloc; "came {bytes}\n")?)
        }
        Err(fault) => fault_line(alloc, fault.number(), fault),
    }
}

/// `pieces N M`: one end sends N pieces of one byte and hangs up, the other receives M and hangs up, in two threads.
pub fn pieces<R: Threads + Wait + Sync + Send + Copy>(
    rt: &R,
    alloc: Global,
    line: &str,
) -> Result<String> {
    let mut words = words(line);
    let sends = u8::try_from(read_count(next_word(&mut words)?)?)?;
    let receives = read_count(next_word(&mut words)?)?;
    let (here, there) = lane_link(*rt, alloc, PLACES)?;
    let ((here, sent), (there, came)) = cross(rt, alloc, here, there, sends, receives);
    link_settle(here, there);
    pieces_text(alloc, sent, came?.as_slice())
}

/// One end sends and the other receives, each in a thread of its own.
fn cross<R: Threads + Wait + Sync + Send + Copy>(
    rt: &R,
    alloc: Global,
    here: LaneLink<R>,
    there: LaneLink<R>,
    sends: u8,
    receives: usize,
) -> (
    (LaneLink<R>, Sent),
    (LaneLink<R>, Result<Vec<u8>, AllocError>),
)
    requires here { here.tells.downs ≡ 0 }
    requires there { there.tells.downs ≡ 0 }
    ensures here { SameEnd here result.0.0 }
    ensures there { SameEnd there result.1.0 }
{
    thread::join(
        rt,
        move || -> (LaneLink<R>, Sent)
            requires { here.tells.downs ≡ 0 }
            ensures { SameEnd here result.0 }
        { send_all(alloc, here, sends) },
        move || -> (LaneLink<R>, Result<Vec<u8>, AllocError>)
            requires { there.tells.downs ≡ 0 }
            ensures { SameEnd there result.0 }
        { receive_some(alloc, there, receives) },
    )
}

/// Whether all were sent or only as many as came and had places, and what came. How many of the latter were sent differs
/// from run to run.
fn pieces_text(alloc: Global, sent: Sent, came: &[u8]) -> Result<String> {
    let count = came.len();
    let in_order = came
        .iter()
        .zip(0..=255u8)
        .all(|(byte, wanted)| *byte == wanted);
    let most = count.saturating_add(PLACES);
    let all = match sent {
        Sent::All => "all",
        Sent::Some(some) if count <= some && some <= most => "some",
        Sent::Some(_) => "too many",
    };
    let order = if in_order { "in order" } else { "mixed" };
    Ok(format!(in alloc; "{all} sent, {count} came, {order}\n")?)
}

/// Sends pieces of one byte, from 0 on, until so many were sent or the link is down, and hangs up.
fn send_all<R: Wait + Copy>(alloc: Global, mut link: LaneLink<R>, count: u8) -> (LaneLink<R>, Sent)
    requires { link.tells.downs ≡ 0 }
    ensures { SameEnd link result.0 }
{
    for byte in 0..count {
        if link.send(alloc, &[byte]).is_err() {
            return (link, Sent::Some(usize::from(byte)));
        }
    }
    link.hang_up();
    (link, Sent::All)
}

/// Receives so many pieces, or until the link is down, and hangs up. All bytes that came.
fn receive_some<R: Wait + Copy>(
    alloc: Global,
    mut link: LaneLink<R>,
    count: usize,
) -> (LaneLink<R>, Result<Vec<u8>, AllocError>)
    requires { link.tells.downs ≡ 0 }
    ensures { SameEnd link result.0 }
{
    let mut all = Vec::new(alloc);
    let came = receive_into(alloc, &mut link, &mut all, count);
    link.hang_up();
    (link, came.map(|()| all))
}

/// Adds the bytes of so many pieces, or of those that come until the link is down.
fn receive_into<R: Wait + Copy>(
    alloc: Global,
    link: &mut LaneLink<R>,
    all: &mut Vec<u8>,
    count: usize,
) -> Result<(), AllocError>
    requires { link.old.tells.downs ≡ 0 }
    ensures { SameEnd link.old link.new }
{
    for _ in 0..count {
        match link.receive(alloc) {
            Ok(piece) => all.extend_from_slice(&piece)?,
            Err(_) => return Ok(()),
        }
    }
    Ok(())
}
