//! Lanes, links and machines by themselves.
use crate::inbox::Inbox;
use crate::lanes::LaneEnds;
use crate::tap::TapEnds;
use crate::words::{next_word, words};
use crate::{inbox, lanes, tap};
use anyhow::{Context, Result, bail};
use mr_link::LaneLink;
use std::alloc::Global;
use std::sync::Wait;

/// What `by` finds: both ends of a link, an inbox, and a tap.
#[derive(Drop)]
pub struct Parts<R> {
    pub lanes: LaneEnds<LaneLink<R>>,
    pub inbox: Option<Inbox>,
    pub tap: Option<TapEnds<R>>,
}

impl<R> Parts<R> {
    /// None of them.
    pub fn none() -> Parts<R> {
        Parts {
            lanes: LaneEnds::none(),
            inbox: None,
            tap: None,
        }
    }
}

/// `by WHO DOES ..`: what an end of a link, an inbox or a tap does.
pub fn by<R: Wait + Copy>(
    rt: &R,
    alloc: Global,
    parts: &mut Parts<R>,
    line: &str,
) -> Result<String> {
    let mut words = words(line);
    let who = next_word(&mut words)?;
    match who {
        "here" | "there" => lanes::by(alloc, &mut parts.lanes, who, words),
        "user" | "first" | "second" | "desk" => {
            inbox::by(
                rt,
                alloc,
                parts.inbox.as_mut().context("no inbox")?,
                who,
                words,
            )
        }
        "spout" | "tap" => tap::by(alloc, parts.tap.as_mut().context("no tap")?, who, words),
        _ => bail!("nobody of that name: {who}"),
    }
}

/// `settle inbox` or `settle tap`: puts the ends together again.
pub fn settle<R: Wait + Copy>(alloc: Global, parts: &mut Parts<R>, line: &str) -> Result<String> {
    match line {
        "inbox" => inbox::settle(alloc, &mut parts.inbox),
        "tap" => tap::settle(alloc, &mut parts.tap),
        _ => bail!("an inbox settles, or a tap"),
    }
}
