//! How far a command is, for a terminal: a line that each next text takes the place of, and that goes at the end.
ghost use Rattle.std.specs.Prelude.{◌↔◌, ◌≤◌, ◌+◌, IsTrue};

use mr_sync::Summary;
use std::time::Clock;

/// How many seconds a line stands at least.
const SECONDS: u64 = 1;

/// Shows what is being done. Nothing is shown where nobody watches, and a line that can't be shown is lost.
pub fn show_step<R: Eprint>(rt: &R, is_watched: bool, text: &str) {
    if is_watched {
        let _ = eprint!(rt; "{text}\u{1b}[K\r");
    }
}

/// Takes the line away, for what is told next.
pub fn clear_step<R: Eprint>(rt: &R, is_watched: bool) {
    show_step(rt, is_watched, "");
}

/// When a line was shown last, and whether lines are shown at all.
#[derive(Drop)]
pub struct Ticker<'a, R> {
    rt: &'a R,
    is_watched: bool,
    /// When the last line was shown, in seconds of the monotonic clock; at the beginning 0.
    last: u64,
}

impl<'a, R: Eprint + Clock> Ticker<'a, R> {
    /// One that has shown nothing yet.
    pub fn new(rt: &'a R, is_watched: bool) -> Ticker<'a, R> {
        Ticker {
            rt,
            is_watched,
            last: 0,
        }
    }

    /// Shows how far a talk is, at most once a second.
    pub fn show(&mut self, summary: &Summary) {
        if !self.is_watched {
            return;
        }
        if let Ok(now) = self.rt.monotonic()
            && is_due(self.last, now.as_secs())
        {
            self.last = now.as_secs();
            show_talk(self.rt, summary);
        }
    }
}

/// Whether a line that was shown at this second has stood for long enough.
pub(crate) fn is_due(last: u64, now: u64) -> bool
    ensures { IsTrue result ↔ (last + 1 ≤ now) }
{
    now.saturating_sub(last) >= SECONDS
}

/// Shows what came and went so far.
fn show_talk<R: Eprint>(rt: &R, summary: &Summary) {
    let Summary {
        told,
        taken,
        files_sent,
        files_came,
        ..
    } = *summary;
    let _ = eprint!(rt;
        "sync: versions: {told} told, {taken} taken; files: {files_sent} sent, {files_came} came\u{1b}[K\r"
    );
}
