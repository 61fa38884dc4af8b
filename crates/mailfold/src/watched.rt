//! A folder that talks while somebody watches how far it is.
ghost use Rattle.std.specs.Prelude.{◌≡◌, false, option_map, unwrap_or};
ghost use Rattle.mailfold.specs.Late.{KeepsWithin, TalksAsWithin, within_on, within_step, within_still};

use crate::late::{Late, Opens};
use crate::progress::Ticker;
use mr_folder::FileTree;
use mr_journal::Device;
use mr_sync::{FolderHost, Summary};
use mr_talk::{Hello, Host, HostFault, Message, Short, Turn};
use std::time::Clock;

/// What knows how much came and went so far.
pub trait Counts {
    fn counts(&self) -> Summary;
}

impl<D: Device + Drop, F: FileTree + Drop> Counts for FolderHost<D, F> {
    fn counts(&self) -> Summary {
        self.summary()
    }
}

/// A host that shows how far it is. It talks as the one within, which is opened once it has to be. Of a folder that isn't open yet
/// no contract says what a call does.
#[derive(Drop)]
pub struct Watched<'a, R, H: Host + Drop, O: Opens<H> + Drop> {
    pub late: Late<H, O>,
    pub ticker: Ticker<'a, R>,
}

impl<R: Eprint + Clock, H: Host + Counts + Drop, O: Opens<H> + Drop> Watched<'_, R, H, O> {
    /// Shows how far the talk is, if it is time to.
    fn tick(&mut self)
        ensures { self.new.late ≡ self.old.late }
    {
        if let Some(host) = &self.late.host {
            let counts = host.counts();
            self.ticker.show(&counts);
        }
    }
}

impl<R: Eprint + Clock, H: Host + Counts + Drop, O: Opens<H> + Drop> Host for Watched<'_, R, H, O> {
    ghost steps = { λ w act v. TalksAsWithin H.steps w.late.host act v.late.host };

    ghost waits = { λ w. unwrap_or (option_map (λ h. H.waits h) w.late.host) false };

    ghost files_wait = { λ w. unwrap_or (option_map (λ h. H.files_wait h) w.late.host) false };

    ghost keeps = { λ w v. KeepsWithin H.keeps w.late.host v.late.host };

    ghost keeps_still = { λ w. within_still H.keeps H.keeps_still w.late.host };

    ghost keeps_on = { λ a b c first second. within_on H.keeps H.keeps_on a.late.host b.late.host c.late.host first second };

    ghost keeps_step = { λ old act new step. within_step H.steps H.keeps H.keeps_step old.late.host act new.late.host step };

    fn keep(&mut self) -> Result<(), HostFault> {
        match &mut self.late.host {
            Some(host) => host.keep(),
            None => Ok(()),
        }
    }

    fn keep_files(&mut self) -> Result<(), HostFault> {
        match &mut self.late.host {
            Some(host) => host.keep_files(),
            None => Ok(()),
        }
    }

    fn hello(&mut self, theirs: Option<&Hello>) -> Result<Hello, HostFault> {
        self.late.hello(theirs)
    }

    fn meet(&mut self, theirs: &Hello) -> Result<bool, HostFault> {
        self.late.meet(theirs)
    }

    fn ask(&mut self) -> Result<Vec<u8>, HostFault> {
        match &mut self.late.host {
            Some(host) => host.ask(),
            None => self.late.opened()?.ask(),
        }
    }

    fn next_message(&mut self, turn: Turn) -> Result<Option<Message>, HostFault> {
        self.tick();
        match &mut self.late.host {
            Some(host) => host.next_message(turn),
            None => self.late.opened()?.next_message(turn),
        }
    }

    fn done(&mut self, turn: Turn) -> Result<Option<Short>, HostFault> {
        match &mut self.late.host {
            Some(host) => host.done(turn),
            None => self.late.opened()?.done(turn),
        }
    }

    fn take_ask(&mut self, frame: &[u8]) -> Result<(), HostFault> {
        match &mut self.late.host {
            Some(host) => host.take_ask(frame),
            None => self.late.opened()?.take_ask(frame),
        }
    }

    fn take_file(&mut self, message: &Message) -> Result<(), HostFault> {
        let taken = match &mut self.late.host {
            Some(host) => host.take_file(message),
            None => self.late.opened()?.take_file(message),
        };
        self.tick();
        taken
    }

    fn take_missing(&mut self, digest: &[u8]) -> Result<(), HostFault> {
        match &mut self.late.host {
            Some(host) => host.take_missing(digest),
            None => self.late.opened()?.take_missing(digest),
        }
    }

    fn take_records(&mut self, frames: &[u8]) -> Result<(), HostFault> {
        let taken = match &mut self.late.host {
            Some(host) => host.take_records(frames),
            None => take_first_records(self.late.opened()?, frames),
        };
        self.tick();
        taken
    }

    fn take_wants(&mut self, digests: &[u8]) -> Result<(), HostFault> {
        match &mut self.late.host {
            Some(host) => host.take_wants(digests),
            None => self.late.opened()?.take_wants(digests),
        }
    }

    fn take_push_outs(&mut self, versions: &[u8]) -> Result<(), HostFault> {
        match &mut self.late.host {
            Some(host) => host.take_push_outs(versions),
            None => self.late.opened()?.take_push_outs(versions),
        }
    }

    fn take_receipts(&mut self, frames: &[u8]) -> Result<(), HostFault> {
        match &mut self.late.host {
            Some(host) => host.take_receipts(frames),
            None => self.late.opened()?.take_receipts(frames),
        }
    }

    fn take_done(&mut self, knows: &[u8]) -> Result<(), HostFault> {
        match &mut self.late.host {
            Some(host) => host.take_done(knows),
            None => self.late.opened()?.take_done(knows),
        }
    }
}

/// Takes records of a folder that was just opened: no file waits.
fn take_first_records<H: Host>(host: &mut H, frames: &[u8]) -> Result<(), HostFault> {
    host.keep_files()?;
    host.take_records(frames)
}
