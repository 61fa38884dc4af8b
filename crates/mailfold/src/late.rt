//! A folder that is opened once its talk needs more than what is noted of it.
ghost use Rattle.std.specs.Prelude.{option_copied};
ghost use Rattle.mr_talk.specs.Host.{Greets, Meets};
ghost use Rattle.mailfold.specs.Late.{TalksAsWithin};

use mr_sync::{Hellos, idle_answer};
use mr_talk::{Hello, Host, HostFault};

/// What opens a folder for its talk.
pub trait Opens<H: Host + Drop> {
    /// The folder as it talks. It is called once.
    fn open(&mut self) -> Result<H, HostFault>;
}

/// A folder that is open, or will be as soon as it has to.
#[derive(Drop)]
pub struct Late<H: Host + Drop, O: Opens<H> + Drop> {
    pub opener: O,
    /// The folder, once it is open.
    pub host: Option<H>,
    /// The hellos of talks with nothing to tell that are noted of the folder as it is.
    pub talks: Vec<Hellos>,
    /// What the other side said, if that was answered by the note.
    theirs: Option<Hello>,
}

impl<H: Host + Drop, O: Opens<H> + Drop> Late<H, O> {
    /// One that is open, or one that isn't and of which these talks are noted.
    pub fn new(opener: O, host: Option<H>, talks: Vec<Hellos>) -> Late<H, O> {
        Late {
            opener,
            host,
            talks,
            theirs: None,
        }
    }

    /// The folder, which is opened if it isn't open.
    pub fn opened(&mut self) -> Result<&mut H, HostFault> {
        let host = match self.host.take() {
            Some(host) => host,
            None => self.open()?,
        };
        Ok(self.host.insert(host))
    }

    /// The folder, just opened, which has met the other side where that was answered by the note.
    fn open(&mut self) -> Result<H, HostFault> {
        let mut host = self.opener.open()?;
        if let Some(theirs) = &self.theirs {
            host.meet(theirs)?;
        }
        Ok(host)
    }

    /// What the folder says of itself.
    pub fn hello(&mut self, theirs: Option<&Hello>) -> Result<Hello, HostFault>
        ensures { TalksAsWithin H.steps self.old.host (Greets (option_copied theirs.entry) result) self.new.host }
    {
        if let Some(host) = &mut self.host {
            return host.hello(theirs);
        }
        match self.noted_hello(theirs) {
            Some(mine) => Ok(mine),
            None => self.opened()?.hello(theirs),
        }
    }

    /// Whether there is nothing to tell to this side.
    pub fn meet(&mut self, theirs: &Hello) -> Result<bool, HostFault>
        ensures { TalksAsWithin H.steps self.old.host (Meets theirs.now result) self.new.host }
    {
        if let Some(host) = &mut self.host {
            return host.meet(theirs);
        }
        if self.noted_hello(Some(theirs)).is_some() {
            self.theirs = Some(*theirs);
            return Ok(true);
        }
        self.opened()?.meet(theirs)
    }

    /// What a folder that isn't open says to the other side, or to one that hasn't said anything yet, if a noted talk tells it.
    fn noted_hello(&self, theirs: Option<&Hello>) -> Option<Hello> {
        match theirs {
            Some(theirs) => idle_answer(&self.talks, theirs),
            None => Some(self.talks.first()?.first()),
        }
    }
}
