//! How far a turn has come.
ghost use Rattle.std.specs.Prelude.{◌≡◌, [], OnOk};
ghost use Rattle.mr_node.specs.Saying.{is_end, is_last, opened_by};
ghost use Rattle.mr_node.specs.inner.Turn.{progress_of, advanced};

use crate::replica_machine::Answer;
use mr_replica::Reply;
use mr_threads::Halt;
use mr_wire::Body;

/// What a turn's first letter opened in the replica.
#[derive(Clone, Copy, Debug, PartialEq, Eq)]
pub enum Opened {
    /// Nothing.
    Nothing,
    /// The session of this number.
    Session(u64),
    /// The stream of this number.
    Stream(u64),
}

/// How many letters a turn has said, what its first one opened, and whether the stream's last record has come.
#[derive(Clone, Copy, Debug)]
pub(crate) struct Progress {
    pub said: usize,
    pub opened: Opened,
    pub over: bool,
}

impl Progress {
    /// Nothing was said.
    pub(crate) fn new() -> Progress
        ensures { result ≡ progress_of [] }
    {
        Progress {
            said: 0,
            opened: Opened::Nothing,
            over: false,
        }
    }

    /// Goes on by a letter that was answered so. More letters than a `usize` counts are not said.
    pub(crate) fn advance(&mut self, answer: &Answer) -> Result<(), Halt>
        ensures { OnOk result (self.new ≡ advanced self.old answer.now) }
    {
        let Some(said) = self.said.checked_add(1) else {
            return Err(Halt::OutOfMemory);
        };
        if self.said == 0 {
            self.opened = opened_by(answer);
        }
        self.over = self.over || is_last(answer);
        self.said = said;
        Ok(())
    }
}

/// What the answer says was opened.
fn opened_by(answer: &Answer) -> Opened
    ensures { result ≡ opened_by answer.now }
{
    match answer {
        Ok(reply) => match reply {
            Reply::Asked(ask) => Opened::Session(ask.session()),
            Reply::Streaming(stream) => Opened::Stream(*stream),
            _ => Opened::Nothing,
        },
        Err(_) => Opened::Nothing,
    }
}

/// Whether a stream's last record was taken, or given.
fn is_last(answer: &Answer) -> bool
    ensures { result ≡ is_last answer.now }
{
    match answer {
        Ok(reply) => match reply {
            Reply::Finished => true,
            Reply::Gave(record) => is_end(record.body()),
            _ => false,
        },
        Err(_) => false,
    }
}

/// Whether it is the body of a stream's last record.
fn is_end(body: &Body) -> bool
    ensures { result ≡ is_end body.now }
{
    matches!(body, Body::End)
}
