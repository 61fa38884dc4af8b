//! What replica a journal is of.
ghost use Rattle.std.specs.Prelude.{◌≡◌, string_bytes};
ghost use Rattle.mr_entry.specs.Head.{IsHead};

use mr_version::Author;
use std::marker::Model;

/// The number of the format of entries, the one that is written and read.
pub const FORMAT: u16 = 1;

/// Bytes that are drawn when a journal is made, and tell it from another one of the same id.
pub type Birth = [u8; 16];

/// Bytes that tell the place of a journal: another one's are other bytes.
pub type Mark = [u8; 32];

/// What replica a journal is of: its id, its event limit and its filter's text, and by what the journal is told from
/// others.
#[derive(Debug, Drop)]
pub struct Head {
    id: Author,
    event_limit: u32,
    birth: Birth,
    mark: Mark,
    filter: String,
}

impl Model for Head {
    ghost use Rattle.std.specs.Prelude.{string_bytes};
    ghost use Rattle.mr_entry.specs.Head.{HeadParts, IsHead};

    ghost Value = { HeadParts };

    ghost view = { λ h. record { id = h.id; event_limit = h.event_limit; birth = h.birth; mark = h.mark; filter = string_bytes h.filter } };

    ghost invariant = { λ h. IsHead (record { id = h.id; event_limit = h.event_limit; birth = h.birth; mark = h.mark; filter = string_bytes h.filter }) };
}

impl Head {
    /// The head of a journal of a replica of this id, event limit and filter.
    pub fn new(id: Author, event_limit: u32, birth: Birth, mark: Mark, filter: String) -> Head
        ensures { result ≡ record { id = id; event_limit = event_limit; birth = birth; mark = mark; filter = string_bytes filter } }
    {
        // the id is below 64, and the filter is a text
        let _id = id.id();
        let _text = filter.as_str();
        Head {
            id,
            event_limit,
            birth,
            mark,
            filter,
        }
    }

    /// The replica's id.
    pub fn id(&self) -> Author
        ensures is { result ≡ self.now.id }
        ensures kept { IsHead self.now }
    {
        self.id
    }

    /// How many events it admits.
    pub fn event_limit(&self) -> u32
        ensures { result ≡ self.now.event_limit }
    {
        self.event_limit
    }

    /// What was drawn when the journal was made.
    pub fn birth(&self) -> Birth
        ensures { result ≡ self.now.birth }
    {
        self.birth
    }

    /// Where the journal was when it was made.
    pub fn mark(&self) -> Mark
        ensures { result ≡ self.now.mark }
    {
        self.mark
    }

    /// The text of the replica's filter.
    pub fn filter(&self) -> &str
        ensures { result.now ≡ self.now.filter }
    {
        self.filter.as_str()
    }
}
