//! What goes through an inbox.
ghost use Rattle.std.specs.Prelude.{◌≡◌};

use crate::piece::Piece;

/// Who sends letters to an inbox.
#[derive(Clone, Copy, Debug, PartialEq, Eq)]
pub enum Sender {
    /// The user, sender 0.
    User,
    /// The first link, sender 1.
    FirstLink,
    /// The second link, sender 2.
    SecondLink,
}

impl Sender {
    ghost use Rattle.mr_lane.specs.Note.{sender_number};

    /// The sender's number, 0 to 2.
    pub fn number(self) -> u8
        ensures { result ≡ sender_number self }
    {
        match self {
            Sender::User => 0,
            Sender::FirstLink => 1,
            Sender::SecondLink => 2,
        }
    }
}

/// A letter or the end mark of a sender.
#[derive(Drop)]
pub struct Note<T> {
    pub sender: Sender,
    pub piece: Piece<T>,
}
