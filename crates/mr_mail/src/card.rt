//! Cards: what is told of a message where only its place counts.
ghost use Rattle.std.specs.Prelude.{◌≡◌, ◌<◌, ◌≤◌, IfOk};
ghost use Rattle.std.specs.Arc.{arc_value};
ghost use Rattle.mr_mail.specs.Label.{IsLabelSet};
ghost use Rattle.mr_mail.specs.Mail.{card_of, IsMail};

use crate::day::Day;
use crate::flags::Flags;
use crate::label::Label;
use crate::parts::Parts;
use crate::place::Place;
use std::alloc::{AllocError, Global};
use std::fmt::{self, Debug, Formatter, Write};
use std::marker::Model;
use std::sync::Arc;

/// A message's labels, flags and day. The labels are in rising order, each once, and at most 16.
///
/// A card takes no memory of its own: it is one more owner of its message's parts, which stay as long as the
/// message, a copy of it or a card of it is there.
#[derive(Drop)]
pub struct Card {
    parts: Arc<Parts, Global>,
}

impl Model for Card {
    ghost use Rattle.std.specs.Arc.{arc_value};
    ghost use Rattle.mr_mail.specs.Mail.{MailCard, card_code, card_of, IsMail};

    ghost Value = { MailCard };

    ghost coded = { card_code };

    ghost view = { λ c. card_of (arc_value c.parts) };

    ghost invariant = { λ c. IsMail (arc_value c.parts) };
}

impl Card {
    /// The card of a message of these parts.
    pub(crate) fn of(parts: Arc<Parts, Global>) -> Card
        requires { IsMail (arc_value parts) }
        ensures { result ≡ card_of (arc_value parts) }
    {
        Card { parts }
    }

    /// Labels, flags and day together, lent.
    pub fn place(&self) -> &Place
        ensures { result.now ≡ self.now }
    {
        self.parts.place()
    }

    /// The labels, in rising order of their bytes.
    pub fn labels(&self) -> &[Label]
        ensures value { result.now ≡ self.now.labels }
        ensures kept { IsLabelSet self.now.labels }
    {
        self.parts.place().labels()
    }

    /// The flags.
    pub fn flags(&self) -> Flags
        ensures value { result ≡ self.now.flags }
        ensures kept { self.now.flags ≤ 31 }
    {
        self.parts.place().flags()
    }

    /// The day.
    pub fn day(&self) -> Day
        ensures value { result ≡ self.now.day }
        ensures kept { self.now.day < 65536 }
    {
        self.parts.place().day()
    }

    /// An equal card, which shares the message's parts. It asks for no memory.
    pub fn copy(&self) -> Result<Card, AllocError>
        ensures { IfOk result (λ card. card ≡ self.now) }
    {
        Ok(Card {
            parts: Arc::try_clone(&self.parts)?,
        })
    }
}

/// A card prints its labels, flags and day.
impl Debug for Card {
    fn fmt<W: Write>(&self, f: &mut Formatter<W>) -> fmt::Result {
        f.debug_struct("Card")
            .field("labels", &self.labels())
            .field("flags", &self.flags())
            .field("day", &self.day())
            .finish()
    }
}
