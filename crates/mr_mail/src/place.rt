//! Places: where messages belong.
ghost use Rattle.std.specs.Prelude.{◌≡◌, ◌<◌, ◌≤◌};
ghost use Rattle.mr_mail.specs.Label.{IsLabelSet};

use crate::day::Day;
use crate::flags::Flags;
use crate::label::Label;
use std::marker::Model;

/// Where a message belongs: its labels, flags and day. The labels are in rising order, each once, and at most 16;
/// they take one piece of memory together.
#[derive(Debug, Drop)]
pub struct Place {
    labels: Vec<Label>,
    flags: Flags,
    day: Day,
}

impl Model for Place {
    ghost use Rattle.mr_mail.specs.Mail.{MailCard, card_code, IsCard};

    ghost Value = { MailCard };

    ghost coded = { card_code };

    ghost view = { λ p. record { labels = p.labels.items; flags = p.flags; day = p.day } };

    ghost invariant = { λ p. IsCard (record { labels = p.labels.items; flags = p.flags; day = p.day }) };
}

impl Place {
    /// The place with these parts.
    pub fn new(labels: Vec<Label>, flags: Flags, day: Day) -> Place
        requires { IsLabelSet labels.items }
        ensures { result ≡ record { labels = labels.items; flags = flags; day = day } }
    {
        // the flags and the day are in their ranges
        let _bits = flags.bits();
        let _days = day.days();
        Place { labels, flags, day }
    }

    /// The labels, in rising order of their bytes.
    pub fn labels(&self) -> &[Label]
        ensures value { result.now ≡ self.now.labels }
        ensures kept { IsLabelSet self.now.labels }
    {
        self.labels.as_slice()
    }

    /// The flags.
    pub fn flags(&self) -> Flags
        ensures value { result ≡ self.now.flags }
        ensures kept { self.now.flags ≤ 31 }
    {
        self.flags
    }

    /// The day.
    pub fn day(&self) -> Day
        ensures value { result ≡ self.now.day }
        ensures kept { self.now.day < 65536 }
    {
        self.day
    }
}
