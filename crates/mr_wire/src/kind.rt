//! Formats and kinds of frames, as bytes.
ghost use Rattle.std.specs.Prelude.{◌≡◌};
ghost use Rattle.mr_wire.specs.Kinds.{kind_byte, kind_of_byte};

/// The format that is written, with all kinds.
pub const FORMAT: u8 = 2;

/// The format before it, without receipts, which is still read.
pub(crate) const FORMAT_WITHOUT_RECEIPTS: u8 = 1;

/// What a frame is: a request, a record by its body, or a receipt.
#[derive(Clone, Copy, Debug, PartialEq, Eq)]
pub enum Kind {
    Ask,
    Start,
    Item,
    MoveOut,
    Held,
    Know,
    End,
    Receipt,
}

impl Kind {
    /// The kind's byte, 0 to 7.
    pub fn byte(self) -> u8
        ensures { result ≡ kind_byte self }
    {
        match self {
            Kind::Ask => 0,
            Kind::Start => 1,
            Kind::Item => 2,
            Kind::MoveOut => 3,
            Kind::Held => 4,
            Kind::Know => 5,
            Kind::End => 6,
            Kind::Receipt => 7,
        }
    }

    /// The kind of this byte in a format, 1 or 2, if there is one: 0 to 7 in format 2, and 0 to 6 in format 1.
    pub fn from_byte(format: u8, byte: u8) -> Option<Kind>
        ensures { result ≡ kind_of_byte format byte }
    {
        match byte {
            0 => Some(Kind::Ask),
            1 => Some(Kind::Start),
            2 => Some(Kind::Item),
            3 => Some(Kind::MoveOut),
            4 => Some(Kind::Held),
            5 => Some(Kind::Know),
            6 => Some(Kind::End),
            7 if format != FORMAT_WITHOUT_RECEIPTS => Some(Kind::Receipt),
            _ => None,
        }
    }
}
