//! Kinds of messages.
ghost use Rattle.std.specs.Prelude.{◌≡◌, ◌≤◌};
ghost use Rattle.mr_talk.specs.Kinds.{kind_byte, kind_of_byte, limit_of};

/// The bytes of a hello.
pub const HELLO_BYTES: u32 = 44;

/// The most bytes of frames in a message: those of the longest frame.
pub const MAX_FRAMES_BYTES: u32 = 8_388_612;

/// The most bytes of packed frames in a message: those of the longest frame, packed.
pub const MAX_PACKED_BYTES: u32 = 8_388_618;

/// The most bytes of a list of digests or of versions.
pub const MAX_LIST_BYTES: u32 = 2_097_152;

/// The most bytes of a file in a message.
pub const MAX_PIECE_BYTES: u32 = 65_536;

/// The most bytes of a fault: its number and its text.
pub const MAX_FAULT_BYTES: u32 = 1_024;

/// What a message says.
#[derive(Clone, Copy, Debug, PartialEq, Eq)]
pub enum Kind {
    /// Who speaks: a [`Hello`](crate::Hello).
    Hello,
    /// The called side's hello where there is nothing to tell: the talk is over.
    Idle,
    /// A mark of the other side's history, and the frame of a request.
    Ask,
    /// A file begins: its digest and its length.
    Begin,
    /// The next bytes of the file.
    Piece,
    /// The file is whole.
    End,
    /// A file that was wanted isn't here: its digest.
    Missing,
    /// Packed frames of records. The files that they name came before them, or are here, or are told as missing.
    Records,
    /// The digests of files that are lacking.
    Wants,
    /// The items and versions that wait for a receipt.
    PushOuts,
    /// Frames of receipts.
    Receipts,
    /// The turn is over, and something is open still.
    Turn,
    /// The turn is over, and nothing is open any more: the digest of what is known.
    Done,
    /// Why the talk ends here: a number and a text.
    Fault,
    /// A whole file: its bytes. Who takes it finds its digest, which the record that names the file tells.
    Whole,
}

impl Kind {
    /// The kind's byte, 1 to 15 in the order of the variants.
    pub fn byte(self) -> u8
        ensures { result ≡ kind_byte self }
    {
        match self {
            Kind::Hello => 1,
            Kind::Idle => 2,
            Kind::Ask => 3,
            Kind::Begin => 4,
            Kind::Piece => 5,
            Kind::End => 6,
            Kind::Missing => 7,
            Kind::Records => 8,
            Kind::Wants => 9,
            Kind::PushOuts => 10,
            Kind::Receipts => 11,
            Kind::Turn => 12,
            Kind::Done => 13,
            Kind::Fault => 14,
            Kind::Whole => 15,
        }
    }

    /// The kind of this byte, if there is one.
    pub fn from_byte(byte: u8) -> Option<Kind>
        ensures { result ≡ kind_of_byte byte }
    {
        match byte {
            1 => Some(Kind::Hello),
            2 => Some(Kind::Idle),
            3 => Some(Kind::Ask),
            4 => Some(Kind::Begin),
            5 => Some(Kind::Piece),
            6 => Some(Kind::End),
            7 => Some(Kind::Missing),
            8 => Some(Kind::Records),
            9 => Some(Kind::Wants),
            10 => Some(Kind::PushOuts),
            11 => Some(Kind::Receipts),
            12 => Some(Kind::Turn),
            13 => Some(Kind::Done),
            14 => Some(Kind::Fault),
            15 => Some(Kind::Whole),
            _ => None,
        }
    }

    /// The most bytes behind the length of a message of this kind.
    pub fn limit(self) -> u32
        ensures is { result ≡ limit_of self }
        ensures most { result ≤ MAX_PACKED_BYTES }
    {
        match self {
            Kind::Hello | Kind::Idle => HELLO_BYTES,
            Kind::Begin => 40,
            Kind::Piece | Kind::Whole => MAX_PIECE_BYTES,
            Kind::Missing => 32,
            Kind::Ask | Kind::Receipts => MAX_FRAMES_BYTES,
            Kind::Records => MAX_PACKED_BYTES,
            Kind::Wants | Kind::PushOuts => MAX_LIST_BYTES,
            Kind::End | Kind::Turn => 0,
            Kind::Done => 16,
            Kind::Fault => MAX_FAULT_BYTES,
        }
    }
}
