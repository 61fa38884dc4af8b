//! What a link does in its turns, and why it may stop.
use mr_version::Version;

/// What a link does, one after the other.
#[derive(Debug, Drop)]
pub enum Turn {
    /// Asks the other node, and takes what it tells: it posts Pull, sends the request, and posts Receive for each
    /// frame that comes, until the stream's last record was taken.
    Pull,
    /// Tells the other node what it asks for: it reads a request, posts Answer, and then Next, and sends each record,
    /// until the stream's last.
    Serve,
    /// Gives the other node receipts for these versions: it posts Vouch for each, and sends its receipt.
    Grant(Vec<Version>),
    /// Takes so many receipts of the other node: it posts Release for each.
    Redeem(u64),
}

/// Why a link stopped before its turns were over.
#[derive(Clone, Copy, Debug, PartialEq, Eq)]
pub enum Stop {
    /// A letter was refused.
    Refused,
    /// A frame could not be sent, since the link was down.
    NotSent,
    /// A frame did not come, since the link was down.
    NotReceived,
    /// What came is no frame, or none that the turn reads.
    BadFrame,
    /// The gate did not let a record pass.
    Shut,
}
