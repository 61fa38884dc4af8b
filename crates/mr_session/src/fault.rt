//! Why a session does not take a record.
ghost use Rattle.std.specs.Prelude.{◌≡◌};

use thiserror::Error;

/// Why a session does not take a record.
#[derive(Clone, Copy, Debug, PartialEq, Eq, Error)]
pub enum SessionFault {
    /// The session is not bound to a stream, and the record is no Start.
    #[error("not a start: the session waits for a stream's first record")]
    NotStart,
    /// The record is of another stream than the session is bound to.
    #[error("other stream: the session takes the records of one stream alone")]
    OtherStream,
    /// The session has taken a record with this index already.
    #[error("repeated: the session has taken this record already")]
    Repeated,
    /// The session has not yet taken the record before this one.
    #[error("gap: the session has not taken the record before this one")]
    Gap,
}

impl SessionFault {
    ghost use Rattle.mr_session.specs.Fault.{fault_number};

    /// The fault's number: 13 to 16.
    pub fn number(self) -> u8
        ensures { result ≡ fault_number self }
    {
        match self {
            SessionFault::NotStart => 13,
            SessionFault::OtherStream => 14,
            SessionFault::Repeated => 15,
            SessionFault::Gap => 16,
        }
    }
}
