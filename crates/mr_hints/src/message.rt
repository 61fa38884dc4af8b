//! Which limit a message breaks.
use crate::word::wrong_word;
use mr_command::LineFault;
use mr_mail::{MAX_BODY_BYTES, MAX_FROM_BYTES, MAX_LABELS, MAX_SUBJECT_BYTES};
use std::alloc::{AllocError, Global};

/// What is wrong with a message that is refused for the reason of this number.
pub(crate) fn refused_message(alloc: Global, line: &str, number: u8) -> Result<String, AllocError> {
    match number {
        1 => format!(in alloc; "the sender has more than {MAX_FROM_BYTES} bytes"),
        2 => format!(in alloc; "the subject has more than {MAX_SUBJECT_BYTES} bytes"),
        3 => format!(in alloc; "the body has more than {MAX_BODY_BYTES} bytes"),
        4 => wrong_word(alloc, line, LineFault::MessageRefused { number }),
        5 => format!(in alloc; "a message has at most {MAX_LABELS} different labels"),
        _ => format!(in alloc; "the message breaks limit {number}"),
    }
}
