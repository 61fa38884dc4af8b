//! Whether an answer is the expected one.
use crate::many::ANY;

/// Whether each byte is as expected.
pub fn is_expected(answer: &[u8], expected: &[u8]) -> bool {
    answer.len() == expected.len()
        && answer
            .iter()
            .zip(expected)
            .all(|(byte, wanted)| byte == wanted || *wanted == ANY)
}
