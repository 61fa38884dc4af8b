//! Tokens: what a packed frame is spelled with.
ghost use Rattle.std.specs.Prelude.{IfSome, IfNone};
ghost use Rattle.mr_talk.specs.inner.Packed.{BeginsWith, IsNoToken, meaning};

/// What one token stands for. Its first byte tells of which sort it is and how long.
#[derive(Clone, Copy)]
pub(crate) enum Token<'a> {
    /// The frame is whole: 0.
    End,
    /// So many bytes from the place in the frame before: 1 to 63.
    Copy(usize),
    /// The bytes that follow: 64 to 127 for 1 to 64 of them.
    Literal(&'a [u8]),
    /// Two hexadecimal digits for each byte that follows: 128 to 191 for 1 to 64 of them.
    Digits(&'a [u8]),
    /// Another place in the frame before, so far from 31 bytes back: 192 to 254 for 0 to 62.
    Move(usize),
    /// The bytes that follow, behind their number in four bytes: 255.
    Long(&'a [u8]),
}

/// The token at the front of the bytes, and how many of them it takes.
pub(crate) fn read_token(bytes: &[u8]) -> Option<(Token<'_>, usize)>
    ensures found { IfSome result (λ found. BeginsWith bytes.now (meaning found.0) found.1) }
    ensures none { IfNone result (IsNoToken bytes.now) }
{
    let [head, rest @ ..] = bytes else {
        return None;
    };
    let head = *head as usize;
    match head {
        0 => Some((Token::End, 1)),
        1..=63 => Some((Token::Copy(head), 1)),
        64..=127 => {
            let bytes = rest.get(..head - 63)?;
            Some((Token::Literal(bytes), head - 62))
        }
        128..=191 => {
            let bytes = rest.get(..head - 127)?;
            Some((Token::Digits(bytes), head - 126))
        }
        192..=254 => Some((Token::Move(head - 192), 1)),
        _ => {
            let (size, rest) = rest.split_first_chunk::<4>()?;
            let size = u32::from_be_bytes(*size) as usize;
            let bytes = rest.get(..size)?;
            Some((Token::Long(bytes), 5 + size))
        }
    }
}
