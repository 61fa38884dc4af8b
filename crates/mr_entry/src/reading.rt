//! The parts of entries, as they stand at the front of bytes. They take no memory.
ghost use Rattle.std.specs.Prelude.{◌≡◌, true, false, MatchOption};
ghost use Rattle.std.specs.Option.{option_copied};
ghost use Rattle.std.specs.Int.{w16};
ghost use Rattle.std.specs.Str.{is_utf8};
ghost use Rattle.mr_wire.specs.Parts.{author_at};
ghost use Rattle.mr_wire.specs.Reading.{Gives, bytes_at, number_at};
ghost use Rattle.mr_entry.specs.Parts.{counted_bytes_at, filter_text_at, head_at};
ghost use Rattle.mr_entry.specs.inner.Seen.{head_seen};

use crate::head::{Birth, Mark};
use mr_version::Author;
use mr_wire::parts::Input;

/// A head whose text lies in the bytes that are read.
#[derive(Drop)]
pub(crate) struct HeadRead<'a> {
    pub(crate) id: Author,
    pub(crate) event_limit: u32,
    pub(crate) birth: Birth,
    pub(crate) mark: Mark,
    pub(crate) filter: &'a str,
}

/// A number of two bytes.
pub(crate) fn u16_in(input: &mut Input<'_>) -> Option<u16>
    ensures { Gives (number_at w16) input.old result input.new }
{
    let front = input.bytes(2)?;
    Some(u16::from_be_bytes([front[0], front[1]]))
}

/// An id.
fn author(input: &mut Input<'_>) -> Option<Author>
    ensures { Gives author_at input.old result input.new }
{
    let id = u16_in(input)?;
    Author::try_new(id).ok()
}

/// So many bytes.
fn array<const N: usize>(input: &mut Input<'_>) -> Option<[u8; N]>
    ensures { Gives (bytes_at N) input.old result input.new }
{
    let front = input.bytes(N)?;
    let mut bytes = [0u8; N];
    bytes.copy_from_slice(front);
    Some(bytes)
}

/// The text of these bytes, if they are UTF-8.
#[tactic(auto, using(mr_wire::proofs::MessageLemmas::no_text, mr_wire::proofs::MessageLemmas::is_text))]
fn text_of(bytes: &[u8]) -> Option<&str>
    ensures { MatchOption result (is_utf8 bytes.now ≡ false) (λ text. (text.now ≡ bytes.now) × (is_utf8 bytes.now ≡ true)) }
{
    match str::from_utf8(bytes) {
        Ok(text) => Some(text),
        Err(_) => None,
    }
}

/// Bytes behind their length.
pub(crate) fn counted_bytes<'a>(input: &mut Input<'a>) -> Option<&'a [u8]>
    ensures { Gives counted_bytes_at input.old (option_copied result) input.new }
{
    let len = input.u32()? as usize;
    input.bytes(len)
}

fn filter_text<'a>(input: &mut Input<'a>) -> Option<&'a str>
    ensures { Gives filter_text_at input.old (option_copied result) input.new }
{
    let bytes = counted_bytes(input)?;
    text_of(bytes)
}

/// A head behind the number of its format.
pub(crate) fn head_in<'a>(input: &mut Input<'a>) -> Option<HeadRead<'a>>
    ensures { Gives head_at input.old (head_seen result) input.new }
{
    let id = author(input)?;
    let event_limit = input.u32()?;
    let birth = array::<16>(input)?;
    let mark = array::<32>(input)?;
    let filter = filter_text(input)?;
    Some(HeadRead {
        id,
        event_limit,
        birth,
        mark,
        filter,
    })
}
