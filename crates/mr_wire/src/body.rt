//! What stands behind the kind of a frame.
ghost use Rattle.std.specs.Prelude.{◌≡◌, IfSome, IsSomeAnd, None, Some};
ghost use Rattle.mr_wire.specs.Frames.{IsQuestion, IsSent, least_follows};
ghost use Rattle.mr_wire.specs.FrameParts.{ask_at, body_at, index_fits, record_at, frame_at, header_at, mode_at, receipt_at, serial_at};
ghost use Rattle.mr_wire.specs.Reading.{Gives, Finds};
ghost use Rattle.mr_wire.specs.inner.Bodies.{FindsAsked, asked_run};

use crate::descent::Descent;
use crate::filter::filter;
use crate::fragment::FrameFragment;
use crate::frame::{Ask, Body, Frame, Header, Mode, Receipt, Record};
use crate::input::Input;
use crate::items::{follows, fragment};
use crate::keep::{keep, room};
use crate::kind::Kind;
use crate::revision::{descent, revision};
use crate::vector::vector;
use mr_filter::Filter;
use mr_version::{Author, Version};
use std::alloc::Global;

/// The fewest bytes of a fragment that lists items: a tag, a count, an item, and the count of no columns.
const LISTED_FRAGMENT_BYTES: usize = 13;

/// The number of a stream or a session, from 1.
fn serial(input: &mut Input<'_>) -> Option<u64>
    ensures { Gives serial_at input.old result input.new }
{
    let number = input.u64()?;
    if number >= 1 { Some(number) } else { None }
}

fn header(input: &mut Input<'_>) -> Option<Header>
    ensures { Gives header_at input.old result input.new }
{
    let source = input.author()?;
    let stream = serial(input)?;
    let target = input.author()?;
    let session = serial(input)?;
    let index = input.u32()?;
    Some(Header {
        source,
        stream,
        target,
        session,
        index,
    })
}

fn mode(input: &mut Input<'_>) -> Option<Mode>
    ensures { Gives mode_at input.old result input.new }
{
    match input.u8()? {
        0 => Some(Mode::Partial),
        1 => Some(Mode::Full),
        _ => None,
    }
}

/// Whether a fragment with this least item may stand behind the one before it, if there is one.
fn least_may_follow(before: Option<Option<Version>>, least: &Option<Version>) -> bool
    ensures { result ≡ least_follows before least.now }
{
    match before {
        None => true,
        Some(before) => match least {
            None => false,
            Some(least) => follows(before, *least),
        },
    }
}

/// A fragment that may stand behind the one before it.
fn asked(
    input: &mut Input<'_>,
    memory: Option<Global>,
    before: Option<Option<Version>>,
) -> Option<(Option<FrameFragment>, Option<Version>)>
    ensures { FindsAsked before input.old result input.new }
{
    let (fragment, least) = fragment(input, memory)?;
    if !least_may_follow(before, &least) {
        return None;
    }
    Some((fragment, least))
}

/// So many fragments, in their order.
fn fragments(
    input: &mut Input<'_>,
    memory: Option<Global>,
    count: u32,
) -> Option<Option<Vec<FrameFragment>>>
    ensures { Finds (λ v. v.items) (asked_run count) input.old result input.new }
{
    let most = input.len() / LISTED_FRAGMENT_BYTES + 1;
    let mut fragments = room(memory, most.min(count as usize));
    let mut before = None;
    for _ in 0..count {
        let (fragment, least) = asked(input, memory, before)?;
        before = Some(least);
        keep(&mut fragments, fragment);
    }
    Some(fragments)
}

/// The request, where its parts are kept.
fn ask_of(
    memory: Option<Global>,
    target: Author,
    session: u64,
    filter: Option<Filter>,
    fragments: Option<Vec<FrameFragment>>,
) -> Option<Ask>
    requires { IfSome fragments (λ v. IsQuestion session v.items) }
    ensures { IfSome result (λ a. IsSomeAnd filter (λ f. IsSomeAnd fragments
        (λ v. a ≡ record { target = target; session = session; filter = f; fragments = v.items }))) }
{
    Ask::new(memory?, target, session, filter?, fragments?).ok()
}

/// A request: target, session, filter, a count of fragments, and those.
///
/// `None` where none stands at the front. It is kept where there is memory for it.
pub fn ask(input: &mut Input<'_>, memory: Option<Global>) -> Option<Option<Ask>>
    ensures { Finds (λ a. a) ask_at input.old result input.new }
{
    let target = input.author()?;
    let session = serial(input)?;
    let filter = filter(input, memory)?;
    let count = input.u32()?;
    let fragments = fragments(input, memory, count)?;
    Some(ask_of(memory, target, session, filter, fragments))
}

/// The record, where its body is kept.
fn record_of(header: Header, body: Option<Body>) -> Option<Record>
    requires { IfSome body (IsSent header) }
    ensures { IfSome result (λ r. IsSomeAnd body (λ b. r ≡ record { header = header; body = b })) }
{
    Some(Record::new(header, body?))
}

/// The body of a record of this kind, and none for what is no record.
fn record_body(input: &mut Input<'_>, memory: Option<Global>, kind: Kind) -> Option<Option<Body>>
    ensures { Finds (λ b. b) (body_at kind) input.old result input.new }
{
    match kind {
        Kind::Start => {
            let mode = mode(input)?;
            Some(Some(Body::Start(mode)))
        }
        Kind::Item => {
            let kept = revision(input, memory)?;
            Some(kept.map(Body::Item))
        }
        Kind::MoveOut => {
            let kept = descent(input, memory)?;
            Some(kept.map(Body::MoveOut))
        }
        Kind::Held => {
            let kept = vector(input, memory)?;
            Some(kept.map(Body::Held))
        }
        Kind::Know => {
            let (kept, _) = fragment(input, memory)?;
            Some(kept.map(Body::Know))
        }
        Kind::End => Some(Some(Body::End)),
        Kind::Ask | Kind::Receipt => None,
    }
}

/// Whether a record of this kind may have the index.
fn index_may_be(kind: Kind, index: u32) -> bool
    ensures { result ≡ index_fits kind index }
{
    match kind {
        Kind::Start => index == 0,
        _ => index >= 1,
    }
}

/// A record of this kind.
fn record(input: &mut Input<'_>, memory: Option<Global>, kind: Kind) -> Option<Option<Record>>
    ensures { Finds (λ r. r) (record_at kind) input.old result input.new }
{
    let header = header(input)?;
    if !index_may_be(kind, header.index) {
        return None;
    }
    let body = record_body(input, memory, kind)?;
    Some(record_of(header, body))
}

/// The receipt, where its parts are kept.
fn receipt_of(giver: Author, descent: Option<Descent>) -> Option<Receipt>
    ensures { IfSome result (λ r. IsSomeAnd descent (λ d. r ≡ record { giver = giver; descent = d })) }
{
    Some(Receipt {
        giver,
        descent: descent?,
    })
}

/// A receipt: giver, item, version, and what that supersedes.
///
/// `None` where none stands at the front. It is kept where there is memory for it.
pub fn receipt(input: &mut Input<'_>, memory: Option<Global>) -> Option<Option<Receipt>>
    ensures { Finds (λ r. r) receipt_at input.old result input.new }
{
    let giver = input.author()?;
    let descent = descent(input, memory)?;
    Some(receipt_of(giver, descent))
}

/// A frame of this kind, of which the bytes behind its kind byte are read.
///
/// `None` where none stands at the front. It is kept where there is memory for it.
pub fn frame(input: &mut Input<'_>, memory: Option<Global>, kind: Kind) -> Option<Option<Frame>>
    ensures { Finds (λ f. f) (frame_at kind) input.old result input.new }
{
    match kind {
        Kind::Ask => {
            let kept = ask(input, memory)?;
            Some(kept.map(Frame::Ask))
        }
        Kind::Receipt => {
            let kept = receipt(input, memory)?;
            Some(kept.map(Frame::Receipt))
        }
        _ => {
            let kept = record(input, memory, kind)?;
            Some(kept.map(Frame::Record))
        }
    }
}
