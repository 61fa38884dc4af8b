//! The lines of frames: their words with a space between each two.
ghost use Rattle.std.specs.Prelude.{◌≡◌, ◌++◌, IfOk, OnOk, codes, string_bytes};
ghost use Rattle.mr_script.specs.Frame.{IsAskLine, IsFrameLine, header_words, kind_word, line_of, piece_text, pieces_text, receipt_words, record_words, said_words, version_words, joined_words};
ghost use Rattle.mr_script.specs.inner.Frame.{after_spaces};

use crate::Grown;
use mr_concise::knowledge_text;
use mr_version::{ItemId, Version};
use mr_wire::{Ask, Body, Frame, FrameFragment, Header, Mode, Receipt, Record};
use std::alloc::Global;
use std::slice;

/// The frame's line, with its line feed.
pub(crate) fn frame_line(alloc: Global, frame: &Frame) -> Grown<String>
    ensures { IfOk result (λ line. IsFrameLine frame.now (string_bytes line)) }
{
    match frame {
        Frame::Ask(ask) => ask_line(alloc, ask),
        Frame::Record(record) => record_line(alloc, record),
        Frame::Receipt(receipt) => receipt_line(alloc, receipt),
    }
}

/// `ask target T session N knows KNOWLEDGE filter FILTER`
fn ask_line(alloc: Global, ask: &Ask) -> Grown<String>
    ensures { IfOk result (λ line. IsAskLine ask.now (string_bytes line)) }
{
    let knows = fragments_text(alloc, ask.fragments())?;
    let filter = ask.filter().text()?;
    let (target, session) = (ask.target(), ask.session());
    let (knows, filter) = (knows.as_str(), filter.as_str());
    format!(in alloc; "ask target {target} session {session} knows {knows} filter {filter}\n")
}

/// `receipt giver A version V of ITEM`
fn receipt_line(alloc: Global, receipt: &Receipt) -> Grown<String>
    ensures { IfOk result (λ line. string_bytes line ≡ line_of (receipt_words receipt.now)) }
{
    let giver = receipt.giver;
    let (version, item) = (receipt.descent.version(), receipt.descent.item().creator());
    format!(in alloc; "receipt giver {giver} version {version} of {item}\n")
}

/// The words of the header, and then what the record says.
fn record_line(alloc: Global, sent: &Record) -> Grown<String>
    ensures { IfOk result (λ line. string_bytes line ≡ line_of (record_words sent.now)) }
{
    let mut line = header_text(alloc, kind_of(sent.body()), sent.header())?;
    push_said(alloc, &mut line, sent.body())?;
    line.push('\n')?;
    Ok(line)
}

/// The first word of a record's line.
pub(crate) fn kind_of(body: &Body) -> &'static str
    ensures { result.now ≡ kind_word body.now }
{
    match body {
        Body::Start(_) => "start",
        Body::Item(_) => "item",
        Body::MoveOut(_) => "moveout",
        Body::Held(_) => "held",
        Body::Know(_) => "know",
        Body::End => "end",
    }
}

/// `KIND source A stream N target T session N index I`
fn header_text(alloc: Global, kind: &str, header: Header) -> Grown<String>
    ensures { IfOk result (λ text. string_bytes text ≡ joined_words (header_words kind.now header)) }
{
    let (source, stream, target) = (header.source, header.stream, header.target);
    let (session, index) = (header.session, header.index);
    format!(in alloc;
        "{kind} source {source} stream {stream} target {target} session {session} index {index}"
    )
}

/// Adds what a record says, each word after a space.
pub(crate) fn push_said(alloc: Global, line: &mut String, body: &Body) -> Grown<()>
    ensures { OnOk result (string_bytes line.new ≡ string_bytes line.old ++ after_spaces (said_words body.now)) }
{
    match body {
        Body::Start(Mode::Partial) => line.push_str(" partial"),
        Body::Start(Mode::Full) => line.push_str(" full"),
        Body::Item(revision) => push_version(line, revision.version(), revision.item()),
        Body::MoveOut(descent) => push_version(line, descent.version(), descent.item()),
        Body::Held(vector) => write!(line, " {vector}"),
        Body::Know(fragment) => push_fragment(alloc, line, fragment),
        Body::End => Ok(()),
    }
}

/// Adds ` V of ITEM`.
fn push_version(line: &mut String, version: Version, item: ItemId) -> Grown<()>
    ensures { OnOk result (string_bytes line.new ≡ string_bytes line.old ++ after_spaces (version_words version item)) }
{
    let item = item.creator();
    write!(line, " {version} of {item}")
}

/// Adds a fragment's text after a space.
fn push_fragment(alloc: Global, line: &mut String, fragment: &FrameFragment) -> Grown<()>
    ensures { OnOk result (string_bytes line.new ≡ string_bytes line.old ++ codes " " ++ piece_text fragment.now) }
{
    let text = fragment_text(alloc, fragment)?;
    line.push(' ')?;
    line.push_str(text.as_str())
}

/// The fragment's text: `all` or its items, a space, and its vector.
fn fragment_text(alloc: Global, fragment: &FrameFragment) -> Grown<String>
    ensures { IfOk result (λ text. string_bytes text ≡ piece_text fragment.now) }
{
    knowledge_text(alloc, slice::from_ref(fragment.as_fragment()))
}

/// The fragments' texts with `; ` between them, or `-` where there is none.
fn fragments_text(alloc: Global, fragments: &[FrameFragment]) -> Grown<String>
    ensures { IfOk result (λ text. string_bytes text ≡ pieces_text fragments.now) }
{
    let Some((first, others)) = fragments.split_first() else {
        return String::from_str(alloc, "-");
    };
    let mut text = fragment_text(alloc, first)?;
    for fragment in others {
        text.push_str(";")?;
        push_fragment(alloc, &mut text, fragment)?;
    }
    Ok(text)
}
