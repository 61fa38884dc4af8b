//! From a frame to bytes.
ghost use Rattle.std.specs.Prelude.{◌≡◌, ◌≢◌, ◌≤◌, ◌<◌, ◌+◌, ◌^◌, ◌++◌, OnOk, IfOk, All, Err, length};
ghost use Rattle.std.specs.List.{flat_map};
ghost use Rattle.mr_wire.specs.Spelling.{u64, fragment_bytes, descent_bytes, message_bytes};
ghost use Rattle.mr_wire.specs.FrameSpelling.{ask_bytes, body_bytes, header_bytes, kind_of, kind_of_body, descent_of, part_bytes, frame_bytes};
ghost use Rattle.mr_wire.specs.Frames.{IsIndexOf};
ghost use Rattle.mr_wire.specs.Encoding.{Encodes, HasShortFragments, total_len};
ghost use Rattle.mr_wire.specs.inner.Encoding.{Begins};
ghost use Rattle.mr_wire.specs.declared.decoding.TheConstants.{MAX_REST_BYTES};
ghost use Rattle.mr_wire.specs.declared.frame.TheConstants.{MAX_ASKED_BYTES};
ghost use Rattle.mr_wire.specs.Grammar.{IsAsked, IsDescent, IsFrame, IsFramed, IsHeader, IsLetter, IsSaid, Spells};

use crate::decoding::{LENGTH_BYTES, MAX_REST_BYTES};
use crate::fault::WireFault;
use crate::fragment::FrameFragment;
use crate::frame::{Ask, Body, Frame, Header, Mode, Receipt, Record};
use crate::kind::{FORMAT, Kind};
use crate::lengths::{ask_len, parts_len, receipt_len, record_len};
use crate::put::{
    put_descent, put_filter, put_fragment, put_message, put_u16, put_u32, put_vector,
};
use mr_madewith::Revision;
use std::alloc::{AllocError, Global};

/// The bytes of format and kind.
const KIND_BYTES: usize = 2;

impl Body {
    /// The kind of a record with this body.
    pub fn kind(&self) -> Kind
        ensures { result ≡ kind_of_body self.now }
    {
        match self {
            Body::Start(_) => Kind::Start,
            Body::Item(_) => Kind::Item,
            Body::MoveOut(_) => Kind::MoveOut,
            Body::Held(_) => Kind::Held,
            Body::Know(_) => Kind::Know,
            Body::End => Kind::End,
        }
    }
}

impl Frame {
    /// What the frame is.
    pub fn kind(&self) -> Kind
        ensures { result ≡ kind_of self.now }
    {
        match self {
            Frame::Ask(_) => Kind::Ask,
            Frame::Record(record) => record.body().kind(),
            Frame::Receipt(_) => Kind::Receipt,
        }
    }

    /// How many bytes the frame takes in the format that is written, its length's own four among them.
    /// It may be more than a frame may have, where a request has many fragments.
    ///
    /// It takes no memory, and looks at each column, clause and label once, and at no text, item or hole.
    pub fn encoded_len(&self) -> usize
        ensures exact { result ≡ length (frame_bytes 2 self.now) }
        ensures short { HasShortFragments self.now → result ≤ MAX_REST_BYTES + 4 }
    {
        LENGTH_BYTES + KIND_BYTES + parts_len(self)
    }
}

/// Writes a number of eight bytes.
pub fn put_u64(out: &mut Vec<u8>, n: u64) -> Result<(), AllocError>
    ensures written { OnOk result (out.new.items ≡ out.old.items ++ u64 n) }
    ensures in_range { OnOk result (n < 2 ^ 64) }
{
    out.extend_from_slice(&n.to_be_bytes())
}

fn put_header(out: &mut Vec<u8>, header: Header) -> Result<(), AllocError>
    requires stream { 1 ≤ header.stream }
    requires session { 1 ≤ header.session }
    ensures written { OnOk result (out.new.items ≡ out.old.items ++ header_bytes header) }
    ensures in_grammar { OnOk result (IsHeader header) }
{
    put_u16(out, header.source.id())?;
    put_u64(out, header.stream)?;
    put_u16(out, header.target.id())?;
    put_u64(out, header.session)?;
    put_u32(out, header.index)
}

fn put_revision(out: &mut Vec<u8>, revision: &Revision) -> Result<(), AllocError>
    ensures written { OnOk result (out.new.items ≡ out.old.items ++ (descent_bytes (descent_of revision.now) ++ message_bytes revision.now.message)) }
    ensures descent { OnOk result (IsDescent (descent_of revision.now)) }
    ensures letter { OnOk result (IsLetter revision.now.message) }
{
    put_descent(out, revision.item(), revision.version(), revision.below())?;
    put_message(out, revision.message())
}

fn put_body(out: &mut Vec<u8>, body: &Body) -> Result<(), AllocError>
    ensures written { OnOk result (out.new.items ≡ out.old.items ++ body_bytes body.now) }
    ensures in_grammar { OnOk result (IsSaid body.now) }
{
    match body {
        Body::Start(Mode::Partial) => Ok(out.push(0)?),
        Body::Start(Mode::Full) => Ok(out.push(1)?),
        Body::Item(revision) => put_revision(out, revision),
        Body::MoveOut(descent) => put_descent(
            out,
            descent.item(),
            descent.version(),
            descent.below(),
        ),
        Body::Held(vector) => put_vector(out, vector),
        Body::Know(fragment) => put_fragment(out, fragment),
        Body::End => Ok(()),
    }
}

fn put_record(out: &mut Vec<u8>, sent: &Record) -> Result<(), AllocError>
    ensures written { OnOk result (out.new.items ≡ out.old.items ++ (header_bytes sent.now.header ++ body_bytes sent.now.body)) }
    ensures header { OnOk result (IsHeader sent.now.header) }
    ensures index { OnOk result (IsIndexOf sent.now.body sent.now.header.index) }
    ensures body { OnOk result (IsSaid sent.now.body) }
{
    put_header(out, sent.header())?;
    put_body(out, sent.body())
}

fn put_fragments(out: &mut Vec<u8>, fragments: &[FrameFragment]) -> Result<(), AllocError>
    ensures written { OnOk result (out.new.items ≡ out.old.items ++ flat_map fragment_bytes fragments.now) }
    ensures in_grammar { OnOk result (All IsFramed fragments.now) }
{
    for fragment in fragments {
        put_fragment(out, fragment)?;
    }
    Ok(())
}

/// Writes a request: target, session, filter, a count of fragments, and those.
pub fn put_ask(out: &mut Vec<u8>, ask: &Ask) -> Result<(), AllocError>
    ensures written { OnOk result (out.new.items ≡ out.old.items ++ ask_bytes ask.now) }
    ensures in_grammar { OnOk result (IsAsked ask.now) }
{
    put_u16(out, ask.target().id())?;
    put_u64(out, ask.session())?;
    put_filter(out, ask.filter())?;
    let fragments = ask.fragments();
    put_u32(out, fragments.len() as u32)?;
    put_fragments(out, fragments)
}

/// Writes a receipt: giver, item, version, and what that supersedes.
pub fn put_receipt(out: &mut Vec<u8>, receipt: &Receipt) -> Result<(), AllocError>
    ensures written { OnOk result (out.new.items ≡ out.old.items ++ part_bytes (Frame.Receipt receipt.now)) }
    ensures in_grammar { OnOk result (IsFrame (Frame.Receipt receipt.now)) }
{
    put_u16(out, receipt.giver.id())?;
    let descent = &receipt.descent;
    put_descent(out, descent.item(), descent.version(), descent.below())
}

/// Writes what stands behind the kind of a frame.
pub fn put_frame(out: &mut Vec<u8>, frame: &Frame) -> Result<(), AllocError>
    ensures written { OnOk result (out.new.items ≡ out.old.items ++ part_bytes frame.now) }
    ensures in_grammar { OnOk result (IsFrame frame.now) }
{
    match frame {
        Frame::Ask(ask) => put_ask(out, ask),
        Frame::Record(record) => put_record(out, record),
        Frame::Receipt(receipt) => put_receipt(out, receipt),
    }
}

/// The start of a frame of this kind, with so many bytes behind the kind: the length of what follows
/// it, format and kind, in memory of just the whole frame's length.
fn begin(alloc: Global, kind: Kind, parts: usize) -> Result<Vec<u8>, WireFault>
    requires { parts < 2 ^ 55 }
    ensures { Begins kind parts result }
{
    let len = LENGTH_BYTES + KIND_BYTES + parts;
    if len > LENGTH_BYTES + MAX_REST_BYTES as usize {
        return Err(WireFault::TooLong);
    }
    let mut out = Vec::with_capacity(alloc, len)?;
    put_u32(&mut out, (len - LENGTH_BYTES) as u32)?;
    out.push(FORMAT)?;
    out.push(kind.byte())?;
    Ok(out)
}

/// The bytes of a request that is kept elsewhere, as [`encode`] writes them of its frame.
///
/// `TooLong` where more than 8,388,608 bytes would follow the length, and never where its fragments take
/// at most 8,000,000 bytes; `OutOfMemory` otherwise.
#[tactic(auto, using(crate::proofs::PutLemmas::frame_from_parts))]
pub fn encode_ask(alloc: Global, ask: &Ask) -> Result<Vec<u8>, WireFault>
    ensures exact { Encodes (Frame.Ask ask.now) result }
    ensures spelled { IfOk result (λ v. Spells 2 (Frame.Ask ask.now) v.items) }
    ensures short { total_len ask.now.fragments ≤ MAX_ASKED_BYTES → result ≢ Err WireFault.TooLong }
{
    let mut out = begin(alloc, Kind::Ask, ask_len(ask))?;
    put_ask(&mut out, ask)?;
    Ok(out)
}

/// The bytes of a record that is kept elsewhere, as [`encode`] writes them of its frame. It is never too
/// long: `OutOfMemory` is the one fault.
#[tactic(auto, using(crate::proofs::PutLemmas::frame_from_parts))]
pub fn encode_record(alloc: Global, sent: &Record) -> Result<Vec<u8>, WireFault>
    ensures exact { Encodes (Frame.Record sent.now) result }
    ensures spelled { IfOk result (λ v. Spells 2 (Frame.Record sent.now) v.items) }
    ensures short { result ≢ Err WireFault.TooLong }
{
    let mut out = begin(alloc, sent.body().kind(), record_len(sent))?;
    put_record(&mut out, sent)?;
    Ok(out)
}

/// The bytes of a receipt that is kept elsewhere, as [`encode`] writes them of its frame. It is never too
/// long: `OutOfMemory` is the one fault.
#[tactic(auto, using(crate::proofs::PutLemmas::frame_from_parts))]
pub fn encode_receipt(alloc: Global, receipt: &Receipt) -> Result<Vec<u8>, WireFault>
    ensures exact { Encodes (Frame.Receipt receipt.now) result }
    ensures spelled { IfOk result (λ v. Spells 2 (Frame.Receipt receipt.now) v.items) }
    ensures short { result ≢ Err WireFault.TooLong }
{
    let mut out = begin(alloc, Kind::Receipt, receipt_len(receipt))?;
    put_receipt(&mut out, receipt)?;
    Ok(out)
}

/// The frame's bytes in the format that is written.
///
/// `TooLong` where more than 8,388,608 bytes would follow the length, which is known before memory is
/// asked for: no record and no receipt is so long, and no request whose fragments take at most
/// 8,000,000 bytes. `OutOfMemory` otherwise. One piece of memory is taken, of just the length, and each
/// byte of a body is copied once.
pub fn encode(alloc: Global, frame: &Frame) -> Result<Vec<u8>, WireFault>
    ensures exact { Encodes frame.now result }
    ensures spelled { IfOk result (λ v. Spells 2 frame.now v.items) }
    ensures short { HasShortFragments frame.now → result ≢ Err WireFault.TooLong }
{
    match frame {
        Frame::Ask(ask) => encode_ask(alloc, ask),
        Frame::Record(record) => encode_record(alloc, record),
        Frame::Receipt(receipt) => encode_receipt(alloc, receipt),
    }
}
