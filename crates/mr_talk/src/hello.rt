//! What a side says first.
ghost use Rattle.std.specs.Prelude.{◌≡◌, ◌≢◌, ◌<◌, ℕ, List, IfOk, Ok, MatchOption, length};
ghost use Rattle.mr_talk.specs.Fault.{hello_fault_number};
ghost use Rattle.mr_talk.specs.Hello.{IsHello, Reads, flag, hello_bytes};
ghost use Rattle.mr_talk.specs.inner.Hello.{AreFields};
ghost use Rattle.mr_talk.specs.declared.hello.Hello.{Hello};

use crate::kind::HELLO_BYTES;
use mr_version::Author;
use std::alloc::{AllocError, Global};
use thiserror::Error;

/// The format of a hello, and so of a talk.
pub const HELLO_FORMAT: u8 = 4;

/// What tells two journals of one id apart: the bytes that each was begun with.
pub type Birth = [u8; 16];

/// The first bytes of a digest.
pub type Short = [u8; 16];

/// The first bytes of a digest of what a side knows, as a hello has room for: enough to tell two states of knowledge apart.
pub type Knows = [u8; 12];

/// The first bytes of the digest of a message: enough to tell that two sides have another message for one version.
pub type Tip = [u8; 4];

/// What a side says of itself.
///
/// With its head it takes 49 bytes, so a talk with nothing to tell takes 98 both ways.
#[derive(Clone, Copy, Debug, PartialEq, Eq)]
pub struct Hello {
    /// Its replica.
    pub id: Author,
    /// When its journal was begun. A replica's filter is as old as its journal, and so is told by this.
    pub birth: Birth,
    /// The digest of what it knows.
    pub knows: Knows,
    /// The digest of the message of the highest of its own versions, or zeros where it has none.
    pub tip: Tip,
    /// The highest counter among its own versions, or 0.
    pub issued: u32,
    /// The highest counter that it knows among the other's versions; 0 for none, and where it doesn't know yet whom it
    /// calls.
    pub known: u32,
    /// Whether something waits here: mail for a receipt, or a mail for its file.
    pub is_waiting: bool,
    /// Whether its filter selects all mail.
    pub keeps_all: bool,
}

/// Why bytes are no hello: the first field that is wrong.
#[derive(Clone, Copy, Debug, PartialEq, Eq, Drop, Error)]
pub enum HelloFault {
    /// Not 44 bytes.
    #[error("bad hello: not of its length")]
    Length,
    /// Another format, of another release.
    #[error("bad hello: another format")]
    Format,
    /// An id above 63.
    #[error("bad hello: no such replica")]
    Id,
    /// Neither 0 nor 1 for whether something waits.
    #[error("bad hello: whether something waits is neither 0 nor 1")]
    Waiting,
    /// Neither 0 nor 1 for whether its filter selects all mail.
    #[error("bad hello: whether all mail is kept is neither 0 nor 1")]
    KeepsAll,
}

impl HelloFault {
    /// The fault's number, from 1 in the order of the variants.
    pub fn number(self) -> u8
        ensures { result ≡ hello_fault_number self }
    {
        match self {
            HelloFault::Length => 1,
            HelloFault::Format => 2,
            HelloFault::Id => 3,
            HelloFault::Waiting => 4,
            HelloFault::KeepsAll => 5,
        }
    }
}

/// The fields of a hello, each as it is spelled.
#[derive(Clone, Copy)]
struct Fields<'a> {
    format: u8,
    id: u8,
    birth: &'a Birth,
    knows: &'a Knows,
    tip: &'a Tip,
    issued: u32,
    known: u32,
    waiting: u8,
    keeps_all: u8,
}

/// The fields of so many bytes, if they are as many as a hello has.
fn split(bytes: &[u8]) -> Option<Fields<'_>>
    ensures { MatchOption result (length bytes.now ≢ HELLO_BYTES) (λ f.
        AreFields bytes.now f.format f.id f.birth.now f.knows.now f.tip.now f.issued f.known f.waiting f.keeps_all) }
{
    if bytes.len() != HELLO_BYTES as usize {
        return None;
    }
    let [format, id, rest @ ..] = bytes else {
        return None;
    };
    let (birth, rest) = rest.split_first_chunk::<16>()?;
    let (knows, rest) = rest.split_first_chunk::<12>()?;
    let (tip, rest) = rest.split_first_chunk::<4>()?;
    let (issued, rest) = rest.split_first_chunk::<4>()?;
    let (known, rest) = rest.split_first_chunk::<4>()?;
    let [waiting, keeps_all] = rest else {
        return None;
    };
    Some(Fields {
        format: *format,
        id: *id,
        birth,
        knows,
        tip,
        issued: u32::from_be_bytes(*issued),
        known: u32::from_be_bytes(*known),
        waiting: *waiting,
        keeps_all: *keeps_all,
    })
}

/// Whether a byte of 0 or 1 says yes.
fn flag_of(byte: u8) -> Option<bool>
    ensures { MatchOption result (1 < byte) (λ is. byte ≡ flag is) }
{
    match byte {
        0 => Some(false),
        1 => Some(true),
        _ => None,
    }
}

/// The hello of these fields, or the first that is wrong.
fn hello_of(fields: &Fields<'_>) -> Result<Hello, HelloFault>
    ensures { (bytes : List ℕ) → AreFields bytes fields.now.format fields.now.id fields.now.birth.now fields.now.knows.now
        fields.now.tip.now fields.now.issued fields.now.known fields.now.waiting fields.now.keeps_all → Reads bytes result }
{
    if fields.format != HELLO_FORMAT {
        return Err(HelloFault::Format);
    }
    let Ok(id) = Author::try_new(u16::from(fields.id)) else {
        return Err(HelloFault::Id);
    };
    let Some(is_waiting) = flag_of(fields.waiting) else {
        return Err(HelloFault::Waiting);
    };
    let Some(keeps_all) = flag_of(fields.keeps_all) else {
        return Err(HelloFault::KeepsAll);
    };
    Ok(Hello {
        id,
        birth: *fields.birth,
        knows: *fields.knows,
        tip: *fields.tip,
        issued: fields.issued,
        known: fields.known,
        is_waiting,
        keeps_all,
    })
}

impl Hello {
    /// The hello that the bytes spell, all of them, or the first field that is wrong, in the order of [`HelloFault`].
    pub fn read(bytes: &[u8]) -> Result<Hello, HelloFault>
        ensures exact { Reads bytes.now result }
        ensures whole { (h : Hello) → IsHello h → bytes.now ≡ hello_bytes h → result ≡ Ok h }
    {
        parse(bytes)
    }

    /// Its one spelling, of 44 bytes: format, id, birth, both digests, both counters, and two flags.
    pub fn write(&self, alloc: Global) -> Result<Vec<u8>, AllocError>
        ensures { IfOk result (λ v. v.items ≡ hello_bytes self.now) }
    {
        let mut out = Vec::with_capacity(alloc, HELLO_BYTES as usize)?;
        out.push(HELLO_FORMAT)?;
        out.push(self.id.id() as u8)?;
        out.extend_from_slice(&self.birth)?;
        out.extend_from_slice(&self.knows)?;
        out.extend_from_slice(&self.tip)?;
        out.extend_from_slice(&self.issued.to_be_bytes())?;
        out.extend_from_slice(&self.known.to_be_bytes())?;
        out.push(u8::from(self.is_waiting))?;
        out.push(u8::from(self.keeps_all))?;
        Ok(out)
    }
}

/// The hello that the bytes spell, or the first field that is wrong.
fn parse(bytes: &[u8]) -> Result<Hello, HelloFault>
    ensures { Reads bytes.now result }
{
    let Some(fields) = split(bytes) else {
        return Err(HelloFault::Length);
    };
    hello_of(&fields)
}
