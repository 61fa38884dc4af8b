//! Sessions: what a replica has taken of a stream.
ghost use Rattle.std.specs.Prelude.{◌≡◌, ◌+◌, ◌<◌, ◌^◌, ◌++◌, map, IsOk, IsFalse, IfOk, OnOk, OnErr};
ghost use Rattle.std.specs.Result.{result_err};
ghost use Rattle.mr_wire.specs.Values.{piece_of};
ghost use Rattle.mr_session.specs.Session.{new_session, first_fault, is_start, is_full, if_so, with_body, after_record, is_to_keep};

use crate::copies::{copied_fragments, copied_vectors};
use crate::fault::SessionFault;
use crate::origin::Origin;
use mr_concise::ConciseVector;
use mr_forms::Fragment;
use mr_wire::{Body, Header, Mode, Record};
use std::alloc::{AllocError, Global};
use std::marker::Model;

/// What a session has taken of its stream.
///
/// It keeps what a full stream tells until that stream's End: the vectors of its Held records, and the
/// fragments of its Know records.
#[derive(Drop)]
pub struct Incoming {
    origin: Option<Origin>,
    // the index of the next record
    next: u32,
    held: Vec<ConciseVector>,
    know: Vec<Fragment<ConciseVector>>,
}

impl Model for Incoming {
    ghost use Rattle.std.specs.Prelude.{map};
    ghost use Rattle.mr_wire.specs.Values.{piece_of};
    ghost use Rattle.mr_session.specs.Session.{Session};

    ghost Value = { Session };

    ghost view = { λ s. record { origin = s.origin; next = s.next; held = s.held.items; know = map piece_of s.know.items } };
}

// Whether it is a stream's first record.
fn is_start(body: &Body) -> bool
    ensures { result ≡ is_start body.now }
{
    matches!(body, Body::Start(_))
}

impl Incoming {
    /// A session that has taken nothing. It allocates nothing.
    pub fn new(alloc: Global) -> Incoming
        ensures { result ≡ new_session }
    {
        Incoming {
            origin: None,
            next: 0,
            held: Vec::new(alloc),
            know: Vec::new(alloc),
        }
    }

    // ---- readers

    /// The stream that it is bound to, once it has taken a Start.
    pub fn origin(&self) -> Option<Origin>
        ensures { result ≡ self.now.origin }
    {
        self.origin
    }

    /// The index of the record that it takes next.
    pub fn next(&self) -> u32
        ensures { result ≡ self.now.next }
    {
        self.next
    }

    /// Whether it is bound to a full stream.
    pub fn is_full(&self) -> bool
        ensures { result ≡ is_full self.now.origin }
    {
        match &self.origin {
            Some(origin) => origin.is_full(),
            None => false,
        }
    }

    /// The vectors of the Held records, in the order in which they were taken.
    pub fn held(&self) -> &[ConciseVector]
        ensures { result.now ≡ self.now.held }
    {
        &self.held
    }

    /// The fragments of the Know records, in the order in which they were taken.
    pub fn know(&self) -> &[Fragment<ConciseVector>]
        ensures { map piece_of result.now ≡ self.now.know }
    {
        &self.know
    }

    /// Whether the session takes the record: it begins with a Start, and goes on with the records of that
    /// stream alone, by index, with none left out.
    ///
    /// `NotStart` where it has taken no Start, and this is none; else `OtherStream` where the record is of
    /// another stream; else `Repeated` below the index that it takes next, and `Gap` above it.
    pub fn check(&self, sent: &Record) -> Result<(), SessionFault>
        ensures { first_fault self.now.origin self.now.next sent.now ≡ result_err result }
    {
        let header = sent.header();
        match &self.origin {
            Some(origin) if !origin.is_of(&header) => Err(SessionFault::OtherStream),
            Some(_) if header.index < self.next => Err(SessionFault::Repeated),
            Some(_) if self.next < header.index => Err(SessionFault::Gap),
            None if !is_start(sent.body()) => Err(SessionFault::NotStart),
            _ => Ok(()),
        }
    }

    /// An equal session.
    pub fn copy(&self) -> Result<Incoming, AllocError>
        ensures { IfOk result (λ session. session ≡ self.now) }
    {
        let alloc = *self.held.allocator();
        let held = copied_vectors(alloc, &self.held)?;
        let know = copied_fragments(alloc, &self.know)?;
        Ok(Incoming {
            origin: self.origin,
            next: self.next,
            held,
            know,
        })
    }

    // ---- changes

    fn bind(&mut self, header: &Header, mode: Mode)
        ensures { self.new ≡ record self.old { origin = Some (record { source = header.now.source; stream = header.now.stream; mode = mode }) } }
    {
        self.origin = Some(Origin {
            source: header.source,
            stream: header.stream,
            mode,
        });
    }

    fn keep_held(&mut self, vector: &ConciseVector) -> Result<(), AllocError>
        ensures ok { OnOk result (self.new ≡ record self.old { held = self.old.held ++ if_so (is_full self.old.origin) vector.now }) }
        ensures err { OnErr result (self.new ≡ self.old) }
    {
        if self.is_full() {
            self.held.push(vector.copy()?)?;
        }
        Ok(())
    }

    fn keep_know(&mut self, fragment: &Fragment<ConciseVector>) -> Result<(), AllocError>
        ensures ok { OnOk result (self.new ≡ record self.old { know = self.old.know ++ if_so (is_full self.old.origin) (piece_of fragment.now) }) }
        ensures err { OnErr result (self.new ≡ self.old) }
    {
        if self.is_full() {
            let copy = fragment.copy()?;
            self.know.push(copy)?;
        }
        Ok(())
    }

    // Takes the record's body: a Start binds the session, and a full stream's Held and Know are kept.
    fn take_body(&mut self, sent: &Record) -> Result<(), AllocError>
        ensures ok { OnOk result (self.new ≡ with_body self.old sent.now.header sent.now.body) }
        ensures err { OnErr result (self.new ≡ self.old) }
        ensures sure { IsFalse (is_to_keep sent.now.body) → IsOk result }
    {
        match sent.body() {
            Body::Start(mode) => {
                self.bind(&sent.header(), *mode);
                Ok(())
            }
            Body::Held(vector) => self.keep_held(vector),
            Body::Know(fragment) => self.keep_know(fragment.as_fragment()),
            Body::Item(_) | Body::MoveOut(_) | Body::End => Ok(()),
        }
    }

    /// Takes the record. It copies the vector or the fragment of a full stream's Held or Know, and nothing of
    /// other records; so it can only fail at those.
    pub(crate) fn take(&mut self, sent: &Record) -> Result<(), AllocError>
        requires { sent.now.header.index + 1 < 2 ^ 32 }
        ensures ok { OnOk result (self.new ≡ after_record sent.now self.old) }
        ensures err { OnErr result (self.new ≡ self.old) }
        ensures sure { IsFalse (is_to_keep sent.now.body) → IsOk result }
    {
        self.take_body(sent)?;
        self.next = sent.header().index + 1;
        Ok(())
    }
}

impl Clone for Incoming {
    ghost is_clone = { λ session copy. copy ≡ session };

    fn clone(&self) -> Result<Incoming, AllocError> {
        self.copy()
    }
}
