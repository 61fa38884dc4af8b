//! Frames: what replicas send to one another.
ghost use Rattle.std.specs.Prelude.{◌≡◌, ◌<◌, ◌^◌, IfOk};
ghost use Rattle.mr_wire.specs.Encoding.{total_len};
ghost use Rattle.mr_wire.specs.Frames.{IsSent, IsQuestion};

use crate::descent::Descent;
use crate::fragment::FrameFragment;
use mr_concise::ConciseVector;
use mr_filter::Filter;
use mr_madewith::Revision;
use mr_version::Author;
use std::alloc::{AllocError, Global};
use std::marker::Model;
use std::sync::Arc;

/// The most bytes that a request's fragments may take, so that it is never too long for a frame.
pub const MAX_ASKED_BYTES: usize = 8_000_000;

/// Which of the two a stream is.
#[derive(Clone, Copy, Debug, PartialEq, Eq)]
pub enum Mode {
    /// The source's filter is not seen to cover the target's: versions alone are told, and the End teaches
    /// nothing.
    Partial,
    /// The source's filter covers the target's: behind the versions it tells what it holds and knows, and the
    /// End teaches that.
    Full,
}

/// From whom a record comes, for whom it is, and where it stands in its stream.
#[derive(Clone, Copy, Debug, PartialEq, Eq)]
pub struct Header {
    /// Who gives the record.
    pub source: Author,
    /// The source's number of the stream, from 1.
    pub stream: u64,
    /// For whom it is.
    pub target: Author,
    /// The target's number of the session that the stream answers, from 1.
    pub session: u64,
    /// The record's number in the stream: 0 for the Start, and from 1 for the others.
    pub index: u32,
}

/// What a record says.
#[derive(Debug, Drop)]
pub enum Body {
    /// The first record, with the stream's mode.
    Start(Mode),
    /// A revision that the target's filter selects.
    Item(Revision),
    /// A version that it does not select, of an item that the target knows.
    MoveOut(Descent),
    /// Versions of the source's heads.
    Held(ConciseVector),
    /// A part of what the source knows.
    Know(FrameFragment),
    /// The last record.
    End,
}

impl Body {
    /// An equal body. It costs a copy of what the body carries, but that a revision shares its parts.
    pub fn copy(&self) -> Result<Body, AllocError>
        ensures { IfOk result (λ body. body ≡ self.now) }
    {
        match self {
            Body::Start(mode) => Ok(Body::Start(*mode)),
            Body::Item(revision) => Ok(Body::Item(revision.copy()?)),
            Body::MoveOut(descent) => Ok(Body::MoveOut(descent.copy()?)),
            Body::Held(vector) => Ok(Body::Held(vector.copy()?)),
            Body::Know(fragment) => Ok(Body::Know(fragment.copy()?)),
            Body::End => Ok(Body::End),
        }
    }
}

/// A record of a stream. Its stream and session have numbers from 1; its index is 0 exactly for a Start.
#[derive(Debug, Drop)]
pub struct Record {
    header: Header,
    body: Body,
}

impl Model for Record {
    ghost use Rattle.mr_wire.specs.Frames.{Sent, IsSent};

    ghost Value = { Sent };

    ghost view = { λ r. record { header = r.header; body = r.body } };

    ghost invariant = { λ r. IsSent r.header r.body };
}

impl Record {
    /// The record with this header and body.
    pub fn new(header: Header, body: Body) -> Record
        requires { IsSent header body }
        ensures { result ≡ record { header = header; body = body } }
    {
        Record { header, body }
    }

    /// The record's header.
    pub fn header(&self) -> Header
        ensures is { result ≡ self.now.header }
        ensures kept { IsSent self.now.header self.now.body }
    {
        self.header
    }

    /// What the record says.
    pub fn body(&self) -> &Body
        ensures { result.now ≡ self.now.body }
    {
        &self.body
    }

    /// An equal record, at the cost of a copy of its body.
    pub fn copy(&self) -> Result<Record, AllocError>
        ensures { IfOk result (λ sent. sent ≡ self.now) }
    {
        let body = self.body.copy()?;
        Ok(Record::new(self.header, body))
    }
}

/// A request for what the target knows not yet of what its filter selects.
///
/// Its session has a number from 1. A fragment of all items comes first, if there is one; the others
/// rise by their least items.
///
/// A request never changes, and its fragments are shared: `copy` makes one more owner of them, and their memory is
/// given back with the last.
#[derive(Debug, Drop)]
pub struct Ask {
    target: Author,
    session: u64,
    filter: Filter,
    fragments: Arc<Vec<FrameFragment>, Global>,
}

impl Model for Ask {
    ghost use Rattle.std.specs.Arc.{arc_value};
    ghost use Rattle.mr_wire.specs.Frames.{Question, question_code, IsQuestion};

    ghost Value = { Question };

    ghost coded = { question_code };

    ghost view = { λ a. record { target = a.target; session = a.session; filter = a.filter; fragments = (arc_value a.fragments).items } };

    ghost invariant = { λ a. IsQuestion a.session (arc_value a.fragments).items };
}

impl Ask {
    /// The request with these parts. The fragments are moved into memory that its owners share.
    pub fn new(
        alloc: Global,
        target: Author,
        session: u64,
        filter: Filter,
        fragments: Vec<FrameFragment>,
    ) -> Result<Ask, AllocError>
        requires { IsQuestion session fragments.items }
        ensures { IfOk result (λ ask. ask ≡ record { target = target; session = session; filter = filter; fragments = fragments.items }) }
    {
        Ok(Ask {
            target,
            session,
            filter,
            fragments: Arc::new(alloc, fragments)?,
        })
    }

    /// Who asks.
    pub fn target(&self) -> Author
        ensures { result ≡ self.now.target }
    {
        self.target
    }

    /// The asking replica's number of the session, from 1.
    pub fn session(&self) -> u64
        ensures is { result ≡ self.now.session }
        ensures kept { IsQuestion self.now.session self.now.fragments }
    {
        self.session
    }

    /// What the asking replica selects.
    pub fn filter(&self) -> &Filter
        ensures { result.now ≡ self.now.filter }
    {
        &self.filter
    }

    /// What the asking replica knows.
    pub fn fragments(&self) -> &[FrameFragment]
        ensures { result.now ≡ self.now.fragments }
    {
        self.fragments.as_slice()
    }

    /// An equal request, which shares the fragments: it costs a copy of the filter.
    pub fn copy(&self) -> Result<Ask, AllocError>
        ensures { IfOk result (λ ask. ask ≡ self.now) }
    {
        Ok(Ask {
            target: self.target,
            session: self.session,
            filter: self.filter.copy()?,
            fragments: Arc::try_clone(&self.fragments)?,
        })
    }

    /// How many bytes the fragments take together. Where they take at most [`MAX_ASKED_BYTES`], the request
    /// is never too long for a frame.
    ///
    /// It takes no memory, and looks at each column of each fragment once.
    pub fn fragments_len(&self) -> usize
        ensures exact { result ≡ total_len self.now.fragments }
        ensures most { result < 2 ^ 54 }
    {
        let mut len = 0;
        for fragment in self.fragments.as_slice() {
            len += fragment.encoded_len();
        }
        len
    }
}

/// A replica's word that it holds the version of `descent` as a head.
#[derive(Debug, Drop)]
pub struct Receipt {
    /// Who gives it.
    pub giver: Author,
    /// The version of an item, with what it supersedes.
    pub descent: Descent,
}

impl Receipt {
    /// An equal receipt. It costs a copy of what its version supersedes.
    pub fn copy(&self) -> Result<Receipt, AllocError>
        ensures { IfOk result (λ receipt. receipt ≡ self.now) }
    {
        Ok(Receipt {
            giver: self.giver,
            descent: self.descent.copy()?,
        })
    }
}

/// What a replica sends to another.
#[derive(Debug, Drop)]
pub enum Frame {
    /// A request for what the one who asks lacks.
    Ask(Ask),
    /// One piece of the answer.
    Record(Record),
    /// What lets the target let go of push-outs.
    Receipt(Receipt),
}

impl Frame {
    /// An equal frame. It costs a copy of what the frame carries.
    pub fn copy(&self) -> Result<Frame, AllocError>
        ensures { IfOk result (λ frame. frame ≡ self.now) }
    {
        match self {
            Frame::Ask(ask) => Ok(Frame::Ask(ask.copy()?)),
            Frame::Record(sent) => Ok(Frame::Record(sent.copy()?)),
            Frame::Receipt(receipt) => Ok(Frame::Receipt(receipt.copy()?)),
        }
    }
}
