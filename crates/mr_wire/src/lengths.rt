//! How many bytes parts take, told without memory.
ghost use Rattle.std.specs.Prelude.{◌≡◌, ◌≤◌, ◌<◌, ◌+◌, ◌^◌, ◌++◌, length};
ghost use Rattle.std.specs.List.{flat_map};
ghost use Rattle.mr_concise.specs.Column.{IsColumn};
ghost use Rattle.mr_concise.specs.Vector.{IsVectorFrom};
ghost use Rattle.mr_mail.specs.Label.{IsLabelSet};
ghost use Rattle.mr_wire.specs.Values.{AreItems, listed_items};
ghost use Rattle.mr_wire.specs.Spelling.{column_bytes, vector_bytes, items_bytes, label_bytes, labels_bytes, clause_bytes, filter_bytes, texts_bytes, message_bytes, descent_bytes};
ghost use Rattle.mr_wire.specs.FrameSpelling.{ask_bytes, body_bytes, descent_of, part_bytes};
ghost use Rattle.mr_wire.specs.Encoding.{HasShortFragments, longest_fragment, total_len};
ghost use Rattle.mr_mail.specs.declared.label.TheConstants.{MAX_LABELS};
ghost use Rattle.mr_filter.specs.declared.filter.TheConstants.{MAX_CLAUSES};

use crate::frame::{Ask, Body, Frame, Receipt, Record};
use mr_concise::{AuthorColumn, ConciseVector};
use mr_filter::{Clause, Filter};
use mr_forms::ItemSet;
use mr_madewith::Revision;
use mr_mail::{Label, Message};

/// The bytes of a version: author and counter.
const VERSION_BYTES: usize = 6;

/// The bytes of a hole: its first counter and its last.
const HOLE_BYTES: usize = 8;

/// The bytes of a column before its holes: author, bound and count of holes.
const COLUMN_HEAD_BYTES: usize = 8;

/// The bytes of a count of columns.
const COLUMN_COUNT_BYTES: usize = 2;

/// The byte that tells all items from listed ones.
const TAG_BYTES: usize = 1;

/// The bytes of a count of items.
const ITEM_COUNT_BYTES: usize = 4;

/// The byte of a label's length, of a count of labels, and of a count of clauses.
const COUNT_BYTES: usize = 1;

/// The bytes of a clause behind its labels: flags on, flags off and first day.
const CLAUSE_TAIL_BYTES: usize = 4;

/// The bytes of the lengths of sender, subject and body.
const TEXT_LENGTHS_BYTES: usize = 8;

/// The bytes of a message behind its labels: flags and day.
const CARD_TAIL_BYTES: usize = 3;

/// The bytes of a header: source, stream, target, session and index.
const HEADER_BYTES: usize = 24;

/// The byte of a mode.
const MODE_BYTES: usize = 1;

/// The bytes of a request before its filter: target and session.
const ASK_HEAD_BYTES: usize = 10;

/// The bytes of a count of fragments.
const FRAGMENT_COUNT_BYTES: usize = 4;

/// The bytes of an author.
const AUTHOR_BYTES: usize = 2;

#[tactic(auto, using(crate::proofs::LengthLemmas::length_of_column))]
fn column_len(x: &AuthorColumn) -> usize
    requires { IsColumn x.now.column }
    ensures exact { result ≡ length (column_bytes x.now) }
    ensures most { result ≤ 32776 }
{
    COLUMN_HEAD_BYTES + HOLE_BYTES * x.column.holes().len()
}

fn columns_len(columns: &[AuthorColumn]) -> usize
    requires { IsVectorFrom 0 columns.now }
    ensures exact { result ≡ length (flat_map column_bytes columns.now) }
    ensures most { result ≤ 2097664 }
{
    let mut len = 0;
    for x in columns {
        len += column_len(x);
    }
    len
}

/// The bytes of a vector: at most 64 columns of at most 4,096 holes.
pub(crate) fn vector_len(vector: &ConciseVector) -> usize
    ensures exact { result ≡ length (vector_bytes vector.now) }
    ensures most { result ≤ 2097666 }
{
    COLUMN_COUNT_BYTES + columns_len(vector.author_columns())
}

/// The bytes of all items, or of listed ones: at most 65,536 of them.
#[tactic(auto, using(crate::proofs::LengthLemmas::length_of_names))]
pub(crate) fn item_set_len(items: &ItemSet) -> usize
    requires { AreItems (listed_items items.now) }
    ensures exact { result ≡ length (items_bytes (listed_items items.now)) }
    ensures most { result ≤ 393221 }
{
    match items {
        ItemSet::All => TAG_BYTES,
        ItemSet::Listed(items) => TAG_BYTES + ITEM_COUNT_BYTES + VERSION_BYTES * items.len(),
    }
}

/// The bytes of a label behind its length.
fn label_len(label: &Label) -> usize
    ensures exact { result ≡ length (label_bytes label.now) }
    ensures most { result ≤ 33 }
{
    COUNT_BYTES + label.as_str().len()
}

fn label_run_len(labels: &[Label]) -> usize
    requires { length labels.now ≤ MAX_LABELS }
    ensures exact { result ≡ length (flat_map label_bytes labels.now) }
    ensures most { result ≤ 528 }
{
    let mut len = 0;
    for label in labels {
        len += label_len(label);
    }
    len
}

/// The bytes of labels behind their count: at most sixteen of at most 32 bytes.
fn labels_len(labels: &[Label]) -> usize
    requires { IsLabelSet labels.now }
    ensures exact { result ≡ length (labels_bytes labels.now) }
    ensures most { result ≤ 529 }
{
    COUNT_BYTES + label_run_len(labels)
}

fn clause_len(clause: &Clause) -> usize
    ensures exact { result ≡ length (clause_bytes clause.now) }
    ensures most { result ≤ 1062 }
{
    labels_len(clause.all_labels()) + labels_len(clause.no_labels()) + CLAUSE_TAIL_BYTES
}

fn clauses_len(clauses: &[Clause]) -> usize
    requires { length clauses.now ≤ MAX_CLAUSES }
    ensures exact { result ≡ length (flat_map clause_bytes clauses.now) }
    ensures most { result ≤ 16992 }
{
    let mut len = 0;
    for clause in clauses {
        len += clause_len(clause);
    }
    len
}

/// The bytes of a filter: at most sixteen clauses.
fn filter_len(filter: &Filter) -> usize
    ensures exact { result ≡ length (filter_bytes filter.now) }
    ensures most { result ≤ 16993 }
{
    COUNT_BYTES + clauses_len(filter.clauses())
}

/// The bytes of sender, subject and body.
fn texts_len(message: &Message) -> usize
    ensures exact { result ≡ length (texts_bytes message.now) }
    ensures most { result ≤ 66796 }
{
    TEXT_LENGTHS_BYTES + message.from().len() + message.subject().len() + message.body().len()
}

/// The bytes of a message: a body of at most 65,536 bytes, and what stands around it.
pub fn message_len(message: &Message) -> usize
    ensures exact { result ≡ length (message_bytes message.now) }
    ensures most { result ≤ 67328 }
{
    texts_len(message) + labels_len(message.labels()) + CARD_TAIL_BYTES
}

/// The bytes of a version of an item, with what it supersedes.
fn descent_len(below: &ConciseVector) -> usize
    ensures exact { result ≡ 12 + length (vector_bytes below.now) }
    ensures most { result ≤ 2097678 }
{
    VERSION_BYTES + VERSION_BYTES + vector_len(below)
}

/// The bytes of a revision.
fn revision_len(revision: &Revision) -> usize
    ensures exact { result ≡ length (descent_bytes (descent_of revision.now) ++ message_bytes revision.now.message) }
    ensures most { result ≤ 2165006 }
{
    descent_len(revision.below()) + message_len(revision.message())
}

/// The bytes behind a record's header.
fn body_len(body: &Body) -> usize
    ensures exact { result ≡ length (body_bytes body.now) }
    ensures most { result ≤ longest_fragment }
{
    match body {
        Body::Start(_) => MODE_BYTES,
        Body::Item(revision) => revision_len(revision),
        Body::MoveOut(descent) => descent_len(descent.below()),
        Body::Held(vector) => vector_len(vector),
        Body::Know(fragment) => fragment.encoded_len(),
        Body::End => 0,
    }
}

/// The bytes of a request: what stands before its fragments is at most 17,007 bytes.
#[tactic(auto, using(crate::proofs::LengthLemmas::length_of_ask))]
pub fn ask_len(ask: &Ask) -> usize
    ensures exact { result ≡ length (ask_bytes ask.now) }
    ensures most { result < 2 ^ 55 }
    ensures head { result ≤ 17007 + total_len ask.now.fragments }
{
    ASK_HEAD_BYTES + filter_len(ask.filter()) + FRAGMENT_COUNT_BYTES + ask.fragments_len()
}

/// The bytes of a record: its header and what it says.
pub(crate) fn record_len(sent: &Record) -> usize
    ensures exact { result ≡ length (part_bytes (Frame.Record sent.now)) }
    ensures most { result ≤ 8017007 }
{
    HEADER_BYTES + body_len(sent.body())
}

/// The bytes of a receipt.
pub fn receipt_len(receipt: &Receipt) -> usize
    ensures exact { result ≡ length (part_bytes (Frame.Receipt receipt.now)) }
    ensures most { result ≤ 8017007 }
{
    AUTHOR_BYTES + descent_len(receipt.descent.below())
}

/// The bytes of what stands behind the kind of a frame.
pub fn parts_len(frame: &Frame) -> usize
    ensures exact { result ≡ length (part_bytes frame.now) }
    ensures most { result < 2 ^ 55 }
    ensures short { HasShortFragments frame.now → result ≤ 8017007 }
{
    match frame {
        Frame::Ask(ask) => ask_len(ask),
        Frame::Record(record) => record_len(record),
        Frame::Receipt(receipt) => receipt_len(receipt),
    }
}
