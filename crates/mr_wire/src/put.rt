//! Parts of frames, appended to bytes.
ghost use Rattle.std.specs.Prelude.{◌≡◌, ◌≤◌, ◌<◌, ◌^◌, ◌++◌, OnOk, All, length};
ghost use Rattle.std.specs.List.{flat_map};
ghost use Rattle.std.specs.Str.{IsUtf8};
ghost use Rattle.mr_concise.specs.Column.{IsColumn};
ghost use Rattle.mr_concise.specs.Vector.{IsVectorFrom};
ghost use Rattle.mr_filter.specs.Filter.{IsFilter};
ghost use Rattle.mr_madewith.specs.Revision.{IsRevision};
ghost use Rattle.mr_mail.specs.Label.{IsLabelSet};
ghost use Rattle.mr_mail.specs.Mail.{IsMail};
ghost use Rattle.mr_version.specs.Name.{IsVersion};
ghost use Rattle.mr_wire.specs.inner.FrameParts.{descent_with};
ghost use Rattle.mr_wire.specs.Grammar.{AreFramed, IsDescent, IsFramed, IsItem, IsLetter};
ghost use Rattle.mr_wire.specs.Values.{AreItems, listed_items};
ghost use Rattle.mr_wire.specs.Spelling.{u16, u32, name_bytes, hole_bytes, column_bytes, vector_bytes, label_bytes, labels_bytes, clause_bytes, filter_bytes, texts_bytes, card_bytes, message_bytes, items_bytes, fragment_bytes, descent_bytes};
ghost use Rattle.mr_mail.specs.declared.message.TheConstants.{MAX_BODY_BYTES};

use crate::fragment::FrameFragment;
use crate::items::{ALL_ITEMS, LISTED_ITEMS};
use mr_concise::{AuthorColumn, ConciseVector, Hole};
use mr_filter::{Clause, Filter};
use mr_forms::ItemSet;
use mr_mail::{Label, Message};
use mr_version::{ItemId, Version};
use std::alloc::AllocError;

pub(crate) fn put_u16(out: &mut Vec<u8>, n: u16) -> Result<(), AllocError>
    ensures { OnOk result (out.new.items ≡ out.old.items ++ u16 n) }
{
    out.extend_from_slice(&n.to_be_bytes())
}

/// Writes a number of four bytes.
pub fn put_u32(out: &mut Vec<u8>, n: u32) -> Result<(), AllocError>
    ensures { OnOk result (out.new.items ≡ out.old.items ++ u32 n) }
{
    out.extend_from_slice(&n.to_be_bytes())
}

/// Writes a version, or the version that created an item: author and counter.
pub fn put_version(out: &mut Vec<u8>, version: Version) -> Result<(), AllocError>
    ensures written { OnOk result (out.new.items ≡ out.old.items ++ name_bytes version) }
    ensures in_grammar { OnOk result (IsVersion version.author version.counter) }
{
    let [a, b] = version.author().id().to_be_bytes();
    let [c, d, e, f] = version.counter().to_be_bytes();
    out.extend_from_slice(&[a, b, c, d, e, f])
}

fn put_hole(out: &mut Vec<u8>, hole: Hole) -> Result<(), AllocError>
    ensures { OnOk result (out.new.items ≡ out.old.items ++ hole_bytes hole) }
{
    let [a, b, c, d] = hole.first.to_be_bytes();
    let [e, f, g, h] = hole.last.to_be_bytes();
    out.extend_from_slice(&[a, b, c, d, e, f, g, h])
}

fn put_holes(out: &mut Vec<u8>, holes: &[Hole]) -> Result<(), AllocError>
    ensures { OnOk result (out.new.items ≡ out.old.items ++ flat_map hole_bytes holes.now) }
{
    for hole in holes {
        put_hole(out, *hole)?;
    }
    Ok(())
}

fn put_column(out: &mut Vec<u8>, x: &AuthorColumn) -> Result<(), AllocError>
    requires { IsColumn x.now.column }
    ensures { OnOk result (out.new.items ≡ out.old.items ++ column_bytes x.now) }
{
    let holes = x.column.holes();
    let [a, b] = x.author.id().to_be_bytes();
    let [c, d, e, f] = x.column.upto().to_be_bytes();
    let [g, h] = (holes.len() as u16).to_be_bytes();
    out.extend_from_slice(&[a, b, c, d, e, f, g, h])?;
    put_holes(out, holes)
}

fn put_columns(out: &mut Vec<u8>, columns: &[AuthorColumn]) -> Result<(), AllocError>
    requires { IsVectorFrom 0 columns.now }
    ensures { OnOk result (out.new.items ≡ out.old.items ++ flat_map column_bytes columns.now) }
{
    for x in columns {
        put_column(out, x)?;
    }
    Ok(())
}

pub(crate) fn put_vector(out: &mut Vec<u8>, vector: &ConciseVector) -> Result<(), AllocError>
    ensures written { OnOk result (out.new.items ≡ out.old.items ++ vector_bytes vector.now) }
    ensures in_grammar { OnOk result (IsVectorFrom 0 vector.now) }
{
    let columns = vector.author_columns();
    put_u16(out, columns.len() as u16)?;
    put_columns(out, columns)
}

fn put_label(out: &mut Vec<u8>, label: &Label) -> Result<(), AllocError>
    ensures { OnOk result (out.new.items ≡ out.old.items ++ label_bytes label.now) }
{
    let text = label.as_str();
    out.push(text.len() as u8)?;
    out.extend_from_slice(text.as_bytes())
}

fn put_label_run(out: &mut Vec<u8>, labels: &[Label]) -> Result<(), AllocError>
    ensures { OnOk result (out.new.items ≡ out.old.items ++ flat_map label_bytes labels.now) }
{
    for label in labels {
        put_label(out, label)?;
    }
    Ok(())
}

fn put_labels(out: &mut Vec<u8>, labels: &[Label]) -> Result<(), AllocError>
    requires { IsLabelSet labels.now }
    ensures { OnOk result (out.new.items ≡ out.old.items ++ labels_bytes labels.now) }
{
    out.push(labels.len() as u8)?;
    put_label_run(out, labels)
}

fn put_clause(out: &mut Vec<u8>, clause: &Clause) -> Result<(), AllocError>
    ensures { OnOk result (out.new.items ≡ out.old.items ++ clause_bytes clause.now) }
{
    put_labels(out, clause.all_labels())?;
    put_labels(out, clause.no_labels())?;
    out.push(clause.flags_on().bits())?;
    out.push(clause.flags_off().bits())?;
    put_u16(out, clause.since().days())
}

fn put_clauses(out: &mut Vec<u8>, clauses: &[Clause]) -> Result<(), AllocError>
    ensures { OnOk result (out.new.items ≡ out.old.items ++ flat_map clause_bytes clauses.now) }
{
    for clause in clauses {
        put_clause(out, clause)?;
    }
    Ok(())
}

pub(crate) fn put_filter(out: &mut Vec<u8>, filter: &Filter) -> Result<(), AllocError>
    ensures written { OnOk result (out.new.items ≡ out.old.items ++ filter_bytes filter.now) }
    ensures in_grammar { OnOk result (IsFilter filter.now) }
{
    let clauses = filter.clauses();
    out.push(clauses.len() as u8)?;
    put_clauses(out, clauses)
}

fn put_text(out: &mut Vec<u8>, text: &str) -> Result<(), AllocError>
    requires { length text.now < 2 ^ 16 }
    ensures { OnOk result (out.new.items ≡ out.old.items ++ (u16 (length text.now) ++ text.now)) }
{
    put_u16(out, text.len() as u16)?;
    out.extend_from_slice(text.as_bytes())
}

fn put_message_body(out: &mut Vec<u8>, body: &[u8]) -> Result<(), AllocError>
    requires { length body.now ≤ MAX_BODY_BYTES }
    ensures { OnOk result (out.new.items ≡ out.old.items ++ (u32 (length body.now) ++ body.now)) }
{
    put_u32(out, body.len() as u32)?;
    out.extend_from_slice(body)
}

/// Sender, subject and body.
fn put_texts(out: &mut Vec<u8>, message: &Message) -> Result<(), AllocError>
    ensures written { OnOk result (out.new.items ≡ out.old.items ++ texts_bytes message.now) }
    ensures from { OnOk result (IsUtf8 message.now.from) }
    ensures subject { OnOk result (IsUtf8 message.now.subject) }
{
    put_text(out, message.from())?;
    put_text(out, message.subject())?;
    put_message_body(out, message.body())
}

/// Labels, flags and the day.
fn put_card(out: &mut Vec<u8>, message: &Message) -> Result<(), AllocError>
    ensures written { OnOk result (out.new.items ≡ out.old.items ++ card_bytes message.now) }
    ensures in_grammar { OnOk result (IsMail message.now) }
{
    put_labels(out, message.labels())?;
    out.push(message.flags().bits())?;
    put_u16(out, message.day().days())
}

/// Writes a message: sender, subject and body behind their lengths, labels, flags and day.
pub fn put_message(out: &mut Vec<u8>, message: &Message) -> Result<(), AllocError>
    ensures written { OnOk result (out.new.items ≡ out.old.items ++ message_bytes message.now) }
    ensures in_grammar { OnOk result (IsLetter message.now) }
{
    put_texts(out, message)?;
    put_card(out, message)
}

fn put_items(out: &mut Vec<u8>, items: &[ItemId]) -> Result<(), AllocError>
    ensures written { OnOk result (out.new.items ≡ out.old.items ++ flat_map name_bytes items.now) }
    ensures in_grammar { OnOk result (All IsItem items.now) }
{
    for item in items {
        put_version(out, item.creator())?;
    }
    Ok(())
}

fn put_item_set(out: &mut Vec<u8>, items: &ItemSet) -> Result<(), AllocError>
    requires { AreItems (listed_items items.now) }
    ensures written { OnOk result (out.new.items ≡ out.old.items ++ items_bytes (listed_items items.now)) }
    ensures in_grammar { OnOk result (AreFramed (listed_items items.now)) }
{
    match items {
        ItemSet::All => Ok(out.push(ALL_ITEMS)?),
        ItemSet::Listed(items) => {
            out.push(LISTED_ITEMS)?;
            put_u32(out, items.len() as u32)?;
            put_items(out, items)
        }
    }
}

pub(crate) fn put_fragment(out: &mut Vec<u8>, piece: &FrameFragment) -> Result<(), AllocError>
    ensures written { OnOk result (out.new.items ≡ out.old.items ++ fragment_bytes piece.now) }
    ensures in_grammar { OnOk result (IsFramed piece.now) }
{
    let fragment = piece.as_fragment();
    put_item_set(out, &fragment.items)?;
    put_vector(out, &fragment.vector)
}

pub(crate) fn put_descent(
    out: &mut Vec<u8>,
    item: ItemId,
    version: Version,
    below: &ConciseVector,
) -> Result<(), AllocError>
    requires { IsRevision item version below.now }
    ensures written { OnOk result (out.new.items ≡ out.old.items ++ descent_bytes (descent_with item version below.now)) }
    ensures in_grammar { OnOk result (IsDescent (descent_with item version below.now)) }
{
    put_version(out, item.creator())?;
    put_version(out, version)?;
    put_vector(out, below)
}
