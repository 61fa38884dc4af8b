//! Labels: a count, and each label behind its length.
ghost use Rattle.std.specs.Prelude.{◌≡◌, None, Some, IfSome};
ghost use Rattle.std.specs.Option.{option_copied};
ghost use Rattle.mr_mail.specs.Label.{is_label, is_label_byte};
ghost use Rattle.std.specs.List.{list_all};
ghost use Rattle.mr_wire.specs.Parts.{label_at, label_follows, flags_at};
ghost use Rattle.mr_wire.specs.Reading.{Gives, Finds, run_at};
ghost use Rattle.mr_wire.specs.inner.Labels.{FindsLabels, next_label};

use crate::input::Input;
use crate::keep::{keep, room};
use mr_mail::{Flags, Label, MAX_LABEL_BYTES, MAX_LABELS};
use std::alloc::Global;

/// The fewest bytes of a label behind its length.
const LABEL_BYTES: usize = 2;

/// Whether a label may have each of these bytes.
fn are_label_bytes(bytes: &[u8]) -> bool
    ensures { result ≡ list_all is_label_byte bytes.now }
{
    bytes
        .iter()
        .all(|byte| matches!(*byte, b'a'..=b'z' | b'0'..=b'9' | b'-'))
}

/// Whether the bytes are a label's.
fn is_label_text(bytes: &[u8]) -> bool
    ensures { result ≡ is_label bytes.now }
{
    1 <= bytes.len() && bytes.len() <= MAX_LABEL_BYTES && are_label_bytes(bytes)
}

/// Whether the label may stand behind the one before it, if there is one.
fn follows(before: Option<&[u8]>, label: &[u8]) -> bool
    ensures { result ≡ label_follows (option_copied before.entry) label.now }
{
    match before {
        None => true,
        Some(before) => before.cmp(label).is_lt(),
    }
}

/// The bytes of a label that may stand behind the one before it.
fn label_bytes<'a>(input: &mut Input<'a>, before: Option<&'a [u8]>) -> Option<&'a [u8]>
    ensures { Gives (label_at (option_copied before.entry)) input.old (option_copied result) input.new }
{
    let len = input.u8()?;
    let label = input.bytes(usize::from(len))?;
    if is_label_text(label) && follows(before, label) {
        Some(label)
    } else {
        None
    }
}

/// The label of these bytes.
fn label_of(bytes: &[u8]) -> Option<Label>
    ensures { IfSome result (λ label. label ≡ bytes.now) }
{
    let text = str::from_utf8(bytes).ok()?;
    Label::read(text).ok()
}

/// So many labels, which rise.
fn label_run(input: &mut Input<'_>, memory: Option<Global>, count: u8) -> Option<Option<Vec<Label>>>
    ensures { Finds (λ v. v.items) (run_at label_at next_label None count) input.old result input.new }
{
    let most = input.len() / LABEL_BYTES;
    let mut labels = room(memory, most.min(usize::from(count)));
    let mut before = None;
    for _ in 0..count {
        let label = label_bytes(input, before)?;
        keep(&mut labels, label_of(label));
        before = Some(label);
    }
    Some(labels)
}

/// At most sixteen labels, which rise, and how many they are.
pub(crate) fn labels(
    input: &mut Input<'_>,
    memory: Option<Global>,
) -> Option<(Option<Vec<Label>>, u8)>
    ensures { FindsLabels input.old result input.new }
{
    let count = input.u8()?;
    if usize::from(count) > MAX_LABELS {
        return None;
    }
    let labels = label_run(input, memory, count)?;
    Some((labels, count))
}

/// A set of flags.
pub(crate) fn flags(input: &mut Input<'_>) -> Option<Flags>
    ensures { Gives flags_at input.old result input.new }
{
    Flags::from_bits(input.u8()?)
}
