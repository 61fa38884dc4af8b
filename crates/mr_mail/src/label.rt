//! Labels, which stand for folders.
ghost use Rattle.std.specs.Prelude.{◌≡◌, ◌↔◌, IsTrue, IsOk, IfOk, IfErr, Some, refl, true, string_bytes, length};
ghost use Rattle.std.specs.List.{list_all, AllPass};
ghost use Rattle.std.specs.Cmp;
ghost use Rattle.std.specs.Cmp.Lexicographic.{nat_list_eq_equiv, nat_list_cmp_total, texts_ties, texts_po};
ghost use Rattle.mr_mail.specs.Label.{text_cmp, text_eq, is_label, is_label_byte, texts_of, different_labels, AreLabelsOf};

use crate::fault::MessageFault;
use arrayvec::ArrayString;
use std::alloc::{AllocError, Global};
use std::cmp::Ordering;
use std::marker::Model;

/// The most bytes of a label.
pub const MAX_LABEL_BYTES: usize = 32;

/// The most labels of a message.
pub const MAX_LABELS: usize = 16;

/// A label: one to 32 bytes of a-z, 0-9 and `-`. Labels are compared by their bytes.
///
/// The bytes lie in the value, which has 40 with their number: a label takes no memory of its own.
#[derive(Debug, Drop)]
pub struct Label {
    text: ArrayString<MAX_LABEL_BYTES>,
}

impl Model for Label {
    ghost use Rattle.std.specs.Prelude.{ℕ, List, IsTrue};
    ghost use Rattle.mr_mail.specs.Label.{is_label};

    ghost Value = { List ℕ };

    ghost view = { λ l. l.text.bytes };

    ghost invariant = { λ l. IsTrue (is_label l.text.bytes) };
}

/// Whether a label may have the byte.
fn is_byte_of_label(byte: u8) -> bool
    ensures { result ≡ is_label_byte byte }
{
    matches!(byte, b'a'..=b'z' | b'0'..=b'9' | b'-')
}

/// Whether a label may have each of these bytes.
fn are_bytes_of_label(bytes: &[u8]) -> bool
    ensures { result ≡ list_all is_label_byte bytes.now }
{
    bytes.iter().all(|byte| is_byte_of_label(*byte))
}

/// Whether each of the texts is a label's.
pub(crate) fn are_texts_of_labels(texts: &[String]) -> bool
    ensures { result ≡ list_all (λ text. is_label (string_bytes text)) texts.now }
{
    texts.iter().all(|text| Label::admits(text.as_str()))
}

/// Sorts the texts by their bytes, and drops repeats.
pub(crate) fn sort_once(texts: &mut Vec<String>)
    ensures labels { AreLabelsOf (texts_of texts.old.items) (texts_of texts.new.items) }
    ensures each { list_all is_label (texts_of texts.old.items) ≡ true
        → AllPass is_label (texts_of texts.new.items) }
    ensures count { length texts.new.items ≡ different_labels (texts_of texts.old.items) }
{
    texts.sort_unstable();
    texts.dedup();
}

/// The labels of these texts, in the same order. They take one piece of memory.
pub(crate) fn into_labels(alloc: Global, texts: Vec<String>) -> Result<Vec<Label>, AllocError>
    requires { AllPass is_label (texts_of texts.items) }
    ensures { IfOk result (λ labels. labels.items ≡ texts_of texts.items) }
{
    let mut labels = Vec::with_capacity(alloc, texts.len())?;
    for text in texts {
        labels.push(label_of(text.as_str()))?;
    }
    Ok(labels)
}

/// The label of this text.
fn label_of(text: &str) -> Label
    requires { IsTrue (is_label text.now) }
    ensures { result ≡ text.now }
{
    let mut label = ArrayString::new();
    label.push_str(text);
    Label { text: label }
}

impl Label {
    /// Whether the text is a label's: one to 32 bytes of a-z, 0-9 and `-`.
    pub fn admits(text: &str) -> bool
        ensures { result ≡ is_label text.now }
    {
        1 <= text.len() && text.len() <= MAX_LABEL_BYTES && are_bytes_of_label(text.as_bytes())
    }

    /// The label of this text. `BadLabel` if the text is none of a label. It asks for no memory, and gives back that
    /// of the text.
    pub fn try_new(text: String) -> Result<Label, MessageFault>
        ensures exact { IsOk result ↔ IsTrue (is_label (string_bytes text)) }
        ensures value { IfOk result (λ label. label ≡ string_bytes text) }
        ensures fault { IfErr result (λ fault. fault ≡ MessageFault.BadLabel) }
    {
        Label::read(text.as_str())
    }

    /// The label of this text, which is lent. `BadLabel` if the text is none of a label. It asks for no memory.
    pub fn read(text: &str) -> Result<Label, MessageFault>
        ensures exact { IsOk result ↔ IsTrue (is_label text.now) }
        ensures value { IfOk result (λ label. label ≡ text.now) }
        ensures fault { IfErr result (λ fault. fault ≡ MessageFault.BadLabel) }
    {
        if Label::admits(text) {
            Ok(label_of(text))
        } else {
            Err(MessageFault::BadLabel)
        }
    }

    /// The label's text.
    pub fn as_str(&self) -> &str
        ensures value { result.now ≡ self.now }
        ensures is_label { IsTrue (is_label self.now) }
    {
        self.text.as_str()
    }

    /// An equal label. It asks for no memory, and never fails.
    pub fn copy(&self) -> Result<Label, AllocError>
        ensures { IfOk result (λ label. label ≡ self.now) }
    {
        Ok(Label { text: self.text })
    }

    /// Equal labels, in the same order. They take one piece of memory.
    pub fn copy_all(alloc: Global, labels: &[Label]) -> Result<Vec<Label>, AllocError>
        ensures { IfOk result (λ copied. copied.items ≡ labels.now) }
    {
        let mut copied = Vec::with_capacity(alloc, labels.len())?;
        for label in labels {
            copied.push(label.copy()?)?;
        }
        Ok(copied)
    }
}

impl PartialEq for Label {
    ghost eq = { text_eq };

    ghost laws = { Cmp.partial_equiv_from_equiv nat_list_eq_equiv };

    fn eq(&self, other: &Label) -> bool {
        self.text == other.text
    }
}

impl Eq for Label {
    ghost laws = { nat_list_eq_equiv };
}

impl PartialOrd for Label {
    ghost partial_cmp = { λ a b. Some (text_cmp a b) };

    ghost laws = { texts_po };

    fn partial_cmp(&self, other: &Label) -> Option<Ordering> {
        Some(self.cmp(other))
    }
}

impl Ord for Label {
    ghost cmp = { text_cmp };

    ghost total = { nat_list_cmp_total };

    ghost matches_partial_cmp = { λ _ _. refl };

    ghost matches_eq = { texts_ties };

    fn cmp(&self, other: &Label) -> Ordering {
        self.text.cmp(&other.text)
    }
}
