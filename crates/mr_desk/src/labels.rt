//! The labels of a draft: the parts of a text between its commas.
ghost use Rattle.std.specs.Prelude.{◌≡◌, [], ◌∷◌, IfOk, MatchOption};
ghost use Rattle.mr_mail.specs.Label.{texts_of};
ghost use Rattle.mr_desk.specs.Draft.{labels_of, parts_of};
ghost use Rattle.mr_desk.specs.inner.Draft.{parts_left};

use std::alloc::{AllocError, Global};
use std::marker::Model;

/// The parts of a text that are left to be read.
#[derive(Drop)]
struct Parts<'a> {
    rest: Option<&'a str>,
}

impl<'a> Model for Parts<'a> {
    ghost use Rattle.std.specs.Prelude.{ℕ, List};
    ghost use Rattle.mr_desk.specs.inner.Draft.{parts_left};

    ghost Value = { List (List ℕ) };

    ghost view = { λ p. parts_left p.rest };
}

impl<'a> Parts<'a> {
    /// The parts of the text between its commas. An empty one has none.
    fn of(text: &'a str) -> Parts<'a>
        ensures { result ≡ labels_of text.now }
    {
        let rest = if text.is_empty() { None } else { Some(text) };
        Parts { rest }
    }

    /// Takes the next part. `None` where none is left.
    fn next_part(&mut self) -> Option<&'a str>
        ensures { MatchOption result ((self.old ≡ []) × (self.new ≡ []))
            (λ part. self.old ≡ part.now ∷ self.new) }
    {
        let (part, after) = first_part(self.rest?);
        self.rest = after;
        Some(part)
    }
}

/// The first part of a text, and what stands behind its comma if that is not its only one.
fn first_part(text: &str) -> (&str, Option<&str>)
    ensures { parts_of text.now ≡ result.0.now ∷ parts_left result.1 }
{
    match text.split_once(',') {
        Some((part, after)) => (part, Some(after)),
        None => (text, None),
    }
}

/// The labels of a text with commas between them. They need not be labels.
pub(crate) fn labels_of(alloc: Global, text: &str) -> Result<Vec<String>, AllocError>
    ensures { IfOk result (λ labels. texts_of labels.items ≡ labels_of text.now) }
{
    let mut labels = Vec::new(alloc);
    let mut parts = Parts::of(text);
    while let Some(part) = parts.next_part() {
        labels.push(String::from_str(alloc, part)?)?;
    }
    Ok(labels)
}
