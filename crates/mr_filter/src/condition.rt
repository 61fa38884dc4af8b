//! Conditions, as they stand in a filter's text.
ghost use Rattle.std.specs.Prelude.{◌≡◌, ℕ, List, ◌∷◌, ◌++◌, ◌↔◌, IsTrue, IsSome, IfSome, IfNone, IsSomeAnd};
ghost use Rattle.mr_mail.specs.Label.{is_label};
ghost use Rattle.mr_filter.specs.Condition.{SpellsCondition, IsValueOf, kind_of};
ghost use Rattle.mr_filter.specs.Condition as specs;
ghost use Rattle.mr_filter.specs.inner.Written.{meaning_of, LacksColon};

use mr_mail::{Day, Flag, Label};

/// One condition of a filter's text. A label is lent from the text.
#[derive(Clone, Copy)]
pub(crate) enum Condition<'a> {
    HasLabel(&'a str),
    LacksLabel(&'a str),
    HasFlag(Flag),
    LacksFlag(Flag),
    Since(Day),
}

/// The condition that a piece of a text is, if it is one.
pub(crate) fn condition_of(piece: &str) -> Option<Condition<'_>>
    ensures found { IfSome result (λ condition. SpellsCondition piece.now (meaning_of condition)) }
    ensures none { IfNone result
        ((condition : specs.Condition) → SpellsCondition piece.now condition → ⊥) }
{
    let (kind, value) = kind_and_value(piece)?;
    condition_from(kind, value)
}

/// The condition of this kind with this value, if there is one.
fn condition_from<'a>(kind: &str, value: &'a str) -> Option<Condition<'a>>
    ensures kind { IfSome result (λ condition. kind.now ≡ kind_of (meaning_of condition)) }
    ensures value { IfSome result (λ condition. IsValueOf (meaning_of condition) value.now) }
    ensures none { IfNone result
        ((condition : specs.Condition) → kind.now ≡ kind_of condition → IsValueOf condition value.now → ⊥) }
{
    match kind {
        "label" => Some(Condition::HasLabel(label_text(value)?)),
        "!label" => Some(Condition::LacksLabel(label_text(value)?)),
        "flag" => Some(Condition::HasFlag(Flag::from_name(value)?)),
        "!flag" => Some(Condition::LacksFlag(Flag::from_name(value)?)),
        "since" => Some(Condition::Since(Day::read(value).ok()?)),
        _ => None,
    }
}

/// The text, if it is a label's.
fn label_text(text: &str) -> Option<&str>
    ensures found { IfSome result (λ label. label.now ≡ text.now) }
    ensures exact { IsSome result ↔ IsTrue (is_label text.now) }
{
    if Label::admits(text) {
        Some(text)
    } else {
        None
    }
}

/// What stands before the first colon, and what stands behind it.
fn kind_and_value(piece: &str) -> Option<(&str, &str)>
    ensures found { IfSome result (λ parts. piece.now ≡ parts.0.now ++ 58 ∷ parts.1.now) }
    ensures complete { (kind value : List ℕ) → LacksColon kind → piece.now ≡ kind ++ 58 ∷ value
        → IsSomeAnd result (λ parts. (parts.0.now ≡ kind) × (parts.1.now ≡ value)) }
{
    piece.split_once(':')
}
