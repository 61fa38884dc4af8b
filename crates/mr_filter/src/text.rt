//! How clauses and filters are written.
ghost use Rattle.std.specs.Prelude.{◌≡◌, ◌++◌, IfOk, OnOk, map, filter, string_bytes};
ghost use Rattle.std.specs.List.{AllZip, flat_map};
ghost use Rattle.mr_mail.specs.Flag.{all_flags, flag_name, has_flag};
ghost use Rattle.mr_mail.specs.Label.{texts_of};
ghost use Rattle.mr_filter.specs.Text.{IsClauseText, IsFilterText, join_or, since_condition};
ghost use Rattle.mr_filter.specs.inner.Text.{SpellsMore};

use crate::clause::Clause;
use mr_mail::{Day, Flags, Label};
use std::alloc::{AllocError, Global};

/// The text of these clauses: each one's, or `none` for no clause.
pub(crate) fn filter_text(alloc: Global, clauses: &[Clause]) -> Result<String, AllocError>
    ensures { IfOk result (λ text. IsFilterText clauses.now (string_bytes text)) }
{
    let texts = clause_texts(alloc, clauses)?;
    joined(alloc, "none", " | ", texts.as_slice())
}

/// The clauses' texts, in their order.
fn clause_texts(alloc: Global, clauses: &[Clause]) -> Result<Vec<String>, AllocError>
    ensures { IfOk result (λ texts. AllZip IsClauseText clauses.now (texts_of texts.items)) }
{
    let mut texts = Vec::with_capacity(alloc, clauses.len())?;
    for clause in clauses {
        texts.push(clause_text(alloc, clause)?)?;
    }
    Ok(texts)
}

/// The text of a clause: its conditions, or `all` if it has none.
fn clause_text(alloc: Global, clause: &Clause) -> Result<String, AllocError>
    ensures { IfOk result (λ text. IsClauseText clause.now (string_bytes text)) }
{
    let mut texts = Vec::new(alloc);
    push_labels(alloc, &mut texts, "label:", clause.all_labels())?;
    push_labels(alloc, &mut texts, "!label:", clause.no_labels())?;
    push_flags(alloc, &mut texts, "flag:", clause.flags_on())?;
    push_flags(alloc, &mut texts, "!flag:", clause.flags_off())?;
    push_since(alloc, &mut texts, clause.since())?;
    joined(alloc, "all", " & ", texts.as_slice())
}

/// Appends the conditions on these labels.
fn push_labels(
    alloc: Global,
    texts: &mut Vec<String>,
    prefix: &str,
    labels: &[Label],
) -> Result<(), AllocError>
    ensures { OnOk result (texts_of texts.new.items
        ≡ texts_of texts.old.items ++ map (λ label. prefix.now ++ label) labels.now) }
{
    for label in labels {
        texts.push(format!(in alloc; "{prefix}{}", label.as_str())?)?;
    }
    Ok(())
}

/// Appends the conditions on these flags.
fn push_flags(
    alloc: Global,
    texts: &mut Vec<String>,
    prefix: &str,
    flags: Flags,
) -> Result<(), AllocError>
    ensures { OnOk result (texts_of texts.new.items ≡ texts_of texts.old.items
        ++ map (λ flag. prefix.now ++ flag_name flag) (filter (has_flag flags) all_flags)) }
{
    let flags = flags.list(alloc)?;
    for flag in &flags {
        texts.push(format!(in alloc; "{prefix}{}", flag.name())?)?;
    }
    Ok(())
}

/// Appends the condition on the day, unless each day meets it.
fn push_since(alloc: Global, texts: &mut Vec<String>, since: Day) -> Result<(), AllocError>
    ensures { OnOk result
        (SpellsMore (texts_of texts.old.items) (texts_of texts.new.items) (since_condition since)) }
{
    if since.days() > 0 {
        let date = since.text(alloc)?;
        texts.push(format!(in alloc; "since:{}", date.as_str())?)?;
    }
    Ok(())
}

/// The texts with the separator between each two, or `none` for no text.
fn joined(
    alloc: Global,
    none: &str,
    separator: &str,
    texts: &[String],
) -> Result<String, AllocError>
    ensures { IfOk result (λ text. string_bytes text ≡ join_or none.now separator.now (texts_of texts.now)) }
{
    let Some((first, rest)) = texts.split_first() else {
        return String::from_str(alloc, none);
    };
    let mut text = first.clone()?;
    push_each(&mut text, separator, rest)?;
    Ok(text)
}

/// Appends the texts, each behind the separator.
fn push_each(text: &mut String, separator: &str, more: &[String]) -> Result<(), AllocError>
    ensures { OnOk result (string_bytes text.new
        ≡ string_bytes text.old ++ flat_map (λ part. separator.now ++ part) (texts_of more.now)) }
{
    for part in more {
        text.push_str(separator)?;
        text.push_str(part.as_str())?;
    }
    Ok(())
}
