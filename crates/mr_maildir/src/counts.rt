//! The counts of a mail's elements, as lines of a body tell them.
ghost use Rattle.std.specs.Prelude.{◌≡◌, ◌≢◌, ◌<◌, ◌≤◌, ◌^◌, ◌&&◌, ◌∷◌, ◌++◌, ◌==◌, ℕ, List, Option, Some, None, IfOk, IfSome, IfNone, IsTrue, OnOk, [], codes, true, not, map, drop, length, string_bytes};
ghost use Rattle.std.specs.Fmt.{decimal};
ghost use Rattle.std.specs.List.{list_all, flat_map};
ghost use Rattle.std.specs.Option.{option_copied};
ghost use Rattle.mr_version.specs.Name.{Name, name_eq, name_text};
ghost use Rattle.mr_joins.specs.declared.count.Count.{Count};
ghost use Rattle.mr_joins.specs.declared.element.Element.{Element};
ghost use Rattle.mr_joins.specs.declared.mark.Mark.{Mark};
ghost use Rattle.mr_maildir.specs.Layout.{cut_at};
ghost use Rattle.mr_maildir.specs.Counts.{is_mark, is_count, is_element, is_item, count_text, element_text, mark_text, item_key, counts_lines, ended};
ghost use Rattle.mr_maildir.specs.Letters.{letter_of};
ghost use Rattle.mr_maildir.specs.inner.Counts.{between, gone_text, line_of, marks_behind, pair_words, item_words, is_run};

use mr_joins::{Count, Element, Mark, Word};
use mr_mail::{Flag, Label};
use mr_version::{ItemId, Version, read_decimal};
use std::alloc::{AllocError, Global};

/// The parts of a text, cut at its spaces.
fn words_of(alloc: Global, text: &str) -> Result<Vec<&str>, AllocError>
    ensures { IfOk result (λ words. map (λ word. word.now) words.items ≡ cut_at 32 text.now) }
{
    text.split(' ').collect(alloc)
}

/// The number below 2^32 that the text is in decimal.
fn read_u32(text: &str) -> Option<u32>
    ensures { (n : ℕ) → n < 2 ^ 32 → text.now ≡ decimal n → result ≡ Some n }
{
    u32::try_from(read_decimal(text)?).ok()
}

/// What stands in front of the first slash, and behind it, if there is one.
fn parts_at_slash(text: &str) -> (&str, Option<&str>)
    ensures { (count : Count) → is_count count ≡ true → text.now ≡ count_text count
        → (result.0.now ≡ decimal count.raised) × (option_copied result.1 ≡ gone_text count.gone) }
{
    match text.split_once('/') {
        Some((front, back)) => (front, Some(back)),
        None => (text, None),
    }
}

/// The number behind a slash; 0 where there is none.
fn read_gone(text: Option<&str>) -> Option<u32>
    ensures { (gone : ℕ) → gone < 2 ^ 32 → option_copied text.entry ≡ gone_text gone → result ≡ Some gone }
{
    match text {
        Some(text) => read_u32(text),
        None => Some(0),
    }
}

/// The count that a text tells.
fn read_count(text: &str) -> Option<Count>
    ensures is { IfSome result (λ count. IsTrue (is_count count)) }
    ensures whole { (count : Count) → is_count count ≡ true → text.now ≡ count_text count → result ≡ Some count }
{
    let (front, back) = parts_at_slash(text);
    let raised = read_u32(front)?;
    let gone = read_gone(back)?;
    if 1 <= raised && gone <= raised {
        Some(Count { raised, gone })
    } else {
        None
    }
}

/// The flag of this letter.
fn read_flag(text: &str) -> Option<Flag>
    ensures spelled { IfSome result (λ flag. letter_of flag ∷ [] ≡ text.now) }
    ensures whole { (flag : Flag) → text.now ≡ letter_of flag ∷ [] → result ≡ Some flag }
{
    match text {
        "D" => Some(Flag::Draft),
        "F" => Some(Flag::Flagged),
        "R" => Some(Flag::Answered),
        "S" => Some(Flag::Seen),
        "T" => Some(Flag::Deleted),
        _ => None,
    }
}

/// The element that a word tells.
fn read_element(alloc: Global, text: &str) -> Result<Option<Element>, AllocError>
    ensures is { IfOk result (λ found. IfSome found (λ e. IsTrue (is_element e))) }
    ensures whole { (e : Element) → is_element e ≡ true → text.now ≡ element_text e → IfOk result (λ found. found ≡ Some e) }
{
    if let Some(flag) = read_flag(text) {
        return Ok(Some(Element::Flag(flag)));
    }
    if let Ok(label) = Label::read(text) {
        return Ok(Some(Element::Folder(label)));
    }
    match Word::read(alloc, text)? {
        Some(word) => Ok(Some(Element::Other(word))),
        None => Ok(None),
    }
}

/// The mark of an item's element.
fn read_mark(
    alloc: Global,
    item: ItemId,
    element: &str,
    count: &str,
) -> Result<Option<Mark>, AllocError>
    ensures is { IsTrue (is_item item) → IfOk result (λ found. IfSome found (λ m. IsTrue (is_mark m))) }
    ensures whole { (m : Mark) → is_mark m ≡ true → m.item ≡ item → element.now ≡ element_text m.element → count.now ≡ count_text m.count
        → IfOk result (λ found. found ≡ Some m) }
{
    let Some(count) = read_count(count) else {
        return Ok(None);
    };
    match read_element(alloc, element)? {
        Some(element) => Ok(Some(Mark {
            item,
            element,
            count,
        })),
        None => Ok(None),
    }
}

/// Appends the marks that words in pairs tell, from a place on. Answers whether they do.
fn read_marks(
    alloc: Global,
    marks: &mut Vec<Mark>,
    item: ItemId,
    words: &[&str],
    from: usize,
) -> Result<bool, AllocError>
    requires item { IsTrue (is_item item) }
    requires from { from ≤ length words.now }
    ensures is { list_all is_mark marks.old.items ≡ true → list_all is_mark marks.new.items ≡ true }
    ensures whole { (run : List Mark) → is_run item run ≡ true → map (λ word. word.now) (drop from words.now) ≡ pair_words run
        → IfOk result (λ all. (all ≡ true) × (marks.new.items ≡ marks.old.items ++ run)) }
{
    let mut i = from;
    while i + 1 < words.len() {
        let Some(mark) = read_mark(alloc, item, words[i], words[i + 1])? else {
            return Ok(false);
        };
        marks.push(mark)?;
        i += 2;
    }
    Ok(i == words.len())
}

/// The item that the words of a line name, of which the second is `of`.
fn item_named(words: &[&str]) -> Option<ItemId>
    ensures is { IfSome result (λ item. IsTrue (is_item item)) }
    ensures long { IfSome result (λ _. 3 ≤ length words.now) }
    ensures spelled { IfSome result (λ item. map (λ word. word.now) (drop 1 words.now) ≡ codes "of" ∷ name_text item ∷ map (λ word. word.now) (drop 3 words.now)) }
    ensures whole { (item : Name) (rest : List (List ℕ)) → is_item item ≡ true → map (λ word. word.now) (drop 1 words.now) ≡ codes "of" ∷ name_text item ∷ rest
        → result ≡ Some item }
{
    if words.len() < 3 || words[1] != "of" {
        return None;
    }
    let creator = Version::read(words[2]).ok()?;
    Some(ItemId::new(creator))
}

/// Appends the marks that a line tells in a record of this item. Answers whether it tells marks and nothing else.
pub(crate) fn read_counts_line(
    alloc: Global,
    own: ItemId,
    marks: &mut Vec<Mark>,
    line: &str,
) -> Result<bool, AllocError>
    requires { IsTrue (is_item own) }
    ensures is { list_all is_mark marks.old.items ≡ true → list_all is_mark marks.new.items ≡ true }
    ensures whole { (item : Name) (run : List Mark) → is_item item ≡ true → is_run item run ≡ true → run ≢ []
        → line.now ≡ line_of own item run
        → IfOk result (λ all. (all ≡ true) × (marks.new.items ≡ marks.old.items ++ run)) }
{
    let words = words_of(alloc, line)?;
    match item_named(&words) {
        Some(item) => read_marks(alloc, marks, item, &words, 3),
        None => read_marks(alloc, marks, own, &words, 1),
    }
}

/// Appends the lines of marks, in a record of this item.
pub(crate) fn push_counts(
    alloc: Global,
    text: &mut String,
    own: ItemId,
    marks: &[Mark],
) -> Result<(), AllocError>
    ensures { OnOk result (string_bytes text.new ≡ string_bytes text.old ++ flat_map ended (counts_lines own marks.now)) }
{
    let Some((first, others)) = marks.split_first() else {
        return Ok(());
    };
    push_item(alloc, text, own, first.item)?;
    push_mark(alloc, text, first)?;
    push_marks_behind(alloc, text, own, first.item, others)?;
    text.push_str("\n")?;
    Ok(())
}

/// Appends marks behind one of this item.
fn push_marks_behind(
    alloc: Global,
    text: &mut String,
    own: ItemId,
    item: ItemId,
    marks: &[Mark],
) -> Result<(), AllocError>
    ensures { OnOk result (string_bytes text.new ≡ string_bytes text.old ++ marks_behind own item marks.now) }
{
    let mut before = item;
    for mark in marks {
        push_between(alloc, text, own, before, mark.item)?;
        push_mark(alloc, text, mark)?;
        before = mark.item;
    }
    Ok(())
}

/// Appends what stands between marks of two items, beside the space in front of each mark.
fn push_between(
    alloc: Global,
    text: &mut String,
    own: ItemId,
    item: ItemId,
    next: ItemId,
) -> Result<(), AllocError>
    ensures { OnOk result (string_bytes text.new ≡ string_bytes text.old ++ between own item next) }
{
    if item != next {
        text.push_str("\n")?;
        push_item(alloc, text, own, next)?;
    }
    Ok(())
}

/// Appends what the line of an item's marks begins with.
fn push_item(alloc: Global, text: &mut String, own: ItemId, item: ItemId) -> Result<(), AllocError>
    ensures { OnOk result (string_bytes text.new ≡ string_bytes text.old ++ item_key own item) }
{
    text.push_str("counts")?;
    if item != own {
        let creator = item.creator().text(alloc)?;
        text.push_str(" of ")?;
        text.push_str(creator.as_str())?;
    }
    Ok(())
}

/// Appends a mark as it stands on its line.
fn push_mark(alloc: Global, text: &mut String, mark: &Mark) -> Result<(), AllocError>
    ensures { OnOk result (string_bytes text.new ≡ string_bytes text.old ++ mark_text mark.now) }
{
    text.push_str(" ")?;
    text.push_str(text_of(&mark.element))?;
    text.push_str(" ")?;
    push_count(alloc, text, mark.count)
}

/// How an element is written.
fn text_of(element: &Element) -> &str
    ensures { result.now ≡ element_text element.now }
{
    match element {
        Element::Flag(flag) => flag_letter(*flag),
        Element::Other(word) => word.as_str(),
        Element::Folder(label) => label.as_str(),
    }
}

/// The letter of a flag.
fn flag_letter(flag: Flag) -> &'static str
    ensures { result.now ≡ letter_of flag ∷ [] }
{
    match flag {
        Flag::Draft => "D",
        Flag::Flagged => "F",
        Flag::Answered => "R",
        Flag::Seen => "S",
        Flag::Deleted => "T",
    }
}

/// Appends how often, and behind a slash how often as the mail was deleted.
fn push_count(alloc: Global, text: &mut String, count: Count) -> Result<(), AllocError>
    ensures { OnOk result (string_bytes text.new ≡ string_bytes text.old ++ count_text count) }
{
    let raised = format!(in alloc; "{}", count.raised)?;
    text.push_str(raised.as_str())?;
    if count.gone != 0 {
        let gone = format!(in alloc; "{}", count.gone)?;
        text.push_str("/")?;
        text.push_str(gone.as_str())?;
    }
    Ok(())
}
