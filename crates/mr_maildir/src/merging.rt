//! What several heads of one mail say together.
ghost use Rattle.std.specs.Prelude.{◌≡◌, ◌<◌, ◌||◌, ◌++◌, [], ◌∷◌, if◌then◌else◌, ℕ, List, not, IfOk, OnOk, filter, length, replicate};
ghost use Rattle.std.specs.List.Sorted.{IsPermutation};
ghost use Rattle.std.specs.List.{list_all, list_any, flat_map};
ghost use Rattle.mr_mail.specs.Label.{has_label};
ghost use Rattle.mr_mail.specs.Flag.{has_flag, flag_eq};
ghost use Rattle.mr_mail.specs.declared.flags.Flag.{Flag};
ghost use Rattle.mr_mail.specs.declared.flags.Flag.TheVariants.{Deleted};
ghost use Rattle.mr_maildir.specs.Letters.{flags_where};
ghost use Rattle.mr_maildir.specs.View.{ViewParts, IsView, is_gone};
ghost use Rattle.mr_maildir.specs.Merging.{asked, with_say, stays_in, stays_flagged, joined, merged_view};

use crate::letters::with_flag_if;
use crate::view::View;
use mr_mail::{Flag, Flags, Label};
use std::alloc::{AllocError, Global};

/// The view that the heads of a mail give together, over the view of their newest common ancestor.
///
/// What the ancestor had, a label or a flag, stays if each head has it, and anything else comes if some head has it. Only
/// where each head says that the mail is deleted, it is. A head whose mail is gone, deleted and in no folder, has no
/// say beside others.
pub fn merged(alloc: Global, ancestor: &View, heads: &[View]) -> Result<View, AllocError>
    requires { 0 < length heads.now }
    ensures value { IfOk result (λ view. view ≡ merged_view ancestor.now heads.now) }

    // The same, label by label and flag by flag.
    ensures labels { (label : List ℕ) → has_label (merged_view ancestor.now heads.now).labels label
        ≡ stays_in ancestor.now (asked heads.now) label }
    ensures flags { (flag : Flag) → has_flag (merged_view ancestor.now heads.now).flags flag
        ≡ stays_flagged ancestor.now (asked heads.now) flag }
    // The order of the heads is indifferent, and heads that are all alike give what they are.
    ensures any_order { (others : List ViewParts) → IsPermutation heads.now others
        → merged_view ancestor.now heads.now ≡ merged_view ancestor.now others }
    ensures alike { (head : ViewParts) (more : ℕ) → IsView head → heads.now ≡ head ∷ replicate more head
        → merged_view ancestor.now heads.now ≡ head }
{
    merged_where(alloc, ancestor, heads, are_gone(heads))
}

/// The view that the heads that have a say give together.
fn merged_where(
    alloc: Global,
    ancestor: &View,
    heads: &[View],
    gone: bool,
) -> Result<View, AllocError>
    ensures { IfOk result (λ view. view ≡ joined ancestor.now (with_say gone heads.now)) }
{
    let labels = staying_labels(alloc, ancestor, heads, gone)?;
    Ok(View::of_labels(labels, staying_flags(ancestor, heads, gone)))
}

/// Whether each of the heads is of a mail that is gone.
fn are_gone(heads: &[View]) -> bool
    ensures { result ≡ list_all is_gone heads.now }
{
    heads.iter().all(|head| head.is_gone())
}

/// Whether the head has a say, where each head is gone or not.
fn has_say(head: &View, gone: bool) -> bool
    ensures { result ≡ (gone || not (is_gone head.now)) }
{
    gone || !head.is_gone()
}

/// Whether each head that has a say stands in the folder.
fn each_contains(heads: &[View], gone: bool, label: &Label) -> bool
    ensures { result ≡ list_all (λ head. has_label head.labels label.now) (with_say gone heads.now) }
{
    heads
        .iter()
        .filter(|head| has_say(head, gone))
        .all(|head| head.contains(label))
}

/// Whether some head that has a say stands in the folder.
fn some_contains(heads: &[View], gone: bool, label: &Label) -> bool
    ensures { result ≡ list_any (λ head. has_label head.labels label.now) (with_say gone heads.now) }
{
    heads
        .iter()
        .filter(|head| has_say(head, gone))
        .any(|head| head.contains(label))
}

/// Whether each head that has a say has the flag.
fn each_has(heads: &[View], gone: bool, flag: Flag) -> bool
    ensures { result ≡ list_all (λ head. has_flag head.flags flag) (with_say gone heads.now) }
{
    heads
        .iter()
        .filter(|head| has_say(head, gone))
        .all(|head| head.flags().contains(flag))
}

/// Whether some head that has a say has the flag.
fn some_has(heads: &[View], gone: bool, flag: Flag) -> bool
    ensures { result ≡ list_any (λ head. has_flag head.flags flag) (with_say gone heads.now) }
{
    heads
        .iter()
        .filter(|head| has_say(head, gone))
        .any(|head| head.flags().contains(flag))
}

/// Whether the label stays.
fn label_stays(ancestor: &View, heads: &[View], gone: bool, label: &Label) -> bool
    ensures { result ≡ stays_in ancestor.now (with_say gone heads.now) label.now }
{
    if ancestor.contains(label) {
        each_contains(heads, gone, label)
    } else {
        some_contains(heads, gone, label)
    }
}

/// Whether it is the flag of a mail that counts as deleted.
fn is_deleted(flag: Flag) -> bool
    ensures { result ≡ flag_eq flag Deleted }
{
    flag.bit() == Flag::Deleted.bit()
}

/// Whether the flag stays.
fn flag_stays(ancestor: &View, heads: &[View], gone: bool, flag: Flag) -> bool
    ensures { result ≡ stays_flagged ancestor.now (with_say gone heads.now) flag }
{
    if is_deleted(flag) || ancestor.flags().contains(flag) {
        each_has(heads, gone, flag)
    } else {
        some_has(heads, gone, flag)
    }
}

/// The flags that stay.
fn staying_flags(ancestor: &View, heads: &[View], gone: bool) -> Flags
    ensures { result ≡ flags_where (stays_flagged ancestor.now (with_say gone heads.now)) }
{
    Flag::ALL.iter().fold(Flags::empty(), |flags, flag| {
        with_flag_if(flags, *flag, flag_stays(ancestor, heads, gone, *flag))
    })
}

/// Appends those labels of a head that stay.
fn push_staying(
    labels: &mut Vec<Label>,
    ancestor: &View,
    heads: &[View],
    gone: bool,
    head: &View,
) -> Result<(), AllocError>
    ensures { OnOk result
        (labels.new.items ≡ labels.old.items ++ filter (stays_in ancestor.now (with_say gone heads.now)) head.now.labels) }
{
    for label in head.labels() {
        push_if(labels, label, label_stays(ancestor, heads, gone, label))?;
    }
    Ok(())
}

/// Appends the label, if it is wanted.
fn push_if(labels: &mut Vec<Label>, label: &Label, wanted: bool) -> Result<(), AllocError>
    ensures { OnOk result (labels.new.items ≡ labels.old.items ++ (if wanted then label.now ∷ [] else [])) }
{
    if wanted {
        labels.push(label.copy()?)?;
    }
    Ok(())
}

/// Appends those labels of a head that stay, if the head has a say.
fn push_said(
    labels: &mut Vec<Label>,
    ancestor: &View,
    heads: &[View],
    gone: bool,
    head: &View,
) -> Result<(), AllocError>
    ensures { OnOk result
        (labels.new.items ≡ labels.old.items ++ filter (stays_in ancestor.now (with_say gone heads.now))
        (if gone || not (is_gone head.now) then head.now.labels else [])) }
{
    if has_say(head, gone) {
        push_staying(labels, ancestor, heads, gone, head)?;
    }
    Ok(())
}

/// The labels that stay, as the heads have them in turn. There is room for those of the first head, mostly for all.
fn staying_labels(
    alloc: Global,
    ancestor: &View,
    heads: &[View],
    gone: bool,
) -> Result<Vec<Label>, AllocError>
    ensures { IfOk result (λ labels. labels.items ≡
        filter (stays_in ancestor.now (with_say gone heads.now)) (flat_map (λ head. head.labels) (with_say gone heads.now))) }
{
    let room = heads.first().map_or(0, |head| head.labels().len());
    let mut labels = Vec::with_capacity(alloc, room)?;
    for head in heads {
        push_said(&mut labels, ancestor, heads, gone, head)?;
    }
    Ok(labels)
}
