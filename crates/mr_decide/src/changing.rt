//! What a user changed.
ghost use Rattle.std.specs.Prelude.{◌≡◌, ◌++◌, ◌∷◌, [], false, if◌then◌else◌, IfOk, OnOk, filter};
ghost use Rattle.std.specs.Option.{option_copied};
ghost use Rattle.mr_joins.specs.Shown.{with_flag_if};
ghost use Rattle.mr_joins.specs.View.{is_nowhere};
ghost use Rattle.mr_decide.specs.Changing as specs;

use mr_joins::{View, inbox};
use mr_mail::{Flag, Flags, Label};
use std::alloc::{AllocError, Global};

/// How the mail is to stand after what the user changed: as it is shown, but for just those folders and flags in which it is seen otherwise than it was left, as it is
/// seen. Where no folder is left so, it stands in the inbox. What is deleted elsewhere stands as it is seen.
pub(crate) fn wanted(
    alloc: Global,
    shown: &View,
    left: Option<&View>,
    seen: &View,
) -> Result<View, AllocError>
    requires { is_nowhere seen.now ≡ false }
    ensures value { IfOk result (λ view. view ≡ specs.wanted shown.now (option_copied left.entry) seen.now) }
    ensures somewhere { IfOk result (λ view. is_nowhere view ≡ false) }
{
    let view = wanted_view(alloc, shown, left, seen)?;
    Ok(view)
}

/// The same, wherever it is seen.
fn wanted_view(
    alloc: Global,
    shown: &View,
    left: Option<&View>,
    seen: &View,
) -> Result<View, AllocError>
    ensures { IfOk result (λ view. view ≡ specs.wanted shown.now (option_copied left.entry) seen.now) }
{
    if shown.is_nowhere() {
        return seen.copy(alloc);
    }
    match left {
        Some(left) => with_changes(alloc, shown, left, seen),
        None => with_changes(alloc, shown, &View::nowhere(alloc), seen),
    }
}

/// What is shown, with the changes from what was left to what is seen.
fn with_changes(alloc: Global, shown: &View, left: &View, seen: &View) -> Result<View, AllocError>
    ensures { IfOk result (λ view. view ≡ specs.with_changes shown.now left.now seen.now) }
{
    let mut labels = Vec::new(alloc);
    push_staying(&mut labels, shown.labels(), shown, left, seen)?;
    push_staying(&mut labels, seen.labels(), shown, left, seen)?;
    if labels.is_empty() {
        labels.push(inbox())?;
    }
    let flags = changed_flags(shown, left, seen);
    Ok(View::of_labels(labels, flags))
}

/// Puts those of the labels that stay behind the others.
fn push_staying(
    labels: &mut Vec<Label>,
    given: &[Label],
    shown: &View,
    left: &View,
    seen: &View,
) -> Result<(), AllocError>
    ensures { OnOk result (labels.new.items ≡ labels.old.items ++ filter (specs.stays shown.now left.now seen.now) given.now) }
{
    for label in given {
        push_if(labels, label, stays(label, shown, left, seen))?;
    }
    Ok(())
}

/// Puts the label behind the others, if it is wanted.
fn push_if(labels: &mut Vec<Label>, label: &Label, is_wanted: bool) -> Result<(), AllocError>
    ensures { OnOk result (labels.new.items ≡ labels.old.items ++ (if is_wanted then label.now ∷ [] else [])) }
{
    if is_wanted {
        labels.push(label.copy()?)?;
    }
    Ok(())
}

/// Whether the mail is to stand in the folder of this label.
fn stays(label: &Label, shown: &View, left: &View, seen: &View) -> bool
    ensures { result ≡ specs.stays shown.now left.now seen.now label.now }
{
    changed(
        left.contains(label),
        seen.contains(label),
        shown.contains(label),
    )
}

/// The flags that it is to have.
fn changed_flags(shown: &View, left: &View, seen: &View) -> Flags
    ensures { result ≡ specs.changed_flags shown.now.flags left.now.flags seen.now.flags }
{
    let (shown, left, seen) = (shown.flags(), left.flags(), seen.flags());
    Flag::ALL.iter().fold(Flags::empty(), |flags, flag| {
        let is_wanted = changed(
            left.contains(*flag),
            seen.contains(*flag),
            shown.contains(*flag),
        );
        with_flag_if(flags, *flag, is_wanted)
    })
}

/// The flags, with one more if it is wanted.
fn with_flag_if(flags: Flags, flag: Flag, is_wanted: bool) -> Flags
    ensures { result ≡ with_flag_if flags flag is_wanted }
{
    if is_wanted { flags.with(flag) } else { flags }
}

/// What is to be so: what is seen and wasn't left so comes, what was left so and isn't seen goes, and all else is as it is shown.
fn changed(left: bool, seen: bool, shown: bool) -> bool
    ensures { result ≡ specs.changed left seen shown }
{
    if seen { shown || !left } else { shown && !left }
}

/// Whether the view has each folder of the other one.
pub(crate) fn keeps_folders(view: &View, other: &View) -> bool
    ensures { result ≡ specs.keeps_folders view.now other.now }
{
    other.labels().iter().all(|label| view.contains(label))
}
