//! Shelves: for each label the versions that stand under it.
ghost use Rattle.std.specs.Prelude.{◌≡◌, ℕ, true, false, if◌then◌else◌, IsTrue, IsFalse, List, OnOk, OnErr};
ghost use Rattle.mr_version.specs.Name.{Name, name_eq};
ghost use Rattle.mr_mail.specs.Label.{has_label};
ghost use Rattle.mr_subs.specs.Index.{on_shelf};
ghost use Rattle.mr_subs.specs.inner.Index.{is_place};

use mr_mail::Label;
use mr_version::Version;
use std::alloc::{AllocError, Global};
use std::collections::{BTreeMap, BTreeSet};

pub(crate) type Shelves = BTreeMap<Label, BTreeSet<Version>>;

/// Puts the version on the label's shelf.
fn shelve(
    alloc: Global,
    shelves: &mut Shelves,
    label: &Label,
    version: Version,
) -> Result<(), AllocError>
    ensures ok { OnOk result ((q : List ℕ) (v : Name) → on_shelf shelves.new.entries q v ≡ (if is_place label.now version q v then true else on_shelf shelves.old.entries q v)) }
    ensures err { OnErr result ((q : List ℕ) (v : Name) → on_shelf shelves.new.entries q v ≡ on_shelf shelves.old.entries q v) }
{
    if let Some(versions) = shelves.get_mut(label) {
        versions.insert(version)?;
        return Ok(());
    }
    let mut versions = BTreeSet::new(alloc);
    versions.insert(version)?;
    shelves.insert(label.copy()?, versions)?;
    Ok(())
}

/// Takes the version from the label's shelf.
fn unshelve(shelves: &mut Shelves, label: &Label, version: Version)
    ensures { (q : List ℕ) (v : Name) → on_shelf shelves.new.entries q v ≡ (if is_place label.now version q v then false else on_shelf shelves.old.entries q v) }
{
    if let Some(versions) = shelves.get_mut(label) {
        versions.remove(&version);
    }
}

/// Puts the version on the shelf of each label. What stood on a shelf stays, also where memory runs out.
pub(crate) fn shelve_all(
    alloc: Global,
    shelves: &mut Shelves,
    labels: &[Label],
    version: Version,
) -> Result<(), AllocError>
    ensures ok { OnOk result ((q : List ℕ) → IsTrue (has_label labels.now q) → IsTrue (on_shelf shelves.new.entries q version)) }
    ensures kept { (q : List ℕ) (v : Name) → IsTrue (on_shelf shelves.old.entries q v) → IsTrue (on_shelf shelves.new.entries q v) }
{
    for label in labels {
        shelve(alloc, shelves, label, version)?;
    }
    Ok(())
}

/// Takes the version from the shelves of those labels that are not among the others.
pub(crate) fn unshelve_others(
    shelves: &mut Shelves,
    labels: &[Label],
    others: &[Label],
    version: Version,
)
    ensures labels { (q : List ℕ) → IsTrue (has_label others.now q) → (v : Name) → IsTrue (on_shelf shelves.old.entries q v) → IsTrue (on_shelf shelves.new.entries q v) }
    ensures versions { (v : Name) → IsFalse (name_eq version v) → (q : List ℕ) → IsTrue (on_shelf shelves.old.entries q v) → IsTrue (on_shelf shelves.new.entries q v) }
{
    for label in labels {
        if !is_among(others, label) {
            unshelve(shelves, label, version);
        }
    }
}

/// Whether the label is among these.
pub(crate) fn is_among(labels: &[Label], label: &Label) -> bool
    ensures { result ≡ has_label labels.now label.now }
{
    labels.contains(label)
}
