//! Where a mail stands, and its flags.
ghost use Rattle.std.specs.Prelude.{◌≡◌, ◌≤◌, IfOk, length};
ghost use Rattle.std.specs.List.{AllPass};
ghost use Rattle.std.specs.List.Sorted.{IsStrictlySortedBy};
ghost use Rattle.std.specs.Option.{SomeIff};
ghost use Rattle.std.specs.Cmp;
ghost use Rattle.mr_mail.specs.Label.{is_label, has_label, text_cmp};
ghost use Rattle.mr_mail.specs.declared.label.TheConstants.{MAX_LABELS};
ghost use Rattle.mr_joins.specs.View.{view_eq, view_eq_equiv, IsView};
ghost use Rattle.mr_joins.specs.Labels.{in_order};
ghost use Rattle.mr_joins.specs.View as specs;

use crate::labels::sorted_once;
use mr_mail::{Day, Flag, Flags, Label, MAX_LABELS, Place};
use std::alloc::{AllocError, Global};
use std::marker::Model;

/// The folders that a mail stands in, by their labels, and its flags.
///
/// The labels are in rising order of their bytes, each once. There may be any number of them, while a message has at
/// most 16. They take one piece of memory.
#[derive(Debug, Drop)]
pub struct View {
    labels: Vec<Label>,
    flags: Flags,
}

impl Model for View {
    ghost use Rattle.mr_joins.specs.View.{ViewParts, view_code, IsView};

    ghost Value = { ViewParts };

    ghost coded = { view_code };

    ghost view = { λ v. record { labels = v.labels.items; flags = v.flags } };

    ghost invariant = { λ v. IsView (record { labels = v.labels.items; flags = v.flags }) };
}

impl View {
    /// The view of a mail that stands in no folder and has no flag.
    pub fn nowhere(alloc: Global) -> View
        ensures { result ≡ specs.nowhere }
    {
        View {
            labels: Vec::new(alloc),
            flags: Flags::empty(),
        }
    }

    /// The view with these labels, in whatever order and however often they come, and these flags.
    pub fn of_labels(labels: Vec<Label>, flags: Flags) -> View
        ensures { result ≡ record { labels = in_order labels.items; flags = flags } }
    {
        // the flags are in their range
        let _bits = flags.bits();
        tell_labels(labels.as_slice());
        View {
            labels: sorted_once(labels),
            flags,
        }
    }

    /// The view with these labels, which rise, and these flags.
    pub(crate) fn of_rising(labels: Vec<Label>, flags: Flags) -> View
        requires { IsStrictlySortedBy text_cmp labels.items }
        ensures { result ≡ record { labels = labels.items; flags = flags } }
    {
        // the flags are in their range
        let _bits = flags.bits();
        tell_labels(labels.as_slice());
        View { labels, flags }
    }

    /// The view of a message's place, whose labels are copied.
    pub fn of_place(alloc: Global, place: &Place) -> Result<View, AllocError>
        ensures { IfOk result (λ view. view ≡ record { labels = place.now.labels; flags = place.now.flags }) }
    {
        let flags = place.flags();
        // the flags are in their range
        let _bits = flags.bits();
        Ok(View {
            labels: Label::copy_all(alloc, place.labels())?,
            flags,
        })
    }

    /// The place with these labels and flags and this day; none where there are more labels than a message may have.
    pub fn into_place(self, day: Day) -> Option<Place>
        ensures { SomeIff result (length self.labels ≤ MAX_LABELS) (record { labels = self.labels; flags = self.flags; day = day }) }
    {
        if self.labels.len() > MAX_LABELS {
            return None;
        }
        let View { labels, flags } = self;
        Some(Place::new(labels, flags, day))
    }

    /// The labels, in rising order of their bytes, each once.
    pub fn labels(&self) -> &[Label]
        ensures value { result.now ≡ self.now.labels }
        ensures kept { IsView self.now }
    {
        self.labels.as_slice()
    }

    /// The flags.
    pub fn flags(&self) -> Flags
        ensures value { result ≡ self.now.flags }
        ensures kept { IsView self.now }
    {
        self.flags
    }

    /// Whether it stands in the folder of this label.
    pub fn contains(&self, label: &Label) -> bool
        ensures { result ≡ has_label self.now.labels label.now }
    {
        self.labels.contains(label)
    }

    /// Whether it stands in no folder.
    pub fn is_nowhere(&self) -> bool
        ensures { result ≡ specs.is_nowhere self.now }
    {
        self.labels.len() == 0
    }

    /// Whether it is gone: it stands in no folder, and counts as deleted.
    pub fn is_gone(&self) -> bool
        ensures { result ≡ specs.is_gone self.now }
    {
        self.is_nowhere() && self.flags.contains(Flag::Deleted)
    }

    /// An equal view. Its labels take one piece of memory.
    pub fn copy(&self, alloc: Global) -> Result<View, AllocError>
        ensures { IfOk result (λ view. view ≡ self.now) }
    {
        let flags = self.flags;
        Ok(View {
            labels: Label::copy_all(alloc, self.labels.as_slice())?,
            flags,
        })
    }
}

impl PartialEq for View {
    ghost eq = { view_eq };

    ghost laws = { Cmp.partial_equiv_from_equiv view_eq_equiv };

    fn eq(&self, other: &View) -> bool {
        self.labels == other.labels && self.flags == other.flags
    }
}

impl Eq for View {
    ghost laws = { view_eq_equiv };
}

/// Does nothing but tell that each label is one, as it is by its type.
fn tell_labels(labels: &[Label])
    ensures { AllPass is_label labels.now }
{
    for label in labels {
        // each has the text of a label
        let _text = label.as_str();
    }
}
