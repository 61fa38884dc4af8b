//! Elements: what a mail has or has not.
ghost use Rattle.std.specs.Prelude.{◌≡◌, IfOk, Some, refl};
ghost use Rattle.std.specs.Cmp;
ghost use Rattle.mr_joins.specs.Element.{element_cmp, element_eq};
ghost use Rattle.mr_joins.specs.Element as specs;
ghost use Rattle.mr_joins.specs.Order.{elements_equiv, elements_total, elements_partial, elements_tied};

use crate::word::Word;
use mr_mail::{Flag, Label};
use std::alloc::{AllocError, Global};
use std::cmp::Ordering;

/// What a mail has or has not. Elements stand in order: flags by their letters (`D`, `F`, `R`, `S`, `T`), then words by their bytes, then labels by
/// theirs.
#[derive(Debug, Drop)]
pub enum Element {
    /// The flag.
    Flag(Flag),
    /// What this program doesn't know: it is kept and joined, and counts in nothing that is shown.
    Other(Word),
    /// The folder of this label.
    Folder(Label),
}

impl Element {
    /// An equal element. Memory is asked for only for a word.
    pub fn copy(&self, alloc: Global) -> Result<Element, AllocError>
        ensures { IfOk result (λ element. element ≡ self.now) }
    {
        match self {
            Element::Flag(flag) => Ok(Element::Flag(*flag)),
            Element::Other(word) => Ok(Element::Other(word.copy(alloc)?)),
            Element::Folder(label) => Ok(Element::Folder(label.copy()?)),
        }
    }

    /// Its place before or behind elements of other kinds.
    fn place(&self) -> u8
        ensures { result ≡ specs.element_place self.now }
    {
        match self {
            Element::Flag(flag) => flag_place(*flag),
            Element::Other(_) => 5,
            Element::Folder(_) => 6,
        }
    }

    /// Its text, if it isn't a flag.
    fn text(&self) -> &str
        ensures { result.now ≡ specs.element_text self.now }
    {
        match self {
            Element::Flag(_) => "",
            Element::Other(word) => word.as_str(),
            Element::Folder(label) => label.as_str(),
        }
    }
}

/// The place of a flag among the flags, by their letters.
fn flag_place(flag: Flag) -> u8
    ensures { result ≡ specs.flag_place flag }
{
    match flag {
        Flag::Draft => 0,
        Flag::Flagged => 1,
        Flag::Answered => 2,
        Flag::Seen => 3,
        Flag::Deleted => 4,
    }
}

impl PartialEq for Element {
    ghost eq = { element_eq };

    ghost laws = { Cmp.partial_equiv_from_equiv elements_equiv };

    fn eq(&self, other: &Element) -> bool {
        self.cmp(other).is_eq()
    }
}

impl Eq for Element {
    ghost laws = { elements_equiv };
}

impl PartialOrd for Element {
    ghost partial_cmp = { λ a b. Some (element_cmp a b) };

    ghost laws = { elements_partial };

    fn partial_cmp(&self, other: &Element) -> Option<Ordering> {
        Some(self.cmp(other))
    }
}

/// Flags by their letters, then words, then labels, by their bytes.
impl Ord for Element {
    ghost cmp = { element_cmp };

    ghost total = { elements_total };

    ghost matches_partial_cmp = { λ _ _. refl };

    ghost matches_eq = { elements_tied };

    fn cmp(&self, other: &Element) -> Ordering {
        let by_place = self.place().cmp(&other.place());
        by_place.then_with(|| self.text().cmp(other.text()))
    }
}
