//! What a source lacks of a set, and vectors that would have too many holes.
ghost use Rattle.std.specs.Prelude.{◌≡◌, ◌↔◌, true, false, IsTrue};
ghost use Rattle.mr_forms.specs.Sets.{Covers};
ghost use Rattle.mr_itemset.specs.inner.Lacking.{CoversAuthor, Lacks};
ghost use Rattle.mr_itemset.specs.Normal.{normal_known, IsNormal};
ghost use Rattle.mr_itemset.specs.ItemForm.{HasHoleyItem, with_all};

use crate::settled::Settled;
use mr_concise::{Source, would_have_too_many};
use mr_version::Author;

/// Whether a source lacks some version of the author that the set has.
fn lacks_of<A: Source, S: Source>(source: &A, set: &S, author: Author) -> bool
    ensures yes { result ≡ true → Lacks (A.has source.now) (S.has set.now) }
    ensures no { result ≡ false → CoversAuthor (A.has source.now) (S.has set.now) author }
{
    // what a set has of an author ends
    let _none = set.next_out(author, 1);
    let mut from = 1;
    while let Some(first) = set.next_in(author, from) {
        let end = set.next_out(author, first);
        if source.next_out(author, first) < end {
            return true;
        }
        from = end;
    }
    false
}

/// Whether a source lacks some version that the set has. It allocates nothing.
pub(crate) fn lacks<A: Source, S: Source>(source: &A, set: &S) -> bool
    ensures yes { result ≡ true → Lacks (A.has source.now) (S.has set.now) }
    ensures no { result ≡ false → Covers (A.has source.now) (S.has set.now) }
{
    let mut id = 0;
    while let Some(author) = set.next_author(id) {
        if lacks_of(source, set, author) {
            return true;
        }
        id = author.id() + 1;
    }
    false
}

impl<const LIMIT: usize> Settled<LIMIT> {
    /// Whether some vector would have too many holes, once these versions are known for all items. It
    /// allocates nothing.
    pub(crate) fn would_be_holey<A: Source>(&self, added: &A) -> bool
        ensures holey { IsTrue result ↔ HasHoleyItem (with_all (normal_known self.now) (A.has added.now)) }
        ensures normal { IsNormal LIMIT self.now }
    {
        if would_have_too_many(&(added, self.for_all())) {
            return true;
        }
        for vector in self.vectors() {
            if would_have_too_many(&(added, vector)) {
                return true;
            }
        }
        false
    }
}
