//! What of a store is due next in a stream.
ghost use Rattle.std.specs.Prelude.{◌≡◌, ◌≤◌, filter, find, length, true, false};
ghost use Rattle.std.specs.List.Sorted.{IsPartitionPoint};
ghost use Rattle.std.specs.Option.{option_copied};
ghost use Rattle.std.specs.Ordering.{is_le};
ghost use Rattle.mr_version.specs.Name.{name_cmp};
ghost use Rattle.mr_madewith.specs.Keyed.{is_before};
ghost use Rattle.mr_store.specs.Revisions.{AreInVersionOrder};
ghost use Rattle.mr_session.specs.Stream.{is_wanted, is_ahead, lower, due};
ghost use Rattle.mr_session.specs.inner.Merge.{is_left_first};

use crate::asked::AskedOf;
use mr_madewith::Revision;
use mr_store::Store;
use mr_version::{Author, Version};

// How many revisions have a version up to this one.
fn place_behind(revisions: &[Revision], past: Version) -> usize
    requires { AreInVersionOrder revisions.now }
    ensures bound { result ≤ length revisions.now }
    ensures place { IsPartitionPoint (λ r. is_le (name_cmp r.version past) ≡ true) (λ r. is_le (name_cmp r.version past) ≡ false) revisions.now result }
{
    revisions.partition_point(|revision| revision.version() <= past)
}

// The revisions that a walk has ahead that looked at this version last. It costs a binary search.
fn ahead<'a>(revisions: &'a [Revision], past: &Option<Version>) -> &'a [Revision]
    requires { AreInVersionOrder revisions.now }
    ensures { result.now ≡ filter (λ r. is_ahead past.now r.version) revisions.now }
{
    match past {
        Some(version) => &revisions[place_behind(revisions, *version)..],
        None => revisions,
    }
}

// Whether the version stands before the author's version of this counter.
fn is_before(version: Version, author: Author, counter: u32) -> bool
    ensures { result ≡ is_before version (record { author = author; counter = counter }) }
{
    version.author() < author || (version.author() == author && version.counter() < counter)
}

// How many revisions stand before the author's version of this counter.
fn place_before(revisions: &[Revision], author: Author, counter: u32) -> usize
    requires { AreInVersionOrder revisions.now }
    ensures bound { result ≤ length revisions.now }
    ensures place { IsPartitionPoint (λ r. is_before r.version (record { author = author; counter = counter }) ≡ true) (λ r. is_before r.version (record { author = author; counter = counter }) ≡ false) revisions.now result }
{
    revisions.partition_point(|revision| is_before(revision.version(), author, counter))
}

// What is left behind the run of one author's versions, at the front, that the one who asks knows for all items.
// It costs three binary searches.
fn pass_known<'a>(asked: &AskedOf, revisions: &'a [Revision]) -> &'a [Revision]
    requires { AreInVersionOrder revisions.now }
    ensures in_order { AreInVersionOrder result.now }
    ensures shorter { length result.now ≤ length revisions.now }
    ensures found { find (is_wanted asked.now) result.now ≡ find (is_wanted asked.now) revisions.now }
{
    match revisions.first() {
        Some(first) => {
            let version = first.version();
            let until = asked.known_until(version);
            if until <= version.counter() {
                return revisions;
            }
            &revisions[place_before(revisions, version.author(), until)..]
        }
        None => revisions,
    }
}

// Whether the first revision on the left comes before the first on the right, where there are any.
fn is_left_first(left: &[Revision], right: &[Revision]) -> bool
    ensures { result ≡ is_left_first left.now right.now }
{
    match (left.first(), right.first()) {
        (Some(a), Some(b)) => a.version() < b.version(),
        (Some(_), None) => true,
        (None, _) => false,
    }
}

// The first revision that is wanted, by version, of two lists in version order. It looks at none behind it, and passes
// a run of versions that are known for all items without looking at each.
fn first_wanted<'a>(
    asked: &AskedOf,
    heads: &'a [Revision],
    push_outs: &'a [Revision],
) -> Option<&'a Revision>
    requires heads { AreInVersionOrder heads.now }
    requires push_outs { AreInVersionOrder push_outs.now }
    ensures { option_copied result ≡ lower (find (is_wanted asked.now) heads.now) (find (is_wanted asked.now) push_outs.now) }
{
    let mut left = pass_known(asked, heads);
    let mut right = pass_known(asked, push_outs);
    loop {
        if is_left_first(left, right) {
            let first = &left[0];
            if asked.wants(first) {
                return Some(first);
            }
            left = pass_known(asked, &left[1..]);
        } else if right.is_empty() {
            return None;
        } else {
            let first = &right[0];
            if asked.wants(first) {
                return Some(first);
            }
            right = pass_known(asked, &right[1..]);
        }
    }
}

/// The revision that is due next in a stream that looked at this version last: the first one behind it, by
/// version, of the heads and the push-outs together, that is wanted. It costs two binary searches, and a walk
/// from that version to the one that is due, in which a run of versions that the Ask claims for all items is one
/// search.
pub fn due<'a>(asked: &AskedOf, past: &Option<Version>, store: &'a Store) -> Option<&'a Revision>
    ensures { option_copied result ≡ due asked.now past.now store.now.heads store.now.push_outs }
{
    let heads = ahead(store.heads(), past);
    let push_outs = ahead(store.push_outs(), past);
    first_wanted(asked, heads, push_outs)
}
