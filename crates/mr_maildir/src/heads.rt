//! What is shown of a mail of several heads, and when they are to be merged.
ghost use Rattle.std.specs.Prelude.{◌≡◌, ◌<◌, ◌∷◌, ℕ, IfOk, false, length, replicate};
ghost use Rattle.std.specs.List.{list_all};
ghost use Rattle.std.specs.Option.{option_copied};
ghost use Rattle.mr_maildir.specs.Merging.{merged_view, over, differ};
ghost use Rattle.mr_maildir.specs.View.{ViewParts, view_eq};

use crate::merging::merged;
use crate::view::View;
use std::alloc::{AllocError, Global};

/// What is shown of a mail with these heads: what they say together over the view of their newest common ancestor, or
/// over nothing where there is none.
pub fn shown(alloc: Global, ancestor: Option<&View>, heads: &[View]) -> Result<View, AllocError>
    requires { 0 < length heads.now }
    ensures value { IfOk result (λ view. view ≡ merged_view (over (option_copied ancestor.entry)) heads.now) }
{
    match ancestor {
        Some(ancestor) => merged(alloc, ancestor, heads),
        None => merged(alloc, &View::nowhere(alloc), heads),
    }
}

/// Whether an edit is due that merges the heads: exactly where two of them differ. Devices that merge the same heads
/// make the same view of them, so that their edits call for none.
pub fn is_merge_due(heads: &[View]) -> bool
    ensures value { result ≡ differ heads.now }
    ensures alike { (head : ViewParts) (more : ℕ) → heads.now ≡ head ∷ replicate more head → result ≡ false }
{
    do_differ(heads)
}

/// Whether two of the heads differ.
fn do_differ(heads: &[View]) -> bool
    ensures { result ≡ differ heads.now }
{
    match heads.split_first() {
        Some((first, others)) => !are_like(first, others),
        None => false,
    }
}

/// Whether each of the others is like the first.
fn are_like(first: &View, others: &[View]) -> bool
    ensures { result ≡ list_all (view_eq first.now) others.now }
{
    others.iter().all(|other| *first == *other)
}
