//! What two listings say is done, unless a change of the Maildir would be lost.
ghost use Rattle.std.specs.Prelude.{◌≡◌, ◌&&◌, All, Err, IfOk, IsSome, OnOk, Some};
ghost use Rattle.std.specs.BTreeMap.{values};
ghost use Rattle.mr_compare.specs.Compare.{due_acts};
ghost use Rattle.mr_compare.specs.Sides.{standings_by};
ghost use Rattle.mr_compare.specs.Undecided.{IsHeeded, first_undecided};
ghost use Rattle.mr_fold.specs.inner.Deciding.{AreOthers, IsStoredIfDeleted};
ghost use Rattle.mr_fold.specs.inner.Seeing.{Says};

use crate::fold_fault::FoldFault;
use crate::held_side::HeldSide;
use crate::sides::sides_of;
use mr_compare::{Digest, HeldMail, MailAct, Sides, acts_of, first_undecided, unheld_digests};
use mr_scan::{Index, Scan};
use std::alloc::{AllocError, Global};

/// What two scans say, and what is done then.
#[derive(Drop)]
pub(crate) struct Decided {
    /// What they say, beside what is held.
    pub(crate) sides: Sides,
    /// The mails that aren't held, and that they tell of or that were left.
    pub(crate) others: Vec<Digest>,
    /// What is done for them, however many it deletes.
    pub(crate) acts: Vec<MailAct>,
}

/// What is done for the mails, as two scans say, however many it deletes. `Changed` where a change that they don't tell can't wait.
pub(crate) fn decide(
    alloc: Global,
    sides: Sides,
    held: &HeldSide,
    first: &Scan,
    second: &Scan,
    index: &Index,
) -> Result<Decided, FoldFault>
    ensures others { IfOk result (λ decided. AreOthers held.now.items.entries decided.sides decided.others.items) }
    ensures acts { IfOk result (λ decided. decided.acts.items ≡ due_acts (standings_by decided.sides held.now.mails.items decided.others.items)) }
    // A mail counts as left just where it did at the first listing, and is seen as the second one has its files.
    ensures says { IfOk result (λ decided. Says (values index.now) held.now.mails.items sides.left second.now decided.sides) }
    // What the second listing says is certain only where the first one says it too, and both were quiet.
    ensures before { IfOk result (λ decided. decided.sides.seen_before ≡ Some sides.seen) }
    ensures quiet { IfOk result (λ decided. decided.sides.are_quiet ≡ (first.now.is_quiet && second.now.is_quiet)) }
    // No mail is deleted whose file the store doesn't have: one that was edited in place isn't.
    ensures stored { IfOk result (λ decided. All (IsStoredIfDeleted (values index.now)) decided.acts.items) }
    // No change of the Maildir that was seen is lost: it is told, or waits.
    ensures heeded { IfOk result (λ decided. All IsHeeded (standings_by decided.sides held.now.mails.items decided.others.items)) }
{
    let Sides { left, seen, .. } = sides;
    let are_quiet = first.is_quiet && second.is_quiet;
    let sides = sides_of(
        alloc,
        left,
        Some(seen),
        are_quiet,
        &held.mails,
        second,
        index,
    )?;
    let others = unheld_digests(alloc, &held.items, &sides)?;
    let acts = decided_acts(alloc, &held.mails, &others, &sides)?;
    Ok(Decided {
        sides,
        others,
        acts,
    })
}

/// What is done for the mails, of which two listings tell, however many it deletes. `Changed` where a change that they don't tell can't wait.
fn decided_acts(
    alloc: Global,
    mails: &[HeldMail],
    others: &[Digest],
    sides: &Sides,
) -> Result<Vec<MailAct>, FoldFault>
    ensures value { IfOk result (λ acts. acts.items ≡ due_acts (standings_by sides.now mails.now others.now)) }
    // No change of the Maildir that was seen is lost: it is told, or waits.
    ensures heeded { OnOk result (All IsHeeded (standings_by sides.now mails.now others.now)) }
    ensures changed { result ≡ Err FoldFault.Changed → IsSome (first_undecided (standings_by sides.now mails.now others.now)) }
{
    if let Some(_digest) = first_undecided(alloc, mails, others, sides)? {
        return Err(FoldFault::Changed);
    }
    Ok(acts_of(alloc, mails, others, sides, usize::MAX)?)
}
