//! What several versions of a message say together: a policy for any host that keeps mail.
ghost use Rattle.std.specs.Prelude.{◌≡◌, ◌<◌, ◌≤◌, IsTrue, IfOk, IfErr, IfSome, OnOk, length, map, slice_get};
ghost use Rattle.std.specs.List.{list_all};
ghost use Rattle.std.specs.Option.{option_copied};
ghost use Rattle.std.specs.Result.{OkIff};
ghost use Rattle.mr_mail.specs.declared.label.TheConstants.{MAX_LABELS};
ghost use Rattle.mr_maildir.specs.declared.policy.MergeFault.TheVariants.{OutOfMemory};
ghost use Rattle.mr_maildir.specs.Policy as specs;
ghost use Rattle.mr_maildir.specs.Policy.{view_of, IsMergeFault};

use crate::heads::shown;
use crate::view::View;
use mr_mail::{Day, Message, Place};
use std::alloc::{AllocError, AllocFailed, Global};
use thiserror::Error;

/// Why heads have no place together. Contents that differ come first; memory may be wanting wherever they don't.
#[derive(Clone, Copy, Debug, PartialEq, Eq, Drop, Error)]
pub enum MergeFault {
    #[error("out of memory")]
    OutOfMemory,
    #[error("the heads differ in more than labels and flags")]
    ContentsDiffer,
    #[error("more than 16 labels together")]
    TooManyLabels,
}

impl MergeFault {
    /// The fault's number: 0 for out of memory, and from 1 in the order in which faults are tried.
    pub fn number(self) -> u8
        ensures { result ≡ specs.fault_number self }
    {
        match self {
            MergeFault::OutOfMemory => 0,
            MergeFault::ContentsDiffer => 1,
            MergeFault::TooManyLabels => 2,
        }
    }
}

impl From<AllocError> for MergeFault {
    ghost from_gives = { λ _ fault. fault ≡ OutOfMemory };

    fn from(_error: AllocError) -> MergeFault {
        MergeFault::OutOfMemory
    }
}

impl<T: Drop> From<AllocFailed<T>> for MergeFault {
    ghost from_gives = { λ _ fault. fault ≡ OutOfMemory };

    fn from(_error: AllocFailed<T>) -> MergeFault {
        MergeFault::OutOfMemory
    }
}

/// The place that the heads of a message have together, over their newest common ancestor, if they have one.
///
/// A label or a flag of the ancestor stays if each head has it, another one comes if some head has it, and only where each
/// head says that the message is deleted, it is. A head that is deleted and has no label has no say beside others. The
/// order of the heads is indifferent, and heads that are all alike give what they are.
///
/// The faults: `ContentsDiffer`, before all else, if the heads differ in sender, subject, body or day; `TooManyLabels` if
/// they have more than 16 labels together; and `OutOfMemory`. Nothing is merged then.
pub fn merged_place(
    alloc: Global,
    ancestor: Option<&Message>,
    heads: &[Message],
) -> Result<Place, MergeFault>
    requires { 0 < length heads.now }
    ensures fault { IfErr result (IsMergeFault (option_copied ancestor.entry) heads.now) }

    ensures one_content { OnOk result (IsTrue (specs.have_one_content heads.now)) }
    ensures few { OnOk result (length (specs.view_of_heads (option_copied ancestor.entry) heads.now).labels ≤ MAX_LABELS) }
    ensures labels { IfOk result (λ place. place.labels ≡ (specs.view_of_heads (option_copied ancestor.entry) heads.now).labels) }
    ensures flags { IfOk result (λ place. place.flags ≡ (specs.view_of_heads (option_copied ancestor.entry) heads.now).flags) }
    ensures day { IfOk result (λ place. IfSome (slice_get heads.now 0) (λ head. place.day ≡ head.day)) }
{
    if !have_one_content(heads) {
        return Err(MergeFault::ContentsDiffer);
    }
    place_of(view_of_heads(alloc, ancestor, heads)?, first_day(heads))
}

/// The place of a view and a day. `TooManyLabels` if the view has more than 16 labels.
fn place_of(view: View, day: Day) -> Result<Place, MergeFault>
    ensures place { OkIff result (length view.labels ≤ MAX_LABELS) (record { labels = view.labels; flags = view.flags; day = day }) }
    ensures fault { IfErr result (λ fault. fault ≡ MergeFault.TooManyLabels) }
{
    view.into_place(day).ok_or(MergeFault::TooManyLabels)
}

/// The day of the first message.
fn first_day(messages: &[Message]) -> Day
    requires { 0 < length messages.now }
    ensures { IfSome (slice_get messages.now 0) (λ message. result ≡ message.day) }
{
    messages[0].day()
}

/// Whether the messages are one but for their labels and flags.
fn have_one_content(heads: &[Message]) -> bool
    ensures { result ≡ specs.have_one_content heads.now }
{
    match heads.split_first() {
        Some((first, others)) => are_like(first, others),
        None => true,
    }
}

/// Whether each of the others is the first but for its labels and flags.
fn are_like(first: &Message, others: &[Message]) -> bool
    ensures { result ≡ list_all (specs.is_same_content first.now) others.now }
{
    others.iter().all(|other| is_same_content(first, other))
}

/// Whether two messages are one but for their labels and flags.
fn is_same_content(a: &Message, b: &Message) -> bool
    ensures { result ≡ specs.is_same_content a.now b.now }
{
    a.from() == b.from()
        && a.subject() == b.subject()
        && a.body() == b.body()
        && a.day().days() == b.day().days()
}

/// What the messages' labels and flags are together.
fn view_of_heads(
    alloc: Global,
    ancestor: Option<&Message>,
    heads: &[Message],
) -> Result<View, AllocError>
    requires { 0 < length heads.now }
    ensures { IfOk result (λ view. view ≡ specs.view_of_heads (option_copied ancestor.entry) heads.now) }
{
    let views = views_of(alloc, heads)?;
    match ancestor {
        Some(ancestor) => {
            let ancestor = View::of_place(alloc, ancestor.place())?;
            shown(alloc, Some(&ancestor), views.as_slice())
        }
        None => shown(alloc, None, views.as_slice()),
    }
}

/// Where each of the messages stands.
fn views_of(alloc: Global, messages: &[Message]) -> Result<Vec<View>, AllocError>
    ensures { IfOk result (λ views. views.items ≡ map view_of messages.now) }
{
    let mut views = Vec::with_capacity(alloc, messages.len())?;
    for message in messages {
        views.push(View::of_place(alloc, message.place())?)?;
    }
    Ok(views)
}
