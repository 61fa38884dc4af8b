//! What a replica's subscribers took, and the lines of it, each with its line feed.
ghost use Rattle.std.specs.Prelude.{◌≡◌, ◌++◌, IfOk, OnOk, None, codes, string_bytes};
ghost use Rattle.std.specs.Option.{option_copied, option_to_list};
ghost use Rattle.mr_subs.specs.Subscriber.{ShowsFold, Applies};
ghost use Rattle.mr_model.specs.declared.event.Subscriber.TheVariants as subscriber;
ghost use Rattle.mr_script.specs.Holding.{spaced_names};
ghost use Rattle.mr_script.specs.Taken.{is_take, taken_at, taken_of, cards_of, indexed, index_text, Lists, IsIndexLine, IsUnseenLine};

use crate::Grown;
use mr_feed::Entry;
use mr_mail::Label;
use mr_subs::{Fold, Indexer, Notifier, Subscriber as Follower};
use mr_version::{Author, Version};
use mr_world::{Act, Answer, Answered, Event, Subscriber};
use std::alloc::{AllocError, Global};

/// `index R LABEL:` and each version after a space that the replica's indexer has under the label, in
/// version order. A word that is no label names no version. It costs a walk over the answers.
pub(crate) fn index_line(
    alloc: Global,
    answers: &[Answered],
    id: Author,
    label: &str,
) -> Grown<String>
    ensures { IfOk result (λ line. IsIndexLine answers.now id label.now (string_bytes line)) }
{
    let versions = versions_under(alloc, answers, id, label)?;
    versions_line(alloc, id, label, versions.as_slice())
}

/// `index R LABEL:` and each version after a space.
fn versions_line(alloc: Global, id: Author, label: &str, versions: &[Version]) -> Grown<String>
    ensures { IfOk result (λ line. string_bytes line ≡ index_text id label.now versions.now) }
{
    with_names(format!(in alloc; "index {id} {label}:")?, versions)
}

/// The line goes on with each version after a space, and ends.
fn with_names(mut line: String, versions: &[Version]) -> Grown<String>
    ensures { IfOk result (λ whole. string_bytes whole ≡ string_bytes line ++ spaced_names versions.now ++ codes "\n") }
{
    for version in versions {
        write!(line, " {version}")?;
    }
    line.push('\n')?;
    Ok(line)
}

/// The versions that the replica's indexer has under the word, in version order.
fn versions_under(
    alloc: Global,
    answers: &[Answered],
    id: Author,
    word: &str,
) -> Grown<Vec<Version>>
    ensures { IfOk result (λ versions.
        Lists (indexed (cards_of answers.now id subscriber.Indexer) word.now) versions.items) }
{
    let Ok(label) = Label::try_new(String::from_str(alloc, word)?) else {
        return Ok(Vec::new(alloc));
    };
    let indexer: Indexer = follower_of(alloc, answers, id, Subscriber::Indexer)?;
    indexer.versions(&label)
}

/// `unseen R: N`: how many unseen versions the replica's notifier has. It costs a walk over the answers.
pub(crate) fn unseen_line(alloc: Global, answers: &[Answered], id: Author) -> Grown<String>
    ensures { IfOk result (λ line. IsUnseenLine answers.now id (string_bytes line)) }
{
    let notifier: Notifier = follower_of(alloc, answers, id, Subscriber::Notifier)?;
    let count = notifier.unseen();
    format!(in alloc; "unseen {id}: {count}\n")
}

/// A follower of the replica's feed that took what this subscriber took.
fn follower_of<F: Fold>(
    alloc: Global,
    answers: &[Answered],
    id: Author,
    subscriber: Subscriber,
) -> Grown<Follower<F>>
    ensures { IfOk result (λ follower. ShowsFold F.shows follower.fold (taken_of answers.now id subscriber)) }
{
    let mut follower = Follower::new(alloc);
    for answered in answers {
        follow(&mut follower, answered, id, subscriber)?;
    }
    Ok(follower)
}

/// The follower takes what this subscriber of the replica took at the event, if it took an entry.
fn follow<F: Fold>(
    follower: &mut Follower<F>,
    answered: &Answered,
    id: Author,
    subscriber: Subscriber,
) -> Grown<()>
    requires { follower.old.kept ≡ None }
    ensures ok { OnOk result (Applies F.shows follower.old.fold (option_to_list (taken_at id subscriber answered.now)) follower.new.fold) }
    ensures none_kept { OnOk result (follower.new.kept ≡ None) }
{
    let Some(entry) = entry_taken(answered, id, subscriber) else {
        return Ok(());
    };
    match follower.apply(entry.copy()?) {
        Ok(()) => Ok(()),
        Err(_) => Err(AllocError),
    }
}

/// The entry that this subscriber of the replica took at the event, if it took one.
fn entry_taken(answered: &Answered, id: Author, subscriber: Subscriber) -> Option<&Entry>
    ensures { option_copied result ≡ taken_at id subscriber answered.now }
{
    let Answer::TookEntry(entry) = &answered.answer else {
        return None;
    };
    if is_take(&answered.event, id, subscriber) {
        Some(entry)
    } else {
        None
    }
}

/// Whether the event has this subscriber of the replica take an entry.
fn is_take(event: &Event, id: Author, subscriber: Subscriber) -> bool
    ensures { result ≡ is_take id subscriber event.now }
{
    match &event.act {
        Act::Take(from) => event.replica == id && *from == subscriber,
        _ => false,
    }
}
