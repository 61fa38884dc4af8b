//! What a log tells of versions.
ghost use Rattle.std.specs.Prelude.{◌≡◌, ◌+◌, ◌<◌, ◌^◌};
ghost use Rattle.std.specs.Option.{option_copied};
ghost use Rattle.mr_lookup.specs.Told.{message_at};
ghost use Rattle.mr_lookup.specs.Versions.{IsNewestFound, issued_next, next_name, version_in, version_told_by, versions_told};
ghost use Rattle.mr_lookup.specs.inner.Versions.{is_above, is_newer, message_if, newer_of};

use crate::told::issued_then;
use mr_forms::Knowledge;
use mr_mail::Message;
use mr_replica::{Event, Replica};
use mr_version::{Author, Version};
use mr_wire::{Body, Frame};
use std::marker::Model;

/// A version, with a message that a log tells of it.
#[derive(Debug, Drop)]
pub struct ToldVersion<'a> {
    version: Version,
    message: &'a Message,
}

impl<'a> Model for ToldVersion<'a> {
    ghost use Rattle.mr_version.specs.Name.{Name};
    ghost use Rattle.mr_mail.specs.Mail.{Mail};
    ghost use Rattle.mr_lookup.specs.Versions.{told_code};

    ghost Value = { Name × Mail };

    ghost coded = { told_code };

    ghost view = { λ told. (told.version, told.message.now) };
}

impl<'a> ToldVersion<'a> {
    /// The version.
    pub fn version(&self) -> Version
        ensures { result ≡ self.now.0 }
    {
        self.version
    }

    /// The message, which the log has.
    pub fn message(&self) -> &'a Message
        ensures { result.now ≡ self.now.1 }
    {
        self.message
    }
}

/// The message of the version, as the replica's log tells it first: by the Create or the Edit that issued it here, or by an
/// Item that was received of it. `None` where the log tells no message of it.
///
/// It costs a walk over the log, as far as the event that tells it.
pub fn told_message<K: Knowledge>(replica: &Replica<K>, version: Version) -> Option<&Message>
    ensures { option_copied result ≡ message_at (versions_told replica.now.id replica.now.log) version }
{
    first_message(replica.id(), replica.log(), version)
}

/// Of the author's versions whose messages the replica's log tells, the one with the highest counter, with the message that
/// is told of it first. `None` where the log tells none of the author.
///
/// It costs a walk over the log.
pub fn newest_told<K: Knowledge>(replica: &Replica<K>, author: Author) -> Option<ToldVersion<'_>>
    ensures { IsNewestFound (versions_told replica.now.id replica.now.log) author result }
{
    newest_in(replica.id(), replica.log(), author)
}

/// The message that the log tells first of the version, which is the log of a replica of this id.
fn first_message(id: Author, log: &[Event], version: Version) -> Option<&Message>
    ensures { option_copied result ≡ message_at (versions_told id log.now) version }
{
    let mut issued: usize = 0;
    for event in log {
        if let Some(message) = message_if(version, told_version(id, issued, event)) {
            return Some(message);
        }
        issued = issued_then(issued, event);
    }
    None
}

/// The message, if it is told of this version.
fn message_if<'a>(version: Version, told: Option<ToldVersion<'a>>) -> Option<&'a Message>
    ensures { option_copied result ≡ message_if version told.entry }
{
    match told {
        Some(told) if version == told.version => Some(told.message),
        _ => None,
    }
}

/// The author's version with the highest counter that the log of a replica of this id tells, with its first message.
fn newest_in(id: Author, log: &[Event], author: Author) -> Option<ToldVersion<'_>>
    ensures { IsNewestFound (versions_told id log.now) author result }
{
    let mut newest = None;
    let mut issued: usize = 0;
    for event in log {
        newest = newer(author, newest, told_version(id, issued, event));
        issued = issued_then(issued, event);
    }
    newest
}

/// The newest version so far, after one more may be told.
fn newer<'a>(
    author: Author,
    newest: Option<ToldVersion<'a>>,
    more: Option<ToldVersion<'a>>,
) -> Option<ToldVersion<'a>>
    ensures { result ≡ newer_of author newest.entry more.entry }
{
    if is_newer(author, &newest, &more) {
        more
    } else {
        newest
    }
}

/// Whether one more is told, which is the author's, with a higher counter than the newest so far.
fn is_newer(author: Author, newest: &Option<ToldVersion>, more: &Option<ToldVersion>) -> bool
    ensures { result ≡ is_newer author newest.now more.now }
{
    match more {
        Some(told) => is_above(author, newest, told.version),
        None => false,
    }
}

/// Whether the version is the author's, with a higher counter than the newest so far.
fn is_above(author: Author, newest: &Option<ToldVersion>, version: Version) -> bool
    ensures { result ≡ is_above author newest.now version }
{
    match newest {
        Some(before) => version.author() == author && before.version.counter() < version.counter(),
        None => version.author() == author,
    }
}

/// The version that the event tells with its message, where so many were issued before.
pub(crate) fn told_version(id: Author, issued: usize, event: &Event) -> Option<ToldVersion<'_>>
    requires { issued + 1 < 2 ^ 64 }
    ensures { result ≡ version_told_by id issued event.now }
{
    match event {
        Event::Create(message) | Event::Edit(_, message) => issued_next(id, issued, message),
        Event::Receive(Frame::Record(record)) => version_in(record.body()),
        _ => None,
    }
}

/// The version that is issued behind so many others, with its message; none behind the last counter.
fn issued_next(id: Author, issued: usize, message: &Message) -> Option<ToldVersion<'_>>
    requires { issued + 1 < 2 ^ 64 }
    ensures { result ≡ issued_next id issued message.now }
{
    match next_version(id, issued) {
        Some(version) => Some(ToldVersion { version, message }),
        None => None,
    }
}

/// The version that is issued behind so many others.
fn next_version(id: Author, issued: usize) -> Option<Version>
    requires { issued + 1 < 2 ^ 64 }
    ensures { result ≡ next_name id issued }
{
    let counter = u32::try_from(issued + 1).ok()?;
    Version::try_new(id, counter).ok()
}

/// The version that the body tells with its message.
fn version_in(body: &Body) -> Option<ToldVersion<'_>>
    ensures { result ≡ version_in body.now }
{
    match body {
        Body::Item(revision) => Some(ToldVersion {
            version: revision.version(),
            message: revision.message(),
        }),
        _ => None,
    }
}
