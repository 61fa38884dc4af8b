//! What happened in a world, as far as a picture shows it.
ghost use Rattle.std.specs.Prelude.{◌≡◌, IfOk, map};
ghost use Rattle.std.specs.List.{enumerate_from, filter_map};
ghost use Rattle.mr_draw.specs.Happening.{dot_at, dots, issued_versions, kind_of, kind_of_done, kind_of_opened, kind_of_reply, kind_of_taken, lane_of, happening_at, happenings_of};

use crate::Grown;
use crate::notes::Notes;
use mr_replica::Reply;
use mr_version::{Author, Version};
use mr_world::{Act, Answer, Answered};
use std::alloc::{AllocError, Global};
use std::marker::Model;

/// What one event of a world shows in a picture.
#[derive(Clone, Copy, Debug, PartialEq, Eq)]
pub enum Kind {
    /// The version was issued.
    Issue(Version),
    /// The item was taken, with this version, out of this replica's stream of this number.
    TakeItem(Author, u64, Version),
    /// The move-out of this version was taken, out of this replica's stream of this number.
    TakeMoveOut(Author, u64, Version),
    /// Another record was taken, out of this replica's stream of this number.
    TakeOther(Author, u64),
    /// The stream of this number was opened for the one who asked.
    Open(Author, u64),
    /// A session or a stream was closed before its end.
    Cut,
    /// The replica retired.
    Retire,
    /// A receipt was given for the version.
    Vouch(Version),
    /// Push-outs were let go of, by a receipt for the version.
    Release(Version),
}

/// An event that a picture shows.
#[derive(Drop)]
pub struct Happening {
    /// Whose lane it is on: a version's author, and else the replica that the event is for.
    pub lane: Author,
    /// What it shows.
    pub kind: Kind,
    /// Its place among the answers of the world, from 0.
    pub place: usize,
}

impl Model for Happening {
    ghost use Rattle.mr_draw.specs.Happened.{Happened};

    ghost Value = { Happened };

    ghost view = { λ h. record { lane = h.lane; kind = h.kind; place = h.place } };
}

/// The events that a picture shows, in order of time. Its dots are the versions that were issued, each once, in their order,
/// and each on its author's lane. It costs a walk over the answers.
pub fn happenings(alloc: Global, answers: &[Answered]) -> Result<Vec<Happening>, AllocError>
    ensures shown { IfOk result (λ found. found.items ≡ happenings_of answers.now) }
    ensures dots { IfOk result (λ found. dots found.items ≡ map dot_at (issued_versions answers.now)) }
{
    let notes = Notes::of(alloc, answers)?;
    happenings_by(alloc, &notes, answers)
}

/// The events that a picture shows, by the notes of all frames.
fn happenings_by(alloc: Global, notes: &Notes, answers: &[Answered]) -> Grown<Vec<Happening>>
    ensures { IfOk result (λ found. found.items ≡ filter_map (λ p. happening_at notes.now p.0 p.1) (enumerate_from 0 answers.now)) }
{
    answers
        .iter()
        .enumerate()
        .filter_map(|(place, answered)| happening_at(notes, place, answered))
        .collect(alloc)
}

/// What the event at this place shows.
fn happening_at(notes: &Notes, place: usize, answered: &Answered) -> Option<Happening>
    ensures { result ≡ happening_at notes.now place answered.now }
{
    match kind_of(notes, answered) {
        Some(kind) => {
            let lane = lane_of(answered.event.replica, &kind);
            Some(Happening { lane, kind, place })
        }
        None => None,
    }
}

/// Whose lane it is on, where this replica did it.
fn lane_of(replica: Author, kind: &Kind) -> Author
    ensures { result ≡ lane_of replica kind.now }
{
    match kind {
        Kind::Issue(version) => version.author(),
        _ => replica,
    }
}

/// What an event shows that was answered so.
fn kind_of(notes: &Notes, answered: &Answered) -> Option<Kind>
    ensures { result ≡ kind_of notes.now answered.now }
{
    match &answered.answer {
        Answer::Stepped(Ok(reply)) => kind_of_reply(notes, &answered.event.act, reply),
        _ => None,
    }
}

fn kind_of_reply(notes: &Notes, act: &Act, reply: &Reply) -> Option<Kind>
    ensures { result ≡ kind_of_reply notes.now act.now reply.now }
{
    match reply {
        Reply::Issued(version) => Some(Kind::Issue(*version)),
        Reply::Done => kind_of_done(notes, act),
        Reply::Asked(_) => None,
        Reply::Streaming(stream) => kind_of_opened(notes, act, *stream),
        Reply::Gave(_) => None,
        Reply::Took => kind_of_taken(notes, act),
        Reply::Known => kind_of_taken(notes, act),
        Reply::Finished => kind_of_taken(notes, act),
        Reply::Vouched(receipt) => Some(Kind::Vouch(receipt.descent.version())),
    }
}

/// What an act shows that was answered by `Done`.
fn kind_of_done(notes: &Notes, act: &Act) -> Option<Kind>
    ensures { result ≡ kind_of_done notes.now act.now }
{
    match act {
        Act::CutIn(_) => Some(Kind::Cut),
        Act::CutOut(_) => Some(Kind::Cut),
        Act::Retire => Some(Kind::Retire),
        Act::Release(number) => match notes.receipt(*number) {
            Some(version) => Some(Kind::Release(version)),
            None => None,
        },
        _ => None,
    }
}

/// What the delivery of a record shows that was taken.
fn kind_of_taken(notes: &Notes, act: &Act) -> Option<Kind>
    ensures { result ≡ kind_of_taken notes.now act.now }
{
    match act {
        Act::Receive(number) => notes.taking(*number),
        Act::DeliverPart(number, _) => notes.taking(*number),
        _ => None,
    }
}

/// What the opening of a stream shows.
fn kind_of_opened(notes: &Notes, act: &Act, stream: u64) -> Option<Kind>
    ensures { result ≡ kind_of_opened notes.now act.now stream }
{
    match act {
        Act::Answer(number) => match notes.ask(*number) {
            Some(target) => Some(Kind::Open(target, stream)),
            None => None,
        },
        _ => None,
    }
}
