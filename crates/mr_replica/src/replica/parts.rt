//! What events change of a replica, and the changes: what can be wanting is made sure of first, and then none can fail.
ghost use Rattle.std.specs.Prelude.{◌≡◌, ◌<◌, ◌+◌, ◌^◌, ◌++◌, false, true, length, None, IsSome, IfSome, MatchResult};
ghost use Rattle.mr_store.specs.Revisions.{AreInVersionOrder, revision_of};
ghost use Rattle.mr_session.specs.Session.{new_session, with_taken};
ghost use Rattle.mr_session.specs.Stream.{new_stream};
ghost use Rattle.mr_session.specs.Table.{open_at, with_opened, with_closed};
ghost use Rattle.mr_session.specs.Onward.{advanced};
ghost use Rattle.mr_session.specs.declared.limits.TheConstants.{MAX_OPEN};
ghost use Rattle.mr_replica.specs.inner.Parts.{parts_seen, HasBecome, IsDueIn, IsOfRecord, IsOfReceipt};

use super::answer::Opening;
use super::contents::{Arrival, Contents};
use super::end::Ended;
use super::take::{Told, told_below};
use crate::Event;
use mr_feed::Entry;
use mr_filter::Filter;
use mr_forms::Knowledge;
use mr_session::{Onward, Sessions, Streams};
use mr_version::{Author, ItemId, Version};
use mr_wire::{Frame, Receipt, Record};
use std::alloc::{AllocError, Global};

/// A replica's setting, and what events change of it.
#[derive(Drop)]
pub struct Parts<K> {
    pub id: Author,
    pub filter: Filter,
    pub event_limit: u32,
    /// How many versions were issued.
    pub issued: u32,
    pub knowledge: K,
    pub contents: Contents,
    pub is_retired: bool,
    pub sessions: Sessions,
    pub streams: Streams,
}

/// What an admitted event changes, with all that can be made before anything changes.
#[derive(Drop)]
pub enum Change<K> {
    /// Nothing but the log.
    Note,
    /// A revision enters.
    Enter(Arrival),
    /// A session takes the event's record, which teaches nothing.
    Take,
    /// A session takes the event's record, and what it tells of this version of the item is learned.
    Learn(ItemId, Version, Told),
    /// A session takes the End of its full stream, and is closed.
    End(Ended<K>),
    /// The next session is opened.
    OpenSession,
    /// The session of this number is closed.
    CloseSession(u64),
    /// The next stream is opened.
    OpenStream(Opening),
    /// The stream of this number goes on.
    GoOn(u64, Onward),
    /// The stream of this number is closed.
    CloseStream(u64),
    /// The push-outs leave that the event's receipt is for, and these entries tell it.
    Release(Vec<Entry>),
    /// It has retired.
    Retire,
}

impl<K: Knowledge> Parts<K> {
    ghost use Rattle.mr_forms.specs.Known.{AreSame};
    ghost use Rattle.mr_replica.specs.State.{new_state};
    ghost use Rattle.mr_replica.specs.inner.Parts.{MayPut, IsPut, Enters, Learns, IsToldIn, released_in, ended_in};

    /// A replica to which nothing has happened. It allocates nothing.
    pub fn new(alloc: Global, id: Author, filter: Filter, event_limit: u32) -> Parts<K>
        ensures knows_nothing { AreSame (K.form.known result.knowledge) (λ _ _. false) }
        ensures is_empty { parts_seen result ≡ new_state id filter event_limit result.knowledge }
    {
        Parts {
            id,
            filter,
            event_limit,
            issued: 0,
            knowledge: K::new(alloc),
            contents: Contents::new(alloc),
            is_retired: false,
            sessions: Sessions::new(alloc),
            streams: Streams::new(alloc),
        }
    }

    /// The change is made, and there is room for its event; or memory is wanting, and nothing has changed.
    pub fn put(&mut self, change: Change<K>, event: &Event) -> Result<(), AllocError>
        requires { MayPut (parts_seen self.old) change event.now }
        ensures { MatchResult result (λ _. IsPut K.form self.old change event.now self.new) (λ _. parts_seen self.new ≡ parts_seen self.old) }
    {
        match change {
            Change::Note => self.contents.reserve_event(),
            Change::Enter(arrival) => self.enter(arrival),
            Change::Take => self.take(record_of(event)),
            Change::Learn(item, version, told) => {
                self.learn(item, version, told, record_of(event))
            }
            Change::End(ended) => self.end(ended),
            Change::OpenSession => self.open_session(),
            Change::CloseSession(session) => self.close_session(session),
            Change::OpenStream(opening) => self.open_stream(opening),
            Change::GoOn(stream, onward) => self.go_on(stream, onward),
            Change::CloseStream(stream) => self.close_stream(stream),
            Change::Release(entries) => self.release(receipt_of(event), entries),
            Change::Retire => self.retire(),
        }
    }

    // ---- revisions

    // The next own revision enters, and is learned.
    fn enter(&mut self, arrival: Arrival) -> Result<(), AllocError>
        requires few { self.old.issued + 1 < 2 ^ 32 }
        requires new { revision_of (self.old.contents.store.heads ++ self.old.contents.store.push_outs) arrival.revision.version ≡ None }
        ensures { MatchResult result (λ _. Enters K.form self.old arrival self.new) (λ _. parts_seen self.new ≡ parts_seen self.old) }
    {
        let (item, version) = (arrival.revision.item(), arrival.revision.version());
        self.contents.reserve(&arrival)?;
        let Ok(()) = self.knowledge.learn(item, version) else {
            return Err(AllocError);
        };
        self.contents.enter(arrival);
        self.issued += 1;
        Ok(())
    }

    // The session takes the record, and what it tells is learned.
    fn learn(
        &mut self,
        item: ItemId,
        version: Version,
        told: Told,
        sent: &Record,
    ) -> Result<(), AllocError>
        requires { IsToldIn (parts_seen self.old) item version told sent.now }
        ensures { MatchResult result (λ _. Learns K.form self.old item version told sent.now self.new) (λ _. parts_seen self.new ≡ parts_seen self.old) }
    {
        let below = told_below(sent.body());
        self.contents.reserve_taken(&told.comer, told.entries.len(), told.push_out_entries.len())?;
        let Ok(()) = self.knowledge.learn_with(item, version, below) else {
            return Err(AllocError);
        };
        let Ok(()) = self.sessions.take(sent) else {
            unreachable!()
        };
        self.contents.learn(item, below, told.comer, told.entries, told.push_out_entries);
        Ok(())
    }

    // The push-outs that the receipt is for leave, and the entries tell it.
    fn release(&mut self, receipt: &Receipt, entries: Vec<Entry>) -> Result<(), AllocError>
        ensures { MatchResult result (λ _. HasBecome self.new (released_in (parts_seen self.old) entries.items receipt.now)) (λ _. parts_seen self.new ≡ parts_seen self.old) }
    {
        self.contents.reserve_gone(entries.len())?;
        self.contents.release(receipt, entries);
        Ok(())
    }

    // ---- sessions

    fn open_session(&mut self) -> Result<(), AllocError>
        requires room { length self.old.sessions.open_ones < MAX_OPEN }
        requires numbers { self.old.sessions.opened + 1 < 2 ^ 64 }
        ensures { MatchResult result (λ _. HasBecome self.new (record (parts_seen self.old) { sessions = with_opened self.old.sessions new_session })) (λ _. parts_seen self.new ≡ parts_seen self.old) }
    {
        self.contents.reserve_event()?;
        self.sessions.open()?;
        Ok(())
    }

    // The session takes the record, which teaches nothing.
    fn take(&mut self, sent: &Record) -> Result<(), AllocError>
        requires { IsDueIn self.old.sessions sent.now }
        ensures { MatchResult result (λ _. HasBecome self.new (record (parts_seen self.old) { sessions = with_taken sent.now self.old.sessions })) (λ _. parts_seen self.new ≡ parts_seen self.old) }
    {
        self.contents.reserve_event()?;
        self.sessions.take(sent)
    }

    // The session takes the End of its full stream, and is closed.
    fn end(&mut self, ended: Ended<K>) -> Result<(), AllocError>
        requires open { IsSome (open_at self.old.sessions ended.session) }
        requires in_order { AreInVersionOrder ended.left.items }
        ensures { MatchResult result (λ _. HasBecome self.new (ended_in (parts_seen self.old) ended)) (λ _. parts_seen self.new ≡ parts_seen self.old) }
    {
        self.contents.reserve_taken(&None, ended.entries.len(), 0)?;
        self.sessions.close(ended.session);
        self.knowledge = ended.knowledge;
        self.contents.drop_heads(ended.left, ended.entries);
        Ok(())
    }

    fn close_session(&mut self, session: u64) -> Result<(), AllocError>
        requires { IsSome (open_at self.old.sessions session) }
        ensures { MatchResult result (λ _. HasBecome self.new (record (parts_seen self.old) { sessions = with_closed self.old.sessions session })) (λ _. parts_seen self.new ≡ parts_seen self.old) }
    {
        self.contents.reserve_event()?;
        self.sessions.close(session);
        Ok(())
    }

    // ---- streams

    fn open_stream(&mut self, opening: Opening) -> Result<(), AllocError>
        requires room { length self.old.streams.open_ones < MAX_OPEN }
        requires numbers { self.old.streams.opened + 1 < 2 ^ 64 }
        ensures { MatchResult result (λ _. HasBecome self.new (record (parts_seen self.old) { streams = with_opened self.old.streams (new_stream opening.asked opening.mode opening.know.items) })) (λ _. parts_seen self.new ≡ parts_seen self.old) }
    {
        self.contents.reserve_event()?;
        self.streams
            .open(opening.asked, opening.mode, opening.know)?;
        Ok(())
    }

    fn go_on(&mut self, stream: u64, onward: Onward) -> Result<(), AllocError>
        requires open { IsSome (open_at self.old.streams stream) }
        requires goes_on { IfSome (open_at self.old.streams stream) (λ stream. stream.next + 1 < 2 ^ 32) }
        ensures { MatchResult result (λ _. HasBecome self.new (record (parts_seen self.old) { streams = advanced stream onward self.old.streams })) (λ _. parts_seen self.new ≡ parts_seen self.old) }
    {
        self.contents.reserve_event()?;
        self.streams.advance(stream, onward);
        Ok(())
    }

    fn close_stream(&mut self, stream: u64) -> Result<(), AllocError>
        requires { IsSome (open_at self.old.streams stream) }
        ensures { MatchResult result (λ _. HasBecome self.new (record (parts_seen self.old) { streams = with_closed self.old.streams stream })) (λ _. parts_seen self.new ≡ parts_seen self.old) }
    {
        self.contents.reserve_event()?;
        self.streams.close(stream);
        Ok(())
    }

    // ---- the replica

    fn retire(&mut self) -> Result<(), AllocError>
        ensures { MatchResult result (λ _. HasBecome self.new (record (parts_seen self.old) { is_retired = true })) (λ _. parts_seen self.new ≡ parts_seen self.old) }
    {
        self.contents.reserve_event()?;
        self.is_retired = true;
        Ok(())
    }
}

// The record that an event receives.
fn record_of(event: &Event) -> &Record
    requires { IsOfRecord event.now }
    ensures { event.now ≡ Event.Receive (Frame.Record result.now) }
{
    match event {
        Event::Receive(Frame::Record(sent)) => sent,
        _ => unreachable!(),
    }
}

// The receipt that an event releases by.
fn receipt_of(event: &Event) -> &Receipt
    requires { IsOfReceipt event.now }
    ensures { event.now ≡ Event.Release result.now }
{
    match event {
        Event::Release(receipt) => receipt,
        _ => unreachable!(),
    }
}
