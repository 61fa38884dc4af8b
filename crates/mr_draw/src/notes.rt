//! What the frames of a world say, as far as a picture shows it.
ghost use Rattle.std.specs.Prelude.{◌≡◌, IfOk};
ghost use Rattle.std.specs.List.{filter_map};
ghost use Rattle.mr_world.specs.Pool.{at_number};
ghost use Rattle.mr_draw.specs.Notes.{asked_by, gave_by, notes_of, taking_of, vouched_by};

use crate::Grown;
use crate::happening::Kind;
use mr_replica::Reply;
use mr_version::{Author, Version};
use mr_wire::{Body, Record};
use mr_world::{Answer, Answered};
use std::alloc::Global;
use std::marker::Model;

/// What the requests, records and receipts of a world say, each in the order of their numbers.
#[derive(Drop)]
pub(crate) struct Notes {
    asks: Vec<Author>,
    /// What it shows to take each record.
    records: Vec<Kind>,
    receipts: Vec<Version>,
}

impl Model for Notes {
    ghost use Rattle.mr_draw.specs.NoteLists.{NoteLists};

    ghost Value = { NoteLists };

    ghost view = { λ n. record { asks = n.asks.items; records = n.records.items; receipts = n.receipts.items } };
}

impl Notes {
    /// The notes of all frames that were given. It costs three walks over the answers.
    pub(crate) fn of(alloc: Global, answers: &[Answered]) -> Grown<Notes>
        ensures { IfOk result (λ notes. notes ≡ notes_of answers.now) }
    {
        Ok(Notes {
            asks: asks(alloc, answers)?,
            records: records(alloc, answers)?,
            receipts: receipts(alloc, answers)?,
        })
    }

    /// Who gave the request of this number.
    pub(crate) fn ask(&self, number: u64) -> Option<Author>
        ensures { result ≡ at_number self.now.asks number }
    {
        if number == 0 {
            return None;
        }
        self.asks.get((number - 1) as usize).copied()
    }

    /// What it shows to take the record of this number.
    pub(crate) fn taking(&self, number: u64) -> Option<Kind>
        ensures { result ≡ at_number self.now.records number }
    {
        if number == 0 {
            return None;
        }
        self.records.get((number - 1) as usize).copied()
    }

    /// The version of the receipt of this number.
    pub(crate) fn receipt(&self, number: u64) -> Option<Version>
        ensures { result ≡ at_number self.now.receipts number }
    {
        if number == 0 {
            return None;
        }
        self.receipts.get((number - 1) as usize).copied()
    }
}

/// Who gave each request.
fn asks(alloc: Global, answers: &[Answered]) -> Grown<Vec<Author>>
    ensures { IfOk result (λ found. found.items ≡ filter_map asked_by answers.now) }
{
    answers.iter().filter_map(asked_by).collect(alloc)
}

/// What it shows to take each record that was given.
fn records(alloc: Global, answers: &[Answered]) -> Grown<Vec<Kind>>
    ensures { IfOk result (λ found. found.items ≡ filter_map gave_by answers.now) }
{
    answers.iter().filter_map(gave_by).collect(alloc)
}

/// The version of each receipt that was given.
fn receipts(alloc: Global, answers: &[Answered]) -> Grown<Vec<Version>>
    ensures { IfOk result (λ found. found.items ≡ filter_map vouched_by answers.now) }
{
    answers.iter().filter_map(vouched_by).collect(alloc)
}

fn asked_by(answered: &Answered) -> Option<Author>
    ensures { result ≡ asked_by answered.now }
{
    match &answered.answer {
        Answer::Stepped(Ok(Reply::Asked(ask))) => Some(ask.target()),
        _ => None,
    }
}

fn gave_by(answered: &Answered) -> Option<Kind>
    ensures { result ≡ gave_by answered.now }
{
    match &answered.answer {
        Answer::Stepped(Ok(Reply::Gave(record))) => Some(taking_of(record)),
        _ => None,
    }
}

fn vouched_by(answered: &Answered) -> Option<Version>
    ensures { result ≡ vouched_by answered.now }
{
    match &answered.answer {
        Answer::Stepped(Ok(Reply::Vouched(receipt))) => Some(receipt.descent.version()),
        _ => None,
    }
}

/// What it shows to take the record.
fn taking_of(sent: &Record) -> Kind
    ensures { result ≡ taking_of sent.now }
{
    let header = sent.header();
    match sent.body() {
        Body::Item(revision) => Kind::TakeItem(header.source, header.stream, revision.version()),
        Body::MoveOut(descent) => {
            Kind::TakeMoveOut(header.source, header.stream, descent.version())
        }
        _ => Kind::TakeOther(header.source, header.stream),
    }
}
