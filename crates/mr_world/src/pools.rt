//! The three pools, and what a replica's answer gives to them.
ghost use Rattle.std.specs.Prelude.{◌≡◌, [], IfOk, OnOk};
ghost use Rattle.mr_world.specs.inner.Given.{IsGivenBy, KeepsFrames, HasPlaces, Gains};

use crate::pool::Pool;
use mr_replica::Reply;
use mr_wire::{encode_ask, encode_receipt, encode_record};
use std::alloc::{AllocError, Global};
use std::marker::Model;

/// All requests, records and receipts that the replicas of a world gave, as frames.
#[derive(Drop)]
pub struct Pools {
    asks: Pool,
    records: Pool,
    receipts: Pool,
}

impl Model for Pools {
    ghost use Rattle.mr_world.specs.Pool.{PoolList};

    ghost Value = { PoolList };

    ghost view = { λ p. record { asks = p.asks; records = p.records; receipts = p.receipts } };
}

/// The frame that a reply gives, by the pool that it is for.
#[derive(Drop)]
pub enum Given {
    Nothing,
    Ask(Vec<u8>),
    Record(Vec<u8>),
    Receipt(Vec<u8>),
}

/// What the reply gives. It costs the frame's bytes.
pub fn given_by(alloc: Global, reply: &Reply) -> Result<Given, AllocError>
    ensures { IfOk result (IsGivenBy reply.now) }
{
    let given = match reply {
        Reply::Asked(ask) => encode_ask(alloc, ask).map(Given::Ask),
        Reply::Gave(record) => encode_record(alloc, record).map(Given::Record),
        Reply::Vouched(receipt) => encode_receipt(alloc, receipt).map(Given::Receipt),
        _ => Ok(Given::Nothing),
    };
    given.map_err(|_| AllocError)
}

impl Pools {
    /// Pools with no frame. Nothing is allocated.
    pub fn new(alloc: Global) -> Pools
        ensures asks { result.asks.frames ≡ [] }
        ensures records { result.records.frames ≡ [] }
        ensures receipts { result.receipts.frames ≡ [] }
    {
        Pools {
            asks: Pool::new(alloc),
            records: Pool::new(alloc),
            receipts: Pool::new(alloc),
        }
    }

    /// The requests.
    pub fn asks(&self) -> &Pool
        ensures { result.now ≡ self.now.asks }
    {
        &self.asks
    }

    /// The records.
    pub fn records(&self) -> &Pool
        ensures { result.now ≡ self.now.records }
    {
        &self.records
    }

    /// The receipts.
    pub fn receipts(&self) -> &Pool
        ensures { result.now ≡ self.now.receipts }
    {
        &self.receipts
    }

    /// Makes room for one frame more in each pool.
    pub fn reserve(&mut self) -> Result<(), AllocError>
        ensures places { OnOk result (HasPlaces self.new) }
        ensures frames { KeepsFrames self.old self.new }
    {
        self.asks.reserve()?;
        self.records.reserve()?;
        self.receipts.reserve()
    }

    /// Puts what was given into its pool, where there is room.
    pub fn put(&mut self, given: Given)
        requires { HasPlaces self.old }
        ensures { Gains self.old given self.new }
    {
        match given {
            Given::Nothing => {}
            Given::Ask(frame) => self.asks.push_reserved(frame),
            Given::Record(frame) => self.records.push_reserved(frame),
            Given::Receipt(frame) => self.receipts.push_reserved(frame),
        }
    }
}
