//! How one device brings another up to date.
use crate::device::Device;
use crate::fault::Fault;
use crate::wire::Wire;
use std::alloc::Global;

/// The most batches, and the most records of a batch, that a stream of the story has.
const MANY: u32 = 100;

/// A stream of records on its way from a source to a target.
#[derive(Drop)]
pub struct Exchange {
    /// The connection, over which the records go.
    wire: Wire,
    /// The target's number for it.
    session: u64,
    /// The source's number for it.
    stream: u64,
}

impl Exchange {
    /// The target asks, and the source answers with a stream.
    pub fn begin(
        alloc: Global,
        target: &mut Device,
        source: &mut Device,
    ) -> Result<Exchange, Fault> {
        let mut asks = Wire::new(alloc);
        let numbers = agree(target, source, &mut asks);
        drop(asks);
        let (session, stream) = numbers?;
        Ok(Exchange {
            wire: Wire::new(alloc),
            session,
            stream,
        })
    }

    /// Records go until the last one, batch by batch, and it tells how many they were. The exchange is over.
    pub fn finish(mut self, target: &mut Device, source: &mut Device) -> Result<u32, Fault> {
        let records = self.give_all(target, source);
        drop(self);
        records
    }

    /// Records go until the last one.
    fn give_all(&mut self, target: &mut Device, source: &mut Device) -> Result<u32, Fault> {
        let mut records = 0u32;
        for _ in 0..MANY {
            let is_over = source.give(self.stream, &mut self.wire)?;
            self.wire.deliver()?;
            records = records.saturating_add(self.take_all(target)?);
            if is_over {
                return Ok(records);
            }
        }
        Err(Fault::NoEnd)
    }

    /// The target takes each record that came whole, keeps them all at once, and tells how many they were.
    fn take_all(&mut self, target: &mut Device) -> Result<u32, Fault> {
        for count in 0..MANY {
            if target.take(&mut self.wire)?.is_none() {
                target.keep()?;
                return Ok(count);
            }
        }
        Err(Fault::NoEnd)
    }

    /// A batch goes, and the connection breaks after so many bytes of it. What came whole is taken, and both sides give up. The
    /// exchange is over, and it tells how many records were taken.
    ///
    /// A part of a record is never taken. To go on, begin anew: the new request tells what was taken.
    pub fn break_off_after(
        mut self,
        bytes: usize,
        target: &mut Device,
        source: &mut Device,
    ) -> Result<u32, Fault> {
        let records = self.give_up_after(bytes, target, source);
        drop(self);
        records
    }

    /// A part of a batch goes, and both sides give up.
    fn give_up_after(
        &mut self,
        bytes: usize,
        target: &mut Device,
        source: &mut Device,
    ) -> Result<u32, Fault> {
        source.give(self.stream, &mut self.wire)?;
        self.wire.lose_all_after(bytes)?;
        let records = self.take_all(target)?;
        target.cut_in(self.session)?;
        source.cut_out(self.stream)?;
        Ok(records)
    }
}

/// The target asks over this connection, and the source opens a stream: the number of the session, and that of the stream.
fn agree(target: &mut Device, source: &mut Device, asks: &mut Wire) -> Result<(u64, u64), Fault> {
    let session = target.ask(asks)?;
    let stream = source.answer(asks)?;
    Ok((session, stream))
}
