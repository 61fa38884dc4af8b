//! Steps: a replica with content is given hostile frames. It refuses each for a named reason and then answers all as
//! before, or takes it and notes it in its log.
use crate::random::cast::{Device, are_alike, renew, same};
use crate::random::frames::{KIND_PLACE, RECEIPT, REQUEST, is_spelled_alike, make_frame, read};
use crate::random::numbers::Numbers;
use crate::random::story::{frames_of, sync_both};
use crate::random::tally::Tally;
use anyhow::{Context, Result, bail, ensure};
use mr_replica::{Event, Refusal};
use mr_wire::{Frame, WireFault};
use std::alloc::{AllocError, Global};

/// How many frames the probe is given, before it begins anew.
const ROUND: u64 = 100;

/// Why a replica that has not retired may refuse a request.
const OF_REQUESTS: [Refusal; 4] = [
    Refusal::OwnAsk,
    Refusal::TooManyStreams,
    Refusal::LogFull,
    Refusal::TooManyHoles,
];

/// Why it may refuse a receipt.
const OF_RECEIPTS: [Refusal; 2] = [Refusal::NotPushedOut, Refusal::LogFull];

/// Why it may refuse what it is given as a record.
const OF_RECORDS: [Refusal; 11] = [
    Refusal::NotARecord,
    Refusal::NotForMe,
    Refusal::NoSession,
    Refusal::NotStart,
    Refusal::OtherStream,
    Refusal::Repeated,
    Refusal::Gap,
    Refusal::Forged,
    Refusal::LogFull,
    Refusal::TooManyHoles,
    Refusal::TooManyItems,
];

/// The replicas of a trial. The office and the phone are given no hostile frames.
#[derive(Drop)]
pub struct Trial<'a> {
    pub alloc: Global,
    pub office: &'a mut Device,
    pub phone: &'a mut Device,
    /// A copy of the phone, which is given each frame.
    pub probe: &'a mut Device,
    /// It is as the probe was before the newest frame.
    pub before: &'a mut Device,
    /// A copy of the phone, which is given the frames that the probe refuses before it takes any.
    pub tried: &'a mut Device,
}

/// What was met.
#[derive(Clone, Copy, Drop)]
pub struct Met {
    /// By those who read the bytes.
    pub reads: Tally,
    /// By replicas.
    pub steps: Tally,
    /// How many frames the tried replica has refused.
    pub refused: u64,
    /// Whether the probe has taken none in this round.
    is_fresh: bool,
}

/// A hostile frame, and whether it is given as a record whatever it is.
#[derive(Clone, Copy, Drop)]
struct Hostile<'a> {
    bytes: &'a [u8],
    is_as_record: bool,
}

impl Trial<'_> {
    /// Makes so many hostile frames, reads each, and gives those that are frames to the probe.
    pub fn try_all(
        &mut self,
        samples: &[Vec<u8>],
        numbers: &mut Numbers,
        count: u64,
    ) -> Result<Met> {
        renew(self.tried, self.phone)?;
        let mut bytes = Vec::new(self.alloc);
        self.try_many(samples, numbers, count, &mut bytes)
    }

    /// Does so with this room for a frame.
    fn try_many(
        &mut self,
        samples: &[Vec<u8>],
        numbers: &mut Numbers,
        count: u64,
        bytes: &mut Vec<u8>,
    ) -> Result<Met> {
        let mut met = Met {
            reads: Tally::new(),
            steps: Tally::new(),
            refused: 0,
            is_fresh: true,
        };
        for number in 0..count {
            if number % ROUND == 0 {
                self.begin(&mut met)?;
            }
            make_frame(samples, numbers, bytes)?;
            let hostile = Hostile {
                bytes: bytes.as_slice(),
                is_as_record: numbers.is_once_in(20),
            };
            self.try_one(&hostile, &mut met)
                .context(format_args!("frame {number}, {bytes:?}"))?;
        }
        Ok(met)
    }

    /// The probe begins anew.
    fn begin(&mut self, met: &mut Met) -> Result<(), AllocError> {
        met.is_fresh = true;
        renew(self.probe, self.phone)?;
        renew(self.before, self.phone)
    }

    /// Fails where a sync of the tried replica says something else than one of the phone does, or comes to something
    /// else.
    pub fn check_sync(&mut self) -> Result<()> {
        renew(self.probe, self.office)?;
        sync_both(self.office, self.phone)?;
        sync_both(self.probe, self.tried)?;
        ensure!(
            are_alike(self.phone, self.tried)? && are_alike(self.office, self.probe)?,
            "a sync behind refused frames comes to something else"
        );
        ensure!(
            say_alike(self.alloc, self.phone, self.tried)?,
            "a sync behind refused frames says something else"
        );
        Ok(())
    }

    /// Reads the bytes, and gives the frame that they spell to the probe.
    fn try_one(&mut self, hostile: &Hostile<'_>, met: &mut Met) -> Result<()> {
        if let Some(number) = fault_in(self.alloc, hostile.bytes)? {
            met.reads.note(number);
            return Ok(());
        }
        met.reads.note(0);
        let answer = give(self.alloc, self.probe, hostile)?;
        match answer {
            None => self.note_taken(met),
            Some(refusal) => self.note_refused(hostile, refusal, met),
        }
    }

    /// The probe has taken a frame. Fails where it has not noted that.
    fn note_taken(&mut self, met: &mut Met) -> Result<()> {
        met.steps.note(0);
        met.is_fresh = false;
        let (len, before) = (self.probe.log().len(), self.before.log().len());
        ensure!(
            len.checked_sub(before) == Some(1),
            "the log has {len} events where it had {before}"
        );
        Ok(renew(self.before, self.probe)?)
    }

    /// The probe has refused a frame. Fails where that is for another reason than it may be, where it changes what the
    /// probe answers, or where the tried replica does not refuse it in the same way: the tried one is given the frame if the
    /// probe has taken none.
    fn note_refused(
        &mut self,
        hostile: &Hostile<'_>,
        refusal: Refusal,
        met: &mut Met,
    ) -> Result<()> {
        met.steps.note(refusal.number());
        ensure!(hostile.is_named(refusal), "it is refused with {refusal}");
        ensure!(
            are_alike(self.probe, self.before)?,
            "it is refused with {refusal}, and changes what the replica answers"
        );
        if met.is_fresh {
            met.refused = met.refused.saturating_add(1);
            let again = give(self.alloc, self.tried, hostile)?;
            ensure!(
                again == Some(refusal),
                "one of two equal replicas refuses with {refusal}, the other answers {again:?}"
            );
        }
        Ok(())
    }
}

impl Hostile<'_> {
    /// Whether a replica that has not retired may refuse the frame so, where there is memory.
    fn is_named(&self, refusal: Refusal) -> bool {
        match self.bytes.get(KIND_PLACE) {
            Some(&REQUEST) if !self.is_as_record => OF_REQUESTS.contains(&refusal),
            Some(&RECEIPT) if !self.is_as_record => OF_RECEIPTS.contains(&refusal),
            _ => OF_RECORDS.contains(&refusal),
        }
    }
}

/// The number of the fault that the bytes have, if they have one. Fails where a frame is spelled otherwise than it was
/// read.
fn fault_in(alloc: Global, bytes: &[u8]) -> Result<Option<u8>> {
    match is_spelled_alike(alloc, bytes) {
        Ok(is_alike) => {
            ensure!(is_alike, "a frame is spelled otherwise than it was read");
            Ok(None)
        }
        Err(WireFault::OutOfMemory) => bail!("memory ran out"),
        Err(fault) => Ok(Some(fault.number())),
    }
}

/// Gives the frame to a replica. Gives its refusal, if it refuses it.
fn give(
    alloc: Global,
    device: &mut Device,
    hostile: &Hostile<'_>,
) -> Result<Option<Refusal>, WireFault> {
    let frame = read(alloc, hostile.bytes)?;
    Ok(step(device, event_of(frame, hostile.is_as_record)))
}

/// Asks a replica for this. Gives its refusal, if it refuses it.
fn step(device: &mut Device, event: Event) -> Option<Refusal> {
    device.step(event).err()
}

/// The event by which a host gives a frame to a replica.
fn event_of(frame: Frame, is_as_record: bool) -> Event {
    match frame {
        Frame::Ask(ask) if !is_as_record => Event::Answer(ask),
        Frame::Receipt(receipt) if !is_as_record => Event::Release(receipt),
        frame => Event::Receive(frame),
    }
}

/// Whether the same frames are in the logs of both.
fn say_alike(alloc: Global, a: &Device, b: &Device) -> Result<bool, WireFault> {
    same(frames_of(alloc, a.log()), frames_of(alloc, b.log()))
}
