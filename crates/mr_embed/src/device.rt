//! A device: a replica that is kept in a file, and what it sends and takes.
use crate::fault::Fault;
use crate::hello::{met_in, note_of};
use crate::mail::Draft;
use crate::place::{birth, mark_of, setup_of};
use crate::wire::Wire;
use mr_entry::{Birth, Mark, Note};
use mr_feed::Entry;
use mr_filter::Filter;
use mr_itemset::SparingKnowledge;
use mr_journal::DiskFile;
use mr_kept::{Journaled, KeptFault, OpenFault};
use mr_mail::Message;
use mr_replica::{Bases, Received, Replica, Reply, Revision};
use mr_version::{Author, Version};
use mr_wire::{Ask, Frame, Receipt, encode_ask, encode_receipt, encode_record};
use std::alloc::Global;
use std::fs::File;
use std::io;
use std::rt::Files;

/// How many records a device gives at a time, and about how many bytes: what it keeps by one commit.
const BATCH_RECORDS: u32 = 4;

const BATCH_BYTES: u64 = 65_536;

/// A replica with its journal in a file.
pub type Kept = Journaled<SparingKnowledge, DiskFile>;

/// One device with its replica. Each method that changes it is an event of the replica or a few, and what it hands out it
/// hands out behind a commit.
#[derive(Drop)]
pub struct Device {
    alloc: Global,
    kept: Kept,
    /// Whom it has met, as the notes of its journal tell.
    met: Vec<(Author, Birth)>,
}

impl Device {
    /// Makes a device with no mail, whose journal is a new file of this path. No other device may ever have its id, 0 to 63; it keeps
    /// what the filter selects.
    ///
    /// `Version` where there is no such id, `Filter` where the text is none, `File` or `Open` where the file is refused.
    pub fn begin<R: Files<File = File> + AllocGlobal>(
        rt: &R,
        path: &str,
        id: u16,
        filter: &str,
    ) -> Result<Device, Fault> {
        let id = Author::try_new(id)?;
        let birth = birth(rt)?;
        let filter = Filter::read(rt.alloc(), filter)?;
        Device::begin_with(rt, path, id, filter, birth)
    }

    /// Makes the device once its words are read.
    fn begin_with<R: Files<File = File> + AllocGlobal>(
        rt: &R,
        path: &str,
        id: Author,
        filter: Filter,
        birth: Birth,
    ) -> Result<Device, Fault> {
        let (file, mark) = file_at(rt, path)?;
        let setup = setup_of(id, filter, birth, mark);
        let kept = opened(Kept::begin(rt.alloc(), file, setup))?;
        Ok(Device::of(rt.alloc(), kept))
    }

    /// The device of this replica, which has met nobody yet.
    fn of(alloc: Global, kept: Kept) -> Device {
        let met = Vec::new(alloc);
        Device { alloc, kept, met }
    }

    /// Opens the device again, from its file. What was open is closed.
    ///
    /// `File` where the file can't be opened, or another process has it open; `Open` where it is no journal of a replica, or was copied.
    pub fn open<R: Files<File = File> + AllocGlobal>(rt: &R, path: &str) -> Result<Device, Fault> {
        let (file, mark) = file_at(rt, path)?;
        let (kept, found) = opened(Kept::open(rt.alloc(), file, &mark, None))?;
        let mut device = Device::of(rt.alloc(), kept);
        let told = device.recall(&found.notes);
        drop(found);
        told.and(Ok(device))
    }

    /// Recalls from the notes of its journal whom it has met.
    fn recall(&mut self, notes: &[Note]) -> Result<(), Fault> {
        self.met = met_in(self.alloc, notes)?;
        Ok(())
    }

    /// The replica, to be looked at.
    pub fn replica(&self) -> &Replica<SparingKnowledge> {
        self.kept.replica()
    }

    /// The replica with its journal, to be looked at.
    pub fn kept(&self) -> &Kept {
        &self.kept
    }

    /// Whom it has met: the id and the birth of each.
    pub fn met(&self) -> &[(Author, Birth)] {
        self.met.as_slice()
    }

    /// Keeps that it has met this one.
    pub fn meet(&mut self, id: Author, birth: Birth) -> Result<(), Fault> {
        self.kept.note(note_of(self.alloc, id, &birth)?)?;
        self.kept.commit()?;
        self.met.push((id, birth))?;
        Ok(())
    }

    /// When its journal was begun: random bytes.
    pub fn birth(&self) -> Birth {
        self.kept.birth()
    }

    /// Writes a message. The version names it on all devices, for ever.
    pub fn write(&mut self, draft: &Draft<'_>) -> Result<Version, Fault> {
        let message = draft.message(self.alloc)?;
        self.kept.create(message)?;
        issued(&self.kept.commit()?)
    }

    /// Puts a new version of a message in the place of those that it is made from. It works offline: other devices hear of
    /// it at their next sync, and show a conflict where somebody else edited the same version.
    pub fn edit(&mut self, bases: Vec<Version>, message: Message) -> Result<Version, Fault> {
        self.kept.edit(Bases::new(bases), message)?;
        issued(&self.kept.commit()?)
    }

    /// Asks for what this device lacks, and gives the number of the session that waits for the answer.
    pub fn ask(&mut self, wire: &mut Wire) -> Result<u64, Fault> {
        self.kept.pull()?;
        let replies = self.kept.commit()?;
        let ask = asked(&replies)?;
        let bytes = encode_ask(self.alloc, ask)?;
        sent(self.kept.send(wire.way(), &bytes))?;
        Ok(ask.session())
    }

    /// Opens a stream for whoever asked, and gives its number.
    pub fn answer(&mut self, wire: &mut Wire) -> Result<u64, Fault> {
        wire.deliver()?;
        let ask = request(wire.next_frame()?)?;
        answered(self.kept.answer(ask))
    }

    /// Sends the next records of the stream, once it is kept that they were given. It tells whether they were the last.
    pub fn give(&mut self, stream: u64, wire: &mut Wire) -> Result<bool, Fault> {
        let is_over = self.kept.tell(stream, BATCH_RECORDS, BATCH_BYTES)?;
        let replies = self.kept.commit()?;
        for reply in &replies {
            if let Reply::Gave(record) = reply {
                let bytes = encode_record(self.alloc, record)?;
                sent(self.kept.send(wire.way(), &bytes))?;
            }
        }
        Ok(is_over)
    }

    /// Takes the next record that came, if one is whole.
    pub fn take(&mut self, wire: &mut Wire) -> Result<Option<Received>, Fault> {
        match wire.next()? {
            Some(frame) => Ok(Some(answered(self.kept.receive(frame))?)),
            None => Ok(None),
        }
    }

    /// Keeps what was taken.
    pub fn keep(&mut self) -> Result<(), Fault> {
        self.kept.commit()?;
        Ok(())
    }

    /// Gives up a session whose connection is gone. What it took stays, and isn't told again.
    pub fn cut_in(&mut self, session: u64) -> Result<(), Fault> {
        answered(self.kept.cut_in(session))?;
        self.keep()
    }

    /// Gives up a stream whose connection is gone. A device has eight at a time, so it has to be let go.
    pub fn cut_out(&mut self, stream: u64) -> Result<(), Fault> {
        answered(self.kept.cut_out(stream))?;
        self.keep()
    }

    /// Gives its word for a message that it holds, so that the one who wrote it may let go of it.
    pub fn vouch(&mut self, version: Version, wire: &mut Wire) -> Result<(), Fault> {
        self.kept.vouch(version)?;
        let replies = self.kept.commit()?;
        let bytes = encode_receipt(self.alloc, vouched(&replies)?)?;
        sent(self.kept.send(wire.way(), &bytes))
    }

    /// Lets go of what another device has given its word for.
    pub fn release(&mut self, wire: &mut Wire) -> Result<(), Fault> {
        wire.deliver()?;
        let receipt = receipt(wire.next_frame()?)?;
        answered(self.kept.release(receipt))?;
        self.keep()
    }

    /// Writes, asks and takes nothing more. It is refused while the device keeps messages for others only, and it
    /// is **not** refused while the device is the only one that has a message of its own: see `lacks_any_of`.
    pub fn retire(&mut self) -> Result<(), KeptFault> {
        self.kept.retire()?;
        self.kept.commit()?;
        Ok(())
    }

    /// Whether the other device has a message that this one doesn't know. What this one knows and its filter selects it
    /// holds, unless it knows of a newer version in its place; so a device whose filter is `all` and that lacks nothing
    /// of another has all mail of that one.
    pub fn lacks_any_of(&self, other: &Device) -> bool {
        other.heads().iter().any(|head| !self.kept.replica().knows(head.item(), head.version()))
    }

    /// The messages of this device, in version order.
    pub fn heads(&self) -> &[Revision] {
        self.kept.replica().heads()
    }

    /// What entered and left, from the first on. It only grows.
    pub fn feed(&self) -> &[Entry] {
        self.kept.replica().feed()
    }
}

/// The file of this path, and where it is.
fn file_at<R: Files<File = File> + AllocGlobal>(
    rt: &R,
    path: &str,
) -> Result<(DiskFile, Mark), Fault> {
    let file = DiskFile::open(rt, path)?;
    let mark = mark_of(&file)?;
    Ok((file, mark))
}

/// What was begun or opened. The file is closed where nothing was.
fn opened<T: Drop, D: Drop>(outcome: Result<T, (OpenFault, D)>) -> Result<T, Fault> {
    match outcome {
        Ok(made) => Ok(made),
        Err((fault, _file)) => Err(Fault::Open(fault.number())),
    }
}

/// What was answered. (A refusal is named here, in a function that owns nothing else: the checker needs it so.)
fn answered<T: Drop>(answer: Result<T, KeptFault>) -> Result<T, Fault> {
    match answer {
        Ok(answer) => Ok(answer),
        Err(KeptFault::Refused(refusal)) => Err(Fault::from(refusal)),
        Err(fault) => Err(Fault::from(fault)),
    }
}

/// What became of bytes: `Sending` where the connection takes no more.
fn sent(done: io::Result<()>) -> Result<(), Fault> {
    match done {
        Ok(()) => Ok(()),
        Err(_) => Err(Fault::Sending),
    }
}

/// The version that was issued.
fn issued(replies: &[Reply]) -> Result<Version, Fault> {
    match replies {
        [Reply::Issued(version)] => Ok(*version),
        _ => Err(Fault::OtherReply),
    }
}

/// The request that a Pull made.
fn asked(replies: &[Reply]) -> Result<&Ask, Fault> {
    match replies {
        [Reply::Asked(ask)] => Ok(ask),
        _ => Err(Fault::OtherReply),
    }
}

/// The receipt that was given.
fn vouched(replies: &[Reply]) -> Result<&Receipt, Fault> {
    match replies {
        [Reply::Vouched(receipt)] => Ok(receipt),
        _ => Err(Fault::OtherReply),
    }
}

/// The request in the frame.
fn request(frame: Frame) -> Result<Ask, Fault> {
    match frame {
        Frame::Ask(ask) => Ok(ask),
        other => Err(of_another_kind(other)),
    }
}

/// The receipt in the frame.
fn receipt(frame: Frame) -> Result<Receipt, Fault> {
    match frame {
        Frame::Receipt(receipt) => Ok(receipt),
        other => Err(of_another_kind(other)),
    }
}

/// The fault of a frame that wasn't waited for.
fn of_another_kind<T: Drop>(_frame: T) -> Fault {
    Fault::OtherFrame
}
