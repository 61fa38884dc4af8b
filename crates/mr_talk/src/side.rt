//! What a talk asks of the folder that it speaks for.
ghost use Rattle.std.specs.Prelude.{◌≡◌, Bool, false, OnOk, option_copied};
ghost use Rattle.mr_talk.specs.Host.{Act, Asks, Closes, Gives, Greets, Keeps, KeepsFiles, Meets, Takes};
ghost use Rattle.mr_talk.specs.declared.kind.Kind.TheVariants as kind;

use crate::hello::{Hello, Short};
use crate::message::Message;
use crate::turn::Turn;
use thiserror::Error;

/// Why a host can't go on: a number of its own, which the other side is told with the text.
#[derive(Debug, Drop, Error)]
#[error("{text}")]
pub struct HostFault {
    /// The fault's number among the host's.
    pub number: u16,
    /// What a person reads. The other side is told its first 1,022 bytes at most.
    pub text: String,
}

/// An open folder, as a talk sees it.
///
/// Whatever a call does is undone by nothing here: what a talk that breaks off leaves is the beginning of a whole one.
pub trait Host {
    /// What a call of this host, with its answer, does: it leads from one state to another.
    ghost steps: { Self → Act → Self → Type 0 };

    /// Whether something was done that isn't kept yet. Nothing is sent while it is so.
    ghost waits: { Self → Bool };

    /// Whether a file came that isn't on the disk yet. No record is taken while it is so.
    ghost files_wait: { Self → Bool };

    /// What each call of this host keeps, whatever it answers: a relation of a state to each later one.
    ghost keeps: { Self → Self → Type 0 };

    /// Keeps what was done, so that a crash leaves it there.
    fn keep(&mut self) -> Result<(), HostFault>
        ensures kept { OnOk result (waits self.new ≡ false) }
        ensures step { steps self.old (Keeps result) self.new };

    /// Puts the files that came on the disk.
    fn keep_files(&mut self) -> Result<(), HostFault>
        ensures kept { OnOk result (files_wait self.new ≡ false) }
        ensures step { steps self.old (KeepsFiles result) self.new };

    /// What the folder says of itself; of the other side it may know the hello already.
    fn hello(&mut self, theirs: Option<&Hello>) -> Result<Hello, HostFault>
        ensures step { steps self.old (Greets (option_copied theirs.entry) result) self.new };

    /// Whether there is nothing to tell this side, as [`nothing_to_tell`](crate::nothing_to_tell) says; or a fault where nothing
    /// may be told to it, as [`standing_of`](crate::standing_of) says.
    fn meet(&mut self, theirs: &Hello) -> Result<bool, HostFault>
        ensures step { steps self.old (Meets theirs.now result) self.new };

    /// A mark of the other side's history, as far as it is told here, and the frame of a request.
    fn ask(&mut self) -> Result<Vec<u8>, HostFault>
        ensures step { steps self.old (Asks result) self.new };

    /// The next message to be sent at this point of the talk, or `None` where there is none: of `Whole`, `Begin`, `Piece` and
    /// `End`, each file before the record that names it, `Missing`, `Records`, `PushOuts`, `Receipts` and `Wants`, those that
    /// [`Turn::next`] has a place for.
    fn next_message(&mut self, turn: Turn) -> Result<Option<Message>, HostFault>
        ensures step { steps self.old (Gives turn result) self.new };

    /// The digest of what is known, if nothing of the other side is waited for, and nothing is to be told to it.
    fn done(&mut self, turn: Turn) -> Result<Option<Short>, HostFault>
        ensures step { steps self.old (Closes turn result) self.new };

    /// Takes the other side's mark of this history, and the frame of a request, which the next messages answer; or a fault where
    /// the history is another one.
    fn take_ask(&mut self, bytes: &[u8]) -> Result<(), HostFault>
        ensures step { steps self.old (Takes (record { kind = kind.Ask; bytes = bytes.now }) result) self.new };

    /// Takes a whole file, which is its bytes; or what one begins with, its digest and length; then its bytes, piece by piece; then its end.
    fn take_file(&mut self, message: &Message) -> Result<(), HostFault>
        ensures step { steps self.old (Takes message.now result) self.new };

    /// Takes the digest of a file that was wanted and that the other side hasn't.
    fn take_missing(&mut self, digest: &[u8]) -> Result<(), HostFault>
        ensures step { steps self.old (Takes (record { kind = kind.Missing; bytes = digest.now }) result) self.new };

    /// Takes packed frames of records. Each file that came before is on the disk.
    fn take_records(&mut self, packed: &[u8]) -> Result<(), HostFault>
        requires { files_wait self.old ≡ false }
        ensures step { steps self.old (Takes (record { kind = kind.Records; bytes = packed.now }) result) self.new };

    /// Takes the digests of files that the other side lacks.
    fn take_wants(&mut self, digests: &[u8]) -> Result<(), HostFault>
        ensures step { steps self.old (Takes (record { kind = kind.Wants; bytes = digests.now }) result) self.new };

    /// Takes items and versions that wait for a receipt at the other side.
    fn take_push_outs(&mut self, versions: &[u8]) -> Result<(), HostFault>
        ensures step { steps self.old (Takes (record { kind = kind.PushOuts; bytes = versions.now }) result) self.new };

    /// Takes frames of receipts.
    fn take_receipts(&mut self, frames: &[u8]) -> Result<(), HostFault>
        ensures step { steps self.old (Takes (record { kind = kind.Receipts; bytes = frames.now }) result) self.new };

    /// Takes the digest of what the other side knows, as it has nothing open any more.
    fn take_done(&mut self, knows: &[u8]) -> Result<(), HostFault>
        ensures step { steps self.old (Takes (record { kind = kind.Done; bytes = knows.now }) result) self.new };

    /// A state keeps what it has.
    ghost keeps_still: { (host : Self) → keeps host host };

    /// What is kept from one state to another, and from that to a third, is kept from the first to the third.
    ghost keeps_on: { (old between new : Self) → keeps old between → keeps between new → keeps old new };

    /// Each call keeps it.
    ghost keeps_step: { (old : Self) (act : Act) (new : Self) → steps old act new → keeps old new };
}
