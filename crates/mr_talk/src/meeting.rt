//! What a side knows of its talk, and what it says and takes for its host.
ghost use Rattle.std.specs.Prelude.{◌≡◌, ◌≢◌, false, None, IfErr, IfOk, OnOk};
ghost use Rattle.mr_talk.specs.declared.kind.Kind.TheVariants.{Fault};
ghost use Rattle.mr_talk.specs.declared.talk_fault.TalkFault.TheVariants.{OutOfPlace};
ghost use Rattle.mr_talk.specs.Talk.{IsFixed};
ghost use Rattle.mr_talk.specs.Turns.{next_of};
ghost use Rattle.mr_talk.specs.inner.Talk.{IsOfHost, IsLast, IsTelling, IsUngiven, IsUnmade, IsUntaken, Suits, speech_kind};
ghost use Rattle.mr_talk.specs.Host.{EndsTurn, Speaks};
ghost use Rattle.mr_talk.specs.inner.Host.{Hands, IsAskedFor, IsEndedFor, IsMet, IsTakenIn, IsVoiced, known_of, speech_message};

use crate::fault::MessageFault;
use crate::hello::{Hello, Short};
use crate::kind::Kind;
use crate::message::Message;
use crate::side::{Host, HostFault};
use crate::talk_fault::TalkFault;
use crate::told_fault::{ToldFault, fault_message};
use crate::turn::Turn;
use std::alloc::Global;

/// What a side knows of its talk.
#[derive(Drop)]
pub(crate) struct Meeting {
    theirs: Option<Hello>,
    is_idle: bool,
    /// Why the host can't go on. The other side is told as soon as this one may speak.
    broken: Option<HostFault>,
}

impl Meeting {
    /// Nothing has been said.
    pub(crate) fn new() -> Meeting
        ensures { result ≡ record { theirs = None; is_idle = false; broken = None } }
    {
        Meeting {
            theirs: None,
            is_idle: false,
            broken: None,
        }
    }

    /// What this side says next: what its host has to say, or why that one can't go on. `OutOfPlace` where the host gives a fault
    /// as a message.
    pub(crate) fn next_message<H: Host>(
        &mut self,
        alloc: Global,
        host: &mut H,
        turn: Turn,
    ) -> Result<Message, TalkFault>
        ensures broken { IfOk result (λ m. m.kind ≡ Fault → self.new.broken ≢ None) }
        ensures place { IfOk result (λ m. IsFixed turn → next_of turn m.kind ≢ None) }
        ensures fault { IfErr result (IsUngiven turn) }
        ensures voiced { IsVoiced H.steps self.old turn result self.new host.old host.new }
    {
        if let Some(fault) = &self.broken {
            return Ok(fault_message(alloc, fault)?);
        }
        match self.next_speech(host, turn) {
            Ok(speech) => speech.into_message(alloc),
            Err(fault) => {
                let message = fault_message(alloc, &fault);
                self.broken = Some(fault);
                Ok(message?)
            }
        }
    }

    fn next_speech<H: Host>(&self, host: &mut H, turn: Turn) -> Result<Speech, HostFault>
        ensures suits { IfOk result (Suits turn) }
        ensures asked { IsAskedFor H.steps (λ s acts. Speaks (known_of self.now) turn (speech_message s) acts) host.old result host.new }
    {
        match turn {
            Turn::CallerGreets => Ok(Speech::Hello(host.hello(self.theirs.as_ref())?)),
            Turn::CalledGreets => {
                let hello = host.hello(self.theirs.as_ref())?;
                if self.is_idle {
                    Ok(Speech::Idle(hello))
                } else {
                    Ok(Speech::Hello(hello))
                }
            }
            Turn::CalledAsks | Turn::CallerAsks => Ok(Speech::Ask(host.ask()?)),
            Turn::CalledPasses => Ok(Speech::Turn),
            _ => match host.next_message(turn)? {
                Some(message) => Ok(Speech::Given(message)),
                None => last_speech(host, turn),
            },
        }
    }

    /// Takes what the other side said. A fault ends the talk. Once the host can't go on, nothing else is taken.
    pub(crate) fn take<H: Host>(&mut self, host: &mut H, message: Message) -> Result<(), TalkFault>
        ensures taken { OnOk result (message.kind ≢ Fault) }
        ensures fault { IfErr result (IsUntaken message) }
        ensures taken_in { IsTakenIn H.steps self.old message result self.new host.old host.new }
    {
        match message.kind() {
            Kind::Fault => return Err(self.told(message.into_bytes())),
            _ if self.broken.is_some() => {}
            Kind::Hello | Kind::Idle => {
                let theirs = Hello::read(message.bytes())?;
                self.theirs = Some(theirs);
                self.meet(host, &theirs);
            }
            _ => self.broken = hand_over(host, &message).err(),
        }
        Ok(())
    }

    /// Why the talk ended where the other side has told a fault: its own host's comes first.
    fn told(&mut self, bytes: Vec<u8>) -> TalkFault
        ensures { IsTelling self.old bytes.items result }
    {
        match self.broken.take() {
            Some(fault) => TalkFault::Host(fault),
            None => TalkFault::Told(ToldFault::new(bytes)),
        }
    }

    fn meet<H: Host>(&mut self, host: &mut H, theirs: &Hello)
        ensures { IsMet H.steps self.old theirs.now self.new host.old host.new }
    {
        match host.meet(theirs) {
            Ok(is_idle) => self.is_idle = is_idle,
            Err(fault) => self.broken = Some(fault),
        }
    }

    /// How a talk ended in which nobody may send any more. Where the host took all of it, what that one did is kept.
    pub(crate) fn end<H: Host>(self, host: &mut H) -> Result<(), TalkFault>
        ensures whole { OnOk result (self.broken ≡ None) }
        ensures kept { OnOk result (H.waits host.new ≡ false) }
        ensures fault { IfErr result IsOfHost }
        ensures ended { IsEndedFor H.steps self result host.old host.new }
    {
        match self.broken {
            Some(fault) => Err(TalkFault::Host(fault)),
            None => {
                host.keep()?;
                Ok(())
            }
        }
    }
}

/// What a side says.
#[derive(Drop)]
enum Speech {
    Hello(Hello),
    /// Its hello, and that there is nothing to tell.
    Idle(Hello),
    Ask(Vec<u8>),
    Given(Message),
    Turn,
    Done(Short),
}

impl Speech {
    /// The message that says it.
    fn into_message(self, alloc: Global) -> Result<Message, TalkFault>
        ensures says { IfOk result (λ m. m ≡ speech_message self) }
        ensures kind { IfOk result (λ m. m.kind ≡ speech_kind self) }
        ensures own { IfOk result (λ m. m.kind ≢ Fault) }
        ensures fault { IfErr result (IsUnmade self) }
    {
        let (kind, bytes) = match self {
            Speech::Hello(hello) => (Kind::Hello, hello.write(alloc)?),
            Speech::Idle(hello) => (Kind::Idle, hello.write(alloc)?),
            Speech::Ask(bytes) => (Kind::Ask, bytes),
            Speech::Given(message) => return given(message),
            Speech::Turn => (Kind::Turn, Vec::new(alloc)),
            Speech::Done(knows) => (Kind::Done, knows.as_slice().to_vec(alloc)?),
        };
        Ok(Message::new(kind, bytes)?)
    }
}

/// What the host gives, unless it is a fault: its own it answers, and doesn't give as a message.
fn given(message: Message) -> Result<Message, TalkFault>
    ensures same { IfOk result (λ m. m ≡ message) }
    ensures own { IfOk result (λ m. m.kind ≢ Fault) }
    ensures fault { IfErr result (λ fault. (fault ≡ OutOfPlace) × (message.kind ≡ Fault)) }
{
    if message.kind() == Kind::Fault {
        return Err(TalkFault::OutOfPlace);
    }
    Ok(message)
}

/// The end of a turn: `Done` where the host has nothing open. In the third turn nobody knows that yet.
fn last_speech<H: Host>(host: &mut H, turn: Turn) -> Result<Speech, HostFault>
    ensures last { IfOk result IsLast }
    ensures asked { IsAskedFor H.steps (λ s acts. EndsTurn turn (speech_message s) acts) host.old result host.new }
{
    if turn == Turn::CallerTells {
        return Ok(Speech::Turn);
    }
    match host.done(turn)? {
        Some(knows) => Ok(Speech::Done(knows)),
        None => Ok(Speech::Turn),
    }
}

/// What the host takes of the other side. The files that came are on the disk before a record is taken.
fn hand_over<H: Host>(host: &mut H, message: &Message) -> Result<(), HostFault>
    ensures { IsAskedFor H.steps (λ _ acts. Hands message.now.kind message.now acts) host.old result host.new }
{
    let bytes = message.bytes();
    match message.kind() {
        Kind::Ask => host.take_ask(bytes),
        Kind::Whole | Kind::Begin | Kind::Piece | Kind::End => host.take_file(message),
        Kind::Missing => host.take_missing(bytes),
        Kind::Records => {
            host.keep_files()?;
            host.take_records(bytes)
        }
        Kind::Wants => host.take_wants(bytes),
        Kind::PushOuts => host.take_push_outs(bytes),
        Kind::Receipts => host.take_receipts(bytes),
        Kind::Done => host.take_done(bytes),
        Kind::Hello | Kind::Idle | Kind::Turn | Kind::Fault => Ok(()),
    }
}
