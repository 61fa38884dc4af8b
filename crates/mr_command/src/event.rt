//! Lines that let an event happen.
ghost use Rattle.mr_command.specs.Event.{reads_create, reads_edit, reads_part};

use crate::Read;
use crate::lists::read_bases;
use crate::message::MessageWords;
use crate::named::{read_frame, read_replica};
use crate::number::read_number;
use crate::pool::Pool;
use crate::roster::Roster;
use crate::words::Words;
use mr_world::{Act, Event};
use std::alloc::Global;

/// `R LABELS FLAGS DATE FROM SUBJECT`
pub(crate) fn read_create<R: Roster>(alloc: Global, mut words: Words, roster: &R) -> Read<Event>
    ensures { reads_create (R.scene roster.now) words.entry result }
{
    let replica = words.next_word()?;
    let message = MessageWords::take(words)?;
    let id = read_replica(replica, roster)?;
    let message = message.read(alloc)?;
    Ok(Act::Create(message).by(id))
}

/// `R BASES LABELS FLAGS DATE FROM SUBJECT`
pub(crate) fn read_edit<R: Roster>(alloc: Global, mut words: Words, roster: &R) -> Read<Event>
    ensures { reads_edit (R.scene roster.now) words.entry result }
{
    let replica = words.next_word()?;
    let bases = words.next_word()?;
    let message = MessageWords::take(words)?;
    let id = read_replica(replica, roster)?;
    let bases = read_bases(alloc, bases)?;
    let message = message.read(alloc)?;
    Ok(Act::Edit(bases, message).by(id))
}

/// `R Pn BYTES`
pub(crate) fn read_part<R: Roster>(words: Words, roster: &R) -> Read<Event>
    ensures { reads_part (R.scene roster.now) words.entry result }
{
    let (replica, record, bytes) = words.three()?;
    let id = read_replica(replica, roster)?;
    let number = read_frame(Pool::Records, record, roster)?;
    let bytes = read_number(bytes)?;
    Ok(Act::DeliverPart(number, bytes).by(id))
}
