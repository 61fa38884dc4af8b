//! The messages that are held, by their versions.
ghost use Rattle.std.specs.Prelude.{◌≡◌};
ghost use Rattle.mr_desk.specs.Device.{lent};
ghost use Rattle.mr_c.specs.Given.{IsFilled, IsGiven, read_in};
ghost use Rattle.mr_c.specs.Shown.{card_at, card_in, label_at, label_in, message_of, part_at, part_in, part_of};

use crate::failure::Failure;
use crate::given::{at_place, fill_found, give, replica_of};
use crate::handle::{Handle, read};
use mr_desk::{Device, VersionNumbers};
use mr_itemset::SparingKnowledge;
use mr_mail::Message;
use mr_replica::Replica;
use std::alloc::Global;

/// How many labels a message has, its flags and its day.
#[repr(C)]
#[derive(Clone, Copy)]
pub struct Card {
    labels: usize,
    flags: u32,
    day: u32,
}

/// The message of a held version.
fn message_of(
    replica: &Replica<SparingKnowledge>,
    version: VersionNumbers,
) -> Result<&Message, Failure>
    ensures { lent result ≡ message_of replica.now version }
{
    let version = version.version()?;
    match replica.held(version) {
        Some(revision) => Ok(revision.message()),
        None => Err(Failure::NotThere),
    }
}

fn part_of(message: &Message, part: u32) -> Result<&[u8], Failure>
    ensures { lent result ≡ part_of part message.now }
{
    match part {
        0 => Ok(message.from().as_bytes()),
        1 => Ok(message.subject().as_bytes()),
        2 => Ok(message.body()),
        _ => Err(Failure::NotThere),
    }
}

fn part_in(device: &Device, version: VersionNumbers, part: u32) -> Result<&[u8], Failure>
    ensures { lent result ≡ read_in (λ s. part_in s version part) device.now }
{
    part_of(message_of(replica_of(device)?, version)?, part)
}

/// A part of a held message: its sender, 0, its subject, 1, or its body, 2.
///
/// After `Closed`, `Unsettled` or `Failed` of a kept device; then why the numbers are no version's; then `NotThere` where it isn't held, or for another part; then `TooSmall`
/// where the buffer is shorter than the length that is told. It costs a search, and the bytes.
#[unsafe(no_mangle)]
pub extern "C" fn mr_part(
    alloc: Global,
    handle: &mut Handle,
    version: VersionNumbers,
    part: u32,
    to: &mut [u8],
    len: &mut usize,
) -> i32
    ensures unchanged { handle.new.device ≡ handle.old.device }
    ensures given { IsFilled (part_at handle.old.device version part) to.old to.new len.old len.new result }
{
    read!(
        alloc,
        handle,
        Failure::Closed.code(),
        |device| fill_found(&part_in(&device, version, part), to, len)
    )
}

fn label_in(device: &Device, version: VersionNumbers, place: usize) -> Result<&[u8], Failure>
    ensures { lent result ≡ read_in (λ s. label_in s version place) device.now }
{
    let message = message_of(replica_of(device)?, version)?;
    Ok(at_place(message.labels(), place)?.as_str().as_bytes())
}

/// A label of a held message, by its place in rising order. The failures are those of a part; `NotThere` past the last.
#[unsafe(no_mangle)]
pub extern "C" fn mr_label(
    alloc: Global,
    handle: &mut Handle,
    version: VersionNumbers,
    place: usize,
    to: &mut [u8],
    len: &mut usize,
) -> i32
    ensures unchanged { handle.new.device ≡ handle.old.device }
    ensures given { IsFilled (label_at handle.old.device version place) to.old to.new len.old len.new result }
{
    read!(
        alloc,
        handle,
        Failure::Closed.code(),
        |device| fill_found(&label_in(&device, version, place), to, len)
    )
}

fn card_in(device: &Device, version: VersionNumbers) -> Result<Card, Failure>
    ensures { result ≡ read_in (λ s. card_in s version) device.now }
{
    let message = message_of(replica_of(device)?, version)?;
    Ok(Card {
        labels: message.labels().len(),
        flags: u32::from(message.flags().bits()),
        day: u32::from(message.day().days()),
    })
}

/// How many labels a held message has, its flags and its day. The failures are those of a part. It costs a search.
#[unsafe(no_mangle)]
pub extern "C" fn mr_card(
    alloc: Global,
    handle: &mut Handle,
    version: VersionNumbers,
    card: &mut Card,
) -> i32
    ensures unchanged { handle.new.device ≡ handle.old.device }
    ensures given { IsGiven (card_at handle.old.device version) card.old card.new result }
{
    let found = read!(alloc, handle, |device| card_in(&device, version));
    give(found, card)
}
