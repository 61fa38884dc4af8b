//! Two devices in one program: what to copy first.
//!
//! An office store keeps all mail, a phone the inbox, each in a file. They meet, and find out whether they may sync. The office
//! writes, the phone asks and is told, a connection breaks and its exchange is taken up again. Both edit one message, and the phone
//! makes one of the two. The office is closed and opened again, and an old copy of it is found out. The phone's inbox follows its
//! feed. At last the phone files its mail away, hands it over and retires. All records between the two go as bytes.
//!
//! `device` has what a replica is asked to do, and `place` what its file is begun with; `hello` what two devices tell each other
//! first, `wire` how frames come out of bytes, `exchange` the order of the calls of a sync, `conflict` how two heads become one,
//! `retirement` the order of the calls of a retirement, `screen` what the user sees, and `bell` when a device rings.
//! What the program prints, the file `stdout`, was worked out by hand from the rules.
//!
//! ```text
//! cd crates/mr_embed
//! rt try      # runs it, and proves nothing
//! rt run      # proves and builds it, and then runs it
//! ```
//!
//! For a program of your own copy the folder to `crates/NAME`, write a line for it in `crates.txt`, as that of
//! `mr_embed`, and change `src/`; `rt new crates/NAME start_io` makes an empty one. `stdout` is what it has to print.
#![tactic(auto)]

mod bell;
mod conflict;
mod device;
mod exchange;
mod fault;
mod hello;
mod laws;
mod mail;
mod place;
mod retirement;
mod screen;
mod teller;
mod wire;

use conflict::merge;
use device::Device;
use exchange::Exchange;
use fault::Fault;
use hello::greet;
use laws::cite_laws;
use mail::Draft;
use mr_replica::alike_are_one;
use mr_version::{ItemId, Version};
use retirement::{hand_over, tell_whether_it_retires};
use screen::Screen;
use std::alloc::Global;
use std::fs::{self, File};
use std::process::ExitCode;
use std::rt::Files;
use teller::{
    tell_break, tell_edit, tell_exchange, tell_greeting, tell_heads, tell_screen, tell_stranger,
    write,
};

/// The files of the story, in the folder that it runs in.
const OFFICE: &str = "office.journal";

const PHONE: &str = "phone.journal";

const OLD_OFFICE: &str = "old-office.journal";

/// What the first message of the story says.
const LUNCH: &str = "Lunch on Friday?";

/// After how many bytes of a batch the connection breaks: within its third record.
const BREAK: usize = 170;

fn main(rt: HostRuntime) -> ExitCode {
    remove_files(&rt);
    let told = story(&rt);
    remove_files(&rt);
    match told {
        Ok(()) => ExitCode::SUCCESS,
        Err(fault) => {
            // a fault that can't be told is lost
            let _ = eprintln!(rt; "{fault}");
            ExitCode::FAILURE
        }
    }
}

/// Removes what an earlier run left.
fn remove_files<R: Files<File = File>>(rt: &R) {
    for name in [OFFICE, PHONE, OLD_OFFICE] {
        // there may be none
        let _ = fs::remove_file(rt, name);
    }
}

/// The whole story. It begins the phone, and the functions below its inbox and the office: one value that owns
/// much in each, which lends it, and drops it by a call. The proof of a function grows with the places where such a value
/// goes out of scope, and by much less where it is handed to `drop`.
fn story<R: Files<File = File> + Print + AllocGlobal>(rt: &R) -> Result<(), Fault> {
    let mut phone = Device::begin(rt, PHONE, 1, "label:inbox")?;
    let told = with_screen(rt, &mut phone);
    drop(phone);
    told
}

/// The story from where the phone is there.
fn with_screen<R: Files<File = File> + Print + AllocGlobal>(
    rt: &R,
    phone: &mut Device,
) -> Result<(), Fault> {
    cite_laws();
    let mut screen = Screen::new(rt.alloc())?;
    let told = all_days(rt, phone, &mut screen);
    drop(screen);
    told
}

/// The first day, the second, and a third on which the office is an old copy.
fn all_days<R: Files<File = File> + Print + AllocGlobal>(
    rt: &R,
    phone: &mut Device,
    screen: &mut Screen,
) -> Result<(), Fault> {
    begin_office(rt, phone, screen)?;
    go_on_with_office(rt, phone, screen)?;
    meet_old_copy(rt, phone)
}

/// The office is begun, and the first day goes by. Then its program ends.
fn begin_office<R: Files<File = File> + Print + AllocGlobal>(
    rt: &R,
    phone: &mut Device,
    screen: &mut Screen,
) -> Result<(), Fault> {
    let mut office = Device::begin(rt, OFFICE, 0, "all")?;
    let told = first_day(rt, &mut office, phone, screen);
    drop(office);
    told
}

/// The first day, scene by scene.
fn first_day<R: Files<File = File> + Print + AllocGlobal>(
    rt: &R,
    office: &mut Device,
    phone: &mut Device,
    screen: &mut Screen,
) -> Result<(), Fault> {
    let lunch = first_mail(rt, office)?;
    copy_file(rt, OFFICE, OLD_OFFICE)?;
    meet(rt, office, phone)?;
    bring_to_phone(rt, phone, office, screen)?;
    break_off(rt, phone, office, screen)?;
    bring_to_phone(rt, phone, office, screen)?;
    edit_both(rt, office, phone, lunch)?;
    bring_to_office(rt, office, phone)?;
    bring_to_phone(rt, phone, office, screen)?;
    merge_on_phone(rt, phone, lunch)
}

/// The office is opened again, and the second day goes by.
fn go_on_with_office<R: Files<File = File> + Print + AllocGlobal>(
    rt: &R,
    phone: &mut Device,
    screen: &mut Screen,
) -> Result<(), Fault> {
    let mut office = Device::open(rt, OFFICE)?;
    let told = second_day(rt, &mut office, phone, screen);
    drop(office);
    told
}

/// The second day, scene by scene.
fn second_day<R: Files<File = File> + Print + AllocGlobal>(
    rt: &R,
    office: &mut Device,
    phone: &mut Device,
    screen: &mut Screen,
) -> Result<(), Fault> {
    tell_heads(rt, "office, opened again", office)?;
    compare_with_its_log(rt.alloc(), office)?;
    meet(rt, office, phone)?;
    bring_to_office(rt, office, phone)?;
    retire_phone(rt, office, phone, screen)
}

/// The first mail comes to the office. The phone will want two of the three, and this gives the first of them.
fn first_mail<R: Print>(rt: &R, office: &mut Device) -> Result<Version, Fault> {
    write(rt, office, &Draft::unseen("Minutes", "work"))?;
    let lunch = write(rt, office, &Draft::unseen(LUNCH, "inbox"))?;
    write(rt, office, &Draft::unseen("Invoice 17", "inbox"))?;
    Ok(lunch)
}

/// The devices meet, before anything is sent.
fn meet<R: Print + AllocGlobal>(
    rt: &R,
    office: &mut Device,
    phone: &mut Device,
) -> Result<(), Fault> {
    let is_same = greet(rt.alloc(), office, phone)?;
    tell_greeting(rt, is_same)
}

/// The phone is brought up to date, and then its inbox.
fn bring_to_phone<R: Print + AllocGlobal>(
    rt: &R,
    phone: &mut Device,
    office: &mut Device,
    screen: &mut Screen,
) -> Result<(), Fault> {
    let exchange = Exchange::begin(rt.alloc(), phone, office)?;
    let records = exchange.finish(phone, office)?;
    tell_exchange(rt, "phone", records)?;
    tell_screen(rt, screen, phone)
}

/// New mail comes, and the connection breaks while the phone is told of it.
fn break_off<R: Print + AllocGlobal>(
    rt: &R,
    phone: &mut Device,
    office: &mut Device,
    screen: &mut Screen,
) -> Result<(), Fault> {
    write(rt, office, &Draft::unseen("Train at 8:40", "inbox"))?;
    write(rt, office, &Draft::unseen("Keys", "inbox"))?;
    let records = half_an_exchange(rt.alloc(), phone, office)?;
    tell_break(rt, records)?;
    tell_screen(rt, screen, phone)
}

/// The first records of a stream go over, and a part of the next.
fn half_an_exchange(alloc: Global, phone: &mut Device, office: &mut Device) -> Result<u32, Fault> {
    let exchange = Exchange::begin(alloc, phone, office)?;
    exchange.break_off_after(BREAK, phone, office)
}

/// The user reads the message on the phone, offline, and flags it in the office.
fn edit_both<R: Print + AllocGlobal>(
    rt: &R,
    office: &mut Device,
    phone: &mut Device,
    lunch: Version,
) -> Result<(), Fault> {
    edit(
        rt,
        "phone",
        phone,
        lunch,
        &Draft::unseen(LUNCH, "inbox").seen(),
    )?;
    edit(
        rt,
        "office",
        office,
        lunch,
        &Draft::unseen(LUNCH, "inbox").flagged(),
    )?;
    Ok(())
}

/// A device puts a new version in the place of one.
fn edit<R: Print + AllocGlobal>(
    rt: &R,
    who: &str,
    device: &mut Device,
    base: Version,
    draft: &Draft<'_>,
) -> Result<Version, Fault> {
    let message = draft.message(rt.alloc())?;
    let version = device.edit(vec![in rt.alloc(); base]?, message)?;
    tell_edit(rt, who, &[base], version)?;
    Ok(version)
}

/// The phone has both edits now, and makes one of them: seen and flagged.
fn merge_on_phone<R: Print + AllocGlobal>(
    rt: &R,
    phone: &mut Device,
    lunch: Version,
) -> Result<(), Fault> {
    let (version, bases) = merge(rt.alloc(), phone, ItemId::new(lunch))?;
    tell_edit(rt, "phone", &bases, version)
}

/// The office is brought up to date.
fn bring_to_office<R: Print + AllocGlobal>(
    rt: &R,
    office: &mut Device,
    phone: &mut Device,
) -> Result<(), Fault> {
    let exchange = Exchange::begin(rt.alloc(), office, phone)?;
    let records = exchange.finish(office, phone)?;
    tell_exchange(rt, "office", records)?;
    tell_heads(rt, "office", office)
}

/// A replica is its log, replayed: two that have one log, with one id, filter and limit, are one, and answer alike from there on.
fn compare_with_its_log(alloc: Global, office: &Device) -> Result<(), Fault> {
    let copy = office.replica().copy()?;
    alike_are_one(&copy, office.replica());
    drop(copy);
    Ok(())
}

/// The user files the message away, and the phone is given back. Its filter no longer selects the message, so it
/// keeps it for the office, and can't retire until the office has it.
fn retire_phone<R: Print + AllocGlobal>(
    rt: &R,
    office: &mut Device,
    phone: &mut Device,
    screen: &mut Screen,
) -> Result<(), Fault> {
    let filed = file_away(rt, phone)?;
    tell_screen(rt, screen, phone)?;
    tell_whether_it_retires(rt, phone)?;
    bring_to_office(rt, office, phone)?;
    hand_over(rt.alloc(), office, phone, filed)?;
    tell_whether_it_retires(rt, phone)
}

/// The phone puts the merged message, its own last version, into the archive.
fn file_away<R: Print + AllocGlobal>(rt: &R, phone: &mut Device) -> Result<Version, Fault> {
    let merged = Version::try_new(phone.replica().id(), 2)?;
    let draft = Draft::unseen(LUNCH, "inbox").seen().flagged();
    edit(rt, "phone", phone, merged, &draft.filed("archive"))
}

/// Somebody puts the office's file back as it was on its first day, as from a backup. The phone knows more of the office than this
/// one issued, so nothing may be sent or taken: it would give one version to two messages.
fn meet_old_copy<R: Files<File = File> + Print + AllocGlobal>(
    rt: &R,
    phone: &mut Device,
) -> Result<(), Fault> {
    copy_file(rt, OLD_OFFICE, OFFICE)?;
    let mut office = Device::open(rt, OFFICE)?;
    let met = greet(rt.alloc(), &mut office, phone);
    drop(office);
    match met {
        Ok(_) => Err(Fault::OtherReply),
        Err(fault) => tell_stranger(rt, "office, restored", fault),
    }
}

/// Copies a file over another one, or to a new one.
fn copy_file<R: Files<File = File>>(rt: &R, from: &str, to: &str) -> Result<(), Fault> {
    match fs::copy(rt, from, to) {
        Ok(_) => Ok(()),
        Err(_) => Err(Fault::Copy),
    }
}
