//! A replica whose host writes its file: what the host sees of it before and after it has done its acts, what it finds where it was
//! killed in one of them, and what it is told once one of them has failed.

use crate::events::message;
use crate::office::{HERE, setup};
use anyhow::{Result, bail};
use mr_entry::Note;
use mr_hosted::{Act, Hosted};
use mr_itemset::SparingKnowledge;
use mr_journal::{Device, DeviceFailed, MemoryDevice};
use mr_kept::KeptFault;
use mr_replica::{Event, Reply};
use std::alloc::Global;

/// A replica whose host writes.
type Tablet = Hosted<SparingKnowledge>;

/// What the tablet writes at a time.
const SUBJECTS: [&str; 2] = ["Agenda", "Coffee"];

/// Begins the tablet's replica in a file that has no byte.
pub(crate) fn run<R: Print + AllocGlobal>(rt: &R) -> Result<()> {
    let alloc = rt.alloc();
    let mut tablet = Tablet::begin(alloc, setup(alloc)?)?;
    let kept = keep(rt, &mut tablet);
    drop(tablet);
    kept
}

/// The tablet keeps what it writes, in a file that has no byte yet.
fn keep<R: Print + AllocGlobal>(rt: &R, tablet: &mut Tablet) -> Result<()> {
    let mut file = MemoryDevice::new(rt.alloc(), Vec::new(rt.alloc()));
    let kept = keep_in(rt, tablet, &mut file);
    drop(file);
    kept
}

/// The tablet keeps what it writes in this file, and each line tells what its host sees.
fn keep_in<R: Print + AllocGlobal>(
    rt: &R,
    tablet: &mut Tablet,
    file: &mut MemoryDevice,
) -> Result<()> {
    let begun = settle(file, tablet)?;
    write(rt.alloc(), tablet)?;
    tell_before(rt, tablet, begun)?;
    tell_killed(rt, file.bytes(), tablet.acts())?;
    let done = settle(file, tablet)?;
    tell_after(rt, tablet, done)?;
    tell_failed(rt, file.bytes())
}

/// Tells what the host sees before it has done the acts of a commit, once it did so many.
fn tell_before<R: Print + AllocGlobal>(rt: &R, tablet: &mut Tablet, begun: usize) -> Result<()> {
    let left = tablet.acts().len();
    let before = seen(rt.alloc(), tablet)?;
    let told = refusal(rt.alloc(), tablet)?;
    println!(rt; "a host did {begun} acts, and has {left} to do: {before}; {told}")?;
    Ok(())
}

/// Tells what is found where the host is killed in one of the acts.
fn tell_killed<R: Print + AllocGlobal>(rt: &R, bytes: &[u8], acts: &[Act]) -> Result<()> {
    let Found { none, both } = kill(rt.alloc(), bytes, acts)?;
    println!(rt; "killed in them: {none} times it found nothing, {both} times all")?;
    Ok(())
}

/// Tells what the host sees once it has done so many acts, which were all.
fn tell_after<R: Print + AllocGlobal>(rt: &R, tablet: &Tablet, done: usize) -> Result<()> {
    let after = seen(rt.alloc(), tablet)?;
    println!(rt; "it did {done} acts: {after}")?;
    Ok(())
}

/// Tells what comes of an act that fails, and what the file has then.
fn tell_failed<R: Print + AllocGlobal>(rt: &R, bytes: &[u8]) -> Result<()> {
    let (held, notes) = found_in(rt.alloc(), bytes)?;
    let failed = fail(rt.alloc(), bytes)?;
    println!(rt; "an act failed: {failed}; its file has {held} and {notes} notes")?;
    Ok(())
}

/// The tablet writes its messages and a note, and has the host keep them.
fn write(alloc: Global, tablet: &mut Tablet) -> Result<()> {
    for subject in SUBJECTS {
        let event = Event::Create(message(alloc, subject, "inbox")?);
        done(asked(tablet.ask(event)))?;
    }
    done(tablet.note(Note::new(1, b"both".to_vec(alloc)?)))?;
    done(tablet.commit())
}

/// What the tablet was asked, without its reply.
fn asked(answer: Result<Option<Reply>, KeptFault>) -> Result<(), KeptFault> {
    let _reply = answer?;
    Ok(())
}

/// What the tablet was asked, once it is done. A refusal is named in a function that owns nothing else.
fn done(answer: Result<(), KeptFault>) -> Result<()> {
    match answer {
        Ok(()) => Ok(()),
        Err(KeptFault::Refused(refusal)) => Err(refusal.into()),
        Err(fault) => Err(fault.into()),
    }
}

/// What the host is shown and handed out.
fn seen(alloc: Global, tablet: &Tablet) -> Result<String> {
    match (tablet.replica(), tablet.replies()) {
        (Some(replica), Some(replies)) => {
            let held = replica.heads().len();
            let issued = issued(alloc, replies)?;
            Ok(format!(in alloc; "it holds {held}, and handed out{issued}")?)
        }
        (None, None) => Ok(String::from_str(alloc, "nothing is shown or handed out")?),
        _ => bail!("one is shown and the other isn't"),
    }
}

/// The versions that were issued.
fn issued(alloc: Global, replies: &[Reply]) -> Result<String> {
    let mut text = String::new(alloc);
    for reply in replies {
        match reply {
            Reply::Issued(version) => write!(text, " {version}")?,
            _ => bail!("nothing was issued"),
        }
    }
    Ok(text)
}

/// Why the tablet doesn't commit.
fn refusal(alloc: Global, tablet: &mut Tablet) -> Result<String> {
    match tablet.commit() {
        Ok(()) => bail!("it commits"),
        Err(KeptFault::Refused(refusal)) => Err(refusal.into()),
        Err(fault) => Ok(format!(in alloc; "{fault}")?),
    }
}

/// The host does an act.
fn act_on(file: &mut MemoryDevice, act: &Act) -> Result<(), DeviceFailed> {
    match act {
        Act::Write { at, bytes } => file.write_at(*at, bytes),
        Act::Cut { len } => file.cut(*len),
        Act::Sync => file.sync(),
    }
}

/// The host does all acts, and says so. It gives how many they were.
fn settle(file: &mut MemoryDevice, tablet: &mut Tablet) -> Result<usize> {
    let acts = tablet.acts();
    let count = acts.len();
    for act in acts {
        act_on(file, act)?;
    }
    tablet.settle();
    Ok(count)
}

/// How many files of a host that was killed had nothing of a batch, and how many all of it.
#[derive(Clone, Copy)]
struct Found {
    none: u32,
    both: u32,
}

impl Found {
    /// Opens such a file.
    fn look(&mut self, alloc: Global, bytes: &[u8]) -> Result<()> {
        match found_in(alloc, bytes)? {
            (0, 0) => self.none = self.none.saturating_add(1),
            (2, 1) => self.both = self.both.saturating_add(1),
            (held, notes) => bail!("found {held} messages and {notes} notes"),
        }
        Ok(())
    }
}

/// What is found where the host was killed before each of the acts, in the middle of each write, and at their end.
fn kill(alloc: Global, bytes: &[u8], acts: &[Act]) -> Result<Found> {
    let mut file = MemoryDevice::new(alloc, bytes.to_vec(alloc)?);
    let found = kill_each(alloc, &mut file, acts);
    drop(file);
    found
}

/// What is found where the host was killed in these acts on a file.
fn kill_each(alloc: Global, file: &mut MemoryDevice, acts: &[Act]) -> Result<Found> {
    let mut found = Found { none: 0, both: 0 };
    found.look(alloc, file.bytes())?;
    for act in acts {
        kill_in(alloc, &mut found, file, act)?;
    }
    Ok(found)
}

/// What is found where the host was killed in the middle of a write, and behind the act.
fn kill_in(alloc: Global, found: &mut Found, file: &mut MemoryDevice, act: &Act) -> Result<()> {
    if let Act::Write { at, bytes } = act {
        look_torn(alloc, found, file, *at, bytes)?;
    }
    act_on(file, act)?;
    found.look(alloc, file.bytes())
}

/// What is found where half of a write was done.
fn look_torn(
    alloc: Global,
    found: &mut Found,
    file: &MemoryDevice,
    at: u64,
    written: &[u8],
) -> Result<()> {
    let torn = torn(alloc, file.bytes(), at, written)?;
    let looked = found.look(alloc, torn.bytes());
    drop(torn);
    looked
}

/// The file with half of a write.
fn torn(alloc: Global, bytes: &[u8], at: u64, written: &[u8]) -> Result<MemoryDevice> {
    let mut file = MemoryDevice::new(alloc, bytes.to_vec(alloc)?);
    file.write_at(at, &written[..written.len() / 2])?;
    Ok(file)
}

/// How many messages and notes a file has, once the host has done what is to be done as it is opened.
fn found_in(alloc: Global, bytes: &[u8]) -> Result<(usize, usize)> {
    let mut opened = Tablet::open(alloc, bytes.to_vec(alloc)?, &HERE, None)?;
    let held = held_by(alloc, bytes, &mut opened.0);
    let notes = opened.1.notes.len();
    drop(opened);
    Ok((held?, notes))
}

/// How many messages a tablet holds that was opened.
fn held_by(alloc: Global, bytes: &[u8], tablet: &mut Tablet) -> Result<usize> {
    settle_opened(alloc, bytes, tablet)?;
    match tablet.replica() {
        Some(replica) => Ok(replica.heads().len()),
        None => bail!("nothing is shown"),
    }
}

/// The host does on such a file what is to be done as it is opened.
fn settle_opened(alloc: Global, bytes: &[u8], tablet: &mut Tablet) -> Result<()> {
    let mut file = MemoryDevice::new(alloc, bytes.to_vec(alloc)?);
    let settled = settle(&mut file, tablet);
    drop(file);
    settled?;
    Ok(())
}

/// Opens the file, and the host fails in an act.
fn fail(alloc: Global, bytes: &[u8]) -> Result<String> {
    let mut opened = Tablet::open(alloc, bytes.to_vec(alloc)?, &HERE, None)?;
    let told = break_off(alloc, bytes, &mut opened.0);
    drop(opened);
    told
}

/// The tablet writes, an act of it fails, and the host goes on as if it hadn't.
fn break_off(alloc: Global, bytes: &[u8], tablet: &mut Tablet) -> Result<String> {
    settle_opened(alloc, bytes, tablet)?;
    write(alloc, tablet)?;
    tablet.fail();
    tablet.settle();
    let seen = seen(alloc, tablet)?;
    let told = refusal(alloc, tablet)?;
    Ok(format!(in alloc; "{seen}; {told}")?)
}
