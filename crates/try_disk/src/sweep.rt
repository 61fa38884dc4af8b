//! Lines that do other lines many times, each time on the disk as it is when the sweep begins.
//!
//! ```text
//! stops D; LINE; LINE..     the disk fails after no step, after one, and so on, until it fails in none of these lines
//! fills D; LINE; LINE..     it has room for no further byte, for one, and so on
//! cuts D [FROM TO]; LINE    it has so many bytes left, from the first number up to the second; else all that are less than it has
//! flips D BITS [FROM TO]; LINE     the byte at each of these places is changed by these bits
//! ```
//!
//! Behind the lines of `stops` and `fills` comes a crash, and the first of them is done on what it leaves: once for each way in which
//! it may. What is told is how often each answer came of that line.
use crate::disk::{CRASHES, Crash, Disk, Limits, NO_LIMITS};
use crate::disks::{flip, put_bytes};
use crate::keeper::{Keeper, Taker};
use crate::scene::{Scene, do_line};
use crate::slot::{bytes_in, slot_of, take_disk};
use crate::tally::Tally;
use crate::words::{next_byte, next_number_or, next_word, split_word, words_of};
use anyhow::{Context, Result};
use std::alloc::{AllocError, Global};
use std::fs::File;
use std::rt::Files;
use std::str::SplitWhitespace;

/// More than a disk in a sweep fails at.
const MANY: u64 = 100_000;

/// What is done again and again: the disk by its name, its bytes, the line whose answers are told, and the others.
#[derive(Clone, Copy)]
struct Sweep<'a> {
    name: &'a str,
    bytes: &'a [u8],
    first: &'a str,
    others: &'a str,
}

/// Does a line that does others, on a scene of its own. `None` for another line.
pub fn many_times<J: Keeper, P: Taker, R: Files<File = File> + AllocGlobal>(
    rt: &R,
    scene: &mut Scene<J, P>,
    scratch: &mut Scene<J, P>,
    line: &str,
) -> Option<Result<String>> {
    let (head, lines) = line.split_once(';')?;
    let (word, rest) = split_word(head);
    match word {
        "stops" | "fills" | "cuts" | "flips" => Some(swept(rt, scene, scratch, word, rest, lines)),
        _ => None,
    }
}

/// Does the lines again and again.
fn swept<J: Keeper, P: Taker, R: Files<File = File> + AllocGlobal>(
    rt: &R,
    scene: &mut Scene<J, P>,
    scratch: &mut Scene<J, P>,
    word: &str,
    rest: &str,
    lines: &str,
) -> Result<String> {
    let mut words = words_of(rest);
    let name = next_word(&mut words);
    let bytes = bytes_in(rt.alloc(), slot_of(&mut scene.slots, name)?)?;
    let (first, others) = lines.split_once(';').unwrap_or((lines, ""));
    let sweep = Sweep {
        name,
        bytes: &bytes,
        first: first.trim(),
        others,
    };
    match word {
        "stops" => sweep.fail_each(rt, scratch, false),
        "fills" => sweep.fail_each(rt, scratch, true),
        "cuts" => sweep.cut_each(rt, scratch, &mut words),
        _ => sweep.flip_each(rt, scratch, &mut words),
    }
}

impl Sweep<'_> {
    /// Lets the disk fail after each number of steps, or with room for each number of bytes.
    fn fail_each<J: Keeper, P: Taker, R: Files<File = File> + AllocGlobal>(
        &self,
        rt: &R,
        scratch: &mut Scene<J, P>,
        is_full: bool,
    ) -> Result<String> {
        let mut tally = Tally::new(rt.alloc());
        let fails = self.count_fails(rt, scratch, is_full, &mut tally)?;
        let mut text = format!(in rt.alloc(); "fails {fails} times, and then not\n")?;
        push_crashes(&mut text, &tally)?;
        Ok(text)
    }

    /// How often the disk fails, until it doesn't.
    fn count_fails<J: Keeper, P: Taker, R: Files<File = File> + AllocGlobal>(
        &self,
        rt: &R,
        scratch: &mut Scene<J, P>,
        is_full: bool,
        tally: &mut Tally,
    ) -> Result<u64> {
        let mut fails = 0u64;
        for number in 0..MANY {
            if !self.fails(rt, scratch, self.limits(is_full, number), tally)? {
                break;
            }
            fails = fails.saturating_add(1);
        }
        Ok(fails)
    }

    /// The limits of a disk that fails after so many steps, or that has room for so many bytes behind its own.
    fn limits(&self, is_full: bool, number: u64) -> Limits {
        if is_full {
            Limits::at(number.saturating_add(self.bytes.len() as u64))
        } else {
            Limits::after(number)
        }
    }

    /// Does the lines on a disk with these limits, and then the first one on what each way to crash leaves of it. Tells whether the
    /// disk failed.
    fn fails<J: Keeper, P: Taker, R: Files<File = File> + AllocGlobal>(
        &self,
        rt: &R,
        scratch: &mut Scene<J, P>,
        limits: Limits,
        tally: &mut Tally,
    ) -> Result<bool> {
        self.do_all(rt, scratch, limits)?;
        let disk = take_disk(slot_of(&mut scratch.slots, self.name)?).context("the disk is gone")?;
        let counted = self.count_each(rt, scratch, &disk, tally);
        let has_failed = disk.calls().failed > 0;
        drop(disk);
        counted?;
        Ok(has_failed)
    }

    /// Counts what the first line answers on what each way to crash leaves of the disk.
    fn count_each<J: Keeper, P: Taker, R: Files<File = File> + AllocGlobal>(
        &self,
        rt: &R,
        scratch: &mut Scene<J, P>,
        disk: &Disk,
        tally: &mut Tally,
    ) -> Result<()> {
        for crash in CRASHES {
            self.count(rt, scratch, disk, crash, tally)?;
        }
        Ok(())
    }

    /// Counts what the first line answers on what this crash leaves of the disk.
    fn count<J: Keeper, P: Taker, R: Files<File = File> + AllocGlobal>(
        &self,
        rt: &R,
        scratch: &mut Scene<J, P>,
        disk: &Disk,
        crash: Crash,
        tally: &mut Tally,
    ) -> Result<()> {
        let left = disk.left_by(crash)?;
        let answer = self.answer(rt, scratch, &left)?;
        tally.count(Some(crash), answer)?;
        Ok(())
    }

    /// Does the lines on a disk with these limits: those behind the first where that opened something.
    fn do_all<J: Keeper, P: Taker, R: Files<File = File> + AllocGlobal>(
        &self,
        rt: &R,
        scratch: &mut Scene<J, P>,
        limits: Limits,
    ) -> Result<()> {
        self.put(rt, scratch, self.bytes, limits)?;
        let _ = do_line(rt, scratch, self.first)?;
        if slot_of(&mut scratch.slots, self.name)?.disk.is_some() {
            return Ok(());
        }
        for line in self.others.split(';') {
            let line = line.trim();
            if !line.is_empty() {
                let _ = do_line(rt, scratch, line)?;
            }
        }
        Ok(())
    }

    /// What the first line answers on a disk of these bytes.
    fn answer<J: Keeper, P: Taker, R: Files<File = File> + AllocGlobal>(
        &self,
        rt: &R,
        scratch: &mut Scene<J, P>,
        bytes: &[u8],
    ) -> Result<String> {
        self.put(rt, scratch, bytes, NO_LIMITS)?;
        do_line(rt, scratch, self.first)
    }

    /// A disk of these bytes stands there, and no letter is left.
    fn put<J: Keeper, P: Taker, R: AllocGlobal>(
        &self,
        rt: &R,
        scratch: &mut Scene<J, P>,
        bytes: &[u8],
        limits: Limits,
    ) -> Result<()> {
        scratch.letters.clear();
        put_bytes(rt.alloc(), &mut scratch.slots, self.name, bytes, limits)
    }

    /// Cuts the disk to each length.
    fn cut_each<J: Keeper, P: Taker, R: Files<File = File> + AllocGlobal>(
        &self,
        rt: &R,
        scratch: &mut Scene<J, P>,
        words: &mut SplitWhitespace<'_>,
    ) -> Result<String> {
        let (from, to) = next_places(words, self.bytes.len())?;
        let mut tally = Tally::new(rt.alloc());
        for len in from..to {
            let bytes = self.bytes.get(..len).context("the disk is shorter")?;
            tally.count(None, self.answer(rt, scratch, bytes)?)?;
        }
        told(rt.alloc(), &tally)
    }

    /// Changes each byte by these bits.
    fn flip_each<J: Keeper, P: Taker, R: Files<File = File> + AllocGlobal>(
        &self,
        rt: &R,
        scratch: &mut Scene<J, P>,
        words: &mut SplitWhitespace<'_>,
    ) -> Result<String> {
        let bits = next_byte(words)?;
        let (from, to) = next_places(words, self.bytes.len())?;
        let mut tally = Tally::new(rt.alloc());
        for place in from..to {
            let mut bytes = self.bytes.to_vec(rt.alloc())?;
            flip(&mut bytes, place, bits)?;
            tally.count(None, self.answer(rt, scratch, &bytes)?)?;
        }
        told(rt.alloc(), &tally)
    }
}

/// The places that the words tell: from one number up to another, or all of so many.
fn next_places(words: &mut SplitWhitespace<'_>, all: usize) -> Result<(usize, usize)> {
    let from = next_number_or(words, 0)?;
    let to = next_number_or(words, all as u64)?;
    Ok((usize::try_from(from)?, usize::try_from(to)?))
}

/// Adds a line for each outcome behind each way to crash.
fn push_crashes(text: &mut String, tally: &Tally) -> Result<(), AllocError> {
    for crash in CRASHES {
        tally.push_lines(text, Some(crash))?;
    }
    Ok(())
}

/// A line for each outcome behind no crash.
fn told(alloc: Global, tally: &Tally) -> Result<String> {
    let mut text = String::new(alloc);
    tally.push_lines(&mut text, None)?;
    Ok(text)
}
