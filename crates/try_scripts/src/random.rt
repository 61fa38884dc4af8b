//! Random calls: two forms of one thing that have to answer alike, and hostile input, which is bytes, streams and frames that
//! nobody should send, and what comes of them.
//!
//! The seed gives all numbers of the hostile input, so that each run with the same words is the same. Where something is not as it has to be
//! the program says what, with the bytes, and ends with status 1. Otherwise it prints a line for each thing that it
//! tried, and how often each fault and refusal was met, by its number: a run that meets too few has shown little.
mod bytes;
mod cast;
mod facts;
mod frames;
mod numbers;
mod places;
mod steps;
mod story;
mod streams;
mod tally;
mod tell;
mod twins;

use anyhow::{Result, bail};
use cast::{Device, new_devices};
use mr_wire::WireFault;
use numbers::Numbers;
use std::io;
use steps::Trial;
use story::{PHONE_FILTER, add_frames};
use tally::Tally;
use tell::tell_all;

/// What the command line says.
#[derive(Clone, Copy)]
struct Course {
    seed: u64,
    count: u64,
    /// Whether frames are only read, and told how long they are.
    is_told: bool,
}

/// What is done where the command line says nothing.
const GIVEN: Course = Course {
    seed: 7,
    count: 200_000,
    is_told: false,
};

/// Compares the twins (`twins.rt`), and tries as many hostile frames as are given, and what belongs to them.
pub fn run_all<R: Print + AllocGlobal>(rt: &R) -> Result<()> {
    run(rt, GIVEN)
}

/// Does what these words say: `SEED COUNT`, or `SEED COUNT told`.
pub fn run_words<R: Print + AllocGlobal>(rt: &R, words: &[String]) -> Result<()> {
    run(rt, course_of(words)?)
}

/// Compares the twins, where frames aren't only told, and plays with frames.
fn run<R: Print + AllocGlobal>(rt: &R, course: Course) -> Result<()> {
    if !course.is_told && !twins::run_all(rt)? {
        bail!("two forms of one thing answer differently");
    }
    play(rt, course)
}

/// The course of these words.
fn course_of(words: &[String]) -> Result<Course> {
    let (seed, count, is_told) = match words {
        [seed, count] => (seed, count, false),
        [seed, count, last] if last.as_str() == "told" => (seed, count, true),
        _ => bail!("usage: try_scripts random SEED COUNT [told]"),
    };
    Ok(Course {
        seed: seed.as_str().parse()?,
        count: count.as_str().parse()?,
        is_told,
    })
}

/// The replicas, by id and filter: office and phone of the story, three that are made equal to the phone, and three for the
/// facts.
const CAST: [(u16, &str); 8] = [
    (0, "all"),
    (1, PHONE_FILTER),
    (1, PHONE_FILTER),
    (1, PHONE_FILTER),
    (1, PHONE_FILTER),
    (0, "all"),
    (1, "all"),
    (9, "label:inbox"),
];

/// Shows the facts, and tries what is made of the story.
fn play<R: Print + AllocGlobal>(rt: &R, course: Course) -> Result<()> {
    let mut devices = new_devices(rt.alloc(), &CAST)?;
    play_with(rt, &mut devices, course)
}

/// Does so with these replicas.
fn play_with<R: Print + AllocGlobal>(rt: &R, devices: &mut [Device], course: Course) -> Result<()> {
    match devices {
        [office, phone, probe, before, tried, host, friend, stranger] => {
            facts::show_all(rt.alloc(), host, friend, stranger)?;
            let mut trial = Trial {
                alloc: rt.alloc(),
                office,
                phone,
                probe,
                before,
                tried,
            };
            play_on(rt, &mut trial, course)
        }
        _ => bail!("there are eight replicas"),
    }
}

/// Plays the story of a trial, and takes the frames that are left of it.
fn play_on<R: Print + AllocGlobal>(rt: &R, trial: &mut Trial<'_>, course: Course) -> Result<()> {
    story::play(trial.alloc, trial.office, trial.phone)?;
    let samples = samples_of(trial)?;
    try_all(rt, trial, &samples, course)
}

/// The right frames that the story left.
fn samples_of(trial: &Trial<'_>) -> Result<Vec<Vec<u8>>, WireFault> {
    let mut samples = Vec::new(trial.alloc);
    add_frames(trial.alloc, trial.office.log(), &mut samples)?;
    add_frames(trial.alloc, trial.phone.log(), &mut samples)?;
    Ok(samples)
}

/// Tries, or tells, what is made of the right frames.
fn try_all<R: Print + AllocGlobal>(
    rt: &R,
    trial: &mut Trial<'_>,
    samples: &[Vec<u8>],
    course: Course,
) -> Result<()> {
    let mut numbers = Numbers::from_seed(course.seed);
    if course.is_told {
        return tell_all(rt, samples, &mut numbers, course.count);
    }
    let streams = streams::try_all(trial.alloc, samples, &mut numbers, course.count / 100)?;
    say(rt, "streams", "ends", &streams)?;
    try_frames(rt, trial, samples, &mut numbers, course.count)?;
    println!(rt; "eight requests of a stranger fill the streams, until one is cut")?;
    println!(rt; "a Know teaches what nobody issued, which is then never taken")?;
    Ok(())
}

/// Tries frames at a replica, and then a sync.
fn try_frames<R: Print + AllocGlobal>(
    rt: &R,
    trial: &mut Trial<'_>,
    samples: &[Vec<u8>],
    numbers: &mut Numbers,
    count: u64,
) -> Result<()> {
    let met = trial.try_all(samples, numbers, count)?;
    say(rt, "frames", "faults", &met.reads)?;
    say(rt, "steps", "refusals", &met.steps)?;
    trial.check_sync()?;
    let refused = met.refused;
    println!(rt; "a sync behind {refused} refused frames goes as without them")?;
    Ok(())
}

/// Prints how many were taken, and how often each fault or refusal was met.
fn say(rt: &impl Print, what: &str, refusals: &str, tally: &Tally) -> io::Result<()> {
    print!(rt; "{what} {refusals}")?;
    for (number, count) in tally.counts().iter().enumerate() {
        if *count != 0 {
            print!(rt; " {number}: {count}")?;
        }
    }
    println!(rt; "")
}
