//! How a frame is spelled by the one before it.
ghost use Rattle.std.specs.Prelude.{◌≡◌, ◌≤◌, ◌<◌, ◌+◌, ◌*◌, ◌^◌, ◌++◌, ℕ, List, [], IfOk, IfSome, MatchBool, OnOk, length, take};
ghost use Rattle.std.specs.List.{flat_map};
ghost use Rattle.mr_talk.specs.Packed.{Tells, begun, digit, token_bytes};
ghost use Rattle.mr_talk.specs.inner.Packed.{AreDigits, ArePairs, CanBeWritten, Fits, IsDigit, Writes, moves, place_after, rest_tokens, run_size};

use std::alloc::{AllocError, Global};

/// The most bytes of the frame before in a run, and the most bytes or pairs of digits that are spelled in one.
const MOST_COPIED: usize = 63;

const MOST_SPELLED: usize = 64;

/// So many digits, one behind another, are a digest's: fewer are spelled as they are.
const LEAST_DIGITS: usize = 16;

/// The number of a move that stays in its place, and of how many places one is chosen.
const NO_MOVE: usize = 31;

const PLACES: usize = 9;

/// How many bytes have to be alike behind others, where the place stays and where it moves.
const LEAST_ALIKE: usize = 3;

const LEAST_MOVED: usize = 4;

/// What is spelled next.
#[derive(Clone, Copy)]
pub(crate) enum Run {
    /// So many bytes that stand at the place in the frame before.
    Copy(usize),
    /// So many bytes.
    Literal(usize),
    /// So many pairs of digits.
    Digits(usize),
    /// Another place in the frame before, so far from 31 bytes back.
    Move(usize),
}

/// The frame as tokens, where another went before it. They take six bytes more than the frame at most.
pub(crate) fn packed_frame(
    alloc: Global,
    before: &[u8],
    frame: &[u8],
) -> Result<Vec<u8>, AllocError>
    requires { length frame.now < 2 ^ 32 }
    ensures tells { IfOk result (λ packed. Tells packed.items (begun before.now []) (begun frame.now frame.now)) }
    ensures short { IfOk result (λ packed. length packed.items ≤ length frame.now + 6) }
{
    let packed = packed_runs(alloc, before, frame)?;
    if packed.len() <= frame.len() + 6 {
        return Ok(packed);
    }
    plain_frame(alloc, frame)
}

/// The frame as a token that has it whole.
fn plain_frame(alloc: Global, frame: &[u8]) -> Result<Vec<u8>, AllocError>
    requires { length frame.now < 2 ^ 32 }
    ensures tells { (before : List ℕ) → IfOk result (λ packed. Tells packed.items (begun before []) (begun frame.now frame.now)) }
    ensures short { IfOk result (λ packed. length packed.items ≤ length frame.now + 6) }
{
    let mut packed = Vec::with_capacity(alloc, frame.len() + 6)?;
    write_rest(&mut packed, frame)?;
    Ok(packed)
}

/// The frame as runs, and what no run is about as it is.
fn packed_runs(alloc: Global, before: &[u8], frame: &[u8]) -> Result<Vec<u8>, AllocError>
    requires { length frame.now < 2 ^ 32 }
    ensures { IfOk result (λ packed. Tells packed.items (begun before.now []) (begun frame.now frame.now)) }
{
    let mut packed = Vec::new(alloc);
    let mut place = 0;
    let mut at = 0;
    for _ in 0..frame.len() {
        let rest = &frame[at..];
        if rest.is_empty() {
            break;
        }
        let run = next_run(before, place, rest);
        write_run(&mut packed, run, rest)?;
        place = place_behind(run, place, before.len());
        at += size_of(run);
    }
    write_rest(&mut packed, &frame[at..])?;
    Ok(packed)
}

/// How many bytes of the frame a run spells.
fn size_of(run: Run) -> usize
    requires { run_size run < 2 ^ 64 }
    ensures { result ≡ run_size run }
{
    match run {
        Run::Copy(count) | Run::Literal(count) => count,
        Run::Digits(count) => 2 * count,
        Run::Move(_) => 0,
    }
}

/// The place behind a run, in a frame before of so many bytes.
fn place_behind(run: Run, place: usize, long: usize) -> usize
    requires { (place ≤ long) × (long < 2 ^ 63) × (run_size run < 2 ^ 62) × (moves run ≤ 62) }
    ensures { result ≡ place_after run place long }
{
    let behind = match run {
        Run::Copy(count) | Run::Literal(count) => place + count,
        Run::Digits(count) => place + 2 * count,
        Run::Move(step) => (place + step).saturating_sub(NO_MOVE),
    };
    behind.min(long)
}

/// Writes a run of the rest of the frame as its token.
fn write_run(packed: &mut Vec<u8>, run: Run, rest: &[u8]) -> Result<(), AllocError>
    requires { CanBeWritten run rest.now }
    ensures { OnOk result (Writes run rest.now packed.old.items packed.new.items) }
{
    match run {
        Run::Copy(count) => packed.push(count as u8)?,
        Run::Literal(count) => {
            packed.push((63 + count) as u8)?;
            packed.extend_from_slice(&rest[..count])?;
        }
        Run::Digits(count) => {
            packed.push((127 + count) as u8)?;
            write_pairs(packed, rest, count)?;
        }
        Run::Move(step) => packed.push((192 + step) as u8)?,
    }
    Ok(())
}

/// Writes a byte for each of so many pairs of digits.
fn write_pairs(packed: &mut Vec<u8>, text: &[u8], count: usize) -> Result<(), AllocError>
    requires { (2 * count ≤ length text.now) × AreDigits (2 * count) text.now }
    ensures { OnOk result ((bytes : List ℕ) × ArePairs count text.now bytes × (packed.new.items ≡ packed.old.items ++ bytes)) }
{
    for pair in 0..count {
        let high = value_of(text[2 * pair]);
        let low = value_of(text[2 * pair + 1]);
        packed.push(16 * high + low)?;
    }
    Ok(())
}

/// Writes what is left of the frame as it is, if there is some, and its end.
fn write_rest(packed: &mut Vec<u8>, rest: &[u8]) -> Result<(), AllocError>
    requires { length rest.now < 2 ^ 32 }
    ensures { OnOk result (packed.new.items ≡ packed.old.items ++ flat_map token_bytes (rest_tokens rest.now)) }
{
    if !rest.is_empty() {
        packed.push(255)?;
        packed.extend_from_slice(&(rest.len() as u32).to_be_bytes())?;
        packed.extend_from_slice(rest)?;
    }
    packed.push(0)?;
    Ok(())
}

/// The run that the rest of the frame begins with, where this is the place in the frame before.
fn next_run(before: &[u8], place: usize, rest: &[u8]) -> Run
    requires { (place ≤ length before.now) × (0 < length rest.now) }
    ensures { Fits before.now place rest.now result }
{
    let same = same_count(&before[place..], rest);
    if same > 0 {
        return Run::Copy(same);
    }
    let digits = digit_count(rest);
    if digits >= LEAST_DIGITS {
        return Run::Digits(digits / 2);
    }
    match move_to(before, place, rest) {
        Some(step) if step != NO_MOVE => Run::Move(step),
        _ => Run::Literal(literal_count(before, place, rest)),
    }
}

/// How many bytes are the same at the front of both: at most as many as a run copies.
fn same_count(before: &[u8], rest: &[u8]) -> usize
    ensures most { (result ≤ 63) × (result ≤ length before.now) × (result ≤ length rest.now) }
    ensures same { take result before.now ≡ take result rest.now }
{
    let most = before.len().min(rest.len()).min(MOST_COPIED);
    for at in 0..most {
        if before[at] != rest[at] {
            return at;
        }
    }
    most
}

/// How many digits stand at the front: at most as many as a run spells.
fn digit_count(text: &[u8]) -> usize
    ensures most { (result ≤ 128) × (result ≤ length text.now) }
    ensures digits { AreDigits result text.now }
{
    let most = text.len().min(2 * MOST_SPELLED);
    for at in 0..most {
        if !is_digit(text[at]) {
            return at;
        }
    }
    most
}

/// How many bytes go by before some stand in the frame before too, or digits of a digest come: 1 to 64.
fn literal_count(before: &[u8], place: usize, rest: &[u8]) -> usize
    requires { (place ≤ length before.now) × (0 < length rest.now) }
    ensures { (0 < result) × (result ≤ 64) × (result ≤ length rest.now) }
{
    let most = rest.len().min(MOST_SPELLED);
    for count in 1..most {
        let left = &rest[count..];
        let behind = (place + count).min(before.len());
        if digit_count(left) >= LEAST_DIGITS || move_to(before, behind, left).is_some() {
            return count;
        }
    }
    most
}

/// The move, or none at all, behind which the frame before goes on as the rest of the frame does: the nearest one.
fn move_to(before: &[u8], place: usize, rest: &[u8]) -> Option<usize>
    requires { place ≤ length before.now }
    ensures { IfSome result (λ step. step ≤ 62) }
{
    for number in 0..PLACES {
        let step = if number % 2 == 0 {
            NO_MOVE - number / 2
        } else {
            NO_MOVE + (number + 1) / 2
        };
        let least = if number == 0 {
            LEAST_ALIKE
        } else {
            LEAST_MOVED
        };
        if is_alike(before, (place + step).saturating_sub(NO_MOVE), rest, least) {
            return Some(step);
        }
    }
    None
}

/// Whether so many bytes at a place in the frame before are those at the front of the rest.
fn is_alike(before: &[u8], place: usize, rest: &[u8], least: usize) -> bool {
    match (before.get(place..), rest.get(..least)) {
        (Some(tail), Some(front)) => tail.starts_with(front),
        _ => false,
    }
}

/// Whether a byte is a digit of 0 to 9 or of a to f.
fn is_digit(byte: u8) -> bool
    ensures { MatchBool result (IsDigit byte) (IsDigit byte → ⊥) }
{
    matches!(byte, b'0'..=b'9' | b'a'..=b'f')
}

/// What a digit stands for.
fn value_of(byte: u8) -> u8
    requires { IsDigit byte }
    ensures below { result < 16 }
    ensures is { digit result ≡ byte }
{
    if byte < b'a' {
        byte - b'0'
    } else {
        byte - b'a' + 10
    }
}
