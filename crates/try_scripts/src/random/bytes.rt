//! Hostile bytes: right ones that are changed, cut and put together, with lengths and counts that lie.
use crate::random::numbers::Numbers;
use std::alloc::AllocError;

/// The bytes of a length, and the place of the byte that follows it: the number of the format.
pub const LENGTH_BYTES: usize = 4;

/// Numbers of four bytes at which a length or a count is just right, or is just too much.
const EDGES: [u32; 16] = [
    0,
    1,
    2,
    16,
    17,
    64,
    255,
    256,
    4_096,
    65_536,
    65_537,
    1_000_000,
    1_000_001,
    8_388_608,
    8_388_609,
    4_294_967_295,
];

/// The same of two bytes.
const SHORT_EDGES: [u16; 8] = [0, 1, 64, 255, 998, 4_096, 4_097, 65_535];

/// One of the samples; nothing where there are none.
pub fn pick<'a>(samples: &'a [Vec<u8>], numbers: &mut Numbers) -> &'a [u8] {
    match samples.get(numbers.place_below(samples.len().max(1))) {
        Some(sample) => sample,
        None => &[],
    }
}

/// Writes these over the bytes from a place on, as far as there are any.
pub fn put(bytes: &mut [u8], place: usize, others: &[u8]) {
    for (byte, other) in bytes.iter_mut().skip(place).zip(others) {
        *byte = *other;
    }
}

/// Makes hostile bytes of the samples, and now and then gives a sample as it is.
///
/// Most have a length that fits, since nothing is looked at behind one that does not.
pub fn make(
    samples: &[Vec<u8>],
    numbers: &mut Numbers,
    out: &mut Vec<u8>,
) -> Result<(), AllocError> {
    out.clear();
    out.extend_from_slice(pick(samples, numbers))?;
    if !numbers.is_once_in(6) {
        spoil(samples, numbers, out)?;
    }
    if !numbers.is_once_in(6) {
        put_length(out);
    }
    Ok(())
}

/// Writes the length that the bytes have.
fn put_length(bytes: &mut [u8]) {
    let rest = bytes.len().saturating_sub(LENGTH_BYTES);
    put(
        bytes,
        0,
        &u32::try_from(rest).unwrap_or(u32::MAX).to_be_bytes(),
    );
}

/// Spoils the bytes from some place on, in one of seven ways.
fn spoil(samples: &[Vec<u8>], numbers: &mut Numbers, out: &mut Vec<u8>) -> Result<(), AllocError> {
    let place = numbers.place_below(out.len().max(1));
    match numbers.below(7) {
        4 => out.truncate(place),
        5 => splice(pick(samples, numbers), numbers, place, out)?,
        6 => out.extend_from_slice(pick(samples, numbers))?,
        way => overwrite(numbers, way, place, out),
    }
    Ok(())
}

/// Writes a random number over the bytes from a place on, in the first of the seven ways: one of one byte or of four, or an
/// edge.
fn overwrite(numbers: &mut Numbers, way: u32, place: usize, out: &mut [u8]) {
    match way {
        0 => put(out, place, &[numbers.below(256) as u8]),
        1 => put(out, place, &numbers.below(u32::MAX).to_be_bytes()),
        2 => put(out, place, &EDGES[numbers.place_below(16)].to_be_bytes()),
        _ => put(
            out,
            place,
            &SHORT_EDGES[numbers.place_below(8)].to_be_bytes(),
        ),
    }
}

/// Puts the end of another sample behind a beginning of the bytes.
fn splice(
    other: &[u8],
    numbers: &mut Numbers,
    place: usize,
    out: &mut Vec<u8>,
) -> Result<(), AllocError> {
    out.truncate(place);
    let from = numbers.place_below(other.len().max(1));
    out.extend_from_slice(other.get(from..).unwrap_or(&[]))
}
