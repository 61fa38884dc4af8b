//! Numbers: decimal, without leading zeros.
ghost use Rattle.std.specs.Prelude.{◌≡◌, ◌<◌, ℕ, Some, IfSome};
ghost use Rattle.std.specs.Fmt.{decimal};
ghost use Rattle.mr_command.specs.Number.{SpellsNumber, SpellsId, reads_up_to};
ghost use Rattle.mr_command.specs.Reading.{names};
ghost use Rattle.mr_version.specs.declared.author.TheConstants.{AUTHORS};

use crate::{LineFault, Read};
use mr_version::{Author, read_decimal};

/// The number that the word is. `BadNumber` where it is none below 2^64.
pub(crate) fn read_number(word: &str) -> Read<u64>
    ensures { names SpellsNumber LineFault.BadNumber word.now result }
{
    match read_decimal(word) {
        Some(number) => Ok(number),
        None => Err(LineFault::BadNumber),
    }
}

/// The author whose id has this decimal text.
fn author_of(text: &str) -> Option<Author>
    ensures spelled { IfSome result (λ id. SpellsId text.now id) }
    ensures whole { (id : ℕ) → id < AUTHORS → text.now ≡ decimal id → result ≡ Some id }
{
    let id = u16::try_from(read_decimal(text)?).ok()?;
    Author::try_new(id).ok()
}

/// The replica's id that the word is. `BadNumber` where it is no number of 0 to 63.
pub(crate) fn read_id(word: &str) -> Read<Author>
    ensures { names SpellsId LineFault.BadNumber word.now result }
{
    match author_of(word) {
        Some(id) => Ok(id),
        None => Err(LineFault::BadNumber),
    }
}

/// A number of 1 to `most`. `BadNumber`, and `outside` for a number that is not one of these.
pub(crate) fn read_up_to(word: &str, most: u32, outside: LineFault) -> Read<u32>
    ensures { reads_up_to most outside word.now result }
{
    let number = read_number(word)?;
    if 1 <= number && number <= u64::from(most) {
        Ok(number as u32)
    } else {
        Err(outside)
    }
}
