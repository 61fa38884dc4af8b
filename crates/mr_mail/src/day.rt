//! Days, counted from 1970-01-01.
ghost use Rattle.std.specs.Prelude.{◌≡◌, ◌<◌, ℕ, List, [], ◌∷◌, ◌++◌, Some, Ok, pos, IfOk, IfErr, OnOk, IfSome, string_bytes};
ghost use Rattle.jiff.specs.Words.{epoch_day};
ghost use Rattle.mr_mail.specs.Day.{IsDayOf, Spells, date_digits, two_digits};

use jiff::{ToSpan, civil};
use std::alloc::{AllocError, Global};
use std::marker::Model;
use thiserror::Error;

/// A day, as the number of days since 1970-01-01; the last, 65,535, is 2149-06-06.
#[derive(Clone, Copy, Debug, PartialEq, Eq, PartialOrd, Ord)]
pub struct Day {
    days: u16,
}

impl Model for Day {
    ghost use Rattle.std.specs.Prelude.{ℕ, ◌<◌};

    ghost Value = { ℕ };

    ghost view = { λ d. d.days };

    ghost invariant = { λ d. d.days < 65536 };

    ghost inverse = { λ n. record { days = n } };
}

/// Why a text names no day.
#[derive(Clone, Copy, Debug, PartialEq, Eq, Drop, Error)]
pub enum DayFault {
    #[error("not a day from 1970-01-01 to 2149-06-06 as YYYY-MM-DD")]
    BadDay,
}

impl DayFault {
    /// The fault's number.
    pub fn number(self) -> u8
        ensures { result ≡ 1 }
    {
        match self {
            DayFault::BadDay => 1,
        }
    }
}

impl Day {
    /// The day so many days after 1970-01-01.
    pub fn new(days: u16) -> Day
        ensures { result ≡ days }
    {
        Day { days }
    }

    /// The number of days since 1970-01-01.
    pub fn days(self) -> u16
        ensures value { result ≡ self }
        ensures in_range { self < 65536 }
    {
        self.days
    }

    /// The day that a text of the form `YYYY-MM-DD` names, as of ISO 8601: exactly ten bytes, a real
    /// date from 1970-01-01 to 2149-06-06. `BadDay` for any other text.
    pub fn read(text: &str) -> Result<Day, DayFault>
        ensures spelled { IfOk result (λ day. Spells text.now day) }
        ensures complete { (day : ℕ) → Spells text.now day → result ≡ Ok day }
        ensures fault { IfErr result (λ fault. fault ≡ DayFault.BadDay) }
    {
        match read_parts(text.as_bytes()) {
            Some((year, month, day)) => day_of(year, month, day).ok_or(DayFault::BadDay),
            None => Err(DayFault::BadDay),
        }
    }

    /// The day as `YYYY-MM-DD`, as of ISO 8601.
    pub fn text(self, alloc: Global) -> Result<String, AllocError>
        ensures has_spelling { (text : List ℕ) × Spells text self }
        ensures spelled { IfOk result (λ text. Spells (string_bytes text) self) }
        ensures only { IfOk result
            (λ text. (other : List ℕ) → Spells other self → other ≡ string_bytes text) }
    {
        let (year, month, day) = parts_of(self.days);
        date_text(alloc, year, month, day)
    }
}

/// The number of two digits.
fn two_digit_number(tens: u8, units: u8) -> Option<u8>
    ensures found { IfSome result (λ n. (n < 100) × (two_digits n ≡ tens ∷ units ∷ [])) }
    ensures complete { (n : ℕ) → n < 100 → two_digits n ≡ tens ∷ units ∷ [] → result ≡ Some n }
{
    if tens.is_ascii_digit() && units.is_ascii_digit() {
        Some((tens - b'0') * 10 + (units - b'0'))
    } else {
        None
    }
}

/// The year, the month and the day of the month that ten bytes name, be there such a date or not.
fn read_parts(bytes: &[u8]) -> Option<(u16, u8, u8)>
    ensures found { IfSome result (λ p. (p.0 < 10000) × (p.1 < 100) × (p.2 < 100)
        × (date_digits p.0 p.1 p.2 ≡ bytes.now)) }
    ensures complete { (year month day : ℕ) → year < 10000 → month < 100 → day < 100
        → date_digits year month day ≡ bytes.now → result ≡ Some (year, month, day) }
{
    let [y0, y1, y2, y3, b'-', m0, m1, b'-', d0, d1] = bytes else {
        return None;
    };
    let century = two_digit_number(*y0, *y1)?;
    let year = two_digit_number(*y2, *y3)?;
    let month = two_digit_number(*m0, *m1)?;
    let day = two_digit_number(*d0, *d1)?;
    Some((century as u16 * 100 + year as u16, month, day))
}

/// The day of a date, if the calendar has the date and a day is in range.
fn day_of(year: u16, month: u8, day: u8) -> Option<Day>
    requires year_in { year < 10000 }
    requires month_in { month < 100 }
    requires day_in { day < 100 }
    ensures found { IfSome result (λ n. IsDayOf year month day n) }
    ensures complete { (n : ℕ) → IsDayOf year month day n → result ≡ Some n }
{
    let date = civil::Date::new(year as i16, month as i8, day as i8).ok()?;
    let days = u16::try_from(date.to_plain().to_unix_epoch_day()).ok()?;
    Some(Day { days })
}

/// The date so many days after 1970-01-01.
fn date_of(days: u16) -> civil::Date
    ensures { epoch_day result ≡ pos days }
{
    civil::date(1970, 1, 1)
        .checked_add(i64::from(days).days())
        .unwrap()
}

/// The year, the month and the day of the month of a day.
fn parts_of(days: u16) -> (u16, u8, u8)
    ensures { IsDayOf result.0 result.1 result.2 days }
{
    let date = date_of(days);
    (
        date.year().unsigned_abs(),
        date.month().unsigned_abs(),
        date.day().unsigned_abs(),
    )
}

/// The text of a date, as `YYYY-MM-DD`.
fn date_text(alloc: Global, year: u16, month: u8, day: u8) -> Result<String, AllocError>
    requires year_in { year < 10000 }
    requires month_in { month < 100 }
    requires day_in { day < 100 }
    ensures { IfOk result (λ text. string_bytes text ≡ date_digits year month day) }
{
    let mut text = String::with_capacity(alloc, 10)?;
    push_two_digits(&mut text, (year / 100) as u8)?;
    push_two_digits(&mut text, (year % 100) as u8)?;
    text.push('-')?;
    push_two_digits(&mut text, month)?;
    text.push('-')?;
    push_two_digits(&mut text, day)?;
    Ok(text)
}

/// Appends the two digits of a number.
fn push_two_digits(text: &mut String, n: u8) -> Result<(), AllocError>
    requires { n < 100 }
    ensures { OnOk result (string_bytes text.new ≡ string_bytes text.old ++ two_digits n) }
{
    text.push((b'0' + n / 10) as char)?;
    text.push((b'0' + n % 10) as char)?;
    Ok(())
}
