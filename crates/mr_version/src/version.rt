//! Versions, and their texts.
ghost use Rattle.std.specs.Prelude.{◌≡◌, ◌<◌, ◌≤◌, ◌^◌, ◌↔◌, ℕ, Some, Ok, IsOk, IfOk, IfErr, IfSome, string_bytes, refl};
ghost use Rattle.std.specs.Fmt.{decimal};
ghost use Rattle.std.specs.Cmp;
ghost use Rattle.std.proofs.Common.{rules};
ghost use Rattle.std.specs.Cmp.Rules.{comparing};
ghost use Rattle.mr_version.specs.Name.{Name, IsVersion, name_text, name_cmp};
ghost use Rattle.mr_version.specs.declared.version.TheConstants.{MAX_COUNTER};
ghost use Rattle.mr_version.specs.declared.author.TheConstants.{AUTHORS};
ghost use Rattle.mr_version.specs.Order.{names_total};

use crate::number::read_decimal;
use crate::{Author, VersionFault};
use std::alloc::{AllocError, Global};
use std::cmp::Ordering;
use std::fmt;
use std::marker::Model;

/// The highest counter of a version; the lowest is 1.
pub const MAX_COUNTER: u32 = 1_000_000;

/// A version: its author, and its number among that author's, 1 to 1,000,000.
#[derive(Clone, Copy, Debug, PartialEq, Eq)]
pub struct Version {
    author: Author,
    counter: u32,
}

impl Model for Version {
    ghost use Rattle.std.specs.Prelude.{ℕ, ◌<◌, ◌≤◌};
    ghost use Rattle.mr_version.specs.Name.{Name, name_code, IsVersion};

    ghost Value = { Name };

    ghost coded = { name_code };

    ghost view = { λ a. record { author = a.author; counter = a.counter } };

    ghost invariant = { λ a. IsVersion a.author a.counter };

    ghost inverse = { λ v. record { author = v.author; counter = v.counter } };
}

impl Version {
    /// The author's version with this counter. `BadVersion` where the counter is 0 or above 1,000,000.
    pub fn try_new(author: Author, counter: u32) -> Result<Version, VersionFault>
        ensures ok { IfOk result (λ v. (v.author ≡ author) × (v.counter ≡ counter)) }
        ensures exact { IsOk result ↔ ((1 ≤ counter) × (counter ≤ MAX_COUNTER)) }
        ensures fault { IfErr result (λ fault. fault ≡ VersionFault.BadVersion) }
    {
        if 1 <= counter && counter <= MAX_COUNTER {
            Ok(Version { author, counter })
        } else {
            Err(VersionFault::BadVersion)
        }
    }

    /// The version that the text names, as `0.1`. `BadVersion` where the text is not exactly that of a
    /// version: for a sign, a space or a leading zero too.
    pub fn read(text: &str) -> Result<Version, VersionFault>
        ensures spelled { IfOk result (λ v. text.now ≡ name_text v) }
        ensures range { IfOk result (λ v. IsVersion v.author v.counter) }
        ensures whole { (v : Name) → IsVersion v.author v.counter → text.now ≡ name_text v → result ≡ Ok v }
        ensures fault { IfErr result (λ fault. fault ≡ VersionFault.BadVersion) }
    {
        read_parts(text).ok_or(VersionFault::BadVersion)
    }

    /// Who made it.
    pub fn author(self) -> Author
        ensures { result ≡ self.author }
    {
        self.author
    }

    /// Its number among its author's, 1 to 1,000,000.
    pub fn counter(self) -> u32
        ensures is { result ≡ self.counter }
        ensures range { IsVersion self.author self.counter }
    {
        self.counter
    }

    /// Its text, as `0.1`: the author, a dot and the counter, in decimal without leading zeros.
    pub fn text(self, alloc: Global) -> Result<String, AllocError>
        ensures { IfOk result (λ text. string_bytes text ≡ name_text self) }
    {
        format!(in alloc; "{self}")
    }
}

fn read_author(text: &str) -> Option<Author>
    ensures spelled { IfSome result (λ author. text.now ≡ decimal author) }
    ensures whole { (author : ℕ) → author < AUTHORS → text.now ≡ decimal author → result ≡ Some author }
{
    let id = u16::try_from(read_decimal(text)?).ok()?;
    Author::try_new(id).ok()
}

fn read_counter(text: &str) -> Option<u32>
    ensures spelled { IfSome result (λ counter. text.now ≡ decimal counter) }
    ensures whole { (counter : ℕ) → counter < 2 ^ 32 → text.now ≡ decimal counter → result ≡ Some counter }
{
    u32::try_from(read_decimal(text)?).ok()
}

fn read_parts(text: &str) -> Option<Version>
    ensures spelled { IfSome result (λ v. text.now ≡ name_text v) }
    ensures range { IfSome result (λ v. IsVersion v.author v.counter) }
    ensures whole { (v : Name) → IsVersion v.author v.counter → text.now ≡ name_text v → result ≡ Some v }
{
    let (author, counter) = text.split_once('.')?;
    Version::try_new(read_author(author)?, read_counter(counter)?).ok()
}

/// Writes the version's text.
impl fmt::Display for Version {
    ghost output = { λ v. Some (name_text v) };

    fn fmt<W: fmt::Write>(&self, f: &mut fmt::Formatter<W>) -> fmt::Result {
        write!(f, "{}.{}", self.author, self.counter)
    }
}

impl PartialOrd for Version {
    ghost partial_cmp = { λ a b. Some (name_cmp a b) };

    ghost laws = { Cmp.partial_order_from_agreeing_total name_cmp names_total (λ _ _. refl) (Prim.search (comparing, rules)) };

    fn partial_cmp(&self, other: &Version) -> Option<Ordering> {
        Some(self.cmp(other))
    }
}

/// By author, then by counter.
impl Ord for Version {
    ghost cmp = { name_cmp };

    ghost total = { names_total };

    ghost matches_partial_cmp = { λ _ _. refl };

    ghost matches_eq = { Prim.search (comparing, rules) };

    fn cmp(&self, other: &Version) -> Ordering {
        let by_author = self.author.cmp(&other.author);
        by_author.then_with(|| self.counter.cmp(&other.counter))
    }
}
