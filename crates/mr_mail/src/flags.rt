//! A message's flags.
ghost use Rattle.std.specs.Prelude.{◌≡◌, ◌≢◌, ◌≤◌, ◌||◌, ◌↔◌, ℕ, IsSome, IfSome, IfNone, IfOk, filter};
ghost use Rattle.std.specs.Int.RustNames.{bit_or};
ghost use Rattle.mr_mail.specs.Flag.{bit_of, flag_name, flag_eq, has_flag, has_flags, lacks_flags, all_flags};

use std::alloc::{AllocError, Global};
use std::marker::Model;

/// One flag of a message.
#[derive(Clone, Copy, Debug, PartialEq, Eq)]
pub enum Flag {
    /// It has been read.
    Seen,
    /// It has been answered.
    Answered,
    /// It is marked for attention.
    Flagged,
    /// It is not finished.
    Draft,
    /// It counts as deleted; it is still there.
    Deleted,
}

impl Flag {
    /// Every flag, in the order in which flags are printed.
    pub const ALL: [Flag; 5] = [
        Flag::Seen,
        Flag::Answered,
        Flag::Flagged,
        Flag::Draft,
        Flag::Deleted,
    ];

    /// The flag's bit: 1, 2, 4, 8 and 16, in the order of `ALL`.
    pub fn bit(self) -> u8
        ensures { result ≡ bit_of self }
    {
        match self {
            Flag::Seen => 1,
            Flag::Answered => 2,
            Flag::Flagged => 4,
            Flag::Draft => 8,
            Flag::Deleted => 16,
        }
    }

    /// The flag's name, in lower case.
    pub fn name(self) -> &'static str
        ensures { result.now ≡ flag_name self }
    {
        match self {
            Flag::Seen => "seen",
            Flag::Answered => "answered",
            Flag::Flagged => "flagged",
            Flag::Draft => "draft",
            Flag::Deleted => "deleted",
        }
    }

    /// The flag of this name.
    pub fn from_name(name: &str) -> Option<Flag>
        ensures named { IfSome result (λ flag. flag_name flag ≡ name.now) }
        ensures complete { IfNone result ((flag : Flag) → flag_name flag ≢ name.now) }
    {
        match name {
            "seen" => Some(Flag::Seen),
            "answered" => Some(Flag::Answered),
            "flagged" => Some(Flag::Flagged),
            "draft" => Some(Flag::Draft),
            "deleted" => Some(Flag::Deleted),
            _ => None,
        }
    }
}

/// A set of flags, as a byte of at most 31.
#[derive(Clone, Copy, Debug, PartialEq, Eq)]
pub struct Flags {
    bits: u8,
}

impl Model for Flags {
    ghost use Rattle.std.specs.Prelude.{ℕ, ◌≤◌};

    ghost Value = { ℕ };

    ghost view = { λ f. f.bits };

    ghost invariant = { λ f. f.bits ≤ 31 };

    ghost inverse = { λ n. record { bits = n } };
}

impl Flags {
    /// No flag.
    pub fn empty() -> Flags
        ensures { result ≡ 0 }
    {
        Flags { bits: 0 }
    }

    /// The set of these bits, if each of them is a flag's.
    pub fn from_bits(bits: u8) -> Option<Flags>
        ensures exact { IsSome result ↔ (bits ≤ 31) }
        ensures value { IfSome result (λ flags. flags ≡ bits) }
    {
        if bits <= 31 {
            Some(Flags { bits })
        } else {
            None
        }
    }

    /// The sum of the flags' bits.
    pub fn bits(self) -> u8
        ensures value { result ≡ self }
        ensures in_range { self ≤ 31 }
    {
        self.bits
    }

    /// Whether the set has the flag.
    pub fn contains(self, flag: Flag) -> bool
        ensures { result ≡ has_flag self flag }
    {
        self.bits & flag.bit() == flag.bit()
    }

    /// Whether the set has each flag of the other.
    #[tactic(auto, using(crate::proofs::FlagLemmas::has_flags_by_bits))]
    pub fn is_superset(self, other: Flags) -> bool
        ensures { result ≡ has_flags self other }
    {
        self.bits & other.bits == other.bits
    }

    /// Whether the two sets have no flag in common.
    #[tactic(auto, using(crate::proofs::FlagLemmas::lacks_flags_by_bits))]
    pub fn is_disjoint(self, other: Flags) -> bool
        ensures { result ≡ lacks_flags self other }
    {
        self.bits & other.bits == 0
    }

    /// The set with one more flag.
    pub fn with(self, flag: Flag) -> Flags
        ensures bits { result ≡ bit_or self (bit_of flag) }
        ensures flags { (f : Flag) → has_flag result f ≡ (flag_eq flag f || has_flag self f) }
        ensures only { (bits : ℕ) → bits ≤ 31 → ((f : Flag) → has_flag bits f ≡ has_flag result f) → bits ≡ result }
    {
        Flags {
            bits: self.bits | flag.bit(),
        }
    }

    /// The set's flags, in the order in which flags are printed.
    pub fn list(self, alloc: Global) -> Result<Vec<Flag>, AllocError>
        ensures { IfOk result (λ flags. flags.items ≡ filter (has_flag self) all_flags) }
    {
        Flag::ALL
            .iter()
            .copied()
            .filter(|flag| self.contains(*flag))
            .collect(alloc)
    }
}
