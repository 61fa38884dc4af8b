//! What a desk is asked to do: an event, whose texts and frames are lent bytes.
ghost use Rattle.std.specs.Prelude.{◌≡◌, None, Some, MatchResult, true, false};
ghost use Rattle.mr_version.specs.declared.fault.VersionFault.TheVariants.{NoSuchAuthor};
ghost use Rattle.mr_desk.specs.Version.{is_author, named_by, numbers_of, version_fault};

use mr_version::{Author, Version, VersionFault};

/// The author with this number: `NoSuchAuthor` where it is above 63.
pub(crate) fn author_of(number: u32) -> Result<Author, VersionFault>
    ensures { MatchResult result (λ author. (author ≡ number) × (is_author number ≡ true)) (λ fault. (fault ≡ NoSuchAuthor) × (is_author number ≡ false)) }
{
    let Ok(id) = u16::try_from(number) else {
        return Err(VersionFault::NoSuchAuthor);
    };
    Author::try_new(id)
}

/// A version by its numbers: its author's id, and its number among that author's.
#[repr(C)]
#[derive(Clone, Copy, Debug, PartialEq, Eq)]
pub struct VersionNumbers {
    pub author: u32,
    pub counter: u32,
}

impl VersionNumbers {
    /// The numbers of this version.
    pub fn of(version: Version) -> VersionNumbers
        ensures { result ≡ numbers_of version }
    {
        VersionNumbers {
            author: u32::from(version.author().id()),
            counter: version.counter(),
        }
    }

    /// The version with these numbers. `NoSuchAuthor` where the author's is above 63, then `BadVersion` where the other is
    /// 0 or above 1,000,000.
    pub fn version(self) -> Result<Version, VersionFault>
        ensures { MatchResult result (λ v. (version_fault self ≡ None) × (v ≡ named_by self)) (λ f. version_fault self ≡ Some f) }
    {
        let Ok(id) = u16::try_from(self.author) else {
            return Err(VersionFault::NoSuchAuthor);
        };
        Version::try_new(Author::try_new(id)?, self.counter)
    }
}

/// The parts of a message, lent.
#[derive(Clone, Copy)]
pub struct Draft<'a> {
    /// The sender, UTF-8.
    pub from: &'a [u8],
    /// The subject, UTF-8.
    pub subject: &'a [u8],
    /// Any bytes.
    pub body: &'a [u8],
    /// The labels, UTF-8, with commas between; empty where there is none.
    pub labels: &'a [u8],
    /// The flags, a bit each.
    pub flags: u8,
    /// The day, in days since 1970-01-01.
    pub day: u16,
}

/// What a desk is asked to do: an event of its replica, whose texts and frames are lent bytes.
#[derive(Clone, Copy)]
pub enum Call<'a> {
    /// Write a message.
    Create(Draft<'a>),
    /// Put a message in the place of these versions.
    Edit(&'a [VersionNumbers], Draft<'a>),
    /// Admit nothing more but to tell others.
    Retire,
    /// Ask for what the replica lacks, in a session; the request is the frame.
    Pull,
    /// Take the record that this frame is.
    Receive(&'a [u8]),
    /// Close the session of this number.
    CutIn(u64),
    /// Open a stream for the request that this frame is.
    Answer(&'a [u8]),
    /// Give the next record of the stream of this number, which is the frame.
    Next(u64),
    /// Close the stream of this number.
    CutOut(u64),
    /// Give a receipt for this version, which is the frame.
    Vouch(VersionNumbers),
    /// Let go of what the receipt that this frame is tells of.
    Release(&'a [u8]),
}
