//! Words that are lists: labels, flags and versions. A word of one dot is the empty list.
ghost use Rattle.std.specs.Prelude.{◌≡◌, ◌<◌, ◌↔◌, ◌⊎◌, true, false, IfOk, IfErr, IsTrue};
ghost use Rattle.std.specs.List.{list_all};
ghost use Rattle.mr_mail.specs.Label.{is_label, texts_of, different_labels};
ghost use Rattle.mr_mail.specs.declared.label.TheConstants.{MAX_LABELS};
ghost use Rattle.mr_command.specs.List.{pieces_of, NamesFlags, SpellsVersion, JoinsVersions};
ghost use Rattle.mr_command.specs.Reading.{names, names_in_memory, NamesSome, NamesNone};

use crate::pieces::Pieces;
use crate::{LineFault, Read};
use arrayvec::ArrayVec;
use mr_mail::{Flag, Flags, Label, MAX_LABELS};
use mr_replica::Bases;
use mr_version::Version;
use std::alloc::{AllocError, Global};

/// The flags whose names the word joins by `+`, in any order and more than once each. `BadFlags`
/// where a name is no flag's.
pub(crate) fn read_flags(word: &str) -> Read<Flags>
    ensures { names NamesFlags LineFault.BadFlags word.now result }
{
    let mut set = Flags::empty();
    let mut pieces = Pieces::of(word, '+');
    while let Some(piece) = pieces.next_piece() {
        let Some(flag) = Flag::from_name(piece) else {
            return Err(LineFault::BadFlags);
        };
        set = set.with(flag);
    }
    Ok(set)
}

/// Whether each text that the word joins by `,` is a label's.
pub(crate) fn are_labels(word: &str) -> bool
    ensures { result ≡ list_all is_label (pieces_of 44 word.now) }
{
    let mut pieces = Pieces::of(word, ',');
    while let Some(piece) = pieces.next_piece() {
        if !Label::admits(piece) {
            return false;
        }
    }
    true
}

/// Whether the word joins more different texts by `,` than a message may have labels. Each text is
/// compared with 16 at most.
pub(crate) fn are_too_many_labels(word: &str) -> bool
    ensures { IsTrue result ↔ (MAX_LABELS < different_labels (pieces_of 44 word.now)) }
{
    let mut seen: ArrayVec<&str, MAX_LABELS> = ArrayVec::new();
    let mut pieces = Pieces::of(word, ',');
    while let Some(piece) = pieces.next_piece() {
        if !seen.as_slice().contains(&piece) {
            if seen.len() == MAX_LABELS {
                return true;
            }
            seen.push(piece);
        }
    }
    false
}

/// The texts that the word joins by `,`. They need not be labels.
pub(crate) fn read_labels(alloc: Global, word: &str) -> Result<Vec<String>, AllocError>
    ensures { IfOk result (λ labels. texts_of labels.items ≡ pieces_of 44 word.now) }
{
    let mut labels = Vec::new(alloc);
    let mut pieces = Pieces::of(word, ',');
    while let Some(piece) = pieces.next_piece() {
        labels.push(String::from_str(alloc, piece)?)?;
    }
    Ok(labels)
}

/// The version that the word is. `BadVersion` where it is none.
pub(crate) fn read_version(word: &str) -> Read<Version>
    ensures { names SpellsVersion LineFault.BadVersion word.now result }
{
    match Version::read(word) {
        Ok(version) => Ok(version),
        Err(_) => Err(LineFault::BadVersion),
    }
}

/// The versions whose texts the word joins by `,`. `BadVersion` where a text is no version's, and
/// `OutOfMemory` last.
pub(crate) fn read_bases(alloc: Global, word: &str) -> Read<Bases>
    ensures { names_in_memory JoinsVersions LineFault.BadVersion word.now result }
{
    if !are_versions(word) {
        return Err(LineFault::BadVersion);
    }
    let versions = versions_named(alloc, word)?;
    Ok(Bases::new(versions))
}

/// Whether each text that the word joins by `,` is a version's.
fn are_versions(word: &str) -> bool
    ensures all { result ≡ true → NamesSome JoinsVersions word.now }
    ensures none { result ≡ false → NamesNone JoinsVersions word.now }
{
    let mut pieces = Pieces::of(word, ',');
    while let Some(piece) = pieces.next_piece() {
        if Version::read(piece).is_err() {
            return false;
        }
    }
    true
}

/// The versions whose texts the word joins by `,`, as they stand there.
fn versions_named(alloc: Global, word: &str) -> Read<Vec<Version>>
    ensures joined { IfOk result (λ versions. JoinsVersions word.now versions.items) }
    ensures fault { IfErr result (λ fault. (fault ≡ LineFault.OutOfMemory)
        ⊎ ((fault ≡ LineFault.BadVersion) × NamesNone JoinsVersions word.now)) }
{
    let mut versions = Vec::new(alloc);
    let mut pieces = Pieces::of(word, ',');
    while let Some(piece) = pieces.next_piece() {
        let Ok(version) = Version::read(piece) else {
            return Err(LineFault::BadVersion);
        };
        versions.push(version)?;
    }
    Ok(versions)
}
