//! How far frames are unpacked.
ghost use Rattle.std.specs.Prelude.{◌≡◌, ◌≤◌, ◌<◌, ◌+◌, ◌^◌, ◌++◌, ℕ, List, [], Some, IfErr, IfOk, MatchResult, OnErr, OnOk, length, min};
ghost use Rattle.std.specs.List.{flat_map};
ghost use Rattle.mr_talk.specs.Packed.{Copy, End, IsBlamed, Move, Spelled, Tells, begun, digit, says, spell, two_digits};
ghost use Rattle.mr_talk.specs.inner.Packed.{Takes, meaning};
ghost use Rattle.mr_talk.specs.declared.packed.PackedFault.TheVariants.{BadToken, OutOfMemory};

use crate::kind::MAX_FRAMES_BYTES;
use crate::packed::PackedFault;
use crate::token::{Token, read_token};
use std::alloc::{AllocError, Global};
use std::marker::Model;
use std::mem;

/// The frame before, a place in it, what is unpacked of a frame, and the frames before that one, one behind another.
#[derive(Drop)]
pub(crate) struct Unpacking {
    before: Vec<u8>,
    place: usize,
    now: Vec<u8>,
    told: Vec<u8>,
}

impl Model for Unpacking {
    ghost use Rattle.std.specs.Prelude.{◌≤◌, vec_len};
    ghost use Rattle.mr_talk.specs.Packed.{Spelled};

    ghost Value = { Spelled };

    ghost view = { λ u. record { before = u.before.items; place = u.place; now = u.now.items; told = u.told.items } };

    ghost invariant = { λ u. u.place ≤ vec_len u.before };
}

impl Unpacking {
    /// Nothing is unpacked behind this frame.
    pub(crate) fn new(alloc: Global, before: &[u8]) -> Result<Unpacking, AllocError>
        ensures { IfOk result (λ unpacking. unpacking ≡ begun before.now []) }
    {
        Ok(Unpacking {
            before: before.to_vec(alloc)?,
            place: 0,
            now: Vec::new(alloc),
            told: Vec::new(alloc),
        })
    }

    /// Takes all tokens of these bytes. `BadToken` at the first that is none; `TooLong` once frames have too many bytes.
    pub(crate) fn take_all(&mut self, bytes: &[u8]) -> Result<(), PackedFault>
        requires { length self.old.told + length self.old.now ≤ MAX_FRAMES_BYTES }
        ensures taken { OnOk result (Tells bytes.now self.old self.new) }
        ensures few { OnOk result (length self.new.told + length self.new.now ≤ MAX_FRAMES_BYTES) }
        ensures whole { (to : Spelled) → Tells bytes.now self.old to → length to.told + length to.now ≤ MAX_FRAMES_BYTES
            → MatchResult result (λ _. self.new ≡ to) (λ fault. fault ≡ OutOfMemory) }
        ensures fault { IfErr result (λ fault. IsBlamed fault bytes.now self.old) }
    {
        let mut at = 0;
        while at < bytes.len() {
            let Some((token, used)) = read_token(&bytes[at..]) else {
                return Err(PackedFault::BadToken);
            };
            self.take(&token)?;
            if self.told.len() + self.now.len() > MAX_FRAMES_BYTES as usize {
                return Err(PackedFault::TooLong);
            }
            at += used;
        }
        Ok(())
    }

    /// Takes one token.
    fn take(&mut self, token: &Token<'_>) -> Result<(), PackedFault>
        ensures { Takes (meaning token.now) self.old result self.new }
    {
        match token {
            Token::End => Ok(self.end_frame()?),
            Token::Copy(count) => self.copy(*count),
            Token::Literal(bytes) | Token::Long(bytes) => Ok(self.say(bytes)?),
            Token::Digits(bytes) => Ok(self.say_digits(bytes)?),
            Token::Move(step) => {
                self.move_by(*step);
                Ok(())
            }
        }
    }

    /// The frame is whole: the next one is told against it.
    fn end_frame(&mut self) -> Result<(), AllocError>
        ensures { OnOk result (spell End self.old ≡ Some self.new) }
    {
        self.told.extend_from_slice(&self.now)?;
        mem::swap(&mut self.before, &mut self.now);
        self.now.clear();
        self.place = 0;
        Ok(())
    }

    /// Copies so many bytes of the frame before.
    fn copy(&mut self, count: usize) -> Result<(), PackedFault>
        ensures { Takes (Copy count) self.old result self.new }
    {
        if count > self.before.len() - self.place {
            return Err(PackedFault::BadToken);
        }
        let end = self.place + count;
        self.now.extend_from_slice(&self.before[self.place..end])?;
        self.place = end;
        Ok(())
    }

    /// Takes bytes as they are.
    fn say(&mut self, bytes: &[u8]) -> Result<(), AllocError>
        ensures { OnOk result (self.new ≡ says bytes.now self.old) }
    {
        self.now.extend_from_slice(bytes)?;
        self.go_on(bytes.len());
        Ok(())
    }

    /// Takes two digits for each of these bytes.
    fn say_digits(&mut self, bytes: &[u8]) -> Result<(), AllocError>
        ensures { OnOk result (self.new ≡ says (flat_map two_digits bytes.now) self.old) }
    {
        let had = self.now.len();
        push_digits(&mut self.now, bytes)?;
        let count = self.now.len() - had;
        self.go_on(count);
        Ok(())
    }

    /// Goes on by so many places in the frame before, and no further than its end.
    fn go_on(&mut self, count: usize)
        ensures { self.new ≡ record { before = self.old.before; place = min (self.old.place + count) (length self.old.before); now = self.old.now; told = self.old.told } }
    {
        self.place = self.place.saturating_add(count).min(self.before.len());
    }

    /// Takes another place in the frame before.
    fn move_by(&mut self, step: usize)
        ensures { spell (Move step) self.old ≡ Some self.new }
    {
        let place = self.place.saturating_add(step).saturating_sub(31);
        self.place = place.min(self.before.len());
    }

    /// The frames, one behind another, and the last of them. `BadToken` where one isn't whole.
    pub(crate) fn into_frames(self) -> Result<(Vec<u8>, Vec<u8>), PackedFault>
        ensures whole { IfOk result (λ found. self ≡ begun found.1.items found.0.items) }
        ensures within { OnErr result ((after told : List ℕ) → self ≡ begun after told → ⊥) }
        ensures fault { IfErr result (λ fault. fault ≡ BadToken) }
    {
        if self.place != 0 || !self.now.is_empty() {
            return Err(PackedFault::BadToken);
        }
        Ok((self.told, self.before))
    }
}

/// Writes two digits for each of these bytes.
fn push_digits(text: &mut Vec<u8>, bytes: &[u8]) -> Result<(), AllocError>
    ensures { OnOk result (text.new.items ≡ text.old.items ++ flat_map two_digits bytes.now) }
{
    for byte in bytes {
        text.push(digit_of(*byte / 16))?;
        text.push(digit_of(*byte % 16))?;
    }
    Ok(())
}

/// A number below 16 as a digit.
fn digit_of(number: u8) -> u8
    requires { number < 16 }
    ensures { result ≡ digit number }
{
    if number < 10 {
        b'0' + number
    } else {
        b'a' - 10 + number
    }
}
