//! Talks that ended with the hellos. What both sides said is noted: when the other side says the same again, and the folder is as it was, the
//! answer is the same, and the folder needn't be opened for it.
ghost use Rattle.std.specs.Prelude.{◌≡◌, ◌≢◌, ◌++◌, ℕ, All, Bool, List, IfOk, IfSome, MatchBool, MatchOption, None, OnOk, Some};
ghost use Rattle.std.specs.BTreeMap.{BTreeMap};
ghost use Rattle.std.specs.List.{flat_map};
ghost use Rattle.mr_compare.specs.declared.note.Meeting.{Meeting};
ghost use Rattle.mr_itemset.specs.Normal.{Normal};
ghost use Rattle.mr_replica.specs.State.{State};
ghost use Rattle.mr_sync.specs.Hello.{IsHelloOf};
ghost use Rattle.mr_sync.specs.Idle.{AreIdle, AreSpelled, IsAnswer, IsHellos, hellos_bytes, unmet};
ghost use Rattle.mr_sync.specs.declared.idle.Hellos.{Hellos};

use mr_talk::{HELLO_BYTES, Hello};
use std::alloc::{AllocError, Global};

/// The bytes of both hellos.
pub const HELLOS_BYTES: usize = 88;

/// The most talks that are noted.
pub const MAX_IDLE_TALKS: usize = 256;

/// The hellos of a talk in which there was nothing to tell.
#[derive(Clone, Copy, Debug, PartialEq, Eq)]
pub struct Hellos {
    /// What this side said to the other, whose id it knew.
    pub mine: Hello,
    /// What the other side said.
    pub theirs: Hello,
}

impl Hellos {
    /// What this side says where it doesn't know yet whom it calls.
    pub fn first(&self) -> Hello
        ensures is { result ≡ unmet self.now.mine }
        ensures hello { (birth : List ℕ) (s : State Normal) (lacks : Bool) → IsHelloOf birth s lacks (Some self.now.theirs.id) self.now.mine → IsHelloOf birth s lacks None result }
    {
        let mut mine = self.mine;
        mine.known = 0;
        mine
    }
}

/// The spelling of these hellos: of each pair in 88 bytes this side's, and then the other's.
pub fn write_hellos(alloc: Global, talks: &[Hellos]) -> Result<Vec<u8>, AllocError>
    ensures { IfOk result (λ bytes. bytes.items ≡ flat_map hellos_bytes talks.now) }
{
    let mut out = Vec::new(alloc);
    for talk in talks {
        let mine = talk.mine.write(alloc)?;
        let theirs = talk.theirs.write(alloc)?;
        put_both(&mut out, &mine, &theirs)?;
    }
    Ok(out)
}

/// Writes the bytes of both sides.
fn put_both(out: &mut Vec<u8>, mine: &[u8], theirs: &[u8]) -> Result<(), AllocError>
    ensures { OnOk result (out.new.items ≡ out.old.items ++ (mine.now ++ theirs.now)) }
{
    out.extend_from_slice(mine)?;
    out.extend_from_slice(theirs)
}

/// The hellos that the bytes spell, one pair behind another: just those that were written, at most 256 pairs. `None` where the bytes
/// spell no such list.
pub fn read_hellos(alloc: Global, bytes: &[u8]) -> Result<Option<Vec<Hellos>>, AllocError>
    ensures spelled { IfOk result (λ read. MatchOption read ((talks : List Hellos) → AreSpelled bytes.now talks → ⊥) (λ talks. AreSpelled bytes.now talks.items)) }
    ensures same { (written : List Hellos) → AreSpelled bytes.now written → IfOk result (λ read. MatchOption read ⊥ (λ talks. talks.items ≡ written)) }
{
    let mut talks = Vec::new(alloc);
    let mut rest = bytes;
    for _ in 0..MAX_IDLE_TALKS {
        let Some((front, behind)) = rest.split_first_chunk::<HELLOS_BYTES>() else {
            break;
        };
        let Some(pair) = hellos_of(front) else {
            return Ok(None);
        };
        talks.push(pair)?;
        rest = behind;
    }
    Ok(rest.is_empty().then_some(talks))
}

/// Both hellos.
fn hellos_of(bytes: &[u8; HELLOS_BYTES]) -> Option<Hellos>
    ensures { MatchOption result ((hellos : Hellos) → IsHellos hellos → bytes.now ≢ hellos_bytes hellos) (λ hellos. IsHellos hellos × (bytes.now ≡ hellos_bytes hellos)) }
{
    let (mine, theirs) = bytes.split_at(HELLO_BYTES as usize);
    let Ok(mine) = Hello::read(mine) else {
        return None;
    };
    let Ok(theirs) = Hello::read(theirs) else {
        return None;
    };
    Some(Hellos { mine, theirs })
}

/// What this side answers the one that said this: as in the first of these talks in which it said the same. `None` where it did in none of
/// them. Where these are talks of a replica as it is, it has just this hello for the other side, and nothing to tell it. It costs a
/// walk through the talks.
pub fn idle_answer(talks: &[Hellos], theirs: &Hello) -> Option<Hello>
    ensures answer { IsAnswer talks.now theirs.now result }
    ensures idle { (birth : List ℕ) (s : State Normal) (meetings : BTreeMap ℕ Meeting) → All (AreIdle birth s meetings) talks.now
        → IfSome result (λ mine. AreIdle birth s meetings (record { mine = mine; theirs = theirs.now })) }
{
    for talk in talks {
        if said(talk, theirs) {
            return Some(talk.mine);
        }
    }
    None
}

/// Whether the other side said this.
fn said(talk: &Hellos, theirs: &Hello) -> bool
    ensures { MatchBool result (talk.now.theirs ≡ theirs.now) (talk.now.theirs ≢ theirs.now) }
{
    talk.theirs == *theirs
}
