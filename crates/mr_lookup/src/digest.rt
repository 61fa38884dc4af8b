//! Digests of what is known, and of a message.
ghost use Rattle.std.specs.Prelude.{◌≡◌, ◌≢◌, Err, IfOk, IsErrOf, OnOk};
ghost use Rattle.sha2.specs.Sha256.{sha256};
ghost use Rattle.mr_concise.specs.Fragments.{knowledge_text};
ghost use Rattle.mr_wire.specs.Spelling.{message_bytes};
ghost use Rattle.mr_replica.specs.Fragments.{HasHoleyPart};
ghost use Rattle.mr_lookup.specs.Digest.{IsDigestOf};

use mr_concise::{ConciseVector, knowledge_text};
use mr_forms::{FormFault, Fragment, Knowledge};
use mr_mail::Message;
use mr_replica::Replica;
use mr_wire::parts::{message_len, put_message};
use sha2::{Digest, Sha256};
use std::alloc::{AllocError, Global};

/// What stands between two fragments in a text.
const BETWEEN: &[u8] = b"; ";

/// The text of no fragment.
const NONE: &[u8] = b"-";

/// The SHA-256 (FIPS 180-4) of the text of all that the replica knows, as [`mr_concise::knowledge_text`] spells it. It tells what is known,
/// whatever the replica and in whatever order it learned that: two replicas over one form of knowledge that know the same have one digest.
///
/// `TooManyHoles` and `OutOfMemory` as [`Replica::fragments`]. It costs the fragments, and of their text one fragment's at a time.
pub fn knowledge_digest<K: Knowledge>(
    alloc: Global,
    replica: &Replica<K>,
) -> Result<[u8; 32], FormFault>
    ensures digest { IfOk result (IsDigestOf K.form replica.now.knowledge) }
    ensures few { OnOk result (¬ HasHoleyPart (K.form.is_part replica.now.knowledge)) }
    ensures holes { IsErrOf result FormFault.TooManyHoles → HasHoleyPart (K.form.is_part replica.now.knowledge) }
    ensures items { result ≢ Err FormFault.TooManyItems }
{
    let fragments = replica.fragments()?;
    match text_digest(alloc, &fragments) {
        Ok(digest) => Ok(digest),
        Err(_) => Err(FormFault::OutOfMemory),
    }
}

/// The SHA-256 (FIPS 180-4) of the message as frames and logs spell it, by [`mr_wire::parts::put_message`]: equal messages have one
/// digest.
///
/// It costs the message's bytes, once.
pub fn message_digest(alloc: Global, message: &Message) -> Result<[u8; 32], AllocError>
    ensures { IfOk result (λ digest. digest ≡ sha256 (message_bytes message.now)) }
{
    let mut bytes = Vec::with_capacity(alloc, message_len(message))?;
    put_message(&mut bytes, message)?;
    Ok(Sha256::digest(bytes.as_slice()))
}

/// The digest of the text of the fragments, one after the other.
fn text_digest(alloc: Global, fragments: &[Fragment<ConciseVector>]) -> Result<[u8; 32], AllocError>
    ensures { IfOk result (λ digest. digest ≡ sha256 (knowledge_text fragments.now)) }
{
    if fragments.is_empty() {
        return Ok(Sha256::digest(NONE));
    }
    let mut hasher = Sha256::new();
    hasher.update(knowledge_text(alloc, &fragments[..1])?.as_bytes());
    for i in 1..fragments.len() {
        hasher.update(BETWEEN);
        hasher.update(knowledge_text(alloc, &fragments[i..i + 1])?.as_bytes());
    }
    Ok(hasher.finalize())
}
