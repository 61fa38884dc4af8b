//! A sender's thread: it speaks, ends its talk, and hears the rest.
ghost use Rattle.std.specs.Prelude.{◌≡◌, true};
ghost use Rattle.mr_threads.specs.Ends.{VoiceRan};
ghost use Rattle.mr_threads.specs.Talk.{IsNew, SpokeInTurn};

use crate::lanes::finish;
use crate::speaker::Speaker;
use crate::talk::{Talk, hear_out};
use std::sync::Wait;

/// A speaker, and the talk over which it speaks.
#[derive(Drop)]
pub struct Voice<S, E, A, R> {
    pub speaker: S,
    pub talk: Talk<E, A, R>,
}

/// A voice that has run, and whether all was said and heard. It was not where a growth was refused,
/// where its replies were closed too soon, or where an answer came that no machine gives.
#[derive(Drop)]
pub struct VoiceEnd<S, E, A, R> {
    pub voice: Voice<S, E, A, R>,
    pub whole: bool,
}

/// Speaks, finishes its post, hangs up, and takes replies until they are closed, also where it could not say all.
pub fn run_voice<E: Drop, A: Drop, S: Speaker<E, A>, R: Wait>(
    rt: &R,
    mut voice: Voice<S, E, A, R>,
) -> VoiceEnd<S, E, A, R>
    requires ready { S.is_ready voice.speaker }
    requires new { IsNew voice.talk }
    ensures ran { VoiceRan S.speaks voice result }
    ensures in_turn { SpokeInTurn result.voice.talk }
    ensures closed { result.voice.talk.tap.closed ≡ true }
    ensures hung_up { S.has_hung_up result.voice.speaker }
{
    let said = voice.speaker.speak(rt, &mut voice.talk);
    finish(rt, &mut voice.talk.post);
    voice.speaker.hang_up();
    let heard = hear_out(rt, &mut voice.talk);
    VoiceEnd {
        voice,
        whole: said.is_ok() && heard,
    }
}

/// Says nothing: finishes its post, and hangs up. It doesn't wait for its replies to be closed.
pub(crate) fn give_up<E: Drop, A: Drop, S: Speaker<E, A>, R: Wait>(
    rt: &R,
    mut voice: Voice<S, E, A, R>,
) -> VoiceEnd<S, E, A, R>
    ensures ran { VoiceRan S.speaks voice result }
    ensures hung_up { S.has_hung_up result.voice.speaker }
{
    finish(rt, &mut voice.talk.post);
    voice.speaker.hang_up();
    VoiceEnd {
        voice,
        whole: false,
    }
}
