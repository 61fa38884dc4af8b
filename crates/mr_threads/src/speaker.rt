//! What a sender's thread does.
ghost use Rattle.std.specs.Prelude.{List, OnOk, OnErr};
ghost use Rattle.mr_threads.specs.Exchange.{Said};
ghost use Rattle.mr_threads.specs.Talk.{Says, SaysInPart, IsNew, SameLanes};

use crate::talk::{Halt, Talk};
use std::sync::Wait;

/// A sender: what it says to a machine, where each letter may rest on what it heard before and on what
/// it does elsewhere, such as over a socket.
pub trait Speaker<E, A>: Drop {
    /// What it needs to begin.
    ghost is_ready: { Self → Type 0 };

    /// Between two states just this was said: letters in order, each with its answer.
    ghost speaks: { Self → List (Said E A) → Self → Type 0 };

    /// It has let go of what it speaks over elsewhere.
    ghost has_hung_up: { Self → Type 0 };

    /// Says all that it has to say.
    ///
    /// `Err` says that it could not go on: memory ran out, its replies were closed, or an answer came
    /// that no machine gives. Of what it said then each letter but the last was answered before the next was posted.
    fn speak<R: Wait>(&mut self, rt: &R, talk: &mut Talk<E, A, R>) -> Result<(), Halt>
        requires ready { is_ready self.old }
        requires new { IsNew talk.old }
        ensures said { OnOk result ((xs : List (Said E A)) × speaks self.old xs self.new × Says talk.old xs talk.new) }
        ensures in_turn { OnErr result (SaysInPart talk.old talk.new) }
        ensures lanes { SameLanes talk.old talk.new };

    /// Lets go of what it speaks over elsewhere, so that nobody waits for it there. It is called once,
    /// also where nothing could be said.
    fn hang_up(&mut self)
        ensures said { (s : Self) (xs : List (Said E A)) → speaks s xs self.old → speaks s xs self.new }
        ensures hung_up { has_hung_up self.new };
}
