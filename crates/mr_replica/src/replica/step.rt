//! What one event does.

use super::Replica;
use crate::{Event, Refusal, Reply};
use mr_forms::Knowledge;

impl<K: Knowledge> Replica<K> {
    ghost use Rattle.mr_replica.specs.Step.{Steps, IsDecided};

    /// One event: it is answered and changes the replica, or it is refused and changes nothing.
    ///
    /// An admitted event is one entry of the log. A version that is issued is learned, alone; what it
    /// supersedes leaves the heads and the push-outs. It enters the heads if the replica's filter
    /// selects it, and else the push-outs. A create supersedes nothing. An edit supersedes its bases
    /// and the replica's last own version of the item, with all that these supersede, and each lower
    /// counter of the replica's own.
    ///
    /// A pull opens the next session, of which eight may be open, and makes the request for it: what the
    /// replica selects, and the longest beginning of its fragments that takes at most 8,000,000 bytes.
    ///
    /// A record is taken by the open session that it is for, if it is the next of the stream to which the session
    /// is bound. A known version changes nothing else. An unknown one is learned with what it supersedes, which
    /// leaves the heads and the push-outs, and an item that the replica's filter selects enters the heads. The
    /// end of a full stream teaches what its fragments cover; what these cover and no held vector has leaves
    /// the heads, and no push-outs. The end of a partial one teaches nothing. Either closes the session.
    ///
    /// A receipt is given for a head alone, and changes nothing but the log. To release by one lets go
    /// of the push-outs of its item that are its version, or superseded by it. A replica retires only
    /// once it has no push-outs; after that it admits nothing but what tells others.
    ///
    /// An answer opens the next stream for another replica, of eight at a time. It is full where the replica's
    /// filter covers that of the request, and then keeps what is known at that moment; else it is partial,
    /// and keeps nothing of it. A next gives the stream's next record, of the heads and push-outs as they are
    /// then, and closes the stream with its End.
    ///
    /// The first refusal whose case holds is given, in this order: `Retired`, of all but an
    /// answer, a next and a cut of a stream; then those of what is asked for, for an edit by their numbers, for an
    /// answer `OwnAsk` and then `TooManyStreams`; then `LogFull`, of all but
    /// Retire, which is admitted past a full log once; then those of the forms. Of these,
    /// `TooManyHoles` comes first where there is no vector of what the version supersedes, and then
    /// that or `TooManyItems` where the form of knowledge has no value for what would be known.
    /// A pull, and an answer by a full stream, are refused by `TooManyHoles` where a part of the knowledge has
    /// no vector.
    ///
    /// A record is refused by `NotForMe`, `NoSession`, the session's own reasons and `Forged`, in this order, and
    /// another frame by `NotARecord`; then by the first knowledge that has no value: a version is learned, and
    /// then with what it supersedes, and at the end of a full stream its fragments are merged one by one.
    /// `OutOfMemory` comes only where no other refusal's case holds, or in place of a part that has no vector, or
    /// of the fault of a fragment behind the first.
    ///
    /// It costs searches, a shift of handles in the store, and the vector of what the new version
    /// supersedes; an edit looks at the held revisions of its item alone, and no message is copied. A pull
    /// costs the fragments of what is known, and a next what its record copies; the first record of the heads costs
    /// a short search for each run of their versions where one vector has room for them, else a walk over them. A
    /// record that is received costs what the form takes to learn the version, and the end of a full stream the merge
    /// of its fragments, some searches for each run of versions that the source held, and the test of each other
    /// head.
    pub fn step(&mut self, event: Event) -> Result<Reply, Refusal>
        ensures steps { Steps K.form self.old event result self.new }
        // Memory aside, answer and new replica are one function of replica and event: a replica that is
        // alike, whatever value its knowledge is, has this answer too, and stays alike.
        ensures decided { IsDecided K.form self.old event result self.new }
    {
        match self.step_then(event, |_| Ok(())) {
            Ok((reply, ())) => Ok(reply),
            Err(refusal) => Err(refusal),
        }
    }
}
