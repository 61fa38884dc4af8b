//! Taking the End of a stream.
ghost use Rattle.std.specs.Prelude.{◌≡◌, None, map, filter, All, OnOk, IfOk, IfErr};
ghost use Rattle.mr_wire.specs.Values.{piece_of};
ghost use Rattle.mr_wire.specs.Frames.{IsSent};
ghost use Rattle.mr_session.specs.Stream.{claimed};
ghost use Rattle.mr_replica.specs.Receive.{merged_by, is_unheld};
ghost use Rattle.mr_replica.specs.Issue.{dropped};

use super::Core;
use super::contents::entries_of_left;
use super::parts::Change;
use super::prepare::Prepared;
use crate::{Refusal, Reply};
use mr_concise::ConciseVector;
use mr_feed::Entry;
use mr_forms::{FormFault, Fragment, Knowledge};
use mr_madewith::Revision;
use mr_session::Incoming;
use mr_wire::Record;

// What the End of a full session changes: what is known with its fragments, what leaves the heads, and the
// entries of that. The session of this number is closed.
#[derive(Drop)]
pub struct Ended<K> {
    pub session: u64,
    pub knowledge: K,
    pub left: Vec<Revision>,
    pub entries: Vec<Entry>,
}

impl<K: Knowledge> Core<K> {
    ghost use Rattle.mr_forms.specs.Known.{AreSame, with_pairs};
    ghost use Rattle.mr_replica.specs.Issue.{Fits};
    ghost use Rattle.mr_replica.specs.Receive.{record_refusal, session_for};
    ghost use Rattle.mr_replica.specs.inner.Taking.{RefusesEnding, RefusesMerged};
    ghost use Rattle.mr_replica.specs.Wanting.{FirstFits};
    ghost use Rattle.mr_replica.specs.inner.Prepare.{PreparesEnd};

    // The session is to take the End of its stream, and to be closed.
    pub(crate) fn prepare_end(&self, sent: &Record) -> Result<Prepared<K>, Refusal>
        requires taken { record_refusal self.now sent.now ≡ None }
        requires kept { IsSent sent.now.header sent.now.body }
        ensures { PreparesEnd K.form self.now sent.now (session_for self.now sent.now) result }
    {
        let number = sent.header().session;
        let Some(session) = self.parts.sessions.get(number) else {
            unreachable!()
        };
        if !session.is_full() {
            return Ok(Prepared {
                reply: Reply::Finished,
                change: Change::CloseSession(number),
            });
        }
        let ended = self.ended(number, session)?;
        Ok(Prepared {
            reply: Reply::Finished,
            change: Change::End(ended),
        })
    }

    // What the End of a full session changes.
    fn ended(&self, number: u64, session: &Incoming) -> Result<Ended<K>, Refusal>
        ensures number { IfOk result (λ ended. ended.session ≡ number) }
        ensures fits { OnOk result (All (Fits K.form) (merged_by (K.form.known self.now.knowledge) session.now.know)) }
        ensures first { OnOk result (FirstFits K.form (merged_by (K.form.known self.now.knowledge) session.now.know)) }
        ensures knowledge { IfOk result (λ ended. AreSame (K.form.known ended.knowledge) (with_pairs (K.form.known self.now.knowledge) (claimed session.now.know))) }
        ensures left { IfOk result (λ ended. ended.left.items ≡ filter (is_unheld session.now) self.now.heads) }
        ensures entries { IfOk result (λ ended. ended.entries.items ≡ map dropped (filter (is_unheld session.now) self.now.heads)) }
        ensures refused { IfErr result (RefusesEnding K.form (merged_by (K.form.known self.now.knowledge) session.now.know)) }
    {
        let knowledge = self.merged(session.know())?;
        let left = self
            .parts
            .contents
            .store()
            .unheld(session.know(), session.held())?;
        let entries = entries_of_left(self.alloc, &left)?;
        Ok(Ended {
            session: number,
            knowledge,
            left,
            entries,
        })
    }

    // What is known with what these fragments cover, merged one after the other.
    fn merged(&self, know: &[Fragment<ConciseVector>]) -> Result<K, FormFault>
        ensures ok { IfOk result (λ knowledge. AreSame (K.form.known knowledge) (with_pairs (K.form.known self.now.knowledge) (claimed (map piece_of know.now)))) }
        ensures fits { OnOk result (All (Fits K.form) (merged_by (K.form.known self.now.knowledge) (map piece_of know.now))) }
        ensures first { OnOk result (FirstFits K.form (merged_by (K.form.known self.now.knowledge) (map piece_of know.now))) }
        ensures refused { IfErr result (RefusesMerged K.form (merged_by (K.form.known self.now.knowledge) (map piece_of know.now))) }
    {
        self.parts.knowledge.with_fragments(know)
    }
}
