//! Commits.
use crate::hosted::Hosted;
use mr_forms::Knowledge;
use mr_kept::KeptFault;

impl<K: Knowledge> Hosted<K> {
    ghost use Rattle.mr_hosted.specs.Commit.{HostCommits};

    /// Has the host keep all events that wait and behind them all notes, as one batch: [`Hosted::acts`] are what it has to do, and what
    /// was held back is handed out once it has.
    ///
    /// `Unsettled` where the host has acts to do, or one of them failed; else as [`mr_kept::Journaled::commit`]. Nothing is handed out then.
    pub fn commit(&mut self) -> Result<(), KeptFault>
        ensures { HostCommits K.form self.old result self.new }
    {
        // the replica is its log replayed
        let _replica = self.journaled.replica();
        if !self.is_settled() {
            return Err(KeptFault::Unsettled);
        }
        let replies = self.journaled.commit()?;
        self.handed_out = replies;
        Ok(())
    }
}
