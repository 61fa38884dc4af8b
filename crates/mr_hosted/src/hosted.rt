//! A replica, its journal, and what the host has done.
ghost use Rattle.std.specs.Prelude.{◌≡◌, MatchOption, true, false};

use crate::act::Act;
use crate::outbox::Outbox;
use mr_forms::Knowledge;
use mr_kept::Journaled;
use mr_replica::{Replica, Reply};

/// A replica that is kept by its host.
#[derive(Drop)]
pub struct Hosted<K: Knowledge> {
    pub(crate) journaled: Journaled<K, Outbox>,
    /// What the last commit hands out once its acts are done.
    pub(crate) handed_out: Vec<Reply>,
    /// How many acts the host has done.
    pub(crate) done: usize,
    /// Whether one failed.
    pub(crate) has_failed: bool,
}

impl<K: Knowledge> Hosted<K> {
    ghost use Rattle.mr_kept.specs.Kept.{replica_of};
    ghost use Rattle.mr_hosted.specs.Hosted.{Failed, Settled, acts_left, handed_out, is_settled, journaled_of, may_show};

    /// What the host has to do to the file, in this order, before anything is shown or handed out.
    pub fn acts(&self) -> &[Act]
        ensures { result.now ≡ acts_left self.now }
    {
        let acts = self.journaled.journal().device().acts();
        &acts[self.done.min(acts.len())..]
    }

    /// The host has done all acts. Where one failed before, that stays so.
    pub fn settle(&mut self)
        ensures { Settled self.old self.new }
    {
        self.done = self.journaled.journal().device().acts().len();
    }

    /// An act failed. Nothing is shown, handed out or kept from now on: read the file and open it again.
    pub fn fail(&mut self)
        ensures { Failed self.old self.new }
    {
        self.has_failed = true;
    }

    /// Whether all acts are done, and none failed.
    pub fn is_settled(&self) -> bool
        ensures { result ≡ is_settled self.now }
    {
        let acts = self.journaled.journal().device().acts();
        !self.has_failed && acts.len() <= self.done
    }

    /// Whether the replica is shown: all acts are done, none failed, and neither an event nor a note waits for a commit.
    pub fn may_show(&self) -> bool
        ensures { result ≡ may_show self.now }
    {
        self.is_settled() && self.journaled.is_kept()
    }

    /// The replica: what it holds, knows and feeds. `None` while the host has acts to do, or events or notes wait for a commit.
    pub fn replica(&self) -> Option<&Replica<K>>
        ensures { MatchOption result (may_show self.now ≡ false) (λ r. (may_show self.now ≡ true) × (r.now ≡ replica_of (journaled_of self.now))) }
    {
        if self.may_show() {
            Some(self.journaled.replica())
        } else {
            None
        }
    }

    /// What the last commit hands out. `None` in the same cases.
    pub fn replies(&self) -> Option<&[Reply]>
        ensures { MatchOption result (may_show self.now ≡ false) (λ r. (may_show self.now ≡ true) × (r.now ≡ handed_out self.now)) }
    {
        if self.may_show() {
            Some(&self.handed_out)
        } else {
            None
        }
    }
}
