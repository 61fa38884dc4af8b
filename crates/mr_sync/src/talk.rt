//! What a talk has open.
ghost use Rattle.std.specs.Prelude.{◌≡◌, ◌==◌, not, [], None};
ghost use Rattle.std.specs.BTreeSet.{btree_set_len};
ghost use Rattle.mr_sync.specs.Files.{without};

use crate::coming::Coming;
use crate::said::Said;
use crate::sending::Sending;
use crate::vouching::Waiting;
use mr_compare::Digest;
use mr_replica::Received;
use mr_session::AskedOf;
use mr_talk::{Hello, LastFrame, Short};
use std::alloc::Global;
use std::collections::{BTreeMap, BTreeSet, VecDeque};

/// What this side asked for, as far as it came.
#[derive(Drop)]
pub(crate) struct Arriving {
    /// The last frame of a record that came.
    pub(crate) last: LastFrame,
    /// Whether the other side has told all that was asked for.
    pub(crate) is_finished: bool,
    /// The files that records need and that aren't here, and aren't wanted of the other side yet.
    pub(crate) lacking: BTreeSet<Digest>,
    /// The files that are wanted of the other side.
    pub(crate) wanted: BTreeSet<Digest>,
    /// How many bytes came since the records that came were kept.
    pub(crate) unkept: u64,
    /// How many revisions were taken that weren't known.
    pub(crate) taken: u64,
    /// How many files came.
    pub(crate) files: u64,
    /// How many files were wanted that the other side hasn't.
    pub(crate) missing: u64,
}

impl Arriving {
    /// Nothing came yet.
    pub(crate) fn new(alloc: Global) -> Arriving
        ensures { result.lacking.keys ≡ [] }
    {
        Arriving {
            last: LastFrame::new(alloc),
            is_finished: false,
            lacking: BTreeSet::new(alloc),
            wanted: BTreeSet::new(alloc),
            unkept: 0,
            taken: 0,
            files: 0,
            missing: 0,
        }
    }

    /// Whether files are lacking that aren't wanted of the other side yet.
    pub(crate) fn lacks(&self) -> bool
        ensures { result ≡ not (btree_set_len self.now.lacking == 0) }
    {
        !self.lacking.is_empty()
    }

    /// Notes that these bytes came, of a file or of records.
    pub(crate) fn note_bytes(&mut self, bytes: &[u8])
        ensures last { self.new.last ≡ self.old.last }
        ensures lacking { self.new.lacking ≡ self.old.lacking }
    {
        self.unkept = self.unkept.saturating_add(bytes.len() as u64);
    }

    /// Notes what came of a record, and whether that tells a revision.
    pub(crate) fn note(&mut self, is_item: bool, received: Received)
        ensures last { self.new.last ≡ self.old.last }
        ensures lacking { self.new.lacking ≡ self.old.lacking }
    {
        match received {
            Received::Took if is_item => self.taken = self.taken.saturating_add(1),
            Received::Took => {}
            Received::Known => {}
            Received::Finished => self.is_finished = true,
        }
    }

    /// Notes that a file came.
    pub(crate) fn note_file(&mut self, digest: &Digest)
        ensures { self.new.lacking.keys ≡ without digest.now self.old.lacking.keys }
    {
        // it need not have been lacking, nor wanted
        let _ = self.lacking.remove(digest);
        let _ = self.wanted.remove(digest);
        self.files = self.files.saturating_add(1);
    }
}

/// What the other side asked for, as far as it is told.
#[derive(Drop)]
pub(crate) struct Leaving {
    /// The stream that is open for the other side.
    pub(crate) stream: Option<u64>,
    /// What the other side's request claims.
    pub(crate) asked: Option<AskedOf>,
    /// What is kept and to be said.
    pub(crate) said: Said,
    /// The last frame of a record that was said.
    pub(crate) last: LastFrame,
    /// The file that is being sent.
    pub(crate) sending: Option<Sending>,
    /// How many push-outs are told.
    pub(crate) push_outs: usize,
    /// The files that the other side wants.
    pub(crate) wants: VecDeque<Digest>,
    /// How many files were sent.
    pub(crate) files: u64,
}

impl Leaving {
    /// Nothing was asked for yet.
    pub(crate) fn new(alloc: Global) -> Leaving {
        Leaving {
            stream: None,
            asked: None,
            said: Said::new(alloc),
            last: LastFrame::new(alloc),
            sending: None,
            push_outs: 0,
            wants: VecDeque::new(alloc),
            files: 0,
        }
    }
}

/// What a talk has open.
#[derive(Drop)]
pub(crate) struct Talk {
    /// What the other side said of itself.
    pub(crate) theirs: Option<Hello>,
    pub(crate) arriving: Arriving,
    pub(crate) leaving: Leaving,
    /// The file that comes.
    pub(crate) coming: Option<Coming>,
    /// What waits for a receipt at the other side.
    pub(crate) waiting: Waiting,
    /// The number of the turn in which receipts were given last.
    pub(crate) vouched_in: u8,
    /// How many receipts were given.
    pub(crate) vouched: u64,
    /// The digest of what is known here, once this side had nothing open.
    pub(crate) mine: Option<Digest>,
    /// The digest of what the other side knows, once it had nothing open.
    pub(crate) knows: Option<Short>,
}

impl Talk {
    /// Nothing is open yet.
    pub(crate) fn new(alloc: Global) -> Talk
        ensures coming { result.coming ≡ None }
        ensures none_lacking { result.arriving.lacking.keys ≡ [] }
    {
        Talk {
            theirs: None,
            arriving: Arriving::new(alloc),
            leaving: Leaving::new(alloc),
            coming: None,
            waiting: BTreeMap::new(alloc),
            vouched_in: 0,
            vouched: 0,
            mine: None,
            knows: None,
        }
    }
}
