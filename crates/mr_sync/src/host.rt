//! An open folder as a talk sees it.
ghost use Rattle.std.specs.Prelude.{◌≡◌, ◌≢◌, ℕ, true, false, List, length, not, is_some, option_map, Some, Err, IfErr, IfOk, IfSome, IsTrue, MatchOption, IsSome, OnErr, OnOk};
ghost use Rattle.std.specs.Option.{option_copied};
ghost use Rattle.mr_folder.specs.Store.{IsSound};
ghost use Rattle.mr_folder.specs.Tree.{IsUntouched};
ghost use Rattle.mr_kept.specs.Kept.{nothing_waits, replica_of};
ghost use Rattle.mr_talk.specs.Turns.{next_of};

use crate::asking::{ask, take_ask};
use crate::ending::{end, meeting_of};
use crate::fault::{SyncFault, answered};
use crate::files::{check_whole, take_file_message};
use crate::hello::{folder_hello, id_of, judge};
use crate::idle::Hellos;
use crate::receipts::take_receipts_message;
use crate::records::take_records_message;
use crate::said::keep_and_say;
use crate::summary::Summary;
use crate::taking::{take_done, take_missing, take_push_outs, take_wants};
use crate::talk::Talk;
use crate::telling::next_said;
use mr_compare::{Digest, Meeting};
use mr_folder::FileTree;
use mr_itemset::SparingKnowledge;
use mr_journal::Device;
use mr_kept::Journaled;
use mr_talk::{Hello, Host, HostFault, Message, Short, Turn};
use std::alloc::Global;
use std::collections::BTreeMap;

/// An open folder while it talks: a kept replica, a tree of files, and what is remembered of others.
#[derive(Drop)]
pub struct FolderHost<D: Device + Drop, F: FileTree + Drop> {
    alloc: Global,
    kept: Journaled<SparingKnowledge, D>,
    files: F,
    meetings: BTreeMap<u16, Meeting>,
    talk: Talk,
    summary: Summary,
}

impl<D: Device + Drop, F: FileTree + Drop> FolderHost<D, F> {
    ghost use Rattle.mr_sync.specs.Host.{HasMet, HasNotMet, HasToTell, IsIdle, IsIdleFaultOf, IsOpened, LacksToo, SameFolder, files_of, journaled_of};
    ghost use Rattle.mr_sync.specs.declared.fault.SyncFault.TheVariants.{OutOfMemory};

    /// A folder that hasn't talked yet, and what it remembers of those that it met, by their ids.
    pub fn new(
        alloc: Global,
        kept: Journaled<SparingKnowledge, D>,
        files: F,
        meetings: BTreeMap<u16, Meeting>,
    ) -> FolderHost<D, F>
        ensures { IsOpened kept files meetings result }
    {
        FolderHost {
            alloc,
            kept,
            files,
            meetings,
            talk: Talk::new(alloc),
            summary: Summary::new(),
        }
    }

    /// Has the talk want this file of the other side too: one that the folder lacks from before. Where some file is wanted, no talk ends
    /// with the hellos.
    pub fn want(&mut self, digest: Digest) -> Result<(), SyncFault>
        ensures lacking { OnOk result (LacksToo digest self.old self.new) }
        ensures unchanged { OnErr result (SameFolder self.old self.new) }
        ensures fault { IfErr result (λ fault. fault ≡ OutOfMemory) }
    {
        self.talk.arriving.lacking.insert(digest)?;
        Ok(())
    }

    /// The meeting with the other side at this time, in seconds since 1970, if each side said that it has nothing open. It is to be
    /// noted where the talk came to its end.
    pub fn met(&self, time: u64) -> Option<Meeting>
        ensures { MatchOption result (HasNotMet self.now) (HasMet self.now time) }
    {
        let theirs = self.talk.theirs?;
        let mine = self.talk.mine?;
        let knows = self.talk.knows?;
        Some(meeting_of(&theirs, &mine, &knows, time))
    }

    /// The hellos by which there is nothing to tell: what is to be noted where the talk ended with them. `None` where the other side hasn't said
    /// its own, where the folder lacks files, and where there is something to tell. A fault is why nothing may be told to that side, or
    /// `OutOfMemory`. It costs what a hello costs.
    pub fn idle_hellos(&self) -> Result<Option<Hellos>, SyncFault>
        ensures found { IfOk result (λ found. MatchOption found (HasToTell self.now) (IsIdle self.now)) }
        ensures fault { IfErr result (IsIdleFaultOf self.now) }
    {
        let Some(theirs) = self.talk.theirs else {
            return Ok(None);
        };
        if self.talk.arriving.lacks() {
            return Ok(None);
        }
        let (mine, is_idle) = judge(self.alloc, &self.kept, &self.meetings, false, &theirs)?;
        Ok(is_idle.then_some(Hellos { mine, theirs }))
    }

    /// What came and went so far.
    pub fn summary(&self) -> Summary {
        let mut summary = self.summary;
        summary.told = self.talk.leaving.said.told;
        summary.taken = self.talk.arriving.taken;
        summary.files_sent = self.talk.leaving.files;
        summary.files_came = self.talk.arriving.files;
        summary.files_missing = self.talk.arriving.missing;
        summary.vouched = self.talk.vouched;
        summary
    }

    /// The folder's parts again, and what came and went. A file that has no end yet is given up.
    pub fn into_parts(self) -> (Journaled<SparingKnowledge, D>, F, Summary)
        ensures journaled { result.0 ≡ journaled_of self }
        ensures files { result.1 ≡ files_of self }
    {
        let summary = self.summary();
        let FolderHost { kept, files, .. } = self;
        (kept, files, summary)
    }
}

impl<D: Device + Drop, F: FileTree + Drop> Host for FolderHost<D, F> {
    ghost use Rattle.mr_sync.specs.Fault.{IsToldFor};
    ghost use Rattle.mr_sync.specs.Files.{GoesWith, KeepsFile, LacksLess, Stores};
    ghost use Rattle.mr_sync.specs.Host.{AsksOf, EndsBehind, GoesOnBehind, IsAskFaultOf, IsEndFaultOf, IsHelloFaultOf, IsHelloFrom, IsMeetFaultOf, JudgesOf, SameFolder, SameOthers, TakesAskOf, TakesReceiptsOf, WantsNoMore, coming_of, files_of, journaled_of, knows_of, lacking_of, last_of, log_of, theirs_of, waiting_of, wants_of};
    ghost use Rattle.mr_sync.specs.Lists.{IsDigest, IsPushOut, ReadsList, push_out_bytes};
    ghost use Rattle.mr_folder.proofs.KeepLemmas.{keeps_on as mails_on, keeps_still as mails_still};
    ghost use Rattle.mr_sync.specs.Steps.{FolderSteps, KeepsFolder};
    ghost use Rattle.mr_talk.specs.Host.{Asks, Closes, Gives, Greets, Keeps, KeepsFiles, Meets, Takes};
    ghost use Rattle.mr_talk.specs.declared.kind.Kind.TheVariants as kind;
    ghost use Rattle.mr_sync.specs.Taken.{AllStay, GrowsOnlyByTheirs, LetsGoFor, TakesNamed, TakesPushOuts, TakesRecordOf, TakesWants};
    ghost use Rattle.mr_sync.specs.declared.fault.SyncFault.TheVariants.{BadList, HalfFile};

    ghost steps = { FolderSteps F.is_told F.seen F.may_leave F.moment F.left_since };

    ghost waits = { λ h. not (nothing_waits h.kept) };

    ghost files_wait = { λ h. is_some h.talk.coming };

    ghost keeps = { KeepsFolder F.is_told F.seen F.may_leave F.moment F.left_since };

    ghost keeps_still = { λ host told. mails_still (files_of host) (F.only_now (files_of host)) };

    ghost keeps_on = { λ old between new first second told. mails_on (first told) (second told) };

    ghost keeps_step = { λ old act new step. step.keeps };

    fn keep(&mut self) -> Result<(), HostFault>
        ensures kept { OnOk result (nothing_waits (journaled_of self.new) ≡ true) }
        ensures replica { replica_of (journaled_of self.new) ≡ replica_of (journaled_of self.old) }
        ensures files { files_of self.new ≡ files_of self.old }
        ensures others { SameOthers self.old self.new }
        ensures step { FolderSteps F.is_told F.seen F.may_leave F.moment F.left_since self.old (Keeps result) self.new }
    {
        let kept = keep_and_say(self.alloc, &mut self.kept, &mut self.talk.leaving.said);
        answered(self.alloc, kept)
    }

    fn keep_files(&mut self) -> Result<(), HostFault>
        ensures whole { OnOk result (is_some (coming_of self.new) ≡ false) }
        ensures unchanged { self.new ≡ self.old }
        ensures fault { IfErr result (λ fault. IsToldFor (λ of. (of ≡ HalfFile) × IsTrue (is_some (coming_of self.old))) fault.number) }
        ensures step { FolderSteps F.is_told F.seen F.may_leave F.moment F.left_since self.old (KeepsFiles result) self.new }
    {
        let whole = check_whole(&self.talk.coming);
        answered(self.alloc, whole)
    }

    fn hello(&mut self, theirs: Option<&Hello>) -> Result<Hello, HostFault>
        ensures is { IfOk result (IsHelloFrom self.new (option_map (λ h. h.id) (option_copied theirs.entry))) }
        ensures unchanged { self.new ≡ self.old }
        ensures fault { IfErr result (λ fault. IsToldFor (IsHelloFaultOf self.old) fault.number) }
        ensures step { FolderSteps F.is_told F.seen F.may_leave F.moment F.left_since self.old (Greets (option_copied theirs.entry) result) self.new }
    {
        let id = id_of(theirs);
        let hello = folder_hello(self.alloc, &self.kept, self.talk.arriving.lacks(), id);
        answered(self.alloc, hello)
    }

    fn meet(&mut self, theirs: &Hello) -> Result<bool, HostFault>
        ensures judges { IfOk result (JudgesOf self.new theirs.now) }
        ensures noted { theirs_of self.new ≡ Some theirs.now }
        ensures unchanged { SameFolder self.old self.new }
        ensures fault { IfErr result (λ fault. IsToldFor (IsMeetFaultOf self.old theirs.now) fault.number) }
        ensures step { FolderSteps F.is_told F.seen F.may_leave F.moment F.left_since self.old (Meets theirs.now result) self.new }
    {
        self.talk.theirs = Some(*theirs);
        let lacks = self.talk.arriving.lacks();
        let said = judge(self.alloc, &self.kept, &self.meetings, lacks, theirs);
        let told = answered(self.alloc, said)?;
        Ok(told.1)
    }

    fn ask(&mut self) -> Result<Vec<u8>, HostFault>
        ensures asks { IfOk result (λ bytes. AsksOf self.old bytes.items self.new) }
        ensures files { files_of self.new ≡ files_of self.old }
        ensures step { FolderSteps F.is_told F.seen F.may_leave F.moment F.left_since self.old (Asks result) self.new }
    {
        self.summary.is_idle = false;
        let bytes = ask(self.alloc, &mut self.kept, &mut self.talk);
        answered(self.alloc, bytes)
    }

    fn next_message(&mut self, turn: Turn) -> Result<Option<Message>, HostFault>
        ensures in_place { IfOk result (λ found. IfSome found (λ message. IsSome (next_of turn message.kind))) }
        ensures files { IsTrue F.is_told → IsUntouched F.seen F.may_leave F.moment F.left_since (files_of self.old) (files_of self.new) }
        ensures step { FolderSteps F.is_told F.seen F.may_leave F.moment F.left_since self.old (Gives turn result) self.new }
    {
        let next = next_said(
            self.alloc,
            &mut self.kept,
            &mut self.files,
            &mut self.talk,
            turn,
        );
        answered(self.alloc, next)
    }

    fn done(&mut self, turn: Turn) -> Result<Option<Short>, HostFault>
        ensures ends { IfOk result (λ found. MatchOption found (GoesOnBehind turn self.old self.new) (EndsBehind turn self.old self.new)) }
        ensures unchanged { SameFolder self.old self.new }
        ensures fault { IfErr result (λ fault. IsToldFor (IsEndFaultOf turn self.old) fault.number) }
        ensures step { FolderSteps F.is_told F.seen F.may_leave F.moment F.left_since self.old (Closes turn result) self.new }
    {
        let end = end(self.alloc, &self.kept, &mut self.talk, turn);
        answered(self.alloc, end)
    }

    fn take_ask(&mut self, bytes: &[u8]) -> Result<(), HostFault>
        ensures taken { OnOk result (TakesAskOf self.old bytes.now self.new) }
        ensures fault { IfErr result (λ fault. IsToldFor (IsAskFaultOf self.old bytes.now self.new) fault.number) }
        ensures files { files_of self.new ≡ files_of self.old }
        ensures step { FolderSteps F.is_told F.seen F.may_leave F.moment F.left_since self.old (Takes (record { kind = kind.Ask; bytes = bytes.now }) result) self.new }
    {
        let taken = take_ask(self.alloc, &mut self.kept, &mut self.talk, bytes);
        answered(self.alloc, taken)
    }

    fn take_file(&mut self, message: &Message) -> Result<(), HostFault>
        ensures goes { OnOk result (GoesWith message.now.kind message.now.bytes (coming_of self.old) (coming_of self.new)) }
        ensures stores { IsTrue F.is_told → OnOk result (Stores message.now.kind message.now.bytes (coming_of self.old) (F.seen (files_of self.old)) (coming_of self.new) (F.seen (files_of self.new))) }
        ensures keeps { IsTrue F.is_told → IsSound F.seen F.may_leave (files_of self.old)
            → OnOk result (KeepsFile F.seen F.may_leave message.now.kind message.now.bytes (coming_of self.old) (files_of self.old) (files_of self.new)) }
        ensures lacking { OnOk result (LacksLess message.now.kind message.now.bytes (coming_of self.old) (lacking_of self.old) (lacking_of self.new)) }
        ensures journaled { journaled_of self.new ≡ journaled_of self.old }
        ensures others { SameOthers self.old self.new }
        ensures step { FolderSteps F.is_told F.seen F.may_leave F.moment F.left_since self.old (Takes message.now result) self.new }
    {
        let kind = message.kind();
        let bytes = message.bytes();
        let taken = take_file_message(self.alloc, &mut self.files, &mut self.talk, kind, bytes);
        answered(self.alloc, taken)
    }

    fn take_missing(&mut self, digest: &[u8]) -> Result<(), HostFault>
        ensures taken { OnOk result (WantsNoMore digest.now self.old self.new) }
        ensures unchanged { SameFolder self.old self.new }
        ensures fault { IfErr result (λ fault. IsToldFor (λ of. (of ≡ BadList) × ¬ IsDigest digest.now) fault.number) }
        ensures step { FolderSteps F.is_told F.seen F.may_leave F.moment F.left_since self.old (Takes (record { kind = kind.Missing; bytes = digest.now }) result) self.new }
    {
        let taken = take_missing(&mut self.talk, digest);
        answered(self.alloc, taken)
    }

    fn take_records(&mut self, frames: &[u8]) -> Result<(), HostFault>
        requires { is_some (coming_of self.old) ≡ false }
        ensures taken { OnOk result (TakesNamed F.is_told (theirs_of self.old) (last_of self.old) (replica_of (journaled_of self.old)) frames.now (last_of self.new) (replica_of (journaled_of self.new)) (F.seen (files_of self.new)) (lacking_of self.new)) }
        ensures listed { OnOk result (AllStay (lacking_of self.old) (lacking_of self.new)) }
        ensures grows { GrowsOnlyByTheirs TakesRecordOf (theirs_of self.old) (log_of self.old) (log_of self.new) }
        ensures files { IsTrue F.is_told → IsUntouched F.seen F.may_leave F.moment F.left_since (files_of self.old) (files_of self.new) }
        ensures others { SameOthers self.old self.new }
        ensures step { FolderSteps F.is_told F.seen F.may_leave F.moment F.left_since self.old (Takes (record { kind = kind.Records; bytes = frames.now }) result) self.new }
    {
        let taken = take_records_message(
            self.alloc,
            &mut self.kept,
            &mut self.files,
            &mut self.talk,
            frames,
        );
        answered(self.alloc, taken)
    }

    fn take_wants(&mut self, digests: &[u8]) -> Result<(), HostFault>
        ensures taken { OnOk result (TakesWants (wants_of self.old) digests.now (wants_of self.new)) }
        ensures unchanged { SameFolder self.old self.new }
        ensures fault { IfErr result (λ fault. IsToldFor (λ of. ReadsList IsDigest (λ (d : List ℕ). d) digests.now (Err of)) fault.number) }
        ensures step { FolderSteps F.is_told F.seen F.may_leave F.moment F.left_since self.old (Takes (record { kind = kind.Wants; bytes = digests.now }) result) self.new }
    {
        let taken = take_wants(self.alloc, &mut self.talk.leaving.wants, digests);
        answered(self.alloc, taken)
    }

    fn take_push_outs(&mut self, versions: &[u8]) -> Result<(), HostFault>
        ensures taken { OnOk result (TakesPushOuts (waiting_of self.old) versions.now (waiting_of self.new)) }
        ensures unchanged { SameFolder self.old self.new }
        ensures fault { IfErr result (λ fault. IsToldFor (λ of. ReadsList IsPushOut push_out_bytes versions.now (Err of)) fault.number) }
        ensures step { FolderSteps F.is_told F.seen F.may_leave F.moment F.left_since self.old (Takes (record { kind = kind.PushOuts; bytes = versions.now }) result) self.new }
    {
        let taken = take_push_outs(self.alloc, &mut self.talk.waiting, versions);
        answered(self.alloc, taken)
    }

    fn take_receipts(&mut self, frames: &[u8]) -> Result<(), HostFault>
        ensures taken { OnOk result (TakesReceiptsOf self.old frames.now self.new) }
        ensures grows { GrowsOnlyByTheirs LetsGoFor (theirs_of self.old) (log_of self.old) (log_of self.new) }
        ensures files { files_of self.new ≡ files_of self.old }
        ensures others { SameOthers self.old self.new }
        ensures step { FolderSteps F.is_told F.seen F.may_leave F.moment F.left_since self.old (Takes (record { kind = kind.Receipts; bytes = frames.now }) result) self.new }
    {
        let taken = take_receipts_message(self.alloc, &mut self.kept, &mut self.talk, frames);
        let released = answered(self.alloc, taken)?;
        self.summary.released = self.summary.released.saturating_add(released);
        Ok(())
    }

    fn take_done(&mut self, knows: &[u8]) -> Result<(), HostFault>
        ensures knows { OnOk result (knows_of self.new ≡ Some knows.now) }
        ensures unchanged { SameFolder self.old self.new }
        ensures fault { IfErr result (λ fault. IsToldFor (λ of. (of ≡ BadList) × (length knows.now ≢ 16)) fault.number) }
        ensures step { FolderSteps F.is_told F.seen F.may_leave F.moment F.left_since self.old (Takes (record { kind = kind.Done; bytes = knows.now }) result) self.new }
    {
        let taken = take_done(&mut self.talk.knows, knows);
        answered(self.alloc, taken)
    }
}
