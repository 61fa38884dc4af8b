//! Folders in memory, for tests.
ghost use Rattle.std.specs.Prelude.{◌≡◌, ◌≤◌, ◌++◌, ◌∷◌, [], true, map, string_bytes, slice_index_or, IfOk, OnOk};
ghost use Rattle.mr_folder.specs.MemoryFolders.{names_at, past_of, tells};
ghost use Rattle.mr_folder.specs.Quiet.{texts};

use crate::files::FilesFailed;
use crate::listing::Folders;
use std::alloc::Global;

/// Folders in memory that change once, and get another time by that.
#[derive(Drop)]
pub struct MemoryFolders {
    before: Vec<Vec<String>>,
    after: Vec<Vec<String>>,
    calls: u64,
    moment: u64,
}

impl MemoryFolders {
    /// Folders with the first names, which after so many calls have the second ones.
    pub fn new(before: Vec<Vec<String>>, after: Vec<Vec<String>>, calls: u64) -> MemoryFolders
        ensures before { names_at result 0 ≡ (λ folder. slice_index_or (texts before.items) folder []) }
        ensures after { names_at result 1 ≡ (λ folder. slice_index_or (texts after.items) folder []) }
    {
        MemoryFolders {
            before,
            after,
            calls,
            moment: 0,
        }
    }

    /// Counts a call. Behind the last one before the change the folders change.
    fn count(&mut self)
        ensures past { past_of self.new ≡ past_of self.old }
        ensures later { self.old.moment ≤ self.new.moment }
    {
        if self.calls == 0 {
            self.moment = self.moment.max(1);
        } else {
            self.calls -= 1;
        }
    }

    /// A copy of the names that are in a folder now.
    fn names_now(&self, alloc: Global, folder: usize) -> Result<Vec<String>, FilesFailed>
        ensures { IfOk result (λ names. map (λ s. string_bytes s) names.items ≡ names_at self.now self.now.moment folder) }
    {
        if self.moment == 0 {
            names_in(alloc, &self.before, folder)
        } else {
            names_in(alloc, &self.after, folder)
        }
    }
}

/// A copy of the names that are in a folder of these.
fn names_in(
    alloc: Global,
    folders: &Vec<Vec<String>>,
    folder: usize,
) -> Result<Vec<String>, FilesFailed>
    ensures { IfOk result (λ names. map (λ s. string_bytes s) names.items ≡ slice_index_or (texts folders.now.items) folder []) }
{
    if folder < folders.len() {
        copied(alloc, &folders[folder])
    } else {
        Ok(Vec::new(alloc))
    }
}

/// A copy of names.
fn copied(alloc: Global, names: &[String]) -> Result<Vec<String>, FilesFailed>
    ensures { IfOk result (λ copy. map (λ s. string_bytes s) copy.items ≡ map (λ s. string_bytes s) names.now) }
{
    let mut copy = Vec::new(alloc);
    for name in names {
        push_name(alloc, &mut copy, name.as_str())?;
    }
    Ok(copy)
}

/// Appends a name.
fn push_name(alloc: Global, names: &mut Vec<String>, name: &str) -> Result<(), FilesFailed>
    ensures { OnOk result (map (λ s. string_bytes s) names.new.items ≡ map (λ s. string_bytes s) names.old.items ++ name.now ∷ []) }
{
    let name = String::from_str(alloc, name).map_err(|_| FilesFailed)?;
    names.push(name).map_err(|_| FilesFailed)
}

impl Folders for MemoryFolders {
    ghost is_told = { true };

    ghost past = { λ f. past_of f };

    ghost moment = { λ f. f.moment };

    ghost tells_changes = { λ f _. tells f };

    fn time(&mut self, _folder: usize) -> Result<u64, FilesFailed> {
        let now = self.moment;
        self.count();
        Ok(now)
    }

    fn names(&mut self, alloc: Global, folder: usize) -> Result<Vec<String>, FilesFailed> {
        let names = self.names_now(alloc, folder)?;
        self.count();
        Ok(names)
    }
}
