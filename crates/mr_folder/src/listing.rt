//! Listings of folders that other programs may change meanwhile.
ghost use Rattle.std.specs.Prelude.{◌≡◌, ◌≤◌, ◌++◌, ◌∷◌, [], ℕ, Bool, IsTrue, IfOk, OnOk, length, map, nat_eq, string_bytes};
ghost use Rattle.std.specs.Cmp.Lexicographic.{pointwise};
ghost use Rattle.mr_folder.specs.Quiet.{Past, TellsChanges, IsStill, KeepTimes, Between, IsSnapshot, texts};
ghost use Rattle.mr_folder.specs.inner.Quiet.{AreTimes, AreNames};

use crate::files::FilesFailed;
use std::alloc::Global;

/// Folders that other programs change as they like, told by their places in a list.
pub trait Folders {
    /// Whether the clauses say what the calls give. Of real folders no clause can say it, so there it is false.
    ghost is_told: { Bool };

    /// What was in the folders at each moment.
    ghost past: { Self → Past };

    /// The moment, as a number that doesn't fall.
    ghost moment: { Self → ℕ };

    /// The time of a folder's last change, as it is at some moment of the call.
    fn time(&mut self, folder: usize) -> Result<u64, FilesFailed>
        ensures told { IsTrue is_told → IfOk result (λ time. Between (moment self.old) (moment self.new) (λ m. time ≡ (past self.old).time m folder)) }
        ensures later { IsTrue is_told → moment self.old ≤ moment self.new }
        ensures same { IsTrue is_told → past self.new ≡ past self.old };

    /// The names of a folder's files. If it is changed meanwhile, they may be any.
    fn names(&mut self, alloc: Global, folder: usize) -> Result<Vec<String>, FilesFailed>
        ensures told { IsTrue is_told → IfOk result (λ names. IsStill (past self.old) folder (moment self.old) (moment self.new)
            → map (λ s. string_bytes s) names.items ≡ (past self.old).names (moment self.old) folder) }
        ensures later { IsTrue is_told → moment self.old ≤ moment self.new }
        ensures same { IsTrue is_told → past self.new ≡ past self.old };

    /// A folder that is changed gets another time.
    ghost tells_changes: { (folders : Self) → IsTrue is_told → TellsChanges (past folders) };
}

/// What was read of the folders.
#[derive(Drop)]
pub struct Listing {
    /// The names of each folder's files.
    pub names: Vec<Vec<String>>,
    /// Whether no folder's time changed meanwhile.
    pub is_quiet: bool,
}

/// Lists the folders: first the time of each, then the names of each, then the times again.
///
/// If no time changed, the names are what all folders had together at one moment: a file that another program moves from
/// one folder to the other is in one of them.
pub fn list<F: Folders>(
    alloc: Global,
    folders: &mut F,
    count: usize,
) -> Result<Listing, FilesFailed>
    ensures snapshot { IsTrue F.is_told → IfOk result (λ listing. IsTrue listing.is_quiet
        → Between (F.moment folders.old) (F.moment folders.new) (IsSnapshot (F.past folders.old) (texts listing.names.items))) }
    ensures quiet { IsTrue F.is_told → KeepTimes (F.past folders.old) count (F.moment folders.old) (F.moment folders.new)
        → IfOk result (λ listing. IsTrue listing.is_quiet) }
    ensures count { IfOk result (λ listing. length listing.names.items ≡ count) }
    ensures later { IsTrue F.is_told → F.moment folders.old ≤ F.moment folders.new }
    ensures same { IsTrue F.is_told → F.past folders.new ≡ F.past folders.old }
{
    let before = times(alloc, folders, count)?;
    let names = names(alloc, folders, count)?;
    let after = times(alloc, folders, count)?;
    let is_quiet = are_same(&before, &after);
    Ok(Listing { names, is_quiet })
}

/// Whether the times are the same.
fn are_same(before: &Vec<u64>, after: &Vec<u64>) -> bool
    ensures { result ≡ pointwise nat_eq before.now.items after.now.items }
{
    before.as_slice() == after.as_slice()
}

/// The time of each folder.
fn times<F: Folders>(alloc: Global, folders: &mut F, count: usize) -> Result<Vec<u64>, FilesFailed>
    ensures times { IsTrue F.is_told → IfOk result (λ times. AreTimes (F.past folders.old) (F.moment folders.old) (F.moment folders.new) times.items) }
    ensures count { IfOk result (λ times. length times.items ≡ count) }
    ensures later { IsTrue F.is_told → F.moment folders.old ≤ F.moment folders.new }
    ensures same { IsTrue F.is_told → F.past folders.new ≡ F.past folders.old }
{
    let mut times = Vec::new(alloc);
    for folder in 0..count {
        let time = folders.time(folder)?;
        push(&mut times, time)?;
    }
    Ok(times)
}

/// The names of each folder.
fn names<F: Folders>(
    alloc: Global,
    folders: &mut F,
    count: usize,
) -> Result<Vec<Vec<String>>, FilesFailed>
    ensures names { IsTrue F.is_told → IfOk result (λ names. AreNames (F.past folders.old) (F.moment folders.old) (F.moment folders.new) (texts names.items)) }
    ensures count { IfOk result (λ names. length names.items ≡ count) }
    ensures later { IsTrue F.is_told → F.moment folders.old ≤ F.moment folders.new }
    ensures same { IsTrue F.is_told → F.past folders.new ≡ F.past folders.old }
{
    let mut names = Vec::new(alloc);
    for folder in 0..count {
        let own = folders.names(alloc, folder)?;
        push(&mut names, own)?;
    }
    Ok(names)
}

/// Appends a value. Where no memory is found the listing has failed.
fn push<T: Drop>(values: &mut Vec<T>, value: T) -> Result<(), FilesFailed>
    ensures { OnOk result (values.new.items ≡ values.old.items ++ value ∷ []) }
{
    values.push(value).map_err(|_| FilesFailed)
}
