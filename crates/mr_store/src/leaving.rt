//! Versions that leave a list.
ghost use Rattle.std.specs.Prelude.{◌≡◌, ◌==◌, ◌&&◌, true, false, length};
ghost use Rattle.std.specs.List.{list_any};
ghost use Rattle.mr_version.specs.Name.{Name};
ghost use Rattle.mr_forms.specs.Sets.{is_listed};
ghost use Rattle.mr_store.specs.Leaving.{leaves};

use mr_concise::ConciseVector;
use mr_forms::VersionSet;
use mr_version::Version;

/// Whether the version leaves: it is one of these, or it is below. It costs their comparison, and two
/// binary searches.
pub fn leaves(ones: &[Version], below: &ConciseVector, version: Version) -> bool
    ensures { result ≡ leaves ones.now below.now version }
{
    is_among(ones, version) || below.contains(version)
}

/// Whether nothing leaves, whatever the version: there are none of these, and nothing is below.
#[tactic(auto, using(crate::proofs::LeavingLemmas::none_leaves))]
pub fn none_leave(ones: &[Version], below: &ConciseVector) -> bool
    ensures empty { result ≡ (length ones.now == 0 && length below.now == 0) }
    ensures none { result ≡ true → (v : Name) → leaves ones.now below.now v ≡ false }
{
    ones.is_empty() && below.author_columns().is_empty()
}

/// Whether some of the versions leave.
pub fn some_leave(ones: &[Version], below: &ConciseVector, versions: &[Version]) -> bool
    ensures { result ≡ list_any (leaves ones.now below.now) versions.now }
{
    versions.iter().any(|version| leaves(ones, below, *version))
}

fn is_among(versions: &[Version], version: Version) -> bool
    ensures { result ≡ is_listed versions.now version }
{
    versions.iter().any(|other| version == *other)
}
