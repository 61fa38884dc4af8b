//! The versions of a set, one by one.
ghost use Rattle.std.specs.Prelude.{◌≡◌, ◌||◌, OnOk, IfOk, OnErr, Err};
ghost use Rattle.mr_forms.specs.Sets.{IsSame, is_listed};
ghost use Rattle.mr_forms.specs.Runs.{in_run, HasVersionsAlone};

use crate::{FormFault, Run, VersionSet};
use mr_version::Version;
use std::alloc::Global;

/// Lists the versions of a run too.
pub(crate) fn push_run(versions: &mut Vec<Version>, run: Run) -> Result<(), FormFault>
    ensures ok { OnOk result (IsSame (is_listed versions.new.items) (λ v. in_run run v || is_listed versions.old.items v)) }
    ensures versions { HasVersionsAlone (is_listed versions.old.items) → OnOk result (HasVersionsAlone (is_listed versions.new.items)) }
    ensures memory { OnErr result (result ≡ Err FormFault.OutOfMemory) }
{
    for counter in run.first..run.last + 1 {
        if let Ok(version) = Version::try_new(run.author, counter) {
            versions.push(version)?;
        }
    }
    Ok(())
}

/// The versions of a set, of any form, one by one.
pub(crate) fn versions_in<S: VersionSet>(set: &S, alloc: Global) -> Result<Vec<Version>, FormFault>
    ensures ok { IfOk result (λ versions. IsSame (is_listed versions.items) (S.has set.now)) }
    ensures versions { IfOk result (λ versions. HasVersionsAlone (is_listed versions.items)) }
    ensures memory { OnErr result (result ≡ Err FormFault.OutOfMemory) }
{
    let mut versions: Vec<Version> = Vec::new(alloc);
    for run in &set.columns()? {
        push_run(&mut versions, *run)?;
    }
    Ok(versions)
}
