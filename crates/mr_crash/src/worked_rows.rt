//! Crashes that were worked out by hand: what is lost, what is left, and what each replica has then. Each row is
//! written down in `specs/` and proved here by computing.

ghost use Rattle.mr_crash.specs.Rows.{LosesVersions, LosesFrames, IsNoCrash};

/// Replica 0 loses a version and an edit; it loses a record and an Ask, so that later ones count anew; and what
/// isn't a crash of that kind, since another replica took the record that is lost.
pub fn crashes()
    ensures loses_versions { LosesVersions }
    ensures loses_frames { LosesFrames }
    ensures is_no_crash { IsNoCrash }
{}
