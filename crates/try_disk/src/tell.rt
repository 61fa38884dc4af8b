//! What replicas hold, as it is told.
use mr_forms::Knowledge;
use mr_replica::{Replica, Revision};
use std::alloc::AllocError;

/// Adds what a replica holds: how many events its log has, its heads and push-outs, and how many sessions and streams are open.
pub fn push_held<K: Knowledge>(text: &mut String, replica: &Replica<K>) -> Result<(), AllocError> {
    let events = replica.log().len();
    write!(text, "log {events}; heads")?;
    push_revisions(text, replica.heads())?;
    text.push_str("; push-outs")?;
    push_revisions(text, replica.push_outs())?;
    let sessions = replica.open_sessions()?.len();
    let streams = replica.open_streams()?.len();
    let end = if replica.is_retired() {
        ", retired"
    } else {
        ""
    };
    write!(text, "; open {sessions} {streams}{end}")
}

/// Adds the versions of the revisions and their subjects.
fn push_revisions(text: &mut String, revisions: &[Revision]) -> Result<(), AllocError> {
    for revision in revisions {
        let version = revision.version();
        let subject = revision.message().subject();
        write!(text, " {version}={subject}")?;
    }
    Ok(())
}
