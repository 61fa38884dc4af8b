//! Why a script ended before its end.
use mr_command::LineFault;
use thiserror::Error;

/// Why a script ended before its end. Its text is what is printed on standard error.
#[derive(Clone, Copy, Debug, PartialEq, Eq, Error)]
pub enum ScriptFault {
    /// A line can't be run. Lines are counted from 1.
    #[error("line {line}: {fault}")]
    Line { line: u64, fault: LineFault },
    /// The reader failed.
    #[error("read fault")]
    Read,
    /// The writer failed.
    #[error("write fault")]
    Write,
    /// The script has more than 16,777,216 bytes.
    #[error("script too long")]
    TooLong,
}
