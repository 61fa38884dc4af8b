//! How the program ends.
ghost use Rattle.std.specs.Prelude.{◌≡◌, ◌≤◌};
ghost use Rattle.mailfold.specs.Ending.{status_of};

/// How the program ends.
#[derive(Clone, Copy, Debug, PartialEq, Eq)]
pub enum Ending {
    /// All was done.
    Done,
    /// A fault, which standard error was told.
    Stopped,
    /// The command line is wrong.
    WrongCommandLine,
    /// The line of a sync was cut. What came stands.
    Cut,
    /// Another mailfold has the folder open.
    InUse,
}

/// The exit status of an ending, 0 to 4 in the order of the variants.
pub fn exit_of(ending: Ending) -> u8
    ensures status { result ≡ status_of ending }
    ensures within { result ≤ 4 }
{
    match ending {
        Ending::Done => 0,
        Ending::Stopped => 1,
        Ending::WrongCommandLine => 2,
        Ending::Cut => 3,
        Ending::InUse => 4,
    }
}
