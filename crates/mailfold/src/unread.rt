//! What is answered to a command line that asks for nothing that is done.
use crate::command_line::Unread;
use crate::ending::Ending;
use clap::error::ErrorKind;
use mr_filter::FilterFault;

/// Prints help or the version, or tells what is wrong with the command line.
pub fn answer_unread<R: Print + Eprint>(rt: &R, unread: &Unread) -> Ending {
    match unread {
        Unread::Told(error) => answer_told(rt, error),
        Unread::Version(fault) => {
            // the exit status tells it too
            let _ = eprintln!(rt; "mailfold: {fault}");
            Ending::WrongCommandLine
        }
        Unread::Filter(fault) => {
            // the exit status tells it too
            let _ = eprintln!(rt; "mailfold: {fault}");
            ending_of_filter(*fault)
        }
        Unread::Nothing => Ending::WrongCommandLine,
    }
}

fn answer_told<R: Print + Eprint>(rt: &R, error: &clap::Error) -> Ending {
    let printed = error.print(rt);
    match error.kind() {
        ErrorKind::OutOfMemory => Ending::Stopped,
        ErrorKind::DisplayHelp | ErrorKind::DisplayVersion if printed.is_ok() => Ending::Done,
        ErrorKind::DisplayHelp | ErrorKind::DisplayVersion => Ending::Stopped,
        _ => Ending::WrongCommandLine,
    }
}

fn ending_of_filter(fault: FilterFault) -> Ending {
    match fault {
        FilterFault::OutOfMemory => Ending::Stopped,
        _ => Ending::WrongCommandLine,
    }
}
