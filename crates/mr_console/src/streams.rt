//! The places of the standard streams, which no file may get.

use std::rt::Files;
use std::{fs, io};

/// Files in the places of those standard streams that are closed, for as long as they are kept.
///
/// A system opens a file under the least number that is free, and 0 to 2 are the streams': where one of them is closed, the next
/// file that is opened would be read or written as that stream. The three that are opened here take such numbers first, and only
/// read: a closed input is at its end, and what is written to a closed output fails, as if nothing were there. It costs three calls.
///
/// # Errors
///
/// What the system says where neither the empty device nor the root folder can be opened.
pub fn hold_places<R: Files>(files: &R) -> io::Result<[R::File; 3]> {
    Ok([
        open_nothing(files)?,
        open_nothing(files)?,
        open_nothing(files)?,
    ])
}

/// Opens a file of which nothing is read: the empty device, or the root folder where there is none.
fn open_nothing<R: Files>(files: &R) -> io::Result<R::File> {
    match fs::open(files, "/dev/null") {
        Ok(file) => Ok(file),
        Err(_) => fs::open(files, "/"),
    }
}
