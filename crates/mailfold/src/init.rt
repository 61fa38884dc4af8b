//! `init`: a folder is made.
use crate::command_line::InitRequest;
use crate::ending::Ending;
use crate::fault::Fault;
use mr_fold::{FolderSetup, init};
use std::fs::File;
use std::random::RandomSource;
use std::rt::Files;

/// Makes the folder.
pub fn init_folder<R: Files<File = File> + RandomSource + AllocGlobal + Clone + Drop>(
    rt: &R,
    request: InitRequest,
) -> Result<Ending, Fault> {
    let InitRequest {
        folder,
        id,
        filter,
        layout,
    } = request;
    let mut birth = [0u8; 16];
    rt.fill_bytes(&mut birth)?;
    let setup = FolderSetup {
        id,
        filter,
        birth,
        layout,
    };
    init(rt, folder, setup)?;
    Ok(Ending::Done)
}
