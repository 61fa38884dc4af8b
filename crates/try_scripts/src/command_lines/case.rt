//! One command line with what it is given, and what comes of it.
use crate::command_lines::process::{Folder, Input, Output, Words};
use anyhow::Result;
use mr_program::run_mailrep;
use std::alloc::Global;
use std::io::{ErrorKind, Write};
use std::sync::Wait;
use std::thread::Threads;

/// What fails, or is not as it should be.
#[derive(Clone, Copy, PartialEq, Eq)]
pub enum Failing {
    Nothing,
    Words,
    Input,
    EndlessInput,
    File,
    FileHidden,
    FileIsFolder,
    Output,
    OutputClosed,
    Errors,
}

impl Failing {
    /// What a table calls so.
    pub fn from_name(name: &str) -> Failing {
        match name {
            "words no text" => Failing::Words,
            "input fails" => Failing::Input,
            "input endless" => Failing::EndlessInput,
            "file fails" => Failing::File,
            "file hidden" => Failing::FileHidden,
            "file is a folder" => Failing::FileIsFolder,
            "output fails" => Failing::Output,
            "output closed" => Failing::OutputClosed,
            "errors fail" => Failing::Errors,
            _ => Failing::Nothing,
        }
    }

    /// How the file can't be read, if it can't.
    fn of_file(self) -> Option<ErrorKind> {
        match self {
            Failing::File => Some(ErrorKind::Other),
            Failing::FileIsFolder => Some(ErrorKind::IsADirectory),
            _ => None,
        }
    }

    /// How the output can't be written, if it can't.
    fn of_output(self) -> Option<ErrorKind> {
        match self {
            Failing::Output => Some(ErrorKind::Other),
            Failing::OutputClosed => Some(ErrorKind::BrokenPipe),
            _ => None,
        }
    }

    /// This kind of failure, if it is what fails.
    fn as_kind(self, failing: Failing, kind: ErrorKind) -> Option<ErrorKind> {
        if self == failing { Some(kind) } else { None }
    }
}

/// A command line with what it is given.
#[derive(Drop)]
pub struct Case {
    /// What the table says of it, line by line.
    pub told: String,
    /// The words, the program's name first.
    pub words: Vec<Vec<u8>>,
    /// Standard input.
    pub input: Vec<u8>,
    /// The file `script`.
    pub file: Vec<u8>,
    pub failing: Failing,
    /// Whether each line of what it prints is shown.
    pub is_whole: bool,
}

/// What comes of a command line.
#[derive(Drop)]
pub struct Said {
    pub status: u8,
    pub output: Vec<u8>,
    pub errors: Vec<u8>,
}

impl Case {
    /// A command line of these words, with bars between them, and nothing else.
    pub fn new(alloc: Global, words: &str) -> Result<Case> {
        let mut all = Vec::new(alloc);
        all.push(Vec::from_slice(alloc, b"mailrep")?)?;
        if !words.trim().is_empty() {
            for word in words.split('|') {
                all.push(Vec::from_slice(alloc, word.trim().as_bytes())?)?;
            }
        }
        Ok(Case {
            told: String::new(alloc),
            words: all,
            input: Vec::new(alloc),
            file: Vec::new(alloc),
            failing: Failing::Nothing,
            is_whole: false,
        })
    }

    /// Runs the program with it, with these threads.
    pub fn run<T: Threads + Wait + Sync + Send + Copy>(
        &self,
        threads: &T,
        alloc: Global,
    ) -> Result<Said> {
        let words = Words {
            words: self.words.as_slice(),
            are_text: self.failing != Failing::Words,
        };
        let folder = Folder {
            script: self.file.as_slice(),
            hides: self.failing == Failing::FileHidden,
            failure: self.failing.of_file(),
        };
        let input = Input {
            rest: self.input.as_slice(),
            failure: self.failing.as_kind(Failing::Input, ErrorKind::Other),
            is_endless: self.failing == Failing::EndlessInput,
        };
        let mut output = Output::new(alloc, self.failing.of_output());
        let mut errors = Output::new(
            alloc,
            self.failing.as_kind(Failing::Errors, ErrorKind::Other),
        );
        let status = run_mailrep(
            &(words, alloc),
            threads,
            &folder,
            input,
            &mut output,
            &mut errors,
        );
        // the system's standard error holds nothing back
        errors.flush()?;
        Ok(Said {
            status,
            output: output.written,
            errors: errors.written,
        })
    }
}
