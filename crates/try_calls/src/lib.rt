//! Tests of calls that no program of the gate makes, a module for each crate that they call or for a few of them.
//!
//! A contract can't say that memory is there: a body that always answers "out of memory" is proved
//! too. So the tests named `ample_memory_..` make each call that allocates and that no program of the gate
//! makes, and compare the stated answer. The others are of what no clause says: definitions held against values
//! that were computed elsewhere.
//!
//! A test is proved safe before it runs, and costs the more the longer it is. So each is one
//! call of a helper without clauses, and a comparison; `samples` and `revisions` have what the tests
//! share. A table of cases is no test: it is data of the program `try_scripts`, and two forms
//! of one thing are compared by the program `try_random`, which calls all that both forms have. Scenes of replicas and
//! worlds are data of `try_scenes`.
//! `mr_program` and `mr_hints` are called by the program `try_command_lines`, and `mr_console`, whose
//! functions no other crate can call, is tried by `tools/try-command-lines`.
#![tactic(auto)]

#[cfg(test)]
mod edits;
#[cfg(test)]
mod feed;
#[cfg(test)]
mod filter;
#[cfg(test)]
mod gates;
#[cfg(test)]
mod lookup;
#[cfg(test)]
mod mail;
#[cfg(test)]
mod revisions;
#[cfg(test)]
mod samples;
#[cfg(test)]
mod sessions;
#[cfg(test)]
mod sets;
#[cfg(test)]
mod stores;
#[cfg(test)]
mod streams;
#[cfg(test)]
mod subs;
#[cfg(test)]
mod taps;
#[cfg(test)]
mod version;
#[cfg(test)]
mod wire;
