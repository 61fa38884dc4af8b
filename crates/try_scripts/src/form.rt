//! The forms of knowledge that scripts are run over.
use anyhow::Result;
use mr_forms::PlainKnowledge;
use mr_itemset::{ItemKnowledge, SparingKnowledge};
use mr_script::run_script;
use std::alloc::Global;

/// A form of knowledge that the replicas of a script keep.
#[derive(Clone, Copy, PartialEq, Eq)]
pub enum Form {
    /// Item sets, which learn each version for all items.
    Items,
    /// Those that are sparing with holes.
    Sparing,
    /// Plain knowledge, which learns each version for its item alone.
    Plain,
}

impl Form {
    /// What a script answers over this form: what it prints and then, where one ends it, its fault as
    /// a line.
    pub fn answer(self, alloc: Global, script: &[u8]) -> Result<Vec<u8>> {
        let mut answer = Vec::new(alloc);
        let ended = match self {
            Form::Items => run_script::<ItemKnowledge, _, _>(alloc, script, &mut answer),
            Form::Sparing => run_script::<SparingKnowledge, _, _>(alloc, script, &mut answer),
            Form::Plain => run_script::<PlainKnowledge, _, _>(alloc, script, &mut answer),
        };
        if let Err(fault) = ended {
            let line = format!(in alloc; "fault: {fault}\n")?;
            answer.extend_from_slice(line.as_bytes())?;
        }
        Ok(answer)
    }

    /// What it is called.
    pub fn name(self) -> &'static str {
        match self {
            Form::Items => "item sets",
            Form::Sparing => "sparing knowledge",
            Form::Plain => "plain knowledge",
        }
    }

    /// The kind of the file that says what scripts answer over this form alone.
    pub fn own_kind(self) -> &'static str {
        match self {
            Form::Items => "items.expected",
            Form::Sparing => "sparing.expected",
            Form::Plain => "plain.expected",
        }
    }
}
