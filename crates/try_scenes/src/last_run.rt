//! What came of the last run of a node.
use mr_node::{Answer, NodeFault, NodeReplies};

/// What came of a node's run.
#[derive(Clone, Copy)]
pub enum LastRun {
    /// It ran to its end.
    Ended(Counts),
    /// It came to nothing.
    Refused(Refused),
    /// It did not begin, since not all nodes had a thread.
    NoThread,
}

/// How many letters a node had, to how many of them it answered with no refusal, and how many sends and receives the ends of its links
/// made.
#[derive(Clone, Copy)]
pub struct Counts {
    pub letters: usize,
    pub answered: usize,
    pub first_calls: u64,
    pub second_calls: u64,
}

impl Counts {
    /// Of a node with these replies.
    pub fn new(replies: &NodeReplies, first_calls: u64, second_calls: u64) -> Counts {
        let mut counts = Counts {
            letters: 0,
            answered: 0,
            first_calls,
            second_calls,
        };
        counts.add(&replies.user);
        counts.add(&replies.first_link);
        counts.add(&replies.second_link);
        counts
    }

    /// Counts the letters to which these are the answers.
    fn add(&mut self, answers: &[Answer]) {
        let answered = answers.iter().filter(|answer| answer.is_ok()).count();
        self.letters = self.letters.saturating_add(answers.len());
        self.answered = self.answered.saturating_add(answered);
    }
}

/// Why a node came to nothing: the number of its fault, and how many letters, and turns of each link, were handed back.
#[derive(Clone, Copy)]
pub struct Refused {
    pub number: u8,
    pub events: usize,
    pub first_turns: usize,
    pub second_turns: usize,
}

impl Refused {
    /// By this fault.
    pub fn new<C, L, M>(fault: &NodeFault<C, L, M>) -> Refused {
        let number = fault.number();
        match fault {
            NodeFault::NoCapacity(parts) => Refused {
                number,
                events: parts.events.len(),
                first_turns: parts.first_link.turns.len(),
                second_turns: parts.second_link.turns.len(),
            },
            NodeFault::OutOfMemory => Refused {
                number,
                events: 0,
                first_turns: 0,
                second_turns: 0,
            },
        }
    }
}
