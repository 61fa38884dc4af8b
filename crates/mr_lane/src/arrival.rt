//! What a desk takes.
use crate::note::Sender;

/// What a take of a desk gives.
#[derive(Debug, PartialEq, Eq, Drop)]
pub enum Arrival<T> {
    /// A letter, with its sender.
    Letter(Sender, T),
    /// The end mark of this sender: nothing more comes of it.
    End(Sender),
    /// Nothing waited.
    Empty,
}

/// The senders whose end marks were taken.
#[derive(Clone, Copy, Drop)]
pub struct Marks {
    pub user: bool,
    pub first_link: bool,
    pub second_link: bool,
}
