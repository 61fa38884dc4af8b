//! What goes through a lane.

/// An item, or the mark that no further one comes.
#[derive(Drop)]
pub enum Piece<T> {
    /// An item.
    Item(T),
    /// The mark behind the last item.
    End,
}
