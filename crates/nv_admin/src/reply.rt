//! What an event of an admin queue came to.

/// What an event of an admin queue came to.
#[derive(Clone, Copy, Debug, PartialEq, Eq)]
pub enum Admin {
    /// A command, or a deletion that waited, was done.
    Done,
    /// There was nothing to do, and nothing has changed.
    Idle,
    /// The admin completion queue is full, and nothing has changed.
    Held,
}
