//! What became of a completion.

/// Whether a completion was posted.
#[derive(Clone, Copy, Debug, PartialEq, Eq)]
pub enum Posted {
    /// It is posted.
    Done,
    /// The completion queue is full, and nothing has changed.
    Held,
}
