//! What the device answers to a call.

/// What became of a call: it did what it says, or there was nothing there to do, and nothing has changed.
#[derive(Clone, Copy, Debug, PartialEq, Eq)]
pub enum Response {
    /// It is done.
    Done,
    /// There was nothing there to do.
    Idle,
}
