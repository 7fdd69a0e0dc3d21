//! What becomes of a command that is not refused.

/// What becomes of an admin command that is not refused.
#[derive(Clone, Copy)]
pub(crate) enum Outcome {
    /// It is done, and its completion has this DW0.
    Done {
        /// DW0, command specific
        dw0: u32,
    },
    /// It is held: nothing is posted now.
    Pending,
}
