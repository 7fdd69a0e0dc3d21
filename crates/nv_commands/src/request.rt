//! What the words of the program ask for.

use crate::command::Command;

/// What the words of the program ask for.
#[derive(Clone, Copy, Debug, PartialEq, Eq)]
pub enum Request<'a> {
    /// a command that one thread does and that waits for nobody
    Alone(Command<'a>),
    /// let the guests of a script act in threads of their own, and print what they were shown: a fault of the script or of its set-up is the one
    /// that its definition gives, where it is known what there is to read
    Run,
}
