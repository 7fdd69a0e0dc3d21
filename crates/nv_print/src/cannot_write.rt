//! The one answer of an output that failed.

use std::io;

/// The output failed, whatever it says.
#[derive(Clone, Copy, Debug, PartialEq, Eq)]
pub struct CannotWrite;

impl From<io::Error> for CannotWrite {
    fn from(_error: io::Error) -> Self {
        CannotWrite
    }
}
