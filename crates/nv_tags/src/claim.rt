//! What a tag was claimed for.

use nv_entry::Sqe;

/// A command of a guest: the guest's number, the number of the submission queue that it was taken from, and its 64 bytes.
#[derive(Clone, Copy, Debug, PartialEq, Eq)]
pub struct Claim {
    /// The guest.
    pub guest: u8,
    /// The guest's submission queue.
    pub queue: u16,
    /// The command.
    pub entry: Sqe,
}
