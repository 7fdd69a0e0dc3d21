//! What a reading answers that is fed part by part.

use nv_entry::Status;

/// What a parse wants next, or how it ended.
#[derive(Clone, Copy, Debug, PartialEq, Eq)]
pub enum Want {
    /// The bytes of the guest's memory that are there, 4,096 at most.
    Read {
        /// The guest address of the first byte.
        addr: u64,
        /// How many bytes there are.
        len: u32,
    },
    /// The list is read: it names the bytes of the transfer.
    Done,
    /// The list is refused, with this status.
    Fault(Status),
    /// The list has more descriptors than may be read.
    TooLong,
}
