//! What a plan that is fed wants next.

/// What a plan under way wants next.
#[derive(Clone, Copy, Debug, PartialEq, Eq)]
pub enum Next {
    /// `len` bytes of the guest's memory from address `addr` on: 1 to 4,096.
    Read {
        /// The guest address of the first byte.
        addr: u64,
        /// How many bytes.
        len: u64,
    },
    /// Nothing: all that it wants was read.
    Done,
}
