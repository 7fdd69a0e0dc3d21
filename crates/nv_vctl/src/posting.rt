//! A completion that is posted.

/// A completion as it goes to the guest's memory (Base Specification 2.0, "Completion Queue Entry").
#[derive(Clone, Copy, Debug, PartialEq, Eq)]
pub struct Posting {
    /// The guest address of its slot in the completion queue.
    pub addr: u64,
    /// Its bytes. The phase tag is in the last dword.
    pub entry: [u8; 16],
}
