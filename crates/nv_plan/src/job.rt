//! What a plan is made of.

use crate::transcript::Transcript;
use nv_entry::Sqe;

/// A guest's command that was taken and has no plan yet, and what was read of its lists so far.
#[derive(Debug, Drop)]
pub struct Job {
    /// The lane that it was taken by.
    pub lane: u8,
    /// Its tag in that lane.
    pub tag: u8,
    /// The guest's number.
    pub guest: u8,
    /// The command.
    pub sqe: Sqe,
    /// What was read of its lists.
    pub reads: Transcript,
}
