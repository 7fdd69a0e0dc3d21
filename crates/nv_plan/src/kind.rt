//! What is done with a command.

use nv_entry::Status;

/// What the mediator does with a command.
#[derive(Clone, Copy, Debug, PartialEq, Eq)]
pub enum PlanKind {
    /// A transfer whose bytes the physical command names where they lie in the guest's own memory.
    Direct,
    /// A transfer by way of the mediator's bounce pages. So are the ranges of a Dataset Management, which are stored there translated.
    Bounced,
    /// A physical command that moves no bytes to or from memory.
    NoData,
    /// No physical command: the guest's command ends with this status.
    Answer(Status),
}
