//! What comes of a job.

use crate::job::Job;
use crate::plan::Plan;

/// What comes of a job: each comes with the job, as it was handed in.
#[derive(Debug, Drop)]
pub enum Planned {
    /// More is wanted: so many bytes from that guest address on, 4,096 at most. The job may be planned again once its transcript
    /// has them.
    Need(Job, u64, u64),
    /// The plan, with the job inside.
    Plan(Plan),
    /// There was no memory for it. The job may be planned again.
    NoMemory(Job),
}
