//! Where the log and what was kept beside it differ.

use thiserror::Error;

/// The first difference between the log and what ports and workers kept.
#[derive(Clone, Copy, Debug, PartialEq, Eq, Error)]
#[error("mismatch guest {guest} place {place}")]
pub struct Mismatch {
    /// the lowest guest whose calls differ; 255 where the sum of all counts does
    pub guest: u8,
    /// the first place that differs, from 1; 0 where the guest has two ports, and for the sum
    pub place: u64,
}
