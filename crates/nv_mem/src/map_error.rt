//! Why a list of regions is refused.

use thiserror::Error;

/// Why a list of regions is no map, lowest number first.
#[derive(Clone, Copy, Debug, PartialEq, Eq, Error)]
pub enum MapError {
    /// A region's addresses or length are no multiple of 4,096, or its length is 0.
    #[error("1 Unaligned")]
    Unaligned,
    /// Two regions have a guest address or a host address in common.
    #[error("2 Overlap")]
    Overlap,
    /// A region leaves the host's memory, or the 64 bits of a guest's addresses.
    #[error("3 OutsideHost")]
    OutsideHost,
}
