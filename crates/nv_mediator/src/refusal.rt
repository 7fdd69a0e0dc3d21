//! Why a set-up makes no world.

use thiserror::Error;

/// Why a set-up makes no world, lowest number first.
#[derive(Clone, Copy, Debug, PartialEq, Eq, Error)]
pub enum Refusal {
    /// There are more than 16 guests.
    #[error("1 TooManyGuests")]
    TooManyGuests,
    /// Two extents, of one guest or of two, have a block in common.
    #[error("2 RangesMeet")]
    ExtentsMeet,
    /// Two guests' memories have a byte of the host in common, or one and the mediator's area.
    #[error("3 MapsMeet")]
    MapsMeet,
    /// A size is beyond its limits, the area or an extent doesn't fit, a guest has no extent or too many, or a map was made for another host.
    #[error("4 BadSize")]
    BadSize,
    /// Memory was refused.
    #[error("5 NoMemory")]
    NoMemory,
}
