//! Whom an event concerns.

use crate::bits::bit;

/// Whom an event may have given something to do: sets of guests, of their planners by the guests' numbers, and of lanes' reapers and
/// physical controllers by the lanes'.
#[derive(Clone, Copy, Debug)]
pub(crate) struct Concern {
    pub(crate) guests: u64,
    pub(crate) planners: u64,
    pub(crate) reapers: u64,
    pub(crate) devices: u64,
}

impl Concern {
    /// Nobody.
    pub(crate) fn nobody() -> Self {
        Concern {
            guests: 0,
            planners: 0,
            reapers: 0,
            devices: 0,
        }
    }

    /// A guest: something was posted to it.
    pub(crate) fn guest(guest: u8) -> Self {
        Concern {
            guests: bit(guest),
            ..Concern::nobody()
        }
    }

    /// A guest's planner: there is something to be taken up.
    pub(crate) fn planner(guest: u8) -> Self {
        Concern::planners(bit(guest))
    }

    /// The planners of a set of guests.
    pub(crate) fn planners(guests: u64) -> Self {
        Concern {
            planners: guests,
            ..Concern::nobody()
        }
    }

    /// A lane's reaper: a completion waits, or a command has ended.
    pub(crate) fn reaper(lane: u8) -> Self {
        Concern {
            reapers: bit(lane),
            ..Concern::nobody()
        }
    }

    /// The physical controller on a lane: an entry waits.
    pub(crate) fn device(lane: u8) -> Self {
        Concern {
            devices: bit(lane),
            ..Concern::nobody()
        }
    }
}
