//! Where workers sit, and what is known of each.

use crate::device_side::LaneDevice;
use crate::gate::Open;
use crate::given::GrantCopy;
use crate::maker::PlanMaker;
use crate::planning::GuestPlanner;
use crate::reaping::LaneReaper;
use crate::simulated_worlds::{GUESTS, LANES};
use nv_plan::ReadDone;
use std::alloc::{AllocError, Global};

/// A worker, and whether it waits for its bell, and whether that was rung since its last poll.
#[derive(Drop)]
pub(crate) struct Seat<T> {
    pub(crate) worker: T,
    pub(crate) waits: bool,
    pub(crate) is_rung: bool,
}

impl<T> Seat<T> {
    /// One that polls next.
    pub(crate) fn new(worker: T) -> Self {
        Seat {
            worker,
            waits: false,
            is_rung: false,
        }
    }

    /// Whether it polls now: it doesn't wait, its bell was rung, or it has waited long enough.
    pub(crate) fn looks(&self, is_late: bool) -> bool {
        !self.waits || self.is_rung || is_late
    }
}

/// The gate of all planners.
const GATE: &Open = &Open;

/// Where a planner makes its plans, and what it has read and not fed to one: it does so at its next turn, when there may be no memory for it.
#[derive(Drop)]
pub(crate) struct MakerSeat<'a> {
    pub(crate) maker: PlanMaker<'a, Open, Global>,
    pub(crate) read: Option<(u8, ReadDone)>,
}

/// Planners that have polled nothing yet, for each guest on each lane.
pub(crate) fn planners(alloc: Global) -> Result<Vec<Seat<GuestPlanner>>, AllocError> {
    let mut planners = Vec::new(alloc);
    for at in 0..GUESTS * LANES {
        planners.push(Seat::new(GuestPlanner::new(at / LANES, at % LANES)))?;
    }
    Ok(planners)
}

/// Where they make their plans.
pub(crate) fn makers(
    alloc: Global,
    givens: &[GrantCopy],
) -> Result<Vec<MakerSeat<'_>>, AllocError> {
    let mut makers = Vec::new(alloc);
    for given in givens {
        for _lane in 0..LANES {
            makers.push(MakerSeat {
                maker: PlanMaker::new(GATE, alloc, alloc, given),
                read: None,
            })?;
        }
    }
    Ok(makers)
}

/// The physical controller on each lane, which may have been used.
pub(crate) fn devices(alloc: Global, used: &[bool]) -> Result<Vec<Seat<LaneDevice>>, AllocError> {
    let mut devices = Vec::new(alloc);
    for lane in 0..LANES {
        devices.push(Seat::new(LaneDevice::new(lane, was_used(used, lane))))?;
    }
    Ok(devices)
}

// Whether the physical controller took commands on a lane.
fn was_used(used: &[bool], lane: u8) -> bool {
    match used.get(usize::from(lane)) {
        Some(used) => *used,
        None => false,
    }
}

/// The reaper of each lane.
pub(crate) fn reapers(alloc: Global) -> Result<Vec<Seat<LaneReaper>>, AllocError> {
    let mut reapers = Vec::new(alloc);
    for lane in 0..LANES {
        reapers.push(Seat::new(LaneReaper::new(lane)))?;
    }
    Ok(reapers)
}
