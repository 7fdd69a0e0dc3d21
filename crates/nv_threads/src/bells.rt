//! The bells of guests and workers.

use crate::bell::Bell;
use crate::concern::Concern;
use crate::notes::{GUESTS, LANES};
use std::array;

/// A bell for each guest, for each guest's planner, and for the reaper and the physical controller of each lane.
#[derive(Drop)]
pub(crate) struct Bells {
    guests: [Bell; GUESTS],
    planners: [Bell; GUESTS],
    reapers: [Bell; LANES],
    devices: [Bell; LANES],
}

impl Bells {
    /// Bells that were not rung yet.
    pub(crate) fn new() -> Self {
        Bells {
            guests: array::from_fn(|_| Bell::new()),
            planners: array::from_fn(|_| Bell::new()),
            reapers: array::from_fn(|_| Bell::new()),
            devices: array::from_fn(|_| Bell::new()),
        }
    }

    /// The bell of a guest.
    pub(crate) fn guest(&self, guest: u8) -> &Bell {
        &self.guests[usize::from(guest) % GUESTS]
    }

    /// The bell of a guest's planner.
    pub(crate) fn planner(&self, guest: u8) -> &Bell {
        &self.planners[usize::from(guest) % GUESTS]
    }

    /// The bell of a lane's reaper.
    pub(crate) fn reaper(&self, lane: u8) -> &Bell {
        &self.reapers[usize::from(lane) % LANES]
    }

    /// The bell of the physical controller on a lane.
    pub(crate) fn device(&self, lane: u8) -> &Bell {
        &self.devices[usize::from(lane) % LANES]
    }

    /// Rings for all whom an event concerns.
    pub(crate) fn ring(&self, concern: Concern) {
        ring_each(&self.guests, concern.guests);
        ring_each(&self.planners, concern.planners);
        ring_each(&self.reapers, concern.reapers);
        ring_each(&self.devices, concern.devices);
    }

    /// Rings for all.
    pub(crate) fn ring_all(&self) {
        self.ring(Concern {
            guests: u64::MAX,
            planners: u64::MAX,
            reapers: u64::MAX,
            devices: u64::MAX,
        });
    }
}

// Rings the bells of a set.
fn ring_each(bells: &[Bell], called: u64) {
    let mut left = called;
    for bell in bells {
        if left == 0 {
            break;
        }
        if left % 2 == 1 {
            bell.ring();
        }
        left /= 2;
    }
}
