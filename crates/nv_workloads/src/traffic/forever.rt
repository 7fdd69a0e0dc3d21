//! Traffic that goes on for ever, in rounds of a million events.

use crate::hosted::{Counted, Hosted};
use crate::random::Random;
use crate::shape::Shape;
use crate::sink::Mediated;
use crate::traffic::Traffic;
use crate::workload::{Failed, traffic_of};
use nv_mem::NoMemory;
use std::alloc::Global;

/// How many events there are in a round, or some more.
pub const ROUND: u64 = 1_000_000;

/// 16 guests on 8 lanes, some of which are hostile or slow: lists with a late fault, full completion queues, resets, and plans that are stale.
const SHAPE: Shape = Shape {
    guests: 16,
    lanes: 8,
    regions: 16,
    host: 0x2000_0000,
    disk: 0x1_0000,
    depth: 32,
    flushes: 32,
    odd: 8,
    large: 8,
    is_awkward: true,
};

/// Traffic that goes on for ever in a mediator without a log.
#[derive(Drop)]
pub struct Forever {
    traffic: Traffic<Mediated<Counted>>,
    seed: u64,
}

impl Forever {
    /// All guests are brought up, and nothing else has happened.
    pub fn new(alloc: Global, seed: u64) -> Result<Self, Failed> {
        let mut traffic = traffic_of::<Counted>(alloc, SHAPE, seed)?;
        traffic.bring_all_up()?;
        Ok(Forever { traffic, seed })
    }

    /// The next round. All are of the same commands, and begin with no command on its way and no completion unseen. So each has as many
    /// events, wants as much memory and takes as long as the others.
    pub fn round(&mut self) -> Result<(), NoMemory> {
        self.traffic.million_of(self.seed)
    }

    /// How many events there were so far, and the digest of what they were answered.
    pub fn so_far(&self) -> (u64, u64) {
        let sink = &self.traffic.sink;
        (sink.events(), sink.digest())
    }
}

impl<W: Hosted + Drop> Traffic<Mediated<W>> {
    // The rounds of two guests that a seed makes, until there were a million events more; then all guests read their completions.
    fn million_of(&mut self, seed: u64) -> Result<(), NoMemory> {
        self.random = Random::new(seed);
        let end = self.sink.events().saturating_add(ROUND);
        for round in 0..ROUND {
            if self.sink.events() >= end {
                break;
            }
            let _made = self.round(round)?;
        }
        for guest in 0..self.shape.guests {
            self.look((guest % 16) as u8)?;
        }
        Ok(())
    }
}
