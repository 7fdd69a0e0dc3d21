//! The device: its blocks, its lanes, and what a caller may ask of it.

ghost use Rattle.std.specs.Prelude.{◌≡◌, ◌+◌, ◌<◌, ◌≤◌, ◌↔◌, Bool, List, true, false, nat_lt, replicate, IfOk, IsTrue, length, slice_set};
ghost use Rattle.std.specs.List.{slice_index_or};
ghost use Rattle.nv_model.specs.Queue.{cqe_size, sqe_size};
ghost use Rattle.nv_world_model.specs.SetUp.{most_lanes};
ghost use Rattle.nv_world_model.specs.Area.{completion_slot, lane_start, ring_size, submission_slot};
ghost use Rattle.nv_world_model.specs.Device.{opening_device_lane};
ghost use Rattle.nv_device.specs.Physical.{FitsLimits, HoldsArea, done_where, lane_of, opening_physical, with_lane};

use crate::lane::PhysicalLane;
use crate::response::Response;
use nv_disk::{Blocks, Marks};
use nv_mem::{Host, NoMemory, PAGE_SIZE};
use nv_model::limits::{
    BLOCK_SIZE, CQE_SIZE, LANE_SIZE, MOST_DISK_BLOCKS, MOST_LANES, SQE_SIZE, SUBMISSION_RING_PAGES,
};
use std::alloc::Global;
use std::marker::Model;

/// The physical controller: blocks of 512 bytes with a mark `kept` each, and lanes, whose rings lie in the mediator's area
/// of the host's memory.
#[derive(Debug, Drop)]
pub struct Device {
    /// Where the mediator's area begins.
    pub(crate) mediator: u64,
    pub(crate) disk: Blocks,
    pub(crate) kept: Marks,
    pub(crate) lanes: Vec<PhysicalLane>,
}

impl Model for Device {
    ghost use Rattle.nv_device.specs.Physical.{IsWhole};
    ghost use Rattle.nv_device.specs.State.{Physical};

    ghost Value = { Physical };

    ghost view = { λ d. record { mediator = d.mediator; disk = d.disk; kept = d.kept; lanes = d.lanes.items } };

    ghost invariant = { λ d. IsWhole d.mediator d.disk d.kept d.lanes.items };
}

impl Device {
    /// Whether a device may have so many lanes and blocks, and its area begin there: 1 to 8 lanes, 1 to 2,097,152 blocks, and
    /// an area that begins at a page of 4,096 bytes and ends at 2 to the 64 at the latest. It is what [`Device::new`] requires.
    pub fn fits(mediator: u64, lanes: u8, blocks: u64) -> bool
        ensures { IsTrue result ↔ FitsLimits mediator lanes blocks }
    {
        mediator % PAGE_SIZE == 0
            && 0 < lanes
            && lanes <= MOST_LANES
            && 0 < blocks
            && blocks <= MOST_DISK_BLOCKS
            && u64::MAX - mediator >= LANE_SIZE * u64::from(lanes) - 1
    }

    /// A device whose blocks are zeros, with no mark set, and whose rings are empty, in the area of the host's memory that
    /// begins at `mediator`.
    ///
    /// # Errors
    ///
    /// [`NoMemory`] where memory for the blocks, the marks or the lanes is refused.
    pub fn new(alloc: Global, mediator: u64, lanes: u8, blocks: u64) -> Result<Self, NoMemory>
        requires { FitsLimits mediator lanes blocks }
        ensures { IfOk result (λ device. device ≡ opening_physical mediator lanes blocks) }
    {
        let disk = Blocks::new(alloc, blocks as usize)?;
        let kept = Marks::new(alloc, blocks as usize)?;
        let lanes = new_lanes(alloc, lanes)?;
        Ok(Device {
            mediator,
            disk,
            kept,
            lanes,
        })
    }

    /// How many lanes there are.
    pub fn lanes(&self) -> u8
        ensures value { result ≡ length self.now.lanes }
        ensures most { result ≤ most_lanes }
    {
        let _known = &self.mediator;
        self.lanes.len() as u8
    }

    /// How many blocks there are.
    pub fn blocks(&self) -> u64
        ensures value { result ≡ length self.now.disk }
        ensures marked { length self.now.kept ≡ length self.now.disk }
    {
        let _known = &self.kept;
        self.disk.len() as u64
    }

    /// Whether the area of the device's lanes lies in a host. It is what every call that is lent the host requires.
    pub fn has_area(&self, host: &Host) -> bool
        ensures { IsTrue result ↔ HoldsArea (length host.now) self.now }
    {
        let area = LANE_SIZE * self.lanes.len() as u64;
        area <= host.len() && self.mediator <= host.len() - area
    }

    /// The doorbell of a lane's submission ring: there are entries up to the slot before `tail`.
    pub fn ring(&mut self, lane: u8, tail: u16)
        requires lane { lane < length self.old.lanes }
        requires tail { tail < ring_size }
        ensures { self.new ≡ with_lane lane (record (lane_of self.old lane) { tail = tail }) self.old }
    {
        self.lanes[usize::from(lane)].ring(tail);
    }

    /// The tail of a lane's submission ring, as it was rung: the slot in which the next entry will be.
    pub fn tail(&self, lane: u8) -> u16
        requires { lane < length self.now.lanes }
        ensures value { result ≡ (lane_of self.now lane).tail }
        ensures fits { result < ring_size }
    {
        self.lanes[usize::from(lane)].tail()
    }

    /// The slot of a lane's completion ring that is written next.
    pub fn posted(&self, lane: u8) -> u16
        requires { lane < length self.now.lanes }
        ensures value { result ≡ (lane_of self.now lane).posted }
        ensures fits { result < ring_size }
    {
        self.lanes[usize::from(lane)].posted()
    }

    /// A block becomes kept, as a device may make it at any time. Idle where there is no such block.
    pub fn keep(&mut self, block: u64) -> Response
        ensures response { result ≡ done_where (nat_lt block (length self.old.disk)) }
        ensures state { self.new ≡ record self.old { kept = slice_set self.old.kept block true } }
    {
        if block >= self.disk.len() as u64 {
            return Response::Idle;
        }
        self.kept.set(block as usize, true);
        Response::Done
    }

    /// The bytes of a block.
    pub fn block(&self, block: u64) -> &[u8; BLOCK_SIZE]
        requires { block < length self.now.disk }
        ensures { result.now ≡ slice_index_or self.now.disk block result.now }
    {
        self.disk.block(block as usize)
    }

    /// Whether a block is kept when power is lost.
    pub fn kept(&self, block: u64) -> bool
        requires { block < length self.now.disk }
        ensures { result ≡ slice_index_or self.now.kept block false }
    {
        self.kept.get(block as usize)
    }

    /// Where a slot of a lane's submission ring lies in the host.
    pub(crate) fn submission_slot(&self, lane: u8, at: u16) -> u64
        requires lane { lane < length self.now.lanes }
        requires at { at < ring_size }
        ensures value { result ≡ submission_slot self.now.mediator lane at }
        ensures inside { result + sqe_size ≤ lane_start self.now.mediator (length self.now.lanes) }
    {
        self.mediator + LANE_SIZE * u64::from(lane) + SQE_SIZE * u64::from(at)
    }

    /// Where a slot of a lane's completion ring lies in the host.
    pub fn completion_slot(&self, lane: u8, at: u16) -> u64
        requires lane { lane < length self.now.lanes }
        requires at { at < ring_size }
        ensures value { result ≡ completion_slot self.now.mediator lane at }
        ensures inside { result + cqe_size ≤ lane_start self.now.mediator (length self.now.lanes) }
    {
        self.mediator
            + LANE_SIZE * u64::from(lane)
            + SUBMISSION_RING_PAGES * PAGE_SIZE
            + CQE_SIZE * u64::from(at)
    }
}

/// Lanes whose rings are empty.
fn new_lanes(alloc: Global, count: u8) -> Result<Vec<PhysicalLane>, NoMemory>
    ensures { IfOk result (λ lanes. lanes.items ≡ replicate count opening_device_lane) }
{
    let mut lanes = Vec::with_capacity(alloc, usize::from(count))?;
    for _lane in 0..count {
        lanes.push(PhysicalLane::new(alloc)?)?;
    }
    Ok(lanes)
}
