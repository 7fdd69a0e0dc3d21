//! A device with its host, and commands that are given to it by hand.

use crate::hand;
use nv_device::{Device, IDENTIFIERS, Response};
use nv_entry::Status;
use nv_mem::{Host, NoMemory};
use nv_model::limits::{LANE_SIZE, MOST_LANES, RING_SLOTS, SQE_SIZE};
use nv_ring::Ring;
use std::alloc::Global;

/// Where the mediator's area begins.
pub const MEDIATOR: u64 = 0x40_0000;

/// The most bytes that [`Bench::is_filled`] checks.
const ROOM: usize = 12_288;

/// A host and a device.
#[derive(Drop)]
pub struct Bench {
    pub host: Host,
    pub device: Device,
}

/// A physical entry: its opcode, identifier, PRP1, PRP2 and CDW10 to CDW12. FUSE and PSDT are 0, the namespace is 1.
#[derive(Clone, Copy)]
pub struct Entry {
    pub opcode: u8,
    pub identifier: u8,
    pub prp1: u64,
    pub prp2: u64,
    pub cdw10: u32,
    pub cdw11: u32,
    pub cdw12: u32,
}

impl Entry {
    /// One of an opcode with everything else 0.
    pub fn new(opcode: u8) -> Self {
        Entry {
            opcode,
            identifier: 0,
            prp1: 0,
            prp2: 0,
            cdw10: 0,
            cdw11: 0,
            cdw12: 0,
        }
    }

    /// Its 64 bytes.
    pub fn bytes(&self) -> [u8; 64] {
        hand::entry(
            u32::from(self.opcode) | u32::from(self.identifier) << 16,
            1,
            [self.prp1, self.prp2],
            [self.cdw10, self.cdw11, self.cdw12],
        )
    }
}

impl Bench {
    /// A device of so many lanes and blocks over a host of that length; none where no such device may be.
    pub fn new(alloc: Global, len: u64, lanes: u8, blocks: u64) -> Result<Option<Self>, NoMemory> {
        if !Device::fits(MEDIATOR, lanes, blocks) {
            return Ok(None);
        }
        let host = Host::new(alloc, len)?;
        let device = Device::new(alloc, MEDIATOR, lanes, blocks)?;
        Ok(Some(Bench { host, device }))
    }

    /// Stores bytes, and says whether they lie in the host.
    pub fn store(&mut self, addr: u64, bytes: &[u8]) -> bool {
        hand::store(&mut self.host, addr, bytes)
    }

    /// Whether these bytes are at an address.
    pub fn shows(&self, addr: u64, bytes: &[u8]) -> bool {
        hand::shows(&self.host, addr, bytes)
    }

    /// Whether `len` bytes from an address on, [`ROOM`] at most, are this one.
    pub fn is_filled(&self, addr: u64, len: u64, byte: u8) -> bool {
        let mut room = [0; ROOM];
        self.host.holds(addr, len)
            && len <= ROOM as u64
            && self
                .host
                .bytes(addr, len, &mut room)
                .iter()
                .all(|b| *b == byte)
    }

    /// Whether the bytes of a block are all this one, and its mark is as given.
    pub fn block_is(&self, block: u64, byte: u8, kept: bool) -> bool {
        block < self.device.blocks()
            && self.device.block(block).iter().all(|b| *b == byte)
            && self.device.kept(block) == kept
    }

    /// Puts an entry into a slot of a lane's submission ring, and rings the doorbell with the tail after it.
    pub fn enter(&mut self, lane: u8, at: u16, entry: &Entry) -> bool {
        if lane >= self.device.lanes() || lane >= MOST_LANES || at >= RING_SLOTS {
            return false;
        }
        let slot = MEDIATOR + LANE_SIZE * u64::from(lane) + SQE_SIZE * u64::from(at);
        let tail = Ring::new(RING_SLOTS).next(at);
        self.device.ring(lane, tail);
        self.store(slot, &entry.bytes())
    }

    /// Takes the front entry; none where that is not allowed, or no memory is left.
    pub fn take(&mut self, alloc: Global, lane: u8) -> Option<Response> {
        if lane >= self.device.lanes() || !self.device.has_area(&self.host) {
            return None;
        }
        if !self.device.may_take(lane, &self.host) {
            return None;
        }
        self.device.take(alloc, lane, &self.host).ok()
    }

    /// Moves a unit; none where that is not allowed.
    pub fn move_unit(&mut self, lane: u8, slot: u8, number: u64) -> Option<Response> {
        if lane >= self.device.lanes() || slot >= IDENTIFIERS {
            return None;
        }
        if !self.device.may_move(lane, slot, number, &self.host) {
            return None;
        }
        Some(self.device.move_unit(lane, slot, number, &mut self.host))
    }

    /// Posts a completion; none where that is not allowed.
    pub fn post(&mut self, lane: u8, slot: u8) -> Option<Response> {
        if lane >= self.device.lanes() || slot >= IDENTIFIERS || !self.device.has_area(&self.host) {
            return None;
        }
        Some(self.device.post(lane, slot, &mut self.host))
    }

    /// Fails a command; none where that is not allowed.
    pub fn fail(&mut self, lane: u8, slot: u8, status: Status) -> Option<Response> {
        if lane >= self.device.lanes() || slot >= IDENTIFIERS || !self.device.has_area(&self.host) {
            return None;
        }
        if status.is_success() {
            return None;
        }
        Some(self.device.fail(lane, slot, status, &mut self.host))
    }

    /// Whether a command that is entered at a slot is taken, moves so many units in order, and is posted.
    pub fn runs(&mut self, alloc: Global, lane: u8, at: u16, entry: &Entry, units: u64) -> bool {
        if !self.enter(lane, at, entry) || self.take(alloc, lane) != Some(Response::Done) {
            return false;
        }
        for number in 0..units {
            if self.move_unit(lane, entry.identifier, number) != Some(Response::Done) {
                return false;
            }
        }
        self.post(lane, entry.identifier) == Some(Response::Done)
    }
}
