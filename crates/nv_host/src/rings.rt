//! What the host needs for the drive's queues: where each lane's rings lie, and what their doorbells are to have.

ghost use Rattle.std.specs.Prelude.{◌≡◌, ◌+◌, ◌*◌, ◌<◌, ◌≤◌, ℕ, MatchOption, length, option_map, slice_get};
ghost use Rattle.nv_host.specs.Closing.{IsRingAlone};
ghost use Rattle.nv_host.specs.Served.{AreRingsAlone};
ghost use Rattle.nv_laws_sound.specs.Phased.{AreRingsClear};
ghost use Rattle.nv_model.specs.Limits.{page};
ghost use Rattle.nv_model.specs.Memory.{byte_in};
ghost use Rattle.nv_model.specs.Queue.{cqe_size};
ghost use Rattle.nv_world_model.specs.Area.{completion_slot, lane_pages, lane_start, ring_size, submission_slot};

use crate::host_mediator::HostMediator;
use nv_mem::MemoryCell;
use nv_model::limits::{CQE_SIZE, LANE_SIZE, PAGE_SIZE, RING_SLOTS, SUBMISSION_RING_PAGES};

/// How many bytes a lane's completion ring has.
const RING_BYTES: usize = CQE_SIZE as usize * RING_SLOTS as usize;

impl HostMediator {
    /// The slot of a lane's submission ring that the next entry goes to, 0 to 64: what the drive's tail doorbell of the ring is to have. `None` where there
    /// is no such lane.
    pub fn tail(&self, lane: u8) -> Option<u16>
        ensures value { result ≡ slice_get self.now.side.tails lane }
        ensures there { MatchOption result (self.now.setup.lanes ≤ lane) (λ _. lane < self.now.setup.lanes) }
    {
        self.front.tail(lane)
    }

    /// The slot of a lane's completion ring that is read next, 0 to 64: what the drive's head doorbell of the ring is to have. `None` where there is no
    /// such lane.
    pub fn head(&self, lane: u8) -> Option<u16>
        ensures value { result ≡ option_map (λ l. l.head) (slice_get self.now.side.lanes lane) }
        ensures there { MatchOption result (self.now.setup.lanes ≤ lane) (λ _. lane < self.now.setup.lanes) }
    {
        self.front.head(lane)
    }

    /// The host address at which a lane's submission ring begins, of 65 entries of 64 bytes; `None` where there is no such lane.
    pub fn submission_ring(&self, lane: u8) -> Option<u64>
        ensures { MatchOption result (self.now.setup.lanes ≤ lane)
            (λ addr. (lane < self.now.setup.lanes) × (addr ≡ submission_slot self.now.setup.geometry.mediator lane 0)) }
    {
        self.place(lane, 0)
    }

    /// The host address at which a lane's completion ring begins, of 65 entries of 16 bytes; `None` where there is no such lane.
    pub fn completion_ring(&self, lane: u8) -> Option<u64>
        ensures { MatchOption result (self.now.setup.lanes ≤ lane)
            (λ addr. (lane < self.now.setup.lanes) × (addr ≡ completion_slot self.now.setup.geometry.mediator lane 0)) }
    {
        self.place(lane, PAGE_SIZE * SUBMISSION_RING_PAGES)
    }

    /// Zeros are written into the completion rings of all lanes; no other byte changes.
    pub(crate) fn clear_rings<C: MemoryCell>(&self, memory: &mut [C])
        requires { length (C.bytes memory.old) ≡ self.now.setup.host_bytes }
        ensures clear { AreRingsClear self.now.setup (byte_in (C.bytes memory.new)) }
        ensures alone { AreRingsAlone self.now.setup (C.bytes memory.old) (C.bytes memory.new) }
        ensures len { length (C.bytes memory.new) ≡ length (C.bytes memory.old) }
    {
        for lane in 0..self.lanes {
            self.clear_ring(lane, memory);
        }
    }

    // And into that of one.
    fn clear_ring<C: MemoryCell>(&self, lane: u8, memory: &mut [C])
        requires there { lane < self.now.setup.lanes }
        requires lent { length (C.bytes memory.old) ≡ self.now.setup.host_bytes }
        ensures clear { (at : ℕ) → at < cqe_size * ring_size →
            byte_in (C.bytes memory.new) (completion_slot self.now.setup.geometry.mediator lane 0 + at) ≡ 0 }
        ensures alone { IsRingAlone self.now.setup.geometry lane (C.bytes memory.old) (C.bytes memory.new) }
    {
        // With a field comes what is kept of the lane.
        let _known = &self.layout;
        if let Some(ring) = self.completion_ring(lane) {
            C::store(memory, ring, &[0; RING_BYTES]);
        }
    }

    // The host address of a byte of a lane's part of the mediator's area; `None` where there is no such lane.
    fn place(&self, lane: u8, offset: u64) -> Option<u64>
        requires { offset < page * lane_pages }
        ensures { MatchOption result (self.now.setup.lanes ≤ lane)
            (λ addr. (lane < self.now.setup.lanes) × (addr ≡ lane_start self.now.setup.geometry.mediator lane + offset)) }
    {
        if lane >= self.lanes {
            return None;
        }
        let start = self.layout.mediator() + LANE_SIZE * u64::from(lane);
        Some(start + offset)
    }
}
