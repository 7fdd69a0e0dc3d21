//! A guest's controller with its map and a host.

ghost use Rattle.std.specs.Prelude.{◌≡◌, length};

use crate::admin::command::Command;
use nv_admin::{Admin, admin};
use nv_entry::StatusCode;
use nv_mem::{GuestMap, Region};
use nv_model::limits::QUEUE_COUNT;
use nv_vctl::{Posted, Vctl};
use std::alloc::Global;
use std::marker::Model;
use std::test::Fail;

/// How many bytes the host has.
const HOST_LEN: u64 = 0x20_0000;

/// How many blocks the namespace has.
const BLOCKS: u64 = 64;

/// Create I/O Completion Queue 1: 16 slots at 12000h, CID 1.
const NEW_COMPLETION_QUEUE: Command = Command {
    dword0: 0x0001_0005,
    nsid: 0,
    prp1: 0x1_2000,
    prp2: 0,
    cdw10: 0x000f_0001,
    cdw11: 1,
};

/// Create I/O Submission Queue 1: 16 slots at 13000h, completed to completion queue 1, CID 2.
const NEW_SUBMISSION_QUEUE: Command = Command {
    dword0: 0x0002_0001,
    nsid: 0,
    prp1: 0x1_3000,
    prp2: 0,
    cdw10: 0x000f_0001,
    cdw11: 0x0001_0001,
};

/// A guest whose memory of 20000h bytes lies at 100000h in the host. Its controller's queues lie in the map.
#[derive(Drop)]
pub(crate) struct Bench {
    vctl: Vctl,
    map: GuestMap,
    host: Vec<u8>,
}

impl Model for Bench {
    ghost use Rattle.std.specs.Prelude.{◌≡◌, length};
    ghost use Rattle.nv_mem.specs.GuestMap.{mapped};
    ghost use Rattle.nv_model.specs.Laws.{QueuesInPlace};

    ghost Value = { Unit {0} };

    ghost view = { λ _. tt };

    ghost invariant = { λ b. (b.map.host_len ≡ length b.host.items) × QueuesInPlace (mapped b.map.regions) b.vctl };
}

impl Bench {
    /// A guest with a new controller, and memory of zeros.
    pub(crate) fn new(alloc: Global) -> Result<Self, Fail> {
        Bench::in_host(alloc, HOST_LEN)
    }

    // One in a host of so many bytes.
    fn in_host(alloc: Global, host_len: u64) -> Result<Self, Fail> {
        let region = Region {
            guest: 0,
            host: 0x10_0000,
            len: 0x2_0000,
        };
        let regions = vec![in alloc; region]?;
        let map = GuestMap::new(host_len, regions)?;
        let host = vec![in alloc; 0; host_len as usize]?;
        let vctl = Vctl::new();
        Ok(Bench { vctl, map, host })
    }

    /// Stores bytes from a guest address on, and says whether they are mapped.
    pub(crate) fn store(&mut self, addr: u64, bytes: &[u8]) -> bool {
        if !self.map.holds(addr, bytes.len() as u64) {
            return false;
        }
        nv_bounce::store(bytes, addr, &self.map, &mut self.host);
        true
    }

    /// Whether these bytes are in memory from a guest address on.
    pub(crate) fn shows(&self, addr: u64, bytes: &[u8]) -> bool {
        for (at, byte) in bytes.iter().enumerate() {
            if self.byte(addr.wrapping_add(at as u64)) != Some(*byte) {
                return false;
            }
        }
        true
    }

    // The byte in memory at a guest address; none where it is not mapped.
    fn byte(&self, addr: u64) -> Option<u8> {
        if !self.map.holds(addr, 1) {
            return None;
        }
        let mut bytes = [0; 1];
        nv_bounce::load(addr, &self.map, &self.host, &mut bytes);
        Some(bytes[0])
    }

    /// The dword in memory at a guest address; none where it is not mapped.
    pub(crate) fn dword(&self, addr: u64) -> Option<u32> {
        if !self.map.holds(addr, 4) {
            return None;
        }
        let mut bytes = [0; 4];
        nv_bounce::load(addr, &self.map, &self.host, &mut bytes);
        Some(u32::from_le_bytes(bytes))
    }

    /// The interrupt vectors that are pending, by the number of the completion queue.
    pub(crate) fn pending(&self) -> [Option<u16>; QUEUE_COUNT] {
        self.vctl.pending()
    }

    /// Writes a register, and says whether the write was taken.
    pub(crate) fn write(&mut self, offset: u32, value: u32) -> bool {
        self.vctl.reg_write(offset, value, &self.map)
    }

    /// Rings a doorbell, and says whether the write was taken.
    pub(crate) fn ring(&mut self, offset: u32, value: u32) -> bool {
        self.vctl.doorbell(offset, value)
    }

    /// One event of the admin queue.
    pub(crate) fn admin(&mut self) -> Admin {
        admin(&mut self.vctl, BLOCKS, &self.map, &mut self.host)
    }

    /// Takes the front command of a queue, and says whether there was one.
    pub(crate) fn take(&mut self, queue: u16) -> bool {
        if !self.vctl.waits(queue) || !self.vctl.counts_more(queue) {
            return false;
        }
        self.vctl.took(queue);
        true
    }

    /// Posts the success of a taken command, and says whether one was taken and there was room.
    pub(crate) fn post(&mut self, queue: u16, cid: u16) -> bool {
        if !self.vctl.is_ready() || self.vctl.taken(queue) == 0 {
            return false;
        }
        let status = StatusCode::Success.status();
        self.vctl
            .post_cqe(queue, 0, cid, status, &self.map, &mut self.host)
            == Posted::Done
    }

    /// Enables the controller with admin queues of these sizes, counted from 0, as AQA has them: submissions at 10000h, completions
    /// at 11000h.
    pub(crate) fn enable(&mut self, sizes: u32) -> bool {
        let registers = [
            (0x24, sizes),
            (0x28, 0x1_0000),
            (0x30, 0x1_1000),
            (0x14, 0x0046_0001),
        ];
        for (offset, value) in registers {
            if !self.write(offset, value) {
                return false;
            }
        }
        true
    }

    /// Enters commands into the admin queue from slot `at` on, and rings the doorbell with the tail after them.
    pub(crate) fn enter(&mut self, at: u32, commands: &[Command]) -> bool {
        let mut slot = at;
        for command in commands {
            if slot >= 31 || !self.store(0x1_0000 + 64 * u64::from(slot), &command.bytes()) {
                return false;
            }
            slot += 1;
        }
        self.ring(0x1000, slot)
    }

    /// Brings the controller up: enables it, and creates queue pair 1.
    pub(crate) fn bring_up(&mut self) -> bool {
        self.enable(0x001f_001f)
            && self.enter(0, &[NEW_COMPLETION_QUEUE, NEW_SUBMISSION_QUEUE])
            && self.admin() == Admin::Done
            && self.admin() == Admin::Done
    }

    /// Whether a completion in the first pass is in a slot of the admin completion queue, with this DW0 and last dword.
    pub(crate) fn completed(&self, slot: u64, dw0: u32, dword3: u32) -> bool {
        slot < 32
            && self.shows(0x1_1000 + 16 * slot, &dw0.to_le_bytes())
            && self.shows(0x1_100c + 16 * slot, &dword3.to_le_bytes())
    }
}

/// A guest whose controller was brought up, as the test of that asserts.
pub(crate) fn brought_up(alloc: Global) -> Result<Bench, Fail> {
    let mut bench = Bench::new(alloc)?;
    let _up = bench.bring_up();
    Ok(bench)
}
