//! A mediator of a host, with the host's memory and what a drive does to it.

ghost use Rattle.std.specs.Prelude.{◌≡◌, IfSome, length};

use nv_bringup::{BLOCKS, BRING_UP, Span, act_of, guest_at, setup_of};
use nv_entry::{Cqe, Sqe, StatusCode};
use nv_host::{Closed, HostMediator, Scope, ShareRefusal, Stray, Worked};
use nv_model::{Act, Reply};
use nv_plan::{Planned, make_plan};
use nv_world_model::Event;
use std::alloc::Global;
use std::marker::Model;

/// The host address of the guest's first byte.
const IMAGE: u64 = 0x10_0000;

/// How many bytes the host has: enough for two lanes.
const HOST: u64 = 0x160_0000;

/// The guest's namespace.
const WHOLE: &[Span] = &[Span {
    base: 1000,
    blocks: BLOCKS,
}];

/// A mediator of one guest and two lanes, and the host's memory.
#[derive(Drop)]
pub struct Bench {
    mediator: HostMediator,
    memory: Vec<u8>,
    alloc: Global,
}

impl Model for Bench {
    ghost use Rattle.std.specs.Prelude.{◌≡◌, length};
    ghost use Rattle.nv_host.specs.Served.{Served};

    ghost Value = { Served };

    ghost view = { λ b. b.mediator };

    ghost invariant = { λ b. length b.memory.items ≡ b.mediator.setup.host_bytes };
}

impl Bench {
    /// At the start; none where memory was refused.
    pub fn new(alloc: Global) -> Option<Self> {
        let guest = guest_at(alloc, HOST, IMAGE, WHOLE)?;
        let guests = vec![in alloc; guest].ok()?;
        let mut memory = memory_of(alloc, HOST)?;
        let mediator = HostMediator::new(alloc, setup_of(HOST, 2, guests), &mut memory).ok()?;
        Some(Bench {
            mediator,
            memory,
            alloc,
        })
    }

    /// The guest acts.
    pub fn act(&mut self, act: &Act) -> Option<Reply> {
        self.mediator.act(self.alloc, 0, act, &mut self.memory).ok()
    }

    /// The guest gets queue pair 1; whether it has.
    pub fn bring_up(&mut self) -> bool {
        for deed in BRING_UP {
            let Ok(act) = act_of(self.alloc, deed) else {
                return false;
            };
            if !matches!(self.act(&act), Some(Reply::Done)) {
                return false;
            }
        }
        matches!(self.admin(), Reply::Done) && matches!(self.admin(), Reply::Done)
    }

    /// The guest stores bytes.
    pub fn store(&mut self, addr: u64, bytes: &[u8]) -> Reply {
        self.mediator.store(0, addr, bytes, &mut self.memory)
    }

    /// The guest loads bytes.
    pub fn load(&self, addr: u64, room: &mut [u8]) -> Reply {
        self.mediator.load(0, addr, room, &self.memory)
    }

    /// An admin command is carried out.
    pub fn admin(&mut self) -> Reply {
        self.mediator.admin(0, &mut self.memory)
    }

    /// A command of queue 1 is taken for a lane.
    pub fn take(&mut self, lane: u8) -> Result<Reply, Closed> {
        self.mediator.take(self.alloc, 0, 1, lane, &self.memory)
    }

    /// Lane 0 is closed.
    pub fn close(&mut self) {
        self.mediator.close(0, &mut self.memory);
    }

    /// A part of the list of tag 0's command is read.
    pub fn list(&mut self, addr: u64, len: u64) -> Option<Reply> {
        let answer = self
            .mediator
            .list(self.alloc, 0, 0, addr, len, &self.memory)
            .ok()?;
        Some(answer.0)
    }

    /// The command of a tag of a lane is planned and carried out.
    pub fn submit(&mut self, lane: u8, tag: u8) -> Option<Reply> {
        self.mediator
            .submit(self.alloc, lane, tag, &mut self.memory)
            .ok()
    }

    /// The same by a plan that is made of its job.
    pub fn submit_plan(&mut self) -> Option<Reply> {
        let job = self.mediator.job(self.alloc, 0, 0).ok()??;
        let map = self.mediator.map(0)?;
        let range = self.mediator.range(0)?;
        let limit = self.mediator.limit(0)?;
        match make_plan(self.alloc, self.alloc, job, map, range, limit) {
            Planned::Plan(plan) => self.mediator.submit_plan(plan, &mut self.memory),
            Planned::Need(_, _, _) | Planned::NoMemory(_) => None,
        }
    }

    /// A completion is read.
    pub fn reap(&mut self) -> Result<Reply, Stray> {
        self.mediator.reap(0, &self.memory)
    }

    /// The command of a tag of lane 0 is completed.
    pub fn post(&mut self, tag: u8) -> Reply {
        self.mediator.post(0, tag, &mut self.memory)
    }

    /// What is due of a scope is carried out.
    pub fn work(&mut self, scope: Scope, most: u64) -> Worked {
        self.mediator
            .work(self.alloc, scope, most, &mut self.memory)
    }

    /// A guest gets a share.
    ///
    /// # Errors
    ///
    /// Why not.
    pub fn share(&mut self, guest: u8, tags: u32) -> Result<(), ShareRefusal> {
        self.mediator.set_share(guest, tags)
    }

    /// Whether an event is due.
    pub fn due(&self, event: &Event) -> bool {
        self.mediator.due(event, &self.memory)
    }

    /// The mediator.
    pub fn mediator(&self) -> &HostMediator {
        &self.mediator
    }

    /// The drive completes the command with that identifier with success, in that slot of the completion ring, at the ring's first pass; whether the slot
    /// is in memory.
    pub fn complete(&mut self, slot: u16, identifier: u16) -> bool {
        let Some(ring) = self.mediator.completion_ring(0) else {
            return false;
        };
        let from = ring.wrapping_add(16 * u64::from(slot)) as usize;
        let entry = Cqe::new(0, 0, 1, identifier, true, StatusCode::Success.status());
        let to = from.wrapping_add(16);
        if to < from || self.memory.len() < to {
            return false;
        }
        self.memory[from..to].copy_from_slice(&entry.bytes());
        true
    }

    /// The entry in that slot of the submission ring; none where the slot is not in memory.
    pub fn entry(&self, slot: u16) -> Option<Sqe> {
        let ring = self.mediator.submission_ring(0)?;
        let from = ring.wrapping_add(64 * u64::from(slot)) as usize;
        let to = from.wrapping_add(64);
        if to < from || self.memory.len() < to {
            return None;
        }
        let mut bytes = [0; 64];
        bytes.copy_from_slice(&self.memory[from..to]);
        Some(Sqe::of(&bytes))
    }
}

// A memory of so many bytes; none where memory was refused.
fn memory_of(alloc: Global, len: u64) -> Option<Vec<u8>>
    ensures { IfSome result (λ memory. length memory.items ≡ len) }
{
    vec![in alloc; 0; len as usize].ok()
}
