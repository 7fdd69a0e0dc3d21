//! A host's mediator with the memory that is lent to its calls, and a drive that shares the memory.

ghost use Rattle.std.specs.Prelude.{◌≡◌, IfSome, length};
ghost use Rattle.nv_mem.specs.Lent.{bytes_of_hosts};

use crate::drive;
use crate::plans::Plans;
use crate::watched::{Watched, loads};
use nv_bringup::Random;
use nv_device::Device;
use nv_host::{HostMediator, Scope, Setup, Stray, Worked};
use nv_mem::{Bytes, Host, MemoryCell, NoMemory};
use nv_model::limits::RING_SLOTS;
use nv_model::{Act, Reply};
use nv_plan::{Plan, Planned, make_plan};
use nv_world_model::Event;
use std::alloc::Global;
use std::marker::Model;

/// A host's mediator, a memory and a drive. The two know of each other what is in the memory, and the drive which tail was rung.
#[derive(Drop)]
pub struct Desk {
    mediator: HostMediator,
    device: Device,
    memory: Vec<Watched>,
    plans: Plans,
}

impl Model for Desk {
    ghost use Rattle.std.specs.Prelude.{◌≡◌, length};
    ghost use Rattle.nv_host.specs.Served.{Served};
    ghost use Rattle.nv_mem.specs.Lent.{bytes_of_hosts};

    ghost Value = { Served };

    ghost view = { λ d. d.mediator };

    ghost invariant = { λ d. length (bytes_of_hosts d.memory.items) ≡ d.mediator.setup.host_bytes };
}

/// Which of the mediator's calls carries out an event that has two.
#[derive(Clone, Copy, PartialEq, Eq)]
pub enum Form {
    /// The call that takes it as it is.
    Plain,
    /// The call that is lent the bytes, or is given the plan.
    Lent,
}

impl Desk {
    /// The desk of a set-up at its start. None where it is refused, memory was, or no device may be so large.
    pub fn new(alloc: Global, setup: Setup) -> Option<Self> {
        let area = setup.mediator;
        let disk_blocks = setup.disk_blocks;
        let mut memory = memory_of(alloc, setup.host_bytes, area)?;
        let mediator = HostMediator::new(alloc, setup, &mut memory).ok()?;
        let lanes = mediator.lanes();
        if !Device::fits(area, lanes, disk_blocks) {
            return None;
        }
        let device = Device::new(alloc, area, lanes, disk_blocks).ok()?;
        Some(Desk {
            mediator,
            device,
            memory,
            plans: Plans::new(),
        })
    }

    /// The host starts anew: a mediator is made of the set-up in a memory full of other bytes. The drive stays as it is, so its rings have to be as at the
    /// start. Whether there is such a mediator.
    pub fn restart(&mut self, alloc: Global, setup: Setup, random: &mut Random) -> bool {
        self.scramble(random);
        if setup.host_bytes != self.mediator.host_bytes() {
            return false;
        }
        let Ok(mediator) = HostMediator::new(alloc, setup, &mut self.memory) else {
            return false;
        };
        self.mediator = mediator;
        true
    }

    // Other bytes are everywhere in the memory.
    fn scramble(&mut self, random: &mut Random) {
        for row in 0..self.mediator.host_bytes() / 16 {
            self.scribble(row, random);
        }
    }

    // Other bytes are in a row of 16.
    fn scribble(&mut self, row: u64, random: &mut Random) {
        let addr = row.wrapping_mul(16);
        let bytes = [random.byte(); 16];
        if let Some(watched) = self.memory.first() {
            if watched.host.holds(addr, 16) {
                Watched::store(&mut self.memory, addr, &bytes);
            }
        }
    }

    /// Carries out an event: one of the drive by the device, any other by the mediator. Stale, too, where the mediator finds a stray completion.
    ///
    /// # Errors
    ///
    /// There was no memory for it.
    pub fn step(&mut self, alloc: Global, event: &Event, form: Form) -> Result<Reply, NoMemory> {
        self.begin();
        match event {
            Event::Guest(guest, act) => self.acts(alloc, *guest, act, form),
            Event::Admin(guest) => Ok(self.admin(*guest)),
            Event::Take(guest, queue, lane) => Ok(self.take(alloc, *guest, *queue, *lane)),
            Event::List(lane, tag, addr, len) => self.list(alloc, *lane, *tag, *addr, *len),
            Event::Submit(lane, tag) => self.submits(alloc, *lane, *tag, form),
            Event::GiveUp(lane, tag) => Ok(self.give_up(*lane, *tag)),
            Event::Reap(lane) => Ok(self.reap(*lane).unwrap_or(Reply::Stale)),
            Event::Post(lane, tag) => Ok(self.post(*lane, *tag)),
            _ => self.drives(alloc, event),
        }
    }

    /// What is due of a scope is carried out by the mediator, and the drive's doorbells are rung.
    pub fn work(&mut self, alloc: Global, scope: Scope, most: u64) -> Worked {
        self.begin();
        let worked = self.works(alloc, scope, most);
        for lane in 0..self.device.lanes() {
            self.ring(lane);
        }
        worked
    }

    // The same, and no doorbell is rung.
    fn works(&mut self, alloc: Global, scope: Scope, most: u64) -> Worked {
        self.mediator.work(alloc, scope, most, &mut self.memory)
    }

    /// Whether an event would be done now, as far as one may be due.
    pub fn due(&self, event: &Event) -> bool {
        self.begin();
        self.mediator.due(event, &self.memory) || drive::is_due(event, &self.device)
    }

    /// The event by which a command that was taken goes on: more of its lists is read, or it is submitted. None where none waits by that tag.
    pub fn wanted(&self, alloc: Global, lane: u8, tag: u8) -> Option<Event> {
        match self.planned(alloc, lane, tag)? {
            Planned::Need(_job, addr, len) => Some(Event::List(lane, tag, addr, len)),
            Planned::Plan(_plan) => Some(Event::Submit(lane, tag)),
            Planned::NoMemory(_job) => None,
        }
    }

    /// Reads the next completion of a lane, and reaps it in the same call: what a mediator does that fetches it twice. Stale, too, where it is stray.
    pub fn reap_again(&mut self, lane: u8) -> Reply {
        self.begin();
        if let (Some(ring), Some(head)) = (
            self.mediator.completion_ring(lane),
            self.mediator.head(lane),
        ) {
            loads(&self.memory, ring.wrapping_add(16 * u64::from(head)));
        }
        self.reap(lane).unwrap_or(Reply::Stale)
    }

    /// A lane is closed.
    pub fn close(&mut self, lane: u8) {
        self.begin();
        self.closes(lane);
    }

    // The same, in a call that has begun.
    fn closes(&mut self, lane: u8) {
        self.mediator.close(lane, &mut self.memory);
    }

    /// The host address of the completion of a lane that is read next; 0 where there is no such lane.
    pub fn next_completion(&self, lane: u8) -> u64 {
        match (
            self.mediator.completion_ring(lane),
            self.mediator.head(lane),
        ) {
            (Some(ring), Some(head)) => ring.wrapping_add(16 * u64::from(head)),
            _ => 0,
        }
    }

    /// The drive, for what it shows.
    pub fn device(&self) -> &Device {
        &self.device
    }

    /// What the plans were like.
    pub fn plans(&self) -> &Plans {
        &self.plans
    }

    /// The memory; none where there is none.
    pub fn watched(&self) -> Option<&Watched> {
        self.memory.first()
    }

    // A call begins.
    fn begin(&self) {
        if let Some(watched) = self.memory.first() {
            watched.begin();
        }
    }

    // A guest acts.
    fn acts(&mut self, alloc: Global, guest: u8, act: &Act, form: Form) -> Result<Reply, NoMemory> {
        match act {
            Act::Store { addr, bytes } if form == Form::Lent => {
                Ok(self.store(guest, *addr, bytes.as_slice()))
            }
            Act::Load { addr, len } if form == Form::Lent => self.load(alloc, guest, *addr, *len),
            _ => self.act(alloc, guest, act),
        }
    }

    // A guest acts, by the call that takes the act.
    fn act(&mut self, alloc: Global, guest: u8, act: &Act) -> Result<Reply, NoMemory> {
        self.mediator.act(alloc, guest, act, &mut self.memory)
    }

    // A guest stores bytes that are lent.
    fn store(&mut self, guest: u8, addr: u64, bytes: &[u8]) -> Reply {
        self.mediator.store(guest, addr, bytes, &mut self.memory)
    }

    // A guest loads bytes to a room that is lent, of less than 64 KiB.
    fn load(&self, alloc: Global, guest: u8, addr: u64, len: u64) -> Result<Reply, NoMemory> {
        let mut room = vec![in alloc; 0; (len & 0xffff) as usize]?;
        match self.mediator.load(guest, addr, &mut room, &self.memory) {
            Reply::Done => Ok(Reply::Bytes(Bytes::new(alloc, room)?)),
            reply => Ok(reply),
        }
    }

    // An event of a guest's admin queue.
    fn admin(&mut self, guest: u8) -> Reply {
        self.mediator.admin(guest, &mut self.memory)
    }

    // A command is taken. No lane is closed here.
    fn take(&mut self, alloc: Global, guest: u8, queue: u16, lane: u8) -> Reply {
        self.mediator
            .take(alloc, guest, queue, lane, &self.memory)
            .unwrap_or(Reply::Stale)
    }

    // A part of a command's lists is read.
    fn list(
        &mut self,
        alloc: Global,
        lane: u8,
        tag: u8,
        addr: u64,
        len: u64,
    ) -> Result<Reply, NoMemory> {
        let (reply, _again) = self
            .mediator
            .list(alloc, lane, tag, addr, len, &self.memory)?;
        Ok(reply)
    }

    // A command is submitted, and the drive's doorbell is rung.
    fn submits(&mut self, alloc: Global, lane: u8, tag: u8, form: Form) -> Result<Reply, NoMemory> {
        let reply = match self.plan(alloc, lane, tag) {
            Some(plan) => {
                self.sees(&plan);
                self.submits_plan(alloc, plan, form)?
            }
            None => self.submit(alloc, lane, tag)?,
        };
        self.ring(lane);
        Ok(reply)
    }

    // A command that may be planned is submitted: by the plan, or once more from its tag.
    fn submits_plan(&mut self, alloc: Global, plan: Plan, form: Form) -> Result<Reply, NoMemory> {
        if form == Form::Lent {
            return Ok(self.submit_plan(plan).unwrap_or(Reply::Stale));
        }
        let (lane, tag) = (plan.job().lane, plan.job().tag);
        self.submit(alloc, lane, tag)
    }

    // What a plan is like is counted. The call that carries it out has not begun.
    fn sees(&mut self, plan: &Plan) {
        if let Some(watched) = self.memory.first() {
            self.plans.count(plan, watched);
        }
        self.begin();
    }

    // A command is planned and submitted by one call.
    fn submit(&mut self, alloc: Global, lane: u8, tag: u8) -> Result<Reply, NoMemory> {
        self.mediator.submit(alloc, lane, tag, &mut self.memory)
    }

    // A plan is carried out.
    fn submit_plan(&mut self, plan: Plan) -> Option<Reply> {
        self.mediator.submit_plan(plan, &mut self.memory)
    }

    // The plan of the job of a tag; none where more is wanted for it, or none waits by that tag.
    fn plan(&self, alloc: Global, lane: u8, tag: u8) -> Option<Plan> {
        match self.planned(alloc, lane, tag)? {
            Planned::Plan(plan) => Some(plan),
            Planned::Need(_job, _addr, _len) => None,
            Planned::NoMemory(_job) => None,
        }
    }

    // What comes of the job of a tag; none where none waits by it.
    fn planned(&self, alloc: Global, lane: u8, tag: u8) -> Option<Planned> {
        let job = self.mediator.job(alloc, lane, tag).ok()??;
        let map = self.mediator.map(job.guest)?;
        let range = self.mediator.range(job.guest)?;
        let limit = self.mediator.limit(job.guest)?;
        Some(make_plan(alloc, alloc, job, map, range, limit))
    }

    // A command is given up.
    fn give_up(&mut self, lane: u8, tag: u8) -> Reply {
        self.mediator.give_up(lane, tag)
    }

    // A completion of the drive is read.
    fn reap(&mut self, lane: u8) -> Result<Reply, Stray> {
        self.mediator.reap(lane, &self.memory)
    }

    // A command is completed for its guest.
    fn post(&mut self, lane: u8, tag: u8) -> Reply {
        self.mediator.post(lane, tag, &mut self.memory)
    }

    // An event of the drive.
    fn drives(&mut self, alloc: Global, event: &Event) -> Result<Reply, NoMemory> {
        drive::step(alloc, event, &mut self.device, &mut self.memory)
    }

    // Rings the drive's doorbell of a lane with the mediator's tail.
    fn ring(&mut self, lane: u8) {
        if let Some(tail) = self.mediator.tail(lane) {
            if lane < self.device.lanes() && tail < RING_SLOTS {
                self.device.ring(lane, tail);
            }
        }
    }
}

// A memory of so many bytes, with the mediator's area from that address on; none where memory was refused.
fn memory_of(alloc: Global, len: u64, area: u64) -> Option<Vec<Watched>>
    ensures { IfSome result (λ memory. length (bytes_of_hosts memory.items) ≡ len) }
{
    let host = Host::new(alloc, len).ok()?;
    if host.len() != len {
        return None;
    }
    let watched = Watched::new(alloc, host, area).ok()?;
    vec![in alloc; watched].ok()
}
