//! Where guests' traffic goes: to a world, or into a script.

use crate::digest::Digest;
use crate::hosted::Hosted;
use crate::text::Text;
use nv_mem::NoMemory;
use nv_model::{Act, Reply};
use nv_plan::Planned;
use nv_world_model::Event;
use std::alloc::Global;

/// What takes events.
pub trait Sink {
    /// Takes an event.
    fn event(&mut self, event: Event) -> Result<(), NoMemory>;

    /// Takes the Submit of a tag. Where `between` has an address and a length, that part of a list may be read once more while the command
    /// is planned.
    fn submit(&mut self, lane: u8, tag: u8, between: Option<(u64, u64)>) -> Result<(), NoMemory>;
}

/// A world that a host steps, with a digest of all that it answers.
#[derive(Drop)]
pub struct Mediated<W> {
    alloc: Global,
    world: W,
    digest: Digest,
}

impl<W: Hosted> Mediated<W> {
    /// The world, of which nothing was answered.
    pub fn new(alloc: Global, world: W) -> Self {
        Mediated {
            alloc,
            world,
            digest: Digest::new(),
        }
    }

    /// The world, and the digest of its answers.
    pub fn end(self) -> (W, Digest) {
        let Mediated {
            alloc: _,
            world,
            digest,
        } = self;
        (world, digest)
    }

    /// How many events the world carried out.
    pub fn events(&self) -> u64 {
        self.world.events()
    }

    /// The digest of the answers so far.
    pub fn digest(&self) -> u64 {
        self.digest.value()
    }

    // Takes a reply into the digest.
    fn told(&mut self, reply: &Reply) {
        match reply {
            Reply::Bytes(bytes) => self.digest.bytes(bytes.as_slice()),
            Reply::Done => self.digest.number(1),
            Reply::Idle => self.digest.number(2),
            Reply::Busy => self.digest.number(3),
            Reply::Held => self.digest.number(4),
            Reply::Stale => self.digest.number(5),
            Reply::Unmapped => self.digest.number(6),
            Reply::Ignored => self.digest.number(7),
            Reply::NoMemory => self.digest.number(8),
        }
    }

    // Plans the command of a tag, and hands the plan over, as a planner does. Whether the command is settled: not where its plan was stale.
    fn plan(&mut self, lane: u8, tag: u8, between: Option<(u64, u64)>) -> Result<bool, NoMemory> {
        let alloc = self.alloc;
        let Some(job) = self.world.job(alloc, lane, tag)? else {
            self.digest.number(9);
            return Ok(true);
        };
        let Some(planned) = self.world.planned(alloc, job) else {
            return Ok(true);
        };
        match planned {
            Planned::Need(_, addr, len) => {
                self.digest.number(addr);
                self.digest.number(len);
                Ok(true)
            }
            Planned::NoMemory(_) => Err(NoMemory),
            Planned::Plan(plan) => {
                if let Some((addr, len)) = between {
                    self.event(Event::List(lane, tag, addr, len))?;
                }
                let reply = self.world.submit_plan(plan);
                self.told(&reply);
                Ok(!matches!(reply, Reply::Stale))
            }
        }
    }
}

impl<W: Hosted> Sink for Mediated<W> {
    // A host's workers ask whether an event is due before they make it.
    fn event(&mut self, event: Event) -> Result<(), NoMemory> {
        if is_workers(&event) {
            let due = self.world.due(&event);
            self.digest.number(u64::from(due));
        }
        let reply = self.world.step(self.alloc, event);
        self.told(&reply);
        Ok(())
    }

    fn submit(&mut self, lane: u8, tag: u8, between: Option<(u64, u64)>) -> Result<(), NoMemory> {
        if !self.plan(lane, tag, between)? {
            let _settled = self.plan(lane, tag, None)?;
        }
        Ok(())
    }
}

// Whether an event is one that a worker makes where it is due.
fn is_workers(event: &Event) -> bool {
    match event {
        Event::Admin(_) => true,
        Event::Take(_, _, _) => true,
        Event::DevTake(_) => true,
        Event::DevMove(_, _, _) => true,
        Event::DevPost(_, _) => true,
        Event::Reap(_) => true,
        Event::Post(_, _) => true,
        Event::Guest(_, _) => false,
        Event::List(_, _, _, _) => false,
        Event::Submit(_, _) => false,
        Event::GiveUp(_, _) => false,
        Event::DevFail(_, _, _) => false,
        Event::Keep(_) => false,
    }
}

/// A script of `replay`.
#[derive(Drop)]
pub struct Script {
    /// its text so far
    pub text: Text,
}

impl Sink for Script {
    fn event(&mut self, event: Event) -> Result<(), NoMemory> {
        let text = &mut self.text;
        match &event {
            Event::Guest(guest, act) => act_line(text, u64::from(*guest), act),
            Event::Admin(guest) => text.line("admin", &[u64::from(*guest)]),
            Event::Take(guest, queue, lane) => text.line(
                "take",
                &[u64::from(*guest), u64::from(*queue), u64::from(*lane)],
            ),
            Event::List(lane, tag, addr, len) => {
                text.line("list", &[u64::from(*lane), u64::from(*tag), *addr, *len])
            }
            Event::Submit(lane, tag) => tag_line(text, "submit", *lane, *tag),
            Event::GiveUp(lane, tag) => tag_line(text, "giveup", *lane, *tag),
            Event::DevTake(lane) => text.line("devtake", &[u64::from(*lane)]),
            Event::DevMove(lane, slot, number) => text.line(
                "devmove",
                &[u64::from(*lane), u64::from(*slot), *number],
            ),
            Event::DevPost(lane, slot) => tag_line(text, "devpost", *lane, *slot),
            Event::DevFail(_, _, _) => Ok(()),
            Event::Keep(block) => text.line("keep", &[*block]),
            Event::Reap(lane) => text.line("reap", &[u64::from(*lane)]),
            Event::Post(lane, tag) => tag_line(text, "post", *lane, *tag),
        }
    }

    fn submit(&mut self, lane: u8, tag: u8, _between: Option<(u64, u64)>) -> Result<(), NoMemory> {
        tag_line(&mut self.text, "submit", lane, tag)
    }
}

// The line of an event of a tag.
fn tag_line(text: &mut Text, word: &str, lane: u8, tag: u8) -> Result<(), NoMemory> {
    text.line(word, &[u64::from(lane), u64::from(tag)])
}

/// The line of a guest's act.
pub fn act_line(text: &mut Text, guest: u64, act: &Act) -> Result<(), NoMemory> {
    match act {
        Act::Store { addr, bytes } => {
            text.line_with_bytes("store", &[guest, *addr], bytes.as_slice())
        }
        Act::Load { addr, len } => text.line("load", &[guest, *addr, *len]),
        Act::RegRead { offset } => text.line("regread", &[guest, u64::from(*offset)]),
        Act::RegWrite { offset, value } => {
            text.line("regwrite", &[guest, u64::from(*offset), u64::from(*value)])
        }
        Act::Doorbell { offset, value } => {
            text.line("bell", &[guest, u64::from(*offset), u64::from(*value)])
        }
    }
}
