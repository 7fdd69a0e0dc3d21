//! Worlds under test, and what guests, the mediator and the physical controller do in them.
//!
//! Each guest has 128 KiB of memory, queue pair 1, and a namespace of extents that the test names.

use nv_bringup::{
    BLOCKS, BRING_UP, COMPLETIONS, Deed, HEAD, LIMIT, MEMORY, Random, SUBMISSIONS, Span, TAIL,
    bytes_of, guest_at, setup_of,
};
use nv_entry::{Cqe, Sqe};
use nv_mem::BoxedBytes;
use nv_model::limits::TAGS;
use nv_model::{Act, Reply};
use nv_plan::{Planned, make_plan};
use nv_world::{GuestSetup, World};
use nv_world_model::Event;
use std::alloc::Global;

/// The host address of the first guest's first byte.
pub const IMAGE: u64 = 0x10_0000;

/// How many bytes the host has: enough for eight lanes.
const HOST: u64 = 0x480_0000;

/// More units than any command of these tests has.
const UNITS: u64 = 32;

/// How often a list is read at most.
const READS: u64 = 64;

/// A namespace of one extent.
pub const WHOLE: &[Span] = &[Span {
    base: 1000,
    blocks: BLOCKS,
}];

/// The disk's block that a guest's block is; none where the guest has no such block.
pub fn block_of(spans: &[Span], block: u64) -> Option<u64> {
    let mut left = block;
    for span in spans {
        if left < span.blocks {
            return Some(span.base.wrapping_add(left));
        }
        left -= span.blocks;
    }
    None
}

/// The host address of a guest's first byte.
pub fn image_of(guest: u8) -> u64 {
    IMAGE + MEMORY * u64::from(guest)
}

// Guests with these namespaces.
fn guests(alloc: Global, namespaces: &[&[Span]]) -> Option<Vec<GuestSetup>> {
    let mut guests = Vec::new(alloc);
    let mut number = 0u8;
    for spans in namespaces {
        let guest = guest_at(alloc, HOST, image_of(number), spans)?;
        guests.push(guest).ok()?;
        number = number.wrapping_add(1);
    }
    Some(guests)
}

/// The world at its start, of guests with these namespaces; none where memory was refused.
pub fn opened(alloc: Global, lanes: u64, namespaces: &[&[Span]]) -> Option<World> {
    let guests = guests(alloc, namespaces)?;
    World::new(alloc, setup_of(HOST, lanes, guests)).ok()
}

/// A world under test. What has to be done and is not is noted, so that a test asks once, at its end.
#[derive(Drop)]
pub struct Bench {
    pub world: World,
    pub alloc: Global,
    /// whether something was not done that had to be
    pub failed: bool,
    /// the last slot of each I/O queue: a power of 2, less 1
    last_slot: u16,
    pub random: Random,
    /// of so many events that may be done next, one is
    pub pace: u32,
    /// whether tags and units have their turn from the last to the first
    pub backwards: bool,
}

impl Bench {
    /// A world at its start, whose guests have these namespaces, and I/O queues of so many slots.
    pub fn new(alloc: Global, lanes: u64, namespaces: &[&[Span]], slots: u16) -> Option<Self> {
        Some(Bench {
            world: opened(alloc, lanes, namespaces)?,
            alloc,
            failed: false,
            last_slot: slots.wrapping_sub(1),
            random: Random::new(1),
            pace: 1,
            backwards: false,
        })
    }

    /// What an event is answered.
    pub fn answers(&mut self, event: Event) -> Reply {
        self.world.step(self.alloc, event)
    }

    /// Does an event, if it can be done; whether it was.
    pub fn does(&mut self, event: Event) -> bool {
        matches!(self.answers(event), Reply::Done)
    }

    /// Does an event, which has to be done.
    pub fn must(&mut self, event: Event) {
        if !self.does(event) {
            self.failed = true;
        }
    }

    // Whether the next event that may be done has its turn. Where each has, no random number is asked for.
    fn has_turn(&mut self) -> bool {
        self.pace < 2 || self.random.once_in(self.pace)
    }

    /// Does an event that is due, where its turn has come.
    pub fn tries(&mut self, event: Event) {
        if self.has_turn() && self.world.due(&event) {
            self.must(event);
        }
    }

    /// A guest stores bytes.
    pub fn store(&mut self, guest: u8, addr: u64, bytes: &[u8]) {
        match BoxedBytes::from_slice(self.alloc, bytes) {
            Ok(bytes) => self.must(Event::Guest(guest, Act::Store { addr, bytes })),
            Err(_) => self.failed = true,
        }
    }

    /// A guest writes a register.
    pub fn write_register(&mut self, guest: u8, offset: u32, value: u32) {
        self.must(Event::Guest(guest, Act::RegWrite { offset, value }));
    }

    // A guest rings a doorbell.
    fn ring(&mut self, guest: u8, offset: u32, value: u16) {
        let value = u32::from(value);
        self.must(Event::Guest(guest, Act::Doorbell { offset, value }));
    }

    // A guest puts the command that makes a queue of its slots into its admin queue.
    fn create(&mut self, guest: u8, addr: u64, dwords: &[u32; 16]) {
        let mut dwords = *dwords;
        dwords[10] = u32::from(self.last_slot) << 16 | 1;
        self.store(guest, addr, &bytes_of(&dwords));
    }

    // A guest does what belongs to its bring-up.
    fn act(&mut self, guest: u8, deed: &Deed) {
        match *deed {
            Deed::Entry(addr, dwords) => self.create(guest, addr, &dwords),
            Deed::Register(offset, value) => self.write_register(guest, offset, value),
            Deed::Doorbell(offset, value) => {
                self.must(Event::Guest(guest, Act::Doorbell { offset, value }));
            }
        }
    }

    /// A guest makes its queues.
    pub fn bring_up(&mut self, guest: u8) {
        for deed in BRING_UP {
            self.act(guest, deed);
        }
        self.must(Event::Admin(guest));
        self.must(Event::Admin(guest));
    }

    // The slot of an I/O queue that a command of that number has, or its completion.
    fn slot(&self, number: u16) -> u16 {
        number & self.last_slot
    }

    /// A guest puts a command into its queue, as the one of that number.
    pub fn enter(&mut self, guest: u8, number: u16, sqe: &Sqe) {
        let at = SUBMISSIONS + 64 * u64::from(self.slot(number));
        self.store(guest, at, &sqe.bytes());
        self.ring(guest, TAIL, self.slot(number.wrapping_add(1)));
    }

    /// The completion of that number, as it is in the guest's queue.
    pub fn completion(&self, guest: u8, number: u16) -> Option<Cqe> {
        completion_at(&self.world, guest, self.slot(number))
    }

    /// A guest has read the completion of that number.
    pub fn look(&mut self, guest: u8, number: u16) {
        self.ring(guest, HEAD, self.slot(number.wrapping_add(1)));
    }

    /// Whether these bytes are at an address of a guest's memory.
    pub fn shows(&self, guest: u8, addr: u64, bytes: &[u8]) -> bool {
        let at = image_of(guest).wrapping_add(addr);
        let host = self.world.host();
        host.holds(at, bytes.len() as u64) && host.equals(at, bytes)
    }

    /// How many tags of a lane a guest has.
    pub fn tags_of(&self, guest: u8, lane: u8) -> u8 {
        let mut count = 0u8;
        for tag in 0..TAGS {
            if let Some(holder) = self.world.holder(lane, tag)
                && holder.guest == guest
            {
                count = count.wrapping_add(1);
            }
        }
        count
    }

    /// Whether all tags of a lane are free.
    pub fn is_free(&self, lane: u8) -> bool {
        for tag in 0..TAGS {
            if self.world.holder(lane, tag).is_some() {
                return false;
            }
        }
        true
    }

    // What planning gives for the job of a tag as it is; none where no command waits there for its plan.
    fn planned(&self, lane: u8, tag: u8) -> Option<Planned> {
        let job = self.world.job(self.alloc, lane, tag).ok()??;
        let map = self.world.map(job.guest)?;
        let ns = self.world.range(job.guest)?;
        Some(make_plan(self.alloc, self.alloc, job, map, ns, LIMIT))
    }

    // Reads what is wanted of a list.
    fn read_list(&mut self, lane: u8, tag: u8, addr: u64, len: u64) {
        let reply = self.answers(Event::List(lane, tag, addr, len));
        if !matches!(reply, Reply::Bytes(_)) {
            self.failed = true;
        }
    }

    /// The command that goes by a tag is handed on, with its lists read as they are wanted, if it waits for that.
    pub fn submit(&mut self, lane: u8, tag: u8) {
        for _read in 0..READS {
            match self.planned(lane, tag) {
                Some(Planned::Need(_job, addr, len)) => self.read_list(lane, tag, addr, len),
                Some(Planned::Plan(plan)) => {
                    if !matches!(self.world.submit_plan(plan), Reply::Done) {
                        self.failed = true;
                    }
                    return;
                }
                _ => return,
            }
        }
    }

    // The number that has its turn at that place of so many.
    fn turn(&self, place: u64, count: u64) -> u64 {
        if self.backwards {
            count.wrapping_sub(place).wrapping_sub(1)
        } else {
            place
        }
    }

    // The tag that has its turn at that place.
    fn tag_at(&self, place: u8) -> u8 {
        (self.turn(u64::from(place), u64::from(TAGS)) % 64) as u8
    }

    // The commands that wait on a lane for their plans are handed on.
    fn submit_all(&mut self, lane: u8) {
        for place in 0..TAGS {
            let tag = self.tag_at(place);
            self.submit(lane, tag);
        }
    }

    // The physical controller takes what waits on a lane.
    fn take_all(&mut self, lane: u8) {
        for _ in 0..TAGS {
            self.tries(Event::DevTake(lane));
        }
    }

    // It moves the units of a slot, and posts the completion.
    fn move_units(&mut self, lane: u8, slot: u8) {
        for place in 0..UNITS {
            let unit = self.turn(place, UNITS);
            self.tries(Event::DevMove(lane, slot, unit));
        }
        self.tries(Event::DevPost(lane, slot));
    }

    // It moves the units of all slots of a lane that have a command.
    fn move_all(&mut self, lane: u8) {
        for place in 0..TAGS {
            let slot = self.tag_at(place);
            if self.world.holder(lane, slot).is_some() {
                self.move_units(lane, slot);
            }
        }
    }

    // The mediator reaps what the physical controller has posted on a lane.
    fn reap_all(&mut self, lane: u8) {
        for _ in 0..TAGS {
            self.tries(Event::Reap(lane));
        }
    }

    // The commands of a lane that have ended are completed.
    fn post_all(&mut self, lane: u8) {
        for place in 0..TAGS {
            let tag = self.tag_at(place);
            self.tries(Event::Post(lane, tag));
        }
    }

    /// All commands of a lane go on as far as their turns have come.
    pub fn go_on(&mut self, lane: u8) {
        if self.is_free(lane) {
            return;
        }
        self.submit_all(lane);
        self.take_all(lane);
        self.move_all(lane);
        self.reap_all(lane);
        self.post_all(lane);
    }

    /// The completion of the first guest's command of that number, which is carried out at once on the first lane.
    pub fn serve(&mut self, number: u16, sqe: &Sqe) -> Option<Cqe> {
        self.enter(0, number, sqe);
        self.must(Event::Take(0, 1, 0));
        self.go_on(0);
        self.look(0, number);
        self.completion(0, number)
    }
}

/// The completion in a slot of a guest's completion queue.
pub fn completion_at(world: &World, guest: u8, slot: u16) -> Option<Cqe> {
    let addr = image_of(guest).wrapping_add(COMPLETIONS + 16 * u64::from(slot));
    let host = world.host();
    if !host.holds(addr, 16) {
        return None;
    }
    let mut bytes = [0; 16];
    host.load(addr, &mut bytes);
    Some(Cqe::of(&bytes))
}
