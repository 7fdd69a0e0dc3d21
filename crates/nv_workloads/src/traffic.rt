//! Guests' traffic: rounds of commands, event by event.
//!
//! In a round two guests put their commands into their queues, and one lane carries all of them. The commands are taken, their lists read,
//! submitted, moved unit by unit in turn, completed, reaped and posted, and the guests read their completions.

pub mod extents;
pub mod forever;

use crate::entry::{CREATE_COMPLETION_QUEUE, CREATE_SUBMISSION_QUEUE, admin_entry, entry};
use crate::random::Random;
use crate::shape::Shape;
use crate::sink::Sink;
use crate::transfer::{Maker, Transfer};
use nv_mem::{BoxedBytes, NoMemory};
use nv_model::Act;
use nv_model::limits::{CQE_SIZE, PART_SIZE, SQE_SIZE};
use nv_world_model::Event;
use std::alloc::Global;

/// Where a guest's admin queues and its I/O queues are.
const ADMIN_SUBMISSIONS: u64 = 0x1_0000;

const ADMIN_COMPLETIONS: u64 = 0x1_1000;

const COMPLETIONS: u64 = 0x1_2000;

const SUBMISSIONS: u64 = 0x1_3000;

/// The slots of each I/O queue, and the bytes of an entry of each.
const SLOTS: u64 = 64;

/// Doorbells.
const ADMIN_TAIL: u32 = 0x1000;

const TAIL: u32 = 0x1008;

const HEAD: u32 = 0x100c;

/// Registers: CC, AQA, ASQ and ACQ.
const CC: u32 = 0x14;

const AQA: u32 = 0x24;

const ASQ: u32 = 0x28;

const ACQ: u32 = 0x30;

/// The bytes of a part of a list that is read at once.
const PART: u64 = PART_SIZE as u64;

/// Where a guest is in its queues.
#[derive(Clone, Copy, Debug)]
struct Guest {
    number: u8,
    /// how many commands it has put into its queue since it was brought up
    made: u64,
    /// how many completions it has, and how many of them it has reported as seen
    completed: u64,
    seen: u64,
}

/// A command on its way.
#[derive(Clone, Copy, Debug)]
struct OnItsWay {
    tag: u8,
    /// whose it is: the first or the second guest of the round
    is_second: bool,
    list_at: u64,
    list_len: u64,
    units: u64,
}

/// Guests' traffic in a world.
#[derive(Drop)]
pub struct Traffic<S> {
    alloc: Global,
    shape: Shape,
    random: Random,
    guests: Vec<Guest>,
    // where its events go
    sink: S,
}

impl<S: Sink + Drop> Traffic<S> {
    /// The traffic of a seed, before its first event.
    pub fn new(alloc: Global, shape: Shape, seed: u64, sink: S) -> Result<Self, NoMemory> {
        let mut guests = Vec::new(alloc);
        for number in 0..shape.guests {
            guests.push(Guest {
                number: (number % 16) as u8,
                made: 0,
                completed: 0,
                seen: 0,
            })?;
        }
        Ok(Traffic {
            alloc,
            shape,
            random: Random::new(seed),
            guests,
            sink,
        })
    }

    /// The traffic's events: all guests are brought up, and then make so many commands together, or some more.
    pub fn run(&mut self, commands: u64) -> Result<(), NoMemory> {
        self.bring_all_up()?;
        let mut made = 0u64;
        for round in 0..commands {
            if made >= commands {
                break;
            }
            made = made.saturating_add(self.round(round)?);
        }
        Ok(())
    }

    // All guests are brought up.
    fn bring_all_up(&mut self) -> Result<(), NoMemory> {
        for guest in 0..self.shape.guests {
            self.bring_up((guest % 16) as u8)?;
        }
        Ok(())
    }

    /// Where its events went.
    pub fn end(self) -> S {
        let Traffic {
            alloc: _,
            shape: _,
            random: _,
            guests: _,
            sink,
        } = self;
        sink
    }

    // A guest acts.
    fn act(&mut self, guest: u8, act: Act) -> Result<(), NoMemory> {
        self.sink.event(Event::Guest(guest, act))
    }

    // A guest stores bytes.
    fn store(&mut self, guest: u8, addr: u64, bytes: Vec<u8>) -> Result<(), NoMemory> {
        let bytes = BoxedBytes::new(self.alloc, bytes)?;
        self.act(guest, Act::Store { addr, bytes })
    }

    // A guest's queues are made, of which nothing is left of what was there before.
    fn bring_up(&mut self, guest: u8) -> Result<(), NoMemory> {
        let alloc = self.alloc;
        let completions = admin_entry(alloc, CREATE_COMPLETION_QUEUE, 1, COMPLETIONS, 64, 1)?;
        self.store(guest, ADMIN_SUBMISSIONS, completions)?;
        let submissions = admin_entry(
            alloc,
            CREATE_SUBMISSION_QUEUE,
            2,
            SUBMISSIONS,
            64,
            0x1_0001,
        )?;
        self.store(guest, ADMIN_SUBMISSIONS + SQE_SIZE, submissions)?;
        for (offset, value) in [
            (AQA, 0x001f_001f),
            (ASQ, ADMIN_SUBMISSIONS as u32),
            (ACQ, ADMIN_COMPLETIONS as u32),
            (CC, 0x0046_0001),
        ] {
            self.act(guest, Act::RegWrite { offset, value })?;
        }
        self.act(
            guest,
            Act::Doorbell {
                offset: ADMIN_TAIL,
                value: 2,
            },
        )?;
        self.sink.event(Event::Admin(guest))?;
        self.sink.event(Event::Admin(guest))?;
        if let Some(guest) = self.guests.get_mut(usize::from(guest)) {
            guest.made = 0;
            guest.completed = 0;
            guest.seen = 0;
        }
        Ok(())
    }

    // A round; how many commands were made in it.
    fn round(&mut self, round: u64) -> Result<u64, NoMemory> {
        let lane = (self.random.below(self.shape.lanes) % 8) as u8;
        let first = round.wrapping_mul(2) % self.shape.guests.max(1);
        let second = first.wrapping_add(1) % self.shape.guests.max(1);
        let pair = ((first % 16) as u8, (second % 16) as u8);
        let depth = self
            .random
            .below(self.shape.depth.clamp(1, 32))
            .wrapping_add(1)
            .min(32);
        let is_reset = self.shape.is_awkward && self.random.once_in(32);
        let is_slow = self.shape.is_awkward && self.random.once_in(3);
        let mut ways = Vec::new(self.alloc);
        self.queue_up(pair.0, false, depth, &mut ways)?;
        self.queue_up(pair.1, true, depth, &mut ways)?;
        self.take(pair, lane, depth)?;
        self.hand_on(lane, &ways)?;
        if is_reset {
            self.act(
                pair.0,
                Act::RegWrite {
                    offset: CC,
                    value: 0,
                },
            )?;
        }
        self.carry_out(lane, &ways)?;
        self.complete(pair, lane, is_reset, &ways)?;
        if is_reset {
            self.bring_up(pair.0)?;
        }
        if !is_slow {
            self.look(pair.0)?;
            self.look(pair.1)?;
        }
        Ok(depth.wrapping_mul(2))
    }

    // A guest puts its commands into its queue.
    fn queue_up(
        &mut self,
        guest: u8,
        is_second: bool,
        depth: u64,
        ways: &mut Vec<OnItsWay>,
    ) -> Result<(), NoMemory> {
        for number in 0..depth {
            let made = match self.guests.get(usize::from(guest)) {
                Some(guest) => guest.made,
                None => 0,
            };
            let place = number.wrapping_mul(2).wrapping_add(u64::from(is_second));
            let transfer = Maker {
                shape: &self.shape,
                random: &mut self.random,
            }
            .next(self.alloc, place)?;
            // the guests' commands are taken in turn
            ways.push(on_its_way(&transfer, (place % 64) as u8, is_second))?;
            self.queue(guest, made, transfer)?;
            if let Some(guest) = self.guests.get_mut(usize::from(guest)) {
                guest.made = made.wrapping_add(1);
            }
        }
        Ok(())
    }

    // A guest puts a command into its queue, with its list.
    fn queue(&mut self, guest: u8, made: u64, transfer: Transfer) -> Result<(), NoMemory> {
        let Transfer {
            command,
            list,
            list_at,
            units: _,
        } = transfer;
        if !list.is_empty() {
            self.store(guest, list_at, list)?;
        }
        let slot = made % SLOTS;
        let entry = entry(self.alloc, &command, made)?;
        self.store(guest, SUBMISSIONS + SQE_SIZE * slot, entry)?;
        self.act(
            guest,
            Act::Doorbell {
                offset: TAIL,
                value: ((slot + 1) % SLOTS) as u32,
            },
        )
    }

    // Both guests' commands are taken in turn.
    fn take(&mut self, pair: (u8, u8), lane: u8, depth: u64) -> Result<(), NoMemory> {
        for _command in 0..depth {
            self.sink.event(Event::Take(pair.0, 1, lane))?;
            self.sink.event(Event::Take(pair.1, 1, lane))?;
        }
        Ok(())
    }

    // Lists are read, and commands submitted.
    fn hand_on(&mut self, lane: u8, ways: &[OnItsWay]) -> Result<(), NoMemory> {
        for way in ways {
            let parts = way.list_len.div_ceil(PART);
            for part in 0..parts {
                let done = part.wrapping_mul(PART);
                let len = way.list_len.saturating_sub(done).min(PART);
                self.sink.event(Event::List(lane, way.tag, way.list_at.wrapping_add(done), len))?;
            }
            let is_late = self.shape.is_awkward && self.random.once_in(16);
            let between = if is_late { Some((0x1_2000, 16)) } else { None };
            self.sink.submit(lane, way.tag, between)?;
        }
        Ok(())
    }

    // The physical controller takes what was handed on, and moves it unit by unit, each command in turn.
    fn carry_out(&mut self, lane: u8, ways: &[OnItsWay]) -> Result<(), NoMemory> {
        let mut most = 0;
        for way in ways {
            if way.units > 0 {
                self.sink.event(Event::DevTake(lane))?;
            }
            most = way.units.max(most);
        }
        for unit in 0..most {
            for way in ways {
                if unit < way.units {
                    self.sink.event(Event::DevMove(lane, way.tag, unit))?;
                }
            }
        }
        Ok(())
    }

    // The physical controller completes its commands, which are reaped, and all are posted.
    fn complete(
        &mut self,
        pair: (u8, u8),
        lane: u8,
        is_reset: bool,
        ways: &[OnItsWay],
    ) -> Result<(), NoMemory> {
        for way in ways {
            if way.units > 0 {
                self.sink.event(Event::DevPost(lane, way.tag))?;
            }
        }
        for way in ways {
            if way.units > 0 {
                self.sink.event(Event::Reap(lane))?;
            }
        }
        for way in ways {
            let guest = if way.is_second { pair.1 } else { pair.0 };
            self.sink.event(Event::Post(lane, way.tag))?;
            if !(is_reset && !way.is_second) && self.is_full(guest) {
                // it was held
                self.look(guest)?;
                self.sink.event(Event::Post(lane, way.tag))?;
            }
            if let Some(guest) = self.guests.get_mut(usize::from(guest)) {
                guest.completed = guest.completed.wrapping_add(1);
            }
        }
        Ok(())
    }

    // Whether a guest's completion queue is full.
    fn is_full(&self, guest: u8) -> bool {
        match self.guests.get(usize::from(guest)) {
            Some(guest) => guest.completed.wrapping_sub(guest.seen) >= SLOTS - 1,
            None => false,
        }
    }

    // A guest reads its completions, and reports that it has seen them.
    fn look(&mut self, guest: u8) -> Result<(), NoMemory> {
        let (seen, completed) = match self.guests.get(usize::from(guest)) {
            Some(guest) => (guest.seen, guest.completed),
            None => return Ok(()),
        };
        for number in seen..completed {
            let addr = COMPLETIONS + CQE_SIZE * (number % SLOTS);
            self.act(
                guest,
                Act::Load {
                    addr,
                    len: CQE_SIZE,
                },
            )?;
        }
        if seen < completed {
            self.act(
                guest,
                Act::Doorbell {
                    offset: HEAD,
                    value: (completed % SLOTS) as u32,
                },
            )?;
        }
        if let Some(guest) = self.guests.get_mut(usize::from(guest)) {
            guest.seen = completed;
        }
        Ok(())
    }
}

// What is known of a command that is on its way.
fn on_its_way(transfer: &Transfer, tag: u8, is_second: bool) -> OnItsWay {
    OnItsWay {
        tag,
        is_second,
        list_at: transfer.list_at,
        list_len: transfer.list.len() as u64,
        units: transfer.units,
    }
}
