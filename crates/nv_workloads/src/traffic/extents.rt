//! Traffic of guests whose namespaces have several extents: one command in four is several physical ones.
//!
//! It goes in rounds, as the other traffic does. A command of two parts has two tags, and is submitted and posted by the lower.

use crate::entry::{Command, DATA, READ, SGL, WRITE, WRITE_ZEROES, halves, length_and_kind};
use crate::random::Random;
use crate::sink::Sink;
use crate::text::Text;
use crate::traffic::Traffic;
use crate::transfer::Transfer;
use nv_mem::NoMemory;
use nv_model::limits::MOST_GUESTS;
use nv_world::{Extent, Setup};
use nv_world_model::Event;
use std::alloc::Global;

/// How many extents each guest has, and how many blocks each of them has.
const EXTENTS: u64 = 8;

const EXTENT_BLOCKS: u64 = 2048;

/// How many guests' extents lie between two of a guest's.
const GUESTS: u64 = MOST_GUESTS as u64;

/// The most blocks of a command.
const MOST_BLOCKS: u64 = 8;

/// The most commands of a guest in a round: with two parts each, those of two guests fill a lane's tags.
const MOST_COMMANDS: u64 = 16;

/// Where a guest's data lies.
const DATA_AT: u64 = 0x10_0000;

/// The bytes of a planner's heap; scripts name them, and nothing is planned there.
const HEAP: u64 = 0x10_0000;

/// A command on its way: the tag that it goes by, whose it is of the round's two guests, and how many blocks each of its parts has.
#[derive(Clone, Copy, Debug)]
struct Parted {
    leader: u8,
    is_second: bool,
    blocks: [u64; 2],
}

impl Parted {
    // Its tags, each with how many blocks its part has.
    fn tags(&self) -> [(u8, u64); 2] {
        [
            (self.leader, self.blocks[0]),
            (self.leader.wrapping_add(1), self.blocks[1]),
        ]
    }
}

impl<S: Sink + Drop> Traffic<S> {
    /// The traffic's events: all guests are brought up, and then make so many commands together, or some more.
    pub fn run_parted(&mut self, commands: u64) -> Result<(), NoMemory> {
        self.bring_all_up()?;
        let mut made = 0u64;
        for round in 0..commands {
            if made >= commands {
                break;
            }
            made = made.saturating_add(self.parted_round(round)?);
        }
        Ok(())
    }

    // A round; how many commands were made in it.
    fn parted_round(&mut self, round: u64) -> Result<u64, NoMemory> {
        let lane = (self.random.below(self.shape.lanes) % 8) as u8;
        let guests = self.shape.guests.max(1);
        let first = round.wrapping_mul(2) % guests;
        let second = first.wrapping_add(1) % guests;
        let pair = ((first % 16) as u8, (second % 16) as u8);
        let depth = self.random.below(MOST_COMMANDS).wrapping_add(1);
        let mut ways = Vec::new(self.alloc);
        let mut tag = 0;
        for _command in 0..depth {
            tag = self.queue_parted(pair.0, false, tag, &mut ways)?;
            tag = self.queue_parted(pair.1, true, tag, &mut ways)?;
        }
        for way in &ways {
            let guest = if way.is_second { pair.1 } else { pair.0 };
            self.sink.event(Event::Take(guest, 1, lane))?;
        }
        for way in &ways {
            self.sink.submit(lane, way.leader, None)?;
        }
        self.carry_parts(lane, &ways)?;
        for way in &ways {
            self.sink.event(Event::Post(lane, way.leader))?;
            let guest = if way.is_second { pair.1 } else { pair.0 };
            if let Some(guest) = self.guests.get_mut(usize::from(guest)) {
                guest.completed = guest.completed.wrapping_add(1);
            }
        }
        self.look(pair.0)?;
        self.look(pair.1)?;
        Ok(depth.wrapping_mul(2))
    }

    // A guest puts a command into its queue, which will go by that tag; the tag after it.
    fn queue_parted(
        &mut self,
        guest: u8,
        is_second: bool,
        tag: u8,
        ways: &mut Vec<Parted>,
    ) -> Result<u8, NoMemory> {
        let made = match self.guests.get(usize::from(guest)) {
            Some(guest) => guest.made,
            None => 0,
        };
        let (command, blocks) = short(&mut self.random);
        self.queue(
            guest,
            made,
            Transfer {
                command,
                list: Vec::new(self.alloc),
                list_at: 0,
                units: 0,
            },
        )?;
        if let Some(guest) = self.guests.get_mut(usize::from(guest)) {
            guest.made = made.wrapping_add(1);
        }
        ways.push(Parted {
            leader: tag,
            is_second,
            blocks,
        })?;
        Ok(tag.wrapping_add(if blocks[1] > 0 { 2 } else { 1 }))
    }

    // The physical controller takes all parts, moves them unit by unit, each in turn, and completes them; and they are reaped.
    fn carry_parts(&mut self, lane: u8, ways: &[Parted]) -> Result<(), NoMemory> {
        let mut parts = Vec::new(self.alloc);
        for way in ways {
            for (tag, blocks) in way.tags() {
                if blocks > 0 {
                    parts.push((tag, blocks))?;
                    self.sink.event(Event::DevTake(lane))?;
                }
            }
        }
        for unit in 0..MOST_BLOCKS {
            for (tag, blocks) in &parts {
                if unit < *blocks {
                    self.sink.event(Event::DevMove(lane, *tag, unit))?;
                }
            }
        }
        for (tag, _blocks) in &parts {
            self.sink.event(Event::DevPost(lane, *tag))?;
        }
        for _part in &parts {
            self.sink.event(Event::Reap(lane))?;
        }
        Ok(())
    }
}

// A Read, a Write or a Write Zeroes of up to 8 blocks, at an odd address now and then, and how many blocks each of its parts has. One in four
// lies over a join.
fn short(random: &mut Random) -> (Command, [u64; 2]) {
    let (start, blocks) = blocks(random);
    let count = blocks[0].wrapping_add(blocks[1]);
    let operation = match random.below(20) {
        0..=13 => READ | SGL,
        14..=18 => WRITE | SGL,
        _ => WRITE_ZEROES,
    };
    let odd = if random.once_in(8) { 1 } else { 0 };
    let addr = random
        .below(0x3_c000)
        .wrapping_mul(4)
        .wrapping_add(DATA_AT + odd);
    let pointer = if operation == WRITE_ZEROES {
        (0, 0)
    } else {
        (addr, length_and_kind(count.wrapping_mul(512), DATA))
    };
    let command = Command {
        operation,
        pointer,
        start,
        count: halves(count.wrapping_sub(1)).0,
    };
    (command, blocks)
}

// The first of some blocks, and how many of them each extent has that they meet.
fn blocks(random: &mut Random) -> (u64, [u64; 2]) {
    if random.once_in(4) {
        let join = random
            .below(EXTENTS - 1)
            .wrapping_add(1)
            .wrapping_mul(EXTENT_BLOCKS);
        let before = random.below(MOST_BLOCKS / 2).wrapping_add(1);
        let behind = random.below(MOST_BLOCKS / 2).wrapping_add(1);
        return (join.wrapping_sub(before), [before, behind]);
    }
    let extent = random.below(EXTENTS).wrapping_mul(EXTENT_BLOCKS);
    let start = random
        .below(EXTENT_BLOCKS - MOST_BLOCKS)
        .wrapping_add(extent);
    (start, [random.below(MOST_BLOCKS).wrapping_add(1), 0])
}

/// Gives each guest of a set-up eight extents, among which those of the others lie.
pub fn give_extents(alloc: Global, setup: &mut Setup) -> Result<(), NoMemory> {
    let mut number = 0u64;
    for guest in &mut setup.guests {
        let mut extents = Vec::new(alloc);
        for extent in 0..EXTENTS {
            let turn = number.wrapping_mul(5).wrapping_add(extent.wrapping_mul(3)) % GUESTS;
            let place = extent.wrapping_mul(GUESTS).wrapping_add(turn);
            extents.push(Extent {
                base: place.wrapping_mul(EXTENT_BLOCKS),
                blocks: EXTENT_BLOCKS,
            })?;
        }
        guest.extents = extents;
        number = number.wrapping_add(1);
    }
    Ok(())
}

/// The lines of a set-up in a script.
pub fn lines_of(text: &mut Text, setup: &Setup) -> Result<(), NoMemory> {
    text.line("host", &[setup.host_bytes])?;
    text.line("mediator", &[setup.mediator])?;
    text.line("disk", &[setup.disk_blocks])?;
    text.line("lanes", &[setup.lanes])?;
    let mut number = 0u64;
    for guest in &setup.guests {
        let Some((first, others)) = guest.extents.split_first() else {
            return Ok(());
        };
        text.guest(number, first.base, first.blocks, HEAP)?;
        for extent in others {
            text.line("extent", &[number, extent.base, extent.blocks])?;
        }
        for region in guest.map.regions() {
            text.line("map", &[number, region.guest, region.host, region.len])?;
        }
        number = number.wrapping_add(1);
    }
    Ok(())
}
