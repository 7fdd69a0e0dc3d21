//! Scripts of `run`: guests that do one command after another, and wait for each: short ones, or Reads whose list names itself.

use crate::entry::{
    CREATE_COMPLETION_QUEUE, CREATE_SUBMISSION_QUEUE, Command, DATA, FLUSH, READ, SEGMENT, SGL,
    WRITE, admin_entry, entry, halves, length_and_kind,
};
use crate::random::Random;
use crate::text::Text;
use nv_mem::NoMemory;
use std::alloc::Global;

/// How many guests there are, and lanes, and blocks of each guest.
const GUESTS: u64 = 4;

const LANES: u64 = 2;

const BLOCKS: u64 = 4096;

/// The slots of each queue.
const SLOTS: u64 = 64;

/// How many bytes a guest has to plan in: for short commands, and for a list of 1,024 arrays.
const SHORT_HEAP: u64 = 0x1_0000;

const LONG_HEAP: u64 = 0x10_0000;

/// Where a Segment is that names itself.
const LOOP: u64 = 0x2_0000;

/// Internal Error in the last dword of a completion.
const INTERNAL_ERROR: u64 = 0x000c_0000;

/// The text of a script in which each guest does so many short commands.
pub fn script(alloc: Global, seed: u64, commands: u64) -> Result<Text, NoMemory> {
    let mut random = Random::new(seed);
    let mut text = opened(alloc, SHORT_HEAP)?;
    for number in 0..commands {
        for guest in 0..GUESTS {
            let short = short(&mut random);
            command(alloc, &mut text, guest, number, &short, 0)?;
            if random.once_in(8) {
                let addr = random.below(0x10_0000).wrapping_add(0x10_0000);
                text.line("load", &[guest, addr, 16])?;
            }
        }
    }
    Ok(text)
}

/// The text of a script in which each guest does so many Reads whose list is one Segment that names itself: it is read until the limit of 1,024
/// descriptors ends it.
pub fn looped_script(alloc: Global, commands: u64) -> Result<Text, NoMemory> {
    let mut text = opened(alloc, LONG_HEAP)?;
    let list = length_and_kind(16, SEGMENT);
    let mut segment = Vec::new(alloc);
    segment.extend_from_slice(&LOOP.to_le_bytes())?;
    segment.extend_from_slice(&list.to_le_bytes())?;
    for guest in 0..GUESTS {
        text.line_with_bytes("store", &[guest, LOOP], &segment)?;
    }
    let read = Command {
        operation: READ | SGL,
        pointer: (LOOP, list),
        start: 0,
        count: 0,
    };
    for number in 0..commands {
        for guest in 0..GUESTS {
            command(alloc, &mut text, guest, number, &read, INTERNAL_ERROR)?;
        }
    }
    Ok(text)
}

// The text of a script whose guests have their queues, and so many bytes to plan in.
fn opened(alloc: Global, heap: u64) -> Result<Text, NoMemory> {
    let mut text = Text::new(alloc);
    text.line("host", &[0x800_0000])?;
    text.line("mediator", &[0x400_0000])?;
    text.line("disk", &[GUESTS * BLOCKS])?;
    text.line("lanes", &[LANES])?;
    for guest in 0..GUESTS {
        text.guest(guest, guest.wrapping_mul(BLOCKS), BLOCKS, heap)?;
        let host = guest.wrapping_mul(0x40_0000).wrapping_add(0x10_0000);
        text.line("map", &[guest, 0, host, 0x40_0000])?;
    }
    for guest in 0..GUESTS {
        bring_up(alloc, &mut text, guest)?;
    }
    Ok(text)
}

// A guest's queues are made.
fn bring_up(alloc: Global, text: &mut Text, guest: u64) -> Result<(), NoMemory> {
    let completions = admin_entry(alloc, CREATE_COMPLETION_QUEUE, 1, 0x1_2000, 64, 1)?;
    text.line_with_bytes("store", &[guest, 0x1_0000], &completions)?;
    let submissions = admin_entry(alloc, CREATE_SUBMISSION_QUEUE, 2, 0x1_3000, 64, 0x1_0001)?;
    text.line_with_bytes("store", &[guest, 0x1_0040], &submissions)?;
    text.line("regwrite", &[guest, 0x24, 0x1f_001f])?;
    text.line("regwrite", &[guest, 0x28, 0x1_0000])?;
    text.line("regwrite", &[guest, 0x30, 0x1_1000])?;
    text.line("regwrite", &[guest, 0x14, 0x46_0001])?;
    text.line("bell", &[guest, 0x1000, 2])?;
    text.line("await", &[guest, 0x1_101c, 0x1_0002])
}

// A guest does a command: it stores the entry, rings, waits for the completion with that status, and acknowledges it.
fn command(
    alloc: Global,
    text: &mut Text,
    guest: u64,
    number: u64,
    command: &Command,
    status: u64,
) -> Result<(), NoMemory> {
    let slot = number % SLOTS;
    let next = (slot + 1) % SLOTS;
    let phase = 1 - number / SLOTS % 2;
    let identifier = number % 0x1_0000;
    let bytes = entry(alloc, command, identifier)?;
    text.line_with_bytes("store", &[guest, 0x1_3000 + 64 * slot], &bytes)?;
    text.line("bell", &[guest, 0x1008, next])?;
    let last = (0x1_0000 * phase + identifier).wrapping_add(status);
    text.line("await", &[guest, 0x1_200c + 16 * slot, last])?;
    text.line("bell", &[guest, 0x100c, next])
}

// A Read or a Write of up to 8 blocks, at an odd address now and then, or a Flush.
fn short(random: &mut Random) -> Command {
    if random.once_in(8) {
        return Command {
            operation: FLUSH,
            pointer: (0, 0),
            start: 0,
            count: 0,
        };
    }
    let opcode = if random.below(10) < 7 { READ } else { WRITE };
    let blocks = random.below(8).wrapping_add(1);
    let odd = if random.once_in(8) { 1 } else { 0 };
    let addr = random
        .below(0x3_c000)
        .wrapping_mul(4)
        .wrapping_add(0x10_0000 + odd);
    Command {
        operation: opcode | SGL,
        pointer: (addr, length_and_kind(blocks.wrapping_mul(512), DATA)),
        start: random.below(BLOCKS - 8),
        count: halves(blocks.wrapping_sub(1)).0,
    }
}
