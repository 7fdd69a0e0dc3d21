//! A guest that does as it pleases, at random: it stores, rings, resets, makes and deletes queues, and puts commands into them that name its own
//! and others' addresses and blocks. What the mediator and the device do with its commands is at random, too, and so are events that name what
//! there is not.

use crate::beside::bench::{HONEST, HOSTILE};
use crate::beside::runs::Runs;
use crate::beside::tags::Tag;
use nv_bringup::{
    ADMIN_SUBMISSIONS, ADMIN_TAIL, CC, DISABLED, ENABLED, Random, SUBMISSIONS, TAIL, Wild, bytes_of,
};
use nv_entry::Status;
use nv_world_model::Event;

/// Addresses: its data, its lists, its queues, its last bytes, those after them, the host addresses of both guests' memory and queues, those of the
/// mediator's rings, lists and bounce pages, and the last of all.
const ADDRESSES: &[u64] = &[
    0x3000,
    0x3e00,
    0x5002,
    0x6000,
    0x6000,
    0x6010,
    0x7000,
    0x7ff8,
    0xa000,
    0x1_0000,
    0x1_1000,
    0x1_2000,
    0x1_3000,
    0x1_fffc,
    0x1_f000,
    0x2_0000,
    0x10_0000,
    0x20_0000,
    0x20_3000,
    0x21_2000,
    0x21_3000,
    0x40_0000,
    0x40_2000,
    0x40_3000,
    0x40_4000,
    0xc2_4000,
    0xffff_ffff_ffff_f000,
];

/// The lower halves of addresses that go into an entry.
const LOW: &[u32] = &[
    0x3000,
    0x3002,
    0x3e00,
    0x5000,
    0x6000,
    0x6000,
    0x6010,
    0x7000,
    0x7ff8,
    0xa000,
    0x1_2000,
    0x1_3000,
    0x1_fe00,
    0x2_0000,
    0x20_0000,
    0x20_3000,
    0x21_2000,
    0x40_0000,
    0x40_4000,
    0xffff_f000,
];

/// Opcodes with FUSE and PSDT: those of the I/O commands, most often of transfers, and some that are none.
const OPCODES: &[u32] = &[
    0x0001, 0x0002, 0x0005, 0x4001, 0x4002, 0x4005, 0x4001, 0x4002, 0x4009, 0x0008, 0x0000, 0x8002,
    0xc002, 0x4102, 0x0004, 0x00ff,
];

/// Blocks: its own, those after them, those of the disk that are both guests', and the last of all.
const BLOCKS: &[u32] = &[
    0,
    1,
    5,
    5,
    8,
    31,
    63,
    64,
    936,
    1000,
    1063,
    2000,
    2005,
    2063,
    4095,
    4096,
    0xffff_ffff,
];

/// Opcodes of admin commands, most often of those that make and delete queues, and CDW10 of these.
const ADMIN_OPCODES: &[u32] = &[0, 1, 4, 5, 0, 1, 4, 5, 2, 6, 8, 9, 10, 12, 12, 0x7f, 0x4001];

const QUEUES: &[u32] = &[
    0x000f_0001,
    0x000f_0002,
    0x0001_0001,
    0x007f_0002,
    0x03ff_0003,
    0x0000_0001,
    0x0400_0001,
    0x000f_0000,
    0x000f_0009,
    1,
    2,
];

/// Values of registers.
const VALUES: &[u32] = &[
    0,
    1,
    DISABLED,
    ENABLED,
    0x001f_001f,
    0x0001_0001,
    0x0000_0000,
    0x1_0000,
    0x1_1000,
    0x2_0000,
    0x20_0000,
    0xffff_ffff,
];

/// What it names.
const WILD: Wild = Wild {
    addresses: ADDRESSES,
    low: LOW,
    opcodes: OPCODES,
    blocks: BLOCKS,
    admin_opcodes: ADMIN_OPCODES,
    queues: QUEUES,
    values: VALUES,
    kinds: 3,
};

/// Goes on somewhere.
pub fn turn(runs: &mut Runs, random: &mut Random) {
    match random.below(40) {
        0 | 1 => store(runs, random),
        2..=8 => enter(runs, random),
        9..=11 => list(runs, random),
        12 => load(runs, random),
        13 => registers(runs, random),
        14..=16 => ring(runs, random),
        17 => administer(runs, random),
        18 => runs.play(Event::Admin(HOSTILE)),
        19..=24 => take(runs, random),
        25..=33 => carry(runs, random),
        34..=36 => disturb(runs, random),
        37 => misname(runs, random),
        38 => unnamed(runs, random),
        _ => reset(runs, random),
    }
}

// It stores 16 bytes that mean nothing, anywhere.
fn store(runs: &mut Runs, random: &mut Random) {
    let addr = WILD.somewhere(random);
    let low = u64::from(random.word()) << 32 | u64::from(random.word());
    let high = u64::from(random.word()) << 32 | u64::from(random.word());
    runs.store_row(HOSTILE, addr, low, high);
}

// It puts a command into a slot of its first queue, or of where another may be, and rings.
fn enter(runs: &mut Runs, random: &mut Random) {
    let number = random.below(16);
    let addr = SUBMISSIONS.wrapping_add(64 * u64::from(number));
    runs.store(HOSTILE, addr, &bytes_of(&command(random)));
    let value = if random.once_in(8) {
        random.below(40)
    } else {
        number.wrapping_add(1) % 16
    };
    runs.ring(HOSTILE, TAIL, value);
}

// A command, half of the time one of a transfer from or to its own memory.
fn command(random: &mut Random) -> [u32; 16] {
    if random.once_in(2) {
        transfer(random)
    } else {
        WILD.command(random)
    }
}

// A Write, Read or Compare of some blocks of its own, by one Data Block.
fn transfer(random: &mut Random) -> [u32; 16] {
    let nlb = random.below(8) & 7;
    let data = random.among(&[0x3000, 0x3002, 0x5000, 0x6000, 0x7ff8, 0x1_2000]);
    [
        random.among(&[0x4001, 0x4002, 0x4005]) | random.word() & 0xffff_0000,
        1,
        0,
        0,
        0,
        0,
        data,
        0,
        512 * (nlb + 1),
        0,
        random.below(56),
        0,
        nlb,
        0,
        0,
        0,
    ]
}

// It stores a descriptor, a range or two addresses where its lists lie.
fn list(runs: &mut Runs, random: &mut Random) {
    let (at, low, high) = WILD.row(random);
    runs.store_row(HOSTILE, at, low, high);
}

fn load(runs: &mut Runs, random: &mut Random) {
    let addr = WILD.somewhere(random);
    runs.load(HOSTILE, addr, Wild::length(random) & 0x1fff);
}

fn registers(runs: &mut Runs, random: &mut Random) {
    let offset = Wild::offset(random);
    if random.once_in(2) {
        runs.read(HOSTILE, offset);
    } else {
        runs.write(HOSTILE, offset, WILD.value(random));
    }
}

fn ring(runs: &mut Runs, random: &mut Random) {
    let offset = ADMIN_TAIL + 4 * (random.below(22) & 0x1f);
    let value = if random.once_in(4) {
        random.word()
    } else {
        random.below(18)
    };
    runs.ring(HOSTILE, offset, value);
}

// It puts an admin command into its queue, most often one of queues, and rings.
fn administer(runs: &mut Runs, random: &mut Random) {
    let number = (random.below(32) & 0x1f) as u16;
    let entry = WILD.admin_command(random, number);
    let addr = ADMIN_SUBMISSIONS.wrapping_add(64 * u64::from(number));
    runs.store(HOSTILE, addr, &bytes_of(&entry));
    runs.ring(HOSTILE, ADMIN_TAIL, u32::from(number).wrapping_add(1) % 32);
    runs.play(Event::Admin(HOSTILE));
}

// One of its commands is taken, if there is one.
fn take(runs: &mut Runs, random: &mut Random) {
    let queue = if random.once_in(4) {
        u16::from(random.byte() % 10)
    } else {
        1
    };
    runs.play(Event::Take(HOSTILE, queue, random.byte() % 2));
}

// One of its commands goes on.
fn carry(runs: &mut Runs, random: &mut Random) {
    if let Some(tag) = runs.tags.nth(HOSTILE, random.word()) {
        runs.carry(tag, random.once_in(2));
    }
}

// An event of one of its commands that may be out of turn.
fn disturb(runs: &mut Runs, random: &mut Random) {
    if let Some(tag) = runs.tags.nth(HOSTILE, random.word()) {
        runs.play(named(tag, random));
    }
}

// An event that names a tag, or a slot.
fn named(tag: Tag, random: &mut Random) -> Event {
    let Tag { lane, number } = tag;
    match random.below(10) {
        0 | 1 => Event::List(lane, number, WILD.somewhere(random), Wild::length(random)),
        2 => Event::Submit(lane, number),
        3 => Event::GiveUp(lane, number),
        4 => Event::DevMove(lane, number, u64::from(random.below(20))),
        5 => Event::DevPost(lane, number),
        6..=8 => Event::DevFail(lane, number, status(random)),
        _ => Event::Post(lane, number),
    }
}

fn status(random: &mut Random) -> Status {
    let sct = random.byte() % 4;
    let sc = random.byte() % 0x90;
    Status::new(sct, sc, random.once_in(2))
}

// The same of a tag that is not the honest guest's, and that there may not be.
fn misname(runs: &mut Runs, random: &mut Random) {
    let tag = Tag {
        lane: random.byte() % 4,
        number: random.byte() % 72,
    };
    if !runs.tags.is_of(HONEST, tag.lane, tag.number) {
        runs.play(named(tag, random));
    }
}

// Events that name neither a tag nor the honest guest: of lanes, guests and blocks that there may not be.
fn unnamed(runs: &mut Runs, random: &mut Random) {
    let lane = random.byte() % 4;
    let event = match random.below(6) {
        0 => Event::DevTake(lane),
        1 => Event::Reap(lane),
        2 => Event::Keep(WILD.block(random)),
        3 => Event::Take(2, 1, lane),
        4 => Event::Take(HOSTILE, 9, lane),
        _ => Event::Admin(2),
    };
    runs.play(event);
}

// It turns its controller off, on again, or off and on with queues.
fn reset(runs: &mut Runs, random: &mut Random) {
    match random.below(8) {
        0 => runs.write(HOSTILE, CC, DISABLED),
        1 => runs.write(HOSTILE, CC, ENABLED),
        _ => {
            runs.write(HOSTILE, CC, DISABLED);
            runs.bring_up(HOSTILE);
        }
    }
}
