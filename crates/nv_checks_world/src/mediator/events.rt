//! Pseudorandom events, the same for each seed, of a guest that was brought up before.

use nv_bringup::{HEAD, Random, SUBMISSIONS, TAIL, bytes_of, io_entry};
use nv_entry::{Status, StatusCode};
use nv_mem::{BoxedBytes, NoMemory};
use nv_model::Act;
use nv_world_model::Event;
use std::alloc::Global;

/// A Write and a Read of two blocks on both sides of the join of the guest's extents, a Read by a list of one descriptor at 6000h, and a Flush.
const ENTRIES: [[u32; 16]; 4] = [
    io_entry!(0x0007_0001, [0x3000, 0, 0, 0], [31, 0, 1]),
    io_entry!(0x0008_0002, [0x5000, 0, 0, 0], [31, 0, 1]),
    io_entry!(0x0009_4002, [0x6000, 0, 16, 0x3000_0000], [5, 0, 0]),
    io_entry!(0x000a_0000, [0, 0, 0, 0], [0, 0, 0]),
];

// The event by which the guest stores bytes.
fn store(alloc: Global, addr: u64, bytes: &[u8]) -> Result<Event, NoMemory> {
    let bytes = BoxedBytes::from_slice(alloc, bytes)?;
    Ok(Event::Guest(0, Act::Store { addr, bytes }))
}

/// The next event.
pub fn next(alloc: Global, random: &mut Random) -> Result<Event, NoMemory> {
    let kind = random.byte() & 31;
    let first = random.byte() & 3;
    let second = random.byte() & 15;
    if kind < 6 {
        return guests(alloc, kind, first, second);
    }
    Ok(others(kind, first, second))
}

// An act of the guest: an entry, a doorbell, bytes or a descriptor is stored, few or many bytes are loaded, or a register is read.
fn guests(alloc: Global, kind: u8, first: u8, second: u8) -> Result<Event, NoMemory> {
    let slot = u64::from(second);
    match kind {
        0 => {
            let entry = ENTRIES[usize::from(first & 3)];
            store(alloc, SUBMISSIONS + 64 * slot, &bytes_of(&entry))
        }
        1 => Ok(Event::Guest(
            0,
            Act::Doorbell {
                offset: TAIL,
                value: u32::from(second),
            },
        )),
        2 => Ok(Event::Guest(
            0,
            Act::Doorbell {
                offset: HEAD,
                value: u32::from(second),
            },
        )),
        3 => store(
            alloc,
            0x6000,
            &[0, 0x50, 0, 0, 0, 0, 0, 0, 0, 2, 0, 0, 0, 0, 0, 0],
        ),
        4 => store(
            alloc,
            0x3000 + 64 * slot,
            &[first, second, 1, 2, 3, 4, 5, 6, 7],
        ),
        _ => Ok(shown(first, second)),
    }
}

// A load of few or many bytes, mapped or not, and a register that is read.
fn shown(first: u8, second: u8) -> Event {
    let addr = 0x4ff8 + 64 * u64::from(second);
    let act = match first {
        0 => Act::Load { addr, len: 7 },
        1 => Act::Load { addr, len: 520 },
        2 => Act::Load {
            addr: 0x2_0000,
            len: 1,
        },
        _ => Act::RegRead { offset: 0x1c },
    };
    Event::Guest(0, act)
}

// An event of another, of the first lane.
fn others(kind: u8, first: u8, second: u8) -> Event {
    match kind {
        6 | 7 => Event::Take(0, 1, 0),
        8 => Event::List(0, first, 0x6000, 16),
        9 | 10 => Event::Submit(0, first),
        11 => Event::GiveUp(0, second),
        12 | 13 => Event::DevTake(0),
        14..=17 => Event::DevMove(0, first, u64::from(second & 1)),
        18..=21 => Event::DevPost(0, first),
        22 => Event::DevFail(0, second, failure()),
        23 => Event::Keep(1000 + u64::from(second)),
        24..=26 => Event::Reap(0),
        27 => Event::Admin(first),
        _ => Event::Post(0, first),
    }
}

// The status of a failure.
fn failure() -> Status {
    StatusCode::InternalError.status()
}
