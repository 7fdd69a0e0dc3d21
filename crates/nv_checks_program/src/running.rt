//! Two guests beside two planners, a reaper and the physical controller, each in a thread of its own.

ghost use Rattle.std.specs.Prelude.{◌<◌};

use crate::acting::{Seat, brings_up, ends, finds, stores};
use crate::bench::{FLUSH, READ_BY_LIST, READ_BY_PRP, READ_BY_SEGMENT, WRITE_BY_PRP};
use nv_mem::NoMemory;
use nv_threads::{Gate, Port, Share, Shared, device_loop, planner, reaper};
use std::alloc::Global;
use std::sync::Wait;
use std::sync::atomic::{AtomicBool, Ordering};
use std::thread::{Threads, join};
use std::time::Clock;

/// What a guest does after its bring-up.
#[derive(Clone, Copy)]
pub enum Part {
    /// It reads a block by a list of one Data Block, and the completion's last dword is this.
    Read(u32),
    /// It writes a block, flushes, reads the block back, and reports that these three are posted.
    WriteAndRead,
    /// It reads through a list of 1,000 descriptors, and the completion's last dword is this; then by PRP.
    ReadBySegment(u32),
    /// Nothing.
    Rest,
}

/// What came of a run.
#[derive(Drop)]
pub struct Outcome {
    pub ports: [Port; 2],
    pub shares: [Share; 4],
    /// Whether each guest did its part.
    pub met: bool,
}

// A block's bytes.
fn pattern() -> [u8; 512] {
    let mut bytes = [0u8; 512];
    for (at, byte) in bytes.iter_mut().enumerate() {
        *byte = (at % 251) as u8;
    }
    bytes
}

// Whether a guest writes a block, flushes and reads it back.
fn writes_and_reads<R: Wait + Clock>(
    rt: &R,
    seat: &mut Seat<'_>,
    posted: &AtomicBool,
) -> Result<bool, NoMemory> {
    let bytes = pattern();
    let all = stores(rt, seat, 0x4000, &bytes)?
        && ends(rt, seat, 0, &WRITE_BY_PRP, 0x0001_0001)?
        && ends(rt, seat, 1, &FLUSH, 0x0001_0002)?
        && ends(rt, seat, 2, &READ_BY_PRP, 0x0001_0003)?;
    posted.store(true, Ordering::SeqCst);
    Ok(all && finds(rt, seat, 0x6000, &bytes)?)
}

// Whether a list of 1,000 Data Blocks is stored, of which the last alone has bytes.
fn stores_segment<R: Wait>(rt: &R, seat: &mut Seat<'_>) -> Result<bool, NoMemory> {
    let mut list = vec![in seat.alloc; 0u8; 16000]?;
    for (at, byte) in [(15985, 0x30), (15993, 0x02)] {
        if at < list.len() {
            list[at] = byte;
        }
    }
    stores(rt, seat, 0x4000, &list)
}

// Whether a guest's long list ends so, and its next Read succeeds.
fn reads_by_segment<R: Wait + Clock>(
    rt: &R,
    seat: &mut Seat<'_>,
    dword: u32,
) -> Result<bool, NoMemory> {
    Ok(
        stores_segment(rt, seat)?
            && ends(rt, seat, 0, &READ_BY_SEGMENT, dword)?
            && ends(rt, seat, 1, &READ_BY_PRP, 0x0001_0003)?,
    )
}

// Whether a guest does its part.
fn plays<R: Wait + Clock>(
    rt: &R,
    seat: &mut Seat<'_>,
    part: Part,
    posted: &AtomicBool,
) -> Result<bool, NoMemory> {
    if !brings_up(rt, seat)? {
        return Ok(false);
    }
    match part {
        Part::Read(dword) => ends(rt, seat, 0, &READ_BY_LIST, dword),
        Part::WriteAndRead => writes_and_reads(rt, seat, posted),
        Part::ReadBySegment(dword) => reads_by_segment(rt, seat, dword),
        Part::Rest => Ok(true),
    }
}

// A guest's thread: its port, and whether it did its part.
fn guest<R: Wait + Clock>(
    rt: &R,
    alloc: Global,
    shared: &Shared,
    number: u8,
    part: Part,
    posted: &AtomicBool,
) -> (Port, bool)
    requires { number < 16 }
{
    let mut port = Port::new(alloc, number);
    let mut seat = Seat {
        alloc,
        shared,
        port: &mut port,
    };
    let met = matches!(plays(rt, &mut seat, part, posted), Ok(true));
    (port, met)
}

// Both guests; then the workers get the signal to stop.
fn guests<R: Threads + Wait + Clock + Sync>(
    rt: &R,
    alloc: Global,
    shared: &Shared,
    parts: [Part; 2],
    posted: &AtomicBool,
) -> ((Port, bool), (Port, bool)) {
    let [first, second] = parts;
    let both = join(
        rt,
        || guest(rt, alloc, shared, 0, first, posted),
        || guest(rt, alloc, shared, 1, second, posted),
    );
    shared.stop();
    both
}

// Both planners.
fn planners<G: Gate + Sync, R: Threads + Wait + Clock + Sync>(
    rt: &R,
    alloc: Global,
    shared: &Shared,
    gate: &G,
    heap: u64,
) -> (Share, Share) {
    join(
        rt,
        || planner(rt, alloc, shared, 0, 0, gate, heap),
        || planner(rt, alloc, shared, 1, 0, gate, heap),
    )
}

/// The reaper and the physical controller.
pub fn others<R: Threads + Wait + Clock + Sync>(
    rt: &R,
    alloc: Global,
    shared: &Shared,
) -> (Share, Share) {
    join(
        rt,
        || reaper(rt, alloc, shared, 0),
        || device_loop(rt, alloc, shared, 0),
    )
}

/// All workers: two planners, the reaper and the physical controller.
pub fn workers<G: Gate + Sync, R: Threads + Wait + Clock + Sync>(
    rt: &R,
    alloc: Global,
    shared: &Shared,
    gate: &G,
    heap: u64,
) -> [Share; 4] {
    let ((first, second), (third, fourth)) = join(
        rt,
        || planners(rt, alloc, shared, gate, heap),
        || others(rt, alloc, shared),
    );
    [first, second, third, fourth]
}

/// Runs both guests' parts.
pub fn run<G: Gate + Sync, R: Threads + Wait + Clock + Sync>(
    rt: &R,
    alloc: Global,
    shared: &Shared,
    gate: &G,
    heap: u64,
    parts: [Part; 2],
    posted: &AtomicBool,
) -> Outcome {
    let (((first, first_met), (second, second_met)), shares) = join(
        rt,
        || guests(rt, alloc, shared, parts, posted),
        || workers(rt, alloc, shared, gate, heap),
    );
    Outcome {
        ports: [first, second],
        shares,
        met: first_met && second_met,
    }
}
