//! What a guest may try, with what must come of it, and the honest guest's commands between. The values are read off the rules by hand.

use crate::beside::bench::{HONEST, HOSTILE};
use crate::beside::deeds::{Beside, Deed, Row, Told, play};
use crate::beside::honest::{Honest, ROUND};
use crate::beside::runs::{Runs, Trial, attempt};
use nv_bringup::{CSTS, DISABLED, ENABLED, HEAD, TAIL, io_entry};
use std::process::Abort;

/// A Read of one block, of identifier 7 and SLBA 5, by one Data Block at this address.
macro_rules! read {
    ($addr:expr) => {
        io_entry!(0x0007_4002, [$addr, 0, 512, 0], [5, 0, 0])
    };
}

/// A Read of two blocks by a list at 6000h of so many bytes and that type.
macro_rules! read_by_list {
    ($len:expr, $kind:expr) => {
        io_entry!(0x0007_4002, [0x6000, 0, $len, $kind], [5, 0, 1])
    };
}

/// The last dword of a Segment and of a Last Segment.
const SEGMENT: u32 = 0x2000_0000;

const LAST: u32 = 0x3000_0000;

/// Where the last dword of the first completion is, and that of the second.
const FIRST: u64 = 0x1_200c;

const SECOND: u64 = 0x1_201c;

/// The guest has its queues, 12 KiB of EEh, and a Last Segment that names two blocks; its command is taken.
const LIST_TAKEN: &[Row] = &[
    (Deed::BringUp, Told::Done),
    (Deed::Fill(0x3e00, 0xee), Told::Done),
    (Deed::Fill(0x5000, 0xee), Told::Done),
    (Deed::Row(0x6000, 0x3e00, 512), Told::Done),
    (Deed::Row(0x6010, 0x5000, 512), Told::Done),
    (Deed::Enter(0, read_by_list!(32, LAST)), Told::Done),
    (Deed::Ring(TAIL, 1), Told::Done),
    (Deed::Take, Told::Done),
];

/// The list is read, changed to name what the guest does not have, and read again: it is as it was read first.
const READ_TWICE: &[Row] = &[
    (Deed::Submit, Told::Stale),
    (Deed::List(0x6000, 32), Told::Bytes),
    (Deed::Row(0x6010, 0x2_0000, 512), Told::Done),
    (Deed::List(0x6000, 32), Told::Bytes),
    (Deed::Submit, Told::Done),
    (Deed::Prps(0, 0x10_3e00, 0x10_5000), Told::Any),
    (Deed::Carry, Told::Any),
    (Deed::Dword(FIRST, 0x0001_0007), Told::Bytes),
    (Deed::Shows(0x3e00, 0), Told::Bytes),
    (Deed::Shows(0x5000, 0), Told::Bytes),
];

/// The first read is of half the list, which nobody asked for: it is as it was read next.
const HALF_READ_FIRST: &[Row] = &[
    (Deed::List(0x6000, 16), Told::Bytes),
    (Deed::Row(0x6010, 0x2_0000, 512), Told::Done),
    (Deed::List(0x6000, 32), Told::Bytes),
    (Deed::Submit, Told::Done),
    (Deed::Post, Told::Done),
    (Deed::Dword(FIRST, 0x8009_0007), Told::Bytes),
    (Deed::Shows(0x3e00, 0xee), Told::Bytes),
    (Deed::Shows(0x5000, 0xee), Told::Bytes),
];

/// It is not read at all.
const NOT_READ: &[Row] = &[
    (Deed::Submit, Told::Stale),
    (Deed::Row(0x6010, 0x2_0000, 512), Told::Done),
    (Deed::Submit, Told::Stale),
    (Deed::Submit, Told::Stale),
    (Deed::Shows(0x3e00, 0xee), Told::Bytes),
];

/// 16 blocks are written, each of another byte; they are read to one page, named twice, by a device that moves the last block first.
const ONE_PAGE_TWICE: &[Row] = &[
    (Deed::BringUp, Told::Done),
    (Deed::Fill(0xa000, 0x10), Told::Done),
    (Deed::Fill(0xa200, 0x11), Told::Done),
    (Deed::Fill(0xa400, 0x12), Told::Done),
    (Deed::Fill(0xa600, 0x13), Told::Done),
    (Deed::Fill(0xa800, 0x14), Told::Done),
    (Deed::Fill(0xaa00, 0x15), Told::Done),
    (Deed::Fill(0xac00, 0x16), Told::Done),
    (Deed::Fill(0xae00, 0x17), Told::Done),
    (Deed::Fill(0xb000, 0x18), Told::Done),
    (Deed::Fill(0xb200, 0x19), Told::Done),
    (Deed::Fill(0xb400, 0x1a), Told::Done),
    (Deed::Fill(0xb600, 0x1b), Told::Done),
    (Deed::Fill(0xb800, 0x1c), Told::Done),
    (Deed::Fill(0xba00, 0x1d), Told::Done),
    (Deed::Fill(0xbc00, 0x1e), Told::Done),
    (Deed::Fill(0xbe00, 0x1f), Told::Done),
    (
        Deed::Enter(
            0,
            io_entry!(0x0006_0001, [0xa000, 0, 0xb000, 0], [0, 0, 15]),
        ),
        Told::Done,
    ),
    (Deed::Ring(TAIL, 1), Told::Done),
    (Deed::Take, Told::Done),
    (Deed::Carry, Told::Any),
    (Deed::Dword(FIRST, 0x0001_0006), Told::Bytes),
    (
        Deed::Enter(
            1,
            io_entry!(0x0007_0002, [0x3000, 0, 0x3000, 0], [0, 0, 15]),
        ),
        Told::Done,
    ),
    (Deed::Ring(TAIL, 2), Told::Done),
    (Deed::Take, Told::Done),
    (Deed::Submit, Told::Done),
    (Deed::Prps(1, 0x10_3000, 0x10_3000), Told::Any),
    (Deed::DevTake, Told::Done),
    (Deed::Move(15), Told::Done),
    (Deed::Move(14), Told::Done),
    (Deed::Move(13), Told::Done),
    (Deed::Move(12), Told::Done),
    (Deed::Move(11), Told::Done),
    (Deed::Move(10), Told::Done),
    (Deed::Move(9), Told::Done),
    (Deed::Move(8), Told::Done),
    (Deed::Move(7), Told::Done),
    (Deed::Move(6), Told::Done),
    (Deed::Move(5), Told::Done),
    (Deed::Move(4), Told::Done),
    (Deed::Move(3), Told::Done),
    (Deed::Move(2), Told::Done),
    (Deed::Move(1), Told::Done),
    (Deed::Move(0), Told::Done),
    (Deed::DevPost, Told::Done),
    (Deed::Carry, Told::Any),
    (Deed::Dword(SECOND, 0x0001_0007), Told::Bytes),
    (Deed::Shows(0x3000, 0x10), Told::Bytes),
    (Deed::Shows(0x3200, 0x11), Told::Bytes),
    (Deed::Shows(0x3400, 0x12), Told::Bytes),
    (Deed::Shows(0x3600, 0x13), Told::Bytes),
    (Deed::Shows(0x3800, 0x14), Told::Bytes),
    (Deed::Shows(0x3a00, 0x15), Told::Bytes),
    (Deed::Shows(0x3c00, 0x16), Told::Bytes),
    (Deed::Shows(0x3e00, 0x17), Told::Bytes),
];

/// Two blocks are written, and read to one place, named twice: it goes by the bounce pages, and the last block meant for the place stays.
const ONE_PLACE_TWICE: &[Row] = &[
    (Deed::BringUp, Told::Done),
    (Deed::Fill(0xa000, 0x31), Told::Done),
    (Deed::Fill(0xa200, 0x32), Told::Done),
    (
        Deed::Enter(0, io_entry!(0x0006_4001, [0xa000, 0, 1024, 0], [5, 0, 1])),
        Told::Done,
    ),
    (Deed::Ring(TAIL, 1), Told::Done),
    (Deed::Take, Told::Done),
    (Deed::Carry, Told::Any),
    (Deed::Dword(FIRST, 0x0001_0006), Told::Bytes),
    (Deed::Row(0x6000, 0x3000, 512), Told::Done),
    (Deed::Row(0x6010, 0x3000, 512), Told::Done),
    (Deed::Enter(1, read_by_list!(32, LAST)), Told::Done),
    (Deed::Ring(TAIL, 2), Told::Done),
    (Deed::Take, Told::Done),
    (Deed::List(0x6000, 32), Told::Bytes),
    (Deed::Submit, Told::Done),
    (Deed::Prps(1, 0x40_4000, 0), Told::Any),
    (Deed::Carry, Told::Any),
    (Deed::Dword(SECOND, 0x0001_0007), Told::Bytes),
    (Deed::Shows(0x3000, 0x32), Told::Bytes),
];

/// A Read of one block, and then doorbells that are out of bounds, of a queue that is not there, and beyond what was posted.
const DOORBELLS: &[Row] = &[
    (Deed::BringUp, Told::Done),
    (Deed::Fill(0x3000, 0xee), Told::Done),
    (Deed::Enter(0, read!(0x3000)), Told::Done),
    (Deed::Ring(TAIL, 1), Told::Done),
    (Deed::Take, Told::Done),
    (Deed::Submit, Told::Done),
    (Deed::Prps(0, 0x10_3000, 0), Told::Any),
    (Deed::Carry, Told::Any),
    (Deed::Dword(FIRST, 0x0001_0007), Told::Bytes),
    (Deed::Shows(0x3000, 0), Told::Bytes),
    (Deed::Ring(TAIL, 16), Told::Ignored),
    (Deed::Ring(0x1014, 0), Told::Ignored),
    (Deed::Ring(HEAD, 2), Told::Ignored),
    (Deed::Ring(HEAD, 0x1_0001), Told::Done),
];

/// A reset with a Read in the device, which runs out.
const RESET: &[Row] = &[
    (Deed::BringUp, Told::Done),
    (Deed::Fill(0x3000, 0xee), Told::Done),
    (Deed::Enter(0, read!(0x3000)), Told::Done),
    (Deed::Ring(TAIL, 1), Told::Done),
    (Deed::Take, Told::Done),
    (Deed::Submit, Told::Done),
    (Deed::DevTake, Told::Done),
    (Deed::Control(DISABLED), Told::Done),
    (Deed::Register(CSTS, 1), Told::Bytes),
    (Deed::Move(0), Told::Done),
    (Deed::DevPost, Told::Done),
    (Deed::Reap, Told::Done),
    (Deed::Register(CSTS, 1), Told::Bytes),
    (Deed::Control(ENABLED), Told::Ignored),
    (Deed::Post, Told::Done),
    (Deed::Dword(0x1_2000, 0), Told::Bytes),
    (Deed::Dword(FIRST, 0), Told::Bytes),
    (Deed::Register(CSTS, 0), Told::Bytes),
    (Deed::Shows(0x3000, 0), Told::Bytes),
];

/// A Read that fails with a media error, and one by the bounce pages that fails otherwise, of which nothing is delivered.
const FAILURES: &[Row] = &[
    (Deed::BringUp, Told::Done),
    (Deed::Row(0x1_2000, 0, 0), Told::Done),
    (Deed::Row(0x1_2010, 0, 0), Told::Done),
    (Deed::Enter(0, read!(0x3000)), Told::Done),
    (Deed::Ring(TAIL, 1), Told::Done),
    (Deed::Take, Told::Done),
    (Deed::Submit, Told::Done),
    (Deed::DevTake, Told::Done),
    (Deed::DevFail(2, 0x81, false), Told::Done),
    (Deed::Reap, Told::Done),
    (Deed::Post, Told::Done),
    (Deed::Dword(FIRST, 0x0503_0007), Told::Bytes),
    (Deed::Fill(0x3002, 0xee), Told::Done),
    (Deed::Enter(1, read!(0x3002)), Told::Done),
    (Deed::Ring(TAIL, 2), Told::Done),
    (Deed::Take, Told::Done),
    (Deed::Submit, Told::Done),
    (Deed::DevTake, Told::Done),
    (Deed::Move(0), Told::Done),
    (Deed::DevFail(0, 0x04, true), Told::Done),
    (Deed::Reap, Told::Done),
    (Deed::Post, Told::Done),
    (Deed::Dword(SECOND, 0x000d_0007), Told::Bytes),
    (Deed::Shows(0x3002, 0xee), Told::Bytes),
    (Deed::Control(DISABLED), Told::Done),
    (Deed::Register(CSTS, 0), Told::Bytes),
];

/// A list that names itself: the reading ends at the limit, and nothing moves.
const LIST_OF_ITSELF: &[Row] = &[
    (Deed::BringUp, Told::Done),
    (Deed::Fill(0x3000, 0xee), Told::Done),
    (Deed::Row(0x6000, 0x3000, 0), Told::Done),
    (Deed::Row(0x6010, 0x6000, 0x2000_0000_0000_0020), Told::Done),
    (Deed::Enter(0, read_by_list!(32, SEGMENT)), Told::Done),
    (Deed::Ring(TAIL, 1), Told::Done),
    (Deed::Take, Told::Done),
    (Deed::Carry, Told::Any),
    (Deed::Dword(FIRST, 0x000d_0007), Told::Bytes),
    (Deed::Shows(0x3000, 0xee), Told::Bytes),
];

/// A Read by the bounce pages that fails in a slot which holds the honest guest's bytes: they are not delivered.
const FAILED_IN_A_USED_SLOT: &[Row] = &[
    (Deed::Fill(0x3002, 0xee), Told::Done),
    (Deed::Enter(0, read!(0x3002)), Told::Done),
    (Deed::Ring(TAIL, 1), Told::Done),
    (Deed::Take, Told::Done),
    (Deed::Bounce(0x21), Told::Any),
    (Deed::Submit, Told::Done),
    (Deed::DevTake, Told::Done),
    (Deed::Bounce(0x21), Told::Any),
    (Deed::DevFail(0, 0x04, true), Told::Done),
    (Deed::Reap, Told::Done),
    (Deed::Post, Told::Done),
    (Deed::Dword(FIRST, 0x000d_0007), Told::Bytes),
    (Deed::Shows(0x3002, 0xee), Told::Bytes),
];

/// No rows.
const NONE: &[Row] = &[];

/// How many steps the honest guest makes after each of the other's.
const PACES: [u16; 4] = [0, 1, 2, 5];

/// Rows that are played one list after another, with the honest guest beside them.
#[derive(Clone, Copy)]
struct Scene {
    beside: Beside,
    parts: [&'static [Row]; 3],
}

impl Trial for Scene {
    fn play<R: Abort>(&mut self, rt: &R, runs: &mut Runs) {
        let lane = if self.beside.shares_lane { 0 } else { 1 };
        let mut honest = Honest::new(lane);
        runs.bring_up(HONEST);
        for rows in self.parts {
            play(rt, runs, &mut honest, self.beside, rows);
        }
        finish(rt, runs, &mut honest, self.beside.name);
    }
}

/// The failure in a slot that the honest guest's commands, which go by the same lane, have used before.
#[derive(Clone, Copy)]
struct UsedSlot {
    beside: Beside,
}

impl Trial for UsedSlot {
    fn play<R: Abort>(&mut self, rt: &R, runs: &mut Runs) {
        let mut honest = Honest::new(0);
        runs.bring_up(HONEST);
        runs.bring_up(HOSTILE);
        honest.run(rt, runs, ROUND);
        play(rt, runs, &mut honest, self.beside, FAILED_IN_A_USED_SLOT);
        finish(rt, runs, &mut honest, self.beside.name);
    }
}

// Lets the honest guest end its commands, once each at least, and ends the test where a guest was served otherwise than alone.
fn finish(rt: &impl Abort, runs: &mut Runs, honest: &mut Honest, name: &str) {
    let commands = honest.ended.wrapping_add(1).max(ROUND);
    honest.run(rt, runs, commands);
    runs.expect_alike(rt, name);
}

// Plays these rows with the honest guest at each pace, by a lane of its own and by the other's.
fn expect_each(rt: &(impl Abort + AllocGlobal), name: &'static str, parts: [&'static [Row]; 3]) {
    for pace in PACES {
        for shares_lane in [false, true] {
            let beside = Beside {
                name,
                pace,
                shares_lane,
            };
            attempt(rt, false, &mut Scene { beside, parts });
        }
    }
}

#[test]
fn a_list_that_changes_behind_its_first_reading(rt: HostRuntime) {
    expect_each(&rt, "read twice", [LIST_TAKEN, READ_TWICE, NONE]);
    expect_each(&rt, "half read first", [LIST_TAKEN, HALF_READ_FIRST, NONE]);
    expect_each(&rt, "not read", [LIST_TAKEN, NOT_READ, NONE]);
}

#[test]
fn one_page_twice_from_the_last_block_on(rt: HostRuntime) {
    expect_each(&rt, "one page twice", [ONE_PAGE_TWICE, NONE, NONE]);
}

#[test]
fn one_place_twice(rt: HostRuntime) {
    expect_each(&rt, "one place twice", [ONE_PLACE_TWICE, NONE, NONE]);
}

#[test]
fn doorbells_out_of_bounds(rt: HostRuntime) {
    expect_each(&rt, "doorbells", [DOORBELLS, NONE, NONE]);
}

#[test]
fn a_reset_and_failures_beside_commands_in_flight(rt: HostRuntime) {
    expect_each(&rt, "reset and failures", [RESET, FAILURES, FAILURES]);
}

#[test]
fn a_list_that_names_itself(rt: HostRuntime) {
    expect_each(&rt, "a list of itself", [LIST_OF_ITSELF, NONE, NONE]);
}

#[test]
fn a_failure_in_a_slot_with_bytes_of_the_honest_guest(rt: HostRuntime) {
    for pace in [0, 1] {
        let beside = Beside {
            name: "a used slot",
            pace,
            shares_lane: true,
        };
        attempt(&rt, false, &mut UsedSlot { beside });
    }
}
