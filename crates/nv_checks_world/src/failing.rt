//! Commands of several parts of which some fail. The guest gets the first status that isn't success, in the order of the parts, whichever part ends
//! first. A bounced Read is shown where all parts succeeded, and not at all where one failed.

use crate::bench::Bench;
use nv_bringup::{SLOTS, Span, bytes_of, io_entry};
use nv_entry::{Sqe, Status};
use nv_world_model::Event;
use std::process::Abort;

/// A namespace whose blocks 1, 2 and 3 lie in three extents.
pub const THREE: &[Span] = &[
    Span {
        base: 1000,
        blocks: 2,
    },
    Span {
        base: 3000,
        blocks: 1,
    },
    Span {
        base: 2000,
        blocks: 61,
    },
];

/// How many parts a command has of blocks 1 to 3, a block each.
const PARTS: u8 = 3;

/// How many bytes it moves, and where in the guest's memory they lie: the source of the Write, and the destination of the Read, which is bounced.
const LEN: usize = 1536;

const SOURCE: u64 = 0xa000;

const DESTINATION: u64 = 0x3002;

/// What is at the destination before.
const BEFORE: [u8; LEN] = [0xee; LEN];

/// Blocks 1 to 3 in a Write, a Read that is bounced, and a Compare, but for the identifier.
pub const WRITE: [u32; 16] = io_entry!(0x4001, [0xa000, 0, 1536, 0], [1, 0, 2]);

pub const READ: [u32; 16] = io_entry!(0x4002, [0x3002, 0, 1536, 0], [1, 0, 2]);

const COMPARE: [u32; 16] = io_entry!(0x4005, [0xa000, 0, 1536, 0], [1, 0, 2]);

/// Each command once with its parts in order and once from the last to the first.
const COMMANDS: &[[u32; 16]] = &[WRITE, WRITE, READ, READ, COMPARE, COMPARE];

/// A status that a part fails with: code type, code and DNR.
type Failure = Option<(u8, u8, bool)>;

/// How a part may fail: by Unrecovered Read Error, Write Fault or Data Transfer Error. The guest gets the last as Internal Error, since it is no
/// media error.
const MEDIA: Failure = Some((2, 0x81, false));

const FAULT: Failure = Some((2, 0x80, true));

const TRANSFER: Failure = Some((0, 0x04, true));

const INTERNAL: Failure = Some((0, 0x06, false));

/// Which parts of a command fail, in the order of the parts, and what the guest gets.
struct Case {
    name: &'static str,
    fails: [Failure; 3],
    told: Failure,
}

const CASES: &[Case] = &[
    Case {
        name: "no part fails",
        fails: [None, None, None],
        told: None,
    },
    Case {
        name: "the first part fails",
        fails: [MEDIA, None, None],
        told: MEDIA,
    },
    Case {
        name: "the second part fails",
        fails: [None, TRANSFER, None],
        told: INTERNAL,
    },
    Case {
        name: "the last part fails",
        fails: [None, None, FAULT],
        told: FAULT,
    },
    Case {
        name: "the first and the last part fail",
        fails: [TRANSFER, None, MEDIA],
        told: INTERNAL,
    },
    Case {
        name: "the last two parts fail",
        fails: [None, FAULT, TRANSFER],
        told: FAULT,
    },
    Case {
        name: "all parts fail",
        fails: [MEDIA, FAULT, TRANSFER],
        told: MEDIA,
    },
];

// The status of a failure; success where there is none.
fn status_of(failure: Failure) -> Status {
    match failure {
        Some((sct, sc, dnr)) => Status::new(sct & 7, sc, dnr),
        None => Status::new(0, 0, false),
    }
}

/// The entry with these dwords and an identifier.
pub fn entry(dwords: &[u32; 16], identifier: u16) -> Sqe {
    let mut dwords = *dwords;
    dwords[0] |= u32::from(identifier) << 16;
    Sqe::of(&bytes_of(&dwords))
}

// The source of the Write, in which no two blocks are equal.
fn source() -> [u8; LEN] {
    let mut bytes = [0u8; LEN];
    for (at, byte) in bytes.iter_mut().enumerate() {
        let place = at as u64;
        let value = place
            .wrapping_mul(7)
            .wrapping_add(place / 512)
            .wrapping_add(1);
        *byte = (value % 256) as u8;
    }
    bytes
}

// The physical controller ends a part: it moves its block and completes it, or it fails it.
fn end_part(bench: &mut Bench, part: u8, failure: Failure) {
    match failure {
        Some(_) => bench.must(Event::DevFail(0, part, status_of(failure))),
        None => {
            bench.must(Event::DevMove(0, part, 0));
            bench.must(Event::DevPost(0, part));
        }
    }
}

// It ends all parts, from the first to the last or from the last to the first.
fn end_parts(bench: &mut Bench, fails: &[Failure; 3], backwards: bool) {
    for place in 0..PARTS {
        let part = if backwards { 2 - place } else { place };
        end_part(bench, part, fails[usize::from(part)]);
        bench.must(Event::Reap(0));
    }
}

/// The command of that number is entered, taken and handed on in three parts, which the physical controller takes.
pub fn hand_on(bench: &mut Bench, number: u16, dwords: &[u32; 16]) {
    bench.enter(0, number, &entry(dwords, number));
    bench.must(Event::Take(0, 1, 0));
    bench.must(Event::Submit(0, 0));
    for _ in 0..PARTS {
        bench.must(Event::DevTake(0));
    }
}

// Ends the test where a command is not completed once, as is wanted, or not all of its tags come free.
fn expect_told(rt: &impl Abort, bench: &mut Bench, number: u16, case: &Case) {
    assert_eq!(rt; bench.tags_of(0, 0), PARTS, "{}", case.name);
    bench.must(Event::Post(0, 0));
    let told = bench.completion(0, number).expect(rt, "a completion");
    bench.look(0, number);
    assert_eq!(rt; told.status(), status_of(case.told), "{}", case.name);
    assert_eq!(rt; told.cid(), number, "{}", case.name);
    assert!(rt; bench.is_free(0) && !bench.failed, "{}", case.name);
}

// Ends the test where the destination shows other bytes than these: those of the blocks after a Read all of whose parts succeeded, and otherwise
// those of before.
fn expect_shown(rt: &impl Abort, bench: &Bench, dwords: &[u32; 16], case: &Case) {
    let is_read = dwords[0] == READ[0];
    let shown = if is_read && case.told.is_none() {
        source()
    } else {
        BEFORE
    };
    assert!(rt; bench.shows(0, DESTINATION, &shown), "{}", case.name);
}

// Ends the test where a command of which these parts fail ends otherwise than is wanted. The parts end in order where its number is even.
fn expect(rt: &impl Abort, bench: &mut Bench, number: u16, dwords: &[u32; 16], case: &Case) {
    bench.store(0, DESTINATION, &BEFORE);
    hand_on(bench, number, dwords);
    end_parts(bench, &case.fails, number % 2 == 1);
    expect_told(rt, bench, number, case);
    expect_shown(rt, bench, dwords, case);
}

// Ends the test where one of the commands does, of which these parts fail. They have the numbers from that one on.
fn expect_commands(rt: &impl Abort, bench: &mut Bench, first: u16, case: &Case) {
    let mut number = first;
    for dwords in COMMANDS {
        expect(rt, bench, number, dwords, case);
        number = number.wrapping_add(1);
    }
}

// Ends the test where one of the cases does.
fn expect_cases(rt: &impl Abort, bench: &mut Bench, cases: &[Case]) {
    let mut number = 0u16;
    for case in cases {
        expect_commands(rt, bench, number, case);
        number = number.wrapping_add(6);
    }
}

#[test]
fn the_first_part_that_fails_decides(rt: HostRuntime) {
    let mut bench = Bench::new(rt.alloc(), 1, &[THREE], SLOTS).expect(&rt, "a world");
    bench.bring_up(0);
    bench.store(0, SOURCE, &source());
    expect_cases(&rt, &mut bench, CASES);
}
