//! What scripts of `replay` are read as: values that the program prints nothing of. Expected values are read off the rules by hand. Faults are cases of
//! `tests/replay`.
//!
//! A row of a table is a script and a part of its value, with `|` between them and `;` for each line feed.

use nv_replay_script::{Script, parse};
use std::alloc::{AllocError, Global};
use std::process::Abort;
use std::test::Fail;

pub(crate) const SET_UP: &str = "\
host 0x1000000
mediator 0x400000
disk 4096
lanes 1
guest 0 range 1000 64 heap 65536
guest 1 range 2000 64 heap 65536
map 0 0x0 0x100000 0x20000
map 1 0x0 0x200000 0x20000
";

/// Sizes alone, on one line of a row each.
const SIZES: &str = "host 8192\nmediator 4096\ndisk 1\nlanes 1\n";

/// Lines after the set-up, and their events.
const EVENTS: &str = "\
|[]
store 0 0x10000 abCD|[Guest(0, Store { addr: 65536, bytes: BoxedBytes { bytes: [171, 205] } })]
store 255 0xffffffffffffffff -|[Guest(255, Store { addr: 18446744073709551615, bytes: BoxedBytes { bytes: [] } })]
fill 1 12 3 0x11|[Guest(1, Store { addr: 12, bytes: BoxedBytes { bytes: [17, 17, 17] } })]
fill 1 12 0 255|[Guest(1, Store { addr: 12, bytes: BoxedBytes { bytes: [] } })]
load 0 0x0 4|[Guest(0, Load { addr: 0, len: 4 })]
load 0 0x1ffff 0xffffffffffffffff|[Guest(0, Load { addr: 131071, len: 18446744073709551615 })]
load 0 18446744073709551615 18446744073709551614|[Guest(0, Load { addr: 18446744073709551615, len: 18446744073709551614 })]
load 0 1844674407370955161 1844674407370955160|[Guest(0, Load { addr: 1844674407370955161, len: 1844674407370955160 })]
load 0 00000000000000000000000000000000000000000012 0|[Guest(0, Load { addr: 12, len: 0 })]
load 0 1 4# what stands close behind a number|[Guest(0, Load { addr: 1, len: 4 })]
load  0   1 2   |[Guest(0, Load { addr: 1, len: 2 })]
regread 0 0x4|[Guest(0, RegRead { offset: 4 })]
regwrite 0 0x24 0x001f001f|[Guest(0, RegWrite { offset: 36, value: 2031647 })]
bell 0 0x1008 0xffffffff|[Guest(0, Doorbell { offset: 4104, value: 4294967295 })]
admin 16|[Admin(16)]
take 5 65535 0|[Take(5, 65535, 0)]
list 1 2 0x3000 4096|[List(1, 2, 12288, 4096)]
submit 0 9|[Submit(0, 9)]
giveup 0 9|[GiveUp(0, 9)]
devtake 7|[DevTake(7)]
devmove 0 63 0x100|[DevMove(0, 63, 256)]
devpost 0 64|[DevPost(0, 64)]
devfail 0 1 2 0x81 0|[DevFail(0, 1, Status { sct: 2, sc: 129, dnr: false })]
devfail 0 1 0 0x04 1|[DevFail(0, 1, Status { sct: 0, sc: 4, dnr: true })]
keep 4096|[Keep(4096)]
reap 0|[Reap(0)]
post 0 1|[Post(0, 1)]
# no event;;  reap   0  # and a comment;post 0 0|[Reap(0), Post(0, 0)]
load 0 0x0 4;take 5 1 0;post 0 0|[Guest(0, Load { addr: 0, len: 4 }), Take(5, 1, 0), Post(0, 0)]
";

/// Guests after sizes alone.
const GUESTS: &str = "\
|[]
guest 0 range 18446744073709551615 0 heap 256|\
[GuestSetUp { extents: [ExtentLine { base: 18446744073709551615, blocks: 0 }], heap: 256, limit: None, regions: [] }]
guest 0 range 0 1 heap 0x1000000;map 0 1 2 3;map 0 4 5 6|\
[GuestSetUp { extents: [ExtentLine { base: 0, blocks: 1 }], heap: 16777216, limit: None, regions: [Region { guest: 1, host: 2, len: 3 }, \
Region { guest: 4, host: 5, len: 6 }] }]
guest 0 range 7 1 heap 256;extent 0 5 0xffffffffffffffff;extent 0 18446744073709551615 0;extent 0 7 1|\
[GuestSetUp { extents: [ExtentLine { base: 7, blocks: 1 }, ExtentLine { base: 5, blocks: 18446744073709551615 }, \
ExtentLine { base: 18446744073709551615, blocks: 0 }, ExtentLine { base: 7, blocks: 1 }], heap: 256, limit: None, regions: [] }]
guest 0 range 0 1 heap 256;map 0 1 2 3;guest 1 range 2 3 heap 256;extent 1 0 9;extent 0 4 5;map 0 4 5 6;extent 1 0 8|\
[GuestSetUp { extents: [ExtentLine { base: 0, blocks: 1 }, ExtentLine { base: 4, blocks: 5 }], heap: 256, limit: None, \
regions: [Region { guest: 1, host: 2, len: 3 }, Region { guest: 4, host: 5, len: 6 }] }, \
GuestSetUp { extents: [ExtentLine { base: 2, blocks: 3 }, ExtentLine { base: 0, blocks: 9 }, ExtentLine { base: 0, blocks: 8 }], \
heap: 256, limit: None, regions: [] }]
guest 0 range 0 1 heap 256;extent 0 1 1;extent 0 2 1;extent 0 3 1;extent 0 4 1;extent 0 5 1;extent 0 6 1;extent 0 7 1;extent 0 8 1|\
[GuestSetUp { extents: [ExtentLine { base: 0, blocks: 1 }, ExtentLine { base: 1, blocks: 1 }, ExtentLine { base: 2, blocks: 1 }, \
ExtentLine { base: 3, blocks: 1 }, ExtentLine { base: 4, blocks: 1 }, ExtentLine { base: 5, blocks: 1 }, ExtentLine { base: 6, blocks: 1 }, \
ExtentLine { base: 7, blocks: 1 }, ExtentLine { base: 8, blocks: 1 }], heap: 256, limit: None, regions: [] }]
guest 0 range 0 1 heap 256;descriptors 0 0|[GuestSetUp { extents: [ExtentLine { base: 0, blocks: 1 }], heap: 256, limit: Some(0), regions: [] }]
guest 0 range 0 1 heap 256;guest 1 range 2 3 heap 256;descriptors 1 18446744073709551615;descriptors 0 0x1000|\
[GuestSetUp { extents: [ExtentLine { base: 0, blocks: 1 }], heap: 256, limit: Some(4096), regions: [] }, \
GuestSetUp { extents: [ExtentLine { base: 2, blocks: 3 }], heap: 256, limit: Some(18446744073709551615), regions: [] }]
guest 0 range 0 1 heap 256;map 0 1 2 3;guest 1 range 2 3 heap 256;map 0 4 5 6|\
[GuestSetUp { extents: [ExtentLine { base: 0, blocks: 1 }], heap: 256, limit: None, regions: [Region { guest: 1, host: 2, len: 3 }, \
Region { guest: 4, host: 5, len: 6 }] }, \
GuestSetUp { extents: [ExtentLine { base: 2, blocks: 3 }], heap: 256, limit: None, regions: [] }]
";

/// What a test checks of a script.
#[derive(Clone, Copy)]
enum Part {
    Guests,
    Events,
}

// That part of the script, or the fault, printed.
fn answer(rt: &impl AllocGlobal, text: &str, part: Part) -> Result<String, Fail> {
    match (parse(rt.alloc(), text.as_bytes()), part) {
        (Ok(Script { guests, .. }), Part::Guests) => Ok(format!(in rt.alloc(); "{guests:?}")?),
        (Ok(Script { events, .. }), Part::Events) => Ok(format!(in rt.alloc(); "{events:?}")?),
        (Err(fault), _) => Ok(format!(in rt.alloc(); "{fault}")?),
    }
}

// One text after another.
pub(crate) fn joined(alloc: Global, front: &str, back: &str) -> Result<String, AllocError> {
    format!(in alloc; "{front}{back}")
}

// The script of each row of the table after a beginning gives what the row says.
fn expect_rows(
    rt: &(impl Abort + AllocGlobal),
    beginning: &str,
    table: &str,
    part: Part,
) -> Result<(), Fail> {
    for row in table.lines() {
        let (script, want) = row.split_once('|').ok_or("a row without a bar")?;
        let script = script.replace(rt.alloc(), ';', "\n")?;
        let text = joined(rt.alloc(), beginning, &script)?;
        let found = answer(rt, &text, part)?;
        assert!(rt;
            found.as_str() == want,
            "{row:?} gives {found:?}, and not {want:?}"
        );
    }
    Ok(())
}

#[test]
fn reads_the_set_up(rt: HostRuntime) -> Result<(), Fail> {
    let script = parse(rt.alloc(), SET_UP.as_bytes())?;
    let found = format!(in rt.alloc(); "{script:?}")?;
    let want =
        "Script { sizes: Sizes { host: 16777216, mediator: 4194304, disk: 4096, lanes: 1 }, guests: [\
        GuestSetUp { extents: [ExtentLine { base: 1000, blocks: 64 }], heap: 65536, limit: None, \
        regions: [Region { guest: 0, host: 1048576, len: 131072 }] }, \
        GuestSetUp { extents: [ExtentLine { base: 2000, blocks: 64 }], heap: 65536, limit: None, \
        regions: [Region { guest: 0, host: 2097152, len: 131072 }] }\
        ], events: [] }";
    assert_eq!(rt; found.as_str(), want);
    Ok(())
}

#[test]
fn reads_guests_and_their_regions(rt: HostRuntime) -> Result<(), Fail> {
    expect_rows(&rt, SIZES, GUESTS, Part::Guests)
}

#[test]
fn reads_each_event(rt: HostRuntime) -> Result<(), Fail> {
    expect_rows(&rt, SET_UP, EVENTS, Part::Events)
}
