//! What scripts of `run` are read as: values that the program prints nothing of. Expected values are derived from the rules by hand. Faults are cases of
//! `tests/run`.
//!
//! A row of a table has the lines after the set-up and what they are, with `|` between them and `;` for each line feed.

use crate::parsing::replay::{SET_UP, joined};
use nv_run_script::parse;
use std::process::Abort;
use std::test::Fail;

/// Lines after the set-up, and what they are.
const LINES: &str = "\
|[]
store 0 0x10000 abCD|[Line { number: 9, guest: 0, task: Act(Store { addr: 65536, bytes: BoxedBytes { bytes: [171, 205] } }) }]
fill 1 12 3 0x11|[Line { number: 9, guest: 1, task: Act(Store { addr: 12, bytes: BoxedBytes { bytes: [17, 17, 17] } }) }]
load 0 0x1ffff 2|[Line { number: 9, guest: 0, task: Act(Load { addr: 131071, len: 2 }) }]
regread 0 0x4;regwrite 1 0x24 0x001f001f|[Line { number: 9, guest: 0, task: Act(RegRead { offset: 4 }) }, Line { number: 10, guest: 1, task: Act(RegWrite { offset: 36, value: 2031647 }) }]
# a comment;;bell 0 0x1008 1|[Line { number: 11, guest: 0, task: Act(Doorbell { offset: 4104, value: 1 }) }]
await 0 0x1200c 0x00010007|[Line { number: 9, guest: 0, task: Await { addr: 73740, value: 65543 } }]
await 1 0xffffffffffffffff 0xffffffff|[Line { number: 9, guest: 1, task: Await { addr: 18446744073709551615, value: 4294967295 } }]
awaitreg 1 0x1c 0|[Line { number: 9, guest: 1, task: AwaitReg { offset: 28, value: 0 } }]
";

// Each row of the table gives what the row says.
fn expect_rows(rt: &(impl Abort + AllocGlobal), table: &str) -> Result<(), Fail> {
    for row in table.lines() {
        let (lines, want) = row.split_once('|').ok_or("a row without a bar")?;
        let lines = lines.replace(rt.alloc(), ';', "\n")?;
        let text = joined(rt.alloc(), SET_UP, &lines)?;
        let found = match parse(rt.alloc(), text.as_bytes()) {
            Ok(script) => format!(in rt.alloc(); "{:?}", script.lines)?,
            Err(fault) => format!(in rt.alloc(); "{fault}")?,
        };
        assert!(rt;
            found.as_str() == want,
            "{row:?} gives {found:?}, and not {want:?}"
        );
    }
    Ok(())
}

#[test]
fn reads_each_line(rt: HostRuntime) -> Result<(), Fail> {
    expect_rows(&rt, LINES)
}

#[test]
fn reads_the_set_up(rt: HostRuntime) -> Result<(), Fail> {
    let script = parse(rt.alloc(), SET_UP.as_bytes())?;
    let found = format!(in rt.alloc(); "{script:?}")?;
    let want =
        "Script { sizes: Sizes { host: 16777216, mediator: 4194304, disk: 4096, lanes: 1 }, guests: [\
        GuestSetUp { extents: [ExtentLine { base: 1000, blocks: 64 }], heap: 65536, limit: None, \
        regions: [Region { guest: 0, host: 1048576, len: 131072 }] }, \
        GuestSetUp { extents: [ExtentLine { base: 2000, blocks: 64 }], heap: 65536, limit: None, \
        regions: [Region { guest: 0, host: 2097152, len: 131072 }] }\
        ], lines: [] }";
    assert_eq!(rt; found.as_str(), want);
    Ok(())
}
