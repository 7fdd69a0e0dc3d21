//! What scripts are read as: values that the program prints nothing of. Expected values are read off the rules by hand. Faults are cases of `tests/once`.
//!
//! A row of a table is a script and what comes of it, the fault or the script's value, with `|` between them and `;` for each
//! line feed.

use nv_once_script::{Line, ScriptFault, parse};
use std::alloc::{AllocError, Global};
use std::process::Abort;
use std::test::Fail;

const SET_UP: &str = "memory 0x10000\nblocks 64\n";

/// A Read of one block at 5 into 512 bytes at 3000h, identifier 7.
const READ: &str =
    "02400700010000000000000000000000000000000000000000300000000000000002000000000000050000000000000000000000000000000000000000000000";

/// Lines after the set-up.
const LINES: &str = "\
store 0x3000 abCD|[Store { addr: 12288, bytes: [171, 205] }]
store 65535 00|[Store { addr: 65535, bytes: [0] }]
store 0xffffffffffffffff -|[Store { addr: 18446744073709551615, bytes: [] }]
fill 0x3000 512 0x11|[Fill { addr: 12288, len: 512, byte: 17 }]
fill 0 65536 255|[Fill { addr: 0, len: 65536, byte: 255 }]
fill 70000 0 0|[Fill { addr: 70000, len: 0, byte: 0 }]
paint 5 0xab|[Paint { block: 5, byte: 171 }]
paint 63 0|[Paint { block: 63, byte: 0 }]
dump 0x3000 4|[Dump { addr: 12288, len: 4 }]
dump 0 0x10000|[Dump { addr: 0, len: 65536 }]
dump 0x10000 0|[Dump { addr: 65536, len: 0 }]
block 0x3f|[Block { block: 63 }]
block 0000000000000000000000000000000000000063|[Block { block: 63 }]
block 0x000000000000000000000000000000000000003F|[Block { block: 63 }]
block 0x00|[Block { block: 0 }]
dump 18446744073709551615 0|[Dump { addr: 18446744073709551615, len: 0 }]
dump 0xFfFfFfFfFfFfFfFf 0|[Dump { addr: 18446744073709551615, len: 0 }]
dump 00018446744073709551615 0|[Dump { addr: 18446744073709551615, len: 0 }]
   block    1   |[Block { block: 1 }]
block 1# a comment|[Block { block: 1 }]
block 1 # zz # zz|[Block { block: 1 }]
block 1;|[Block { block: 1 }]
block 1;;|[Block { block: 1 }]
;   ;# block 2;#;block 1|[Block { block: 1 }]
block 1;block 2|[Block { block: 1 }, Block { block: 2 }]
|[]
";

/// A line after the set-up with each kind of fault. The program has texts of its own for them, which `tests/once` compares.
const FAULTY_LINES: &str = "\
frob|unknown word
store|missing word
block 1 2|too many words
block +1|bad number
cmd -|bad bytes
admin 0|out of place
block 64|out of range
";

/// Whole scripts, and the sizes that they set up.
const SET_UPS: &str = "\
memory 4096;blocks 1|4096 1 []
blocks 65536;memory 0x1000000|16777216 65536 []
# a comment;;memory 8192;  ;blocks 2 # two;|8192 2 []
";

// The script or the fault, printed.
fn answer(rt: &impl AllocGlobal, text: &[u8]) -> Result<String, Fail> {
    match parse(rt.alloc(), text) {
        Ok(script) => {
            Ok(format!(in rt.alloc(); "{} {} {:?}", script.memory, script.blocks, script.lines)?)
        }
        Err(fault) => Ok(format!(in rt.alloc(); "{fault}")?),
    }
}

// One text after another.
fn joined(alloc: Global, front: &str, back: &str) -> Result<String, AllocError> {
    format!(in alloc; "{front}{back}")
}

// Ends the test where a case gives another text than is wanted.
fn same(rt: &impl Abort, case: &str, found: &str, want: &str) {
    assert!(rt; found == want, "{case:?} gives {found:?}, and not {want:?}");
}

// The script of a row after a beginning gives what the row says after another beginning.
fn expect_row(
    rt: &(impl Abort + AllocGlobal),
    beginning: &str,
    expected: &str,
    row: &str,
) -> Result<(), Fail> {
    let (script, rest) = row.split_once('|').ok_or("a row without a bar")?;
    let script = script.replace(rt.alloc(), ';', "\n")?;
    let text = joined(rt.alloc(), beginning, &script)?;
    let want = joined(rt.alloc(), expected, rest)?;
    let found = answer(rt, text.as_bytes())?;
    same(rt, row, &found, &want);
    Ok(())
}

// Each row of the table is as `expect_row` says.
fn expect_rows(
    rt: &(impl Abort + AllocGlobal),
    beginning: &str,
    expected: &str,
    table: &str,
) -> Result<(), Fail> {
    for row in table.lines() {
        expect_row(rt, beginning, expected, row)?;
    }
    Ok(())
}

#[test]
fn reads_lines(rt: HostRuntime) -> Result<(), Fail> {
    expect_rows(&rt, SET_UP, "65536 64 ", LINES)
}

#[test]
fn finds_the_faults_of_a_line(rt: HostRuntime) -> Result<(), Fail> {
    expect_rows(&rt, SET_UP, "line 3: ", FAULTY_LINES)
}

#[test]
fn reads_the_set_up(rt: HostRuntime) -> Result<(), Fail> {
    expect_rows(&rt, "", "", SET_UPS)
}

// The opcode, the identifier and the starting LBA of a command.
fn command_of(line: &Line) -> Option<(u8, u16, u64)> {
    match line {
        Line::Command(entry) => Some((entry.opcode(), entry.cid(), entry.slba())),
        _ => None,
    }
}

// A command is its entry. Where an allocation is refused, nothing else is said.
#[test]
fn reads_a_command(rt: HostRuntime) -> Result<(), Fail> {
    let text = format!(in rt.alloc(); "{SET_UP}cmd {READ}\nstore 0 ab")?;
    match parse(rt.alloc(), text.as_bytes()) {
        Ok(script) => {
            assert!(rt; script.lines.len() == 2);
            assert!(rt; command_of(&script.lines[0]) == Some((2, 7, 5)));
        }
        Err(fault) => {
            assert!(rt; fault == ScriptFault::NoMemory);
            let told = format!(in rt.alloc(); "{fault}")?;
            same(&rt, "refused", &told, "no memory");
        }
    }
    Ok(())
}
