//! A parse that had no memory, and the same parse again. What refuses an allocation is outside of the test (`bench/refusals.sh`): the script has to
//! be the same whichever it is, or none. Nothing else here takes memory.

use nv_model::Act;
use nv_once_script::{Line, ScriptFault};
use nv_replay_script::GuestSetUp;
use nv_run_script::Task;
use nv_world_model::Event;
use std::process::Abort;

/// A world of two guests, the first of which has five extents and a map of five regions, and five acts of that guest.
const ACTS: &str = "\
host 0x1000000
mediator 0x400000
disk 4096
lanes 1
guest 0 range 1000 64 heap 65536
guest 1 range 2000 64 heap 65536
extent 0 3000 1
extent 0 3001 1
extent 0 3002 1
extent 0 3003 1
map 0 0x0 0x100000 0x1000
map 0 0x1000 0x101000 0x1000
map 0 0x2000 0x102000 0x1000
map 0 0x3000 0x103000 0x1000
map 0 0x4000 0x104000 0x1000
map 1 0x0 0x200000 0x20000
store 0 0x100 000102030405060708090a0b0c0d0e0f
fill 0 0x200 16 7
load 0 0x100 16
bell 0 0x1000 2
regread 0 0x1c
";

/// A script of `once` with five lines.
const ONCE: &str = "\
memory 65536
blocks 64
store 0x100 000102030405060708090a0b0c0d0e0f
fill 0x200 16 7
paint 5 7
dump 0x100 16
block 5
";

/// What `store` stores.
const STORED: [u8; 16] = [0, 1, 2, 3, 4, 5, 6, 7, 8, 9, 10, 11, 12, 13, 14, 15];

// Whether a parse had no memory.
fn had_none<S>(made: &Result<S, ScriptFault>) -> bool {
    matches!(made, Err(ScriptFault::NoMemory))
}

// Whether a guest's first block is this one of the disk.
fn begins_at(guest: &GuestSetUp, base: u64) -> bool {
    match guest.extents.first() {
        Some(extent) => extent.base == base,
        None => false,
    }
}

// Whether the guests are those of the set-up.
fn are_guests(guests: &[GuestSetUp]) -> bool {
    match guests {
        [first, second] => {
            begins_at(first, 1000)
                && begins_at(second, 2000)
                && first.extents.len() == 5
                && second.extents.len() == 1
                && first.regions.len() == 5
                && second.regions.len() == 1
        }
        _ => false,
    }
}

// Whether an act stores these bytes at this address.
fn is_store(act: &Act, wanted: u64, what: &[u8]) -> bool {
    match act {
        Act::Store { addr, bytes } => *addr == wanted && bytes.as_slice() == what,
        _ => false,
    }
}

// Whether an act is the one that the script has at this place, from 0 on.
fn is_act(place: usize, act: &Act) -> bool {
    match act {
        Act::Store { .. } => match place {
            0 => is_store(act, 0x100, &STORED),
            1 => is_store(act, 0x200, &[7; 16]),
            _ => false,
        },
        Act::Load { addr, len } => place == 2 && *addr == 0x100 && *len == 16,
        Act::Doorbell { offset, value } => place == 3 && *offset == 0x1000 && *value == 2,
        Act::RegRead { offset } => place == 4 && *offset == 0x1c,
        _ => false,
    }
}

// Whether an event is that act of the first guest.
fn is_event(place: usize, event: &Event) -> bool {
    match event {
        Event::Guest(0, act) => is_act(place, act),
        _ => false,
    }
}

// Whether a line of `once` is the one that the script has at this place, from 0 on.
fn is_line(place: usize, line: &Line) -> bool {
    match line {
        Line::Store { addr, bytes } => {
            place == 0 && *addr == 0x100 && bytes.as_slice() == STORED.as_slice()
        }
        Line::Fill { addr, len, byte } => {
            place == 1 && *addr == 0x200 && *len == 16 && *byte == 7
        }
        Line::Paint { block, byte } => place == 2 && *block == 5 && *byte == 7,
        Line::Dump { addr, len } => place == 3 && *addr == 0x100 && *len == 16,
        Line::Block { block } => place == 4 && *block == 5,
        _ => false,
    }
}

#[test]
fn a_script_of_replay_is_parsed_again(rt: HostRuntime) {
    let alloc = rt.alloc();
    let mut script = nv_replay_script::parse(alloc, ACTS.as_bytes());
    if had_none(&script) {
        script = nv_replay_script::parse(alloc, ACTS.as_bytes());
    }
    let script = script.expect(&rt, "a script");
    assert!(rt; are_guests(&script.guests) && script.events.len() == 5);
    for (place, event) in script.events.iter().enumerate() {
        assert!(rt; is_event(place, event));
    }
}

#[test]
fn a_script_of_run_is_parsed_again(rt: HostRuntime) {
    let alloc = rt.alloc();
    let mut script = nv_run_script::parse(alloc, ACTS.as_bytes());
    if had_none(&script) {
        script = nv_run_script::parse(alloc, ACTS.as_bytes());
    }
    let script = script.expect(&rt, "a script");
    assert!(rt; are_guests(&script.guests) && script.lines.len() == 5);
    for (place, line) in script.lines.iter().enumerate() {
        assert!(rt; line.number == 17 + place as u64 && line.guest == 0);
        match &line.task {
            Task::Act(act) => assert!(rt; is_act(place, act)),
            _ => assert!(rt; false),
        }
    }
}

#[test]
fn a_script_of_once_is_parsed_again(rt: HostRuntime) {
    let alloc = rt.alloc();
    let mut script = nv_once_script::parse(alloc, ONCE.as_bytes());
    if had_none(&script) {
        script = nv_once_script::parse(alloc, ONCE.as_bytes());
    }
    let script = script.expect(&rt, "a script");
    assert!(rt; script.memory == 65_536 && script.blocks == 64 && script.lines.len() == 5);
    for (place, line) in script.lines.iter().enumerate() {
        assert!(rt; is_line(place, line));
    }
}
