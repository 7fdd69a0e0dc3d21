//! The honest guest's commands, over and over: a Write, a Read by one Data Block, one by a Last Segment, one past a Bit Bucket, a Write of too few
//! bytes, and two Compares.

use crate::beside::bench::{HONEST, behind, completion_at, entry_at};
use crate::beside::runs::Runs;
use nv_bringup::{Fields, HEAD, SLOTS, TAIL, bytes_of};
use nv_world_model::Event;
use std::process::Abort;

/// A command, what its guest stores before it, and what it finds after it.
struct Command {
    name: &'static str,
    /// addresses of 512 bytes, and what each of these is
    fills: &'static [(u64, u8)],
    /// addresses of 16 bytes, and their halves
    tables: &'static [(u64, u64, u64)],
    /// the opcode with PSDT, the data pointer, SLBA and NLB
    opcode: u32,
    data: [u32; 4],
    slba: u32,
    nlb: u32,
    /// dword 3 of the completion, but for the identifier and the phase tag
    status: u32,
    /// addresses of 512 bytes, and what each of these is then
    shows: &'static [(u64, u8)],
}

/// The last dword of a Last Segment.
const LAST: u32 = 0x3000_0000;

/// A Bit Bucket of 512 bytes.
const BUCKET: u64 = 0x1000_0000_0000_0200;

/// Statuses in dword 3: SGL length invalid with DNR, and Compare Failure.
const LENGTH_INVALID: u32 = 0x801e_0000;

const COMPARE_FAILURE: u32 = 0x050a_0000;

const COMMANDS: &[Command] = &[
    Command {
        name: "a Write",
        fills: &[(0xa000, 0x21), (0xa200, 0x22)],
        tables: &[],
        opcode: 0x4001,
        data: [0xa000, 0, 1024, 0],
        slba: 5,
        nlb: 1,
        status: 0,
        shows: &[],
    },
    Command {
        name: "a Read by one Data Block",
        fills: &[(0x3000, 0xee)],
        tables: &[],
        opcode: 0x4002,
        data: [0x3000, 0, 512, 0],
        slba: 5,
        nlb: 0,
        status: 0,
        shows: &[(0x3000, 0x21)],
    },
    Command {
        name: "a Read by a Last Segment",
        fills: &[(0x3e00, 0xee), (0x5000, 0xee)],
        tables: &[(0x6000, 0x3e00, 512), (0x6010, 0x5000, 512)],
        opcode: 0x4002,
        data: [0x6000, 0, 32, LAST],
        slba: 5,
        nlb: 1,
        status: 0,
        shows: &[(0x3e00, 0x21), (0x5000, 0x22)],
    },
    Command {
        name: "a Read past a Bit Bucket",
        fills: &[(0xb000, 0xee), (0xb200, 0xee)],
        tables: &[(0x7000, 0xb000, 512), (0x7010, 0, BUCKET)],
        opcode: 0x4002,
        data: [0x7000, 0, 32, LAST],
        slba: 5,
        nlb: 1,
        status: 0,
        shows: &[(0xb000, 0x21), (0xb200, 0xee)],
    },
    Command {
        name: "a Write of too few bytes",
        fills: &[],
        tables: &[],
        opcode: 0x4001,
        data: [0x7000, 0, 32, LAST],
        slba: 5,
        nlb: 1,
        status: LENGTH_INVALID,
        shows: &[],
    },
    Command {
        name: "a Compare that differs in its last block",
        fills: &[(0xc000, 0x21), (0xc200, 0x23)],
        tables: &[],
        opcode: 0x4005,
        data: [0xc000, 0, 1024, 0],
        slba: 5,
        nlb: 1,
        status: COMPARE_FAILURE,
        shows: &[],
    },
    Command {
        name: "a Compare that is equal",
        fills: &[(0xc000, 0x21), (0xc200, 0x22)],
        tables: &[],
        opcode: 0x4005,
        data: [0xc000, 0, 1024, 0],
        slba: 5,
        nlb: 1,
        status: 0,
        shows: &[],
    },
];

/// How many commands there are.
pub const ROUND: u16 = 7;

/// What the guest does next.
#[derive(Clone, Copy)]
enum Stage {
    /// It stores what is to be in memory for the command.
    Lay,
    /// It stores the entry.
    Enter,
    Ring,
    /// The command is taken, and goes on until it has ended.
    Take,
    Carry,
    /// The guest checks what came of it.
    Look,
}

/// The honest guest, under way.
#[derive(Clone, Copy)]
pub struct Honest {
    lane: u8,
    /// how many of its commands have ended, which is the identifier of the next
    pub ended: u16,
    stage: Stage,
}

impl Honest {
    /// At the first command; each is taken by that lane.
    pub fn new(lane: u8) -> Self {
        Honest {
            lane,
            ended: 0,
            stage: Stage::Lay,
        }
    }

    /// Goes on by one step, and ends the test where what it finds is not what was to come of the command.
    pub fn step(&mut self, rt: &impl Abort, runs: &mut Runs) {
        let Some(command) = COMMANDS.get(usize::from(self.ended % ROUND)) else {
            return;
        };
        self.stage = match self.stage {
            Stage::Lay => {
                lay(runs, command);
                Stage::Enter
            }
            Stage::Enter => {
                let entry = bytes_of(&dwords(command, self.ended));
                runs.store(HONEST, entry_at(self.ended), &entry);
                Stage::Ring
            }
            Stage::Ring => {
                runs.ring(HONEST, TAIL, behind(self.ended));
                Stage::Take
            }
            Stage::Take => {
                runs.play(Event::Take(HONEST, 1, self.lane));
                assert!(rt; runs.is_done(), "{}", command.name);
                Stage::Carry
            }
            Stage::Carry => match runs.tags.nth(HONEST, 0) {
                Some(tag) => {
                    runs.carry(tag, self.ended % 2 == 1);
                    Stage::Carry
                }
                None => Stage::Look,
            },
            Stage::Look => {
                expect(rt, runs, command, self.ended);
                self.ended = self.ended.wrapping_add(1);
                Stage::Lay
            }
        };
    }

    /// Goes on until so many commands have ended.
    pub fn run(&mut self, rt: &impl Abort, runs: &mut Runs, commands: u16) {
        for _ in 0..4000 {
            if self.ended < commands {
                self.step(rt, runs);
            }
        }
        assert_eq!(rt; self.ended, commands);
    }
}

// Stores what is to be in memory for a command.
fn lay(runs: &mut Runs, command: &Command) {
    for (addr, byte) in command.fills {
        runs.store(HONEST, *addr, &[*byte; 512]);
    }
    for (addr, low, high) in command.tables {
        runs.store_row(HONEST, *addr, *low, *high);
    }
}

// The entry of a command.
fn dwords(command: &Command, identifier: u16) -> [u32; 16] {
    let fields = Fields {
        opcode: command.opcode,
        data: command.data,
        dwords: [command.slba, 0, command.nlb],
    };
    fields.entry(identifier)
}

// The completion of a command: the head after its entry, queue 1, its identifier, the phase tag of the pass, and its status.
fn completion(command: &Command, number: u16) -> [u8; 16] {
    let phase = u32::from(number / SLOTS % 2 == 0);
    let queue = behind(number) | 1 << 16;
    let told = u32::from(number) | phase << 16 | command.status;
    let bytes = u128::from(queue) << 64 | u128::from(told) << 96;
    bytes.to_le_bytes()
}

// Ends the test where something else came of a command.
fn expect(rt: &impl Abort, runs: &mut Runs, command: &Command, number: u16) {
    runs.load(HONEST, completion_at(number), 16);
    assert!(rt;
        runs.has_told(&completion(command, number)),
        "{}",
        command.name
    );
    for (addr, byte) in command.shows {
        runs.load(HONEST, *addr, 512);
        assert!(rt; runs.has_told(&[*byte; 512]), "{}: {addr}", command.name);
    }
    runs.ring(HONEST, HEAD, behind(number));
}
