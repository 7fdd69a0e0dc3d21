//! What is done to a controller, line by line, and what each line must find.

use crate::hand;
use crate::vctl::desk::Desk;
use nv_vctl::Posted;
use std::process::Abort;

/// One line: a call, and its outcome.
#[derive(Clone, Copy, Debug)]
pub enum Act {
    /// A register reads this.
    Reads {
        offset: u32,
        value: u32,
    },
    /// A read at this offset is ignored.
    Unread(u32),
    /// A register is written.
    Write {
        offset: u32,
        value: u32,
    },
    /// A write is ignored.
    Unwritten {
        offset: u32,
        value: u32,
    },
    /// A doorbell is rung.
    Ring {
        offset: u32,
        value: u32,
    },
    /// A doorbell is ignored.
    Unrung {
        offset: u32,
        value: u32,
    },
    /// The command at the front of the queue has this identifier, and is taken.
    Take {
        queue: u16,
        cid: u16,
    },
    /// No command of the queue may be taken.
    Idle(u16),
    /// A completion is posted.
    Post {
        queue: u16,
        cid: u16,
    },
    /// A completion is held.
    Held {
        queue: u16,
        cid: u16,
    },
    /// So many commands of the queue are taken.
    Taken {
        queue: u16,
        count: u16,
    },
    /// A command of the queue runs out.
    RunOut(u16),
    /// An I/O completion queue is made.
    MakeCompletion {
        queue: u16,
        base: u64,
        size: u16,
    },
    /// An I/O submission queue is made, which uses the completion queue of its number.
    MakeSubmission {
        queue: u16,
        base: u64,
        size: u16,
    },
    /// An I/O submission queue closes.
    Close {
        queue: u16,
        cid: u16,
    },
    /// The deletion that waits was that command's, and is finished.
    Finish(u16),
    /// No deletion can be finished.
    Unfinished,
    /// An I/O submission queue goes.
    DeleteSubmission(u16),
    /// An I/O completion queue goes.
    DeleteCompletion(u16),
    /// An I/O completion queue cannot go: a submission queue uses it.
    Used(u16),
    /// An entry of a command with this identifier is stored.
    Entry {
        addr: u64,
        cid: u16,
    },
    /// A completion is at this address: head, queue, and the last dword.
    Completion {
        addr: u64,
        head: u16,
        queue: u16,
        last: u32,
    },
}

/// Does the lines in order, and asserts of each that it finds what it must.
pub fn check(rt: &impl Abort, desk: &mut Desk, acts: &[Act]) {
    for act in acts {
        assert!(rt; found(desk, *act), "{act:?}");
    }
}

// Does one line.
fn found(desk: &mut Desk, act: Act) -> bool {
    match act {
        Act::Reads { offset, value } => desk.vctl.reg_read(offset) == Some(value),
        Act::Unread(offset) => desk.vctl.reg_read(offset).is_none(),
        Act::Write { offset, value } => desk.vctl.reg_write(offset, value, &desk.map),
        Act::Unwritten { offset, value } => !desk.vctl.reg_write(offset, value, &desk.map),
        Act::Ring { offset, value } => desk.vctl.doorbell(offset, value),
        Act::Unrung { offset, value } => !desk.vctl.doorbell(offset, value),
        Act::Take { .. } | Act::Idle(_) | Act::Post { .. } | Act::Held { .. } => served(desk, act),
        Act::Taken { queue, count } => desk.vctl.taken(queue) == count,
        Act::RunOut(queue) => desk.run_out(queue),
        Act::Entry { addr, cid } => desk.store(addr, &entry(cid)),
        Act::Completion {
            addr,
            head,
            queue,
            last,
        } => desk.shows(addr, &completion(head, queue, last)),
        _ => changed(desk, act),
    }
}

// Does one line about a command.
fn served(desk: &mut Desk, act: Act) -> bool {
    match act {
        Act::Take { queue, cid } => desk.front(queue) == Some(cid) && desk.take(queue),
        Act::Idle(queue) => desk.front(queue).is_none() && !desk.take(queue),
        Act::Post { queue, cid } => desk.post(queue, cid) == Some(Posted::Done),
        Act::Held { queue, cid } => desk.post(queue, cid) == Some(Posted::Held),
        _ => false,
    }
}

// Does one line about the queues.
fn changed(desk: &mut Desk, act: Act) -> bool {
    match act {
        Act::MakeCompletion { queue, base, size } => desk.make_completion(queue, base, size),
        Act::MakeSubmission { queue, base, size } => {
            desk.make_submission(queue, base, size, queue)
        }
        Act::Close { queue, cid } => desk.close(queue, cid),
        Act::Finish(cid) => desk.finish() == Some(cid),
        Act::Unfinished => desk.finish().is_none(),
        Act::DeleteSubmission(queue) => desk.delete_submission(queue),
        Act::DeleteCompletion(queue) => desk.delete_completion(queue),
        Act::Used(queue) => !desk.delete_completion(queue),
        _ => false,
    }
}

// An entry of a command with this identifier, and everything else 0.
fn entry(cid: u16) -> [u8; 64] {
    hand::entry(u32::from(cid) << 16, 0, [0; 2], [0; 3])
}

// The bytes of a completion whose first two dwords are 0.
fn completion(head: u16, queue: u16, last: u32) -> [u8; 16] {
    let mut bytes = [0; 16];
    bytes[8..10].copy_from_slice(&head.to_le_bytes());
    bytes[10..12].copy_from_slice(&queue.to_le_bytes());
    bytes[12..16].copy_from_slice(&last.to_le_bytes());
    bytes
}

/// AQA, ASQ and ACQ of admin queues of 32 slots each, at 10000h and at 11000h, and CC with EN set.
pub const BRING_UP: &[Act] = &[
    Act::Write {
        offset: 0x24,
        value: 0x001f_001f,
    },
    Act::Write {
        offset: 0x28,
        value: 0x1_0000,
    },
    Act::Write {
        offset: 0x30,
        value: 0x1_1000,
    },
    Act::Write {
        offset: 0x14,
        value: 0x0046_0001,
    },
];

/// After the bring-up: queue pair 1 with 16 slots each, the completion queue at 12000h, the submission queue at 13000h.
pub const PAIR: &[Act] = &[
    Act::MakeCompletion {
        queue: 1,
        base: 0x1_2000,
        size: 16,
    },
    Act::MakeSubmission {
        queue: 1,
        base: 0x1_3000,
        size: 16,
    },
];
