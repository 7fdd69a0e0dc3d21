//! Entries and completions in their slots: bring-up, the wrap and the phase tag, the smallest and the largest queues.

use crate::vctl::acts::{Act, BRING_UP, PAIR, check};
use crate::vctl::desk::Desk;
use nv_vctl::Posted;
use std::test::Fail;

/// Two admin commands, and their completions.
const ADMIN: &[Act] = &[
    Act::Idle(0),
    Act::Entry {
        addr: 0x1_0000,
        cid: 1,
    },
    Act::Entry {
        addr: 0x1_0040,
        cid: 2,
    },
    Act::Ring {
        offset: 0x1000,
        value: 2,
    },
    Act::Take { queue: 0, cid: 1 },
    Act::Taken { queue: 0, count: 0 },
    Act::Post { queue: 0, cid: 1 },
    Act::Take { queue: 0, cid: 2 },
    Act::Post { queue: 0, cid: 2 },
    Act::Idle(0),
    Act::Completion {
        addr: 0x1_1000,
        head: 1,
        queue: 0,
        last: 0x0001_0001,
    },
    Act::Completion {
        addr: 0x1_1010,
        head: 2,
        queue: 0,
        last: 0x0001_0002,
    },
];

/// After the bring-up: a completion queue of two slots takes one completion until its head moves.
const TWO_SLOTS: &[Act] = &[
    Act::MakeCompletion {
        queue: 1,
        base: 0x1_2000,
        size: 2,
    },
    Act::MakeSubmission {
        queue: 1,
        base: 0x1_3000,
        size: 16,
    },
    Act::Ring {
        offset: 0x1008,
        value: 3,
    },
    Act::Take { queue: 1, cid: 0 },
    Act::Take { queue: 1, cid: 0 },
    Act::Take { queue: 1, cid: 0 },
    Act::Taken { queue: 1, count: 3 },
    Act::Post { queue: 1, cid: 1 },
    Act::Held { queue: 1, cid: 2 },
    Act::Held { queue: 1, cid: 3 },
    Act::Taken { queue: 1, count: 2 },
    Act::Completion {
        addr: 0x1_2000,
        head: 3,
        queue: 1,
        last: 0x0001_0001,
    },
    Act::Ring {
        offset: 0x100c,
        value: 1,
    },
    Act::Post { queue: 1, cid: 2 },
    Act::Completion {
        addr: 0x1_2010,
        head: 3,
        queue: 1,
        last: 0x0001_0002,
    },
    Act::Ring {
        offset: 0x100c,
        value: 0,
    },
    Act::Post { queue: 1, cid: 3 },
    Act::Completion {
        addr: 0x1_2000,
        head: 3,
        queue: 1,
        last: 0x0000_0003,
    },
    Act::Taken { queue: 1, count: 0 },
];

/// After the bring-up: a submission queue of two slots holds one entry.
const TWO_ENTRIES: &[Act] = &[
    Act::MakeCompletion {
        queue: 8,
        base: 0x1_2000,
        size: 16,
    },
    Act::MakeSubmission {
        queue: 8,
        base: 0x1_3000,
        size: 2,
    },
    Act::Entry {
        addr: 0x1_3000,
        cid: 7,
    },
    Act::Entry {
        addr: 0x1_3040,
        cid: 8,
    },
    Act::Unrung {
        offset: 0x1040,
        value: 2,
    },
    Act::Ring {
        offset: 0x1040,
        value: 1,
    },
    Act::Take { queue: 8, cid: 7 },
    Act::Idle(8),
    Act::Ring {
        offset: 0x1040,
        value: 0,
    },
    Act::Take { queue: 8, cid: 8 },
    Act::Idle(8),
    Act::Post { queue: 8, cid: 8 },
    Act::Completion {
        addr: 0x1_2000,
        head: 0,
        queue: 8,
        last: 0x0001_0008,
    },
];

/// After the bring-up: queues of 1,024 slots, the submission queue's tail at the last one.
const LARGEST: &[Act] = &[
    Act::MakeCompletion {
        queue: 1,
        base: 0x4000,
        size: 1024,
    },
    Act::MakeSubmission {
        queue: 1,
        base: 0x0,
        size: 1024,
    },
    Act::Unrung {
        offset: 0x1008,
        value: 1024,
    },
    Act::Ring {
        offset: 0x1008,
        value: 1023,
    },
];

#[test]
fn two_admin_commands(rt: HostRuntime) -> Result<(), Fail> {
    let mut desk = Desk::new(rt.alloc())?;
    check(&rt, &mut desk, BRING_UP);
    check(&rt, &mut desk, ADMIN);
    check(&rt, &mut desk, PAIR);
    assert!(rt; desk.vctl.has_io_queue() && desk.vctl.has_submission_queue(1));
    assert!(rt; desk.vctl.has_completion_queue(1) && !desk.vctl.has_submission_queue(9));
    assert!(rt; !desk.vctl.is_admin_full());
    Ok(())
}

#[test]
fn a_completion_queue_of_two_slots(rt: HostRuntime) -> Result<(), Fail> {
    let mut desk = Desk::new(rt.alloc())?;
    check(&rt, &mut desk, BRING_UP);
    check(&rt, &mut desk, TWO_SLOTS);
    Ok(())
}

#[test]
fn a_submission_queue_of_two_slots(rt: HostRuntime) -> Result<(), Fail> {
    let mut desk = Desk::new(rt.alloc())?;
    check(&rt, &mut desk, BRING_UP);
    check(&rt, &mut desk, TWO_ENTRIES);
    Ok(())
}

// Whether so many commands of queue 1 are taken and completed, identifiers counting from `first`.
fn runs(desk: &mut Desk, first: u16, count: u16) -> bool {
    for k in 0..count {
        let cid = first.wrapping_add(k);
        if !desk.take(1) || desk.post(1, cid) != Some(Posted::Done) {
            return false;
        }
    }
    true
}

#[test]
fn queues_of_1024_slots(rt: HostRuntime) -> Result<(), Fail> {
    let mut desk = Desk::new(rt.alloc())?;
    check(&rt, &mut desk, BRING_UP);
    check(&rt, &mut desk, LARGEST);
    assert!(rt; runs(&mut desk, 0, 1023) && desk.vctl.doorbell(0x1008, 2));
    assert!(rt; desk.take(1) && desk.post(1, 1023) == Some(Posted::Held));
    // the last slot has the first pass's phase tag, and the slot after it the next one's
    assert!(rt; desk.vctl.doorbell(0x100c, 1023) && desk.post(1, 1023) == Some(Posted::Done));
    assert!(rt; runs(&mut desk, 1024, 1) && desk.front(1).is_some());
    let (last, first) = ([0, 0, 1, 0, 0xff, 3, 1, 0], [1, 0, 1, 0, 0, 4, 0, 0]);
    assert!(rt; desk.shows(0x4000 + 1023 * 16 + 8, &last) && desk.shows(0x4008, &first));
    Ok(())
}
