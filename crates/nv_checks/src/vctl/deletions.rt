//! Deletions of queues, and event requests.

use crate::vctl::acts::{Act, BRING_UP, PAIR, check};
use crate::vctl::desk::Desk;
use std::test::Fail;

/// After queue pair 1: a queue with a taken command closes, and goes once the command is completed.
const WAITS: &[Act] = &[
    Act::Ring {
        offset: 0x1008,
        value: 2,
    },
    Act::Take { queue: 1, cid: 0 },
    Act::Unfinished,
    Act::Close { queue: 1, cid: 4 },
    Act::Unrung {
        offset: 0x1008,
        value: 3,
    },
    Act::Idle(1),
    Act::Unfinished,
    Act::Used(1),
    Act::Post { queue: 1, cid: 7 },
    Act::Completion {
        addr: 0x1_2000,
        head: 1,
        queue: 1,
        last: 0x0001_0007,
    },
    Act::Finish(4),
    Act::Unfinished,
    Act::Idle(1),
    Act::Unrung {
        offset: 0x1008,
        value: 0,
    },
    Act::DeleteCompletion(1),
    Act::Unrung {
        offset: 0x100c,
        value: 0,
    },
];

/// A queue without a taken command goes at once, and another takes its place.
const AT_ONCE: &[Act] = &[
    Act::Ring {
        offset: 0x1008,
        value: 5,
    },
    Act::DeleteSubmission(1),
    Act::Idle(1),
    Act::MakeSubmission {
        queue: 1,
        base: 0x1_4000,
        size: 4,
    },
    Act::Idle(1),
    Act::Unrung {
        offset: 0x1008,
        value: 5,
    },
];

#[test]
fn a_deletion_waits_for_a_taken_command(rt: HostRuntime) -> Result<(), Fail> {
    let mut desk = Desk::new(rt.alloc())?;
    check(&rt, &mut desk, BRING_UP);
    assert!(rt; !desk.vctl.has_io_queue());
    check(&rt, &mut desk, PAIR);
    check(&rt, &mut desk, WAITS);
    assert!(rt; !desk.vctl.has_io_queue());
    check(&rt, &mut desk, PAIR);
    check(&rt, &mut desk, AT_ONCE);
    Ok(())
}

#[test]
fn four_event_requests_are_held(rt: HostRuntime) -> Result<(), Fail> {
    let mut desk = Desk::new(rt.alloc())?;
    check(&rt, &mut desk, BRING_UP);
    assert!(rt; desk.hold() && desk.hold() && desk.hold() && desk.hold() && !desk.hold());
    // a reset drops them
    assert!(rt; desk.vctl.reg_write(0x14, 0, &desk.map) && desk.vctl.can_hold_request());
    Ok(())
}
