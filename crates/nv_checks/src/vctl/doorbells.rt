//! Doorbells that are rung, and those that are ignored.

use crate::vctl::acts::{Act, BRING_UP, PAIR, check};
use crate::vctl::desk::Desk;
use std::test::Fail;

/// Before the bring-up no doorbell is there.
const NOT_READY: &[Act] = &[
    Act::Unrung {
        offset: 0x1000,
        value: 1,
    },
    Act::Unrung {
        offset: 0x1004,
        value: 0,
    },
];

/// After the bring-up, with queue pair 1.
const DOORBELLS: &[Act] = &[
    // before the doorbells, between two of them, and of queues that are not there
    Act::Unrung {
        offset: 0xffc,
        value: 1,
    },
    Act::Unrung {
        offset: 0x1002,
        value: 1,
    },
    Act::Unrung {
        offset: 0x1010,
        value: 1,
    },
    Act::Unrung {
        offset: 0x1014,
        value: 0,
    },
    Act::Unrung {
        offset: 0x1048,
        value: 1,
    },
    Act::Unrung {
        offset: 0xffff_fff8,
        value: 1,
    },
    // a tail up to the last slot; the upper half does not count
    Act::Unrung {
        offset: 0x1008,
        value: 16,
    },
    Act::Ring {
        offset: 0x1008,
        value: 0xffff_000f,
    },
    Act::Ring {
        offset: 0x1008,
        value: 3,
    },
    Act::Take { queue: 1, cid: 0 },
    Act::Take { queue: 1, cid: 0 },
    // a tail set back withdraws the entry
    Act::Ring {
        offset: 0x1008,
        value: 2,
    },
    Act::Idle(1),
    // a head up to the tail, and no further, nor back
    Act::Unrung {
        offset: 0x100c,
        value: 1,
    },
    Act::Post { queue: 1, cid: 1 },
    Act::Post { queue: 1, cid: 2 },
    Act::Unrung {
        offset: 0x100c,
        value: 3,
    },
    Act::Unrung {
        offset: 0x100c,
        value: 16,
    },
    Act::Ring {
        offset: 0x100c,
        value: 1,
    },
    Act::Unrung {
        offset: 0x100c,
        value: 0,
    },
    Act::Ring {
        offset: 0x100c,
        value: 0x10_0002,
    },
];

#[test]
fn doorbells_of_queues(rt: HostRuntime) -> Result<(), Fail> {
    let mut desk = Desk::new(rt.alloc())?;
    check(&rt, &mut desk, NOT_READY);
    check(&rt, &mut desk, BRING_UP);
    check(&rt, &mut desk, PAIR);
    check(&rt, &mut desk, DOORBELLS);
    Ok(())
}
