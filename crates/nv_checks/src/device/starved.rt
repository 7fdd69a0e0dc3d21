//! A device where memory is refused.

use crate::device::bench::{Bench, Entry, MEDIATOR};
use nv_device::Response;
use std::alloc::Global;
use std::test::Fail;

/// A Read of 17 blocks on identifier 3: a page and a list of two.
const READ: Entry = Entry {
    opcode: 2,
    identifier: 3,
    prp1: 0x10_3000,
    prp2: 0x10_9000,
    cdw10: 5,
    cdw11: 0,
    cdw12: 16,
};

/// Whether the entry is taken: at once, or at the second try where memory was refused and nothing has changed.
fn is_taken(bench: &mut Bench, alloc: Global) -> bool {
    match bench.take(alloc, 0) {
        Some(response) => response == Response::Done,
        None => {
            bench.move_unit(0, 3, 0) == Some(Response::Idle)
                && bench.post(0, 3) == Some(Response::Idle)
                && bench.take(alloc, 0) == Some(Response::Done)
        }
    }
}

// It passes whichever allocation of the process is refused: what wanted it says so, and does its work when it is called again.
#[test]
fn memory_that_is_refused_once(rt: HostRuntime) -> Result<(), Fail> {
    let made = match Bench::new(rt.alloc(), 0x100_0000, 1, 64) {
        Ok(made) => made,
        Err(_) => Bench::new(rt.alloc(), 0x100_0000, 1, 64)?,
    };
    let mut bench = made.expect(&rt, "a device of these sizes");
    assert!(rt;
        bench.store(0x10_9000, &0x10_5000u64.to_le_bytes())
            && bench.store(0x10_9008, &0x10_7000u64.to_le_bytes())
    );
    assert!(rt; bench.enter(0, 0, &READ) && is_taken(&mut bench, rt.alloc()));
    assert!(rt; bench.take(rt.alloc(), 0) == Some(Response::Idle));
    for number in 0..17 {
        assert!(rt; bench.move_unit(0, 3, number) == Some(Response::Done));
    }
    let completion = [0, 0, 0, 0, 0, 0, 0, 0, 1, 0, 1, 0, 3, 0, 1, 0];
    assert!(rt;
        bench.post(0, 3) == Some(Response::Done) && bench.shows(MEDIATOR + 0x2000, &completion)
    );
    Ok(())
}
