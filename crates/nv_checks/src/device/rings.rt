//! Where entries and completions are in the rings of a lane.

use crate::device::bench::{Bench, Entry, MEDIATOR};
use nv_device::Response;
use nv_model::limits::{LANE_SIZE, PAGE_SIZE, SUBMISSION_RING_PAGES};
use nv_ring::{Phase, Ring};
use std::test::Fail;

/// A Read of block 5 to 3000h, on identifier 0.
const READ: Entry = Entry {
    opcode: 2,
    identifier: 0,
    prp1: 0x10_3000,
    prp2: 0,
    cdw10: 5,
    cdw11: 0,
    cdw12: 0,
};

#[test]
fn one_command_on_the_first_lane(rt: HostRuntime) -> Result<(), Fail> {
    let mut bench = Bench::new(rt.alloc(), 0x100_0000, 1, 64)?.expect(
        &rt,
        "a device of these sizes",
    );
    assert!(rt; bench.take(rt.alloc(), 0) == Some(Response::Idle));
    assert!(rt;
        bench.post(0, 0) == Some(Response::Idle) && bench.move_unit(0, 0, 0) == Some(Response::Idle)
    );
    assert!(rt; bench.enter(0, 0, &READ) && bench.take(rt.alloc(), 0) == Some(Response::Done));
    assert!(rt; bench.take(rt.alloc(), 0) == Some(Response::Idle));
    // a unit is left, and there is no unit 1
    assert!(rt;
        bench.post(0, 0) == Some(Response::Idle) && bench.move_unit(0, 0, 1) == Some(Response::Idle)
    );
    assert!(rt; bench.move_unit(0, 0, 0) == Some(Response::Done));
    assert!(rt; bench.move_unit(0, 0, 0) == Some(Response::Idle));
    assert!(rt;
        bench.post(0, 1) == Some(Response::Idle) && bench.post(0, 0) == Some(Response::Done)
    );
    assert!(rt; bench.post(0, 0) == Some(Response::Idle));
    let completion = [0, 0, 0, 0, 0, 0, 0, 0, 1, 0, 1, 0, 0, 0, 1, 0];
    assert!(rt; bench.shows(MEDIATOR + 0x2000, &completion));
    Ok(())
}

#[test]
fn one_command_on_the_last_lane(rt: HostRuntime) -> Result<(), Fail> {
    let mut bench = Bench::new(rt.alloc(), 0x461_8000, 8, 64)?.expect(
        &rt,
        "a device of these sizes",
    );
    assert!(rt; bench.runs(rt.alloc(), 7, 0, &READ, 1));
    // queue 8, after seven lanes
    let completion = [0, 0, 0, 0, 0, 0, 0, 0, 1, 0, 8, 0, 0, 0, 1, 0];
    assert!(rt;
        bench.shows(
            MEDIATOR + 7 * LANE_SIZE + SUBMISSION_RING_PAGES * PAGE_SIZE,
            &completion
        )
    );
    // another lane has seen nothing of it
    assert!(rt;
        bench.take(rt.alloc(), 0) == Some(Response::Idle) && bench.is_filled(MEDIATOR, 0x3000, 0)
    );
    Ok(())
}

#[test]
fn rings_go_round(rt: HostRuntime) -> Result<(), Fail> {
    let mut bench = Bench::new(rt.alloc(), 0x100_0000, 1, 64)?.expect(
        &rt,
        "a device of these sizes",
    );
    for at in 0..65u16 {
        assert!(rt; bench.runs(rt.alloc(), 0, at, &READ, 1), "command {at}");
    }
    // the completion of the 65th has phase 1 and head 0
    let last = [0, 0, 0, 0, 0, 0, 0, 0, 0, 0, 1, 0, 0, 0, 1, 0];
    assert!(rt; bench.shows(MEDIATOR + 0x2000 + 16 * 64, &last));
    // that of the 66th is in slot 0, with phase 0 and head 1
    assert!(rt; bench.runs(rt.alloc(), 0, 0, &READ, 1));
    let first = [0, 0, 0, 0, 0, 0, 0, 0, 1, 0, 1, 0, 0, 0, 0, 0];
    assert!(rt; bench.shows(MEDIATOR + 0x2000, &first));
    Ok(())
}

#[test]
fn positions_of_a_ring(rt: HostRuntime) {
    assert!(rt; !Ring::fits(1) && Ring::fits(2) && Ring::fits(1024) && !Ring::fits(1025));
    let mut ring = Ring::new(3);
    assert!(rt; ring.empty() && ring.room() && ring.waiting() == 0);
    ring.set_tail(2);
    assert!(rt; !ring.room() && !ring.empty() && ring.waiting() == 2 && ring.next(2) == 0);
    ring.set_head(1);
    assert!(rt;
        ring.waiting() == 1 && ring.reaches(2) && !ring.reaches(0) && ring.ahead(2, 1) == 2
    );
    let mut phase = Phase::new();
    phase.go_on(ring, 1);
    assert!(rt; phase.expected());
    phase.go_on(ring, 2);
    assert!(rt; !phase.expected());
}
