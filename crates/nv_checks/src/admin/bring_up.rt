//! Bring-up, and what is held.

use crate::admin::bench::{Bench, brought_up};
use crate::admin::command::command;
use nv_admin::Admin;
use std::test::Fail;

/// The completions of the two commands of bring-up.
const COMPLETIONS: [u8; 32] = [
    0, 0, 0, 0, 0, 0, 0, 0, 1, 0, 0, 0, 1, 0, 1, 0, //
    0, 0, 0, 0, 0, 0, 0, 0, 2, 0, 0, 0, 2, 0, 1, 0,
];

#[test]
fn brings_a_controller_up(rt: HostRuntime) -> Result<(), Fail> {
    let mut bench = Bench::new(rt.alloc())?;
    assert!(rt; bench.admin() == Admin::Idle);
    assert!(rt; bench.bring_up());
    assert!(rt; bench.shows(0x1_1000, &COMPLETIONS));
    // the queue is empty again
    assert!(rt; bench.admin() == Admin::Idle);
    Ok(())
}

#[test]
fn a_full_completion_queue_holds(rt: HostRuntime) -> Result<(), Fail> {
    let mut bench = Bench::new(rt.alloc())?;
    // a completion queue of two slots, which holds one completion
    assert!(rt; bench.enable(0x0001_001f));
    assert!(rt; bench.enter(0, &[command!(0x08, 5), command!(0x08, 6)]));
    assert!(rt; bench.admin() == Admin::Done && bench.admin() == Admin::Held);
    assert!(rt; bench.completed(0, 1, 0x0001_0005) && bench.completed(1, 0, 0));
    assert!(rt; bench.ring(0x1004, 1));
    assert!(rt; bench.admin() == Admin::Done && bench.completed(1, 1, 0x0001_0006));
    Ok(())
}

#[test]
fn four_event_requests_are_held(rt: HostRuntime) -> Result<(), Fail> {
    let mut bench = brought_up(rt.alloc())?;
    let requests = [
        command!(0x0c, 3),
        command!(0x0c, 4),
        command!(0x0c, 5),
        command!(0x0c, 6),
        command!(0x0c, 7),
    ];
    assert!(rt; bench.enter(2, &requests));
    for _ in 0..4 {
        assert!(rt; bench.admin() == Admin::Done && bench.completed(2, 0, 0));
    }
    assert!(rt; bench.admin() == Admin::Done && bench.completed(2, 0, 0x820b_0007));
    assert!(rt; bench.completed(3, 0, 0) && bench.admin() == Admin::Idle);
    Ok(())
}
