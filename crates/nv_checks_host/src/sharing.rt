//! A guest's share of the tags of a lane.

use crate::bench::Bench;
use crate::rounds::{FLUSH, brought_up, queue};
use nv_host::{Scope, ShareRefusal, Why};
use std::process::Abort;

// Six commands are in the guest's queue.
fn six_queued(rt: &impl Abort, bench: &mut Bench) {
    for slot in 0..6 {
        queue(rt, bench, slot, &FLUSH, slot as u32 + 1);
    }
}

// What is due is carried out: so many events, after which both lanes have this tail.
fn expect_work(rt: &impl Abort, bench: &mut Bench, events: u64, tail: u16) {
    let worked = bench.work(Scope::All, 100);
    assert!(rt; worked.why == Why::Enough);
    assert_eq!(rt; worked.done, events);
    assert_eq!(rt; bench.mediator().tail(0), Some(tail));
    assert_eq!(rt; bench.mediator().tail(1), Some(tail));
}

/// With a share of one tag a guest has one command of each lane, whatever waits; with one of two, a second. Each is taken and submitted.
#[test]
fn a_share_bounds_what_is_taken(rt: HostRuntime) {
    let mut bench = brought_up(&rt, Bench::new(rt.alloc()));
    assert!(rt; bench.share(0, 1).is_ok());
    six_queued(&rt, &mut bench);
    expect_work(&rt, &mut bench, 4, 1);
    expect_work(&rt, &mut bench, 0, 1);
    assert!(rt; bench.share(0, 2).is_ok());
    expect_work(&rt, &mut bench, 4, 2);
    expect_work(&rt, &mut bench, 0, 2);
    assert!(rt; bench.share(0, 64).is_ok());
    assert_eq!(rt; bench.work(Scope::All, 100).done, 4);
}

/// The refusals of a share; the share stays as it was.
#[test]
fn a_share_is_refused(rt: HostRuntime) {
    let mut bench = brought_up(&rt, Bench::new(rt.alloc()));
    assert!(rt; bench.share(0, 1).is_ok());
    assert!(rt; bench.share(1, 1) == Err(ShareRefusal::NoGuest));
    assert!(rt; bench.share(0, 0) == Err(ShareRefusal::TooSmall));
    assert!(rt; bench.share(0, 65) == Err(ShareRefusal::TooLarge));
    six_queued(&rt, &mut bench);
    expect_work(&rt, &mut bench, 4, 1);
}
