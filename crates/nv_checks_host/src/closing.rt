//! A lane that is closed: how its commands end, and that the other lane goes on.

use crate::bench::Bench;
use crate::rounds::{FLUSH, READ, brought_up, enter, queue};
use nv_bringup::COMPLETIONS;
use nv_entry::{Cqe, Status, StatusCode};
use nv_host::{Closed, Stray};
use nv_model::Reply;
use nv_world_model::Event;
use std::process::Abort;

// The command of a tag is posted with a status, in the next place of the guest's queue.
fn posted(rt: &impl Abort, bench: &mut Bench, tag: u8, place: u8, identifier: u16, status: Status) {
    assert!(rt; bench.due(&Event::Post(0, tag)));
    assert!(rt; matches!(bench.post(tag), Reply::Done));
    let mut told = [0; 16];
    let addr = COMPLETIONS + 16 * u64::from(place & 0xf);
    assert!(rt; matches!(bench.load(addr, &mut told), Reply::Done));
    let entry = Cqe::of(&told);
    assert_eq!(rt; (entry.cid(), entry.status()), (identifier, status));
}

/// One command is in flight, and one waits for its plan: both end with Internal Error, which may be tried again. Nothing more is taken for the lane, and
/// the other lane goes on.
#[test]
fn a_lane_is_closed(rt: HostRuntime) {
    let mut bench = brought_up(&rt, Bench::new(rt.alloc()));
    enter(&rt, &mut bench, 0, &FLUSH, 1);
    assert!(rt; matches!(bench.submit(0, 0), Some(Reply::Done)));
    enter(&rt, &mut bench, 1, &READ, 2);
    assert!(rt; bench.mediator().is_waiting(0, 1));
    assert!(rt; !bench.mediator().is_closed(0));
    bench.close();
    assert!(rt; bench.mediator().is_closed(0));
    assert!(rt; matches!(bench.reap(), Ok(Reply::Idle)));
    let failed = StatusCode::InternalError.status();
    posted(&rt, &mut bench, 0, 0, 8, failed);
    posted(&rt, &mut bench, 1, 1, 7, failed);
    queue(&rt, &mut bench, 2, &FLUSH, 3);
    assert!(rt; !bench.due(&Event::Take(0, 1, 0)));
    assert!(rt; matches!(bench.take(0), Err(Closed)));
    assert!(rt; bench.due(&Event::Take(0, 1, 1)));
    assert!(rt; matches!(bench.take(1), Ok(Reply::Done)));
    assert!(rt; matches!(bench.submit(1, 0), Some(Reply::Done)));
    assert_eq!(rt; bench.mediator().tail(1), Some(1));
}

/// What the drive has completed by then ends with its status.
#[test]
fn completions_that_are_there_are_read_first(rt: HostRuntime) {
    let mut bench = brought_up(&rt, Bench::new(rt.alloc()));
    enter(&rt, &mut bench, 0, &FLUSH, 1);
    assert!(rt; matches!(bench.submit(0, 0), Some(Reply::Done)));
    enter(&rt, &mut bench, 1, &FLUSH, 2);
    assert!(rt; matches!(bench.submit(0, 1), Some(Reply::Done)));
    assert!(rt; bench.complete(0, 1));
    bench.close();
    posted(&rt, &mut bench, 1, 0, 8, StatusCode::Success.status());
    posted(&rt, &mut bench, 0, 1, 8, StatusCode::InternalError.status());
    assert_eq!(rt; bench.mediator().head(0), Some(2));
}

/// A completion that names no command, and then a close.
#[test]
fn a_lane_is_closed_after_a_stray_completion(rt: HostRuntime) {
    let mut bench = brought_up(&rt, Bench::new(rt.alloc()));
    enter(&rt, &mut bench, 0, &FLUSH, 1);
    assert!(rt; matches!(bench.submit(0, 0), Some(Reply::Done)));
    assert!(rt; bench.complete(0, 5));
    assert!(rt; bench.complete(1, 6));
    assert!(rt; matches!(bench.reap(), Err(Stray)));
    bench.close();
    posted(&rt, &mut bench, 0, 0, 8, StatusCode::InternalError.status());
    assert_eq!(rt; bench.mediator().head(0), Some(1));
    assert!(rt; matches!(bench.reap(), Ok(Reply::Idle)));
}
