//! A submission queue whose commands are taken closes, and its deletion waits for them.

use crate::admin::bench::brought_up;
use crate::admin::command::{Command, command};
use nv_admin::Admin;
use std::test::Fail;

/// Delete I/O Submission Queue 1, CID 4.
const DELETION: Command = Command {
    cdw10: 1,
    ..command!(0x00, 4)
};

/// The completion of the deletion.
const COMPLETION: [u8; 16] = [0, 0, 0, 0, 0, 0, 0, 0, 3, 0, 0, 0, 4, 0, 1, 0];

#[test]
fn a_deletion_waits_for_taken_commands(rt: HostRuntime) -> Result<(), Fail> {
    let mut bench = brought_up(rt.alloc())?;
    assert!(rt; bench.ring(0x1008, 1) && bench.take(1));
    assert!(rt; bench.enter(2, &[DELETION]));
    assert!(rt; bench.admin() == Admin::Done && bench.completed(2, 0, 0));
    // the queue closes: its doorbell is ignored, and nothing more is taken
    assert!(rt; !bench.ring(0x1008, 2) && !bench.take(1));
    assert!(rt; bench.admin() == Admin::Idle);
    assert!(rt; bench.post(1, 7));
    assert!(rt; bench.admin() == Admin::Done && bench.shows(0x1_1020, &COMPLETION));
    assert!(rt; bench.admin() == Admin::Idle && !bench.take(1) && !bench.post(1, 7));
    Ok(())
}

#[test]
fn a_queue_without_taken_commands_goes_at_once(rt: HostRuntime) -> Result<(), Fail> {
    let mut bench = brought_up(rt.alloc())?;
    // what the doorbell has announced and is not taken is dropped
    assert!(rt; bench.ring(0x1008, 1) && bench.enter(2, &[DELETION]));
    assert!(rt; bench.admin() == Admin::Done && bench.shows(0x1_1020, &COMPLETION));
    assert!(rt; !bench.take(1) && !bench.ring(0x1008, 2));
    Ok(())
}
