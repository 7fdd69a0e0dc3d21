//! Commands from a guest's queue to the drive and back.

use crate::bench::Bench;
use nv_bringup::{COMPLETIONS, SUBMISSIONS, TAIL, bytes_of, io_entry};
use nv_entry::Cqe;
use nv_host::Stray;
use nv_model::{Act, Reply};
use nv_world_model::Event;
use std::process::Abort;

/// A Read of 24 blocks to three pages: the first is named by the entry, and the others by a list of 16 bytes.
pub const READ: [u32; 16] = io_entry!(0x0007_0002, [0x6000, 0, 0x5000, 0], [0, 0, 23]);

/// A Flush.
pub const FLUSH: [u32; 16] = io_entry!(0x0008_0000, [0, 0, 0, 0], [0, 0, 0]);

/// The list of the Read: the pages at 7000h and 8000h.
const LIST: [u8; 16] = [0, 0x70, 0, 0, 0, 0, 0, 0, 0, 0x80, 0, 0, 0, 0, 0, 0];

/// A mediator whose guest has queue pair 1.
pub fn brought_up(rt: &impl Abort, bench: Option<Bench>) -> Bench {
    let mut bench = bench.expect(rt, "a mediator");
    assert!(rt; bench.bring_up());
    bench
}

/// The guest enters a command in a slot of its queue.
pub fn queue(rt: &impl Abort, bench: &mut Bench, slot: u64, entry: &[u32; 16], tail: u32) {
    let addr = SUBMISSIONS + 64 * (slot & 0xf);
    assert!(rt; matches!(bench.store(addr, &bytes_of(entry)), Reply::Done));
    let ring = Act::Doorbell {
        offset: TAIL,
        value: tail,
    };
    assert!(rt; matches!(bench.act(&ring), Some(Reply::Done)));
}

/// The guest enters a command in a slot of its queue, and it is taken.
pub fn enter(rt: &impl Abort, bench: &mut Bench, slot: u64, entry: &[u32; 16], tail: u32) {
    queue(rt, bench, slot, entry, tail);
    assert!(rt; bench.due(&Event::Take(0, 1, 0)));
    assert!(rt; matches!(bench.take(0), Ok(Reply::Done)));
}

// The drive completes the command of tag 0 in a slot of the completion ring, and the guest gets that in the same place of its queue.
fn complete(rt: &impl Abort, bench: &mut Bench, slot: u16, identifier: u16) {
    assert!(rt; !bench.due(&Event::Reap(0)));
    assert!(rt; bench.complete(slot, 0));
    assert!(rt; bench.due(&Event::Reap(0)));
    assert!(rt; matches!(bench.reap(), Ok(Reply::Done)));
    assert!(rt; bench.due(&Event::Post(0, 0)));
    assert!(rt; matches!(bench.post(0), Reply::Done));
    let mut completion = [0; 16];
    assert!(rt;
        matches!(
            bench.load(COMPLETIONS + 16 * u64::from(slot & 0xf), &mut completion),
            Reply::Done
        )
    );
    assert_eq!(rt; Cqe::of(&completion).cid(), identifier);
}

/// A Read whose pages are named by a list, and then a Flush by a plan that was made elsewhere.
#[test]
fn commands_go_to_the_drive_and_back(rt: HostRuntime) {
    let mut bench = brought_up(&rt, Bench::new(rt.alloc()));
    assert!(rt; matches!(bench.store(0x5000, &LIST), Reply::Done));
    enter(&rt, &mut bench, 0, &READ, 1);
    assert!(rt; matches!(bench.list(0x5000, 16), Some(Reply::Bytes(_))));
    assert!(rt; matches!(bench.submit(0, 0), Some(Reply::Done)));
    assert_eq!(rt; bench.mediator().tail(0), Some(1));
    let entry = bench.entry(0).expect(&rt, "an entry");
    assert_eq!(rt; (entry.opcode(), entry.cid()), (2, 0));
    complete(&rt, &mut bench, 0, 7);
    assert_eq!(rt; bench.mediator().head(0), Some(1));
    enter(&rt, &mut bench, 1, &FLUSH, 2);
    assert!(rt; matches!(bench.submit_plan(), Some(Reply::Done)));
    complete(&rt, &mut bench, 1, 8);
    assert_eq!(rt;
        (bench.mediator().tail(0), bench.mediator().head(0)),
        (Some(2), Some(2))
    );
}

/// A completion that names no command changes nothing.
#[test]
fn a_stray_completion_is_reported(rt: HostRuntime) {
    let mut bench = brought_up(&rt, Bench::new(rt.alloc()));
    assert!(rt; bench.complete(0, 5));
    assert!(rt; matches!(bench.reap(), Err(Stray)));
    assert_eq!(rt; bench.mediator().head(0), Some(0));
}

/// A load of more bytes than a reply holds without memory of their own.
#[test]
fn a_long_load_has_its_bytes(rt: HostRuntime) {
    let mut bench = brought_up(&rt, Bench::new(rt.alloc()));
    assert!(rt; matches!(bench.store(0x5000, &LIST), Reply::Done));
    let Some(Reply::Bytes(bytes)) = bench.act(&Act::Load {
        addr: 0x5000,
        len: 16,
    }) else {
        rt.abort()
    };
    assert!(rt; bytes.as_slice() == LIST.as_slice());
}
