//! A planner's heap that is too small for a list, and one that there is no memory for.

use crate::bench::opened;
use crate::running::{Part, run};
use nv_threads::{Open, Shared, finish};
use std::alloc::Global;
use std::process::Abort;
use std::sync::Wait;
use std::sync::atomic::AtomicBool;
use std::test::Fail;
use std::thread::Threads;
use std::time::Clock;

// Runs a part of guest 0's with a heap of so many bytes.
fn run_with_heap<R: Threads + Wait + Clock + Abort + Sync>(
    rt: &R,
    alloc: Global,
    heap: u64,
    part: Part,
) {
    let shared = Shared::new(opened(alloc).expect(rt, "a world"));
    let posted = AtomicBool::new(false);
    let parts = [part, Part::Rest];
    let ran = run(rt, alloc, &shared, &Open, heap, parts, &posted);
    let world = shared.close();
    assert!(rt; ran.met, "a heap of {heap} bytes");
    assert!(rt; finish(&world, &ran.ports, &ran.shares).is_ok());
}

#[test]
fn a_list_too_long_for_the_heap_is_given_up(rt: HostRuntime) -> Result<(), Fail> {
    run_with_heap(&rt, rt.alloc(), 256, Part::ReadBySegment(0x000d_0007));
    Ok(())
}

#[test]
fn a_list_that_fits_the_heap_succeeds(rt: HostRuntime) -> Result<(), Fail> {
    run_with_heap(&rt, rt.alloc(), 1_048_576, Part::ReadBySegment(0x0001_0007));
    Ok(())
}

// Whatever is read, there is nowhere to plan it.
#[test]
fn without_a_heap_each_command_is_given_up(rt: HostRuntime) -> Result<(), Fail> {
    run_with_heap(&rt, rt.alloc(), 1 << 60, Part::Read(0x000d_0007));
    Ok(())
}
