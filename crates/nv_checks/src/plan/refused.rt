//! Memory that is refused: each allocation of the heap in turn, and then the same call again.
use crate::hand::changed;
use crate::memory::run;
use crate::plan::chain::{CHAIN, ROWS, is_in_halves};
use crate::plan::guest::{Guest, joined};
use nv_mem::Piece;
use nv_plan::{Job, Planned};
use nv_refusing::Refusing;
use std::alloc::Global;
use std::process::Abort;

const READS: &[(u64, u64)] = &[(0x6000, 32), (0x7000, 16)];

const PLACES: &[Piece] = &[run!(0x3000, 1024)];

// Whether a job is as it was handed in.
fn is_as_it_was(job: &Job) -> bool {
    (job.lane, job.tag, job.guest) == (1, 9, 3) && job.reads.reads().len() == READS.len()
}

// Whether the whole list came to one part, or to two where a join lies within it.
fn is_planned(planned: &Planned) -> bool {
    match planned {
        Planned::Plan(plan) => {
            plan.parts() == 1 && plan.part_places(0) == PLACES || is_in_halves(plan)
        }
        _ => false,
    }
}

// Plans with that allocation of the heap refused, and then again: whether it came to a refusal, with the job as it was, and to the
// plan then; nothing where no allocation was refused.
fn refused_once(
    heap: &Refusing<Global>,
    alloc: Global,
    guest: &Guest,
    job: Job,
    granted: u64,
) -> Option<bool> {
    heap.refuse_after(granted);
    let planned = guest.plan(heap, alloc, job);
    if !heap.has_refused() {
        return None;
    }
    heap.grant_all();
    match planned {
        Planned::NoMemory(job) => {
            let is_back = is_as_it_was(&job);
            let again = guest.plan(heap, alloc, job);
            Some(is_back && is_planned(&again))
        }
        _ => Some(false),
    }
}

// How many allocations of the heap were refused, one after another; nothing where a refusal was not answered as such.
fn refusals(rt: &impl Abort, heap: &Refusing<Global>, alloc: Global, guest: &Guest) -> Option<u64> {
    for granted in 0..100u64 {
        let job = guest.job(rt, alloc, changed(rt, CHAIN), READS);
        match refused_once(heap, alloc, guest, job, granted) {
            Some(true) => {}
            Some(false) => return None,
            None => return Some(granted),
        }
    }
    None
}

#[test]
fn each_allocation_refused_in_turn(rt: HostRuntime) {
    let alloc = rt.alloc();
    let mut guest = Guest::with(&rt, alloc, ROWS);
    let heap = Refusing::new(alloc);
    // the own descriptor takes one block of memory, and each array two
    assert!(rt; refusals(&rt, &heap, alloc, &guest) == Some(5));
    guest.ns = joined(&rt, (1000, 6), &[(5000, 58)]);
    assert!(rt; refusals(&rt, &heap, alloc, &guest) == Some(5));
}
