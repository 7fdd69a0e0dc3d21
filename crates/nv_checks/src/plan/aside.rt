//! Plans that are put aside after each read, and go on.

use crate::hand::changed;
use crate::memory::run;
use crate::plan::chain::{CHAIN, ROWS};
use crate::plan::fed::{Way, begun, fed, feed, is_chain, over_a_join};
use crate::plan::guest::{Changes, Expected, Guest, is_expected, joined};
use crate::plan::plans::CHAINED;
use crate::plan::ranges::{PARTED, TRANSLATED, has_ranges, lying_apart};
use nv_model::limits::MOST_DESCRIPTORS;
use nv_plan::{Job, Planned, Planning};
use std::alloc::Global;
use std::process::Abort;

/// What the plan of the Read whose list page chains has.
const CHAINED_PLACES: Expected = Expected::Direct(&[
    run!(0x3000, 4096),
    run!(0x8000, 4096),
    run!(0x9000, 4096),
]);

// What comes of a command whose plan is put aside before each read, and how often it was fed.
fn fed_in_turns(
    rt: &impl Abort,
    alloc: Global,
    guest: &Guest,
    changes: Changes,
) -> Option<(Planned, u32)> {
    let sqe = changed(rt, changes);
    fed(rt, alloc, guest, sqe, MOST_DESCRIPTORS, Way::Aside)
}

#[test]
fn descriptors(rt: HostRuntime) {
    let guest = over_a_join(&rt, rt.alloc());
    let (planned, count) = fed_in_turns(&rt, rt.alloc(), &guest, CHAIN).expect(&rt, "a plan");
    assert!(rt; count == 2 && is_chain(&planned));
}

#[test]
fn region_pages(rt: HostRuntime) {
    let mut guest = Guest::new(&rt, rt.alloc());
    guest.put_slots(0x6ff8, &[0x7000, 0x8000, 0x9000]);
    let (planned, count) = fed_in_turns(&rt, rt.alloc(), &guest, CHAINED).expect(&rt, "a plan");
    assert!(rt; count == 2 && is_expected(&planned, &CHAINED_PLACES));
}

#[test]
fn the_bytes_of_ranges(rt: HostRuntime) {
    let guest = lying_apart(&rt, rt.alloc());
    let (planned, count) = fed_in_turns(&rt, rt.alloc(), &guest, PARTED).expect(&rt, "a plan");
    assert!(rt; count == 3 && has_ranges(&planned, TRANSLATED));
}

// Whether the job of a plan of the chain that was fed once is as it was then.
fn is_as_it_was(job: &Job) -> bool {
    job.reads.reads().len() == 1 && (job.lane, job.tag, job.guest) == (1, 9, 3)
}

// Whether a plan of the chain that was fed once and put aside goes on with what another guest was given.
fn goes_on_with(rt: &impl Abort, alloc: Global, guest: &Guest, other: &Guest, limit: u32) -> bool {
    let mut planning = begun(rt, alloc, guest, CHAIN);
    let is_fed = feed(alloc, guest, &mut planning).expect(rt, "memory");
    let aside = planning.put_aside().expect(rt, "a plan that is put aside");
    match Planning::resume(aside, alloc, &other.map, &other.ns, limit) {
        Ok(_planning) => is_fed,
        Err(job) => {
            assert!(rt; is_fed && is_as_it_was(&job));
            false
        }
    }
}

#[test]
fn not_with_another_limit(rt: HostRuntime) {
    let alloc = rt.alloc();
    let guest = Guest::with(&rt, alloc, ROWS);
    let same = Guest::with(&rt, alloc, ROWS);
    assert!(rt; goes_on_with(&rt, alloc, &guest, &same, MOST_DESCRIPTORS));
    assert!(rt; !goes_on_with(&rt, alloc, &guest, &same, MOST_DESCRIPTORS + 1));
    assert!(rt; !goes_on_with(&rt, alloc, &guest, &same, MOST_DESCRIPTORS - 1));
}

#[test]
fn not_with_another_map_or_namespace(rt: HostRuntime) {
    let alloc = rt.alloc();
    let guest = Guest::with(&rt, alloc, ROWS);
    let mut another = Guest::with(&rt, alloc, ROWS);
    another.ns = joined(&rt, (1000, 63), &[(5000, 1)]);
    assert!(rt; !goes_on_with(&rt, alloc, &guest, &another, MOST_DESCRIPTORS));
    let another = Guest::mapped(&rt, alloc, &[]);
    assert!(rt; !goes_on_with(&rt, alloc, &guest, &another, MOST_DESCRIPTORS));
}
