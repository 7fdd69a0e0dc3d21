//! Plans are made outside the lock, and a planner gives up only where its gate has no memory.

use crate::bench::opened;
use crate::running::{Outcome, Part, run};
use nv_mem::GuestMap;
use nv_model::Reply;
use nv_ns::VirtualNs;
use nv_plan::{Job, Planned, make_plan};
use nv_threads::{Gate, Shared, finish};
use nv_world::World;
use nv_world_model::{Event, Logged};
use std::alloc::{Allocator, Global};
use std::process::Abort;
use std::sync::Wait;
use std::sync::atomic::{AtomicBool, AtomicU64, Ordering};
use std::test::Fail;
use std::thread;
use std::thread::Threads;
use std::time::{Clock, Duration};

/// A heap with room for any plan.
const HEAP: u64 = 65536;

/// How often the gate polls whether guest 1's commands are posted, a millisecond apart.
const TURNS: u32 = 10_000;

/// A gate that does something else at its first call for guest 0: it waits until guest 1's commands are posted, or answers that there
/// is no memory.
#[derive(Drop)]
struct First<'a> {
    waits: bool,
    posted: &'a AtomicBool,
    calls: AtomicU64,
    plans: AtomicU64,
}

impl First<'_> {
    // Whether guest 1's commands come to be posted.
    fn sees_them_posted<C: Clock>(&self, clock: &C) -> bool {
        for _turn in 0..TURNS {
            if self.posted.load(Ordering::SeqCst) {
                return true;
            }
            thread::sleep(clock, Duration::from_millis(1));
        }
        false
    }

    // Whether a call may go on.
    fn lets_by<C: Clock>(&self, clock: &C, guest: u8) -> bool {
        if guest != 0 || self.calls.fetch_add(1, Ordering::SeqCst) != 0 {
            return true;
        }
        self.waits && self.sees_them_posted(clock)
    }
}

impl Gate for First<'_> {
    fn plan<R: Wait + Clock, A: Allocator + Clone>(
        &self,
        rt: &R,
        heap: A,
        alloc: Global,
        job: Job,
        map: &GuestMap,
        ns: &VirtualNs,
        limit: u32,
    ) -> Planned {
        if !self.lets_by(rt, job.guest) {
            return Planned::NoMemory(job);
        }
        let planned = make_plan(heap, alloc, job, map, ns, limit);
        if let Planned::Plan(_) = &planned {
            self.plans.fetch_add(1, Ordering::SeqCst);
        }
        planned
    }
}

// How many commands were given up.
fn given_up(log: &[Logged]) -> usize {
    log.iter()
        .filter(|logged| matches!(logged.event, Event::GiveUp(_, _)))
        .count()
}

// How many plans were carried out.
fn carried_out(log: &[Logged]) -> usize {
    log.iter().filter(|logged| is_submitted(logged)).count()
}

// Whether a plan was carried out.
fn is_submitted(logged: &Logged) -> bool {
    matches!(logged.event, Event::Submit(_, _)) && matches!(logged.reply, Reply::Done)
}

// Whether a worker makes such an event only where it is due.
fn is_asked_for(event: &Event) -> bool {
    matches!(
        event,
        Event::Admin(_)
            | Event::Take(_, _, _)
            | Event::DevTake(_)
            | Event::DevMove(_, _, _)
            | Event::DevPost(_, _)
            | Event::Reap(_)
            | Event::Post(_, _)
    )
}

// How many such events came to nothing.
fn made_in_vain(log: &[Logged]) -> usize {
    log.iter().filter(|logged| is_in_vain(logged)).count()
}

// Whether such an event came to nothing.
fn is_in_vain(logged: &Logged) -> bool {
    is_asked_for(&logged.event) && !matches!(logged.reply, Reply::Done)
}

// Ends the test where the run didn't come to this.
fn expect(rt: &impl Abort, world: &World, ran: &Outcome, plans: u64, ups: usize) {
    let log = world.log();
    assert!(rt; ran.met, "each guest did its part");
    assert!(rt; finish(world, &ran.ports, &ran.shares).is_ok());
    assert_eq!(rt; given_up(log), ups);
    assert_eq!(rt; made_in_vain(log), 0);
    assert_eq!(rt; carried_out(log) as u64, plans);
}

// Runs guest 0's Read, which ends so, beside guest 1's commands.
fn run_beside<R: Threads + Wait + Clock + Abort + Sync>(
    rt: &R,
    alloc: Global,
    waits: bool,
    dword: u32,
    ups: usize,
) {
    let shared = Shared::new(opened(alloc).expect(rt, "a world"));
    let posted = AtomicBool::new(false);
    let gate = First {
        waits,
        posted: &posted,
        calls: AtomicU64::new(0),
        plans: AtomicU64::new(0),
    };
    let parts = [Part::Read(dword), Part::WriteAndRead];
    let ran = run(rt, alloc, &shared, &gate, HEAP, parts, &posted);
    let plans = gate.plans.load(Ordering::SeqCst);
    expect(rt, &shared.close(), &ran, plans, ups);
}

#[test]
fn plans_outside_the_lock(rt: HostRuntime) -> Result<(), Fail> {
    run_beside(&rt, rt.alloc(), true, 0x0001_0007, 0);
    Ok(())
}

#[test]
fn gives_up_where_the_gate_has_no_memory(rt: HostRuntime) -> Result<(), Fail> {
    run_beside(&rt, rt.alloc(), false, 0x000d_0007, 1);
    Ok(())
}

/// A heap with room for a list of 1,000 descriptors.
const LARGE_HEAP: u64 = 1_048_576;

// About a list that is read in four parts the gate is asked before the first part and after the last. About the Read by PRP that comes after the
// list it is asked once.
#[test]
fn asks_the_gate_twice_however_often_a_list_is_read(rt: HostRuntime) -> Result<(), Fail> {
    let alloc = rt.alloc();
    let shared = Shared::new(opened(alloc).expect(&rt, "a world"));
    let posted = AtomicBool::new(true);
    let gate = First {
        waits: true,
        posted: &posted,
        calls: AtomicU64::new(0),
        plans: AtomicU64::new(0),
    };
    let parts = [Part::ReadBySegment(0x0001_0007), Part::Rest];
    let ran = run(&rt, alloc, &shared, &gate, LARGE_HEAP, parts, &posted);
    let plans = gate.plans.load(Ordering::SeqCst);
    expect(&rt, &shared.close(), &ran, plans, 0);
    assert_eq!(rt; gate.calls.load(Ordering::SeqCst), 3);
    Ok(())
}
