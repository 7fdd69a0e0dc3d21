//! Each wait ends by itself, however often and in whatever order it is done: guests wait for news, threads for the world's lock, workers for bells
//! until they get the signal to stop.

ghost use Rattle.std.specs.Prelude.{◌<◌};

use crate::bench::opened;
use crate::running::workers;
use nv_model::{Act, Reply};
use nv_threads::{Open, Port, Shared};
use std::alloc::Global;
use std::process::Abort;
use std::sync::Wait;
use std::test::Fail;
use std::thread;
use std::thread::{join, map_indices};
use std::time::{Clock, Duration, Instant};

/// How often a guest waits for news that there is none of: each wait ends after a millisecond or so.
const VAIN_WAITS: u32 = 500;

/// How many milliseconds they take at least.
const LEAST: u64 = 250;

/// How often a guest waits while somebody rings for it all the time, and how often that is.
const WAITS: u32 = 3_000;

const RINGS: u32 = 100_000;

/// How many threads take the lock, and how often each does.
const TAKERS: usize = 8;

const ACTS: u32 = 10_000;

/// How often workers are started, and get the signal to stop.
const ROUNDS: u32 = 150;

/// A heap with room for a plan.
const HEAP: u64 = 4_096;

// A thread whose wait is never met sleeps, and doesn't poll all the time.
#[test]
fn a_wait_that_nobody_rings_for_ends(rt: HostRuntime) -> Result<(), Fail> {
    let shared = Shared::new(opened(rt.alloc()).expect(&rt, "a world"));
    let begun = Instant::now(&rt)?;
    for wait in 0..VAIN_WAITS {
        let guest = (wait % 16) as u8;
        let seen = shared.news(guest);
        shared.wait_for_news(&rt, guest, seen);
        assert!(rt; shared.news(guest) == seen);
    }
    assert!(rt; begun.elapsed(&rt)? >= Duration::from_millis(LEAST));
    Ok(())
}

#[test]
fn news_that_came_before_the_wait_ends_it(rt: HostRuntime) -> Result<(), Fail> {
    let shared = Shared::new(opened(rt.alloc()).expect(&rt, "a world"));
    shared.stop();
    for wait in 0..RINGS {
        let guest = (wait % 16) as u8;
        assert!(rt; shared.news(guest) == 1);
        shared.wait_for_news(&rt, guest, 0);
    }
    Ok(())
}

// Waits for news of guest 3, over and over.
fn waits<R: Wait>(rt: &R, shared: &Shared) -> u64 {
    for _ in 0..WAITS {
        let seen = shared.news(3);
        shared.wait_for_news(rt, 3, seen);
    }
    shared.news(3)
}

// Rings for all, over and over.
fn rings(shared: &Shared) {
    for _ in 0..RINGS {
        shared.stop();
    }
}

#[test]
fn waits_while_others_ring_end(rt: HostRuntime) -> Result<(), Fail> {
    let shared = Shared::new(opened(rt.alloc()).expect(&rt, "a world"));
    let (heard, _) = join(&rt, || waits(&rt, &shared), || rings(&shared));
    assert!(rt; heard <= u64::from(RINGS) && shared.news(3) == u64::from(RINGS));
    Ok(())
}

// Reads a register over and over; how often its value was returned.
fn reads<R: Wait>(rt: &R, alloc: Global, shared: &Shared, guest: u8) -> u32
    requires { guest < 16 }
{
    let mut port = Port::new(alloc, guest);
    let mut told = 0u32;
    for _ in 0..ACTS {
        if let Ok(Reply::Bytes(_)) = port.act(rt, alloc, shared, Act::RegRead { offset: 0x1c }) {
            told = told.saturating_add(1);
        }
    }
    told
}

#[test]
fn each_thread_gets_the_lock_each_time(rt: HostRuntime) -> Result<(), Fail> {
    let alloc = rt.alloc();
    let shared = Shared::new(opened(alloc).expect(&rt, "a world"));
    let take = |taker: usize| reads(&rt, alloc, &shared, (taker % 2) as u8);
    let told = map_indices(&rt, alloc, TAKERS, &take)?;
    for count in told.iter() {
        assert_eq!(rt; *count, ACTS);
    }
    let world = shared.close();
    assert_eq!(rt; world.log().len(), TAKERS * ACTS as usize);
    Ok(())
}

// Signals the workers to stop: at once, once they have polled, or while they sleep.
fn stops<C: Clock>(clock: &C, shared: &Shared, round: u32) {
    match round % 3 {
        0 => {}
        1 => thread::yield_now(),
        _ => thread::sleep(clock, Duration::from_micros(u64::from(round) * 20)),
    }
    shared.stop();
}

#[test]
fn workers_end_where_they_are_told_to(rt: HostRuntime) -> Result<(), Fail> {
    let alloc = rt.alloc();
    let mut world = opened(alloc).expect(&rt, "a world");
    for round in 0..ROUNDS {
        let shared = Shared::new(world);
        let (shares, _) = join(
            &rt,
            || workers(&rt, alloc, &shared, &Open, HEAP),
            || stops(&rt, &shared, round),
        );
        for share in shares {
            assert_eq!(rt; share.events(), 0);
        }
        world = shared.close();
    }
    assert!(rt; world.log().is_empty());
    Ok(())
}
