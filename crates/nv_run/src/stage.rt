//! The threads of a run.

use crate::driven::{Driven, drive};
use crate::opening::Guest;
use crate::part::{Part, lines_of};
use crossbeam_channel::{Sender, bounded};
use nv_threads::{Open, Share, Shared, device_loop, planner, reaper};
use std::alloc::{AllocError, Global};
use std::sync::Wait;
use std::thread;
use std::thread::Threads;
use std::time::Clock;

/// How many messages the guests' channel has room for.
const MESSAGES: usize = 16;

/// What comes of the threads of a run.
#[derive(Drop)]
pub struct Staged {
    /// what came of the guests
    pub driven: Vec<Driven>,
    /// what the workers put into the log
    pub shares: Vec<Share>,
}

// Asks the workers to stop when it is dropped.
struct Curtain<'a>(&'a Shared);

impl Drop for Curtain<'_> {
    fn drop(self) {
        let Curtain(shared) = self;
        shared.stop();
    }
}

/// Starts the workers and a thread for each guest. Waits until all guests are through and then until all workers have stopped. On each way out,
/// including out of memory, all threads have ended.
///
/// # Errors
///
/// [`AllocError`] where a thread cannot be made, or where memory for the guests' channel or for what the threads give back is refused.
pub fn stage<R: Threads + Wait + Clock + Sync>(
    rt: &R,
    alloc: Global,
    shared: &Shared,
    lanes: u8,
    guests: Vec<Guest>,
    parts: &[Part],
) -> Result<Staged, AllocError> {
    thread::scope(thread::scope_env(), rt, |scope| {
        let curtain = Curtain(shared);
        let mut workers = Vec::new(alloc);
        for guest in &guests {
            let (number, lane, heap) = (guest.port.guest(), guest.lane, guest.heap);
            let worker = scope.spawn(move || planner(
                rt, alloc, shared, number, lane, &Open, heap,
            ))?;
            workers.push(worker)?;
        }
        for lane in 0..lanes {
            let worker = scope.spawn(move || reaper(rt, alloc, shared, lane))?;
            workers.push(worker)?;
            let worker = scope.spawn(move || device_loop(rt, alloc, shared, lane))?;
            workers.push(worker)?;
        }
        let (to, from) = bounded(alloc, MESSAGES)?;
        let mut threads = Vec::new(alloc);
        for guest in guests {
            let Guest {
                port,
                lane: _,
                heap: _,
            } = guest;
            let lines = lines_of(parts, port.guest());
            let to = to.clone()?;
            let thread = scope.spawn(move || {
                let driven = drive(rt, alloc, shared, port, lines);
                hand_over(rt, &to, driven)
            })?;
            threads.push(thread)?;
        }
        drop(to);
        let mut driven = Vec::new(alloc);
        for thread in threads {
            if let Some(left) = thread.join(rt) {
                driven.push(left)?;
            }
        }
        for one in from.iter(rt) {
            driven.push(one)?;
        }
        drop(curtain);
        let mut shares = Vec::new(alloc);
        for worker in workers {
            shares.push(worker.join(rt))?;
        }
        Ok(Staged { driven, shares })
    })
}

// Hands over what a guest's thread went through, or gives it back where it is refused.
fn hand_over<R: Wait>(rt: &R, to: &Sender<Driven, Global>, driven: Driven) -> Option<Driven> {
    match to.send(rt, driven) {
        Ok(()) => None,
        Err(refused) => Some(refused.into_inner()),
    }
}
