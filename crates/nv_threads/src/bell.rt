//! What a thread that found nothing to do waits for.

use std::sync::{Condvar, Wait};
use std::time::Duration;
use std::{hint, thread};

/// How often it polls whether the bell was rung, before it lets other threads run.
const SPINS: u32 = 30;

/// How often it then lets other threads run, before it sleeps.
const YIELDS: u32 = 30;

/// How long it sleeps then at most, in microseconds. So late is what's done at the latest that nobody rings for.
const NAP: u64 = 1_000;

/// A bell that notifies those who wait for it. It counts how often it was rung, so nobody has to hold the world's lock to see whether to poll the
/// world again. A bell that is rung before the wait begins is not missed.
#[derive(Drop)]
pub(crate) struct Bell {
    rung: Condvar,
}

impl Bell {
    /// One that was not rung yet.
    pub(crate) fn new() -> Self {
        Bell {
            rung: Condvar::new(),
        }
    }

    /// Rings. It costs a call of the system only where somebody sleeps.
    pub(crate) fn ring(&self) {
        self.rung.notify_all();
    }

    /// How often it was rung.
    pub(crate) fn rings(&self) -> u64 {
        self.rung.notifications()
    }

    /// Waits until it was rung more often than `seen`, or for a short time; returns whether it was rung. What is waited for mostly comes within
    /// some microseconds. So the thread polls for a while, then lets others run between two polls, and only then sleeps.
    pub(crate) fn wait<R: Wait>(&self, rt: &R, seen: u64) -> bool {
        for _ in 0..SPINS {
            if self.rings() != seen {
                return true;
            }
            hint::spin_loop();
        }
        for _ in 0..YIELDS {
            if self.rings() != seen {
                return true;
            }
            thread::yield_now();
        }
        self.rung.sleep(rt, seen, Duration::from_micros(NAP));
        self.rings() != seen
    }
}
