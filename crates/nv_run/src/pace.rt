//! The pace at which a line that waits polls.

use nv_threads::Shared;
use std::sync::Wait;
use std::time::{Clock, Duration, Instant};

/// For how many milliseconds a line that waits polls only where there is news for its guest, or after a millisecond or so without. So
/// all its polls together take at least as long, and workers have that time for themselves.
const PATIENCE: u64 = 1_000;

/// Up to how many milliseconds after its wait began it does so only where a thread sleeps on the world's lock. Later it polls at full
/// speed, so that a wait that is never met ends.
const COURTESY: u64 = 2_000;

/// The pace of one line that waits. On a machine with other work a pause may cost several turns of the scheduler, so pauses are bounded
/// by the clock, and not by their number.
#[derive(Drop)]
pub(crate) struct Pace {
    // when the wait began; `None` where the clock could not be read: then there are no pauses
    begun: Option<Instant>,
    is_patient: bool,
}

impl Pace {
    /// That of a wait that begins now.
    pub(crate) fn new<R: Clock>(rt: &R) -> Self {
        Pace {
            begun: Instant::now(rt).ok(),
            is_patient: true,
        }
    }

    /// Pauses after a poll that did not find what is waited for. In the first second it waits for more news than the guest had seen, for a
    /// millisecond or so at most; in the next second only where a thread sleeps on the world's lock, which goes first then; later it
    /// returns at once. Each poll is an act that is logged, so one that is not made saves time and memory.
    pub(crate) fn pause<R: Wait + Clock>(&mut self, rt: &R, shared: &Shared, guest: u8, seen: u64) {
        self.is_patient = self.is_patient && self.is_within(rt, PATIENCE);
        if self.is_patient || shared.is_awaited() && self.is_within(rt, COURTESY) {
            shared.wait_for_news(rt, guest, seen);
        }
    }

    // Whether the wait began less than so many milliseconds ago.
    fn is_within<R: Clock>(&self, rt: &R, millis: u64) -> bool {
        match &self.begun {
            Some(begun) => match begun.elapsed(rt) {
                Ok(elapsed) => elapsed < Duration::from_millis(millis),
                Err(_) => false,
            },
            None => false,
        }
    }
}
