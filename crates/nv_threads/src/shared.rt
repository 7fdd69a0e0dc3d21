//! The world under its lock.

ghost use Rattle.std.specs.Prelude.{◌≡◌, None};
ghost use Rattle.nv_core.specs.State.{world_of};
ghost use Rattle.nv_world.specs.Mediated.{IsContained, KeepsPromise, setup_of};
ghost use Rattle.nv_world_model.specs.Log.{IsReplay};
ghost use Rattle.nv_world_model.specs.SetUp.{refusal_of, world_at_start};

use crate::bells::Bells;
use crate::locked::Locked;
use crate::notes::{LANES, Notes};
use nv_world::World;
use std::hint;
use std::sync::atomic::{AtomicBool, AtomicU32, Ordering};
use std::sync::{Mutex, MutexGuard, Wait};

/// How often a thread tries to take the world's lock before it sleeps: for some 15 microseconds.
const TRIES: u32 = 300;

/// The world under one lock, and whether the workers are to stop.
#[derive(Drop)]
pub struct Shared {
    locked: Mutex<Locked>,
    // how many threads sleep on the lock
    sleepers: AtomicU32,
    // what those who found nothing to do wait for, outside the lock
    pub(crate) bells: Bells,
    // the lanes on which the physical controller took commands before the world was shared
    used: [bool; LANES],
    stopped: AtomicBool,
}

impl Shared {
    /// The world under a lock that nobody holds. Its tags are read and its log is read through, once each.
    pub fn new(world: World) -> Self {
        let notes = Notes::of(&world);
        Shared {
            used: notes.served(),
            locked: Mutex::new(Locked { world, notes }),
            sleepers: AtomicU32::new(0),
            bells: Bells::new(),
            stopped: AtomicBool::new(false),
        }
    }

    /// Signals the workers to stop: each ends at its next turn.
    pub fn stop(&self) {
        self.stopped.store(true, Ordering::SeqCst);
        self.bells.ring_all();
    }

    /// Whether the workers are to stop.
    pub fn is_stopped(&self) -> bool {
        self.stopped.load(Ordering::SeqCst)
    }

    /// How often workers did something that a guest may wait for: they answered an admin command of its, or posted a command. It is read
    /// without the lock, and nothing is claimed of it.
    pub fn news(&self, guest: u8) -> u64 {
        self.bells.guest(guest).rings()
    }

    /// Waits until there is more news for a guest than had been seen, or for a millisecond or so. A guest that asks how much news there is before
    /// it reads the world misses none.
    pub fn wait_for_news<R: Wait>(&self, rt: &R, guest: u8, seen: u64) {
        let _rung = self.bells.guest(guest).wait(rt, seen);
    }

    /// Whether a thread sleeps on the world's lock: whoever only polls lets it go first. It is read without the lock, and nothing is claimed
    /// of it.
    pub fn is_awaited(&self) -> bool {
        self.sleepers.load(Ordering::SeqCst) != 0
    }

    /// Takes the world's lock. It is held for as long as one event takes, mostly less than a microsecond, so a thread tries for a while before it
    /// sleeps: whoever gives the lock back has to wake one that sleeps, which takes longer than what is done under the lock.
    pub(crate) fn lock<R: Wait>(&self, rt: &R) -> MutexGuard<'_, Locked> {
        for _ in 0..TRIES {
            if let Some(guard) = self.locked.try_lock() {
                return guard;
            }
            hint::spin_loop();
        }
        self.sleepers.fetch_add(1, Ordering::SeqCst);
        let guard = self.locked.lock(rt);
        self.sleepers.fetch_sub(1, Ordering::SeqCst);
        guard
    }

    // Whether the physical controller took commands on a lane before the world was shared.
    pub(crate) fn was_used(&self, lane: u8) -> bool {
        match self.used.get(usize::from(lane)) {
            Some(used) => *used,
            None => false,
        }
    }

    /// The world after all that was done under the lock. It is where its log leads, from the start of its set-up on; each step in the log is
    /// contained; and the log keeps the whole promise.
    pub fn close(self) -> World
        ensures accepted { refusal_of (setup_of result) ≡ None }
        ensures replayed { IsReplay result.geometry (world_at_start (setup_of result)) result.log (world_of result.state) }
        ensures contained { IsContained result }
        ensures promise { KeepsPromise result }
    {
        let Shared {
            locked,
            sleepers: _,
            bells: _,
            used: _,
            stopped: _,
        } = self;
        let Locked { world, notes: _ } = locked.into_inner();
        // With the log comes what is known of the world.
        let _known = world.log();
        world
    }
}
