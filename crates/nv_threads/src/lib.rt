//! The mediator under threads: a lock round the world, the ports of guests, and the workers that carry their commands out.
//!
//! - [`Shared`] is the world under one lock, beside a flag that asks the workers to stop. Nothing is claimed of the flag. Each change of the world
//!   is one `World::step` or one `World::submit_plan` while the lock is held. What a `World`'s type maintains comes with each guard, and is what
//!   `World::log` says: the world is where its log leads from the start of its set-up on, each step in it is contained, and it keeps the whole
//!   promise. So the log that threads made together is one history, and whatever is proved of logs holds of it.
//! - [`Port`] is what a guest acts by. It keeps its own list of events with the replies that it gave back.
//! - [`planner`], [`reaper`] and [`device_loop`] are the workers. They make an event only where it is due under the same hold of the lock, so
//!   waiting logs nothing. What is wanted of a command's lists is found outside the lock, by a plan that is fed, read by read. Once all is read, a
//!   [`Gate`] makes the plan. Both are in a heap of the planner's own.
//! - A worker that finds nothing to do waits outside the lock, for a bell. The one that has made an event notifies those whom it concerns, and a
//!   wait ends by itself after a millisecond or so. A guest may wait in the same way for what was posted to it ([`Shared::wait_for_news`]). Notes
//!   beside the world say which tags are not free, and whose they are, so that workers need not check others. Nothing is claimed of bells or notes:
//!   the world says which event is due.
//! - [`finish`] compares the log with what ports and workers kept. After `Ok` each reply that a port gave is that of one history, which holds each
//!   of the port's calls once, in its order.
//!
//! [`Port::act`], a gate's `plan` and the three workers may wait: what is said of them holds if they return. Nothing says that a thread makes
//! progress, or that a guest, a planner or the device ever gets a turn.
//!
//! A worker makes at most one event in one hold of the lock. A thread tries to take the lock for some 15 microseconds before it sleeps on it. A
//! port's act takes room for the second copy of its reply before the step, so that nothing can fail after it. [`Shared::new`] reads the log once,
//! to see on which lanes commands may be half moved.
//!
//! A planner has one command at a time. It takes none where its guest's share of the lane has no room, so that no guest can have all tags of a lane; it is
//! notified once a command of the guest's is posted there. One that waits for tags is notified where tags are freed. A lane is short where it has free tags, but fewer
//! than some command takes. While a lane is short, planners are also notified where their guest's front entry may be another one, or was written
//! over.
//!
//! [`finish`] goes through the log once, and once more for each guest that has a port. This is a crate of its own because the world is shared by
//! threads only here: `nv_world` and what it uses know nothing of locks.
#![tactic(auto)]

pub mod alike;
mod bell;
mod bells;
mod bits;
#[cfg(test)]
mod brought_up;
mod calls;
mod concern;
#[cfg(test)]
mod concerning;
mod counting;
mod device_side;
#[cfg(test)]
mod ending;
mod feeder;
mod finishing;
mod gate;
mod given;
#[cfg(test)]
mod holding;
mod locked;
mod maker;
mod mismatch;
mod notes;
#[cfg(test)]
mod noting;
mod planning;
mod port;
mod reaping;
#[cfg(test)]
mod ringing;
mod share;
mod shared;
#[cfg(test)]
mod simulated;
#[cfg(test)]
mod simulated_counts;
#[cfg(test)]
mod simulated_due;
#[cfg(test)]
mod simulated_guest;
#[cfg(test)]
mod simulated_noted;
#[cfg(test)]
mod simulated_seats;
#[cfg(test)]
mod simulated_worlds;
mod sums;
mod tasks;
mod telling;

pub use calls::told_to;
pub use device_side::device_loop;
pub use finishing::finish;
pub use gate::{Gate, Open};
pub use mismatch::Mismatch;
pub use planning::planner;
pub use port::Port;
pub use reaping::reaper;
pub use share::Share;
pub use shared::Shared;
