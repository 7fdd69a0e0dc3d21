//! The mediator with a log of all that has happened: guests, the physical controller and what is between them, event by event.
//!
//! [`World::new`] makes the world of a [`Setup`], or returns the first reason for which it is refused: too many guests, ranges or maps that meet,
//! sizes that are not allowed. [`World::step`] makes one event of the definition (`nv_world_model/specs/Step`), returns its reply and writes both
//! into the log. Where memory is refused nothing is changed. [`World::submit_plan`] takes a plan that was made elsewhere, and is Stale where its
//! job, map, namespace or limit are not the current ones then. The type keeps the invariant that the world is where its log leads from the start of
//! the set-up. So the contract of [`World::log`] says of any world that each event is contained, and that what a disciplined guest has seen is a
//! run of its own commands on a private controller.
//!
//! Room in the log is taken before a step, so that nothing can fail after it. `step` needs the reply twice, for the log and for its caller;
//! `advance` has it in the log alone. A reply without bytes is written to the log with nothing read in the place of bytes. Most events move a unit,
//! so they have a path of their own, which stores little beside the block and the entry of the log.
//!
//! It is a crate of its own because it adds the log and nothing else: `nv_c` does without it.
#![tactic(auto)]

mod copies;
mod due;
mod jobs;
mod running;
mod showing;
mod stepping;
mod submitting;
mod world;

pub use nv_mediator::{Extent, GuestSetup, Refusal, Setup};
pub use world::World;
