//! The mediator that runs for ever: guests, the physical controller and what is between them, event by event, with no record of what has happened.
//!
//! [`Mediator::new`] makes the world of a [`Setup`], or returns the first reason for which it is refused: too many guests, ranges or maps that
//! overlap, sizes that are not allowed. Each other call is a whole event of the definition (`nv_world_model/specs/Step`): the reply, and the world
//! after it. [`Mediator::step`] makes any event; where memory is refused nothing is changed. Four kinds of events may need memory: a load of more
//! than 7 bytes, and List, Submit and DevTake. The others are never refused. These are register accesses and doorbells by [`Mediator::step`], and
//! the rest by calls of their own, which have no refusal: [`Mediator::store`], [`Mediator::load`] into a buffer that is lent, [`Mediator::admin`],
//! [`Mediator::take`], [`Mediator::give_up`], [`Mediator::dev_move`], [`Mediator::dev_post`], [`Mediator::dev_fail`], [`Mediator::keep`],
//! [`Mediator::reap`] and [`Mediator::post`]. [`Mediator::submit_plan`] takes a plan that was made elsewhere from a [`Mediator::job`].
//! [`Mediator::has_job`] says whether a job that was taken before is still its tag's.
//! [`Mediator::due`] reports what there is to do, and [`Mediator::host`], [`Mediator::block`] and [`Mediator::kept`] show memory and disk.
//!
//! The type guarantees that some log of events leads to the world from the start of the set-up. [`Mediator::promise`] does nothing: its contract
//! says that every log that leads there keeps the whole promise. So a caller that keeps a log has the promise of that log. A caller that keeps none
//! has the promise of the one that could have been kept.
//!
//! No counter grows without end. A flush marks blocks by a number, and with the last number all marks are made anew (`nv_disk`). The positions of a
//! ring wrap around, and its phase tag changes with each pass (`nv_ring`). A queue has no more taken commands than there are tags, 64 for each
//! lane, and a disk no more stored blocks than it has blocks.
//!
//! The invariant is that the set-up was accepted, that the world is consistent (`nv_laws_sound`), and that some log leads to it. The promise then
//! follows by laws of the definitions. The checks of a set-up are the definition's own, one function each. The lowest number that applies is the
//! refusal, and nothing else is refused, except where memory is.
//!
//! No controller holds more event requests than the most that it may (`Vctl::can_hold_request` of `nv_vctl`). What was read of a command's lists
//! grows by List events alone, and is dropped with the command's plan. This is a crate of its own because a host without a log (`nv_c`) uses it
//! alone, while `nv_world` adds the log.
#![tactic(auto)]

mod asking;
mod checking;
mod copies;
mod events;
mod limits;
mod mediator;
mod opening;
mod performing;
mod refusal;
mod setup;
mod stepping;

pub use mediator::Mediator;
pub use nv_core::Holder;
pub use refusal::Refusal;
pub use setup::{Extent, GuestSetup, Setup};
