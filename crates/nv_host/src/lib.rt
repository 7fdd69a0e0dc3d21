//! The mediator of a host that has memory and a drive of its own.
//!
//! A [`HostMediator`] holds the mediator's side of the world alone: lanes with their tags, the tails of the submission rings, and each guest's
//! controller. The host's memory is lent to each call, as a slice of cells, and the drive is the host's. [`HostMediator::new`] makes it of a [`Setup`],
//! or returns the first reason for which the set-up is refused.
//!
//! Each other call that changes something, but for a close, is a whole event of the definition (`nv_world_model/specs/Step`). The events of guests are
//! [`HostMediator::act`], [`HostMediator::store`], [`HostMediator::load`] and [`HostMediator::admin`]. Those of the mediator are
//! [`HostMediator::take`], [`HostMediator::list`], [`HostMediator::submit`] and [`HostMediator::submit_plan`], [`HostMediator::give_up`],
//! [`HostMediator::reap`] and [`HostMediator::post`]. [`HostMediator::due`] reports what there is to do, and [`HostMediator::tail`],
//! [`HostMediator::head`], [`HostMediator::submission_ring`] and [`HostMediator::completion_ring`] what the host needs for the drive's queues and
//! doorbells. [`HostMediator::pending`] has the interrupt vectors that the host is to raise in a guest.
//!
//! [`HostMediator::work`] carries out all that is due, of a guest, of a lane or of all ([`Scope`]), by these calls one after another (`specs/Work`).
//!
//! What a call comes to is said by logs (`specs/Served`): of each log that leads to the mediator and the memory as they are, the call is the next
//! event. Such a log has the calls with their replies, and what the drive did between them. Nobody has to keep one. [`HostMediator::promise`] does
//! nothing: its contract says that every log that leads there keeps the whole promise.
//!
//! [`HostMediator::close`] ends the commands of one lane where the drive's completions can't be relied on any more. It is several events: of each log that
//! leads to the mediator it is a run of Reap, GiveUp, DevTake and DevFail of that lane, so that a log leads past it and the promise holds as before. By the
//! lane's tags and by bytes its contract says besides what becomes of the commands in whatever memory (`specs/Closing`), and that nothing else changes.
//!
//! The type keeps what no byte of memory can spoil. So each call is safe, ends and answers, whatever the drive or a guest has written; a completion
//! that names no command on its way is a [`Stray`], and changes nothing.
#![tactic(auto)]

mod asking;
mod closing;
mod commands;
mod due;
mod failing;
mod guests;
mod holds;
mod host_mediator;
mod interrupts;
pub mod laws;
mod planning;
mod rings;
mod shares;
mod taking;
mod waiting;
mod worked;
mod working;

pub use closing::Closed;
pub use host_mediator::HostMediator;
pub use nv_core::{Holder, Stray};
pub use nv_mediator::{Extent, GuestSetup, Refusal, Setup};
pub use shares::ShareRefusal;
pub use worked::{Scope, Why, Worked};
