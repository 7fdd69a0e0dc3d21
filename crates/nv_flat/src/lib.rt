//! A slow private controller over flat memory.
//!
//! [`FlatController::one`] runs one command to its end. The completion, and the memory, the blocks and the marks after it, are those of some run of
//! the private controller that judges the command and moves its units (`specs/One`). Where memory is refused, nothing has changed. [`One`] asks the
//! same of any controller that runs one command at a time: it may leave commands out, but no plain Read or Write.
//!
//! [`laws`] states what the theorem rules out: a refused command changes nothing, each unit moves once, all but a Read of several blocks have one
//! outcome, and a byte or a block that no unit names stays as it was. [`examples`] are computed.
//!
//! A list is read in at most as many parts as it may have descriptors. That bounds the loop, because each part that is fed leaves a dialogue that
//! asks less often. This is a crate of its own because `nvmed once` alone runs it. The mediator uses the same crates of lists, checks and units,
//! but not this one.
#![tactic(auto)]

mod carrying_out;
mod controller;
mod dataset;
pub mod examples;
pub mod laws;
mod lists;
mod one;
mod transfer;

pub use controller::FlatController;
pub use one::One;
