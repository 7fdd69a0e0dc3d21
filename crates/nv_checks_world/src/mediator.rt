//! The mediator without a log.

mod beside;
mod calls;
mod events;
mod jobs;
