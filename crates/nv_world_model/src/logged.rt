use crate::event::Event;
use nv_model::Reply;

/// An event of the log with its reply.
#[derive(Debug, Drop)]
pub struct Logged {
    /// What happened.
    pub event: Event,
    /// How it was answered.
    pub reply: Reply,
}
