//! What `nvmed replay` does: a script's mediator, put through its events in the order written, and a line for each reply.
//!
//! [`read`] takes a script whole, and opens its mediator: the guests' maps in order, then the set-up. [`run`] steps that mediator and prints.
//! What the text says is `specs/Opening`, over `nv_replay_script` and the set-ups of `nv_world_model`: [`read`] gives exactly that, or that
//! memory was refused. What is printed is `specs/Shown`: each reply is the step's, and the world goes on by it, or it says that there was no
//! memory, where the event may want some, and the world stays.
//!
//! No log is kept: each event is printed where it is carried out, and its reply is dropped. [`open_world`] opens a world with a log, for `run`. It is a
//! crate of its own because `run` opens its world by it, and it needs no threads.
#![tactic(auto)]

mod fault;
mod opening;
mod refusal;
mod replay;
mod reply_line;

pub use fault::ReplayFault;
pub use opening::{open_world, read};
pub use refusal::SetUpRefusal;
pub use replay::{Replay, run};
pub use reply_line::print_reply;
