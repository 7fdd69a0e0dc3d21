//! The script of `nvmed run`: the set-up of a world, and the lines that its guests' threads go through.
//!
//! A text is read whole, before anything of it runs. What it says is `specs/RunScript`, by `specs/RunTasks`, over the set-up, acts and
//! lines of `nv_replay_script`; [`parse`] gives exactly that, or that memory was refused. Neither the sizes nor the maps are judged here;
//! each line's guest is one of the set-up.
//!
//! It is a crate of its own because only `run` has lines of guests: `replay` doesn't depend on it.
#![tactic(auto)]

mod line;
mod reading;
pub mod rows;
mod script;

pub use line::{Line, Task};
pub use script::{Script, parse};
