//! The script of `nvmed replay`: the set-up of a world and the events that it is put through; and the set-up, acts and lines of every script
//! of a world.
//!
//! A text is read whole, before anything of it runs. What it says is `specs/ReplayScript`, by `specs/ReplayVocabulary`,
//! `specs/ReplaySetUp` and `specs/ReplayEvents`, over the lines, words, numbers and faults of `nv_once_script`; [`parse`] gives
//! exactly that, or that memory was refused. Neither the sizes nor the extents and maps are judged here, and an event may name a guest that there
//! is not.
//!
//! The first letters of a line select the one event that it most likely is (`likely`, in `vocabulary`). Where the line begins with that event's
//! word and a space, the table of all words isn't searched. It is a crate of its own because `replay` and `run` both read set-ups and acts by it.
#![tactic(auto)]

pub mod act;
mod event;
pub mod numbers;
pub mod open_set_up;
mod reading;
pub mod rows;
mod script;
pub mod set_up;
pub mod sizes;
pub mod vocabulary;

pub use script::{Script, parse};
pub use set_up::{ExtentLine, GuestSetUp};
pub use sizes::Sizes;
