//! Worked examples of the definitions of a host's mediator: the tags of its lanes, its guests' shares, how it reads completions, which events are its
//! work, what its calls come to, and what it promises. There is no code here. They are a crate of their own, above `nv_host`, whose definitions they
//! compute. `nv_examples` has those of worlds, and needs none of the code.
#![tactic(auto)]

pub mod asking;
pub mod beside;
pub mod calls;
pub mod closes;
pub mod ends;
pub mod reaping;
pub mod shares;
pub mod sharing;
pub mod tags;
pub mod works;
