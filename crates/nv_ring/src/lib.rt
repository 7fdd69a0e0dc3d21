//! The state of a ring: the positions of a queue's entries, and the phase tag of a pass (Base Specification 2.0, "Memory-based Transport Queue
//! Model", "Phase Tag").
//!
//! A [`Ring`] has `size` slots, which are numbered from 0 and wrap around. It is empty where head equals tail. It is full where head equals the
//! slot after the tail, so one slot always stays empty. It says where an entry is and never reads one. [`Phase`] is the phase tag that a completion
//! queue's writer gives to the entries of one pass. Nothing here takes memory.
//!
//! It is a crate of its own because the rings of the physical controller (`nv_device`, `nv_core`) and a guest's queues (`nv_vctl`) both use it.
#![tactic(auto)]

mod phase;
mod ring;

pub use phase::Phase;
pub use ring::Ring;
