//! The promise for a front, whose host has the memory and the drive: laws, and no code.
//!
//! A front's calls know neither the physical controller nor what it has done. So the log of a world at a front is no value of the code: it is the front's
//! calls with their replies, and what the controller did between them. A host that has the contracts of its calls on one side, and a controller that does
//! what the definition's does on the other, has the whole promise by these laws. `nv_core` says of each call that it is a step of such a world.
//!
//! `nv_host` makes these conditions an invariant of a type, and rests on it.
#![tactic(auto)]

pub mod laws;
