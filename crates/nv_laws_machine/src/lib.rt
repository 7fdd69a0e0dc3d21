//! The calls of the mediator's code are those of the machine without memory: laws, and no code.
//!
//! The code is lent a memory for each call, and its contracts say that a call is the definition's step of each world that has the mediator's side and this
//! memory. By `nv_machine` such a step is the machine's call, with the bytes that lie there at its fetch, and its effects.
//!
//! Some calls have no memory: they are given the bytes that were fetched, and their contracts are the machine's call.
#![tactic(auto)]

pub mod laws;
