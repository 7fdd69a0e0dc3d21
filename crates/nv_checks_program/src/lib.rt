//! Tests of what the program `nvmed` is made of, by public calls alone: its threads, its scripts, and what it reads and writes.
//!
//! What shows from outside is in the cases of `tests/`. Here are values that nothing prints, readers and writers that fail half way, allocations that
//! fail, and calls of ports and workers one by one. A crate with tests is proved twice, so they are not beside the code, and they are one crate since
//! each crate of tests is linked with all that is below it.
#![tactic(auto)]

#[cfg(test)]
mod acting;
#[cfg(test)]
mod bench;
#[cfg(test)]
mod closing;
#[cfg(test)]
mod gates;
#[cfg(test)]
mod heaps;
#[cfg(test)]
mod mismatches;
#[cfg(test)]
mod once;
#[cfg(test)]
mod parsing;
#[cfg(test)]
mod preparing;
#[cfg(test)]
mod resuming;
#[cfg(test)]
mod running;
#[cfg(test)]
mod script;
#[cfg(test)]
mod turns;
#[cfg(test)]
mod waiting;
#[cfg(test)]
mod words;
