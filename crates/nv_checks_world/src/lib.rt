//! Tests of the world by itself, by public calls alone: a crate with tests is proved twice, so they are here and not beside the code.
//!
//! Guests have namespaces of one extent to eight. Their commands end as on a flat controller of their own, one after the other and by the thousand
//! side by side. Where parts fail, the first of them decides. A command runs out after a reset, and waits where tags are scarce. Set-ups are tried
//! at each limit, calls again where memory was refused, and phase tags beside positions.
//!
//! The mediator without a log is tried beside a world, which keeps one: it answers the same, and leaves the same memory and disk. [`promised`] has
//! what the words of both contracts' promises give. [`beside`] compares what an honest guest sees beside one that is not honest with what it sees
//! alone. It is one crate, since each crate of tests is linked with all that is below it.
#![tactic(auto)]

#[cfg(test)]
mod alike;
#[cfg(test)]
mod bench;
#[cfg(test)]
mod beside;
#[cfg(test)]
mod commands;
#[cfg(test)]
mod failing;
#[cfg(test)]
mod many;
#[cfg(test)]
mod mediator;
#[cfg(test)]
mod phases;
pub mod promised;
#[cfg(test)]
mod refusals;
#[cfg(test)]
mod resets;
#[cfg(test)]
mod scarce;
#[cfg(test)]
mod sizes;
