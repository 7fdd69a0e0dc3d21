//! Tests of the mediator of a host, by public calls alone.
//!
//! In [`rounds`] and [`closing`] the host's memory is a list of bytes, and the drive is the test itself ([`bench::Bench`]).
//!
//! In [`log`] and [`fetch`] a [`desk::Desk`] is a `HostMediator`, a memory and a `Device`, and the two share nothing but the memory and the doorbells.
//! Beside it goes a `Mediator`, event by event ([`pair::Pair`]): both must answer each event alike, find the same events due, and end with the same
//! memory and disk. [`failing`] shows that a difference is found. In [`earlier`] the host starts anew, with a drive that has data and a memory full of
//! other bytes.
//!
//! In [`working`] what is due is carried out by `HostMediator::work` alone, beside a drive. [`sharing`] shows what a guest's share does to it.
//!
//! The memory ([`watched::Watched`]) marks each byte that a call reads or writes. So it shows whether a call reads a byte twice, or reads what it wrote
//! itself. It notes the accesses in their order, too, for [`order`].
//!
//! It is a crate of its own since a crate with tests is proved twice.
#![tactic(auto)]

#[cfg(test)]
mod bench;
#[cfg(test)]
mod closing;
#[cfg(test)]
mod commands;
#[cfg(test)]
mod counts;
#[cfg(test)]
mod desk;
#[cfg(test)]
mod drive;
#[cfg(test)]
mod earlier;
#[cfg(test)]
mod failing;
#[cfg(test)]
mod fetch;
#[cfg(test)]
mod guests;
#[cfg(test)]
mod log;
#[cfg(test)]
mod naming;
#[cfg(test)]
mod order;
#[cfg(test)]
mod pair;
#[cfg(test)]
mod plans;
#[cfg(test)]
mod rounds;
#[cfg(test)]
mod sharing;
#[cfg(test)]
mod two_guests;
#[cfg(test)]
mod watched;
#[cfg(test)]
mod wild;
#[cfg(test)]
mod working;
