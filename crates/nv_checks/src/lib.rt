//! Tests of all that is below the mediator, by public calls alone.
//!
//! - Entries, zeroed memory, bytes, hosts, maps, places, namespaces, the checks of a command, and the flat controller.
//! - Lists, the plans that come of them, and a lane's tags: [`sgl`] and [`prp`] read the same guest's [`memory`] as [`plan`], by the same descriptors.
//! - The controllers, virtual and physical: a guest's virtual controller, its admin queue, the copies between a guest's places and a slot of the
//!   host, and the physical controller with its rings. Each is driven over a host of its own, with entries that are made by hand ([`hand`]).
//!
//! A crate with tests is proved twice, so they are here and not beside the code. They are one crate since each crate of tests is loaded and linked
//! with all that is below it, which costs a minute before its first test.
#![tactic(auto)]

#[cfg(test)]
mod admin;
#[cfg(test)]
mod bounce;
#[cfg(test)]
mod bytes;
#[cfg(test)]
mod device;
#[cfg(test)]
mod entry;
#[cfg(test)]
mod extent;
#[cfg(test)]
mod fields;
#[cfg(test)]
mod flat;
#[cfg(test)]
mod guest_map;
#[cfg(test)]
mod hand;
#[cfg(test)]
mod host;
#[cfg(test)]
mod memory;
#[cfg(test)]
mod places;
#[cfg(test)]
mod plan;
#[cfg(test)]
mod prp;
#[cfg(test)]
mod ranges;
#[cfg(test)]
mod sgl;
#[cfg(test)]
mod texts;
#[cfg(test)]
mod vctl;
#[cfg(test)]
mod virtual_ns;
#[cfg(test)]
mod zeroed;
