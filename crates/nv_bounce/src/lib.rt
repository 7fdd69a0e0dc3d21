//! Copies between a guest's places and the mediator's own pages of the host's memory.
//!
//! A slot is a stretch of the host's memory that no guest's map has, as long as the transfer. [`gather`] copies the bytes at a guest's
//! places to a slot, and [`scatter`] copies the bytes of a slot to a guest's places: the bytes are in the order in which the guest's
//! list names their places, without gaps. A Bit Bucket (Base Specification 2.0, "SGL Bit Bucket descriptor") discards its bytes of
//! the slot, and an address that is named twice keeps the last byte meant for it.
//!
//! [`load`] and [`store`] read and write a guest's memory at its own addresses, by the runs in which it is in the host. A store changes no
//! byte of the host but those that it names.
//!
//! [`laws`] states what the copies come to: a gather changes nothing for the guest, a scatter nothing for anyone else, and what was
//! gathered can be scattered back.
//!
//! A caller tests the conditions of a copy by [`nv_mem::GuestMap::host_len`], [`are_mapped`], [`name_no_bucket`], [`total_len`],
//! [`nv_mem::MemoryCell::len`] and [`nv_mem::GuestMap::meets_host`]. Bytes move in whole runs that are contiguous in the host, and nothing
//! here takes memory. The host's memory is lent to each call as a slice of cells, so that it may be a [`nv_mem::Host`] or somebody else's.
//!
//! A contract says what all bytes of the host are after a copy, as one function. What becomes of the guest's memory, of the slot and of other bytes
//! follows from that. A copy of a list of places is the copy of its first part and then of the rest. So one form of loop invariant serves both
//! directions, over pieces and over the runs of a piece. It is a crate of its own because guests' queues (`nv_vctl`), Identify (`nv_admin`) and
//! bounced transfers (`nv_core`) all copy by it.
#![tactic(auto)]

mod gathering;
mod guest_bytes;
pub mod laws;
mod pieces;
mod scattering;

pub use gathering::gather;
pub use guest_bytes::{load, store};
pub use pieces::{are_mapped, name_no_bucket, total_len};
pub use scattering::scatter;
