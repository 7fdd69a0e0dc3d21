//! Where a guest's bytes are in the memory of the host.
//!
//! - [`Host`] is the host's memory: bytes from address 0 on, read and written in ranges.
//! - [`MemoryCell`] is what a memory is made of that is lent to a call: bytes in a row, or one [`Host`].
//! - [`GuestMap`] is a guest's memory map: [`Region`]s of whole pages, disjoint in guest and in host addresses and inside the host. It means a
//!   finite function from guest to host addresses.
//! - [`Places`] is where the bytes of a transfer are in a guest's memory, as the guest's list named them: [`Piece`]s, which are runs of addresses
//!   or bytes that go nowhere.
//! - [`Bytes`] are bytes as a value of their own, of which [`FEW`] take no memory; [`BoxedBytes`] are bytes held by one pointer.
//! - [`NoMemory`] is the one answer to a refused growth, here and in every crate above.
//! - [`laws`] states what the definitions amount to: different guest addresses are at different host addresses, maps that do not overlap share no
//!   byte, a store changes the bytes that it names.
//!
//! NVM Express says nothing of memory maps: they are the hypervisor's, and so is every rule on them here. Sums are taken in whole numbers, so a
//! region may end exactly at 2 to the 64.
//!
//! [`GuestMap::new`] refuses a list of regions with the lowest number of [`MapError`] that applies, and makes the map where none does. Two calls
//! are exact over a map, of any number of regions. [`GuestMap::holds`] says whether each of the addresses is mapped. [`GuestMap::run`] says where
//! the first one is in the host and how many are contiguous there, across regions that touch.
//!
//! [`Host::new`], [`Places::reserve`], [`Places::push`], the two `try_clone`, [`BoxedBytes::new`] and [`BoxedBytes::from_slice`], and
//! [`Bytes::new`] and [`Bytes::from_slice`] where there are more than [`FEW`] bytes, take memory, and nothing else does. Each is called with ample
//! memory in a test of `nv_checks` that compares its answer. There `rt try --test --fail-alloc N` was run for each N up to 22: the test whose
//! Nth allocation is refused ends with that call's error, and all others pass.
//!
//! A map keeps its regions in the order in which they were given. For up to 64 regions it also keeps their order by guest address, by which an
//! address is found in few steps. That order is made once and is in the map itself, so it takes no memory. Of more regions each is compared.
//!
//! The [`FEW`] bytes of a [`Bytes`] and their number are one aligned word. A copy loads and stores that word at once. Separate stores would make
//! the next load wait for all of them. So a [`Bytes`] has two words, which a test of `nv_checks` checks. An act carries [`BoxedBytes`], since
//! few acts have bytes and a script holds millions of acts.
//!
//! It is a crate of its own because definitions and code share these types, from `nv_model` up.
#![tactic(auto)]

pub use boxed_bytes::BoxedBytes;
pub use bytes::Bytes;
pub use cells::MemoryCell;
pub use few::FEW;
pub use guest_map::GuestMap;
pub use host::Host;
pub use map_error::MapError;
pub use no_memory::NoMemory;
pub use piece::{Piece, len_of};
pub use places::Places;
pub use region::{PAGE_SIZE, Region, spans_meet};

mod boxed_bytes;
mod bytes;
pub mod cells;
mod few;
pub mod guest_map;
mod guest_order;
pub mod host;
pub mod laws;
mod lookup;
pub mod map_error;
pub mod no_memory;
pub mod piece;
pub mod places;
mod refusal;
pub mod region;
