//! Memory that is zero until it is written, and takes no time before.
//!
//! - [`Zeroed`] is such a memory: a fixed number of bytes, all zero at first, read and written in ranges.
//!
//! A memory of many gigabytes of which few are ever written costs what is written: its bytes are in chunks of 256 KiB, each of which has its
//! room from the start and gets its bytes at its first store. So no store needs memory, and the system gives pages to what is written alone.
//!
//! A contract sees the memory as the list of its bytes, and nothing of chunks: what is read, compared, stored or copied may go over their
//! ends. A store and a copy change the bytes that they name, and no other.
//!
//! [`Zeroed::new`] takes memory, and nothing else does.
//!
//! A chunk has 256 KiB, so that an allocator takes separate pages for each. The allocator writes a few bytes before each block of its heap. If
//! smaller chunks were in the heap, these bytes would make a system with huge pages clear all of the memory. Bytes of one chunk are lent in place;
//! a range over several chunks is loaded into the caller's room ([`Zeroed::bytes`]).
//!
//! It is a crate of its own because nothing in it is of NVM Express. Of the program's code only `nv_mem` uses it, for the host's memory.
#![tactic(auto)]

pub use zeroed::Zeroed;

mod chunk;
pub mod zeroed;
