//! The blocks of a disk, with a mark each, and units of commands that move between them and a buffer.
//!
//! - [`Blocks`] are blocks of 512 bytes that are zero until they are written, and cost next to nothing before: their bytes are stored by groups of
//!   blocks, in the order in which groups are written first.
//! - [`Marks`] is a mark for each block, whether it is kept; all of them are set at once, in no time, by a number that is counted up.
//! - [`Buffer`] is what is left of a command's places; bytes go between it and blocks without a copy in between.
//!
//! The private controller says what a unit does to memory, disk and marks, which are functions there. Here they are a [`nv_mem::Host`], [`Blocks`],
//! which a contract sees as the list of the blocks, and [`Marks`], as that of the marks; each call does one unit of these definitions, or some in
//! order. [`Blocks::new`] and [`Marks::new`] take memory, and nothing else does.
//!
//! A group has 64 blocks on a disk of up to 128 MiB, and eight on a larger one. Room for all blocks is taken at the start, so no write needs
//! memory. The first write to a group gives all its blocks their places, one after another, and writes zeros to the others. So blocks that are next
//! to each other are stored in a row, whatever the order of the writes, and a row moves at once. Up to 64 blocks that hold zeros are a row, too.
//!
//! Each block has an entry of four bytes. It is 0 where nothing of the block's group was written. Else it has the block's place, and a bit that
//! says whether the block holds zeros. A block is cleared by that bit, and its bytes are left alone. A range of eight blocks or more is cleared in
//! one loop over entries and one over marks. In a smaller range, blocks that have a place are written with zeros, so that their group is still one
//! row.
//!
//! [`Marks`] has for each block the number of the flush from which on it is kept. A Flush counts up one number, so it costs the same on every disk.
//! With the last number all marks are made anew. This is a crate of its own because `once` and the physical controller share it (`nv_flat`,
//! `nv_device`).
#![tactic(auto)]

mod blocks;
mod buffer;
mod marks;
mod moves;

pub use blocks::Blocks;
pub use buffer::Buffer;
pub use marks::Marks;
pub use moves::{
    clear_block, clear_blocks, compare_block, compare_blocks, keep_all, read_block, read_blocks,
    write_block,
};
