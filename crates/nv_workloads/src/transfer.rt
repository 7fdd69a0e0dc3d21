//! The commands of guests' traffic: what they transfer, and where their lists say that it lies.

use crate::entry::{
    BUCKET, COMPARE, Command, DATA, DATASET_MANAGEMENT, FLUSH, FUA, LAST_SEGMENT, NO_KIND, READ,
    SGL, WRITE, WRITE_ZEROES, halves, length_and_kind, push_descriptor, push_page, push_range,
};
use crate::random::Random;
use crate::shape::Shape;
use nv_mem::NoMemory;
use nv_model::limits::{BLOCK_SIZE, MOST_COMMAND_BYTES, MOST_DESCRIPTORS, PAGE_SIZE};
use std::alloc::Global;

/// The bytes of a block.
const BLOCK: u64 = BLOCK_SIZE as u64;

/// The bytes of most transfers.
const COMMON: u64 = 4096;

/// Where the guest's lists are, and how far apart they are.
const LISTS: u64 = 0x10_0000;

const LIST_BYTES: u64 = 0x4000;

/// Where a guest's data lies, and how many bytes of it there are.
const DATA_AT: u64 = 0x20_0000;

const DATA_BYTES: u64 = 0x20_0000;

/// The most descriptors of a list in memory: one more is in the command.
const MOST_LISTED: u64 = MOST_DESCRIPTORS as u64 - 1;

/// A command with its list.
#[derive(Debug, Drop)]
pub struct Transfer {
    /// what its entry says
    pub command: Command,
    /// the list, or the ranges, that the guest stores before it
    pub list: Vec<u8>,
    /// where that is
    pub list_at: u64,
    /// how many units the physical controller moves; none where the command is refused
    pub units: u64,
}

/// Makes a guest's commands.
#[derive(Drop)]
pub struct Maker<'a> {
    /// the world
    pub shape: &'a Shape,
    /// where its numbers come from
    pub random: &'a mut Random,
}

impl Maker<'_> {
    /// The next command, whose list is at that place of the guest's.
    pub fn next(&mut self, alloc: Global, place: u64) -> Result<Transfer, NoMemory> {
        let list_at = (place % 64).wrapping_mul(LIST_BYTES).wrapping_add(LISTS);
        if self.random.once_in(self.shape.flushes) {
            return Ok(flush(alloc));
        }
        if self.shape.is_awkward && self.random.once_in(4) {
            return self.rare(alloc, list_at);
        }
        let bytes = if self.random.once_in(self.shape.large) {
            MOST_COMMAND_BYTES
        } else {
            COMMON
        };
        let opcode = if self.random.below(10) < 7 {
            READ
        } else {
            WRITE
        };
        self.moves(alloc, opcode, bytes, list_at)
    }

    // A command that is rare: of another kind, or with a long list.
    fn rare(&mut self, alloc: Global, list_at: u64) -> Result<Transfer, NoMemory> {
        match self.random.below(8) {
            0 | 1 => self.moves(alloc, COMPARE, COMMON, list_at),
            2 => Ok(self.zeroes(alloc)),
            3 => self.ranges(alloc, list_at),
            4 | 5 => self.long_list(alloc, list_at, DATA),
            6 => self.long_list(alloc, list_at, NO_KIND),
            _ => self.past_the_end(alloc, list_at),
        }
    }

    // A Read, Write or Compare of so many bytes.
    fn moves(
        &mut self,
        alloc: Global,
        opcode: u32,
        bytes: u64,
        list_at: u64,
    ) -> Result<Transfer, NoMemory> {
        let is_odd = self.random.once_in(self.shape.odd);
        let is_large = bytes > COMMON;
        let mut list = Vec::new(alloc);
        let (kind, pointer) = if is_odd {
            (SGL, self.odd_pieces(&mut list, bytes, list_at)?)
        } else if self.random.once_in(2) {
            (0, self.pages(&mut list, bytes, list_at)?)
        } else if is_large {
            (SGL, self.page_pieces(&mut list, bytes, list_at)?)
        } else {
            let addr = self.addr(bytes, 4);
            (SGL, (addr, length_and_kind(bytes, DATA)))
        };
        let command = Command {
            operation: opcode | kind,
            pointer,
            start: self.start(bytes / BLOCK),
            count: halves((bytes / BLOCK).wrapping_sub(1)).0 | self.fua(),
        };
        Ok(Transfer {
            command,
            list,
            list_at,
            units: bytes / BLOCK,
        })
    }

    // The pages of a transfer, as PRP1 and PRP2 name them. The first may begin after its page's first byte.
    fn pages(
        &mut self,
        list: &mut Vec<u8>,
        bytes: u64,
        list_at: u64,
    ) -> Result<(u64, u64), NoMemory> {
        let first = self.addr(PAGE_SIZE, PAGE_SIZE);
        let offset = if bytes > COMMON {
            0
        } else {
            self.random.below(3).wrapping_mul(0x400)
        };
        let behind = bytes.saturating_sub(PAGE_SIZE.wrapping_sub(offset));
        let second = match behind.div_ceil(PAGE_SIZE) {
            0 => 0,
            1 => self.addr(PAGE_SIZE, PAGE_SIZE),
            more => {
                for _page in 0..more {
                    push_page(list, self.addr(PAGE_SIZE, PAGE_SIZE))?;
                }
                list_at
            }
        };
        Ok((first.wrapping_add(offset), second))
    }

    // A transfer in pages that lie apart, through a list of descriptors.
    fn page_pieces(
        &mut self,
        list: &mut Vec<u8>,
        bytes: u64,
        list_at: u64,
    ) -> Result<(u64, u64), NoMemory> {
        for _page in 0..bytes / PAGE_SIZE {
            push_descriptor(list, self.addr(PAGE_SIZE, PAGE_SIZE), PAGE_SIZE, DATA)?;
        }
        Ok((list_at, length_and_kind(list.len() as u64, LAST_SEGMENT)))
    }

    // A transfer at addresses that no PRP names: one piece, or several of odd lengths.
    fn odd_pieces(
        &mut self,
        list: &mut Vec<u8>,
        bytes: u64,
        list_at: u64,
    ) -> Result<(u64, u64), NoMemory> {
        if self.random.once_in(2) {
            let addr = self.addr(bytes, 1) | 1;
            return Ok((addr, length_and_kind(bytes, DATA)));
        }
        let count = (bytes / 1024).max(2);
        self.scatter(list, bytes, count, false)?;
        Ok((list_at, length_and_kind(list.len() as u64, LAST_SEGMENT)))
    }

    // Appends so many pieces of a transfer to a list. They may be anywhere and have any length. Some of them are discarded where that is allowed.
    fn scatter(
        &mut self,
        list: &mut Vec<u8>,
        bytes: u64,
        count: u64,
        discards: bool,
    ) -> Result<(), NoMemory> {
        let common = bytes / count.max(1);
        let mut left = bytes;
        for number in 1..count {
            let len = common.wrapping_sub(self.random.below(common / 2 + 1));
            left = left.wrapping_sub(len);
            let kind = if discards && number % 8 == 0 {
                BUCKET
            } else {
                DATA
            };
            let addr = if kind == BUCKET { 0 } else { self.addr(len, 1) };
            push_descriptor(list, addr, len, kind)?;
        }
        push_descriptor(list, self.addr(left, 1), left, DATA)
    }

    // A Read through as many descriptors as a list may have, of which the last is of that kind.
    fn long_list(&mut self, alloc: Global, list_at: u64, last: u32) -> Result<Transfer, NoMemory> {
        let mut list = Vec::new(alloc);
        self.scatter(&mut list, MOST_COMMAND_BYTES, MOST_LISTED, true)?;
        if let Some(kind) = list.last_chunk_mut::<4>() {
            *kind = last.to_le_bytes();
        }
        let command = Command {
            operation: READ | SGL,
            pointer: (list_at, length_and_kind(list.len() as u64, LAST_SEGMENT)),
            start: self.start(MOST_COMMAND_BYTES / BLOCK),
            count: 255,
        };
        let units = if last == NO_KIND {
            0
        } else {
            MOST_COMMAND_BYTES / BLOCK
        };
        Ok(Transfer {
            command,
            list,
            list_at,
            units,
        })
    }

    // A Read whose last page is not mapped.
    fn past_the_end(&mut self, alloc: Global, list_at: u64) -> Result<Transfer, NoMemory> {
        let mut list = Vec::new(alloc);
        for _page in 0..30 {
            push_page(&mut list, self.addr(PAGE_SIZE, PAGE_SIZE))?;
        }
        push_page(&mut list, 0x4000_0000)?;
        let command = Command {
            operation: READ,
            pointer: (self.addr(PAGE_SIZE, PAGE_SIZE), list_at),
            start: self.start(MOST_COMMAND_BYTES / BLOCK),
            count: 255,
        };
        Ok(Transfer {
            command,
            list,
            list_at,
            units: 0,
        })
    }

    // A Write Zeroes of up to 64 blocks.
    fn zeroes(&mut self, alloc: Global) -> Transfer {
        let blocks = self.random.below(64).wrapping_add(1);
        let command = Command {
            operation: WRITE_ZEROES,
            pointer: (0, 0),
            start: self.start(blocks),
            count: halves(blocks.wrapping_sub(1)).0 | self.fua(),
        };
        Transfer {
            command,
            list: Vec::new(alloc),
            list_at: 0,
            units: blocks,
        }
    }

    // A Dataset Management that deallocates up to 256 ranges.
    fn ranges(&mut self, alloc: Global, list_at: u64) -> Result<Transfer, NoMemory> {
        let count = self.random.below(256).wrapping_add(1);
        let mut list = Vec::new(alloc);
        for _range in 0..count {
            let blocks = self.random.below(256).wrapping_add(1);
            push_range(&mut list, self.start(blocks), blocks)?;
        }
        let command = Command {
            operation: DATASET_MANAGEMENT,
            pointer: (list_at, 0),
            start: 0,
            count: halves(count.wrapping_sub(1)).0,
        };
        Ok(Transfer {
            command,
            list,
            list_at,
            units: count,
        })
    }

    // An address in the guest's data from which on so many bytes lie there, a multiple of `alignment`.
    fn addr(&mut self, len: u64, alignment: u64) -> u64 {
        let places = DATA_BYTES.saturating_sub(len).wrapping_sub(1) / alignment.max(1);
        DATA_AT.wrapping_add(self.random.below(places).wrapping_mul(alignment))
    }

    // A block from which on the guest has so many.
    fn start(&mut self, blocks: u64) -> u64 {
        let (_, all) = self.shape.range(0);
        self.random.below(all.saturating_sub(blocks))
    }

    // FUA, one time in sixteen.
    fn fua(&mut self) -> u32 {
        if self.random.once_in(16) { FUA } else { 0 }
    }
}

// A Flush.
fn flush(alloc: Global) -> Transfer {
    let command = Command {
        operation: FLUSH,
        pointer: (0, 0),
        start: 0,
        count: 0,
    };
    Transfer {
        command,
        list: Vec::new(alloc),
        list_at: 0,
        units: 1,
    }
}
