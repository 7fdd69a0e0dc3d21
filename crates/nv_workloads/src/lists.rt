//! Scripts of `once` whose commands have long lists.

use crate::entry::{
    BUCKET, COMPARE, Command, DATA, DATASET_MANAGEMENT, LAST_SEGMENT, NO_KIND, READ, SEGMENT, SGL,
    WRITE, entry, length_and_kind, push_descriptor, push_page, push_range,
};
use crate::random::Random;
use crate::text::Text;
use nv_mem::NoMemory;
use nv_model::limits::{
    LARGEST_MEMORY, LARGEST_NAMESPACE, MOST_COMMAND_BLOCKS, MOST_COMMAND_BYTES, MOST_DESCRIPTORS,
    PAGE_SIZE, PART_SIZE,
};
use std::alloc::Global;

/// The memory's bytes and the disk's blocks.
const MEMORY: u64 = LARGEST_MEMORY;

const BLOCKS: u64 = LARGEST_NAMESPACE;

/// Where the lists are: one array of descriptors, one of descriptors some of which discard, one whose last descriptor is faulty, arrays that are
/// chained, a chain of pages, and ranges.
const ARRAY: u64 = 0x10_0000;

const DISCARDING: u64 = 0x11_0000;

const FAULTY: u64 = 0x12_0000;

const CHAINED: u64 = 0x13_0000;

const PAGES: u64 = 0x15_0000;

const RANGES: u64 = 0x16_0000;

/// Where data lies, and how many bytes of it there are.
const DATA_AT: u64 = 0x40_0000;

const DATA_BYTES: u64 = 0xc0_0000;

/// How many descriptors a list has: with the command's own 1,024.
const LISTED: u64 = MOST_DESCRIPTORS as u64 - 1;

/// How many descriptors an array of a chain has, and how far these arrays lie apart.
const CHAIN_ARRAY: u64 = 31;

const CHAIN_BYTES: u64 = 512;

/// After how many commands the lists are other ones.
const COMMANDS_A_LIST: u64 = 64;

/// A script in the making.
#[derive(Drop)]
pub struct Lists {
    alloc: Global,
    random: Random,
    text: Text,
}

impl Lists {
    /// The text of a script of so many commands.
    pub fn script(alloc: Global, seed: u64, commands: u64) -> Result<Text, NoMemory> {
        let mut lists = Lists {
            alloc,
            random: Random::new(seed),
            text: Text::new(alloc),
        };
        lists.text.line("memory", &[MEMORY])?;
        lists.text.line("blocks", &[BLOCKS])?;
        for number in 0..DATA_BYTES / MOST_COMMAND_BYTES {
            let at = DATA_AT.wrapping_add(number.wrapping_mul(MOST_COMMAND_BYTES));
            let byte = lists.random.below(256);
            lists.text.line("fill", &[at, MOST_COMMAND_BYTES, byte])?;
        }
        let mut start = 0;
        for number in 0..commands {
            if number % COMMANDS_A_LIST == 0 {
                lists.store_lists()?;
            }
            if number % 8 != 2 {
                start = lists.random.below(BLOCKS - u64::from(MOST_COMMAND_BLOCKS));
            }
            lists.command(number, start)?;
        }
        Ok(lists.text)
    }

    // The command of that number. A Compare is of what the Write before it wrote.
    fn command(&mut self, number: u64, start: u64) -> Result<(), NoMemory> {
        let array = (ARRAY, length_and_kind(16 * LISTED, LAST_SEGMENT));
        let discarding = (DISCARDING, length_and_kind(16 * LISTED, LAST_SEGMENT));
        let faulty = (FAULTY, length_and_kind(16 * LISTED, LAST_SEGMENT));
        let chained = (CHAINED, length_and_kind(16 * CHAIN_ARRAY, SEGMENT));
        let pages = (self.page(), PAGES + 0xf00);
        let (operation, pointer) = match number % 8 {
            0 => (READ | SGL, discarding),
            1 => (WRITE | SGL, array),
            2 => (COMPARE | SGL, array),
            3 => (READ | SGL, chained),
            4 => (WRITE, pages),
            5 => (DATASET_MANAGEMENT, (RANGES, 0)),
            6 => (WRITE | SGL, chained),
            _ => (READ | SGL, faulty),
        };
        let command = Command {
            operation,
            pointer,
            start,
            count: 255,
        };
        let bytes = entry(self.alloc, &command, number)?;
        self.text.line_with_bytes("cmd", &[], &bytes)
    }

    // Stores all lists anew.
    fn store_lists(&mut self) -> Result<(), NoMemory> {
        let array = self.array(false)?;
        self.store(ARRAY, &array)?;
        let discarding = self.array(true)?;
        self.store(DISCARDING, &discarding)?;
        let mut faulty = self.array(true)?;
        if let Some(kind) = faulty.last_chunk_mut::<4>() {
            *kind = NO_KIND.to_le_bytes();
        }
        self.store(FAULTY, &faulty)?;
        self.store_chain()?;
        let pages = self.pages()?;
        self.store(PAGES + 0xf00, &pages)?;
        let ranges = self.ranges()?;
        self.store(RANGES, &ranges)
    }

    // The descriptors of a transfer, whose pieces lie anywhere and have any length. Some discard, where that is asked for.
    fn array(&mut self, discards: bool) -> Result<Vec<u8>, NoMemory> {
        let mut list = Vec::new(self.alloc);
        let mut left = MOST_COMMAND_BYTES;
        for number in 1..LISTED {
            let len = self.random.below(65).wrapping_add(64);
            left = left.wrapping_sub(len);
            let is_bucket = discards && number % 8 == 0;
            let kind = if is_bucket { BUCKET } else { DATA };
            let addr = if is_bucket { 0 } else { self.place(len) };
            push_descriptor(&mut list, addr, len, kind)?;
        }
        push_descriptor(&mut list, self.place(left), left, DATA)?;
        Ok(list)
    }

    // Stores arrays of descriptors, each but the last with the next one's Segment.
    fn store_chain(&mut self) -> Result<(), NoMemory> {
        let mut left = MOST_COMMAND_BYTES;
        for number in 0..33u64 {
            let is_last = number == 32;
            let blocks = if is_last {
                CHAIN_ARRAY
            } else {
                CHAIN_ARRAY - 1
            };
            let mut list = Vec::new(self.alloc);
            for block in 0..blocks {
                let len = if is_last && block == CHAIN_ARRAY - 1 {
                    left
                } else {
                    self.random.below(65).wrapping_add(64)
                };
                left = left.wrapping_sub(len);
                push_descriptor(&mut list, self.place(len), len, DATA)?;
            }
            let at = CHAINED.wrapping_add(number.wrapping_mul(CHAIN_BYTES));
            if !is_last {
                let kind = if number == 31 { LAST_SEGMENT } else { SEGMENT };
                push_descriptor(
                    &mut list,
                    at.wrapping_add(CHAIN_BYTES),
                    16 * CHAIN_ARRAY,
                    kind,
                )?;
            }
            self.store(at, &list)?;
        }
        Ok(())
    }

    // The addresses of a transfer's pages after the first, on a list page that ends early and names the next one.
    fn pages(&mut self) -> Result<Vec<u8>, NoMemory> {
        let mut list = Vec::new(self.alloc);
        for slot in 0..63u64 {
            if slot == 31 {
                push_page(&mut list, PAGES + PAGE_SIZE)?;
            } else {
                push_page(&mut list, self.page())?;
            }
        }
        Ok(list)
    }

    // As many ranges as there may be.
    fn ranges(&mut self) -> Result<Vec<u8>, NoMemory> {
        let mut list = Vec::new(self.alloc);
        for _range in 0..256u64 {
            let blocks = self.random.below(32).wrapping_add(1);
            push_range(&mut list, self.random.below(BLOCKS - 32), blocks)?;
        }
        Ok(list)
    }

    // An address from which on so many bytes of data lie.
    fn place(&mut self, len: u64) -> u64 {
        DATA_AT.wrapping_add(self.random.below(DATA_BYTES.saturating_sub(len)))
    }

    // The address of a page of data.
    fn page(&mut self) -> u64 {
        DATA_AT.wrapping_add(
            self.random
                .below(DATA_BYTES / PAGE_SIZE)
                .wrapping_mul(PAGE_SIZE),
        )
    }

    // Stores bytes, in parts.
    fn store(&mut self, addr: u64, bytes: &[u8]) -> Result<(), NoMemory> {
        let mut at = addr;
        for part in bytes.chunks(PART_SIZE as usize) {
            self.text.line_with_bytes("store", &[at], part)?;
            at = at.wrapping_add(part.len() as u64);
        }
        Ok(())
    }
}
