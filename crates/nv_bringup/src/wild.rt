//! What a guest does that keeps to no rule: any commands, lists, addresses and values of registers.

use crate::random::Random;

/// Lengths and types of descriptors: their last two dwords.
const LENGTHS: &[u32] = &[
    0,
    16,
    24,
    32,
    48,
    256,
    512,
    512,
    512,
    1024,
    4096,
    8192,
    0xffff_ffff,
];

const TYPES: &[u32] = &[
    0,
    0,
    0,
    0,
    0x1000_0000,
    0x2000_0000,
    0x3000_0000,
    0x4000_0000,
    0x0100_0000,
];

/// NLB.
const COUNTS: &[u32] = &[0, 0, 1, 1, 2, 7, 15, 16, 23, 63, 255, 256, 0xffff];

/// CDW11 of admin commands that make and delete queues.
const QUEUE_FLAGS: &[u32] = &[
    1,
    1,
    1,
    0x0001_0001,
    0x0001_0001,
    0x0002_0001,
    0,
    0x0009_0001,
];

/// Offsets of registers.
const OFFSETS: &[u32] = &[
    0x00, 0x04, 0x08, 0x0c, 0x14, 0x1c, 0x24, 0x28, 0x2c, 0x30, 0x34, 0x38, 0x03, 0x1000,
];

/// What such a guest names. One that is there twice comes twice as often.
#[derive(Clone, Copy)]
pub struct Wild {
    /// Addresses that mean something.
    pub addresses: &'static [u64],
    /// The lower halves of addresses that go into an entry.
    pub low: &'static [u32],
    /// Opcodes with FUSE and PSDT.
    pub opcodes: &'static [u32],
    /// Blocks.
    pub blocks: &'static [u32],
    /// Opcodes of admin commands.
    pub admin_opcodes: &'static [u32],
    /// CDW10 of those that make and delete queues.
    pub queues: &'static [u32],
    /// Values of registers.
    pub values: &'static [u32],
    /// How many kinds of upper halves a row of a list has: an address, a block, the end of a descriptor, and 512.
    pub kinds: u32,
}

impl Wild {
    /// An address, near one of those that mean something.
    pub fn somewhere(&self, random: &mut Random) -> u64 {
        let near = random.address(self.addresses);
        if random.once_in(2) {
            near
        } else {
            near.wrapping_add(u64::from(random.below(0x1000)))
        }
    }

    /// A length of what is read at once.
    pub fn length(random: &mut Random) -> u64 {
        u64::from(random.among(LENGTHS))
    }

    /// A block.
    pub fn block(&self, random: &mut Random) -> u64 {
        u64::from(random.among(self.blocks))
    }

    /// The offset of a register.
    pub fn offset(random: &mut Random) -> u32 {
        random.among(OFFSETS)
    }

    /// A value for a register.
    pub fn value(&self, random: &mut Random) -> u32 {
        random.among(self.values)
    }

    /// A descriptor, a range or two addresses, and where among the lists they lie.
    pub fn row(&self, random: &mut Random) -> (u64, u64, u64) {
        let page = if random.once_in(2) { 0x6000 } else { 0x7000 };
        let at = page + 16 * u64::from(random.below(8)) + 8 * u64::from(random.below(2));
        let low = random.address(self.addresses);
        let high = match random.below(self.kinds) {
            0 => random.address(self.addresses),
            1 => self.block(random),
            2 => Wild::length(random) | u64::from(random.among(TYPES)) << 32,
            _ => 512,
        };
        (at, low, high)
    }

    /// A command of anything.
    pub fn command(&self, random: &mut Random) -> [u32; 16] {
        let high = if random.once_in(16) { u32::MAX } else { 0 };
        let fua = if random.once_in(4) { 1 << 30 } else { 0 };
        let third = if random.once_in(2) { LENGTHS } else { self.low };
        [
            random.among(self.opcodes) | random.word() & 0xffff_0000,
            if random.once_in(16) {
                random.below(4)
            } else {
                1
            },
            0,
            0,
            0,
            0,
            random.among(self.low) | random.among(&[0, 0, 0, 4, 2, 256]),
            high,
            random.among(third),
            random.among(TYPES),
            random.among(self.blocks),
            if random.once_in(8) { 4 } else { 0 },
            random.among(COUNTS) | fua,
            random.word(),
            random.word(),
            random.word(),
        ]
    }

    /// An admin command with that identifier.
    pub fn admin_command(&self, random: &mut Random, identifier: u16) -> [u32; 16] {
        [
            random.among(self.admin_opcodes) | u32::from(identifier) << 16,
            random.below(2),
            0,
            0,
            0,
            0,
            random.among(self.low),
            0,
            random.among(self.low),
            0,
            random.among(self.queues),
            random.among(QUEUE_FLAGS),
            0,
            0,
            0,
            0,
        ]
    }
}
