//! What guests name that keep to no rule.

use nv_bringup::{DISABLED, ENABLED, Wild};

/// Guest addresses: data, lists, queues, the last bytes of regions and those after them, and host addresses of the guests and of the mediator.
const ADDRESSES: &[u64] = &[
    0x3000,
    0x3e00,
    0x5002,
    0x6000,
    0x6000,
    0x6010,
    0x7000,
    0x7ff8,
    0xa000,
    0x1_0000,
    0x1_1000,
    0x1_2000,
    0x1_3000,
    0x1_f000,
    0x1_fffc,
    0x2_0000,
    0x2_3000,
    0x3_fffc,
    0x4_0000,
    0x5_0000,
    0x8_3000,
    0x10_0000,
    0x10_2000,
    0x10_4000,
    0xffff_ffff_ffff_f000,
];

/// The lower halves of addresses that go into an entry.
const LOW: &[u32] = &[
    0x3000,
    0x3002,
    0x3e00,
    0x5000,
    0x6000,
    0x6000,
    0x6010,
    0x7000,
    0x7ff8,
    0xa000,
    0x1_2000,
    0x1_3000,
    0x1_fe00,
    0x2_0000,
    0x5_0000,
    0x8_3000,
    0x10_0000,
    0x10_4000,
    0xffff_f000,
];

/// Opcodes with FUSE and PSDT: those of the I/O commands, most often of transfers, and some that are none.
const OPCODES: &[u32] = &[
    0x0001, 0x0002, 0x0005, 0x4001, 0x4002, 0x4005, 0x4001, 0x4002, 0x4009, 0x0009, 0x0008, 0x0000,
    0x8002, 0xc002, 0x4102, 0x0004, 0x00ff,
];

/// Blocks: a guest's own, those after them, those of the disk that are both guests', and the last of all.
const BLOCKS: &[u32] = &[
    0,
    1,
    5,
    5,
    8,
    31,
    63,
    64,
    1000,
    1063,
    1127,
    4095,
    4096,
    0xffff_ffff,
];

/// Opcodes of admin commands, and CDW10 of those that make and delete queues.
const ADMIN_OPCODES: &[u32] = &[
    0, 1, 4, 5, 1, 5, 6, 6, 6, 2, 8, 9, 9, 10, 10, 12, 0x7f, 0x4001,
];

const QUEUES: &[u32] = &[
    0x000f_0001,
    0x000f_0002,
    0x0001_0001,
    0x007f_0002,
    0x03ff_0003,
    0x0000_0001,
    0x0400_0001,
    0x000f_0000,
    0x000f_0009,
    0,
    1,
    2,
    7,
];

/// Values of registers.
const VALUES: &[u32] = &[
    0,
    1,
    ENABLED,
    0x001f_001f,
    0x0001_0001,
    0x1_0000,
    0x1_1000,
    0x2_0000,
    DISABLED,
    0xffff_ffff,
];

/// What they name. One in four lists names a list, or the page in which it lies.
pub const WILD: Wild = Wild {
    addresses: ADDRESSES,
    low: LOW,
    opcodes: OPCODES,
    blocks: BLOCKS,
    admin_opcodes: ADMIN_OPCODES,
    queues: QUEUES,
    values: VALUES,
    kinds: 4,
};
