//! Commands of all six kinds, and what is in the guest's memory for them.

use nv_bringup::bytes_of;
use nv_entry::{Sqe, StatusCode};

/// A command beside its identifier, and the code that it ends with.
pub struct Row {
    pub name: &'static str,
    /// Dword 0 without the identifier, and the namespace.
    pub head: [u32; 2],
    /// The data pointer.
    pub data: [u32; 4],
    /// CDW10 to CDW12.
    pub dwords: [u32; 3],
    /// The code that it ends with.
    pub want: StatusCode,
}

/// Dword 0 of each kind: lists are SGLs, except where PRP is named.
const FLUSH: u32 = 0x00;

const WRITE: u32 = 0x4001;

const WRITE_PRP: u32 = 0x01;

const READ: u32 = 0x4002;

const READ_PRP: u32 = 0x02;

const COMPARE: u32 = 0x4005;

const ZEROES: u32 = 0x08;

const MANAGE: u32 = 0x4009;

/// FUA, in CDW12, and AD, in CDW11.
const FUA: u32 = 1 << 30;

const AD: u32 = 4;

/// The last dword of a Segment and of a Last Segment.
const SEGMENT: u32 = 0x2000_0000;

const LAST: u32 = 0x3000_0000;

const NONE: [u32; 4] = [0, 0, 0, 0];

macro_rules! row {
    ($name:expr, $opcode:expr, $data:expr, $dwords:expr, $want:ident) => {
        Row {
            name: $name,
            head: [$opcode, 1],
            data: $data,
            dwords: $dwords,
            want: StatusCode::$want,
        }
    };
}

/// Forty commands: the first half move data and change marks, the second half are mostly refused, with some in
/// between that go on.
pub const ROWS: &[Row] = &[
    row!("a Flush of nothing", FLUSH, NONE, [0, 0, 0], Success),
    row!("a Write", WRITE, [0xa000, 0, 512, 0], [0, 0, 0], Success),
    row!(
        "a Write from a list",
        WRITE,
        [0x6000, 0, 32, LAST],
        [1, 0, 1],
        Success
    ),
    row!(
        "a Write that is bounced",
        WRITE,
        [0xa002, 0, 512, 0],
        [3, 0, 0],
        Success
    ),
    row!(
        "a Write with FUA",
        WRITE,
        [0xa600, 0, 512, 0],
        [4, 0, FUA],
        Success
    ),
    row!(
        "a Write of two pages",
        WRITE_PRP,
        [0xa000, 0, 0xb000, 0],
        [8, 0, 15],
        Success
    ),
    row!(
        "a Write from three pages",
        WRITE_PRP,
        [0xa000, 0, 0x7000, 0],
        [24, 0, 23],
        Success
    ),
    row!("a Read", READ, [0x3000, 0, 512, 0], [0, 0, 0], Success),
    row!(
        "a Read past a Bit Bucket",
        READ,
        [0x6200, 0, 32, LAST],
        [1, 0, 1],
        Success
    ),
    row!(
        "a Read by two arrays",
        READ,
        [0x6300, 0, 32, SEGMENT],
        [8, 0, 1],
        Success
    ),
    row!(
        "a Read of two pages",
        READ_PRP,
        [0x1_4000, 0, 0x1_5000, 0],
        [8, 0, 15],
        Success
    ),
    row!(
        "a Read with FUA",
        READ,
        [0x5000, 0, 512, 0],
        [9, 0, FUA],
        Success
    ),
    row!(
        "a Read that is bounced",
        READ,
        [0x3402, 0, 512, 0],
        [3, 0, 0],
        Success
    ),
    row!(
        "a Compare that is equal",
        COMPARE,
        [0xa000, 0, 512, 0],
        [0, 0, 0],
        Success
    ),
    row!(
        "a Compare that differs",
        COMPARE,
        [0xa200, 0, 512, 0],
        [0, 0, 0],
        CompareFailure
    ),
    row!(
        "a Compare of a list",
        COMPARE,
        [0x6000, 0, 32, LAST],
        [1, 0, 1],
        Success
    ),
    row!(
        "a Compare with FUA",
        COMPARE,
        [0x6000, 0, 32, LAST],
        [2, 0, FUA | 1],
        CompareFailure
    ),
    row!("a Write Zeroes", ZEROES, NONE, [2, 0, 0], Success),
    row!(
        "a Write Zeroes with FUA",
        ZEROES,
        NONE,
        [12, 0, FUA | 3],
        Success
    ),
    row!(
        "ranges deallocated",
        MANAGE,
        [0x8000, 0, 32, 0],
        [1, AD, 0],
        Success
    ),
    row!(
        "ranges told, and one of no block",
        MANAGE,
        [0x8000, 0, 48, 0],
        [2, 0, 0],
        Success
    ),
    row!(
        "a range behind the last block",
        MANAGE,
        [0x8100, 0, 16, 0],
        [0, AD, 0],
        LbaOutOfRange
    ),
    row!("a Flush of all", FLUSH, NONE, [0, 0, 0], Success),
    row!(
        "a Write behind the Flush",
        WRITE,
        [0xc000, 0, 1024, 0],
        [62, 0, 1],
        Success
    ),
    row!(
        "a Read of the last block",
        READ,
        [0x3800, 0, 512, 0],
        [63, 0, 0],
        Success
    ),
    row!(
        "a Read past the last block",
        READ,
        [0x3800, 0, 1024, 0],
        [63, 0, 1],
        LbaOutOfRange
    ),
    row!(
        "a Compare that is bounced",
        COMPARE,
        [0xa002, 0, 512, 0],
        [0, 0, 0],
        CompareFailure
    ),
    row!(
        "an opcode that is none",
        0x4004,
        [0x3000, 0, 512, 0],
        [0, 0, 0],
        InvalidOpcode
    ),
    row!(
        "a fused Read",
        0x4102,
        [0x3000, 0, 512, 0],
        [0, 0, 0],
        InvalidField
    ),
    Row {
        name: "another namespace",
        head: [READ, 2],
        data: [0x3000, 0, 512, 0],
        dwords: [0, 0, 0],
        want: StatusCode::InvalidNamespace,
    },
    row!(
        "a Read of 257 blocks",
        READ,
        [0x3000, 0, 512, 0],
        [0, 0, 256],
        InvalidField
    ),
    row!(
        "a Write of too few bytes",
        WRITE,
        [0x6200, 0, 32, LAST],
        [1, 0, 1],
        SglLengthInvalid
    ),
    row!(
        "a Segment of 24 bytes",
        READ,
        [0x6000, 0, 24, SEGMENT],
        [1, 0, 1],
        InvalidSglSegment
    ),
    row!(
        "a page with an odd offset",
        READ_PRP,
        [0x3002, 0, 0, 0],
        [0, 0, 0],
        PrpOffsetInvalid
    ),
    row!(
        "bytes that are not mapped",
        READ,
        [0x2_0000, 0, 512, 0],
        [0, 0, 0],
        DataTransferError
    ),
    row!(
        "a descriptor of no type",
        READ,
        [0x3000, 0, 512, 0x4000_0000],
        [0, 0, 0],
        SglTypeInvalid
    ),
    row!(
        "a Read into three pages",
        READ_PRP,
        [0x1_6000, 0, 0x7100, 0],
        [24, 0, 23],
        Success
    ),
    row!(
        "a Write Zeroes past the end",
        ZEROES,
        NONE,
        [60, 0, 4],
        LbaOutOfRange
    ),
    row!(
        "a Write Zeroes of the end",
        ZEROES,
        NONE,
        [60, 0, 3],
        Success
    ),
    row!(
        "a Read of what is left",
        READ,
        [0x1_9000, 0, 4096, 0],
        [0, 0, 7],
        Success
    ),
];

/// Bytes that are in the guest's memory from the start, in rows of 16: two descriptors, slots of region pages, or ranges.
pub const TABLES: &[(u64, u64, u64)] = &[
    // a Last Segment: two Data Blocks
    (0x6000, 0xa200, 512),
    (0x6010, 0xb000, 512),
    // a Data Block and a Bit Bucket
    (0x6200, 0x4000, 512),
    (0x6210, 0, 0x1000_0000_0000_0000 | 512),
    // a Data Block and a Segment, which has two more
    (0x6300, 0x4400, 256),
    (0x6310, 0x6400, 0x2000_0000_0000_0000 | 32),
    (0x6400, 0x4600, 512),
    (0x6410, 0x4900, 256),
    // pages of a Write and of a Read
    (0x7000, 0xc000, 0xe000),
    (0x7100, 0x1_8000, 0x1_7000),
    // two ranges, one of no block, and one past the last block
    (0x8000, 2 << 32, 24),
    (0x8010, 1 << 32, 30),
    (0x8020, 0, 40),
    (0x8100, 1 << 32, 64),
];

/// A command with an identifier.
pub fn entry(row: &Row, identifier: u16) -> Sqe {
    let [opcode, namespace] = row.head;
    let [first, second, third, fourth] = row.data;
    let [cdw10, cdw11, cdw12] = row.dwords;
    let head = opcode | u32::from(identifier) << 16;
    Sqe::of(&bytes_of(&[
        head, namespace, 0, 0, 0, 0, first, second, third, fourth, cdw10, cdw11, cdw12, 0, 0, 0,
    ]))
}
