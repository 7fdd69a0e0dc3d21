//! Which commands are answered at once.
use crate::memory::{BUCKET, DATA, SEGMENT};
use crate::plan::guest::{Case, Expected, check_all};
use nv_entry::StatusCode;

macro_rules! refused {
    ($name:expr, $changes:expr, $code:ident) => {
        Case {
            name: $name,
            changes: $changes,
            rows: &[],
            reads: &[],
            expected: Expected::Refused(StatusCode::$code),
        }
    };
}

const FIELDS: &[Case] = &[
    refused!("a reserved data pointer", &[(0, 0x0007_c002)], InvalidField),
    refused!("257 blocks", &[(12, 256)], InvalidField),
    refused!("another namespace", &[(1, 2)], InvalidNamespace),
    refused!("an unknown opcode", &[(0, 0x0007_4004)], InvalidOpcode),
    refused!("a fused command", &[(0, 0x0007_4104)], InvalidField),
    refused!(
        "a block behind the last",
        &[(10, 63), (12, 1)],
        LbaOutOfRange
    ),
    refused!(
        "a Data Block that is not mapped",
        &[(6, 0x2_0000)],
        DataTransferError
    ),
    refused!(
        "PRP1 at no multiple of 4",
        &[(0, 0x0007_0002), (6, 0x3002), (8, 0)],
        PrpOffsetInvalid
    ),
    refused!(
        "a Segment of length 24",
        &[(6, 0x6000), (8, 24), (9, 0x2000_0000)],
        InvalidSglSegment
    ),
    refused!("an unknown type", &[(9, 0x4000_0000)], SglTypeInvalid),
    refused!(
        "one Data Block for two blocks",
        &[(12, 1)],
        SglLengthInvalid
    ),
];

#[test]
fn refused_by_fields(rt: HostRuntime) {
    check_all(&rt, rt.alloc(), FIELDS);
}

/// A Read or Write of two blocks by a list of 32 bytes at 6000h.
const LISTS: &[Case] = &[
    Case {
        name: "a Bit Bucket of a Write",
        changes: &[
            (0, 0x0007_4001),
            (6, 0x6000),
            (8, 32),
            (9, 0x3000_0000),
            (12, 1),
        ],
        rows: &[(0x6000, DATA, 0x3000, 512), (0x6010, BUCKET, 0, 512)],
        reads: &[(0x6000, 32)],
        expected: Expected::Refused(StatusCode::SglLengthInvalid),
    },
    Case {
        name: "a Segment that is not last",
        changes: &[(6, 0x6000), (8, 32), (9, 0x2000_0000)],
        rows: &[(0x6000, SEGMENT, 0x7000, 16)],
        reads: &[(0x6000, 32)],
        expected: Expected::Refused(StatusCode::InvalidSglCount),
    },
    Case {
        name: "a Segment in a last one",
        changes: &[(6, 0x6000), (8, 32), (9, 0x3000_0000)],
        rows: &[(0x6000, SEGMENT, 0x7000, 16)],
        reads: &[(0x6000, 32)],
        expected: Expected::Refused(StatusCode::InvalidSglSegment),
    },
    Case {
        name: "the first fault",
        changes: &[(6, 0x6000), (8, 32), (9, 0x3000_0000), (12, 1)],
        rows: &[(0x6000, DATA, 0x2_0000, 512), (0x6010, 0x40, 0, 0)],
        reads: &[(0x6000, 32)],
        expected: Expected::Refused(StatusCode::DataTransferError),
    },
];

#[test]
fn refused_by_their_lists(rt: HostRuntime) {
    check_all(&rt, rt.alloc(), LISTS);
}
