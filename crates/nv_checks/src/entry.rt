//! Entries written out by hand from the layouts, read and written.

use byteorder::{BigEndian, ByteOrder};
use nv_entry::{
    AdminOpcode, Cqe, DataPointer, Descriptor, DescriptorType, IoOpcode, Range, Sqe, Status,
    StatusCode,
};
use std::fmt::Debug;
use std::process::Abort;

// Ends the test where what was found in a case is not what is wanted there.
fn expect<T: PartialEq + Debug>(rt: &impl Abort, case: &impl Debug, found: &T, want: &T) {
    assert_eq!(rt; found, want, "{case:?}");
}

/// A submission queue entry, and what is read of it.
struct Submission {
    name: &'static str,
    /// Its bytes, in fields of 8, 16, 16, 16 and 8, each as its digits in the order of memory.
    digits: (u64, u128, u128, u128, u64),
    commands: (Option<IoOpcode>, Option<AdminOpcode>),
    data_pointer: DataPointer,
    /// The first descriptor's kind, address and length.
    sgl: (Option<DescriptorType>, u64, u32),
    /// OPC, FUSE, PSDT, CID, NSID, MPTR, PRP1 and PRP2.
    head: [u64; 8],
    /// CDW10 to CDW15.
    dwords: [u32; 6],
    /// SLBA, NLB, FUA, NR and AD.
    range: (u64, u16, bool, u8, bool),
}

const SUBMISSIONS: [Submission; 4] = [
    Submission {
        name: "a Read",
        digits: (
            0x0240070001000000,
            0,
            0x00300000000000000002000000000000,
            0x05000000000000000000000000000000,
            0,
        ),
        commands: (Some(IoOpcode::Read), Some(AdminOpcode::GetLogPage)),
        data_pointer: DataPointer::Sgl,
        sgl: (Some(DescriptorType::DataBlock), 0x3000, 512),
        head: [2, 0, 1, 7, 1, 0, 0x3000, 0x200],
        dwords: [5, 0, 0, 0, 0, 0],
        range: (5, 0, false, 5, false),
    },
    Submission {
        name: "a Create I/O Completion Queue",
        digits: (
            0x0500010000000000,
            0,
            0x00200100000000000000000000000000,
            0x01000f00010000000000000000000000,
            0,
        ),
        commands: (
            Some(IoOpcode::Compare),
            Some(AdminOpcode::CreateIoCompletionQueue),
        ),
        data_pointer: DataPointer::Prp,
        sgl: (Some(DescriptorType::DataBlock), 0x12000, 0),
        head: [5, 0, 0, 1, 0, 0, 0x12000, 0],
        dwords: [0x000f0001, 1, 0, 0, 0, 0],
        range: (0x1_000f0001, 0, false, 1, false),
    },
    Submission {
        name: "a Create I/O Submission Queue",
        digits: (
            0x0100020000000000,
            0,
            0x00300100000000000000000000000000,
            0x01000f00010001000000000000000000,
            0,
        ),
        commands: (
            Some(IoOpcode::Write),
            Some(AdminOpcode::CreateIoSubmissionQueue),
        ),
        data_pointer: DataPointer::Prp,
        sgl: (Some(DescriptorType::DataBlock), 0x13000, 0),
        head: [1, 0, 0, 2, 0, 0, 0x13000, 0],
        dwords: [0x000f0001, 0x00010001, 0, 0, 0, 0],
        range: (0x00010001_000f0001, 0, false, 1, false),
    },
    Submission {
        name: "every field another value",
        digits: (
            0xa1bfefbe04030201,
            0xffffffffffffffff_8070605040302010,
            0x00112233445566778899aabbccddeeff,
            0x10325476_9cbadcfe_01000040_00000080,
            0xffffffff_0f1e2d3c,
        ),
        commands: (None, None),
        data_pointer: DataPointer::Sgl,
        sgl: (None, 0x7766554433221100, 0xbbaa9988),
        head: [
            0xa1,
            3,
            2,
            0xbeef,
            0x01020304,
            0x1020304050607080,
            0x7766554433221100,
            0xffeeddccbbaa9988,
        ],
        dwords: [
            0x76543210, 0xfedcba9c, 0x40000001, 0x80000000, 0xffffffff, 0x3c2d1e0f,
        ],
        range: (0xfedcba9c76543210, 1, true, 0x10, true),
    },
];

// The upper half of a number, and the lower one.
fn upper(number: u128) -> u64 {
    (number >> 64) as u64
}

fn lower(number: u128) -> u64 {
    (number & 0xffff_ffff_ffff_ffff) as u64
}

// The bytes with these digits.
fn bytes_of(digits: (u64, u128, u128, u128, u64)) -> [u8; 64] {
    let (head, metadata, pointer, dwords, rest) = digits;
    let words = [
        head,
        upper(metadata),
        lower(metadata),
        upper(pointer),
        lower(pointer),
        upper(dwords),
        lower(dwords),
        rest,
    ];
    let mut bytes = [0; 64];
    BigEndian::write_u64_into(&words, &mut bytes);
    bytes
}

fn head_of(entry: &Sqe) -> [u64; 8] {
    [
        entry.opcode().into(),
        entry.fuse().into(),
        entry.psdt().into(),
        entry.cid().into(),
        entry.nsid().into(),
        entry.mptr(),
        entry.prp1(),
        entry.prp2(),
    ]
}

fn dwords_of(entry: &Sqe) -> [u32; 6] {
    [
        entry.cdw10(),
        entry.cdw11(),
        entry.cdw12(),
        entry.cdw13(),
        entry.cdw14(),
        entry.cdw15(),
    ]
}

fn range_of(entry: &Sqe) -> (u64, u16, bool, u8, bool) {
    let (slba, nlb, fua) = (entry.slba(), entry.nlb(), entry.fua());
    (slba, nlb, fua, entry.nr(), entry.deallocate())
}

fn sgl_of(entry: &Sqe) -> (Option<DescriptorType>, u64, u32) {
    let sgl = entry.sgl();
    (sgl.kind(), sgl.address(), sgl.length())
}

fn expect_submissions(rt: &impl Abort, rows: &[Submission]) {
    for row in rows {
        let bytes = bytes_of(row.digits);
        let entry = Sqe::of(&bytes);
        expect(rt, &row.name, &entry.bytes(), &bytes);
        let commands = (entry.io_opcode(), entry.admin_opcode());
        expect(rt, &row.name, &commands, &row.commands);
        expect(rt, &row.name, &entry.data_pointer(), &row.data_pointer);
        expect(rt, &row.name, &sgl_of(&entry), &row.sgl);
        expect(rt, &row.name, &head_of(&entry), &row.head);
        expect(rt, &row.name, &dwords_of(&entry), &row.dwords);
        expect(rt, &row.name, &range_of(&entry), &row.range);
    }
}

#[test]
fn reads_submissions(rt: HostRuntime) {
    expect_submissions(&rt, &SUBMISSIONS);
}

#[test]
fn knows_the_reserved_data_pointer(rt: HostRuntime) {
    expect(&rt, &"PSDT 3", &DataPointer::of(3), &DataPointer::Reserved);
}

/// The last dword of a completion with success, phase 1 and CID 7.
const SUCCESS: u32 = 0x00010007;

/// Codes, whether DNR goes with them, and the last dword of a completion of CID 7 that ends so, with phase 1.
const ENDED: [(StatusCode, bool, u32); 14] = [
    (StatusCode::Success, false, SUCCESS),
    (StatusCode::CompareFailure, false, 0x050b0007),
    (StatusCode::InternalError, false, 0x000d0007),
    (StatusCode::UnrecoveredReadError, false, 0x05030007),
    (StatusCode::InvalidOpcode, true, 0x80030007),
    (StatusCode::InvalidField, true, 0x80050007),
    (StatusCode::DataTransferError, true, 0x80090007),
    (StatusCode::InvalidNamespace, true, 0x80170007),
    (StatusCode::InvalidSglSegment, true, 0x801b0007),
    (StatusCode::InvalidSglCount, true, 0x801d0007),
    (StatusCode::SglLengthInvalid, true, 0x801f0007),
    (StatusCode::SglTypeInvalid, true, 0x80230007),
    (StatusCode::PrpOffsetInvalid, true, 0x80270007),
    (StatusCode::LbaOutOfRange, true, 0x81010007),
];

fn expect_completions(rt: &impl Abort, rows: &[(StatusCode, bool, u32)]) {
    for (code, refused, dword) in rows {
        let status = if *refused {
            code.refused()
        } else {
            code.status()
        };
        let bytes = ((u128::from(*dword) << 96) | 0x00010001_00000000_00000000).to_le_bytes();
        let ended = Cqe::new(0, 1, 1, 7, true, status);
        expect(rt, code, &ended.bytes(), &bytes);
        expect(rt, code, &Cqe::of(&bytes), &ended);
        expect(rt, code, &ended.status(), &status);
        expect(rt, code, &status.is_success(), &(*dword == SUCCESS));
        let final_status = Status::new(status.sct(), status.sc(), true);
        expect(rt, code, &status.do_not_retry(), &final_status);
    }
}

#[test]
fn writes_completions(rt: HostRuntime) {
    expect_completions(&rt, &ENDED);
}

// DW0, DW1, SQHD, SQID, CID, SC, SCT and CRD.
fn numbers_of(ended: &Cqe) -> [u32; 8] {
    [
        ended.dw0(),
        ended.dw1(),
        u32::from(ended.sqhd()),
        u32::from(ended.sqid()),
        u32::from(ended.cid()),
        u32::from(ended.sc()),
        u32::from(ended.sct()),
        u32::from(ended.crd()),
    ]
}

#[test]
fn reads_each_field_of_a_completion(rt: HostRuntime) {
    let ended = Cqe::of(&0xefcdab89_67452301_34127856_bc9a0bf5_u128.to_be_bytes());
    let numbers = [0x89abcdef, 0x01234567, 0x1234, 0x5678, 0x9abc, 0x85, 2, 3];
    expect(&rt, &"numbers", &numbers_of(&ended), &numbers);
    let flags = (ended.phase(), ended.more(), ended.dnr());
    expect(&rt, &"P, M and DNR", &flags, &(true, true, true));
}

/// The last byte of a descriptor, and what the descriptor then is.
const KINDS: [(u8, Option<DescriptorType>); 8] = [
    (0x00, Some(DescriptorType::DataBlock)),
    (0x10, Some(DescriptorType::BitBucket)),
    (0x20, Some(DescriptorType::Segment)),
    (0x30, Some(DescriptorType::LastSegment)),
    (0x40, None),
    (0xf0, None),
    (0x01, None),
    (0x3f, None),
];

fn expect_descriptors(rt: &impl Abort, rows: &[(u8, Option<DescriptorType>)]) {
    for (last, kind) in rows {
        let digits = 0x0102030405060708_090a0b0c_ffffff00 | u128::from(*last);
        let bytes = digits.to_be_bytes();
        let descriptor = Descriptor::of(&bytes);
        expect(rt, last, &descriptor.kind(), kind);
        expect(rt, last, &descriptor.address(), &0x0807060504030201);
        expect(rt, last, &descriptor.length(), &0x0c0b0a09);
        expect(rt, last, &descriptor.type_code(), &(*last >> 4));
        expect(rt, last, &descriptor.subtype_code(), &(*last & 15));
        expect(rt, last, &descriptor.bytes(), &bytes);
    }
}

#[test]
fn tells_descriptors_apart(rt: HostRuntime) {
    expect_descriptors(&rt, &KINDS);
}

#[test]
fn reads_a_range(rt: HostRuntime) {
    let bytes = 0x01020304_05060708_1122334455667788_u128.to_be_bytes();
    let range = Range::of(&bytes);
    expect(&rt, &"attributes", &range.attributes(), &0x04030201);
    expect(&rt, &"blocks", &range.blocks(), &0x08070605);
    expect(&rt, &"start", &range.start(), &0x8877665544332211);
    expect(&rt, &"bytes", &range.bytes(), &bytes);
}

/// Codes that no completion above ends with, their SCT and their SC.
const CODES: [(StatusCode, u8, u8); 8] = [
    (StatusCode::CommandSequenceError, 0, 0x0c),
    (StatusCode::CompletionQueueInvalid, 1, 0x00),
    (StatusCode::InvalidQueueIdentifier, 1, 0x01),
    (StatusCode::InvalidQueueSize, 1, 0x02),
    (StatusCode::EventLimitExceeded, 1, 0x05),
    (StatusCode::InvalidLogPage, 1, 0x09),
    (StatusCode::InvalidQueueDeletion, 1, 0x0c),
    (StatusCode::UnrecoveredReadError, 2, 0x81),
];

fn expect_codes(rt: &impl Abort, rows: &[(StatusCode, u8, u8)]) {
    for (code, sct, sc) in rows {
        assert!(rt; *sct < 8);
        expect(rt, code, &code.sct(), sct);
        expect(rt, code, &code.sc(), sc);
        expect(rt, code, &code.refused(), &Status::new(*sct, *sc, true));
        expect(rt, code, &code.status().dnr(), &false);
    }
}

#[test]
fn names_status_codes(rt: HostRuntime) {
    expect_codes(&rt, &CODES);
}

/// An opcode, and the I/O and the admin command that it names.
type Named = (u8, Option<IoOpcode>, Option<AdminOpcode>);

const OPCODES: [Named; 12] = [
    (
        0x00,
        Some(IoOpcode::Flush),
        Some(AdminOpcode::DeleteIoSubmissionQueue),
    ),
    (
        0x01,
        Some(IoOpcode::Write),
        Some(AdminOpcode::CreateIoSubmissionQueue),
    ),
    (0x02, Some(IoOpcode::Read), Some(AdminOpcode::GetLogPage)),
    (0x03, None, None),
    (0x04, None, Some(AdminOpcode::DeleteIoCompletionQueue)),
    (
        0x05,
        Some(IoOpcode::Compare),
        Some(AdminOpcode::CreateIoCompletionQueue),
    ),
    (0x06, None, Some(AdminOpcode::Identify)),
    (0x08, Some(IoOpcode::WriteZeroes), Some(AdminOpcode::Abort)),
    (
        0x09,
        Some(IoOpcode::DatasetManagement),
        Some(AdminOpcode::SetFeatures),
    ),
    (0x0a, None, Some(AdminOpcode::GetFeatures)),
    (0x0b, None, None),
    (0x0c, None, Some(AdminOpcode::AsynchronousEventRequest)),
];

fn expect_opcodes(rt: &impl Abort, rows: &[Named]) {
    for (code, io, admin) in rows {
        expect(rt, code, &IoOpcode::of(*code), io);
        expect(rt, code, &AdminOpcode::of(*code), admin);
        if let Some(io) = io {
            expect(rt, code, &io.code(), code);
        }
        if let Some(admin) = admin {
            expect(rt, code, &admin.code(), code);
        }
    }
}

#[test]
fn names_opcodes(rt: HostRuntime) {
    expect_opcodes(&rt, &OPCODES);
}
