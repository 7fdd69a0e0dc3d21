//! Lists and what reading them comes to, in tables.
use super::*;

/// How a parse answers.
enum Answer {
    Done,
    Refused(StatusCode),
    TooLong,
    Reads(u64, u32),
}

impl Answer {
    fn want(&self) -> Want {
        match self {
            Answer::Done => Want::Done,
            Answer::Refused(code) => Want::Fault(code.refused()),
            Answer::TooLong => Want::TooLong,
            Answer::Reads(addr, len) => Want::Read {
                addr: *addr,
                len: *len,
            },
        }
    }
}

/// Own descriptors of a destination of 512 bytes, and what is answered before anything is fed.
const FIRST: &[(Row, Answer)] = &[
    ((DATA, 0x1_fe00, 512), Answer::Done),
    (
        (DATA, 0x1_fe01, 512),
        Answer::Refused(StatusCode::DataTransferError),
    ),
    (
        (DATA, 0x2_0000, 512),
        Answer::Refused(StatusCode::DataTransferError),
    ),
    (
        (DATA, 0x3000, 511),
        Answer::Refused(StatusCode::SglLengthInvalid),
    ),
    (
        (DATA, 0x3000, 1024),
        Answer::Refused(StatusCode::SglLengthInvalid),
    ),
    (
        (DATA, u64::MAX, 0),
        Answer::Refused(StatusCode::SglLengthInvalid),
    ),
    ((BUCKET, u64::MAX, 512), Answer::Done),
    (
        (0x40, 0x3000, 512),
        Answer::Refused(StatusCode::SglTypeInvalid),
    ),
    (
        (0x01, 0x3000, 512),
        Answer::Refused(StatusCode::SglTypeInvalid),
    ),
    (
        (SEGMENT, 0x6000, 24),
        Answer::Refused(StatusCode::InvalidSglSegment),
    ),
    (
        (SEGMENT, 0x6000, 0),
        Answer::Refused(StatusCode::InvalidSglSegment),
    ),
    (
        (LAST, 0x6004, 32),
        Answer::Refused(StatusCode::InvalidSglSegment),
    ),
    (
        (LAST, 0x1_fff0, 32),
        Answer::Refused(StatusCode::DataTransferError),
    ),
    (
        (LAST, 0x1_fff0, 24),
        Answer::Refused(StatusCode::InvalidSglSegment),
    ),
    ((LAST, 0x6000, 32), Answer::Reads(0x6000, 32)),
    ((SEGMENT, 0x6000, 8192), Answer::Reads(0x6000, 4096)),
];

fn first_answer(alloc: Global, map: &GuestMap, first: Row) -> Result<Want, NoMemory> {
    Ok(SglParse::new(alloc, map, descriptor(first), true, 512)?.wants())
}

fn check_first(
    rt: &impl Abort,
    alloc: Global,
    map: &GuestMap,
    rows: &[(Row, Answer)],
) -> Result<(), NoMemory> {
    for (first, answer) in rows {
        let (kind, addr, len) = *first;
        let is_expected = first_answer(alloc, map, *first)? == answer.want();
        assert!(rt; is_expected, "type {kind:x}h, {addr:x}h, {len}");
    }
    Ok(())
}

#[test]
fn first_answers(rt: HostRuntime) -> Result<(), Fail> {
    let map = map(&rt, rt.alloc());
    check_first(&rt, rt.alloc(), &map, FIRST)?;
    Ok(())
}

/// A list, how its reading ends, and the pieces that it names where it is done.
struct Case {
    name: &'static str,
    memory: &'static [(usize, Row)],
    first: Row,
    dest: bool,
    need: u64,
    end: Answer,
    pieces: &'static [Piece],
}

const BLOCK: Piece = Piece::Run {
    addr: 0x3000,
    len: 512,
};

/// The blocks and arrays of the lists that are refused.
const FAULTS: &[(usize, Row)] = &[
    // a Segment that isn't last in its array; and inside an array that a Last Segment named
    (0x6000, (SEGMENT, 0x7000, 32)),
    (0x6010, (DATA, 0x3000, 512)),
    // a block that isn't mapped before a type that isn't known
    (0x8000, (DATA, 0x2_0000, 512)),
    (0x8010, (0x40, 0, 0)),
    // and after it
    (0x9000, (0x40, 0, 0)),
    (0x9010, (DATA, 0x2_0000, 512)),
    // a Last Segment, last in the array that a Segment named
    (0xa010, (LAST, 0x8000, 16)),
];

const CASES: &[Case] = &[
    Case {
        name: "one descriptor",
        memory: &[],
        first: (DATA, 0x3000, 512),
        dest: true,
        need: 512,
        end: Answer::Done,
        pieces: &[BLOCK],
    },
    Case {
        name: "two blocks",
        memory: &[(0x6000, (DATA, 0x3e00, 512)), (0x6010, (DATA, 0x5000, 512))],
        first: (LAST, 0x6000, 32),
        dest: true,
        need: 1024,
        end: Answer::Done,
        pieces: &[
            Piece::Run {
                addr: 0x3e00,
                len: 512,
            },
            Piece::Run {
                addr: 0x5000,
                len: 512,
            },
        ],
    },
    Case {
        name: "two blocks, the second inside a page",
        memory: &[(0x6000, (DATA, 0x3e00, 512)), (0x6010, (DATA, 0x5200, 512))],
        first: (LAST, 0x6000, 32),
        dest: true,
        need: 1024,
        end: Answer::Done,
        pieces: &[
            Piece::Run {
                addr: 0x3e00,
                len: 512,
            },
            Piece::Run {
                addr: 0x5200,
                len: 512,
            },
        ],
    },
    Case {
        name: "a block that is discarded on a Read",
        memory: &[(0x6000, (DATA, 0x3000, 512)), (0x6010, (BUCKET, 0, 512))],
        first: (LAST, 0x6000, 32),
        dest: true,
        need: 1024,
        end: Answer::Done,
        pieces: &[BLOCK, Piece::Bucket { len: 512 }],
    },
    Case {
        name: "the same where the buffer is a source: it counts as nothing",
        memory: &[(0x6000, (DATA, 0x3000, 512)), (0x6010, (BUCKET, 0, 512))],
        first: (LAST, 0x6000, 32),
        dest: false,
        need: 1024,
        end: Answer::Refused(StatusCode::SglLengthInvalid),
        pieces: &[],
    },
    Case {
        name: "the same for a transfer of one block",
        memory: &[(0x6000, (DATA, 0x3000, 512)), (0x6010, (BUCKET, 0, 512))],
        first: (LAST, 0x6000, 32),
        dest: false,
        need: 512,
        end: Answer::Done,
        pieces: &[BLOCK],
    },
    Case {
        name: "a Segment that isn't last in its array",
        memory: FAULTS,
        first: (SEGMENT, 0x6000, 32),
        dest: true,
        need: 512,
        end: Answer::Refused(StatusCode::InvalidSglCount),
        pieces: &[],
    },
    Case {
        name: "a Segment in an array that a Last Segment named",
        memory: FAULTS,
        first: (LAST, 0x6000, 32),
        dest: true,
        need: 512,
        end: Answer::Refused(StatusCode::InvalidSglSegment),
        pieces: &[],
    },
    Case {
        name: "a block that isn't mapped before a type that isn't known",
        memory: FAULTS,
        first: (LAST, 0x8000, 32),
        dest: true,
        need: 512,
        end: Answer::Refused(StatusCode::DataTransferError),
        pieces: &[],
    },
    Case {
        name: "a block that isn't mapped behind a type that isn't known",
        memory: FAULTS,
        first: (SEGMENT, 0x9000, 32),
        dest: true,
        need: 512,
        end: Answer::Refused(StatusCode::SglTypeInvalid),
        pieces: &[],
    },
    Case {
        name: "a Last Segment in an array that a Last Segment named",
        memory: FAULTS,
        first: (LAST, 0xa000, 32),
        dest: true,
        need: 512,
        end: Answer::Refused(StatusCode::InvalidSglSegment),
        pieces: &[],
    },
    Case {
        name: "a Last Segment, last in the array that a Segment named",
        memory: FAULTS,
        first: (SEGMENT, 0xa000, 32),
        dest: true,
        need: 512,
        end: Answer::Refused(StatusCode::DataTransferError),
        pieces: &[],
    },
    // the own descriptor is number 1, so the array's members are numbers 2 and on
    Case {
        name: "as many descriptors as may be read",
        memory: &[(0x6000, (DATA, 0x3000, 512))],
        first: (LAST, 0x6000, 16 * 1023),
        dest: true,
        need: 512,
        end: Answer::Done,
        pieces: &[BLOCK],
    },
    Case {
        name: "one more",
        memory: &[(0x6000, (DATA, 0x3000, 512))],
        first: (LAST, 0x6000, 16 * 1024),
        dest: true,
        need: 512,
        end: Answer::TooLong,
        pieces: &[],
    },
    Case {
        name: "a fault at number 1,025, which doesn't count",
        memory: &[
            (0x6000, (DATA, 0x3000, 512)),
            (0x6000 + 16 * 1023, (0x40, 0, 0)),
        ],
        first: (LAST, 0x6000, 16 * 1024),
        dest: true,
        need: 512,
        end: Answer::TooLong,
        pieces: &[],
    },
    Case {
        name: "faults at numbers 1,024 and 1,025",
        memory: &[
            (0x6000, (DATA, 0x3000, 512)),
            (0x6000 + 16 * 1023, (0x40, 0, 0)),
            (0x6000 + 16 * 1022, (0x40, 0, 0)),
        ],
        first: (LAST, 0x6000, 16 * 1024),
        dest: true,
        need: 512,
        end: Answer::Refused(StatusCode::SglTypeInvalid),
        pieces: &[],
    },
    THREE,
];

const THREE: Case = Case {
    name: "three arrays",
    memory: THREE_ARRAYS,
    first: FIRST_OF_THREE,
    dest: true,
    need: 1024,
    end: Answer::Done,
    pieces: PIECES_OF_THREE,
};

// Whether reading a case's list comes to what is expected.
fn is_as_expected(alloc: Global, map: &GuestMap, case: &Case) -> Result<bool, NoMemory> {
    let memory = memory_of(alloc, case.memory)?;
    let mut parse = SglParse::new(alloc, map, descriptor(case.first), case.dest, case.need)?;
    let end = drive(&mut parse, &memory)?;
    Ok(end == case.end.want() && has_pieces(alloc, &parse, case.pieces)?)
}

// Whether a parse that keeps the places alone comes to the same.
fn places_are_as_expected(alloc: Global, map: &GuestMap, case: &Case) -> Result<bool, NoMemory> {
    let memory = memory_of(alloc, case.memory)?;
    let mut parse = PlacesParse::new(alloc, map, descriptor(case.first), case.dest, case.need)?;
    for _ in 0..2000 {
        match parse.wants() {
            Want::Read { addr, len } => match part(&memory, addr, u64::from(len)) {
                Some(bytes) => parse = parse.fed(bytes)?,
                None => return Ok(false),
            },
            Want::Done => return Ok(parse.into_places().pieces() == case.pieces),
            end => return Ok(end == case.end.want()),
        }
    }
    Ok(false)
}

// Whether a parse that is done names these pieces; where it isn't done, whether they are none.
fn has_pieces(
    alloc: Global,
    parse: &SglParse<'_, Global>,
    pieces: &[Piece],
) -> Result<bool, NoMemory> {
    if let Want::Done = parse.wants() {
        Ok(parse.places(alloc)?.pieces() == pieces)
    } else {
        Ok(pieces.is_empty())
    }
}

fn check(rt: &impl Abort, alloc: Global, map: &GuestMap, cases: &[Case]) -> Result<(), NoMemory> {
    for case in cases {
        assert!(rt; is_as_expected(alloc, map, case)?, "{}", case.name);
        assert!(rt; places_are_as_expected(alloc, map, case)?, "{}", case.name);
    }
    Ok(())
}

#[test]
fn lists(rt: HostRuntime) -> Result<(), Fail> {
    let map = map(&rt, rt.alloc());
    check(&rt, rt.alloc(), &map, CASES)?;
    Ok(())
}

// Run it with each allocation of the process refused in turn: it succeeds, or ends with an error because it is out of memory.
#[test]
fn a_list_from_its_descriptor_to_its_places(rt: HostRuntime) -> Result<(), Fail> {
    let map = map(&rt, rt.alloc());
    check(&rt, rt.alloc(), &map, &[THREE])?;
    Ok(())
}
