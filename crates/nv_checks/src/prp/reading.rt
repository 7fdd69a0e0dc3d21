//! Transfers that are read, by a driver that feeds what is wanted.
use super::map;
use crate::memory::{part, run, store};
use nv_entry::StatusCode;
use nv_mem::{GuestMap, Piece};
use nv_model::Want;
use nv_prp::PrpParse;
use std::alloc::Global;
use std::process::Abort;

/// A transfer: the numbers in the guest's memory, its PRP1 and PRP2 and its length. What it wants in turn, the code with which it
/// is refused, and the pieces that it names where it isn't.
struct Case {
    name: &'static str,
    slots: &'static [(usize, u64)],
    prp1: u64,
    prp2: u64,
    need: u64,
    wants: &'static [(u64, u32)],
    refusal: Option<StatusCode>,
    pieces: &'static [Piece],
}

const OFFSET: Option<StatusCode> = Some(StatusCode::PrpOffsetInvalid);

const UNMAPPED: Option<StatusCode> = Some(StatusCode::DataTransferError);

const THREE_PAGES: &[Piece] = &[run!(0x3000, 4096), run!(0x8000, 4096), run!(0x9000, 4096)];

const DONE: &[Case] = &[
    Case {
        name: "one page",
        slots: &[],
        prp1: 0x3e00,
        prp2: u64::MAX,
        need: 512,
        wants: &[],
        refusal: None,
        pieces: &[run!(0x3e00, 512)],
    },
    Case {
        name: "two pages",
        slots: &[],
        prp1: 0x3e00,
        prp2: 0x5000,
        need: 1024,
        wants: &[],
        refusal: None,
        pieces: &[run!(0x3e00, 512), run!(0x5000, 512)],
    },
    Case {
        name: "a list at the end of a page that goes on in the next list page, by the pointer in the last slot",
        slots: &[(0x6ff8, 0x7000), (0x7000, 0x8000), (0x7008, 0x9000)],
        prp1: 0x3000,
        prp2: 0x6ff8,
        need: 12288,
        wants: &[(0x6ff8, 8), (0x7000, 16)],
        refusal: None,
        pieces: THREE_PAGES,
    },
    Case {
        name: "a list at the end of a page whose last slot is an entry",
        slots: &[(0x6ff0, 0x8000), (0x6ff8, 0x9000)],
        prp1: 0x3000,
        prp2: 0x6ff0,
        need: 12288,
        wants: &[(0x6ff0, 16)],
        refusal: None,
        pieces: THREE_PAGES,
    },
];

/// Transfers that are refused before a list is read.
const REFUSED: &[Case] = &[
    Case {
        name: "PRP1 at an offset of 2",
        slots: &[],
        prp1: 0x3002,
        prp2: 0,
        need: 512,
        wants: &[],
        refusal: OFFSET,
        pieces: &[],
    },
    Case {
        name: "PRP1 at an offset of 2, which isn't mapped either",
        slots: &[],
        prp1: 0x4_0002,
        prp2: 0,
        need: 512,
        wants: &[],
        refusal: OFFSET,
        pieces: &[],
    },
    Case {
        name: "PRP1 that isn't mapped",
        slots: &[],
        prp1: 0x4_0000,
        prp2: 0,
        need: 512,
        wants: &[],
        refusal: UNMAPPED,
        pieces: &[],
    },
    Case {
        name: "a second page with an offset",
        slots: &[],
        prp1: 0x3000,
        prp2: 0x5004,
        need: 8192,
        wants: &[],
        refusal: OFFSET,
        pieces: &[],
    },
    Case {
        name: "a second page that isn't mapped",
        slots: &[],
        prp1: 0x3000,
        prp2: 0x4_0000,
        need: 8192,
        wants: &[],
        refusal: UNMAPPED,
        pieces: &[],
    },
    Case {
        name: "PRP1 that isn't mapped before a second page with an offset",
        slots: &[],
        prp1: 0x4_0000,
        prp2: 0x5004,
        need: 8192,
        wants: &[],
        refusal: UNMAPPED,
        pieces: &[],
    },
    Case {
        name: "a list at an offset of 4",
        slots: &[],
        prp1: 0x3000,
        prp2: 0x6ffc,
        need: 12288,
        wants: &[],
        refusal: OFFSET,
        pieces: &[],
    },
    Case {
        name: "a list that isn't mapped",
        slots: &[],
        prp1: 0x3000,
        prp2: 0x4_0000,
        need: 12288,
        wants: &[],
        refusal: UNMAPPED,
        pieces: &[],
    },
];

/// Transfers that are refused in a list.
const REFUSED_LISTS: &[Case] = &[
    Case {
        name: "a later list pointer with an offset, be it at a multiple of 8",
        slots: &[(0x6ff8, 0x7008), (0x7008, 0x8000)],
        prp1: 0x3000,
        prp2: 0x6ff8,
        need: 12288,
        wants: &[(0x6ff8, 8)],
        refusal: OFFSET,
        pieces: &[],
    },
    Case {
        name: "a later list pointer that isn't mapped",
        slots: &[(0x6ff8, 0x4_0000), (0x7000, 0x8000)],
        prp1: 0x3000,
        prp2: 0x6ff8,
        need: 12288,
        wants: &[(0x6ff8, 8)],
        refusal: UNMAPPED,
        pieces: &[],
    },
    Case {
        name: "an entry that isn't mapped before one with an offset",
        slots: &[(0x6000, 0x4_0000), (0x6008, 0x8004)],
        prp1: 0x3000,
        prp2: 0x6000,
        need: 12288,
        wants: &[(0x6000, 16)],
        refusal: UNMAPPED,
        pieces: &[],
    },
    Case {
        name: "an entry with an offset before one that isn't mapped",
        slots: &[(0x6000, 0x8004), (0x6008, 0x4_0000)],
        prp1: 0x3000,
        prp2: 0x6000,
        need: 12288,
        wants: &[(0x6000, 16)],
        refusal: OFFSET,
        pieces: &[],
    },
    Case {
        name: "a second entry with an offset",
        slots: &[(0x6000, 0x8000), (0x6008, 0x9004)],
        prp1: 0x3000,
        prp2: 0x6000,
        need: 12288,
        wants: &[(0x6000, 16)],
        refusal: OFFSET,
        pieces: &[],
    },
];

// A memory of zeros with these numbers in it, each in 8 bytes.
fn holding(rt: &impl Abort, alloc: Global, slots: &[(usize, u64)]) -> Vec<u8> {
    let mut memory = vec![in alloc; 0u8; 0x40000].expect(rt, "memory");
    for (at, number) in slots {
        store(&mut memory, *at, &number.to_le_bytes());
    }
    memory
}

// Feeds the parse the next part that it wants, and says which that was; or nothing where it has ended.
fn step(parse: &mut PrpParse<'_>, memory: &[u8]) -> Option<(u64, u32)> {
    match parse.wants() {
        Want::Read { addr, len } => match part(memory, addr, u64::from(len)) {
            Some(bytes) => {
                parse.feed(bytes);
                Some((addr, len))
            }
            None => None,
        },
        _ => None,
    }
}

// Feeds the parse these parts, and says whether it wanted each of them.
fn takes(parse: &mut PrpParse<'_>, memory: &[u8], wants: &[(u64, u32)]) -> bool {
    for want in wants {
        if step(parse, memory) != Some(*want) {
            return false;
        }
    }
    true
}

// Whether a parse has ended with this refusal, or, where there is none, is done.
fn has_ended(parse: &PrpParse<'_>, refusal: Option<StatusCode>) -> bool {
    let end = match refusal {
        Some(code) => Want::Fault(code.refused()),
        None => Want::Done,
    };
    parse.wants() == end
}

// Whether a parse that is done names these pieces; where it isn't done, whether they are none.
fn has_pieces(rt: &impl Abort, alloc: Global, parse: &PrpParse<'_>, pieces: &[Piece]) -> bool {
    if let Want::Done = parse.wants() {
        parse.places(alloc).expect(rt, "memory").pieces() == pieces
    } else {
        pieces.is_empty()
    }
}

// Whether reading a transfer comes to what is expected.
fn is_as_expected(rt: &impl Abort, alloc: Global, map: &GuestMap, case: &Case) -> bool {
    if case.need == 0 || case.need > 131072 {
        return false;
    }
    let memory = holding(rt, alloc, case.slots);
    let mut parse = PrpParse::new(map, case.prp1, case.prp2, case.need);
    let is_read = takes(&mut parse, &memory, case.wants) && has_ended(&parse, case.refusal);
    is_read && has_pieces(rt, alloc, &parse, case.pieces)
}

fn check(rt: &impl Abort, alloc: Global, map: &GuestMap, cases: &[Case]) {
    for case in cases {
        assert!(rt; is_as_expected(rt, alloc, map, case), "{}", case.name);
    }
}

#[test]
fn transfers(rt: HostRuntime) {
    let map = map(&rt, rt.alloc());
    check(&rt, rt.alloc(), &map, DONE);
    check(&rt, rt.alloc(), &map, REFUSED);
    check(&rt, rt.alloc(), &map, REFUSED_LISTS);
}

// 33 pages from an offset of 4: 32 entries of a list, the last of which represents 4 bytes.
fn list_of_largest(rt: &impl Abort, alloc: Global) -> Vec<u8> {
    let mut memory = holding(rt, alloc, &[]);
    for i in 0..32 {
        let entry = 0x8000 + 0x1000 * i as u64;
        store(&mut memory, 0x2000 + 8 * i, &entry.to_le_bytes());
    }
    memory
}

fn are_of_largest(pieces: &[Piece]) -> bool {
    pieces.len() == 33
        && pieces.first().copied() == Some(run!(0x3004, 4092))
        && pieces.get(31).copied() == Some(run!(0x2_6000, 4096))
        && pieces.get(32).copied() == Some(run!(0x2_7000, 4))
}

fn is_largest_read(rt: &impl Abort, alloc: Global, map: &GuestMap) -> bool {
    let memory = list_of_largest(rt, alloc);
    let mut parse = PrpParse::new(map, 0x3004, 0x2000, 131072);
    if !takes(&mut parse, &memory, &[(0x2000, 256)]) {
        return false;
    }
    match parse.wants() {
        Want::Done => are_of_largest(parse.places(alloc).expect(rt, "memory").pieces()),
        _ => false,
    }
}

#[test]
fn the_largest_transfer(rt: HostRuntime) {
    let map = map(&rt, rt.alloc());
    assert!(rt; is_largest_read(&rt, rt.alloc(), &map));
}
