//! Lists of many parts, step by step.
use super::*;
use linked_list_allocator::LocalHeap;

// Feeds the parse this part as long as it wants it, and says how often that was.
fn feedings(parse: &mut SglParse<'_, Global>, memory: &[u8], part: Want) -> Result<u32, NoMemory> {
    for count in 0..2000 {
        if parse.wants() != part || step(parse, memory)?.is_some() {
            return Ok(count);
        }
    }
    Ok(0)
}

// Whether a Segment that names itself is read 512 times.
fn is_read_512_times(rt: &impl Abort, alloc: Global, guest: &Guest) -> bool {
    let first = descriptor((SEGMENT, 0x6000, 32));
    let mut parse = SglParse::new(alloc, &guest.map, first, true, 512).expect(rt, "memory");
    let part = Want::Read {
        addr: 0x6000,
        len: 32,
    };
    // the 512th reading stops after descriptor 1,024, the array's first
    feedings(&mut parse, &guest.memory, part).expect(rt, "memory") == 512
        && parse.wants() == Want::TooLong
        && parse.chain().blocks().len() == 1
}

#[test]
fn a_segment_that_names_itself(rt: HostRuntime) {
    let guest = guest_with(&rt, rt.alloc(), &[(0x6010, (SEGMENT, 0x6000, 32))]);
    assert!(rt; is_read_512_times(&rt, rt.alloc(), &guest));
}

/// An array of 1,023 descriptors, two of which name bytes.
const BLOCKS: &[(usize, Row)] = &[
    (0x8000 + 16 * 300, (DATA, 0x3000, 512)),
    (0x8000 + 16 * 1022, (DATA, 0x5000, 512)),
];

/// The parts of the array, and how many descriptors the newest array has before each.
const PARTS: &[(u64, u32, usize)] = &[
    (0x8000, 4096, 1),
    (0x9000, 4096, 256),
    (0xa000, 4096, 512),
    (0xb000, 4080, 768),
];

// Feeds the parse these parts, and says whether each of them is what it wants and finds as many descriptors.
fn takes(
    parse: &mut SglParse<'_, Global>,
    memory: &[u8],
    parts: &[(u64, u32, usize)],
) -> Result<bool, NoMemory> {
    for (addr, len, before) in parts {
        let part = Want::Read {
            addr: *addr,
            len: *len,
        };
        if parse.wants() != part
            || parse.chain().blocks().len() != *before
            || step(parse, memory)?.is_some()
        {
            return Ok(false);
        }
    }
    Ok(true)
}

// Whether the array is in front of the own descriptor.
fn has_array_in_front(chain: &Chain<Global>, own: Descriptor) -> bool {
    let array = chain.blocks();
    let older = match chain.next() {
        Some(older) => older.blocks(),
        None => &[],
    };
    array.len() == 1023
        && array.last().copied() == Some(descriptor((DATA, 0x5000, 512)))
        && older == [own].as_slice()
}

fn is_read_in_four_parts(rt: &impl Abort, alloc: Global, guest: &Guest) -> bool {
    let first = descriptor((LAST, 0x8000, 16 * 1023));
    let mut parse = SglParse::new(alloc, &guest.map, first, true, 1024).expect(rt, "memory");
    takes(&mut parse, &guest.memory, PARTS).expect(rt, "memory")
        && parse.wants() == Want::Done
        && has_array_in_front(parse.chain(), first)
}

#[test]
fn an_array_in_four_parts(rt: HostRuntime) {
    let guest = guest_with(&rt, rt.alloc(), BLOCKS);
    assert!(rt; is_read_in_four_parts(&rt, rt.alloc(), &guest));
}

// Whether these are the pieces of the long list.
fn are_of_long_list(pieces: &[Piece]) -> bool {
    for (i, piece) in pieces.iter().enumerate() {
        let expected = Piece::Run {
            addr: (i as u64).wrapping_mul(16).wrapping_add(0x1000),
            len: 16,
        };
        if *piece != expected {
            return false;
        }
    }
    pieces.len() == 511
}

// Whether a parse has read the long list.
fn has_read_long_list(rt: &impl Abort, alloc: Global, parse: &SglParse<'_, &LocalHeap>) -> bool {
    parse.wants() == Want::Done
        && arrays(parse.chain()) == 512
        && are_of_long_list(parse.places(alloc).expect(rt, "memory").pieces())
}

// Whether the long list is read to its end in a heap.
fn is_read_in(rt: &impl Abort, heap: &LocalHeap, alloc: Global, guest: &Guest) -> bool {
    let mut parse = parse_of_long_list(heap, &guest.map).expect(rt, "memory");
    drive(&mut parse, &guest.memory).expect(rt, "memory") == Want::Done
        && has_read_long_list(rt, alloc, &parse)
}

#[test]
fn hundreds_of_arrays(rt: HostRuntime) {
    let guest = guest_with_long_list(&rt, rt.alloc());
    let heap = LocalHeap::new(rt.alloc(), 0x4_0000).expect(&rt, "memory");
    assert!(rt; is_read_in(&rt, &heap, rt.alloc(), &guest));
}

// Whether a parse is refused before its end, and goes on wanting the same.
fn is_refused(parse: &mut SglParse<'_, &LocalHeap>, memory: &[u8]) -> bool {
    let is_refused = drive(parse, memory).is_err();
    let wanted = parse.wants();
    is_refused && drive(parse, memory).is_err() && parse.wants() == wanted
}

// Whether the long list is refused in a heap that is too small.
fn is_refused_in(rt: &impl Abort, heap: &LocalHeap, guest: &Guest) -> bool {
    let mut parse = parse_of_long_list(heap, &guest.map).expect(rt, "memory");
    is_refused(&mut parse, &guest.memory)
}

#[test]
fn a_heap_too_small(rt: HostRuntime) {
    let guest = guest_with_long_list(&rt, rt.alloc());
    let heap = LocalHeap::new(rt.alloc(), 0x1000).expect(&rt, "memory");
    assert!(rt; is_refused_in(&rt, &heap, &guest));
}
