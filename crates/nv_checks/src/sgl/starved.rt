//! A heap that others have filled.
use super::*;
use linked_list_allocator::LocalHeap;

// Takes the heap's memory, all but `spare` bytes of it.
fn hog(heap: &LocalHeap, spare: usize) -> Option<Vec<u8, &LocalHeap>> {
    let mut most = 0x8000usize;
    for _ in 0..0x800 {
        if let Ok(all) = Vec::<u8, &LocalHeap>::with_capacity(heap, most) {
            drop(all);
            return Vec::with_capacity(heap, most.saturating_sub(spare)).ok();
        }
        most = most.saturating_sub(16);
    }
    None
}

// Feeds the parse its next part with so many bytes of the heap to spare.
fn step_sparing(
    parse: &mut SglParse<'_, &LocalHeap>,
    heap: &LocalHeap,
    memory: &[u8],
    spare: usize,
) -> Result<Option<Want>, NoMemory> {
    let taken = hog(heap, spare);
    let fed = step(parse, memory);
    drop(taken);
    fed
}

// Feeds the parse its next part with no memory, then with 16 bytes, and so on until there is enough. Says how often it was
// refused, or nothing where it was fed nothing or a refusal changed it.
fn step_starved(
    parse: &mut SglParse<'_, &LocalHeap>,
    heap: &LocalHeap,
    memory: &[u8],
) -> Option<u32> {
    let wanted = parse.wants();
    let read = parse.chain().blocks().len();
    for refusals in 0..0x800u32 {
        if let Ok(end) = step_sparing(parse, heap, memory, 16 * refusals as usize) {
            return if end.is_none() { Some(refusals) } else { None };
        }
        if parse.wants() != wanted || parse.chain().blocks().len() != read {
            return None;
        }
    }
    None
}

// Whether parts of the list are refused so often at least, one after another.
fn are_refused(
    parse: &mut SglParse<'_, &LocalHeap>,
    heap: &LocalHeap,
    memory: &[u8],
    least: &[u32],
) -> bool {
    for least in least {
        match step_starved(parse, heap, memory) {
            Some(refusals) if refusals >= *least => {}
            _ => return false,
        }
    }
    true
}

// Whether a parse is refused where no memory is left.
fn is_new_refused(heap: &LocalHeap, map: &GuestMap) -> bool {
    let all = hog(heap, 0);
    let is_refused = parse_of_three(heap, map).is_err();
    drop(all);
    is_refused
}

fn is_refused_and_fed_again(
    rt: &impl Abort,
    heap: &LocalHeap,
    alloc: Global,
    guest: &Guest,
) -> bool {
    let mut parse = parse_of_three(heap, &guest.map).expect(rt, "memory");
    // each array's first part takes two blocks, one for its descriptors and one for its place in the chain, and a further part none
    are_refused(&mut parse, heap, &guest.memory, &[2, 2, 0])
        && has_read_three(alloc, &parse).expect(rt, "memory")
}

#[test]
fn refused_and_fed_again(rt: HostRuntime) {
    let guest = guest_with(&rt, rt.alloc(), THREE_ARRAYS);
    let heap = LocalHeap::new(rt.alloc(), 0x8000).expect(&rt, "memory");
    assert!(rt; is_new_refused(&heap, &guest.map));
    assert!(rt; is_refused_and_fed_again(&rt, &heap, rt.alloc(), &guest));
    assert!(rt; heap.used() == 0);
}
