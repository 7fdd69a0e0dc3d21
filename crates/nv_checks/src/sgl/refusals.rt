//! Each allocation refused in turn.
use crate::sgl::{
    Guest, THREE_ARRAYS, guest_with, guest_with_long_list, has_read_three, parse_of_long_list,
    parse_of_three, step, takes_parts,
};
use nv_mem::{GuestMap, NoMemory};
use nv_refusing::Refusing;
use nv_sgl::{Chain, SglParse, Want};
use std::alloc::{Allocator, Global};
use std::test::Fail;

// Whether two chains hold the same arrays.
fn are_equal<A: Allocator, B: Allocator>(one: &Chain<A>, other: &Chain<B>) -> bool {
    let mut left = Some(one);
    let mut right = Some(other);
    for _ in 0..2000 {
        match (left, right) {
            (Some(one), Some(other)) if one.blocks() == other.blocks() => {
                left = one.next();
                right = other.next();
            }
            (None, None) => return true,
            _ => return false,
        }
    }
    false
}

// Whether two parses want the same, and hold the same arrays.
fn are_alike<A: Allocator + Clone, B: Allocator + Clone>(
    one: &SglParse<'_, A>,
    other: &SglParse<'_, B>,
) -> bool {
    one.wants() == other.wants() && are_equal(one.chain(), other.chain())
}

// Feeds the parse its next part with the allocation refused that follows so many granted ones. Says whether that one came, too.
fn step_with_one_refused(
    parse: &mut SglParse<'_, &Refusing<Global>>,
    heap: &Refusing<Global>,
    memory: &[u8],
    granted: u64,
) -> (bool, Result<Option<Want>, NoMemory>) {
    heap.refuse_after(granted);
    let fed = step(parse, memory);
    (heap.has_refused(), fed)
}

// Feeds the parse its next part, with the first allocation refused, then with the second, and so on until none is. Says how
// often it was refused, or nothing where it was fed nothing or no longer is what it was before.
fn refusals_of_step(
    parse: &mut SglParse<'_, &Refusing<Global>>,
    before: &SglParse<'_, &Refusing<Global>>,
    heap: &Refusing<Global>,
    memory: &[u8],
) -> Option<u64> {
    for granted in 0..100 {
        match step_with_one_refused(parse, heap, memory, granted) {
            (false, Ok(None)) => return Some(granted),
            (true, Err(NoMemory)) if are_alike(parse, before) => {}
            _ => return None,
        }
    }
    None
}

fn step_refused(
    parse: &mut SglParse<'_, &Refusing<Global>>,
    heap: &Refusing<Global>,
    memory: &[u8],
) -> Result<Option<u64>, NoMemory> {
    heap.grant_all();
    let before = parse.try_clone()?;
    Ok(refusals_of_step(parse, &before, heap, memory))
}

// Whether parts of the list are refused so often at least, one after another.
fn are_refused(
    parse: &mut SglParse<'_, &Refusing<Global>>,
    heap: &Refusing<Global>,
    memory: &[u8],
    least: &[u64],
) -> Result<bool, NoMemory> {
    for least in least {
        match step_refused(parse, heap, memory)? {
            Some(refusals) if refusals >= *least => {}
            _ => return Ok(false),
        }
    }
    Ok(true)
}

// Whether a parse is refused with its first allocation.
fn is_new_refused(heap: &Refusing<Global>, map: &GuestMap) -> bool {
    heap.refuse_after(0);
    parse_of_three(heap, map).is_err() && heap.has_refused()
}

// Whether the list has this chain where no allocation is refused.
fn is_chain_of_three(
    chain: &Chain<&Refusing<Global>>,
    alloc: Global,
    guest: &Guest,
) -> Result<bool, NoMemory> {
    let mut parse = parse_of_three(alloc, &guest.map)?;
    Ok(takes_parts(&mut parse, &guest.memory, 3)? && are_equal(chain, parse.chain()))
}

// Whether a parse that is refused each allocation in turn ends as it does where none is refused.
fn ends_all_the_same(
    parse: &mut SglParse<'_, &Refusing<Global>>,
    heap: &Refusing<Global>,
    alloc: Global,
    guest: &Guest,
) -> Result<bool, NoMemory> {
    // an array's first part takes a block for its descriptors and one for its place in the chain, and a further part none
    Ok(
        are_refused(parse, heap, &guest.memory, &[2, 2, 0])?
            && has_read_three(alloc, parse)?
            && is_chain_of_three(parse.chain(), alloc, guest)?,
    )
}

fn is_read_all_the_same(
    heap: &Refusing<Global>,
    alloc: Global,
    guest: &Guest,
) -> Result<bool, NoMemory> {
    let mut parse = parse_of_three(heap, &guest.map)?;
    ends_all_the_same(&mut parse, heap, alloc, guest)
}

#[test]
fn each_allocation_refused(rt: HostRuntime) -> Result<(), Fail> {
    let guest = guest_with(&rt, rt.alloc(), THREE_ARRAYS);
    let heap = Refusing::new(rt.alloc());
    assert!(rt; is_new_refused(&heap, &guest.map));
    assert!(rt; is_read_all_the_same(&heap, rt.alloc(), &guest)?);
    Ok(())
}

// Copies a chain with the first allocation refused, then with the second, and so on until none is. Says how often it was
// refused, or nothing where the copy isn't equal.
fn refusals_of_copy(heap: &Refusing<Global>, chain: &Chain<&Refusing<Global>>) -> Option<u64> {
    for granted in 0..100 {
        heap.refuse_after(granted);
        let copy = chain.try_clone();
        match (heap.has_refused(), copy) {
            (true, Err(NoMemory)) => {}
            (false, Ok(copy)) if are_equal(&copy, chain) => return Some(granted),
            _ => return None,
        }
    }
    None
}

/// What is wanted of the list of three arrays after two parts.
const THIRD_PART: Want = Want::Read {
    addr: 0x9000,
    len: 16,
};

// Whether the copy of a parse after two parts is alike, and is fed independently.
fn is_fed_by_itself(
    copy: &mut SglParse<'_, &Refusing<Global>>,
    parse: &SglParse<'_, &Refusing<Global>>,
    alloc: Global,
    memory: &[u8],
) -> Result<bool, NoMemory> {
    Ok(
        are_alike(copy, parse)
            && takes_parts(copy, memory, 1)?
            && has_read_three(alloc, copy)?
            && !are_equal(copy.chain(), parse.chain()),
    )
}

// Whether a parse after two parts, and its chain, are copied.
fn is_copied(
    parse: &SglParse<'_, &Refusing<Global>>,
    heap: &Refusing<Global>,
    alloc: Global,
    memory: &[u8],
) -> Result<bool, NoMemory> {
    let refusals = refusals_of_copy(heap, parse.chain());
    heap.grant_all();
    let mut copy = parse.try_clone()?;
    // three arrays take three blocks for their descriptors and two for their places in the chain
    Ok(refusals == Some(5) && is_fed_by_itself(&mut copy, parse, alloc, memory)?)
}

// Whether a parse is copied after two parts, and still wants the third.
fn is_copied_behind_two_parts(
    parse: &mut SglParse<'_, &Refusing<Global>>,
    heap: &Refusing<Global>,
    alloc: Global,
    memory: &[u8],
) -> Result<bool, NoMemory> {
    Ok(
        takes_parts(parse, memory, 2)?
            && parse.wants() == THIRD_PART
            && is_copied(parse, heap, alloc, memory)?
            && parse.wants() == THIRD_PART,
    )
}

fn are_copied(heap: &Refusing<Global>, alloc: Global, guest: &Guest) -> Result<bool, NoMemory> {
    let mut parse = parse_of_three(heap, &guest.map)?;
    is_copied_behind_two_parts(&mut parse, heap, alloc, &guest.memory)
}

#[test]
fn copies(rt: HostRuntime) -> Result<(), Fail> {
    let guest = guest_with(&rt, rt.alloc(), THREE_ARRAYS);
    let heap = Refusing::new(rt.alloc());
    assert!(rt; are_copied(&heap, rt.alloc(), &guest)?);
    Ok(())
}

// Whether a chain's copy is equal.
fn is_chain_copied(chain: &Chain<Global>) -> Result<bool, NoMemory> {
    Ok(are_equal(&chain.try_clone()?, chain))
}

fn is_long_chain_copied(alloc: Global, guest: &Guest) -> Result<bool, NoMemory> {
    let mut parse = parse_of_long_list(alloc, &guest.map)?;
    Ok(takes_parts(&mut parse, &guest.memory, 511)? && is_chain_copied(parse.chain())?)
}

#[test]
fn a_long_chain_copied(rt: HostRuntime) -> Result<(), Fail> {
    let guest = guest_with_long_list(&rt, rt.alloc());
    assert!(rt; is_long_chain_copied(rt.alloc(), &guest)?);
    Ok(())
}
