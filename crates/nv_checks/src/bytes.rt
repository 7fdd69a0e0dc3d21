//! Bytes as a value of their own, a few and many.

use nv_mem::{BoxedBytes, Bytes};
use std::mem::{align_of, size_of};
use std::process::Abort;

/// How many bytes: none, up to all that are stored in place, and more.
const LENGTHS: [usize; 5] = [0, 1, 7, 8, 512];

// Ends the test where so many bytes are not kept, or not exchanged for others.
fn expect(rt: &(impl Abort + AllocGlobal), len: usize) {
    let sevens = vec![in rt.alloc(); 7u8; len].expect(rt, "memory");
    let nines = vec![in rt.alloc(); 9u8; len].expect(rt, "memory");
    let mut bytes = Bytes::from_slice(rt.alloc(), &sevens).expect(rt, "memory");
    assert!(rt; bytes.as_slice() == sevens.as_slice());
    bytes.copy_from_slice(&nines);
    assert!(rt; bytes.as_slice() == nines.as_slice());
    let moved = Bytes::new(rt.alloc(), sevens).expect(rt, "memory");
    assert!(rt; moved.as_slice().len() == len && moved.as_slice() != bytes.as_slice() || len == 0);
}

// The same of bytes that one pointer points to.
fn expect_boxed(rt: &(impl Abort + AllocGlobal), len: usize) {
    let sevens = vec![in rt.alloc(); 7u8; len].expect(rt, "memory");
    let nines = vec![in rt.alloc(); 9u8; len].expect(rt, "memory");
    let mut bytes = BoxedBytes::from_slice(rt.alloc(), &sevens).expect(rt, "memory");
    assert!(rt; bytes.as_slice() == sevens.as_slice());
    bytes.copy_from_slice(&nines);
    assert!(rt; bytes.as_slice() == nines.as_slice());
    let moved = BoxedBytes::new(rt.alloc(), sevens).expect(rt, "memory");
    assert!(rt; moved.as_slice().len() == len && moved.as_slice() != bytes.as_slice() || len == 0);
}

#[test]
fn keeps_few_and_many(rt: HostRuntime) {
    for len in LENGTHS {
        expect(&rt, len);
    }
}

#[test]
fn keeps_them_behind_a_pointer(rt: HostRuntime) {
    for len in LENGTHS {
        expect_boxed(&rt, len);
    }
}

// So few that they are copied as words, whatever they carry.
#[test]
fn takes_two_words(rt: HostRuntime) {
    assert_eq!(rt; size_of::<Bytes>(), 16);
    assert_eq!(rt; align_of::<Bytes>(), 8);
}
