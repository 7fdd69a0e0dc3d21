//! An allocator that refuses one allocation, for the tests: the n-th.
use std::alloc::{AllocError, Allocator};
use std::cell::Cell;

/// So many allocations that the one after them never comes.
const ALL: u64 = u64::MAX / 2;

/// An allocator that hands every call on to another one, but for a single allocation that it refuses.
pub struct Refusing<B: Allocator> {
    inner: B,
    left: Cell<u64>,
}

impl<B: Allocator> Refusing<B> {
    /// Every allocation is granted at first.
    pub fn new(inner: B) -> Self {
        Refusing {
            inner,
            left: Cell::new(ALL),
        }
    }

    /// From now on every allocation is granted.
    pub fn grant_all(&self) {
        self.left.set(ALL);
    }

    /// From now on this many allocations are granted, the next one is refused, and those after it are granted again.
    pub fn refuse_after(&self, granted: u64) {
        self.left.set(granted);
    }

    /// Whether the allocation that is to be refused has come.
    pub fn has_refused(&self) -> bool {
        self.left.get() > ALL
    }
}

impl<B: Allocator> Drop for Refusing<B> {
    fn drop(self) {
        let Self { inner: _, left: _ } = self;
    }
}

// Counts an allocation, and says whether it is the one to refuse.
fn is_refused(left: &Cell<u64>) -> bool {
    let count = left.get();
    left.set(count.wrapping_sub(1));
    count == 0
}

unsafe impl<B: Allocator> Allocator for Refusing<B> {
    ghost dealloc_token = { λ heap ty ptr. B.dealloc_token heap.inner ty ptr };

    fn allocate(&self, size: usize, align: usize) -> Result<*mut u8, AllocError> {
        if is_refused(&self.left) {
            return Err(AllocError);
        }
        self.inner.allocate(size, align)
    }

    unsafe fn deallocate(&self, ptr: *mut u8, size: usize, align: usize) {
        self.inner.deallocate(ptr, size, align);
    }
}
