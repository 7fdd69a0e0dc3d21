//! What two worlds that do the same are compared by.

use nv_mem::{Host, PAGE_SIZE};
use nv_model::Reply;

/// Whether two replies are the same.
pub fn is_same_reply(one: &Reply, other: &Reply) -> bool {
    match (one, other) {
        (Reply::Bytes(one), Reply::Bytes(other)) => one.as_slice() == other.as_slice(),
        _ => kind_of(one) == kind_of(other),
    }
}

// A reply but for its bytes.
fn kind_of(reply: &Reply) -> u8 {
    match reply {
        Reply::Done => 0,
        Reply::Bytes(_) => 1,
        Reply::Idle => 2,
        Reply::Busy => 3,
        Reply::Held => 4,
        Reply::Stale => 5,
        Reply::Unmapped => 6,
        Reply::Ignored => 7,
        Reply::NoMemory => 8,
    }
}

/// Whether a page is the same in two hosts, which both have it.
pub fn is_same_page(one: &Host, other: &Host, addr: u64) -> bool {
    let mut bytes = [0; PAGE_SIZE as usize];
    if !one.holds(addr, PAGE_SIZE) || !other.holds(addr, PAGE_SIZE) {
        return false;
    }
    one.load(addr, &mut bytes);
    other.equals(addr, &bytes)
}
