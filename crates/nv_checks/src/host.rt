//! A host holds, loads and stores bytes.

use nv_mem::Host;
use std::process::Abort;

// Whether these bytes, 8 at most, are loaded from an address.
fn loads(host: &Host, addr: u64, want: &[u8]) -> bool {
    let mut bytes = [9u8; 8];
    let len = want.len();
    if len > 8 || !host.holds(addr, len as u64) {
        return false;
    }
    host.load(addr, &mut bytes[..len]);
    let mut room = [9u8; 8];
    &bytes[..len] == want
        && host.bytes(addr, len as u64, &mut room) == want
        && host.equals(addr, want)
}

// Stores bytes, and says whether the host holds them.
fn stores(host: &mut Host, addr: u64, bytes: &[u8]) -> bool {
    if !host.holds(addr, bytes.len() as u64) {
        return false;
    }
    host.store(addr, bytes);
    true
}

#[test]
fn loads_what_was_stored(rt: HostRuntime) {
    let mut host = Host::new(rt.alloc(), 8).expect(&rt, "memory");
    assert!(rt; host.len() == 8 && !host.is_empty() && loads(&host, 0, &[0; 8]));
    assert!(rt; stores(&mut host, 2, &[1, 2, 3]) && stores(&mut host, 5, &[4, 5, 6]));
    assert!(rt; loads(&host, 0, &STORED) && loads(&host, 4, &[3, 4]));
    // no bytes lie in the host at any address
    assert!(rt; stores(&mut host, u64::MAX, &[]) && loads(&host, 9, &[]));
    assert!(rt; loads(&host, 0, &STORED));
}

const STORED: [u8; 8] = [0, 0, 1, 2, 3, 4, 5, 6];

/// An address, a length, and whether a host of 8 bytes holds so many from there on.
const HELD: &[(u64, u64, bool)] = &[
    (0, 8, true),
    (0, 9, false),
    (7, 1, true),
    (8, 1, false),
    (8, 0, true),
    (u64::MAX, 0, true),
    (u64::MAX, 1, false),
    (1, u64::MAX, false),
];

fn check_held(rt: &impl Abort, host: &Host, rows: &[(u64, u64, bool)]) {
    for (addr, len, want) in rows {
        assert!(rt; host.holds(*addr, *len) == *want, "{len} bytes at {addr}");
    }
}

#[test]
fn holds_ranges(rt: HostRuntime) {
    check_held(&rt, &Host::new(rt.alloc(), 8).expect(&rt, "memory"), HELD);
    assert!(rt; Host::new(rt.alloc(), u64::MAX).is_err());
    let none = Host::new(rt.alloc(), 0).expect(&rt, "memory");
    assert!(rt; none.is_empty() && none.holds(0, 0) && !none.holds(0, 1));
}
