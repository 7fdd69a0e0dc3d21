//! Bytes that are written and read back by their guest addresses, over two regions that are apart in the host.
use crate::bounce::copies::{HOST_LEN, map};
use crate::hand::has;
use nv_bounce::{load, store};
use nv_mem::{GuestMap, Host, MemoryCell};
use std::slice;
use std::test::Fail;

/// The four bytes: two at the end of the guest's first page, which is at 3000h in the host, two at the start of its next, at 1000h.
const BYTES: [u8; 4] = [1, 2, 3, 4];

// Stores the bytes at a guest address; false where a condition does not hold.
fn stores(addr: u64, map: &GuestMap, host: &mut [u8]) -> bool {
    if map.host_len() != host.len() as u64 || !map.holds(addr, 4) {
        return false;
    }
    store(&BYTES, addr, map, host);
    true
}

// Whether these bytes are loaded from a guest address.
fn loads(addr: u64, map: &GuestMap, host: &[u8], want: [u8; 4]) -> bool {
    if map.host_len() != host.len() as u64 || !map.holds(addr, 4) {
        return false;
    }
    let mut bytes = [9; 4];
    load(addr, map, host, &mut bytes);
    bytes == want
}

#[test]
fn bytes_over_two_regions(rt: HostRuntime) -> Result<(), Fail> {
    let map = map(rt.alloc())?;
    let mut host = [0; HOST_LEN as usize];
    assert!(rt; stores(0xffe, &map, &mut host));
    assert!(rt; has(&host, 0x3ffe, &[1, 2, 0, 0]) && has(&host, 0xffe, &[0, 0, 3, 4, 0]));
    assert!(rt; loads(0xffe, &map, &host, BYTES) && loads(0xfff, &map, &host, [2, 3, 4, 0]));
    // past the map's third page nothing is mapped
    assert!(rt; !stores(0x2ffd, &map, &mut host) && !loads(0x2ffd, &map, &host, [0; 4]));
    Ok(())
}

#[test]
fn windows_and_hosts_are_memories(rt: HostRuntime) -> Result<(), Fail> {
    let host = Host::new(rt.alloc(), HOST_LEN)?;
    assert!(rt; MemoryCell::len(&[7u8; 5]) == 5 && MemoryCell::len(&[0u8; 0]) == 0);
    assert!(rt; MemoryCell::len(slice::from_ref(&host)) == HOST_LEN);
    let none: [Host; 0] = [];
    assert!(rt; MemoryCell::len(&none) == 0);
    Ok(())
}
