//! What is done by hand: entries, and bytes of a host or of a window.

ghost use Rattle.std.specs.Prelude.{length, ◌↔◌, IsTrue};
ghost use Rattle.nv_mem.specs.Bytes.{InMemory};

use byteorder::{ByteOrder, LittleEndian};
use nv_entry::Sqe;
use nv_mem::{Host, MemoryCell};
use std::process::Abort;

/// The dwords of a Read of one block from LBA 5 by one Data Block of 512 bytes at 3000h, CID 7.
const READ: [u32; 16] = [
    0x0007_4002,
    1,
    0,
    0,
    0,
    0,
    0x3000,
    0,
    0x200,
    0,
    5,
    0,
    0,
    0,
    0,
    0,
];

/// That Read with some of its dwords changed.
pub(crate) fn changed(rt: &impl Abort, changes: &[(usize, u32)]) -> Sqe {
    let mut dwords = READ;
    for (place, dword) in changes {
        let place = *place;
        assert!(rt; place < 16);
        dwords[place] = *dword;
    }
    let mut bytes = [0; 64];
    LittleEndian::write_u32_into(&dwords, &mut bytes);
    Sqe::of(&bytes)
}

/// The bytes of an entry of this dword 0 and namespace, these PRP1 and PRP2, and these CDW10 to CDW12; everything else is 0.
pub(crate) fn entry(dword0: u32, nsid: u32, prps: [u64; 2], dwords: [u32; 3]) -> [u8; 64] {
    let [prp1, prp2] = prps;
    let [cdw10, cdw11, cdw12] = dwords;
    let mut bytes = [0; 64];
    bytes[..4].copy_from_slice(&dword0.to_le_bytes());
    bytes[4..8].copy_from_slice(&nsid.to_le_bytes());
    bytes[24..32].copy_from_slice(&prp1.to_le_bytes());
    bytes[32..40].copy_from_slice(&prp2.to_le_bytes());
    bytes[40..44].copy_from_slice(&cdw10.to_le_bytes());
    bytes[44..48].copy_from_slice(&cdw11.to_le_bytes());
    bytes[48..52].copy_from_slice(&cdw12.to_le_bytes());
    bytes
}

/// Stores bytes, and says whether they lie in the host.
pub(crate) fn store(host: &mut Host, addr: u64, bytes: &[u8]) -> bool {
    if !host.holds(addr, bytes.len() as u64) {
        return false;
    }
    host.store(addr, bytes);
    true
}

/// Whether so many bytes from an address on lie in a window.
pub(crate) fn lie_in(window: &[u8], addr: u64, len: u64) -> bool
    ensures { IsTrue result ↔ InMemory (length window.now) addr len }
{
    let size = window.len() as u64;
    len == 0 || (len <= size && addr <= size - len)
}

/// Puts bytes into a window, and says whether they lie in it.
pub(crate) fn put(window: &mut [u8], addr: u64, bytes: &[u8]) -> bool {
    if !lie_in(window, addr, bytes.len() as u64) {
        return false;
    }
    MemoryCell::store(window, addr, bytes);
    true
}

/// Whether these bytes, 64 at most, are at an address of a window.
pub(crate) fn has(window: &[u8], addr: u64, bytes: &[u8]) -> bool {
    let len = bytes.len();
    if len > 64 || !lie_in(window, addr, len as u64) {
        return false;
    }
    let mut found = [0; 64];
    MemoryCell::load(window, addr, &mut found[..len]);
    &found[..len] == bytes
}

/// Whether these bytes are at an address of the host.
pub(crate) fn shows(host: &Host, addr: u64, bytes: &[u8]) -> bool {
    let len = bytes.len() as u64;
    host.holds(addr, len) && host.equals(addr, bytes)
}
