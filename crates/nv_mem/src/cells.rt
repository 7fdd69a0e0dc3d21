//! A memory that is lent to a call: a slice of cells.

ghost use Rattle.std.specs.Prelude.{◌≡◌, ◌+◌, ◌≤◌, ◌⊎◌, length};
ghost use Rattle.nv_mem.specs.Bytes.{InMemory, bytes_at, after_store};

use crate::host::Host;

/// What a memory is made of. A memory that is lent to a call is a slice of cells, `&[C]` or `&mut [C]`: the bytes themselves for a window
/// that is somebody else's, or one [`Host`].
///
/// A call that is lent a slice can change what is in it and can't put another memory in its place. A contract sees a memory as the list of its
/// bytes, `C.bytes`.
pub trait MemoryCell {
    ghost use Rattle.std.specs.Prelude.{List, ℕ};

    /// The bytes of a memory, from host address 0 on.
    ghost bytes: { List Self → List ℕ };

    /// How many bytes the memory has.
    fn len(memory: &[Self]) -> u64
        ensures { result ≡ length (bytes memory.now) };

    /// Reads the bytes from host address `addr` on, as many as `out` has, into `out`.
    ///
    /// The caller knows that they lie in the memory.
    fn load(memory: &[Self], addr: u64, out: &mut [u8])
        requires { InMemory (length (bytes memory.now)) addr (length out.old) }
        ensures { out.new ≡ bytes_at (bytes memory.now) addr (length out.old) };

    /// Writes the bytes to host address `addr` on, and changes no other byte.
    ///
    /// The caller knows that so many lie in the memory.
    fn store(memory: &mut [Self], addr: u64, source: &[u8])
        requires { InMemory (length (bytes memory.old)) addr (length source.now) }
        ensures bytes { bytes memory.new ≡ after_store (bytes memory.old) addr source.now }
        ensures len { length (bytes memory.new) ≡ length (bytes memory.old) };

    /// Copies the `len` bytes from host address `from` on to `to`, and changes no other byte. The two don't meet.
    ///
    /// The caller knows that both lie in the memory.
    fn copy(memory: &mut [Self], from: u64, to: u64, len: u64)
        requires from { InMemory (length (bytes memory.old)) from len }
        requires to { InMemory (length (bytes memory.old)) to len }
        requires apart { (from + len ≤ to) ⊎ (to + len ≤ from) }
        ensures bytes { bytes memory.new ≡ after_store (bytes memory.old) to (bytes_at (bytes memory.old) from len) }
        ensures len { length (bytes memory.new) ≡ length (bytes memory.old) };
}

impl MemoryCell for u8 {
    ghost bytes = { λ memory. memory };

    fn len(memory: &[u8]) -> u64 {
        memory.len() as u64
    }

    fn load(memory: &[u8], addr: u64, out: &mut [u8]) {
        if out.is_empty() {
            return;
        }
        let from = addr as usize;
        out.copy_from_slice(&memory[from..from + out.len()]);
    }

    fn store(memory: &mut [u8], addr: u64, source: &[u8]) {
        if source.is_empty() {
            return;
        }
        let to = addr as usize;
        memory[to..to + source.len()].copy_from_slice(source);
    }

    fn copy(memory: &mut [u8], from: u64, to: u64, len: u64) {
        if len == 0 {
            return;
        }
        let from = from as usize;
        memory.copy_within(from..from + len as usize, to as usize);
    }
}

impl MemoryCell for Host {
    ghost use Rattle.nv_mem.specs.Lent.{bytes_of_hosts};

    ghost bytes = { bytes_of_hosts };

    fn len(memory: &[Host]) -> u64 {
        let Some(host) = memory.first() else {
            return 0;
        };
        host.len()
    }

    fn load(memory: &[Host], addr: u64, out: &mut [u8]) {
        let Some(host) = memory.first() else {
            return;
        };
        host.load(addr, out);
    }

    fn store(memory: &mut [Host], addr: u64, source: &[u8]) {
        let Some(host) = memory.first_mut() else {
            return;
        };
        host.store(addr, source);
    }

    fn copy(memory: &mut [Host], from: u64, to: u64, len: u64) {
        let Some(host) = memory.first_mut() else {
            return;
        };
        host.copy(from, to, len);
    }
}
