//! The host's memory, read and written in ranges.

ghost use Rattle.std.specs.Prelude.{◌≡◌, ◌+◌, ◌≤◌, ◌⊎◌, [], length, replicate, ◌↔◌, IfOk, IsTrue};
ghost use Rattle.nv_mem.specs.Bytes.{InMemory, bytes_at, after_store};

use crate::no_memory::NoMemory;
use nv_zeroed::Zeroed;
use std::alloc::Global;
use std::marker::Model;

/// The memory of the host: its bytes, from host address 0 on.
///
/// Its length stays as it was made. A contract sees it as the list of its bytes.
#[derive(Debug, Drop)]
pub struct Host {
    bytes: Zeroed,
}

impl Model for Host {
    ghost use Rattle.std.specs.Prelude.{ℕ, List};

    ghost Value = { List ℕ };

    ghost view = { λ h. h.bytes };
}

impl Host {
    /// A memory of `len` bytes, all zero. It takes the room of all of them, and no time for those that are never written.
    ///
    /// # Errors
    ///
    /// [`NoMemory`] where memory for the bytes is refused.
    pub fn new(alloc: Global, len: u64) -> Result<Self, NoMemory>
        ensures { IfOk result (λ host. host ≡ replicate len 0) }
    {
        Ok(Host {
            bytes: Zeroed::new(alloc, len as usize)?,
        })
    }

    /// How many bytes the memory has.
    pub fn len(&self) -> u64
        ensures { result ≡ length self.now }
    {
        self.bytes.len() as u64
    }

    /// Whether the memory has no bytes.
    pub fn is_empty(&self) -> bool
        ensures { IsTrue result ↔ (self.now ≡ []) }
    {
        self.bytes.is_empty()
    }

    /// Whether `len` bytes from host address `addr` on lie in the memory. No bytes always do, at
    /// any address. It is what [`Host::load`] and [`Host::store`] require.
    pub fn holds(&self, addr: u64, len: u64) -> bool
        ensures { IsTrue result ↔ InMemory (length self.now) addr len }
    {
        len == 0 || (len <= self.len() && addr <= self.len() - len)
    }

    /// Reads the bytes from host address `addr` on, as many as `out` has, into `out`.
    ///
    /// The caller knows that they lie in the memory ([`Host::holds`] tests it).
    pub fn load(&self, addr: u64, out: &mut [u8])
        requires { InMemory (length self.now) addr (length out.old) }
        ensures { out.new ≡ bytes_at self.now addr (length out.old) }
    {
        if out.is_empty() {
            return;
        }
        self.bytes.load(addr as usize, out);
    }

    /// The `len` bytes from host address `addr` on: where they lie, or loaded into `room` where they don't lie in one place.
    ///
    /// The caller knows that they lie in the memory ([`Host::holds`] tests it).
    pub fn bytes<'a>(&'a self, addr: u64, len: u64, room: &'a mut [u8]) -> &'a [u8]
        requires bytes { InMemory (length self.now) addr len }
        requires room { len ≤ length room.old }
        ensures { result.now ≡ bytes_at self.now addr len }
    {
        if len == 0 {
            return &[];
        }
        self.bytes.bytes(addr as usize, len as usize, room)
    }

    /// Whether the bytes from host address `addr` on are these.
    ///
    /// The caller knows that so many lie in the memory ([`Host::holds`] tests it).
    pub fn equals(&self, addr: u64, bytes: &[u8]) -> bool
        requires { InMemory (length self.now) addr (length bytes.now) }
        ensures { IsTrue result ↔ (bytes_at self.now addr (length bytes.now) ≡ bytes.now) }
    {
        bytes.is_empty() || self.bytes.equals(addr as usize, bytes)
    }

    /// Writes the bytes to host address `addr` on, and changes no other byte.
    ///
    /// The caller knows that they lie in the memory ([`Host::holds`] tests it).
    pub fn store(&mut self, addr: u64, bytes: &[u8])
        requires { InMemory (length self.old) addr (length bytes.now) }
        ensures bytes { self.new ≡ after_store self.old addr bytes.now }
        ensures len { length self.new ≡ length self.old }
    {
        if bytes.is_empty() {
            return;
        }
        self.bytes.store(addr as usize, bytes);
    }

    /// Copies the `len` bytes from host address `from` on to `to`, and changes no other byte. The two don't meet.
    ///
    /// The caller knows that both lie in the memory ([`Host::holds`] tests it).
    pub fn copy(&mut self, from: u64, to: u64, len: u64)
        requires from { InMemory (length self.old) from len }
        requires to { InMemory (length self.old) to len }
        requires apart { (from + len ≤ to) ⊎ (to + len ≤ from) }
        ensures bytes { self.new ≡ after_store self.old to (bytes_at self.old from len) }
        ensures len { length self.new ≡ length self.old }
    {
        if len == 0 {
            return;
        }
        self.bytes.copy(from as usize, to as usize, len as usize);
    }
}
