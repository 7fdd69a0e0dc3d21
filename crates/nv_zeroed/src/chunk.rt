//! One chunk of a memory.

ghost use Rattle.std.specs.Prelude.{◌≡◌, ◌+◌, ◌≤◌, length, replicate, IfOk, MatchOption};
ghost use Rattle.nv_zeroed.specs.Chunks.{IsChunk, after_store, bytes_at, laid};
ghost use Rattle.std.specs.Vec.{vec_capacity};

use std::alloc::{AllocError, Global};
use std::marker::Model;

/// How many bytes a chunk has: so many that an allocator takes separate pages for each. In the heap each chunk would begin after a few bytes that
/// the allocator writes, and with huge pages these alone make the system clear the whole.
pub(crate) const CHUNK: usize = 262_144;

/// A chunk: [`CHUNK`] bytes. Those of one that was never written are not there yet, but their room is.
#[derive(Debug, Drop)]
pub(crate) struct Chunk {
    bytes: Vec<u8>,
}

impl Model for Chunk {
    ghost use Rattle.std.specs.Prelude.{ℕ, List};
    ghost use Rattle.std.specs.Vec.{vec_capacity};
    ghost use Rattle.nv_zeroed.specs.Chunks.{IsChunk, laid};

    ghost Value = { List ℕ };

    ghost view = { λ c. laid 262144 c.bytes.items };

    ghost invariant = { λ c. IsChunk 262144 (vec_capacity c.bytes) c.bytes.items };
}

impl Chunk {
    /// A chunk that was never written.
    pub(crate) fn new(alloc: Global) -> Result<Self, AllocError>
        ensures { IfOk result (λ chunk. chunk ≡ replicate 262144 0) }
    {
        Ok(Chunk {
            bytes: Vec::with_capacity(alloc, CHUNK)?,
        })
    }

    /// Reads the bytes from `at` on, as many as `out` has.
    pub(crate) fn load(&self, at: usize, out: &mut [u8])
        requires { at + length out.old ≤ 262144 }
        ensures { out.new ≡ bytes_at self.now at (length out.old) }
    {
        if self.bytes.is_empty() {
            out.fill(0);
        } else {
            out.copy_from_slice(&self.bytes[at..at + out.len()]);
        }
    }

    /// The `len` bytes from `at` on where they lie; `None` in a chunk that was never written.
    pub(crate) fn bytes(&self, at: usize, len: usize) -> Option<&[u8]>
        requires { at + len ≤ 262144 }
        ensures { MatchOption result (self.now ≡ replicate 262144 0) (λ bytes. bytes.now ≡ bytes_at self.now at len) }
    {
        if self.bytes.is_empty() {
            return None;
        }
        Some(&self.bytes[at..at + len])
    }

    /// Writes the bytes from `at` on.
    pub(crate) fn store(&mut self, at: usize, bytes: &[u8])
        requires { at + length bytes.now ≤ 262144 }
        ensures { self.new ≡ after_store self.old at bytes.now }
    {
        lay(&mut self.bytes);
        self.bytes[at..at + bytes.len()].copy_from_slice(bytes);
    }

    /// Writes `len` bytes of another chunk, those from `from` on, to `to`.
    pub(crate) fn copy_of(&mut self, to: usize, source: &Chunk, from: usize, len: usize)
        requires from { from + len ≤ 262144 }
        requires to { to + len ≤ 262144 }
        ensures { self.new ≡ after_store self.old to (bytes_at source.now from len) }
    {
        match source.bytes(from, len) {
            Some(bytes) => self.store(to, bytes),
            None => {
                lay(&mut self.bytes);
                self.bytes[to..to + len].fill(0);
            }
        }
    }

    /// Copies the `len` bytes from `from` on to `to`.
    pub(crate) fn copy(&mut self, from: usize, to: usize, len: usize)
        requires from { from + len ≤ 262144 }
        requires to { to + len ≤ 262144 }
        ensures { self.new ≡ after_store self.old to (bytes_at self.old from len) }
    {
        lay(&mut self.bytes);
        self.bytes.copy_within(from..from + len, to);
    }
}

// Gives a chunk its bytes, where it was never written.
fn lay(bytes: &mut Vec<u8>)
    requires { IsChunk 262144 (vec_capacity bytes.old) bytes.old.items }
    ensures bytes { bytes.new.items ≡ laid 262144 bytes.old.items }
    ensures size { length bytes.new.items ≡ 262144 }
    ensures room { 262144 ≤ vec_capacity bytes.new }
{
    if bytes.is_empty() {
        // There is room.
        let _laid = bytes.resize(CHUNK, 0);
    }
}
