//! A memory that is zero until it is written.

ghost use Rattle.std.specs.Prelude.{◌≡◌, ◌+◌, ◌%◌, ◌≤◌, ◌⊎◌, ◌↔◌, length, replicate, IfOk, IsTrue, MatchOption, ⊤};
ghost use Rattle.nv_zeroed.specs.Chunks.{after_store, bytes_at};

use crate::chunk::{CHUNK, Chunk};
use std::alloc::{AllocError, Global};
use std::marker::Model;

// How many bytes are compared at a time where they don't lie in one place.
const PART: usize = 512;

/// Bytes that are zero until they are written, from 0 on. Their number stays as it was made.
///
/// A contract sees the memory as the list of its bytes.
#[derive(Debug, Drop)]
pub struct Zeroed {
    len: usize,
    chunks: Vec<Chunk>,
}

impl Model for Zeroed {
    ghost use Rattle.std.specs.Prelude.{ℕ, List};
    ghost use Rattle.nv_zeroed.specs.Chunks.{IsMemory, memory_of};

    ghost Value = { List ℕ };

    ghost view = { λ z. memory_of z.len z.chunks.items };

    ghost invariant = { λ z. IsMemory 262144 z.len z.chunks.items };
}

impl Zeroed {
    /// A memory of `len` bytes, all zero. It takes the room of all of them, and no time for them.
    ///
    /// # Errors
    ///
    /// [`AllocError`] where memory for the bytes is refused.
    pub fn new(alloc: Global, len: usize) -> Result<Self, AllocError>
        ensures { IfOk result (λ zeroed. zeroed ≡ replicate len 0) }
    {
        let count = len.div_ceil(CHUNK);
        let mut chunks = Vec::with_capacity(alloc, count)?;
        for _ in 0..count {
            chunks.push(Chunk::new(alloc)?)?;
        }
        Ok(Zeroed { len, chunks })
    }

    /// How many bytes there are.
    pub fn len(&self) -> usize
        ensures { result ≡ length self.now }
    {
        self.len
    }

    /// Whether there are no bytes.
    pub fn is_empty(&self) -> bool
        ensures { IsTrue result ↔ (length self.now ≡ 0) }
    {
        self.len() == 0
    }

    /// Reads the bytes from `at` on, as many as `out` has, into `out`.
    pub fn load(&self, at: usize, out: &mut [u8])
        requires { at + length out.old ≤ length self.now }
        ensures { out.new ≡ bytes_at self.now at (length out.old) }
    {
        // Where the bytes end is a number.
        let _end = self.len();
        let room = CHUNK - at % CHUNK;
        if out.len() <= room {
            self.load_part(at, out);
        } else {
            let (part, rest) = out.split_at_mut(room);
            self.load_part(at, part);
            self.load(at + room, rest);
        }
    }

    /// The `len` bytes from `at` on: where they lie, or loaded into `room`.
    pub fn bytes<'a>(&'a self, at: usize, len: usize, room: &'a mut [u8]) -> &'a [u8]
        requires bytes { at + len ≤ length self.now }
        requires room { len ≤ length room.old }
        ensures { result.now ≡ bytes_at self.now at len }
    {
        if let Some(bytes) = self.lent(at, len) {
            return bytes;
        }
        let out = &mut room[..len];
        self.load(at, out);
        out
    }

    /// Whether the bytes from `at` on are these.
    pub fn equals(&self, at: usize, bytes: &[u8]) -> bool
        requires { at + length bytes.now ≤ length self.now }
        ensures { IsTrue result ↔ (bytes_at self.now at (length bytes.now) ≡ bytes.now) }
    {
        if let Some(there) = self.lent(at, bytes.len()) {
            return there == bytes;
        }
        self.equals_loaded(at, bytes)
    }

    /// Writes the bytes from `at` on, and changes no other byte.
    pub fn store(&mut self, at: usize, bytes: &[u8])
        requires { at + length bytes.now ≤ length self.old }
        ensures { self.new ≡ after_store self.old at bytes.now }
    {
        // Where the bytes end is a number.
        let _end = self.len();
        let room = CHUNK - at % CHUNK;
        if bytes.len() <= room {
            self.store_part(at, bytes);
        } else {
            self.store_part(at, &bytes[..room]);
            self.store(at + room, &bytes[room..]);
        }
    }

    /// Copies the `len` bytes from `from` on to `to`, and changes no other byte. The two don't meet.
    pub fn copy(&mut self, from: usize, to: usize, len: usize)
        requires from { from + len ≤ length self.old }
        requires to { to + len ≤ length self.old }
        requires apart { (from + len ≤ to) ⊎ (to + len ≤ from) }
        ensures { self.new ≡ after_store self.old to (bytes_at self.old from len) }
    {
        // Where the bytes end is a number.
        let _end = self.len();
        let room = (CHUNK - from % CHUNK).min(CHUNK - to % CHUNK);
        if len <= room {
            self.copy_part(from, to, len);
        } else {
            self.copy_part(from, to, room);
            self.copy(from + room, to + room, len - room);
        }
    }

    // Reads bytes that lie in one chunk.
    fn load_part(&self, at: usize, out: &mut [u8])
        requires bytes { at + length out.old ≤ length self.now }
        requires chunk { at % 262144 + length out.old ≤ 262144 }
        ensures { out.new ≡ bytes_at self.now at (length out.old) }
    {
        if out.is_empty() {
            return;
        }
        self.chunks[at / CHUNK].load(at % CHUNK, out);
    }

    // Bytes where they lie; `None` where they lie in several chunks, or in one that was never written.
    fn lent(&self, at: usize, len: usize) -> Option<&[u8]>
        requires { at + len ≤ length self.now }
        ensures { MatchOption result ⊤ (λ bytes. bytes.now ≡ bytes_at self.now at len) }
    {
        if len == 0 || CHUNK - at % CHUNK < len {
            return None;
        }
        self.chunks[at / CHUNK].bytes(at % CHUNK, len)
    }

    // Writes bytes of one chunk.
    fn store_part(&mut self, at: usize, bytes: &[u8])
        requires bytes { at + length bytes.now ≤ length self.old }
        requires chunk { at % 262144 + length bytes.now ≤ 262144 }
        ensures { self.new ≡ after_store self.old at bytes.now }
    {
        if bytes.is_empty() {
            return;
        }
        self.chunks[at / CHUNK].store(at % CHUNK, bytes);
    }

    // Copies bytes of one chunk to bytes of one chunk.
    fn copy_part(&mut self, from: usize, to: usize, len: usize)
        requires from { from + len ≤ length self.old }
        requires to { to + len ≤ length self.old }
        requires from_chunk { from % 262144 + len ≤ 262144 }
        requires to_chunk { to % 262144 + len ≤ 262144 }
        ensures { self.new ≡ after_store self.old to (bytes_at self.old from len) }
    {
        if len == 0 {
            return;
        }
        let source = from / CHUNK;
        let target = to / CHUNK;
        if source == target {
            self.chunks[source].copy(from % CHUNK, to % CHUNK, len);
        } else if source < target {
            let (low, high) = self.chunks.split_at_mut(target);
            high[0].copy_of(to % CHUNK, &low[source], from % CHUNK, len);
        } else {
            let (low, high) = self.chunks.split_at_mut(source);
            low[target].copy_of(to % CHUNK, &high[0], from % CHUNK, len);
        }
    }

    // Whether bytes are these, wherever they lie.
    fn equals_loaded(&self, at: usize, bytes: &[u8]) -> bool
        requires { at + length bytes.now ≤ length self.now }
        ensures { IsTrue result ↔ (bytes_at self.now at (length bytes.now) ≡ bytes.now) }
    {
        // Where the bytes end is a number.
        let _end = self.len();
        let mut room = [0; PART];
        let mut done = 0;
        while done < bytes.len() {
            let part = &bytes[done..done + PART.min(bytes.len() - done)];
            let there = &mut room[..part.len()];
            self.load(at + done, there);
            if *there != *part {
                return false;
            }
            done += part.len();
        }
        true
    }
}
