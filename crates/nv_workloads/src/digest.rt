//! A digest of what was printed or answered.

use std::io;
use std::io::Write;

/// The offset basis and the prime of the 64-bit FNV hash, which is taken over words of eight bytes.
const BASIS: u64 = 0xcbf2_9ce4_8422_2325;

const PRIME: u64 = 0x0000_0100_0000_01b3;

/// A digest of bytes and numbers, and how many there were.
#[derive(Debug, Drop)]
pub struct Digest {
    hash: u64,
    count: u64,
    // bytes that make no whole word yet, lowest first
    word: u64,
    bits: u32,
}

impl Digest {
    /// The digest of nothing.
    pub fn new() -> Self {
        Digest {
            hash: BASIS,
            count: 0,
            word: 0,
            bits: 0,
        }
    }

    /// Takes a number in.
    pub fn number(&mut self, number: u64) {
        self.count = self.count.wrapping_add(1);
        self.mix(number);
    }

    /// Takes bytes in, whatever parts they come in.
    pub fn bytes(&mut self, bytes: &[u8]) {
        self.count = self.count.wrapping_add(bytes.len() as u64);
        for part in bytes.chunks(8) {
            match part {
                [a, b, c, d, e, f, g, h] => {
                    self.word(u64::from_le_bytes([*a, *b, *c, *d, *e, *f, *g, *h]));
                }
                few => {
                    for byte in few {
                        self.byte(*byte);
                    }
                }
            }
        }
    }

    /// What was taken in, as a number.
    pub fn value(&self) -> u64 {
        (self.hash ^ self.word).wrapping_mul(PRIME) ^ self.count
    }

    /// How many numbers and bytes were taken in.
    pub fn count(&self) -> u64 {
        self.count
    }

    // Takes a byte in.
    fn byte(&mut self, byte: u8) {
        let bits = self.bits % 64;
        self.word |= u64::from(byte).wrapping_shl(bits);
        self.bits = (bits + 8) % 64;
        if self.bits == 0 {
            let word = self.word;
            self.word = 0;
            self.mix(word);
        }
    }

    // Takes eight bytes in, after those that make no whole word yet.
    fn word(&mut self, word: u64) {
        let bits = self.bits % 64;
        let whole = self.word | word.wrapping_shl(bits);
        self.word = if bits == 0 { 0 } else { word >> (64 - bits) };
        self.mix(whole);
    }

    // Takes a word in.
    fn mix(&mut self, word: u64) {
        let hash = (self.hash ^ word).wrapping_mul(PRIME);
        self.hash = hash ^ (hash >> 29);
    }
}

impl Write for Digest {
    fn write(&mut self, buf: &[u8]) -> io::Result<usize> {
        self.bytes(buf);
        Ok(buf.len())
    }

    fn flush(&mut self) -> io::Result<()> {
        Ok(())
    }
}
