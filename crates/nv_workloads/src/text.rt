//! Text that is put together line by line.

use nv_mem::NoMemory;
use std::alloc::Global;

/// The digits of base 16.
const DIGITS: &[u8; 16] = b"0123456789abcdef";

/// The most decimal digits of a number of 64 bits.
const MOST_DIGITS: usize = 20;

/// Text, as bytes.
#[derive(Debug, Drop)]
pub struct Text {
    bytes: Vec<u8>,
}

impl Text {
    /// No text.
    pub fn new(alloc: Global) -> Self {
        Text {
            bytes: Vec::new(alloc),
        }
    }

    /// The text so far.
    pub fn as_slice(&self) -> &[u8] {
        self.bytes.as_slice()
    }

    /// Appends a line to the text: a word, and then numbers.
    pub fn line(&mut self, word: &str, numbers: &[u64]) -> Result<(), NoMemory> {
        self.words(word, numbers)?;
        self.end()
    }

    /// Appends a line to the text: a word, numbers, and bytes in digits of base 16.
    pub fn line_with_bytes(
        &mut self,
        word: &str,
        numbers: &[u64],
        bytes: &[u8],
    ) -> Result<(), NoMemory> {
        self.words(word, numbers)?;
        self.bytes.push(b' ')?;
        for byte in bytes {
            let pair = [
                DIGITS[usize::from(*byte / 16)],
                DIGITS[usize::from(*byte % 16)],
            ];
            self.bytes.extend_from_slice(&pair)?;
        }
        self.end()
    }

    /// Appends the line of a guest to the text: its number, its range of blocks, and the bytes of its planner's heap.
    pub fn guest(&mut self, guest: u64, base: u64, blocks: u64, heap: u64) -> Result<(), NoMemory> {
        self.words("guest", &[guest])?;
        self.words(" range", &[base, blocks])?;
        self.words(" heap", &[heap])?;
        self.end()
    }

    // Appends a word and numbers to the text.
    fn words(&mut self, word: &str, numbers: &[u64]) -> Result<(), NoMemory> {
        self.bytes.extend_from_slice(word.as_bytes())?;
        for number in numbers {
            self.number(*number)?;
        }
        Ok(())
    }

    // Appends a space and a number to the text. Most numbers are short.
    fn number(&mut self, number: u64) -> Result<(), NoMemory> {
        if number < 10 {
            self.bytes.extend_from_slice(&[b' ', digit(number)])?;
        } else if number < 100 {
            let digits = [b' ', digit(number / 10), digit(number)];
            self.bytes.extend_from_slice(&digits)?;
        } else if number < 1000 {
            let digits = [b' ', digit(number / 100), digit(number / 10), digit(number)];
            self.bytes.extend_from_slice(&digits)?;
        } else {
            self.long_number(number)?;
        }
        Ok(())
    }

    // The same of any number.
    fn long_number(&mut self, number: u64) -> Result<(), NoMemory> {
        let mut room = [b' '; MOST_DIGITS + 1];
        let mut left = number;
        let mut used = 1usize;
        for place in room.iter_mut().rev() {
            *place = digit(left);
            left /= 10;
            used = used.saturating_add(1);
            if left == 0 {
                break;
            }
        }
        let (_, digits) = room.split_at((MOST_DIGITS + 1).saturating_sub(used));
        self.bytes.extend_from_slice(digits)?;
        Ok(())
    }

    // Ends the line.
    fn end(&mut self) -> Result<(), NoMemory> {
        self.bytes.push(b'\n')?;
        Ok(())
    }
}

// The last decimal digit of a number.
fn digit(number: u64) -> u8 {
    b'0' + (number % 10) as u8
}
