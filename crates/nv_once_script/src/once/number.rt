//! Numbers and bytes as words write them.
ghost use Rattle.std.specs.Prelude.{◌≡◌, ◌≤◌, ◌↔◌, IsTrue, MatchResult};
ghost use Rattle.nv_once_script.specs.OnceFault.{Refuses};
ghost use Rattle.nv_once_script.specs.OnceNumber.{bytes_of, entry_of, number_of, number_up_to, spelled, written};

use crate::once::fault::{FaultKind, LineFault};
use crate::once::hexadecimal::spell;
use crate::once::word::Word;
use nv_entry::Sqe;
use nv_model::limits::SQE_SIZE;
use std::alloc::Global;

/// The bytes of a submission queue entry.
const ENTRY: usize = SQE_SIZE as usize;

// The number that these digits spell, or `None` where they are none, are not all digits, or spell one beyond 64 bits. It is in the program once for
// each base, so that what a digit may be is known where the digit is examined.
#[inline(always)]
fn spelled_number(digits: &[u8], base: u32) -> Option<u64>
    requires least { 2 ≤ base }
    requires most { base ≤ 36 }
    ensures { result ≡ spelled base digits.now }
{
    if digits.is_empty() {
        return None;
    }
    let mut value: u64 = 0;
    for digit in digits {
        let digit = char::from(*digit).to_digit(base)?;
        value = value
            .checked_mul(u64::from(base))?
            .checked_add(u64::from(digit))?;
    }
    Some(value)
}

/// The number that a word writes: decimal, or `0x` and hexadecimal digits.
///
/// # Errors
///
/// [`FaultKind::BadNumber`] where the word has no digits, has a character that is no digit of its base, or writes a number of more than 64
/// bits.
#[inline(always)]
pub fn number(word: Word<'_>) -> Result<u64, FaultKind>
    ensures { result ≡ number_of word.entry }
{
    match word.plain() {
        Some(number) => Ok(number),
        None => written_number(word.text()).ok_or(FaultKind::BadNumber),
    }
}

// The number that a word writes, or none.
#[inline(never)]
fn written_number(word: &[u8]) -> Option<u64>
    ensures { result ≡ written word.now }
{
    match word.strip_prefix(b"0x") {
        Some(digits) => spelled_number(digits, 16),
        None => spelled_number(word, 10),
    }
}

/// The number that a word writes, where it is at most `most`.
///
/// # Errors
///
/// [`FaultKind::BadNumber`] where the word is no number, or writes one above `most`.
#[inline(always)]
pub fn up_to(word: Word<'_>, most: u64) -> Result<u64, FaultKind>
    ensures { result ≡ number_up_to most word.entry }
{
    let value = number(word)?;
    if value > most {
        return Err(FaultKind::BadNumber);
    }
    Ok(value)
}

/// The byte that a word writes as a number.
///
/// # Errors
///
/// [`FaultKind::BadNumber`] where the word is no number, or writes one above 255.
#[inline(always)]
pub fn byte(word: Word<'_>) -> Result<u8, FaultKind>
    ensures { result ≡ number_up_to 255 word.entry }
{
    let value = up_to(word, u64::from(u8::MAX))?;
    Ok(value as u8)
}

/// The bytes that a word spells: two hexadecimal digits each, or `-` for none.
///
/// # Errors
///
/// [`LineFault::Faulty`] with [`FaultKind::BadBytes`] where the digits are odd in number, or one is not hexadecimal.
/// [`LineFault::NoMemory`] where memory for the bytes is refused.
pub fn bytes(alloc: Global, word: Word<'_>) -> Result<Vec<u8>, LineFault>
    ensures { MatchResult result (λ bytes. bytes_of word.entry ≡ Ok bytes.items) (Refuses (bytes_of word.entry)) }
{
    let word = word.text();
    if word == b"-".as_slice() {
        return Ok(Vec::new(alloc));
    }
    if word.len() % 2 != 0 {
        return Err(LineFault::Faulty(FaultKind::BadBytes));
    }
    let mut bytes = vec![in alloc; 0; word.len() / 2]?;
    spell(word, &mut bytes)?;
    Ok(bytes)
}

/// The submission queue entry whose 64 bytes a word spells.
///
/// # Errors
///
/// [`FaultKind::BadBytes`] where the word is not 128 hexadecimal digits.
pub fn entry(word: Word<'_>) -> Result<Sqe, FaultKind>
    ensures { result ≡ entry_of word.entry }
{
    let word = word.text();
    if word.len() != 2 * ENTRY {
        return Err(FaultKind::BadBytes);
    }
    let mut bytes = [0; ENTRY];
    spell(word, &mut bytes)?;
    Ok(Sqe::of(&bytes))
}
