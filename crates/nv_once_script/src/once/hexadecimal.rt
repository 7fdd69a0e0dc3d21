//! Hexadecimal digits as bytes, sixteen digits at a time.
ghost use Rattle.std.specs.Prelude.{◌≡◌, ◌≤◌, ◌+◌, ◌*◌, ◌<◌, length, take, drop, map, ℕ, IsTrue, MatchResult};
ghost use Rattle.std.specs.List.{AllPass};
ghost use Rattle.std.specs.Result.{result_ok};
ghost use Rattle.hex.specs.Hex.{decode_of, decode_pairs, is_hex_digit};
ghost use Rattle.nv_once_script.specs.OnceHexadecimal.{behind, digit_value, paired};
ghost use Rattle.nv_once_script.specs.OnceNumber.{or_bad_bytes};

use crate::once::fault::FaultKind;
use std::simd::prelude::*;

/// How many digits are read at once.
const DIGITS: usize = 16;

/// How many bytes these spell.
const BYTES: usize = 8;

// Whether all of these bytes are digits, of either case.
#[inline(always)]
fn are_digits(bytes: u8x16) -> bool
    ensures { IsTrue result → AllPass is_hex_digit bytes }
{
    let from_zero = bytes - u8x16::splat(b'0');
    let from_a = (bytes | u8x16::splat(0x20)) - u8x16::splat(b'a');
    let others = from_zero.simd_ge(u8x16::splat(10)) & from_a.simd_ge(u8x16::splat(6));
    others.to_bitmask() == 0
}

// The bytes that these digits spell. Counted from the first digit of the other kind, one comes out above all values: so the lesser count is its
// own.
#[inline(always)]
fn spelled(digits: u8x16) -> u8x8
    ensures { AllPass is_hex_digit digits → result ≡ paired (map digit_value digits) }
{
    let from_zero = digits - u8x16::splat(b'0');
    let from_a = (digits | u8x16::splat(0x20)) - u8x16::splat(b'a');
    let values = from_zero.simd_min(from_a + u8x16::splat(10));
    let high = values.swizzle::<8>([0, 2, 4, 6, 8, 10, 12, 14]);
    let low = values.swizzle::<8>([1, 3, 5, 7, 9, 11, 13, 15]);
    high * u8x8::splat(16) + low
}

// Writes the bytes of digits into their place, sixteen digits at a time, as long as all of these are digits, and says how many bytes it wrote.
fn spell_blocks(digits: &[u8], bytes: &mut [u8]) -> usize
    requires { length digits.now ≡ 2 * length bytes.old }
    ensures within { result ≤ length bytes.new }
    ensures spelled { decode_pairs 0 digits.now ≡ behind (take result bytes.new) (decode_pairs (2 * result) (drop (2 * result) digits.now)) }
{
    let mut done = 0;
    'sixteens: while bytes.len() - done >= BYTES {
        let block = u8x16::from_slice(&digits[2 * done..]);
        if !are_digits(block) {
            return done;
        }
        spelled(block).copy_to_slice(&mut bytes[done..]);
        done += BYTES;
    }
    done
}

/// Writes the bytes that digits of either case spell into a place of their length, or says that they spell none.
///
/// Nearly all digits are read by vector operations. `hex` decides what they leave: a few digits after the last sixteen, or the rest of a text from
/// a block on where something is no digit.
///
/// # Errors
///
/// [`FaultKind::BadBytes`] where something is no hexadecimal digit. The contract does not say what `bytes` holds then.
pub fn spell(digits: &[u8], bytes: &mut [u8]) -> Result<(), FaultKind>
    requires { length digits.now ≡ 2 * length bytes.old }
    ensures { let spelled = or_bad_bytes (result_ok (decode_of digits.now))
        in MatchResult result (λ _. spelled ≡ Ok bytes.new) (λ fault. spelled ≡ Err fault) }
{
    let done = spell_blocks(digits, bytes);
    match hex::decode_to_slice(&digits[2 * done..], &mut bytes[done..]) {
        Ok(()) => Ok(()),
        Err(_) => Err(FaultKind::BadBytes),
    }
}
