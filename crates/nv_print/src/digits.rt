//! Bytes as hexadecimal digits, a vector of bytes at a time.
ghost use Rattle.std.specs.Prelude.{◌≡◌, ◌≤◌, ◌+◌, ◌*◌, ◌++◌, drop, length, take};
ghost use Rattle.hex.specs.Hex.{encode_lower};

use std::simd::prelude::*;

/// The digits of the numbers below sixteen.
const DIGITS: [u8; 16] = [
    b'0', b'1', b'2', b'3', b'4', b'5', b'6', b'7', b'8', b'9', b'a', b'b', b'c', b'd', b'e', b'f',
];

// The digits of sixteen bytes. Each digit is found by a lookup in a vector of all sixteen digits. A lookup takes one operation, and computing the
// digit takes three.
#[inline(always)]
fn sixteen(bytes: u8x16) -> u8x32
    ensures { result ≡ encode_lower bytes }
{
    let digits = u8x16::from_array(DIGITS);
    let high = digits.swizzle_dyn_within::<16>(bytes >> u8x16::splat(4));
    let low = digits.swizzle_dyn_within::<16>(bytes & u8x16::splat(15));
    high.shuffle::<32>(
        low,
        [
            0, 16, 1, 17, 2, 18, 3, 19, 4, 20, 5, 21, 6, 22, 7, 23, 8, 24, 9, 25, 10, 26, 11, 27,
            12, 28, 13, 29, 14, 30, 15, 31,
        ],
    )
}

// The digits of eight bytes.
#[inline(always)]
fn eight(bytes: u8x8) -> u8x16
    ensures { result ≡ encode_lower bytes }
{
    let high = bytes >> u8x8::splat(4);
    let low = bytes & u8x8::splat(15);
    let values = high.shuffle::<16>(low, [0, 8, 1, 9, 2, 10, 3, 11, 4, 12, 5, 13, 6, 14, 7, 15]);
    let letters = values.simd_gt(u8x16::splat(9));
    values + letters.select(u8x16::splat(b'a' - 10), u8x16::splat(b'0'))
}

// The digits of four bytes.
#[inline(always)]
fn four(bytes: u8x4) -> u8x8
    ensures { result ≡ encode_lower bytes }
{
    let high = bytes >> u8x4::splat(4);
    let low = bytes & u8x4::splat(15);
    let values = high.shuffle::<8>(low, [0, 4, 1, 5, 2, 6, 3, 7]);
    let letters = values.simd_gt(u8x8::splat(9));
    values + letters.select(u8x8::splat(b'a' - 10), u8x8::splat(b'0'))
}

/// Writes the digits of bytes into a place of their length.
///
/// Sixteen bytes at a time are written by operations on vectors, and eight and four where so many are left; what is left then is written
/// by `hex`.
pub fn write_hex(bytes: &[u8], digits: &mut [u8])
    requires { length digits.old ≡ 2 * length bytes.now }
    ensures { digits.new ≡ encode_lower bytes.now }
{
    let mut done = 0;
    'sixteens: while bytes.len() - done >= 16 {
        let block = sixteen(u8x16::from_slice(&bytes[done..]));
        block.copy_to_slice(&mut digits[2 * done..]);
        done += 16;
    }
    if bytes.len() - done >= 8 {
        let block = eight(u8x8::from_slice(&bytes[done..]));
        block.copy_to_slice(&mut digits[2 * done..]);
        done += 8;
    }
    if bytes.len() - done >= 4 {
        let block = four(u8x4::from_slice(&bytes[done..]));
        block.copy_to_slice(&mut digits[2 * done..]);
        done += 4;
    }
    match hex::encode_to_slice(&bytes[done..], &mut digits[2 * done..]) {
        Ok(()) => {}
        Err(_) => unreachable!(),
    }
}
