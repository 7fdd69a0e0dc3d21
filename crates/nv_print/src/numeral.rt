//! Numbers followed by a text.
ghost use Rattle.std.specs.Prelude.{◌≡◌, ◌+◌, ◌<◌, ◌^◌, ◌++◌, ◌∷◌, [], ℕ, decimal, if◌then◌else◌, OnOk};
ghost use Rattle.std.specs.Io.KnownBytes.{Appends};

use crate::bytes::print_text;
use crate::cannot_write::CannotWrite;
use itoa::write_digits;
use std::io::Write;
use std::marker::Model;

/// The most digits of a number of 64 bits.
const DIGITS: usize = 20;

/// A number that is counted up, with the decimal digits that it is printed with. A contract sees the number.
///
/// The digits are there before they are printed: where they are written and copied at once, the copy has to wait for each of them.
#[derive(Debug, Drop)]
pub struct Numeral {
    number: u64,
    // the digits are at the end of their array
    digits: [u8; DIGITS],
    start: usize,
}

impl Model for Numeral {
    ghost use Rattle.std.specs.Prelude.{◌≡◌, ◌≤◌, ℕ, decimal, drop};

    ghost Value = { ℕ };

    ghost view = { λ n. n.number };

    ghost invariant = { λ n. (n.start ≤ 20) × (drop n.start n.digits ≡ decimal n.number) };
}

impl Numeral {
    /// This number.
    pub fn of(number: u64) -> Self
        ensures { result ≡ number }
    {
        let mut digits = [0; DIGITS];
        let start = write_digits(number, &mut digits, DIGITS);
        Numeral {
            number,
            digits,
            start,
        }
    }

    /// Counts one more.
    pub fn increase(&mut self)
        requires { self.old + 1 < 2 ^ 64 }
        ensures { self.new ≡ self.old + 1 }
    {
        if increase_digits(&mut self.digits[self.start..]) {
            self.start -= 1;
            self.digits[self.start] = b'1';
        }
        self.number += 1;
    }

    /// The decimal digits.
    pub fn digits(&self) -> &[u8]
        ensures { result.now ≡ decimal self.now }
    {
        &self.digits[self.start..]
    }
}

// Makes the digits of a number those of the next one, and says whether a 1 is wanted in front of them.
fn increase_digits(digits: &mut [u8]) -> bool
    ensures next { (n : ℕ) → n + 1 < 2 ^ 64 → digits.old ≡ decimal n → (if result then 49 ∷ digits.new else digits.new) ≡ decimal (n + 1) }
    ensures first { digits.old ≡ [] → (if result then 49 ∷ digits.new else digits.new) ≡ 49 ∷ [] }
{
    let Some((last, front)) = digits.split_last_mut() else {
        return true;
    };
    if *last < b'9' {
        *last += 1;
        return false;
    }
    *last = b'0';
    increase_digits(front)
}

/// Prints a number in decimal digits, and then a text. It is inlined into its caller, so that a text whose length is known there is copied without
/// a call.
///
/// # Errors
///
/// [`CannotWrite`] where the output fails. The output may then have a part of the number and the text.
#[inline(always)]
pub fn print_numbered<W: Write>(
    number: &Numeral,
    text: &[u8],
    output: &mut W,
) -> Result<(), CannotWrite>
    ensures { OnOk result (Appends (W.contents output.old) (W.contents output.new) (decimal number.now ++ text.now)) }
{
    print_text(number.digits(), output)?;
    print_text(text, output)
}
