//! A word of a line.
ghost use Rattle.std.specs.Prelude.{◌≡◌, ◌==◌, ◌||◌, ◌<◌, ◌≤◌, ◌^◌, ◌∷◌, [], length, take, not, true, IfSome, MatchOption, Ok};
ghost use Rattle.std.specs.Bool.{OnTrue};
ghost use Rattle.std.specs.Char.{is_digit};
ghost use Rattle.std.specs.List.{list_all, position_or_len};
ghost use Rattle.std.specs.Str.Parse.{digits_value};
ghost use Rattle.nv_once_script.specs.OnceNumber.{number_of};
ghost use Rattle.nv_once_script.specs.OnceWords.{words_of};

use memchr::memchr2;
use std::marker::Model;

/// A word of a line, together with the number that it writes where that was seen during the search for its end. A contract sees its bytes.
#[derive(Drop)]
pub struct Word<'a> {
    text: &'a [u8],
    plain: Option<u64>,
}

impl<'a> Model for Word<'a> {
    ghost use Rattle.std.specs.Prelude.{◌≡◌, IfSome, List, Ok, ℕ};
    ghost use Rattle.nv_once_script.specs.OnceNumber.{number_of};

    ghost Value = { List ℕ };

    ghost view = { λ word. word.text.now };

    ghost invariant = { λ word. IfSome word.plain (λ number. number_of word.text.now ≡ Ok number) };
}

impl<'a> Word<'a> {
    /// The first word of a line, and what is after it; `None` where there is none.
    #[inline(always)]
    pub(crate) fn first(line: &'a [u8]) -> Option<(Self, &'a [u8])>
        ensures { MatchOption result (words_of line.now ≡ [])
            (λ parts. words_of line.now ≡ parts.0 ∷ words_of parts.1.now) }
    {
        match Word::digit(line) {
            Some(found) => Some(found),
            None => Word::any(line),
        }
    }

    // The same where the word is one decimal digit after one space, as most numbers of guests, lanes and slots are: three bytes decide it.
    #[inline(always)]
    fn digit(line: &'a [u8]) -> Option<(Self, &'a [u8])>
        ensures { IfSome result (λ parts. words_of line.now ≡ parts.0 ∷ words_of parts.1.now) }
    {
        if line.len() < 2 {
            return None;
        }
        let (space, line) = line.split_at(1);
        let (text, behind) = line.split_at(1);
        if space[0] != b' ' {
            return None;
        }
        let digit = text[0];
        if digit < b'0' {
            return None;
        }
        if digit > b'9' {
            return None;
        }
        if !is_at_end(behind) {
            return None;
        }
        let plain = Some(u64::from(digit - b'0'));
        Some((Word { text, plain }, behind))
    }

    // The same, whatever the line begins with.
    #[inline(always)]
    fn any(line: &'a [u8]) -> Option<(Self, &'a [u8])>
        ensures { MatchOption result (words_of line.now ≡ [])
            (λ parts. words_of line.now ≡ parts.0 ∷ words_of parts.1.now) }
    {
        let (_, line) = line.split_at(leading_spaces(line));
        let (digits, value) = leading_digits(line);
        let (text, behind) = line.split_at(digits);
        if digits > 0 && is_at_end(behind) {
            let plain = Some(value);
            return Some((Word { text, plain }, behind));
        }
        let end = digits + word_end(behind);
        if end == 0 {
            return None;
        }
        let (text, rest) = line.split_at(end);
        let plain = None;
        Some((Word { text, plain }, rest))
    }

    /// The same, of a word that is no number as a rule: no number is searched for.
    #[inline(always)]
    pub(crate) fn first_name(line: &'a [u8]) -> Option<(Self, &'a [u8])>
        ensures { MatchOption result (words_of line.now ≡ [])
            (λ parts. words_of line.now ≡ parts.0 ∷ words_of parts.1.now) }
    {
        let (_, line) = line.split_at(leading_spaces(line));
        let end = word_end(line);
        if end == 0 {
            return None;
        }
        let (text, rest) = line.split_at(end);
        let plain = None;
        Some((Word { text, plain }, rest))
    }

    /// The bytes of the word.
    pub fn text(&self) -> &'a [u8]
        ensures { result.now ≡ self.now }
    {
        self.text
    }

    /// The number that the word writes, where it is decimal and was read in passing.
    pub(crate) fn plain(&self) -> Option<u64>
        ensures { IfSome result (λ number. number_of self.now ≡ Ok number) }
    {
        self.plain
    }
}

/// The most that a number can be for one more decimal digit to fit in 64 bits, whichever it is.
const PLAIN_MAX: u64 = u64::MAX / 10 - 1;

// How many decimal digits a text begins with, and the number that they spell. Digits after a very large number are left.
#[inline(always)]
fn leading_digits(text: &[u8]) -> (usize, u64)
    ensures within { result.0 ≤ length text.now }
    ensures digits { list_all (λ c. is_digit c 10) (take result.0 text.now) ≡ true }
    ensures value { digits_value 10 (take result.0 text.now) ≡ result.1 }
    ensures fits { result.1 < 2 ^ 64 }
{
    let mut count = 0;
    let mut value: u64 = 0;
    for byte in text {
        if !byte.is_ascii_digit() || value > PLAIN_MAX {
            return (count, value);
        }
        value = 10 * value + u64::from(*byte - b'0');
        count += 1;
    }
    (count, value)
}

// Whether a word surely ends where this text comes after its bytes: at the end of its line, or before a space.
#[inline(always)]
fn is_at_end(behind: &[u8]) -> bool
    ensures { OnTrue result (position_or_len (λ b. b == 32 || b == 35) behind.now ≡ 0) }
{
    match behind.first() {
        Some(byte) => *byte == b' ',
        None => true,
    }
}

/// How long a text may be for its bytes to be examined one by one.
const SHORT: usize = 32;

// The place of the first byte that ends a word, a space or the `#` of a comment, or the length where there is none.
#[inline(always)]
fn word_end(text: &[u8]) -> usize
    ensures { result ≡ position_or_len (λ b. b == 32 || b == 35) text.now }
{
    if text.len() <= SHORT {
        short_word_end(text)
    } else {
        long_word_end(text)
    }
}

// The same, byte by byte.
#[inline(always)]
fn short_word_end(text: &[u8]) -> usize
    ensures { result ≡ position_or_len (λ b. b == 32 || b == 35) text.now }
{
    text.iter()
        .position(|b| *b == b' ' || *b == b'#')
        .unwrap_or(text.len())
}

// The same of a long line, by a search of many bytes at once.
#[inline(never)]
fn long_word_end(text: &[u8]) -> usize
    ensures { result ≡ position_or_len (λ b. b == 32 || b == 35) text.now }
{
    memchr2(b' ', b'#', text).unwrap_or(text.len())
}

// The place of the first byte that is no space, or the length where there is none.
#[inline(always)]
fn leading_spaces(text: &[u8]) -> usize
    ensures { result ≡ position_or_len (λ b. not (b == 32)) text.now }
{
    text.iter().position(|b| *b != b' ').unwrap_or(text.len())
}
