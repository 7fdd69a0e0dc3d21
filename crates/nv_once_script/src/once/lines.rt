//! The lines of a script.
ghost use Rattle.std.specs.Prelude.{◌≡◌, ◌==◌, ◌<◌, ◌≤◌, ◌^◌, length, map, take};
ghost use Rattle.std.specs.Iterator.{YieldsFirstRef, item_count};
ghost use Rattle.std.specs.Simd.Lanes.{mask_l};
ghost use Rattle.memchr.specs.Find.{IsFirstByte, is_byte};
ghost use Rattle.nv_once_script.specs.OnceWords.{lines_of, without_last_feed};

use memchr::memchr;
use std::marker::Model;
use std::simd::prelude::*;

/// The lines that are left of a text. A contract sees them as a list of lines.
#[derive(Drop)]
pub struct Lines<'a> {
    text: &'a [u8],
    is_over: bool,
}

impl<'a> Model for Lines<'a> {
    ghost use Rattle.std.specs.Prelude.{List, ℕ};
    ghost use Rattle.nv_once_script.specs.OnceWords.{lines_left};

    ghost Value = { List (List ℕ) };

    ghost view = { λ lines. lines_left lines.is_over lines.text.now };
}

impl<'a> Lines<'a> {
    /// The lines of a text: a line feed ends a line, and the last line may lack it.
    pub fn of(text: &'a [u8]) -> Self
        ensures lines { result ≡ lines_of text.now }
        ensures few { length result < 2 ^ 64 }
    {
        Lines {
            text: before_last_feed(text),
            is_over: false,
        }
    }
}

impl<'a> Iterator for Lines<'a> {
    type Item = &'a [u8];

    ghost next_gives = { YieldsFirstRef (λ lines. lines) };

    ghost remaining = { item_count (λ lines. lines) };

    #[inline(always)]
    fn next(&mut self) -> Option<&'a [u8]> {
        if self.is_over {
            return None;
        }
        let Some(end) = line_end(self.text) else {
            self.is_over = true;
            return Some(self.text);
        };
        let (line, behind) = self.text.split_at(end);
        let (_feed, behind) = behind.split_at(1);
        self.text = behind;
        Some(line)
    }
}

/// How many bytes are examined at once for the end of a line.
const LANES: usize = 32;

// The place of the line feed that ends the first line of a text, or `None` where there is none. Nearly all lines are so short that examining the
// first bytes finds their end, which spares a call.
#[inline(always)]
fn line_end(text: &[u8]) -> Option<usize>
    ensures { IsFirstByte (is_byte 10) text.now result }
{
    if text.len() >= LANES {
        let feeds = feeds(text);
        if feeds != 0 {
            return Some(feeds.trailing_zeros() as usize);
        }
    }
    memchr(b'\n', text)
}

// Where the first bytes of a text are line feeds: the lowest bit represents the first byte.
#[inline(always)]
fn feeds(text: &[u8]) -> u64
    requires { LANES ≤ length text.now }
    ensures { result ≡ mask_l (map (λ b. b == 10) (take 32 text.now)) }
{
    let bytes = u8x32::from_slice(text);
    bytes.simd_eq(u8x32::splat(b'\n')).to_bitmask()
}

// A text without the line feed that ends its last line.
fn before_last_feed(text: &[u8]) -> &[u8]
    ensures front { result.now ≡ without_last_feed text.now }
    ensures shorter { length result.now ≤ length text.now }
{
    match text.split_last() {
        Some((last, front)) if *last == b'\n' => front,
        _ => text,
    }
}
