//! The buffer of a command, whose bytes go to or come from its places in order.

ghost use Rattle.std.specs.Prelude.{◌≡◌, ◌++◌, ◌+◌, ◌<◌, ◌≤◌, ◌^◌, ◌==◌, [], ℕ, length, not, take, drop, min, MatchOption};
ghost use Rattle.std.specs.List.{list_any};
ghost use Rattle.nv_model.specs.Memory.{byte_in, gathered, scattered};
ghost use Rattle.nv_model.specs.Private.{differs};
ghost use Rattle.nv_mem.specs.Places.{piece_len, places_of, places_of_piece};
ghost use Rattle.nv_disk.specs.Buffer.{AreBelow, IsFront};

use nv_mem::{Host, Piece, Places, len_of};
use std::marker::Model;

/// What is left of a command's buffer. A contract sees it as the places that are left, in order.
#[derive(Drop)]
pub struct Buffer<'a> {
    /// What is left of the piece that is under way.
    under_way: Piece,
    /// The pieces after it.
    behind: &'a [Piece],
}

impl<'a> Model for Buffer<'a> {
    ghost use Rattle.std.specs.Prelude.{List, ◌++◌};
    ghost use Rattle.nv_mem.specs.Places.{Place, places_of, places_of_piece};

    ghost Value = { List Place };

    ghost view = { λ b. places_of_piece b.under_way ++ places_of b.behind.now };
}

impl<'a> Buffer<'a> {
    /// The whole buffer.
    pub fn new(places: &'a Places) -> Self
        ensures { result ≡ places_of places.now }
    {
        Buffer::of(places.pieces())
    }

    /// The buffer of these pieces.
    pub fn of(pieces: &'a [Piece]) -> Self
        ensures { result ≡ places_of pieces.now }
    {
        Buffer {
            under_way: Piece::Bucket { len: 0 },
            behind: pieces,
        }
    }

    /// Goes on after the first `count` of the places that are left.
    pub fn skip(&mut self, count: u64)
        requires in_range { AreBelow (2 ^ 64) self.old }
        ensures { self.new ≡ drop count self.old }
    {
        let (under_way, behind) = skipped(self.under_way, self.behind, count);
        self.under_way = under_way;
        self.behind = behind;
    }

    // Takes the front of what is left: a piece of at least one byte, and of `most` bytes at most. None where nothing is left.
    #[inline(always)]
    fn take_front(&mut self, most: u64) -> Option<Piece>
        requires some { 0 < most }
        requires in_range { AreBelow (2 ^ 64) self.old }
        ensures { MatchOption result ((self.old ≡ []) × (self.new ≡ [])) (λ piece. IsFront self.old most piece self.new) }
    {
        let mut piece = self.under_way;
        let mut behind = self.behind;
        while len_of(&piece) == 0 {
            let (first, rest) = behind.split_first()?;
            piece = *first;
            behind = rest;
        }
        let (front, rest) = cut(piece, most);
        self.under_way = rest;
        self.behind = behind;
        Some(front)
    }

    /// Gives the bytes to the first of the places that are left, and goes on after these.
    #[inline(always)]
    pub fn put(&mut self, memory: &mut Host, bytes: &[u8])
        requires in_memory { AreBelow (length memory.old) self.old }
        ensures memory { byte_in memory.new ≡ scattered (byte_in memory.old) self.old bytes.now }
        ensures size { length memory.new ≡ length memory.old }
        ensures rest { self.new ≡ drop (length bytes.now) self.old }
    {
        // An address of the memory fits in 64 bits, and so does the end of a run.
        let _known = memory.len();
        let mut rest = bytes;
        while !rest.is_empty() {
            let Some(piece) = self.take_front(rest.len() as u64) else {
                return;
            };
            let (bytes, behind) = rest.split_at(len_of(&piece) as usize);
            store(memory, &piece, bytes);
            rest = behind;
        }
    }

    /// Takes the bytes from the first of the places that are left, and goes on after these.
    #[inline(always)]
    pub fn fetch(&mut self, memory: &Host, out: &mut [u8])
        requires in_memory { AreBelow (length memory.now) self.old }
        requires enough { length out.old ≤ length self.old }
        ensures bytes { out.new ≡ gathered (byte_in memory.now) (take (length out.old) self.old) }
        ensures rest { self.new ≡ drop (length out.old) self.old }
    {
        // An address of the memory fits in 64 bits, and so does the end of a run.
        let _known = memory.len();
        let mut done = 0;
        while done < out.len() {
            let Some(piece) = self.take_front((out.len() - done) as u64) else {
                unreachable!()
            };
            let end = done + len_of(&piece) as usize;
            load(memory, &piece, &mut out[done..end]);
            done = end;
        }
    }

    /// Whether the bytes of the first of the places that are left differ from these. It goes on after these places.
    #[inline(always)]
    pub fn differs(&mut self, memory: &Host, bytes: &[u8]) -> bool
        requires in_memory { AreBelow (length memory.now) self.old }
        requires enough { length bytes.now ≤ length self.old }
        ensures value { result ≡ differs (gathered (byte_in memory.now) (take (length bytes.now) self.old)) bytes.now }
        ensures rest { self.new ≡ drop (length bytes.now) self.old }
    {
        // An address of the memory fits in 64 bits, and so does the end of a run.
        let _known = memory.len();
        let mut rest = bytes;
        let mut differed = false;
        while !rest.is_empty() {
            let Some(piece) = self.take_front(rest.len() as u64) else {
                unreachable!()
            };
            let (bytes, others) = rest.split_at(len_of(&piece) as usize);
            differed = differed || piece_differs(memory, &piece, bytes);
            rest = others;
        }
        differed
    }
}

// What is left of a piece and of those after it, after the first `count` of their places.
fn skipped(under_way: Piece, behind: &[Piece], count: u64) -> (Piece, &[Piece])
    requires in_range { AreBelow (2 ^ 64) (places_of_piece under_way ++ places_of behind.now) }
    ensures { places_of_piece result.0 ++ places_of result.1.now ≡ drop count (places_of_piece under_way ++ places_of behind.now) }
{
    let mut left = count;
    let mut piece = under_way;
    let mut behind = behind;
    while len_of(&piece) <= left {
        left -= len_of(&piece);
        let Some((first, rest)) = behind.split_first() else {
            return (Piece::Bucket { len: 0 }, behind);
        };
        piece = *first;
        behind = rest;
    }
    let (_, rest) = cut(piece, left);
    (rest, behind)
}

// The front of a piece, `most` bytes at most, and what is left of it.
#[inline(always)]
fn cut(piece: Piece, most: u64) -> (Piece, Piece)
    requires in_range { AreBelow (2 ^ 64) (places_of_piece piece) }
    ensures places { places_of_piece piece ≡ places_of_piece result.0 ++ places_of_piece result.1 }
    ensures front { piece_len result.0 ≡ min most (piece_len piece) }
{
    if len_of(&piece) <= most {
        return (piece, Piece::Bucket { len: 0 });
    }
    match piece {
        Piece::Run { addr, len } => (
            Piece::Run { addr, len: most },
            Piece::Run {
                addr: addr + most,
                len: len - most,
            },
        ),
        Piece::Bucket { len } => (
            Piece::Bucket { len: most },
            Piece::Bucket { len: len - most },
        ),
    }
}

// Gives bytes to the places of a piece, as many as it has.
#[inline(always)]
fn store(memory: &mut Host, piece: &Piece, bytes: &[u8])
    requires in_memory { AreBelow (length memory.old) (places_of_piece piece.now) }
    requires whole { length bytes.now ≡ piece_len piece.now }
    requires some { 0 < piece_len piece.now }
    ensures memory { byte_in memory.new ≡ scattered (byte_in memory.old) (places_of_piece piece.now) bytes.now }
    ensures size { length memory.new ≡ length memory.old }
{
    match *piece {
        Piece::Run { addr, .. } => memory.store(addr, bytes),
        Piece::Bucket { .. } => {}
    }
}

// Takes the bytes from the places of a piece. A bucket has none to take: a source names no buckets.
#[inline(always)]
fn load(memory: &Host, piece: &Piece, out: &mut [u8])
    requires in_memory { AreBelow (length memory.now) (places_of_piece piece.now) }
    requires whole { length out.old ≡ piece_len piece.now }
    requires some { 0 < piece_len piece.now }
    ensures { out.new ≡ gathered (byte_in memory.now) (places_of_piece piece.now) }
{
    match *piece {
        Piece::Run { addr, .. } => memory.load(addr, out),
        Piece::Bucket { .. } => out.fill(0),
    }
}

// Whether the bytes of the places of a piece are others than these. Those of a bucket are zeros: a source names no buckets.
#[inline(always)]
fn piece_differs(memory: &Host, piece: &Piece, bytes: &[u8]) -> bool
    requires in_memory { AreBelow (length memory.now) (places_of_piece piece.now) }
    requires whole { length bytes.now ≡ piece_len piece.now }
    requires some { 0 < piece_len piece.now }
    ensures { result ≡ differs (gathered (byte_in memory.now) (places_of_piece piece.now)) bytes.now }
{
    match *piece {
        Piece::Run { addr, .. } => !memory.equals(addr, bytes),
        Piece::Bucket { .. } => has_others_than_zeros(bytes),
    }
}

// Whether some byte isn't zero.
fn has_others_than_zeros(bytes: &[u8]) -> bool
    ensures { result ≡ list_any (λ byte. not (byte == 0)) bytes.now }
{
    bytes.iter().any(|byte| *byte != 0)
}
