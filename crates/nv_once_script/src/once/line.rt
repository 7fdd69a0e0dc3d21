//! The lines after the set-up.
ghost use Rattle.std.specs.Prelude.{◌≡◌, ◌∷◌, [], length, MatchResult};
ghost use Rattle.nv_once_script.specs.OnceFault.{Refuses};
ghost use Rattle.nv_once_script.specs.OnceLine.{line_of, lies_in, value_of};
ghost use Rattle.nv_once_script.specs.OnceVocabulary.{arguments_of};
ghost use Rattle.nv_once_script.specs.declared.once.vocabulary.Keyword.TheVariants as keyword;

use crate::once::fault::{FaultKind, LineFault};
use crate::once::number::{byte, bytes, entry, number, up_to};
use crate::once::sizes::Sizes;
use crate::once::vocabulary::Keyword;
use crate::once::word::Word;
use crate::once::words::Words;
use nv_entry::Sqe;
use nv_model::limits::MOST_COMMAND_BYTES;
use std::alloc::Global;

/// One line of a script, after its set-up.
#[derive(Debug, PartialEq, Eq, Drop)]
pub enum Line {
    /// put these bytes into the memory
    Store { addr: u64, bytes: Vec<u8> },
    /// put so many equal bytes into the memory
    Fill { addr: u64, len: u64, byte: u8 },
    /// make a block of equal bytes
    Paint { block: u64, byte: u8 },
    /// do a command, and print its completion
    Command(Sqe),
    /// print bytes of the memory
    Dump { addr: u64, len: u64 },
    /// print a block
    Block { block: u64 },
}

/// The most bytes that one `fill` line writes: as many as one command transfers at most.
pub const FILL_MAX: u64 = MOST_COMMAND_BYTES;

// Whether so many bytes from an address on lie in a memory of this size. For no bytes any address will do.
fn is_in(memory: u64, addr: u64, len: u64) -> bool
    ensures { result ≡ lies_in memory addr len }
{
    len == 0 || (len <= memory && addr <= memory - len)
}

/// Makes the line of this keyword and the words after it.
///
/// # Errors
///
/// [`LineFault::Faulty`] with what is wrong: `BadNumber`, `BadBytes` for digits that do not spell the bytes, `OutOfRange` for bytes or a
/// block that are not there, or `OutOfPlace` for `memory`, `blocks` and a line of another language. [`LineFault::NoMemory`] where memory is
/// refused.
pub fn make_line(
    alloc: Global,
    sizes: Sizes,
    keyword: Keyword,
    mut words: Words<'_>,
) -> Result<Line, LineFault>
    requires { length words ≡ arguments_of keyword }
    ensures { let line = line_of sizes keyword words.entry
        in MatchResult result (λ made. line ≡ Ok (value_of made)) (Refuses line) }
{
    match keyword {
        Keyword::Store => store(alloc, sizes, words.next_word(), words.next_word()),
        Keyword::Fill => fill(
            sizes,
            words.next_word(),
            words.next_word(),
            words.next_word(),
        ),
        Keyword::Paint => paint(sizes, words.next_word(), words.next_word()),
        Keyword::Cmd => command(sizes, words.next_word()),
        Keyword::Dump => dump(sizes, words.next_word(), words.next_word()),
        Keyword::Block => block(sizes, words.next_word()),
        Keyword::Memory | Keyword::Blocks | Keyword::Foreign(_) => {
            Err(LineFault::Faulty(FaultKind::OutOfPlace))
        }
    }
}

// The line `store`, made of its words.
fn store(alloc: Global, sizes: Sizes, addr: Word<'_>, digits: Word<'_>) -> Result<Line, LineFault>
    ensures { let line = line_of sizes keyword.Store (addr.entry ∷ digits.entry ∷ [])
        in MatchResult result (λ made. line ≡ Ok (value_of made)) (Refuses line) }
{
    let addr = number(addr)?;
    let bytes = bytes(alloc, digits)?;
    if !is_in(sizes.memory, addr, bytes.len() as u64) {
        return Err(LineFault::Faulty(FaultKind::OutOfRange));
    }
    Ok(Line::Store { addr, bytes })
}

// The line `fill`, made of its words.
fn fill(sizes: Sizes, addr: Word<'_>, len: Word<'_>, value: Word<'_>) -> Result<Line, LineFault>
    ensures { let line = line_of sizes keyword.Fill (addr.entry ∷ len.entry ∷ value.entry ∷ [])
        in MatchResult result (λ made. line ≡ Ok (value_of made)) (Refuses line) }
{
    let addr = number(addr)?;
    let len = up_to(len, FILL_MAX)?;
    let byte = byte(value)?;
    if !is_in(sizes.memory, addr, len) {
        return Err(LineFault::Faulty(FaultKind::OutOfRange));
    }
    Ok(Line::Fill { addr, len, byte })
}

// The line `paint`, made of its words.
fn paint(sizes: Sizes, place: Word<'_>, value: Word<'_>) -> Result<Line, LineFault>
    ensures { let line = line_of sizes keyword.Paint (place.entry ∷ value.entry ∷ [])
        in MatchResult result (λ made. line ≡ Ok (value_of made)) (Refuses line) }
{
    let block = number(place)?;
    let byte = byte(value)?;
    if block >= sizes.blocks {
        return Err(LineFault::Faulty(FaultKind::OutOfRange));
    }
    Ok(Line::Paint { block, byte })
}

// The line `cmd`, made of its word.
fn command(sizes: Sizes, digits: Word<'_>) -> Result<Line, LineFault>
    ensures { let line = line_of sizes keyword.Cmd (digits.entry ∷ [])
        in MatchResult result (λ made. line ≡ Ok (value_of made)) (Refuses line) }
{
    Ok(Line::Command(entry(digits)?))
}

// The line `dump`, made of its words.
fn dump(sizes: Sizes, addr: Word<'_>, len: Word<'_>) -> Result<Line, LineFault>
    ensures { let line = line_of sizes keyword.Dump (addr.entry ∷ len.entry ∷ [])
        in MatchResult result (λ made. line ≡ Ok (value_of made)) (Refuses line) }
{
    let addr = number(addr)?;
    let len = number(len)?;
    if !is_in(sizes.memory, addr, len) {
        return Err(LineFault::Faulty(FaultKind::OutOfRange));
    }
    Ok(Line::Dump { addr, len })
}

// The line `block`, made of its word.
fn block(sizes: Sizes, place: Word<'_>) -> Result<Line, LineFault>
    ensures { let line = line_of sizes keyword.Block (place.entry ∷ [])
        in MatchResult result (λ made. line ≡ Ok (value_of made)) (Refuses line) }
{
    let block = number(place)?;
    if block >= sizes.blocks {
        return Err(LineFault::Faulty(FaultKind::OutOfRange));
    }
    Ok(Line::Block { block })
}
