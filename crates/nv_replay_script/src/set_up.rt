//! The guests of the set-up.
ghost use Rattle.std.specs.Prelude.{◌≡◌, length, MatchResult};
ghost use Rattle.nv_once_script.specs.OnceFault.{Refuses};
ghost use Rattle.nv_replay_script.specs.ReplaySetUp.{extent_of, fixed_word, guest_of, guest_value, heap_bytes, known_guest, next_guest, region_of};

use nv_mem::Region;
use nv_once_script::FaultKind;
use nv_once_script::once::fault::LineFault;
use nv_once_script::once::number::{byte, number};
use nv_once_script::once::word::Word;
use nv_once_script::once::words::Words;
use std::alloc::Global;

/// A range of the disk's blocks, as a line writes it: any two numbers, which are judged with the set-up.
#[derive(Clone, Copy, Debug, PartialEq, Eq)]
pub struct ExtentLine {
    /// the block of the disk at which it begins
    pub base: u64,
    /// how many blocks it has
    pub blocks: u64,
}

/// A guest of a set-up, as its lines write it.
#[derive(Debug, PartialEq, Eq, Drop)]
pub struct GuestSetUp {
    /// the extents of its namespace, in the order written, of which its own line gives the first
    pub extents: Vec<ExtentLine>,
    /// how many bytes its planner's heap has, 256 to 16,777,216
    pub heap: u64,
    /// the most descriptors of a list, where a line named them: any number, which is judged with the set-up
    pub limit: Option<u64>,
    /// the regions of its memory, in the order written
    pub regions: Vec<Region>,
}

/// The fewest bytes of a planner's heap.
const HEAP_MIN: u64 = 256;

/// The most bytes of a planner's heap.
const HEAP_MAX: u64 = 16_777_216;

// That a word is the one that is always at its position.
fn fixed(word: Word<'_>, want: &[u8]) -> Result<(), FaultKind>
    ensures { result ≡ fixed_word want.now word.entry }
{
    if word.text() == want {
        Ok(())
    } else {
        Err(FaultKind::UnknownWord)
    }
}

// The bytes of a heap that a word writes.
fn heap(word: Word<'_>) -> Result<u64, FaultKind>
    ensures { result ≡ heap_bytes word.entry }
{
    let bytes = number(word)?;
    if bytes < HEAP_MIN || bytes > HEAP_MAX {
        return Err(FaultKind::BadNumber);
    }
    Ok(bytes)
}

// That a word writes the number of the next guest.
fn next(count: usize, word: Word<'_>) -> Result<(), FaultKind>
    ensures { result ≡ next_guest count word.entry }
{
    let number = byte(word)?;
    if usize::from(number) == count {
        Ok(())
    } else {
        Err(FaultKind::OutOfPlace)
    }
}

/// The number of a guest that a word writes, where it is below `count`.
///
/// # Errors
///
/// [`FaultKind::BadNumber`] where the word is no number, or writes one above 255. [`FaultKind::OutOfPlace`] where there is no such guest.
pub fn known(count: usize, word: Word<'_>) -> Result<usize, FaultKind>
    ensures { result ≡ known_guest count word.entry }
{
    let number = usize::from(byte(word)?);
    if number < count {
        Ok(number)
    } else {
        Err(FaultKind::OutOfPlace)
    }
}

/// Makes the guest from the words after `guest`, where there are `count` guests. It has one extent and no regions.
///
/// # Errors
///
/// [`LineFault::Faulty`]: `OutOfPlace` where the number is not `count`; `UnknownWord` where `range` or `heap` is not at its place;
/// `BadNumber` for a word that is no number, or a heap that is not of 256 to 16,777,216 bytes. [`LineFault::NoMemory`] where memory for the
/// extent is refused.
pub fn make_guest(
    alloc: Global,
    count: usize,
    mut words: Words<'_>,
) -> Result<GuestSetUp, LineFault>
    requires { length words ≡ 6 }
    ensures { let guest = guest_of count words.entry
        in MatchResult result (λ made. guest ≡ Ok (guest_value made)) (Refuses guest) }
{
    next(count, words.next_word())?;
    fixed(words.next_word(), b"range")?;
    let extent = make_extent(words.next_word(), words.next_word())?;
    fixed(words.next_word(), b"heap")?;
    let heap = heap(words.next_word())?;
    let mut extents = Vec::new(alloc);
    extents.push(extent)?;
    Ok(GuestSetUp {
        extents,
        heap,
        limit: None,
        regions: Vec::new(alloc),
    })
}

impl GuestSetUp {
    ghost use Rattle.nv_once_script.specs.OnceScript.{first_time};
    ghost use Rattle.nv_once_script.specs.OnceNumber.{number_of};
    ghost use Rattle.nv_replay_script.specs.ReplaySetUp.{extended};

    /// Adds the extent that a line names by these words, after the others.
    ///
    /// # Errors
    ///
    /// [`LineFault::Faulty`] with [`FaultKind::BadNumber`] where a word is no number. [`LineFault::NoMemory`] where memory for the extent
    /// is refused. The contract does not say what the guest is then.
    pub fn add_extent(&mut self, base: Word<'_>, blocks: Word<'_>) -> Result<(), LineFault>
        ensures { let after = extended (guest_value self.old) base.entry blocks.entry
            in MatchResult result (λ _. after ≡ Ok (guest_value self.new)) (Refuses after) }
    {
        let extent = make_extent(base, blocks)?;
        self.extents.push(extent)?;
        Ok(())
    }

    /// The limit on descriptors that a line names by this word: the guest has none yet, or the line is out of place.
    ///
    /// # Errors
    ///
    /// [`FaultKind::OutOfPlace`] where the guest has a limit. [`FaultKind::BadNumber`] where it has none, and the word is no number.
    pub fn first_limit(&self, word: Word<'_>) -> Result<u64, FaultKind>
        ensures { result ≡ first_time self.now.limit (number_of word.entry) }
    {
        if self.limit.is_some() {
            return Err(FaultKind::OutOfPlace);
        }
        number(word)
    }
}

// Makes an extent of its two words.
fn make_extent(base: Word<'_>, blocks: Word<'_>) -> Result<ExtentLine, FaultKind>
    ensures { result ≡ extent_of base.entry blocks.entry }
{
    let base = number(base)?;
    let blocks = number(blocks)?;
    Ok(ExtentLine { base, blocks })
}

/// Makes a region of its three words.
///
/// # Errors
///
/// [`FaultKind::BadNumber`] where a word is no number.
pub fn make_region(guest: Word<'_>, host: Word<'_>, len: Word<'_>) -> Result<Region, FaultKind>
    ensures { result ≡ region_of guest.entry host.entry len.entry }
{
    let guest = number(guest)?;
    let host = number(host)?;
    let len = number(len)?;
    Ok(Region { guest, host, len })
}
