//! The set-up of a script.
ghost use Rattle.std.specs.Prelude.{◌≡◌};
ghost use Rattle.nv_once_script.specs.OnceSizes.{block_count, memory_size};

use crate::once::fault::FaultKind;
use crate::once::number::number;
use crate::once::word::Word;
use nv_model::limits::{LARGEST_MEMORY, LARGEST_NAMESPACE, PAGE_SIZE};

/// The sizes that the set-up names.
#[derive(Clone, Copy, Debug, PartialEq, Eq)]
pub struct Sizes {
    /// how many bytes the memory has
    pub memory: u64,
    /// how many blocks the namespace has
    pub blocks: u64,
}

/// The size of the memory that a word writes: whole pages, at least one.
///
/// # Errors
///
/// [`FaultKind::BadNumber`] where the word is no number, or writes no multiple of [`PAGE_SIZE`] from [`PAGE_SIZE`] to [`LARGEST_MEMORY`].
pub fn memory(word: Word<'_>) -> Result<u64, FaultKind>
    ensures { result ≡ memory_size word.entry }
{
    let size = number(word)?;
    if size < PAGE_SIZE || size > LARGEST_MEMORY || size % PAGE_SIZE != 0 {
        return Err(FaultKind::BadNumber);
    }
    Ok(size)
}

/// The number of blocks that a word writes.
///
/// # Errors
///
/// [`FaultKind::BadNumber`] where the word is no number, or writes none from 1 to [`LARGEST_NAMESPACE`].
pub fn blocks(word: Word<'_>) -> Result<u64, FaultKind>
    ensures { result ≡ block_count word.entry }
{
    let count = number(word)?;
    if count < 1 || count > LARGEST_NAMESPACE {
        return Err(FaultKind::BadNumber);
    }
    Ok(count)
}
