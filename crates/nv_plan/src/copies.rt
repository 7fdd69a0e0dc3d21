//! Copies of what was read of a command's lists.

ghost use Rattle.std.specs.Prelude.{◌≡◌, IfOk};

use crate::transcript::{ReadDone, Transcript};
use nv_mem::{Bytes, NoMemory};
use std::alloc::Global;

impl ReadDone {
    /// The same read once more, with bytes in memory of its own.
    ///
    /// # Errors
    ///
    /// There was no memory for the bytes.
    pub fn try_clone(&self, alloc: Global) -> Result<Self, NoMemory>
        ensures { IfOk result (λ read. read ≡ self.now) }
    {
        let bytes = Bytes::from_slice(alloc, self.bytes())?;
        Ok(ReadDone::new(self.addr(), bytes))
    }
}

impl Transcript {
    /// The same reads once more, in memory of their own.
    ///
    /// # Errors
    ///
    /// There was no memory for all of them.
    pub fn try_clone(&self, alloc: Global) -> Result<Self, NoMemory>
        ensures { IfOk result (λ transcript. transcript ≡ self.now) }
    {
        Ok(Transcript {
            reads: all_reads(alloc, &self.reads)?,
        })
    }
}

// Reads once more.
fn all_reads(alloc: Global, reads: &[ReadDone]) -> Result<Vec<ReadDone>, NoMemory>
    ensures { IfOk result (λ copies. copies.items ≡ reads.now) }
{
    let mut copies = Vec::with_capacity(alloc, reads.len())?;
    for read in reads {
        copies.push(read.try_clone(alloc)?)?;
    }
    Ok(copies)
}
