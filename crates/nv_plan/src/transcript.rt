//! What was read of a command's lists.

ghost use Rattle.std.specs.Prelude.{◌≡◌, [], ◌∷◌, ◌++◌, ◌<◌, ◌==◌, ◌&&◌, IfOk, OnErr, OnOk, OnSome, IfNone, MatchOption, None, Some, length};
ghost use Rattle.nv_model.specs.Transcript.{first_read};

use nv_mem::{Bytes, NoMemory};
use std::alloc::Global;
use std::marker::Model;

/// One read of a guest's memory: where it was made, and the bytes that were there.
#[derive(Debug, Drop)]
pub struct ReadDone {
    addr: u64,
    bytes: Bytes,
}

impl Model for ReadDone {
    ghost use Rattle.nv_model.specs.Transcript.{ReadDone};

    ghost Value = { ReadDone };

    ghost view = { λ r. record { addr = r.addr; bytes = r.bytes } };
}

impl ReadDone {
    /// A read of these bytes from guest address `addr` on.
    pub fn new(addr: u64, bytes: Bytes) -> Self
        ensures { result ≡ record { addr = addr; bytes = bytes } }
    {
        ReadDone { addr, bytes }
    }

    /// The guest address of the first byte.
    pub fn addr(&self) -> u64
        ensures { result ≡ self.now.addr }
    {
        self.addr
    }

    /// The bytes.
    pub fn bytes(&self) -> &[u8]
        ensures { result.now ≡ self.now.bytes }
    {
        self.bytes.as_slice()
    }

    // Whether it is a read of `len` bytes from that address on.
    fn meets(&self, addr: u64, len: u64) -> bool
        ensures { result ≡ (self.now.addr == addr && length self.now.bytes == len) }
    {
        self.addr == addr && self.bytes.as_slice().len() as u64 == len
    }
}

/// The reads of a command's lists, in the order in which they were made. A contract sees it as the list of them.
#[derive(Debug, Drop)]
pub struct Transcript {
    pub(crate) reads: Vec<ReadDone>,
}

impl Model for Transcript {
    ghost use Rattle.std.specs.Prelude.{List};
    ghost use Rattle.nv_model.specs.Transcript.{ReadDone};

    ghost Value = { List ReadDone };

    ghost view = { λ t. t.reads.items };
}

impl Transcript {
    /// No reads. It takes no memory; a later `push` does.
    pub fn new(alloc: Global) -> Self
        ensures { result ≡ [] }
    {
        Transcript {
            reads: Vec::new(alloc),
        }
    }

    /// Adds a read after the others.
    ///
    /// # Errors
    ///
    /// [`NoMemory`] where memory for the read is refused: the reads are as they were.
    pub fn push(&mut self, read: ReadDone) -> Result<(), NoMemory>
        ensures ok { OnOk result (self.new ≡ self.old ++ read ∷ []) }
        ensures err { OnErr result (self.new ≡ self.old) }
    {
        self.reads.push(read)?;
        Ok(())
    }

    /// The reads, in order.
    pub fn reads(&self) -> &[ReadDone]
        ensures { result.now ≡ self.now }
    {
        &self.reads
    }
}

/// The reads of a transcript that are left: those after the last one that was taken.
#[derive(Drop)]
pub(crate) struct ReadsLeft<'a> {
    reads: &'a [ReadDone],
}

impl<'a> Model for ReadsLeft<'a> {
    ghost use Rattle.std.specs.Prelude.{List};
    ghost use Rattle.nv_model.specs.Transcript.{ReadDone};

    ghost Value = { List ReadDone };

    ghost view = { λ r. r.reads.now };
}

impl<'a> ReadsLeft<'a> {
    /// All reads of a transcript.
    pub(crate) fn all(transcript: &'a Transcript) -> Self
        ensures { result ≡ transcript.now }
    {
        ReadsLeft {
            reads: transcript.reads(),
        }
    }

    /// Takes the first read of that address and length, and skips those before it. Where there is none, all are left.
    pub(crate) fn take(&mut self, addr: u64, len: u64) -> Option<&'a [u8]>
        ensures first { MatchOption result (first_read addr len self.old ≡ None)
            (λ bytes. first_read addr len self.old ≡ Some (bytes.now, self.new)) }
        ensures progress { OnSome result (length self.new < length self.old) }
        ensures none { IfNone result (self.new ≡ self.old) }
    {
        let mut rest = self.reads;
        while let Some((read, behind)) = rest.split_first() {
            if read.meets(addr, len) {
                self.reads = behind;
                return Some(read.bytes());
            }
            rest = behind;
        }
        None
    }
}
