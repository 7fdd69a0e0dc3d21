//! The bytes of the ranges of a Dataset Management, while they are read.

ghost use Rattle.std.specs.Prelude.{◌≡◌, ◌<◌, length, IfOk, OnErr, OnOk};
ghost use Rattle.nv_plan.specs.Drafted.{IsAsBefore, IsReadOn, IsUnread, ahead_of, front_of, left_of};

use crate::draft::Ahead;
use crate::next::Next;
use nv_mem::{NoMemory, Piece, Places};
use std::alloc::Global;

/// The bytes of a buffer that is read run by run.
#[derive(Drop)]
pub(crate) struct Source {
    /// Where they are in the guest's memory.
    pub(crate) places: Places,
    /// How many of these pieces were read.
    pub(crate) read: usize,
    /// Their bytes.
    pub(crate) bytes: Vec<u8>,
}

impl Source {
    /// A buffer of `len` bytes of which nothing was read.
    pub(crate) fn new(alloc: Global, places: Places, len: usize) -> Result<Self, NoMemory>
        ensures { IfOk result (λ source. IsUnread places source) }
    {
        let bytes = Vec::with_capacity(alloc, len)?;
        Ok(Source {
            places,
            read: 0,
            bytes,
        })
    }

    /// The run that is read next.
    pub(crate) fn ahead(&self) -> Ahead
        ensures { result ≡ front_of (left_of self.now) }
    {
        match self.places.pieces().get(self.read) {
            Some(Piece::Run { addr, len }) => Ahead::Read {
                addr: *addr,
                len: *len,
            },
            Some(Piece::Bucket { len: _ }) | None => Ahead::End,
        }
    }

    /// The same for whoever reads it.
    pub(crate) fn next(&self) -> Next
        ensures { ahead_of result ≡ front_of (left_of self.now) }
    {
        match self.ahead() {
            Ahead::Read { addr, len } => Next::Read { addr, len },
            Ahead::Turn | Ahead::End => Next::Done,
        }
    }

    /// Goes on with the bytes of the run. Where memory is refused, nothing has changed.
    pub(crate) fn feed(&mut self, run: &[u8]) -> Result<(), NoMemory>
        requires { self.old.read < length self.old.places }
        ensures ok { OnOk result (IsReadOn self.old run.now self.new) }
        ensures err { OnErr result (IsAsBefore self.old self.new) }
    {
        // There are no more pieces than a `usize` counts.
        let _known = self.places.pieces().len();
        self.bytes.extend_from_slice(run)?;
        self.read += 1;
        Ok(())
    }
}
