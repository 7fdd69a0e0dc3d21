//! The acts of a guest, as values by which a run can be described.

ghost use Rattle.std.specs.Prelude.{◌≡◌, IfOk};

use nv_mem::{BoxedBytes, NoMemory};
use std::alloc::Global;

/// What a guest does: it reads and writes its memory, its controller's registers and its doorbells.
#[derive(Debug, Drop)]
pub enum Act {
    /// Stores bytes from guest address `addr` on.
    Store { addr: u64, bytes: BoxedBytes },
    /// Loads `len` bytes from guest address `addr` on.
    Load { addr: u64, len: u64 },
    /// Reads the dword of the register at offset `offset`.
    RegRead { offset: u32 },
    /// Writes the dword of the register at offset `offset`.
    RegWrite { offset: u32, value: u32 },
    /// Writes the doorbell at offset `offset`.
    Doorbell { offset: u32, value: u32 },
}

impl Act {
    /// The same act once more, with bytes in memory of its own. Memory is taken for the bytes of a store alone.
    ///
    /// # Errors
    ///
    /// There was no memory for them.
    pub fn try_clone(&self, alloc: Global) -> Result<Self, NoMemory>
        ensures { IfOk result (λ copy. copy ≡ self.now) }
    {
        match self {
            Act::Store { addr, bytes } => {
                let bytes = BoxedBytes::from_slice(alloc, bytes.as_slice())?;
                Ok(Act::Store { addr: *addr, bytes })
            }
            Act::Load { addr, len } => Ok(Act::Load {
                addr: *addr,
                len: *len,
            }),
            Act::RegRead { offset } => Ok(Act::RegRead { offset: *offset }),
            Act::RegWrite { offset, value } => Ok(Act::RegWrite {
                offset: *offset,
                value: *value,
            }),
            Act::Doorbell { offset, value } => Ok(Act::Doorbell {
                offset: *offset,
                value: *value,
            }),
        }
    }
}
